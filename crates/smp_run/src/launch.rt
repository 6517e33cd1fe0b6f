//! A thread for each CPU, and what all have answered.

ghost use Rattle.std.specs.Prelude.{◌≡◌, ◌≢◌, length, vec_len, IfSome, MatchOption};
ghost use Rattle.smp_mask.specs.Mask.{members};
ghost use Rattle.smp_words.specs.Limits.{AreLimits};
ghost use Rattle.smp_machine.specs.MachineCpu.{IsFull};
ghost use Rattle.smp_run.specs.Answers.{Gathers, cpu_of};
ghost use Rattle.smp_run.specs.Driven.{AreDriven, AreJoined};
ghost use Rattle.smp_run.specs.Seats.{AreLines};

use crate::answer::Answer;
use crate::driver::Lines;
use crate::pace::{Echo, Pace, Paced};
use smp_machine::{Cpu, Machine, MachineBoot, Played, run_cpus};
use smp_script::directive::Directive;
use std::alloc::Allocator;
use std::sync::Wait;
use std::thread::Threads;

/// A CPU of a run that is back.
type Back<'a, P, A> = Played<Paced<'a, P, A>, Echo, A>;

/// The CPU that a line is of.
fn cpu_of(line: &Directive) -> u32
    ensures { result ≡ cpu_of line.now }
{
    match line {
        Directive::Do(cpu, _, _) => *cpu,
        _ => 0,
    }
}

/// The answers of one CPU, put among those of all.
fn gather(lines: &[Directive], number: u32, from: &[Answer], answers: &mut [Answer])
    requires sized { length answers.old ≡ length lines.now }
    requires from { length from.now ≡ length lines.now }
    ensures sized { length answers.new ≡ length lines.now }
    ensures own { Gathers (λ c. c ≡ number) lines.now from.now answers.new (length lines.now) }
    ensures others { Gathers (λ c. c ≢ number) lines.now answers.old answers.new (length lines.now) }
{
    for at in 0..lines.len() {
        if cpu_of(&lines[at]) == number {
            answers[at] = from[at];
        }
    }
}

/// The first of some CPUs.
fn first_of<A: Allocator>(first: Option<Cpu<A>>, next: Cpu<A>) -> Cpu<A>
    ensures { MatchOption first (result ≡ next) (λ c. result ≡ c) }
{
    match first {
        Some(cpu) => cpu,
        None => next,
    }
}

/// Puts the answers of each CPU among those of all: the lowest CPU. None where there is no CPU.
fn gather_all<'a, P: Pace, A: Allocator>(
    machine: &Machine<A>,
    lines: &[Directive],
    back: Vec<Back<'a, P, A>, A>,
    answers: &mut [Answer],
) -> Option<Cpu<A>>
    requires limits { AreLimits machine.now.calls.nr machine.now.calls.online }
    requires sized { length answers.old ≡ length lines.now }
    requires back { AreDriven machine.now lines.now (members machine.now.calls.online) back.items }
    ensures { IfSome result (λ cpu. AreJoined machine.now lines.now cpu answers.new) }
{
    let mut last = None;
    for played in back {
        let Played { cpu, handler, .. } = played;
        gather(lines, cpu.number(), handler.answers.as_slice(), answers);
        last = Some(first_of(last, cpu));
    }
    last
}

/// What a run gives: the answers of all lines, and the lowest CPU.
#[derive(Drop)]
pub struct Driven<A: Allocator> {
    pub answers: Vec<Answer, A>,
    pub last: Cpu<A>,
}

/// Runs each CPU on a thread of its own, which makes its lines. None where a thread can't be started, or memory is refused:
/// then no CPU has begun.
pub(crate) fn run_all<R: Wait + Threads + Sync, P: Pace + Sync, A: Allocator + Copy + Send + Sync>(
    rt: &R,
    machine: &Machine<A>,
    boot: MachineBoot<A>,
    crew: &Lines<'_, P, A>,
    mut answers: Vec<Answer, A>,
) -> Option<Driven<A>>
    requires limits { AreLimits machine.now.calls.nr machine.now.calls.online }
    requires full { IsFull boot machine.now }
    requires lawful { AreLines machine.now.calls.online crew.now.lines.now }
    requires sized { vec_len answers ≡ length crew.now.lines.now }
    ensures { IfSome result (λ d. AreJoined machine.now crew.now.lines.now d.last d.answers.items) }
{
    let Ok(back) = run_cpus(rt, crew.alloc, machine, boot, crew) else {
        return None;
    };
    let last = gather_all(machine, crew.lines, back, answers.as_mut_slice())?;
    Some(Driven { answers, last })
}
