//! A thread for each CPU.

ghost use Rattle.std.specs.Prelude.{◌≡◌, ◌∷◌, ◌++◌, [], IfOk};
ghost use Rattle.smp_mask.specs.Mask.{members};
ghost use Rattle.smp_machine.specs.MachineCpu.{IsAt, IsFull};
ghost use Rattle.load.specs.Ends.{AreAt, reported, returned};

use crate::error::LoadError;
use crate::torture::heard::{Listener, StopListener};
use crate::torture::report::Report;
use crate::torture::schedule::Schedule;
use crate::torture::shared_words::SharedWords;
use crate::torture::torturer::{TortureSeat, Torturer};
use crate::watch::{Subject, watch};
use smp_machine::{Cpu, Crew, Machine, MachineBoot, Played, run_cpus};
use std::alloc::{AllocError, Global};
use std::sync::Wait;
use std::thread;
use std::thread::Threads;
use std::time::Clock;

/// What is left of a torture: the last CPU, and what each CPU has done, in the order of their numbers.
#[derive(Drop)]
pub struct Ended {
    pub last: Cpu<Global>,
    pub reports: Vec<Report, Global>,
}

/// What each CPU does: calls and stops at random.
#[derive(Drop)]
struct TortureCrew<'e, T> {
    clock: &'e T,
    schedule: &'e Schedule,
    words: &'e SharedWords,
}

impl<'e, T: Clock> Crew<Listener<'e>, StopListener, Global> for TortureCrew<'e, T> {
    ghost begins = { λ _ _ _ _. Unit {0} };

    ghost plays = { λ _ _ _. Unit {0} };

    fn make(&self, cpu: u32) -> Result<(Listener<'e>, StopListener), AllocError> {
        Ok((Listener::new(cpu, self.words), StopListener::new(cpu)))
    }

    fn play<R: Wait>(&self, seat: &mut TortureSeat<'_, 'e, R>) {
        let mut torturer = Torturer::new(self.clock, self.schedule, self.words, seat.number());
        torturer.act_all(seat);
        seat.handler.fresh = true;
        seat.handler.counts = torturer.counts;
    }
}

/// Puts what a CPU has done behind what others have: the CPU.
fn put_report(
    reports: &mut Vec<Report, Global>,
    played: Played<Listener<'_>, StopListener, Global>,
) -> Result<Cpu<Global>, LoadError>
    ensures cpu { IfOk result (λ cpu. cpu ≡ played.entry.cpu) }
    ensures report { IfOk result (λ _. reported reports.new.items ≡ reported reports.old.items ++ played.entry.cpu.calls.number ∷ []) }
{
    let Played {
        cpu,
        handler,
        functions,
    } = played;
    reports.push(Report::new(cpu.number(), handler, functions))?;
    Ok(cpu)
}

/// Puts what each of these CPUs has done behind what others have.
fn put_reports(
    reports: &mut Vec<Report, Global>,
    played: Vec<Played<Listener<'_>, StopListener, Global>, Global>,
) -> Result<(), LoadError>
    ensures { IfOk result (λ _. reported reports.new.items ≡ reported reports.old.items ++ returned played.entry.items) }
{
    for one in played {
        put_report(reports, one)?;
    }
    Ok(())
}

/// The last of the CPUs that have played their parts, and what each has done.
#[tactic(auto, using(crate::proofs::Ending::last_returned))]
fn reports_of(
    alloc: Global,
    machine: &Machine<Global>,
    mut played: Vec<Played<Listener<'_>, StopListener, Global>, Global>,
) -> Result<Ended, LoadError>
    requires at { AreAt machine.now played.items }
    ensures at { IfOk result (λ e. IsAt machine.now e.last) }
    ensures each { IfOk result (λ e. reported e.reports.items ≡ returned played.entry.items) }
{
    let _ = machine;
    let Some(back) = played.pop() else {
        return Err(LoadError::NoThread);
    };
    let mut reports = Vec::new(alloc);
    put_reports(&mut reports, played)?;
    let last = put_report(&mut reports, back)?;
    Ok(Ended { last, reports })
}

/// Runs each CPU of a machine on a thread of its own, as `torture`, with these words beside it.
#[tactic(auto, using(crate::proofs::Ending::all_at, crate::proofs::Ending::all_returned))]
fn torture_all<R: Wait + Threads + Clock + Sync>(
    rt: &R,
    alloc: Global,
    shared: (&Schedule, &SharedWords),
    machine: &Machine<Global>,
    boot: MachineBoot<Global>,
) -> Result<Ended, LoadError>
    requires { IsFull boot machine.now }
    ensures at { IfOk result (λ e. IsAt machine.now e.last) }
    ensures each { IfOk result (λ e. reported e.reports.items ≡ members machine.now.calls.online) }
{
    let (schedule, words) = shared;
    let crew = TortureCrew {
        clock: rt,
        schedule,
        words,
    };
    let back = run_cpus(rt, alloc, machine, boot, &crew);
    words.over.set();
    match back {
        Ok(played) => reports_of(alloc, machine, played),
        Err(_) => Err(LoadError::NoThread),
    }
}

/// Runs each CPU of a machine on a thread of its own, and one more thread that watches over them: a CPU that no thread knows any
/// more, and what all have done. A torture goes on where no thread is to be had for the watch.
pub fn torture<R: Wait + Threads + Clock + Eprint + Sync>(
    rt: &R,
    alloc: Global,
    schedule: &Schedule,
    machine: &Machine<Global>,
    boot: MachineBoot<Global>,
) -> Result<Ended, LoadError>
    requires { IsFull boot machine.now }
    ensures at { IfOk result (λ e. IsAt machine.now e.last) }
    ensures each { IfOk result (λ e. reported e.reports.items ≡ members machine.now.calls.online) }
{
    let words = SharedWords::new();
    let every = schedule.request.report;
    thread::scope(
        thread::scope_env(),
        rt,
        |scope| -> Result<Ended, LoadError>
            requires { IsFull boot machine.now }
            ensures at { IfOk result (λ e. IsAt machine.entry.now e.last) }
            ensures each { IfOk result (λ e. reported e.reports.items ≡ members machine.entry.now.calls.online) }
        {
            let _watcher = scope
                .spawn(|| watch(rt, machine, Subject::Torture(&words), every, &words.over))
                .ok();
            torture_all(rt, alloc, (schedule, &words), machine, boot)
        },
    )
}
