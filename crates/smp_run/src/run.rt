//! A script, from its lines to the text of its answers.

ghost use Rattle.std.specs.Prelude.{◌≡◌, ◌≤◌, string_bytes, IfOk, IfErr, None};
ghost use Rattle.smp_words.specs.Limits.{AreLimits};
ghost use Rattle.smp_machine.specs.MachineCpu.{IsFull};
ghost use Rattle.smp_script.specs.Script.{first_line};
ghost use Rattle.smp_script.specs.MeaningOf.{meaning_of};
ghost use Rattle.smp_run.specs.Driven.{AreJoined};
ghost use Rattle.smp_run.specs.Runs.{Printed, Prints, is_left, labels_of};
ghost use Rattle.smp_run.specs.Seats.{AreLines};

use crate::answer::Answer;
use crate::driver::Lines;
use crate::launch::{Driven, run_all};
use crate::pace::Pace;
use crate::reading::read_labels;
use crate::text::{write_answers, write_ending};
use smp_labels::LabelMap;
use smp_machine::{Machine, MachineBoot};
use smp_mask::SmpError;
use smp_queue::Audit;
use smp_script::directive::Directive;
use smp_script::script::Script;
use std::alloc::{AllocError, Allocator};
use std::sync::Wait;
use std::thread::Threads;

/// What a run printed, and whether calls were left.
#[derive(Drop)]
pub struct Ran<A: Allocator> {
    pub text: String<A>,
    pub left: bool,
}

fn is_left(audit: &Audit) -> bool
    ensures { result ≡ is_left audit.now }
{
    match audit {
        Audit::Drained(_) => false,
        Audit::Left(_) => true,
    }
}

/// What a script asks for: its labels, and its lines from the one of this number on.
#[derive(Clone, Copy)]
struct Asked<'a> {
    labels: &'a LabelMap,
    first: usize,
    lines: &'a [Directive],
}

/// Reads the labels, gives up the machine and its last CPU, and tells the answers to what was asked.
fn finish<A: Allocator + Copy>(
    alloc: A,
    machine: Machine<A>,
    asked: Asked,
    driven: Driven<A>,
) -> Result<Ran<A>, AllocError>
    requires limits { AreLimits machine.calls.nr machine.calls.online }
    requires first { asked.first ≤ 4 }
    requires labels { machine.stops.setting.labels ≡ asked.labels.now }
    requires lawful { AreLines machine.calls.online asked.lines.now }
    requires joined { AreJoined machine asked.lines.now driven.last driven.answers.items }
    ensures { IfOk result (λ r. Prints machine.calls.nr machine.calls.online asked.entry.labels.now asked.entry.first asked.entry.lines.now
        (string_bytes r.text) r.left) }
{
    let Driven { answers, mut last } = driven;
    let read = read_labels(alloc, &machine, asked.labels, &mut last)?;
    let online = machine.online();
    let audit = machine.shutdown(last);
    let mut text = String::new(alloc);
    write_answers(&mut text, asked.first, answers.as_slice())?;
    write_ending(&mut text, online, &read, &audit)?;
    let left = is_left(&audit);
    Ok(Ran { text, left })
}

/// The labels of a script: none where it has no labels line.
fn labels_of<'a, A: Allocator>(script: &'a Script<A>, none: &'a LabelMap) -> &'a LabelMap
    requires { none.now ≡ labels_of None }
    ensures { result.now ≡ labels_of script.now.labels }
{
    match &script.labels {
        Some(labels) => labels,
        None => none,
    }
}

/// The number of the first line that asks for something.
fn first_of<A: Allocator>(script: &Script<A>) -> usize
    ensures value { result ≡ first_line script.now.labels }
    ensures few { result ≤ 4 }
{
    if script.labels.is_some() { 4 } else { 3 }
}

/// Drives the CPUs of a machine that has made no call by the lines of a script.
fn run_machine<R: Threads + Wait + Sync, P: Pace + Sync, A: Allocator + Copy + Send + Sync>(
    rt: &R,
    alloc: A,
    opened: (Machine<A>, MachineBoot<A>),
    script: &Script<A>,
    pace: &P,
) -> Result<Ran<A>, AllocError>
    requires limits { AreLimits script.now.nr script.now.online }
    requires lawful { AreLines script.now.online script.now.directives.items }
    requires nr { opened.0.calls.nr ≡ script.now.nr }
    requires online { opened.0.calls.online ≡ script.now.online }
    requires full { IsFull opened.1 opened.0 }
    requires labels { opened.0.stops.setting.labels ≡ labels_of script.now.labels }
    ensures { IfOk result (λ r. Printed (meaning_of script.now) (string_bytes r.text) r.left) }
{
    let (machine, boot) = opened;
    let lines = script.directives.as_slice();
    let answers = Vec::from_elem(alloc, Answer::Done, lines.len())?;
    let crew = Lines { alloc, lines, pace };
    let Some(driven) = run_all(rt, &machine, boot, &crew, answers) else {
        return Err(AllocError);
    };
    let none = LabelMap::empty();
    let asked = Asked {
        labels: labels_of(script, &none),
        first: first_of(script),
        lines,
    };
    finish(alloc, machine, asked, driven)
}

/// Drives each CPU of a run script that is online on a thread of its own, from a machine with no calls, no stops and all
/// keys off: what it prints. `NoMemory` where a growth is refused or a thread can't be started. That is before any CPU has
/// begun, or once all have ended.
pub fn run_lines<R: Threads + Wait + Sync, P: Pace + Sync, A: Allocator + Copy + Send + Sync>(
    rt: &R,
    alloc: A,
    script: &Script<A>,
    pace: &P,
) -> Result<Ran<A>, SmpError>
    requires limits { AreLimits script.now.nr script.now.online }
    requires lawful { AreLines script.now.online script.now.directives.items }
    ensures ran { IfOk result (λ r. Printed (meaning_of script.now) (string_bytes r.text) r.left) }
    ensures err { IfErr result (λ e. e ≡ SmpError.NoMemory) }
{
    let none = LabelMap::empty();
    let labels = labels_of(script, &none);
    let Ok(opened) = Machine::new(alloc, script.nr, script.online, labels) else {
        return Err(SmpError::NoMemory);
    };
    match run_machine(rt, alloc, opened, script, pace) {
        Ok(ran) => Ok(ran),
        Err(_) => Err(SmpError::NoMemory),
    }
}
