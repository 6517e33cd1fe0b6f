//! The thread that watches over a machine, and makes no step of it.

use crate::flag::Flag;
use crate::torture::shared_words::SharedWords;
use smp_machine::Machine;
use smp_mask::CpuMask;
use std::alloc::Global;
use std::sync::Wait;
use std::thread;
use std::time::{Clock, Duration, Instant};

/// It looks after each of these, in milliseconds.
const PAUSE: u64 = 20;

/// What is told beside the CPUs that keep others waiting.
#[derive(Clone, Copy)]
pub enum Subject<'a> {
    /// Nothing but the name of a workload, and that only where some do.
    Workload(&'static str),
    /// How much was done.
    Torture(&'a SharedWords),
}

/// Tells standard error how much was done in these seconds, and which CPUs keep others waiting.
fn report_acts<T: Eprint>(rt: &T, seconds: u64, acts: u64, silent: CpuMask) {
    if silent.first().is_none() {
        eprintln!(rt; "load: {seconds} s, {acts} acts").is_ok();
    } else {
        eprintln!(rt; "load: {seconds} s, {acts} acts; others wait for CPU {silent}").is_ok();
    }
}

/// Tells standard error what is to be told after these seconds.
fn report<T: Eprint>(rt: &T, machine: &Machine<Global>, subject: Subject<'_>, seconds: u64) {
    let silent = machine.silent();
    match subject {
        Subject::Torture(words) => report_acts(rt, seconds, words.acts(), silent),
        Subject::Workload(name) => {
            if silent.first().is_some() {
                eprintln!(rt; "load: {name}: others wait for CPU {silent}").is_ok();
            }
        }
    }
}

/// Until all is over, tells standard error of it each time that this number of seconds has passed. Tells nothing where there is
/// no clock.
pub fn watch<T: Wait + Clock + Eprint>(
    rt: &T,
    machine: &Machine<Global>,
    subject: Subject<'_>,
    every: u32,
    over: &Flag,
) {
    let Ok(began) = Instant::now(rt) else {
        return;
    };
    let mut next = u64::from(every);
    for _ in rt.forever() {
        if over.is_set() {
            return;
        }
        thread::sleep(rt, Duration::from_millis(PAUSE));
        let Ok(now) = Instant::now(rt) else {
            return;
        };
        let seconds = now.duration_since(began).as_secs();
        if seconds >= next {
            report(rt, machine, subject, seconds);
            next = seconds.saturating_add(u64::from(every));
        }
    }
    unreachable!()
}
