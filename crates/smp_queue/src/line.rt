//! A line of CPUs that wait asleep for one lock. No step of a table is made here, and no word of one is read.
//!
//! A CPU marks itself, then tries to take the lock, and sleeps where another one holds it. It is marked for that try and that sleep
//! alone, and tries again behind them. So a marked CPU runs no function before it tries. A CPU that gives the lock up then gives the turn
//! to one of those that are marked, and rings its alarm alone. A CPU does not try while it is the turn of another one.
//!
//! That one is about to try: it takes the lock, or finds it taken. The CPU that holds it then gives the next turn.

use crate::alarms::Alarm;
use smp_words::size::NR_CPUS;
use std::sync::Wait;
use std::sync::atomic::{AtomicU32, AtomicU64, Ordering};

/// The CPUs that are marked, and whose turn it is.
#[derive(Drop)]
pub(crate) struct Line {
    /// In the low half a bit for each CPU that is marked. In the high half the bit of the CPU whose turn it is; that one is marked.
    places: AtomicU64,
    /// From which CPU on the next turn is given, modulo 32.
    first: AtomicU32,
}

/// The bit of a CPU that is marked, by its number modulo 32.
fn mark_of(cpu: u32) -> u64 {
    1 << (cpu % NR_CPUS)
}

/// The bit of a CPU whose turn it is, by its number modulo 32.
fn turn_of(cpu: u32) -> u64 {
    mark_of(cpu) << NR_CPUS
}

/// The next of the CPUs that are marked, from this one on.
fn next_of(places: u64, first: u32) -> Option<u32> {
    for place in 0..NR_CPUS {
        let cpu = first.wrapping_add(place) % NR_CPUS;
        if places & mark_of(cpu) != 0 {
            return Some(cpu);
        }
    }
    None
}

/// These marks with the turn of the next CPU that is marked, or `None` where no CPU is.
fn with_next_turn(places: u64, first: u32) -> Option<u64> {
    let cpu = next_of(places, first)?;
    Some(places & 0xffff_ffff | turn_of(cpu))
}

impl Line {
    /// A line in which no CPU is marked.
    pub(crate) fn new() -> Line {
        Line {
            places: AtomicU64::new(0),
            first: AtomicU32::new(0),
        }
    }

    /// Whether it is the turn of another CPU.
    pub(crate) fn is_turn_of_another(&self, cpu: u32) -> bool {
        self.places.load(Ordering::SeqCst) >> NR_CPUS & !mark_of(cpu) != 0
    }

    /// Marks a CPU whose alarm is set.
    pub(crate) fn mark<'a>(&'a self, cpu: u32, alarm: Alarm<'a>) -> Place<'a> {
        self.places.fetch_or(mark_of(cpu), Ordering::SeqCst);
        Place {
            alarm,
            mark: Mark { line: self, cpu },
        }
    }

    /// Gives the turn to the next CPU that is marked: that CPU.
    pub(crate) fn give_turn(&self) -> Option<u32> {
        if self.places.load(Ordering::SeqCst) == 0 {
            return None;
        }
        let first = self.first.load(Ordering::SeqCst);
        let places = self
            .places
            .fetch_update(Ordering::SeqCst, Ordering::SeqCst, |places| {
                with_next_turn(places, first)
            })
            .ok()?;
        let cpu = next_of(places, first)?;
        self.first.store(cpu.wrapping_add(1), Ordering::SeqCst);
        Some(cpu)
    }
}

/// The mark of a CPU. Drop it to clear it, and the CPU's turn with it.
struct Mark<'a> {
    line: &'a Line,
    cpu: u32,
}

impl Drop for Mark<'_> {
    fn drop(self) {
        let Self { line, cpu } = self;
        let bits = mark_of(cpu) | turn_of(cpu);
        line.places.fetch_and(!bits, Ordering::SeqCst);
    }
}

/// A place in the line: the CPU's alarm is set, and it is marked. Drop it to stay awake.
#[derive(Drop)]
pub(crate) struct Place<'a> {
    alarm: Alarm<'a>,
    mark: Mark<'a>,
}

impl<'a> Place<'a> {
    /// Sleeps until the alarm rings, and is marked no more then.
    pub(crate) fn sleep<R: Wait>(self, rt: &R) {
        let Place { alarm, mark: _mark } = self;
        alarm.sleep(rt);
    }
}
