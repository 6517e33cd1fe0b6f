//! Where CPUs sleep while nothing is for them. No step of a table is made here, and no word of one is read.
//!
//! A CPU sets its alarm, then looks whether anything is for it, and sleeps only where it found nothing. The other CPUs ring
//! its alarm after the step that leaves it something. So either the look finds that, or the alarm rings after it was set.

use crate::line::Line;
use crossbeam_utils::CachePadded;
use crossbeam_utils::sync::{EventCount, Key};
use smp_words::size::NR_CPUS;
use std::array;
use std::sync::Wait;
use std::sync::atomic::{AtomicU32, Ordering};

/// An alarm for each CPU, which CPUs wait for another one's step, and which ones wait in line for a lock.
#[derive(Drop)]
pub(crate) struct Alarms {
    /// Each alarm has cache lines of its own, since its CPU writes it whenever it rests or waits.
    each: [CachePadded<EventCount>; NR_CPUS as usize],
    waiters: CachePadded<Waiters>,
    line: CachePadded<Line>,
}

/// The CPUs that wait for another one's step.
#[derive(Drop)]
struct Waiters {
    /// A bit for each CPU, set while it waits with its alarm set.
    bits: AtomicU32,
    /// The CPU that is woken first, modulo 32: the next one each time, so that none is always the last.
    first: AtomicU32,
}

impl Alarms {
    /// Alarms that no CPU has set.
    pub(crate) fn new() -> Alarms {
        Alarms {
            each: array::from_fn(|_| CachePadded::new(EventCount::new())),
            waiters: CachePadded::new(Waiters {
                bits: AtomicU32::new(0),
                first: AtomicU32::new(0),
            }),
            line: CachePadded::new(Line::new()),
        }
    }

    /// The CPUs that wait in line for a lock.
    pub(crate) fn line(&self) -> &Line {
        &self.line
    }

    /// The alarm of a CPU, by its number modulo 32.
    fn of(&self, cpu: u32) -> &EventCount {
        &self.each[(cpu % NR_CPUS) as usize]
    }

    /// Sets the alarm of a CPU.
    pub(crate) fn set(&self, cpu: u32) -> Alarm<'_> {
        Alarm {
            key: self.of(cpu).prepare_wait(),
        }
    }

    /// Sets the alarm of a CPU that waits for another one's step. Where the CPU waits within a wait, the outer one keeps its bit.
    pub(crate) fn set_waiting(&self, cpu: u32) -> WaitAlarm<'_> {
        let bit = 1 << (cpu % NR_CPUS);
        let before = self.waiters.bits.fetch_or(bit, Ordering::SeqCst);
        let bit = WaitBit {
            alarms: self,
            bit: bit & !before,
        };
        WaitAlarm {
            alarm: self.set(cpu),
            bit,
        }
    }

    /// Sets the alarm of a CPU that is woken by its number alone.
    pub(crate) fn set_alone(&self, cpu: u32) -> WaitAlarm<'_> {
        WaitAlarm {
            alarm: self.set(cpu),
            bit: WaitBit {
                alarms: self,
                bit: 0,
            },
        }
    }

    /// Rings the alarm of a CPU, if it is set.
    pub(crate) fn ring(&self, cpu: u32) {
        self.of(cpu).notify_one();
    }

    /// Rings the alarm of each CPU that waits with its alarm set.
    pub(crate) fn ring_waiting(&self) {
        let waiting = self.waiters.bits.load(Ordering::SeqCst);
        if waiting != 0 {
            self.ring_each(waiting);
        }
    }

    /// Gives the turn to the next CPU that is marked in the line, and rings its alarm.
    pub(crate) fn ring_next(&self) {
        if let Some(cpu) = self.line.give_turn() {
            self.ring(cpu);
        }
    }

    /// Rings the alarms of these CPUs, each time from another one on.
    #[inline(never)]
    fn ring_each(&self, waiting: u32) {
        let first = self.waiters.first.fetch_add(1, Ordering::SeqCst);
        for place in 0..NR_CPUS {
            let cpu = first.wrapping_add(place) % NR_CPUS;
            if waiting & (1 << cpu) != 0 {
                self.ring(cpu);
            }
        }
    }
}

/// An alarm that is set. Drop it to stay awake.
#[derive(Drop)]
pub struct Alarm<'a> {
    key: Key<'a>,
}

impl<'a> Alarm<'a> {
    /// Sleeps until the alarm rings. It returns at once where the alarm has rung since it was set.
    pub fn sleep<R: Wait>(self, rt: &R) {
        let Alarm { key } = self;
        key.wait(rt);
    }
}

/// The bit that a wait has set, 0 where it was set before. Drop it to clear that bit.
pub(crate) struct WaitBit<'a> {
    alarms: &'a Alarms,
    bit: u32,
}

impl Drop for WaitBit<'_> {
    fn drop(self) {
        let Self { alarms, bit } = self;
        alarms.waiters.bits.fetch_and(!bit, Ordering::SeqCst);
    }
}

/// The alarm of a CPU that waits for another one's step. Drop it to stay awake.
#[derive(Drop)]
pub(crate) struct WaitAlarm<'a> {
    alarm: Alarm<'a>,
    bit: WaitBit<'a>,
}

impl<'a> WaitAlarm<'a> {
    /// Sleeps until the alarm rings.
    pub(crate) fn sleep<R: Wait>(self, rt: &R) {
        let WaitAlarm { alarm, bit: _bit } = self;
        alarm.sleep(rt);
    }
}
