//! What the threads of a torture share beside the machine.

use crate::flag::Flag;
use crossbeam_utils::CachePadded;
use smp_words::size::NR_CPUS;
use std::array;
use std::sync::atomic::{AtomicU64, Ordering};

/// What one CPU alone stores, and others load.
#[derive(Drop)]
struct Row {
    /// The number that this CPU has stored before its last call with wait.
    asked: AtomicU64,
    /// For each source the number that this CPU's handler has stored for the source's last call with wait.
    answered: [AtomicU64; NR_CPUS as usize],
    /// How much this CPU has done, modulo 2^64.
    acts: AtomicU64,
}

impl Row {
    /// Nothing asked, answered or done.
    fn new() -> Row {
        Row {
            asked: AtomicU64::new(0),
            answered: array::from_fn(|_| AtomicU64::new(0)),
            acts: AtomicU64::new(0),
        }
    }
}

/// What the threads of a torture share beside the machine. Its data are stored and loaded as weakly as they can be: a call alone
/// orders them. No two CPUs store to one cache line.
#[derive(Drop)]
pub struct SharedWords {
    rows: [CachePadded<Row>; NR_CPUS as usize],
    /// Set once all CPUs have ended.
    pub over: Flag,
}

impl SharedWords {
    /// Nothing asked, answered or done.
    pub fn new() -> SharedWords {
        SharedWords {
            rows: array::from_fn(|_| CachePadded::new(Row::new())),
            over: Flag::new(),
        }
    }

    /// What a CPU stores, by its number modulo 32.
    fn row(&self, cpu: u32) -> &Row {
        &self.rows[(cpu % NR_CPUS) as usize]
    }

    /// A CPU asks by this number: it is stored before the call with wait that tells it.
    pub fn ask(&self, source: u32, number: u64) {
        self.row(source).asked.store(number, Ordering::Relaxed);
    }

    /// The handler of a CPU answers a call with wait: whether it sees what the source has stored before.
    pub fn answer(&self, cpu: u32, source: u32, number: u64) -> bool {
        self.row(cpu).answered[(source % NR_CPUS) as usize].store(number, Ordering::Relaxed);
        self.row(source).asked.load(Ordering::Relaxed) == number
    }

    /// Whether the source sees, after its wait, what the handler of a CPU has stored for this number.
    pub fn is_answered(&self, cpu: u32, source: u32, number: u64) -> bool {
        self.row(cpu).answered[(source % NR_CPUS) as usize].load(Ordering::Relaxed) == number
    }

    /// A CPU has done this much.
    pub fn note_acts(&self, cpu: u32, acts: u64) {
        self.row(cpu).acts.store(acts, Ordering::Relaxed);
    }

    /// How much all CPUs have done, modulo 2^64.
    pub fn acts(&self) -> u64 {
        let mut sum = 0u64;
        for row in &self.rows {
            sum = sum.wrapping_add(row.acts.load(Ordering::Relaxed));
        }
        sum
    }
}
