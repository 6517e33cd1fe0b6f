//! Address spaces, and how many of their entries the TLBs have dropped.

use smp_mask::CpuMask;
use std::sync::atomic::{AtomicU64, Ordering};

/// How many address spaces are dropped.
pub const SPACES: usize = 4;

/// An address space, and the CPUs that use it (`mm_cpumask`).
#[derive(Clone, Copy)]
pub struct AddressSpace {
    pub id: u64,
    pub users: CpuMask,
}

/// How many entries of each address space all TLBs have dropped. Threads share it by reference.
#[derive(Drop)]
pub struct Gone {
    counts: [AtomicU64; SPACES],
}

impl Gone {
    pub fn new() -> Gone {
        Gone {
            counts: [
                AtomicU64::new(0),
                AtomicU64::new(0),
                AtomicU64::new(0),
                AtomicU64::new(0),
            ],
        }
    }

    /// Counts this number of entries more.
    pub fn add(&self, space: u64, entries: usize) {
        if let Some(count) = self.counts.get(space as usize) {
            count.fetch_add(entries as u64, Ordering::SeqCst);
        }
    }

    /// How many entries of this address space are gone.
    pub fn of(&self, space: u64) -> u64 {
        match self.counts.get(space as usize) {
            Some(count) => count.load(Ordering::SeqCst),
            None => 0,
        }
    }
}
