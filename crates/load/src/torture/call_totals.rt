//! How many calls a CPU has sent, or has heard, and of which values.

ghost use Rattle.std.specs.Prelude.{◌≡◌, ◌<◌, IfSome, IfNone, replicate};
ghost use Rattle.load.specs.Kinds.{kinds};
ghost use Rattle.load.specs.Counts.{no_total, place_of, total_at, total_with, total_sum, strayed, Notes};

use crate::torture::kind::KINDS;
use smp_words::size::NR_CPUS;

/// How many calls there were, and the sum of their values, both modulo 2^64.
#[derive(Clone, Copy, PartialEq, Eq)]
pub struct CallTotal {
    pub count: u64,
    pub sum: u64,
}

impl CallTotal {
    pub const NONE: CallTotal = CallTotal { count: 0, sum: 0 };

    /// One call more, of this value.
    pub fn with(self, value: u64) -> CallTotal
        ensures { result ≡ total_with self value }
    {
        CallTotal {
            count: self.count.wrapping_add(1),
            sum: self.sum.wrapping_add(value),
        }
    }

    /// The calls of both.
    pub fn plus(self, other: CallTotal) -> CallTotal
        ensures { result ≡ total_sum self other }
    {
        CallTotal {
            count: self.count.wrapping_add(other.count),
            sum: self.sum.wrapping_add(other.sum),
        }
    }
}

/// A cell for each function and each CPU.
const CELLS: usize = KINDS * NR_CPUS as usize;

/// What one CPU has sent, or has heard: by the function, and by the CPU to or from which the calls went.
#[derive(Drop)]
pub struct CallTotals {
    cells: [CallTotal; CELLS],
    /// Calls of functions or CPUs that do not exist, modulo 2^64.
    strays: u64,
}

/// Where the calls of a function to or from a CPU are; nowhere where one of them does not exist.
fn place(func: u16, cpu: u32) -> Option<usize>
    ensures some { IfSome result (λ at. (func < kinds) × (cpu < 32) × (at < 608) × (at ≡ place_of func cpu)) }
    ensures none { IfNone result (¬ ((func < kinds) × (cpu < 32))) }
{
    if usize::from(func) < KINDS && cpu < NR_CPUS {
        Some(NR_CPUS as usize * usize::from(func) + cpu as usize)
    } else {
        None
    }
}

impl CallTotals {
    /// Nothing sent, or heard.
    pub fn new() -> CallTotals
        ensures { (result.cells ≡ replicate 608 no_total) × (result.strays ≡ 0) }
    {
        CallTotals {
            cells: [CallTotal::NONE; CELLS],
            strays: 0,
        }
    }

    /// Notes a call of this function and value, to or from this CPU.
    pub fn note(&mut self, func: u16, cpu: u32, value: u64)
        ensures { Notes func cpu value self.old self.new }
    {
        match place(func, cpu) {
            Some(at) => self.cells[at] = self.cells[at].with(value),
            None => self.stray(),
        }
    }

    /// Notes a call that nobody has made.
    pub fn stray(&mut self)
        ensures { self.new ≡ strayed self.old }
    {
        self.strays = self.strays.wrapping_add(1);
    }

    pub fn strays(&self) -> u64
        ensures { result ≡ self.now.strays }
    {
        self.strays
    }

    /// The calls of this function to or from this CPU.
    pub fn cell(&self, func: u16, cpu: u32) -> CallTotal
        ensures { func < kinds → cpu < 32 → result ≡ total_at (self.now.cells) func cpu }
    {
        match place(func, cpu) {
            Some(at) => self.cells[at],
            None => CallTotal::NONE,
        }
    }
}
