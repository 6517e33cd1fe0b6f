//! What a `do` line answers.

use smp_mask::{CpuMask, SmpError};

/// What a `do` line answers, of its last repetition.
#[derive(Clone, Copy, Debug, PartialEq, Eq)]
pub enum Answer {
    /// A call to one CPU was made.
    Done,
    /// The CPU that was called.
    Cpu(u32),
    /// The CPUs that were called.
    Cpus(CpuMask),
    /// What the function of a stop answered.
    Number(i32),
    /// Whether a key was turned.
    Turned(bool),
    /// Nothing was made.
    Refused(SmpError),
}
