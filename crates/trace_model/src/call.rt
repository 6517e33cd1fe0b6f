//! Calls as a trace tells them.

ghost use Rattle.std.specs.Prelude.{◌≡◌};
ghost use Rattle.trace_model.specs.Places.{is_batch};

use smp_words::call::Class;

/// A call that was queued and has not ended.
#[derive(Clone, Copy, Debug, PartialEq, Eq)]
pub struct Call {
    /// The CPU that has queued it.
    pub source: u32,
    /// The number that the trace gives its record.
    pub id: u16,
    pub class: Class,
    pub func: u64,
    pub info: u64,
}

/// How far a CPU is with the call that it runs.
#[derive(Clone, Copy, Debug, PartialEq, Eq)]
pub enum Progress {
    /// An ASYNC call: its record is unlocked, and its function has not begun.
    Unlocked,
    /// Its function has begun.
    Runs,
    /// A SYNC call: its function has returned, and its record is locked.
    Ended,
}

/// The call that a CPU runs.
#[derive(Clone, Copy, Debug, PartialEq, Eq)]
pub struct Current {
    pub progress: Progress,
    pub call: Call,
}

/// Where a record is.
#[derive(Clone, Copy, Debug, PartialEq, Eq)]
pub enum Place {
    Free,
    /// In the queue of this CPU.
    Queue(u32),
    /// In the batch that this CPU has taken.
    Batch(u32),
    /// Of a SYNC call that this CPU runs.
    Run(u32),
}

impl Place {
    /// Whether it is in the batch of a CPU.
    pub(crate) fn is_batch(self, cpu: u32) -> bool
        ensures { result ≡ is_batch self cpu }
    {
        match self {
            Place::Batch(other) => other == cpu,
            _ => false,
        }
    }
}
