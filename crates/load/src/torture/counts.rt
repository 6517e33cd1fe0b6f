//! What one CPU has done.

use crate::torture::answers::Answers;
use crate::torture::call_totals::CallTotals;
use crate::torture::kind::KINDS;

/// What one CPU has made and sent.
#[derive(Drop)]
pub struct Counts {
    pub made: [Answers; KINDS],
    /// The calls and the stops that it has made, by the CPUs on which their functions were to run.
    pub sent: CallTotals,
    /// How often a record of its own was still busy, modulo 2^64.
    pub retries: u64,
}

impl Counts {
    /// Nothing made, or sent.
    pub fn new() -> Counts {
        Counts {
            made: [Answers::NONE; KINDS],
            sent: CallTotals::new(),
            retries: 0,
        }
    }
}
