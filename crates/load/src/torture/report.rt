//! What one CPU has made, sent and heard.

ghost use Rattle.std.specs.Prelude.{◌≡◌, ◌<◌};
ghost use Rattle.load.specs.Kinds.{index_of};
ghost use Rattle.load.specs.Counts.{answers_of};

use crate::torture::answers::Answers;
use crate::torture::call_totals::CallTotals;
use crate::torture::counts::Counts;
use crate::torture::heard::{Listener, StopListener};
use crate::torture::kind::{KINDS, Kind};

/// What one CPU has made, sent and heard.
#[derive(Drop)]
pub struct Report {
    pub number: u32,
    pub made: [Answers; KINDS],
    /// The calls and the stops that it has made, by the CPUs on which their functions were to run.
    pub sent: CallTotals,
    /// The calls that its handler has heard.
    pub heard: CallTotals,
    /// The stop functions that it has run.
    pub ran: CallTotals,
    /// How often a record of its own was still busy, modulo 2^64.
    pub retries: u64,
    /// Polls and waits in which it heard calls of other CPUs, modulo 2^64; those after its last act are one.
    pub batches: u64,
    /// Calls with wait that did not see what their source had stored before, modulo 2^64.
    pub unseen: u64,
    ghost below: { number < 32 },
}

impl Report {
    /// What a CPU has left, in its handler and its stop function.
    pub fn new(number: u32, handler: Listener<'_>, functions: StopListener) -> Report
        requires { number < 32 }
        ensures number { result.number ≡ number }
        ensures counts { (result.made ≡ handler.entry.counts.made) × (result.sent ≡ handler.entry.counts.sent) × (result.heard ≡ handler.entry.heard)
            × (result.ran ≡ functions.ran) × (result.unseen ≡ handler.entry.unseen) }
    {
        let Counts {
            made,
            sent,
            retries,
        } = handler.counts;
        Report {
            number,
            made,
            sent,
            heard: handler.heard,
            ran: functions.ran,
            retries,
            batches: handler.batches,
            unseen: handler.unseen,
        }
    }

    pub fn made(&self, kind: Kind) -> Answers
        ensures { result ≡ answers_of self.now.made (index_of kind) }
    {
        self.made[kind.index()]
    }
}
