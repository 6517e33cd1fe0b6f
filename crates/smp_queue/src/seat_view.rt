//! What a seat at the table knows.

use smp_call_steps::known::{CallSetting, KnownCalls};

/// What a seat knows: the first seat which CPUs have one and what the table is made with, each other its CPU's part
/// of the calls.
pub enum CallSeatView {
    /// The CPUs below this number have a seat.
    Maker(u32, CallSetting),
    /// The seat of this CPU, which has made no step.
    New(u32, CallSetting),
    /// What this seat's CPU knows, once it has made a step.
    Cpu(KnownCalls),
}
