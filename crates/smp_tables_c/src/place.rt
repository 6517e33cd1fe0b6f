//! Where a CPU is: outside, or at a function that its caller runs.

use smp_multi::{Answering, StopCpu};
use smp_queue::{CallCpu, Serving};

/// Where a CPU is, with its two values.
#[derive(Drop)]
pub enum CpuPlace {
    /// No function is out.
    Out(CallCpu, StopCpu),
    /// The function of a call is out.
    InCall(Serving, StopCpu),
    /// The function of a stop is out.
    InStop(CallCpu, Answering),
    /// Between two of these, within one call of this library.
    Moving,
}
