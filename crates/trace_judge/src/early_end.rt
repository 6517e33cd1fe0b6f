//! Why a trace was not judged to its end.

use smp_mask::Cause;
use trace_model::{Event, Reason};

/// Why a trace was not judged to its end.
#[derive(Clone, Copy)]
pub enum EarlyEnd {
    /// The line of this number is at fault.
    Fault(u32, Cause),
    /// No run of the model has the event of this line and CPU.
    Broken(u32, u32, Event, Reason),
    NoMemory,
}
