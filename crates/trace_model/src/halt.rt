//! Why an event was not made.

use crate::reason::Reason;

/// Why an event was not made: no run of the model has it, or memory ran out.
#[derive(Clone, Copy)]
pub enum Halt {
    Broken(Reason),
    NoMemory,
}
