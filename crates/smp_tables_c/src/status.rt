//! The numbers that C gets.

ghost use Rattle.std.specs.Prelude.{◌≡◌};
ghost use Rattle.smp_tables_c.specs.Status.{number_of, status_of, yes_of};

use smp_mask::SmpError;

/// An argument that the call does not take.
pub const BAD_ARGUMENT: i32 = -4;
/// The handle is closed.
pub const CLOSED: i32 = -20;
/// A function of this CPU is out.
pub const INSIDE: i32 = -21;
/// No function of this CPU is out.
pub const OUTSIDE: i32 = -22;

/// The number of an error: that of its name, below 0.
pub fn number(error: SmpError) -> i32
    ensures { result ≡ number_of error }
{
    match error {
        SmpError::NoCpu => -1,
        SmpError::Busy => -2,
        SmpError::NoStopper => -3,
        SmpError::BadArgument => -4,
        SmpError::Contended => -5,
        SmpError::NoMemory => -6,
        SmpError::Stale => -7,
        SmpError::SlotBusy => -8,
        SmpError::BadScript { .. } => -9,
        SmpError::IdleStep => -10,
        SmpError::BadMask { .. } => -11,
        SmpError::StreamFailed(_) => -12,
        SmpError::KeyRange(_) => -13,
    }
}

/// 0, or the number of an error.
pub fn status(answer: Result<(), SmpError>) -> i32
    ensures { result ≡ status_of answer }
{
    match answer {
        Ok(()) => 0,
        Err(error) => number(error),
    }
}

/// 1 for yes, 0 for no, or the number of an error.
pub fn yes(answer: Result<bool, SmpError>) -> i32
    ensures { result ≡ yes_of answer }
{
    match answer {
        Ok(true) => 1,
        Ok(false) => 0,
        Err(error) => number(error),
    }
}
