//! The numbers of errors.

ghost use Rattle.std.specs.Prelude.{◌≡◌};
ghost use Rattle.smp_script.specs.Errors.{error_number};

use smp_mask::SmpError;

/// The number of an error, as it is printed behind its `E`.
pub fn number_of(error: SmpError) -> u32
    ensures { result ≡ error_number error }
{
    match error {
        SmpError::NoCpu => 1,
        SmpError::Busy => 2,
        SmpError::NoStopper => 3,
        SmpError::BadArgument => 4,
        SmpError::Contended => 5,
        SmpError::NoMemory => 6,
        SmpError::Stale => 7,
        SmpError::SlotBusy => 8,
        SmpError::BadScript { .. } => 9,
        SmpError::IdleStep => 10,
        SmpError::BadMask { .. } => 11,
        SmpError::StreamFailed(_) => 12,
        SmpError::KeyRange(_) => 13,
    }
}
