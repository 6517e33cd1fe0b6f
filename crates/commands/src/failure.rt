//! Why a text was not shown, explored or judged to its end.

ghost use Rattle.std.specs.Prelude.{◌≡◌};
ghost use Rattle.commands.specs.Failures.{failure_of};

use smp_mask::SmpError;
use std::io;
use trace_ftrace::wrong::Refusal;
use view::fault::Fault;
use view::text_kind::TextKind;

/// Why a text was not shown, explored or judged to its end.
#[derive(Clone, Copy)]
pub enum Failure {
    /// The text could not be read, for this reason of the system.
    Unread(io::Error),
    /// What was found could not be written; the reason of the system, where it gave one.
    Unwritten(Option<io::Error>),
    /// The trace of steps could not be read, for this reason of the system.
    NoTrace(io::Error),
    /// The folder that scripts are to go into is not there; the reason of the system, where it gave one.
    NoFolder(Option<io::Error>),
    /// Some scripts could not be written into their files. All else was told.
    Unsaved,
    /// A word that was named is no word of the table.
    NoWord,
    /// No outcome has the number that was named.
    NoOutcome,
    /// There is no expectation on the line that was named.
    NoExpectation,
    /// The text is of another kind than the command takes.
    OtherKind(TextKind),
    /// The text is at fault.
    Fault(Fault),
    /// What a kernel's tracer wrote is not judged.
    Kernel(Refusal),
    /// It has no line of the number that was named.
    NoLine,
    /// No line of it tells an event.
    NoEvent,
    NoMemory,
}

/// Why a call failed that reads from memory. Why its writer failed, if it did, is not known here.
pub fn failure_of(error: SmpError) -> Failure
    ensures { result ≡ failure_of error }
{
    match error {
        SmpError::BadScript { line, cause } => Failure::Fault(Fault { line, cause }),
        SmpError::StreamFailed(_) => Failure::Unwritten(None),
        SmpError::BadArgument => Failure::NoWord,
        _ => Failure::NoMemory,
    }
}
