//! How the program ends.

ghost use Rattle.std.specs.Prelude.{◌≡◌};
ghost use Rattle.smp_run.specs.Status.{status_of};

use smp_mask::SmpError;
use smp_script::Outcome;

/// Why no script was run to an end of its own.
#[derive(Clone, Copy, Debug, PartialEq, Eq)]
pub enum Refusal {
    /// The words of the command line are none of this program.
    Usage,
    /// Something failed, or the script is not lawful.
    Failed(SmpError),
}

/// The status of the program: 0 where all lines of the script were run and no call is left, 2 where the words of
/// the command line are none of this program, and 1 at all else.
pub fn status_of(answer: Result<Outcome, Refusal>) -> u8
    ensures { result ≡ status_of answer }
{
    match answer {
        Ok(Outcome::Done) => 0,
        Err(Refusal::Usage) => 2,
        _ => 1,
    }
}
