//! How the program ends.

ghost use Rattle.std.specs.Prelude.{◌≡◌};
ghost use Rattle.commands.specs.Status.{status_of};

use crate::failure::Failure;
use explore_text::Ending;
use smp_script::Outcome;
use trace_judge::Ruling;

/// How a text was shown, explored or judged to its end.
#[derive(Clone, Copy, Debug, PartialEq, Eq)]
pub enum Answer {
    /// By `lanes`, `svg` or `explain`.
    Shown(Outcome),
    /// By `explore`, `sample` or `script`.
    Explored(Ending),
    /// By `judge`.
    Judged(Ruling),
}

/// The status of the program.
///
/// - 0 where it is done: all lines of a script were run, no text is at fault, all expectations hold, no run of a sample
///   breaks one, a run is written down, or the trace is lawful.
/// - 1 where the answer is no: an event was refused, a fault was explained, an expectation is broken, or the trace is not
///   lawful.
/// - 2 where it could not be done, or a limit was met before it was decided.
pub fn status_of(answer: Result<Answer, Failure>) -> u8
    ensures { result ≡ status_of answer }
{
    match answer {
        Ok(Answer::Shown(Outcome::Done)) => 0,
        Ok(Answer::Shown(_)) => 1,
        Ok(Answer::Explored(Ending::Hold)) => 0,
        Ok(Answer::Explored(Ending::Broken)) => 1,
        Ok(Answer::Explored(Ending::Limit)) => 2,
        Ok(Answer::Explored(Ending::Written(_))) => 0,
        Ok(Answer::Judged(Ruling::Lawful)) => 0,
        Ok(Answer::Judged(Ruling::Broken)) => 1,
        Err(_) => 2,
    }
}
