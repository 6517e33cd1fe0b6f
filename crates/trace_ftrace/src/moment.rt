//! Moments between the lines of a text.

ghost use Rattle.std.specs.Prelude.{◌≡◌};
ghost use Rattle.trace_ftrace.specs.Moments.{is_before, own_moment, stamp_moment};

use crate::kept::Stamp;
use crate::told::Told;

/// A moment at the line of this time and number: just before it where `nth` is 0, that of the line itself where it is 1, and behind
/// it, the later the more, where it is more.
#[derive(Clone, Copy, Debug, PartialEq, Eq)]
pub struct Moment {
    pub time: u128,
    pub line: u32,
    pub nth: u32,
}

/// Whether a moment is before another.
pub(crate) fn is_before(first: Moment, second: Moment) -> bool
    ensures { result ≡ is_before first second }
{
    first.time < second.time
        || (first.time == second.time
            && (first.line < second.line || (first.line == second.line && first.nth < second.nth)))
}

/// The moment of a line itself.
pub(crate) fn stamp_moment(at: &Stamp) -> Moment
    ensures { result ≡ stamp_moment at.now }
{
    Moment {
        time: at.time,
        line: at.line,
        nth: 1,
    }
}

/// The moment of the line that tells an event.
pub(crate) fn own_moment(told: &Told) -> Moment
    ensures { result ≡ own_moment told.now }
{
    Moment {
        time: told.time,
        line: told.line,
        nth: 1,
    }
}
