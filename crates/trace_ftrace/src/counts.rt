//! What of the lines is not judged, in counts.

ghost use Rattle.std.specs.Prelude.{◌≡◌, ◌≤◌, count_by, length};
ghost use Rattle.trace_ftrace.specs.Counts.{counts_of, is_begin, is_counted, is_counted_sign};

use crate::kept::Mark;
use crate::sign::{Sign, Sort};
use crate::told::Told;
use trace_model::{CallEvent, Event};

/// What is counted of the lines.
#[derive(Clone, Copy, Debug, PartialEq, Eq)]
pub enum Counted {
    /// Functions of direct calls that are entered.
    Direct,
    /// Wakes that are queued.
    Wakes,
    /// Irq works that are queued, or what else is no call.
    Works,
    /// Functions of records that are entered.
    Begins,
    /// Calls that are queued without their class.
    Unshown,
}

/// How many there are of each in a text.
#[derive(Clone, Copy, Debug, PartialEq, Eq)]
pub struct Counts {
    pub direct: usize,
    pub wakes: usize,
    pub works: usize,
    /// Functions that are entered of records that no line before has queued.
    pub earlier: usize,
    pub unshown: usize,
}

/// Whether what a line shows is counted.
fn is_counted_sign(what: Counted, sign: Sign) -> bool
    ensures { result ≡ is_counted_sign what sign }
{
    match (what, sign) {
        (Counted::Direct, Sign::Direct) => true,
        (Counted::Wakes, Sign::Queue(_, _, Sort::Wake, _)) => true,
        (Counted::Works, Sign::Queue(_, _, Sort::Other, _)) => true,
        (Counted::Begins, Sign::Begin(_)) => true,
        (Counted::Unshown, Sign::Queue(_, _, Sort::Unshown, _)) => true,
        _ => false,
    }
}

/// How many marks are counted.
fn how_many(what: Counted, marks: &[Mark]) -> usize
    ensures count { result ≡ count_by (is_counted what) marks.now }
    ensures within { result ≤ length marks.now }
{
    let mut count = 0;
    let mut rest = marks;
    while let [mark, after @ ..] = rest {
        if is_counted_sign(what, mark.sign) {
            count += 1;
        }
        rest = after;
    }
    count
}

/// Whether an event is that a call's function is entered.
fn is_begin(event: Event) -> bool
    ensures { result ≡ is_begin event }
{
    match event {
        Event::Call(CallEvent::Begin(..)) => true,
        _ => false,
    }
}

/// How many functions of calls are entered by these events.
fn begun(told: &[Told]) -> usize
    ensures { result ≡ count_by (λ x. is_begin x.event) told.now }
{
    let mut count = 0;
    let mut rest = told;
    while let [first, after @ ..] = rest {
        if is_begin(first.event) {
            count += 1;
        }
        rest = after;
    }
    count
}

/// The counts of what these marks show that is none of these events.
#[tactic(auto, unfolding(crate::specs::Counts::counts_of))]
pub(crate) fn count_lines(marks: &[Mark], told: &[Told]) -> Counts
    ensures { result ≡ counts_of marks.now told.now }
{
    Counts {
        direct: how_many(Counted::Direct, marks),
        wakes: how_many(Counted::Wakes, marks),
        works: how_many(Counted::Works, marks),
        earlier: how_many(Counted::Begins, marks).saturating_sub(begun(told)),
        unshown: how_many(Counted::Unshown, marks),
    }
}
