//! The events around a line of a text.

ghost use Rattle.std.specs.Prelude.{◌≡◌, ◌≤◌, length, IfSome};
ghost use Rattle.trace_page.specs.Windows.{marked, marked_place, nearer, window_of, HasLine};

use smp_script::line::next_line;
use trace_ftrace::told::Told;

/// How many events are drawn in front of the marked one, and how many behind it.
const AROUND: usize = 100;

/// Events that follow each other, and the place of the marked one among them.
#[derive(Clone, Copy)]
pub(crate) struct Window<'a> {
    pub(crate) events: &'a [Told],
    pub(crate) mark: usize,
}

/// An event by its place, with the line that tells it.
#[derive(Clone, Copy)]
struct Candidate {
    place: usize,
    line: u32,
}

/// Whether a text has a line of this number.
pub(crate) fn has_line(text: &[u8], line: u32) -> bool
    ensures { HasLine result line text.now }
{
    let mut left = line;
    let mut rest = text;
    while let Some(first) = next_line(rest) {
        if left == 1 {
            return true;
        }
        left = left.saturating_sub(1);
        rest = first.rest;
    }
    false
}

/// This event, where it is told by a line from that one on, and by an earlier one than the best so far.
fn nearer(line: u32, best: Option<Candidate>, place: usize, told: &Told) -> Option<Candidate>
    ensures value { result ≡ nearer line best place told.now }
    ensures within { IfSome best (λ c. c.place ≤ place) → IfSome result (λ c. c.place ≤ place) }
{
    if told.line < line {
        return best;
    }
    match best {
        Some(found) if found.line <= told.line => best,
        _ => Some(Candidate {
            place,
            line: told.line,
        }),
    }
}

/// The place of the event that is told by this line, or by the next that tells one; the last where there is none.
fn marked(line: u32, told: &[Told]) -> usize
    ensures value { result ≡ marked_place line told.now }
    ensures within { result ≤ length told.now }
{
    let mut best = None;
    let mut place = 0;
    let mut rest = told;
    while let [first, after @ ..] = rest {
        best = nearer(line, best, place, first);
        place += 1;
        rest = after;
    }
    match best {
        Some(found) => found.place,
        None => told.len().saturating_sub(1),
    }
}

/// The events around a line.
pub(crate) fn window_of<'a>(line: u32, told: &'a [Told]) -> Window<'a>
    ensures events { result.events.now ≡ window_of line told.now }
    ensures few { length result.events.now ≤ 201 }
    ensures mark { result.mark ≡ marked line told.now }
    ensures within { result.mark ≤ 100 }
{
    let place = marked(line, told);
    let first = place.saturating_sub(AROUND);
    let end = place.saturating_add(AROUND + 1).min(told.len());
    let front = &told[..end];
    Window {
        events: &front[first..],
        mark: place - first,
    }
}
