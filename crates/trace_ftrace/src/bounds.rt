//! Where the appends of a text can be.

ghost use Rattle.std.specs.Prelude.{◌≡◌, ◌++◌, IfOk};
ghost use Rattle.trace_ftrace.specs.Bounds.{bounds_of, ends_append, hides_order, inside_after, is_behind, is_trap, line_end, own_end};
ghost use Rattle.trace_ftrace.specs.Bounds.{queues_call, shows_order, upper_end};

use crate::kept::{Mark, Stamp};
use crate::moment::{Moment, stamp_moment};
use crate::per_cpu::{at, put};
use crate::sign::{Sign, Sort, class_of};
use std::alloc::{AllocError, Allocator};

/// Where the append of a call is that a line queues: not before that line, and before this moment, where one is known.
#[derive(Clone, Copy, Debug, PartialEq, Eq)]
pub struct Bound {
    pub line: u32,
    pub until: Option<Moment>,
}

/// Whether an append is over by a line: it is of the same CPU, in no deeper context.
fn ends_append(at: &Stamp, next: &Stamp) -> bool
    ensures { result ≡ ends_append at.now next.now }
{
    match next.context {
        Some(depth) => next.cpu == at.cpu && depth <= at.context.unwrap_or(0),
        None => false,
    }
}

/// The moment of the first of these lines by which an append is over.
fn line_end(at: &Stamp, behind: &[Mark]) -> Option<Moment>
    ensures { result ≡ line_end at.now behind.now }
{
    let mut rest = behind;
    while let [first, after @ ..] = rest {
        if ends_append(at, &first.at) {
            return Some(stamp_moment(&first.at));
        }
        rest = after;
    }
    None
}

/// Whether a line is of a probe by a trap, whose flags hide how deep its CPU was.
fn is_trap(at: &Stamp) -> bool
    ensures { result ≡ is_trap at.now.context }
{
    match at.context {
        Some(depth) => depth == 5,
        None => false,
    }
}

/// How many appends a CPU is inside of behind a line, by its probes: four at most, since its contexts nest no deeper.
fn inside_after(inside: u32, sign: Sign) -> u32
    ensures { result ≡ inside_after inside sign }
{
    match sign {
        Sign::Queue(..) if inside < 4 => inside + 1,
        Sign::Probe => inside.saturating_sub(1),
        _ => inside,
    }
}

/// Whether a line is of a probe behind an append.
fn is_behind(sign: Sign) -> bool
    ensures { result ≡ is_behind sign }
{
    match sign {
        Sign::Probe => true,
        _ => false,
    }
}

/// The moment of the probe behind the append whose line, of this CPU, is right in front of these lines.
fn own_end(cpu: u32, behind: &[Mark]) -> Option<Moment>
    ensures { result ≡ own_end cpu 0 behind.now }
{
    let mut inside = 0;
    let mut rest = behind;
    while let [first, after @ ..] = rest {
        if first.at.cpu == cpu {
            if inside == 0 && is_behind(first.sign) {
                return Some(stamp_moment(&first.at));
            }
            inside = inside_after(inside, first.sign);
        }
        rest = after;
    }
    None
}

/// The moment by which an append is over, by the lines behind its own.
fn upper_end(at: &Stamp, behind: &[Mark]) -> Option<Moment>
    ensures { result ≡ upper_end at.now behind.now }
{
    if is_trap(at) {
        own_end(at.cpu, behind)
    } else {
        line_end(at, behind)
    }
}

/// Whether a line queues a call.
fn queues_call(mark: &Mark) -> bool
    ensures { result ≡ queues_call mark.now }
{
    match mark.sign {
        Sign::Queue(_, _, sort, _) => class_of(sort).is_some(),
        _ => false,
    }
}

/// Where the appends are of the calls that these lines queue.
pub(crate) fn bounds_of<A: Allocator>(alloc: A, marks: &[Mark]) -> Result<Vec<Bound, A>, AllocError>
    ensures { IfOk result (λ v. v.items ≡ bounds_of marks.now) }
{
    let mut bounds = Vec::new(alloc);
    let mut rest = marks;
    while let [mark, after @ ..] = rest {
        if queues_call(mark) {
            let until = upper_end(&mark.at, after);
            let line = mark.at.line;
            bounds.push(Bound { line, until })?;
        }
        rest = after;
    }
    Ok(bounds)
}

/// Whether a line hides order; `inside` counts the appends that its CPU is inside of. A line that queues a call hides order where
/// it shows no class or no context, or is by a trap and four appends are open, since no more can nest. The line of a probe
/// behind an append hides it where no append is open.
fn hides_order(inside: u32, mark: &Mark) -> bool
    ensures { result ≡ hides_order inside mark.now }
{
    match mark.sign {
        Sign::Queue(_, _, Sort::Unshown, _) => true,
        Sign::Queue(_, _, Sort::Async | Sort::Sync, _) => {
            mark.at.context.is_none() || (is_trap(&mark.at) && inside >= 4)
        }
        Sign::Probe => inside == 0,
        _ => false,
    }
}

/// Whether these lines show enough to judge order.
pub(crate) fn shows_order(marks: &[Mark]) -> bool
    ensures { result ≡ shows_order marks.now }
{
    let mut insides = [0; 512];
    let mut rest = marks;
    while let [mark, after @ ..] = rest {
        let inside = at(&insides, mark.at.cpu, 0);
        if hides_order(inside, mark) {
            return false;
        }
        put(&mut insides, mark.at.cpu, inside_after(inside, mark.sign));
        rest = after;
    }
    true
}
