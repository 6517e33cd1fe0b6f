//! Arrows of a picture, between the dots of two events.

ghost use Rattle.std.specs.Prelude.{◌≡◌, ◌≤◌, ◌<◌, ◌^◌, ◌+◌};
ghost use Rattle.view.specs.Frame.{arrow_ends, bottom_of, column_of, dot_of, middle_of, IsNear};

use crate::element::{Ends, write_arrow, write_path, write_text};
use crate::frame::{Frame, LEFT, column};
use crate::spans_arrows::Arrow;
use std::alloc::{AllocError, Allocator};
use trace_events::rows::Row;

/// How far below its lane's upper edge a dot is.
const DOT: u64 = 32;

/// The middle of an event's column, at the height of its lane's dots.
pub fn point(frame: &Frame<'_>, row: &Row) -> (u64, u64)
    ensures x { result.0 ≡ middle_of frame.now.wide frame.now.first frame.now.last (column_of row.now) }
    ensures y { result.1 ≡ dot_of frame.now.base frame.now.low frame.now.lanes.now row.now }
    ensures inside { (result.0 ≤ 892) × (result.1 + 30 ≤ bottom_of frame.now.base frame.now.low) }
    ensures small { (result.0 < 2 ^ 41) × (result.1 < 2 ^ 41) × (32 ≤ result.1) }
{
    let x = frame.left(column(row)) + if frame.wide { 14 } else { 7 };
    (x, frame.upper(row.cpu) + DOT)
}

/// The ends of an arrow between the dots at two points, and the height at which it crosses.
pub fn ends_between(from: (u64, u64), to: (u64, u64)) -> (Ends, u64)
    requires { (32 ≤ from.1) × (from.1 < 2 ^ 41) × (32 ≤ to.1) × (to.1 < 2 ^ 41) }
    ensures { result ≡ arrow_ends from.0 from.1 to.0 to.1 }
{
    let (x1, y1) = from;
    let (x2, y2) = to;
    if y1 < y2 {
        (
            Ends {
                x1,
                y1: y1 + 6,
                x2,
                y2: y2 - 8,
            },
            y1 + 28,
        )
    } else if y2 < y1 {
        (
            Ends {
                x1,
                y1: y1 - 6,
                x2,
                y2: y2 + 8,
            },
            y2 + 28,
        )
    } else {
        (
            Ends {
                x1,
                y1: y1 + 6,
                x2,
                y2: y2 + 8,
            },
            y1 + 24,
        )
    }
}

// The ends of an arrow between two dots, and the height at which it crosses.
fn ends(frame: &Frame<'_>, from: &Row, to: &Row) -> (Ends, u64)
    ensures from { result.0.x1 ≡ middle_of frame.now.wide frame.now.first frame.now.last (column_of from.now) }
    ensures to { result.0.x2 ≡ middle_of frame.now.wide frame.now.first frame.now.last (column_of to.now) }
    // Each end is at most 8 above its dot, or below it.
    ensures begins { IsNear result.0.y1 (dot_of frame.now.base frame.now.low frame.now.lanes.now from.now) }
    ensures ends { IsNear result.0.y2 (dot_of frame.now.base frame.now.low frame.now.lanes.now to.now) }
    ensures across { (result.0.x1 ≤ 892) × (result.0.x2 ≤ 892) }
    ensures inside { (result.0.y1 ≤ bottom_of frame.now.base frame.now.low) × (result.0.y2 ≤ bottom_of frame.now.base frame.now.low)
        × (result.1 ≤ bottom_of frame.now.base frame.now.low) }
{
    let (x1, y1) = point(frame, from);
    let (x2, y2) = point(frame, to);
    ends_between((x1, y1), (x2, y2))
}

// To which event an arrow goes on.
fn write_far<A: Allocator + Copy>(
    alloc: A,
    out: &mut String<A>,
    x: u64,
    y: u64,
    number: usize,
) -> Result<(), AllocError> {
    let label = format!(in alloc; "to {number}")?;
    write_text(out, "far", x, y, label.as_str())
}

// From which event an arrow comes.
fn write_near<A: Allocator + Copy>(
    alloc: A,
    out: &mut String<A>,
    x: u64,
    y: u64,
    number: usize,
) -> Result<(), AllocError> {
    let label = format!(in alloc; "from {number}")?;
    write_text(out, "near", x, y, label.as_str())
}

// The begin of an arrow whose end is in a later row: to the right edge, with the number of the event there.
fn write_begin<A: Allocator + Copy>(
    alloc: A,
    out: &mut String<A>,
    frame: &Frame<'_>,
    arrow: &Arrow,
) -> Result<(), AllocError> {
    let (x, y) = point(frame, &arrow.from);
    let edge = frame.left(frame.last) + frame.step();
    let path = format!(in alloc; "M {x} {y} m 0 6 v 6 H {edge}")?;
    write_path(out, arrow.style, path.as_str(), false)?;
    write_far(alloc, out, edge - 2, y + 21, arrow.to.number)
}

// The end of an arrow that begins in an earlier row: from the left edge, with the number of the event there.
fn write_end<A: Allocator + Copy>(
    alloc: A,
    out: &mut String<A>,
    frame: &Frame<'_>,
    arrow: &Arrow,
) -> Result<(), AllocError> {
    let (x, y) = point(frame, &arrow.to);
    let path = format!(in alloc; "M {LEFT} {y} m 0 15 H {x} v -7")?;
    write_path(out, arrow.style, path.as_str(), true)?;
    write_near(alloc, out, LEFT + 2, y + 24, arrow.from.number)
}

/// Draws an arrow, or the part of it that is in this row, where both its CPUs have lanes.
pub fn write_link<A: Allocator + Copy>(
    alloc: A,
    out: &mut String<A>,
    frame: &Frame<'_>,
    arrow: &Arrow,
) -> Result<(), AllocError> {
    if frame.lane(arrow.from.cpu).is_none() || frame.lane(arrow.to.cpu).is_none() {
        return Ok(());
    }
    let begins = frame.has_column(column(&arrow.from));
    let ends_here = frame.has_column(column(&arrow.to));
    match (begins, ends_here) {
        (true, true) => {
            let (ends, y) = ends(frame, &arrow.from, &arrow.to);
            write_arrow(out, arrow.style, ends, y)
        }
        (true, false) => write_begin(alloc, out, frame, arrow),
        (false, true) => write_end(alloc, out, frame, arrow),
        (false, false) => Ok(()),
    }
}
