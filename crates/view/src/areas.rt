//! What is drawn in a picture from one column to another: the boxes of commands, and bands.

ghost use Rattle.std.specs.Prelude.{◌≡◌, ◌≤◌, ◌<◌, ◌^◌, ◌+◌, ◌-◌, ◌++◌, OnOk, string_bytes};
ghost use Rattle.view.specs.Frame.{bottom_of, left_of, step_of, upper_of};
ghost use Rattle.view.specs.Legend.{mark_text};

use crate::element::{Area, write_area, write_text};
use crate::frame::{Frame, LANE};
use crate::spans_arrows::{Drawn, Span};
use crate::style_names::phase_name;
use smp_script::line::split_part;
use std::alloc::{AllocError, Allocator};
use std::str::from_utf8;

/// A letter of a box is no wider.
const LETTER: u64 = 6;

// From the left edge of its first column to the right edge of its last, so far below the upper edge of its CPU's lane.
fn area_of(frame: &Frame<'_>, one: &Span<'_>, below: u64, height: u64) -> Area
    requires { below + height ≤ 62 }
    ensures x { result.x ≡ left_of frame.now.wide frame.now.first frame.now.last one.now.first }
    ensures y { result.y ≡ upper_of frame.now.base frame.now.low frame.now.lanes.now one.now.cpu + below }
    ensures width { result.width ≡ left_of frame.now.wide frame.now.first frame.now.last one.now.last + step_of frame.now.wide
        - left_of frame.now.wide frame.now.first frame.now.last one.now.first }
    ensures height { result.height ≡ height }
    ensures inside { (result.x + result.width ≤ 892) × (result.y + result.height ≤ bottom_of frame.now.base frame.now.low) }
    ensures small { (result.x < 2 ^ 40) × (result.y < 2 ^ 41) }
{
    let x = frame.left(one.first);
    let end = frame.left(one.last) + frame.step();
    Area {
        x,
        y: frame.upper(one.cpu) + below,
        width: end.saturating_sub(x),
        height,
    }
}

// What comes behind the first two fields of a line.
fn behind_two(line: &[u8]) -> &[u8] {
    match split_part(line, b' ') {
        Some((_, rest)) => match split_part(rest, b' ') {
            Some((_, rest)) => rest,
            None => rest,
        },
        None => line,
    }
}

// The front of a text that finds room in such a width.
fn fitting(text: &[u8], width: u64) -> &str {
    let room = (width.saturating_sub(4) / LETTER) as usize;
    from_utf8(&text[..text.len().min(room)]).unwrap_or("")
}

// The box of a command, with its front words. In the lane of a CPU that makes no event in this row it is low.
fn write_command<A: Allocator>(
    out: &mut String<A>,
    frame: &Frame<'_>,
    one: &Span<'_>,
    style: &str,
    line: &[u8],
) -> Result<(), AllocError> {
    let busy = match frame.lane(one.cpu) {
        Some(lane) => lane.busy,
        None => return Ok(()),
    };
    let height = if busy { 43 } else { 14 };
    let area = area_of(frame, one, 3, height);
    write_area(out, style, area, from_utf8(line).unwrap_or(""))?;
    let label = fitting(behind_two(line), area.width);
    write_text(out, "label", area.x + 3, area.y + 11, label)
}

// The bar of a handle that finds no interrupt, at the height of the dots. It has no words, and its events have no dots.
fn write_idle<A: Allocator>(
    out: &mut String<A>,
    frame: &Frame<'_>,
    one: &Span<'_>,
    line: &[u8],
) -> Result<(), AllocError> {
    let busy = match frame.lane(one.cpu) {
        Some(lane) => lane.busy,
        None => return Ok(()),
    };
    let below = if busy { 29 } else { 7 };
    let area = area_of(frame, one, below, 6);
    write_area(out, "idle", area, from_utf8(line).unwrap_or(""))
}

// The band of a phase of a stop, in the lane of the stop's source.
fn write_phase<A: Allocator>(
    out: &mut String<A>,
    frame: &Frame<'_>,
    one: &Span<'_>,
    phase: u64,
) -> Result<(), AllocError> {
    let area = area_of(frame, one, 48, 13);
    let name = phase_name(phase);
    let style = if phase % 2 == 1 { "odd" } else { "even" };
    write_area(out, style, area, name)?;
    let label = fitting(name.as_bytes(), area.width);
    write_text(out, "phase", area.x + 3, area.y + 10, label)
}

/// Draws what lasts from one column to another, where a part of it is in this row and its CPU has a lane.
pub fn write_span<A: Allocator>(
    out: &mut String<A>,
    frame: &Frame<'_>,
    one: &Span<'_>,
) -> Result<(), AllocError> {
    if one.last < frame.first || frame.last < one.first || frame.lane(one.cpu).is_none() {
        return Ok(());
    }
    match one.drawn {
        Drawn::Command(style, line) => write_command(out, frame, one, style, line),
        Drawn::Idle(line) => write_idle(out, frame, one, line),
        Drawn::Phase(phase) => write_phase(out, frame, one, phase),
        Drawn::Off => {
            let area = area_of(frame, one, 1, LANE - 2);
            write_area(out, "off", area, "interrupts off")
        }
    }
}

/// Draws a frame round a column.
#[tactic(auto, unfolding(crate::specs::Legend::mark_text))]
pub fn write_column_mark<A: Allocator>(
    out: &mut String<A>,
    frame: &Frame<'_>,
    column: u32,
) -> Result<(), AllocError>
    ensures { OnOk result (string_bytes out.new ≡ string_bytes out.old
        ++ mark_text frame.now.wide frame.now.first frame.now.last frame.now.base frame.now.low column) }
{
    let area = Area {
        x: frame.left(column),
        y: u64::from(frame.base),
        width: frame.step(),
        height: u64::from(frame.low) + LANE,
    };
    write_area(out, "mark", area, "the marked event")
}

/// Draws a frame round the column of the event that is marked.
pub fn write_mark<A: Allocator>(
    out: &mut String<A>,
    frame: &Frame<'_>,
    number: usize,
) -> Result<(), AllocError> {
    let Ok(column) = u32::try_from(number) else {
        return Ok(());
    };
    if !frame.has_column(column) {
        return Ok(());
    }
    write_column_mark(out, frame, column)
}
