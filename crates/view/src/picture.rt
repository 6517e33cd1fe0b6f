//! A replay as a picture: rows of events, and in each a lane for each CPU and a column for each event.

ghost use Rattle.std.specs.Prelude.{◌≡◌, ◌≤◌};
ghost use Rattle.view.specs.Frame.{FitsIn};

use crate::areas::{write_mark, write_span};
use crate::arrows::{point, write_link};
use crate::cell::cell;
use crate::choice::Choice;
use crate::element::{write_dot, write_text};
use crate::frame::{
    Frame, MOST_COLUMNS, MOST_WIDE, WIDTH, column, is_busy, lanes_of, last_column, lowest,
};
use crate::idle_handles::not_idle;
use crate::legend::{FIRST_BASE, write_axis, write_head, write_lanes, write_legend};
use crate::spans_arrows::{Arrow, Span, arrows, bands, commands};
use crate::style_names::dot;
use smp_core::Seen;
use smp_mask::CpuMask;
use std::alloc::{AllocError, Allocator};
use trace_events::moments::Moment;
use trace_events::rows::{Row, What};

/// What is between the lowest lane of a row and the highest of the next: room for the numbers of its events.
const BETWEEN: u64 = 34;

/// How far below its dot a number is.
const VALUE: u64 = 13;

/// How many digits a column has room for, and a wide one.
const MOST_DIGITS: usize = 2;

const MOST_DIGITS_WIDE: usize = 5;

/// How far below the lowest lane the CPUs are named that have no lane.
const FOLDED: u64 = 13;

/// A replay: the lines of its script, what they ask for, and what is seen of that.
#[derive(Clone, Copy)]
pub struct Replayed<'a> {
    pub lines: &'a [&'a [u8]],
    pub moments: &'a [Moment],
    pub rows: &'a [Row],
}

/// What is drawn: the events, but for those of handles that find nothing, and what lasts from one event to another.
#[derive(Drop)]
struct Scene<'a, A: Allocator> {
    rows: Vec<Row, A>,
    bands: Vec<Span<'static>, A>,
    boxes: Vec<Span<'a>, A>,
    arrows: Vec<Arrow, A>,
    /// The number of the event that is marked.
    mark: Option<usize>,
}

// What a step has found and put; where there is no room for both, what it has put.
fn value<A: Allocator + Copy>(
    alloc: A,
    seen: Seen,
    room: usize,
) -> Result<Option<String<A>>, AllocError> {
    let text = match (seen.found, seen.put) {
        (Some(found), Some(put)) => format!(in alloc; "{found}>{put}")?,
        (Some(number), None) | (None, Some(number)) => format!(in alloc; "{number}")?,
        (None, None) => return Ok(None),
    };
    if text.len() <= room {
        return Ok(Some(text));
    }
    match seen.put {
        Some(put) => {
            let text = format!(in alloc; "{put}")?;
            Ok(if text.len() <= room { Some(text) } else { None })
        }
        None => Ok(None),
    }
}

// The numbers of a step below its dot, which is at this point, where its column has room for them.
fn write_value<A: Allocator + Copy>(
    alloc: A,
    out: &mut String<A>,
    frame: &Frame<'_>,
    row: &Row,
    at: (u64, u64),
) -> Result<(), AllocError> {
    let What::Stepped(seen) = row.what else {
        return Ok(());
    };
    let room = if frame.wide {
        MOST_DIGITS_WIDE
    } else {
        MOST_DIGITS
    };
    match value(alloc, seen, room)? {
        Some(text) => write_text(
            out,
            "value",
            at.0,
            at.1.saturating_add(VALUE),
            text.as_str(),
        ),
        None => Ok(()),
    }
}

// The dot of an event, with what happened.
fn write_event<A: Allocator + Copy>(
    alloc: A,
    out: &mut String<A>,
    frame: &Frame<'_>,
    row: &Row,
) -> Result<(), AllocError> {
    let Some(name) = dot(row.what) else {
        return Ok(());
    };
    let (x, y) = point(frame, row);
    let number = row.number;
    let cpu = row.cpu;
    let told = cell(alloc, row.what)?;
    let title = format!(in alloc; "{number}: CPU {cpu} {told}")?;
    write_dot(out, name, x, y, title.as_str())?;
    write_value(alloc, out, frame, row, (x, y))
}

// The events of a row.
fn events_in<A: Allocator>(
    alloc: A,
    rows: &[Row],
    first: u32,
    last: u32,
) -> Result<Vec<Row, A>, AllocError> {
    let mut found = Vec::new(alloc);
    for row in rows {
        if first <= column(row) && column(row) <= last {
            found.push(*row)?;
        }
    }
    Ok(found)
}

// Whether something of a CPU lasts from one column to another.
fn lasts(spans: &[Span<'_>], cpu: u32, first: u32, last: u32) -> bool {
    spans.iter().any(|one| one.cpu == cpu && one.first <= last && first <= one.last)
}

// The CPUs of these that have a lane in a row with these events: an event of them, or something that lasts, is in it.
fn row_cpus<A: Allocator>(
    alloc: A,
    cpus: &[u32],
    scene: &Scene<'_, A>,
    events: &[Row],
    reach: (u32, u32),
) -> Result<Vec<u32, A>, AllocError> {
    let mut found = Vec::new(alloc);
    let (first, last) = reach;
    for cpu in cpus {
        let cpu = *cpu;
        if is_busy(events, cpu)
            || lasts(scene.boxes.as_slice(), cpu, first, last)
            || lasts(scene.bands.as_slice(), cpu, first, last)
        {
            found.push(cpu)?;
        }
    }
    Ok(found)
}

// Those of the CPUs that are not among these.
fn others(cpus: &[u32], among: &[u32]) -> CpuMask {
    let mut mask = CpuMask::empty();
    for cpu in cpus {
        if !among.iter().any(|c| *c == *cpu) {
            mask = mask.with(*cpu).unwrap_or(mask);
        }
    }
    mask
}

// Below a row the CPUs of which nothing is in it.
fn write_folded<A: Allocator + Copy>(
    alloc: A,
    out: &mut String<A>,
    frame: &Frame<'_>,
    folded: CpuMask,
) -> Result<(), AllocError> {
    if folded.first().is_none() {
        return Ok(());
    }
    let text = format!(in alloc; "nothing of CPU {folded}")?;
    write_text(out, "near", 4, frame.foot() + FOLDED, text.as_str())
}

// What lasts from one column to another.
fn write_spans<A: Allocator>(
    out: &mut String<A>,
    frame: &Frame<'_>,
    spans: &[Span<'_>],
) -> Result<(), AllocError> {
    for one in spans {
        write_span(out, frame, one)?;
    }
    Ok(())
}

// The arrows of a row.
fn write_links<A: Allocator + Copy>(
    alloc: A,
    out: &mut String<A>,
    frame: &Frame<'_>,
    arrows: &[Arrow],
) -> Result<(), AllocError> {
    for arrow in arrows {
        write_link(alloc, out, frame, arrow)?;
    }
    Ok(())
}

// The dots of these events, and the mark of one, where there is one.
fn write_events<A: Allocator + Copy>(
    alloc: A,
    out: &mut String<A>,
    frame: &Frame<'_>,
    mark: Option<usize>,
    events: &[Row],
) -> Result<(), AllocError> {
    if let Some(number) = mark {
        write_mark(out, frame, number)?;
    }
    for row in events {
        write_event(alloc, out, frame, row)?;
    }
    Ok(())
}

// One row of the picture.
fn write_row<A: Allocator + Copy>(
    alloc: A,
    out: &mut String<A>,
    frame: &Frame<'_>,
    scene: &Scene<'_, A>,
    events: &[Row],
) -> Result<(), AllocError> {
    write_lanes(alloc, out, frame)?;
    write_axis(alloc, out, frame)?;
    write_spans(out, frame, scene.bands.as_slice())?;
    write_spans(out, frame, scene.boxes.as_slice())?;
    write_links(alloc, out, frame, scene.arrows.as_slice())?;
    write_events(alloc, out, frame, scene.mark, events)
}

// The last column of a row that begins with this one.
fn end_of_row(wide: bool, first: u32, last: u32) -> u32
    requires { first ≤ last }
    ensures value { FitsIn wide first result }
    ensures within { result ≤ last }
{
    let most = if wide { MOST_WIDE } else { MOST_COLUMNS };
    if last - first < most {
        last
    } else {
        first + (most - 1)
    }
}

// The rows of the picture from this column on, and the place below them.
fn write_rows<A: Allocator + Copy>(
    alloc: A,
    out: &mut String<A>,
    cpus: &[u32],
    scene: &Scene<'_, A>,
    reach: (u32, u32),
) -> Result<u64, AllocError>
    requires { reach.1 ≤ 100000 }
{
    let (mut first, last) = reach;
    let wide = last.saturating_sub(first) < MOST_WIDE;
    let mut base = FIRST_BASE;
    'rows: while first <= last {
        let end = end_of_row(wide, first, last);
        let events = events_in(alloc, scene.rows.as_slice(), first, end)?;
        let among = row_cpus(alloc, cpus, scene, events.as_slice(), (first, end))?;
        let lanes = lanes_of(alloc, among.as_slice(), events.as_slice())?;
        let frame = Frame {
            wide,
            first,
            last: end,
            base,
            low: lowest(lanes.as_slice()),
            lanes: lanes.as_slice(),
        };
        write_row(alloc, out, &frame, scene, events.as_slice())?;
        write_folded(alloc, out, &frame, others(cpus, among.as_slice()))?;
        base = u32::try_from(frame.foot().saturating_add(BETWEEN)).unwrap_or(u32::MAX);
        first = end + 1;
    }
    Ok(u64::from(base))
}

// The first and the last column that are drawn: those of the first and the last of these rows.
fn reach_of(rows: &[Row]) -> (u32, u32)
    ensures { result.1 ≤ 100000 }
{
    let first = match rows.first() {
        Some(row) => column(row),
        None => 0,
    };
    (first, last_column(rows))
}

// What is drawn of what is chosen of a replay.
fn scene_of<'a, A: Allocator + Copy>(
    alloc: A,
    choice: &Choice,
    replayed: &Replayed<'a>,
) -> Result<Scene<'a, A>, AllocError> {
    let Replayed {
        lines,
        moments,
        rows,
    } = *replayed;
    let not_idle = not_idle(alloc, moments, rows)?;
    Ok(Scene {
        rows: choice.chosen(alloc, not_idle.as_slice())?,
        bands: bands(alloc, rows, last_column(rows))?,
        boxes: commands(alloc, lines, moments, rows)?,
        arrows: arrows(alloc, rows)?,
        mark: choice.marked(rows),
    })
}

// All rows of the picture, and the place below them.
fn write_scene<A: Allocator + Copy>(
    alloc: A,
    out: &mut String<A>,
    choice: &Choice,
    cpus: &[u32],
    replayed: &Replayed<'_>,
) -> Result<u64, AllocError> {
    let scene = scene_of(alloc, choice, replayed)?;
    let chosen = choice.chosen(alloc, replayed.rows)?;
    write_rows(alloc, out, cpus, &scene, reach_of(chosen.as_slice()))
}

/// The picture of what is chosen of a replay: its head, and rows of events. A row has a lane for each CPU of which something is
/// in it, and in the lanes bands, boxes, arrows, and a dot for each event that is chosen. A handle that finds nothing is a bar
/// without dots.
pub fn picture<A: Allocator + Copy>(
    alloc: A,
    choice: &Choice,
    cpus: &[u32],
    replayed: &Replayed<'_>,
) -> Result<String<A>, AllocError> {
    let mut body = String::new(alloc);
    let below = write_scene(alloc, &mut body, choice, cpus, replayed)?;
    let mut out = String::new(alloc);
    write_head(&mut out, WIDTH, below)?;
    write_legend(&mut out)?;
    out.push_str(body.as_str())?;
    out.push_str("</svg>\n")?;
    Ok(out)
}
