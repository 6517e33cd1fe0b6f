//! What a kernel's tracer wrote around a line, as a picture.

ghost use Rattle.std.specs.Prelude.{◌≡◌, ◌≤◌, ◌<◌, ◌+◌, ◌++◌, length, IfOk, OnOk, string_bytes};
ghost use Rattle.trace_ftrace.specs.NamesView.{names_value};
ghost use Rattle.trace_ftrace.specs.KeptView.{kept_value};
ghost use Rattle.trace_ftrace.specs.ToldView.{telling_value};
ghost use Rattle.trace_page.specs.Pictures.{body_text, dot_name, event_text, events_text, front_text, line_at, note_text, picture_text};
ghost use Rattle.trace_page.specs.Pictures.{rows_of, rows_text, start_of, tick_of, ticks_text, IsPicture, PicturesKernel};

use crate::grid::{COLUMNS, Grid, Pen, lanes_of};
use crate::links::write_links;
use crate::title::{title, write_time};
use crate::window::{Window, has_line, window_of};
use std::alloc::{AllocError, Allocator};
use trace_ftrace::kept::functions_of;
use trace_ftrace::names::Names;
use trace_ftrace::told::Told;
use trace_ftrace::verdict::{Reading, read_told};
use trace_ftrace::wrong::Refusal;
use trace_model::{CallEvent, Event, StopEvent};
use view::areas::write_column_mark;
use view::element::{write_dot, write_text};
use view::legend::{write_head, write_lanes, write_tick};

/// What is drawn.
pub const LEGEND: &str =
    "<use href=\"#store\" x=\"22\" y=\"17\"/><text class=\"key\" x=\"34\" y=\"21\">a call is queued</text>
<use href=\"#run\" x=\"166\" y=\"17\"/><text class=\"key\" x=\"180\" y=\"21\">a function is entered</text>
<use href=\"#load\" x=\"344\" y=\"17\"/><text class=\"key\" x=\"356\" y=\"21\">it returns</text>
<use href=\"#swap\" x=\"454\" y=\"17\"/><text class=\"key\" x=\"466\" y=\"21\">of a stop</text>
<path class=\"call\" d=\"M 12 43 L 42 43\" marker-end=\"url(#call-head)\"/><text class=\"key\" x=\"50\" y=\"47\">a call to its run</text>
<rect class=\"handle\" x=\"188\" y=\"36\" width=\"22\" height=\"14\"/><text class=\"key\" x=\"216\" y=\"47\">a function runs</text>
<rect class=\"stop\" x=\"344\" y=\"36\" width=\"22\" height=\"14\"/><text class=\"key\" x=\"372\" y=\"47\">a CPU is in a stop</text>
";

/// Why there is no picture.
#[derive(Clone, Copy, Debug, PartialEq, Eq)]
pub enum NoPicture {
    /// The text has no line of this number.
    Line,
    /// No line of the text tells an event.
    Events,
    /// The text can't be judged.
    Text(Refusal),
}

/// The dot of an event.
fn dot_name(event: Event) -> &'static str
    ensures { result.now ≡ dot_name event }
{
    match event {
        Event::Call(CallEvent::Queue(..)) => "store",
        Event::Call(CallEvent::Begin(..)) | Event::Stop(StopEvent::Run(..)) => "run",
        Event::Call(_) => "load",
        _ => "swap",
    }
}

/// Writes the time of each fifth event above its column, from that of the first on.
#[tactic(auto, unfolding(crate::specs::Pictures::time_above))]
fn write_tick_of<A: Allocator + Copy>(
    out: &mut String<A>,
    pen: &Pen<'_, A>,
    number: u32,
    time: u128,
) -> Result<(), AllocError>
    requires { number ≤ 300 }
    ensures { OnOk result (string_bytes out.new ≡ string_bytes out.old ++ tick_of pen.now.grid.low number time) }
{
    if number % 5 != 0 {
        return Ok(());
    }
    let frame = pen.grid.frame(number);
    let mut said = String::new(pen.alloc);
    write_time(&mut said, time)?;
    let top = u64::from(frame.base);
    write_tick(
        out,
        frame.left(number) + 14,
        top,
        frame.bottom(),
        said.as_str(),
    )
}

/// Writes the dot of an event, with what it is.
#[tactic(auto, unfolding(crate::specs::Pictures::event_text))]
fn write_event<A: Allocator + Copy>(
    out: &mut String<A>,
    pen: &Pen<'_, A>,
    number: u32,
    told: &Told,
) -> Result<(), AllocError>
    requires { number ≤ 300 }
    ensures { OnOk result (string_bytes out.new ≡ string_bytes out.old
        ++ event_text (names_value pen.now.names) pen.now.grid.low pen.now.grid.lanes.now number told.now) }
{
    let (x, y) = pen.grid.point(number, told.cpu);
    let said = title(pen.alloc, &pen.names, told)?;
    write_dot(out, dot_name(told.event), x, y, said.as_str())
}

/// Writes the times of events, from this one on.
fn write_ticks<A: Allocator + Copy>(
    out: &mut String<A>,
    pen: &Pen<'_, A>,
    start: u128,
    events: &[Told],
) -> Result<(), AllocError>
    requires { length events.now ≤ 300 }
    ensures { OnOk result (string_bytes out.new ≡ string_bytes out.old ++ ticks_text pen.now.grid.low start 0 events.now) }
{
    let mut number = 0u32;
    let mut rest = events;
    while let [first, after @ ..] = rest {
        write_tick_of(out, pen, number, first.time.saturating_sub(start))?;
        number += 1;
        rest = after;
    }
    Ok(())
}

/// Writes the dots of events.
fn write_events<A: Allocator + Copy>(
    out: &mut String<A>,
    pen: &Pen<'_, A>,
    events: &[Told],
) -> Result<(), AllocError>
    requires { length events.now ≤ 300 }
    ensures { OnOk result (string_bytes out.new ≡ string_bytes out.old
        ++ events_text (names_value pen.now.names) pen.now.grid.low pen.now.grid.lanes.now 0 events.now) }
{
    let mut number = 0u32;
    let mut rest = events;
    while let [first, after @ ..] = rest {
        write_event(out, pen, number, first)?;
        number += 1;
        rest = after;
    }
    Ok(())
}

/// Writes the lanes of this number of rows.
fn write_rows<A: Allocator + Copy>(
    out: &mut String<A>,
    pen: &Pen<'_, A>,
    rows: u32,
) -> Result<(), AllocError>
    requires { rows ≤ 10 }
    ensures { OnOk result (string_bytes out.new ≡ string_bytes out.old ++ rows_text pen.now.grid.low pen.now.grid.lanes.now rows) }
{
    for row in 0..rows {
        let frame = pen.grid.frame(row * COLUMNS);
        write_lanes(pen.alloc, out, &frame)?;
    }
    Ok(())
}

/// The time of the first of these events; 0 where there is none.
fn start_of(events: &[Told]) -> u128
    ensures { result ≡ start_of events.now }
{
    match events.first() {
        Some(told) => told.time,
        None => 0,
    }
}

/// The line that tells the event of this place; 0 where there is none.
fn line_at(events: &[Told], place: usize) -> u32
    ensures { result ≡ line_at events.now place }
{
    match events.get(place) {
        Some(told) => told.line,
        None => 0,
    }
}

/// Writes which line is marked, and the time from which the others count.
#[tactic(auto, unfolding(crate::specs::Pictures::note_text))]
fn write_note<A: Allocator + Copy>(
    alloc: A,
    out: &mut String<A>,
    line: u32,
    start: u128,
) -> Result<(), AllocError>
    ensures { OnOk result (string_bytes out.new ≡ string_bytes out.old ++ note_text line start) }
{
    let mut said = String::new(alloc);
    write!(said, "line {line} is marked; times in microseconds from ")?;
    write_time(&mut said, start)?;
    said.push_str(" on")?;
    write_text(out, "key", 12, 73, said.as_str())
}

/// How many rows there are.
fn rows_of(events: &[Told]) -> u32
    requires { length events.now ≤ 201 }
    ensures value { result ≡ rows_of events.now }
    ensures few { result ≤ 7 }
{
    (events.len() as u32 + (COLUMNS - 1)) / COLUMNS
}

/// Writes what is above the rows, and their lanes.
#[tactic(auto, unfolding(crate::specs::Pictures::front_text))]
fn write_front<A: Allocator + Copy>(
    out: &mut String<A>,
    pen: &Pen<'_, A>,
    window: &Window<'_>,
) -> Result<(), AllocError>
    requires { length window.now.events.now ≤ 201 }
    ensures { OnOk result (string_bytes out.new ≡ string_bytes out.old
        ++ front_text pen.now.grid.low pen.now.grid.lanes.now window.now.mark window.now.events.now) }
{
    let events = window.events;
    let rows = rows_of(events);
    let below = pen.grid.frame(rows * COLUMNS);
    write_head(out, 900, u64::from(below.base))?;
    out.push_str(LEGEND)?;
    let line = line_at(events, window.mark);
    write_note(pen.alloc, out, line, start_of(events))?;
    write_rows(out, pen, rows)
}

/// Writes what is in the rows: the times, the mark, what lasts, and the events.
#[tactic(auto, unfolding(crate::specs::Pictures::body_text))]
fn write_body<A: Allocator + Copy>(
    out: &mut String<A>,
    pen: &Pen<'_, A>,
    window: &Window<'_>,
) -> Result<(), AllocError>
    requires { (length window.now.events.now ≤ 201) × (window.now.mark ≤ 100) }
    ensures { OnOk result (string_bytes out.new ≡ string_bytes out.old
        ++ body_text (names_value pen.now.names) pen.now.grid.low pen.now.grid.lanes.now window.now.mark window.now.events.now) }
{
    let events = window.events;
    let mark = window.mark as u32;
    write_ticks(out, pen, start_of(events), events)?;
    write_column_mark(out, &pen.grid.frame(mark), mark)?;
    write_links(out, pen, events)?;
    write_events(out, pen, events)
}

/// The picture of the events of a window, in lanes.
#[tactic(auto, unfolding(crate::specs::Pictures::picture_text))]
fn picture<A: Allocator + Copy>(
    alloc: A,
    names: Names<'_>,
    window: &Window<'_>,
) -> Result<String<A>, AllocError>
    requires { (length window.now.events.now ≤ 201) × (window.now.mark ≤ 100) }
    ensures { IfOk result (λ s. string_bytes s ≡ picture_text (names_value names.entry) window.now.mark window.now.events.now) }
{
    let lanes = lanes_of(alloc, window.events)?;
    let grid = Grid::new(lanes.as_slice());
    let pen = Pen { alloc, names, grid };
    let mut out = String::new(alloc);
    write_front(&mut out, &pen, window)?;
    write_body(&mut out, &pen, window)?;
    out.push_str("</svg>\n")?;
    Ok(out)
}

/// The picture of what was read around a line; none where no line tells an event.
fn read_picture<A: Allocator + Copy>(
    alloc: A,
    line: u32,
    reading: &Reading<A>,
) -> Result<Vec<u8, A>, NoPicture>
    ensures { IsPicture result line (kept_value reading.now.kept) (telling_value reading.now.telling) }
{
    let told = reading.telling.told.as_slice();
    if told.is_empty() {
        return Err(NoPicture::Events);
    }
    let Ok(functions) = functions_of(alloc, &reading.kept) else {
        return Err(NoPicture::Text(Refusal::NoMemory));
    };
    let names = Names {
        addresses: reading.telling.addresses.as_slice(),
        functions: functions.as_slice(),
    };
    match picture(alloc, names, &window_of(line, told)) {
        Ok(out) => Ok(out.into_bytes()),
        Err(_) => Err(NoPicture::Text(Refusal::NoMemory)),
    }
}

/// The picture of what a kernel's tracer wrote around a line, without the text's first `skip` nanoseconds: the event that the line
/// tells, or the next line that tells one, else the last event, with up to 100 events in front of it and 100 behind it. There is a
/// lane for each CPU that has one of these events.
///
/// Refusals: `Line` where the text has no line of this number; `Text` with `TooLong`, or with `Wrong` and the first line at fault;
/// `Events` where no line tells an event; `Text` with `NoMemory`.
pub fn picture_of_kernel<A: Allocator + Copy>(
    alloc: A,
    skip: u64,
    line: u32,
    text: &[u8],
) -> Result<Vec<u8, A>, NoPicture>
    ensures { PicturesKernel result skip line text.now }
{
    if !has_line(text, line) {
        return Err(NoPicture::Line);
    }
    let reading = match read_told(alloc, skip, text) {
        Ok(reading) => reading,
        Err(why) => return Err(NoPicture::Text(why)),
    };
    read_picture(alloc, line, &reading)
}
