//! A replay in the trace-event format, which Perfetto and chrome://tracing read. An event lasts a microsecond.

use crate::cell::cell;
use crate::choice::Choice;
use crate::frame::{column, last_column};
use crate::show::Replay;
use crate::spans_arrows::{Arrow, Drawn, Span, arrows, bands, commands};
use crate::style_names::phase_name;
use crate::svg::{lane_cpus, moments_of};
use smp_script::line::parts;
use std::alloc::{AllocError, Allocator};
use std::str::from_utf8;
use trace_events::rows::{Row, What};

// A text between quotes.
fn write_quoted<A: Allocator>(out: &mut String<A>, text: &str) -> Result<(), AllocError> {
    out.push('"')?;
    for c in text.chars() {
        match c {
            '"' => out.push_str("\\\"")?,
            '\\' => out.push_str("\\\\")?,
            ' '..='~' => out.push(c)?,
            _ => out.push('?')?,
        }
    }
    out.push('"')
}

// The begin of an event of this name and phase of the format, on the track of a CPU. It has no end yet.
fn write_begin<A: Allocator>(
    out: &mut String<A>,
    name: &str,
    phase: &str,
    cpu: u32,
) -> Result<(), AllocError> {
    out.push_str(",\n{\"name\":")?;
    write_quoted(out, name)?;
    write!(out, ",\"ph\":\"{phase}\",\"pid\":0,\"tid\":{cpu}")
}

// The name of a CPU's track.
fn write_track<A: Allocator>(out: &mut String<A>, cpu: u32) -> Result<(), AllocError> {
    write_begin(out, "thread_name", "M", cpu)?;
    write!(out, ",\"args\":{{\"name\":\"CPU {cpu}\"}}}}")
}

// Something that lasts from one column to another on the track of a CPU.
fn write_slice<A: Allocator>(
    out: &mut String<A>,
    name: &str,
    cpu: u32,
    first: u32,
    last: u32,
) -> Result<(), AllocError> {
    let lasts = last.saturating_sub(first).saturating_add(1);
    write_begin(out, name, "X", cpu)?;
    write!(out, ",\"ts\":{first},\"dur\":{lasts}}}")
}

// What a step has done, or that an event was refused.
fn write_event<A: Allocator + Copy>(
    alloc: A,
    out: &mut String<A>,
    row: &Row,
) -> Result<(), AllocError> {
    match row.what {
        What::Shown => Ok(()),
        What::Began | What::Stepped(_) | What::Refused(_) => {
            let told = cell(alloc, row.what)?;
            write_slice(out, told.as_str(), row.cpu, column(row), column(row))
        }
    }
}

// A band: it need not lie within a command, so it has a track of its own by its number.
fn write_band<A: Allocator>(
    out: &mut String<A>,
    name: &str,
    number: usize,
    one: &Span<'_>,
) -> Result<(), AllocError> {
    let end = one.last.saturating_add(1);
    let first = one.first;
    write_begin(out, name, "b", one.cpu)?;
    write!(out, ",\"cat\":\"band\",\"id\":{number},\"ts\":{first}}}")?;
    write_begin(out, name, "e", one.cpu)?;
    write!(out, ",\"cat\":\"band\",\"id\":{number},\"ts\":{end}}}")
}

// What lasts from one column to another.
fn write_span<A: Allocator>(
    out: &mut String<A>,
    number: usize,
    one: &Span<'_>,
) -> Result<(), AllocError> {
    match one.drawn {
        Drawn::Command(_, line) | Drawn::Idle(line) => {
            let name = from_utf8(line).unwrap_or("");
            write_slice(out, name, one.cpu, one.first, one.last)
        }
        Drawn::Off => write_band(out, "interrupts off", number, one),
        Drawn::Phase(phase) => write_band(out, phase_name(phase), number, one),
    }
}

// An arrow from one step to another.
fn write_arrow<A: Allocator>(
    out: &mut String<A>,
    number: usize,
    arrow: &Arrow,
) -> Result<(), AllocError> {
    let (from, to) = (column(&arrow.from), column(&arrow.to));
    write_begin(out, arrow.style, "s", arrow.from.cpu)?;
    write!(out, ",\"cat\":\"arrow\",\"id\":{number},\"ts\":{from}}}")?;
    write_begin(out, arrow.style, "f", arrow.to.cpu)?;
    write!(
        out,
        ",\"bp\":\"e\",\"cat\":\"arrow\",\"id\":{number},\"ts\":{to}}}"
    )
}

// Whether a part of it is chosen.
fn has_span(choice: &Choice, one: &Span<'_>) -> bool {
    choice.has_cpu(one.cpu) && choice.from <= one.last as usize && one.first as usize <= choice.to
}

fn has_arrow(choice: &Choice, arrow: &Arrow) -> bool {
    choice.has_cpu(arrow.from.cpu)
        && choice.has_cpu(arrow.to.cpu)
        && choice.from <= arrow.from.number
        && arrow.to.number <= choice.to
}

// What is chosen of these.
fn write_spans<A: Allocator>(
    out: &mut String<A>,
    choice: &Choice,
    spans: &[Span<'_>],
) -> Result<(), AllocError> {
    let mut number = 0usize;
    for one in spans {
        if has_span(choice, one) {
            write_span(out, number, one)?;
        }
        number = number.saturating_add(1);
    }
    Ok(())
}

// The arrows that are chosen of these.
fn write_arrows<A: Allocator>(
    out: &mut String<A>,
    choice: &Choice,
    arrows: &[Arrow],
) -> Result<(), AllocError> {
    let mut number = 0usize;
    for arrow in arrows {
        if has_arrow(choice, arrow) {
            write_arrow(out, number, arrow)?;
        }
        number = number.saturating_add(1);
    }
    Ok(())
}

// The commands of a replay.
fn write_boxes<A: Allocator + Copy>(
    alloc: A,
    out: &mut String<A>,
    choice: &Choice,
    replay: &Replay<'_, A>,
) -> Result<(), AllocError> {
    let lines = parts(alloc, replay.text, b'\n')?;
    let moments = moments_of(alloc, &replay.script)?;
    let rows = replay.rows.as_slice();
    let boxes = commands(alloc, lines.as_slice(), moments.as_slice(), rows)?;
    write_spans(out, choice, boxes.as_slice())
}

// What else lasts from one event to another.
fn write_lasting<A: Allocator + Copy>(
    alloc: A,
    out: &mut String<A>,
    choice: &Choice,
    rows: &[Row],
) -> Result<(), AllocError> {
    let bands = bands(alloc, rows, last_column(rows))?;
    write_spans(out, choice, bands.as_slice())?;
    let arrows = arrows(alloc, rows)?;
    write_arrows(out, choice, arrows.as_slice())
}

// The tracks of the CPUs that have a lane.
fn write_tracks<A: Allocator>(out: &mut String<A>, cpus: &[u32]) -> Result<(), AllocError> {
    for cpu in cpus {
        write_track(out, *cpu)?;
    }
    Ok(())
}

// What these events have done.
fn write_events<A: Allocator + Copy>(
    alloc: A,
    out: &mut String<A>,
    rows: &[Row],
) -> Result<(), AllocError> {
    for row in rows {
        write_event(alloc, out, row)?;
    }
    Ok(())
}

// What is chosen of a script's replay, between the first line and the last.
fn write_chosen<A: Allocator + Copy>(
    alloc: A,
    out: &mut String<A>,
    choice: &Choice,
    replay: &Replay<'_, A>,
) -> Result<(), AllocError> {
    let rows = replay.rows.as_slice();
    let cpus = lane_cpus(alloc, choice, &replay.script, rows)?;
    write_tracks(out, cpus.as_slice())?;
    write_boxes(alloc, out, choice, replay)?;
    write_lasting(alloc, out, choice, rows)?;
    let chosen = choice.chosen(alloc, rows)?;
    write_events(alloc, out, chosen.as_slice())
}

/// What is chosen of a script's replay.
pub(crate) fn json<A: Allocator + Copy>(
    alloc: A,
    choice: &Choice,
    replay: &Replay<'_, A>,
) -> Result<String<A>, AllocError> {
    let mut out = String::new(alloc);
    out.push_str("{\"displayTimeUnit\":\"ns\",\"traceEvents\":[\n")?;
    out.push_str("{\"name\":\"process_name\",\"ph\":\"M\",\"pid\":0,\"args\":{\"name\":\"smp\"}}")?;
    write_chosen(alloc, &mut out, choice, replay)?;
    out.push_str("\n]}\n")?;
    Ok(out)
}
