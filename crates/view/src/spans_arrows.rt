//! What is drawn in a picture from one column to another: commands, bands and arrows.

use crate::frame::column;
use crate::idle_handles::is_idle;
use crate::open_close::{Link, closing, opened_by};
use crate::style_names::box_style;
use smp_core::Event;
use std::alloc::{AllocError, Allocator};
use trace_events::moments::{Asked, Moment};
use trace_events::rows::{Row, What};

/// What is drawn.
#[derive(Clone, Copy)]
pub enum Drawn<'a> {
    /// A command, by its style and its line.
    Command(&'static str, &'a [u8]),
    /// A handle that finds no interrupt, by its line.
    Idle(&'a [u8]),
    /// Interrupts are off.
    Off,
    /// A stop is in this phase.
    Phase(u64),
}

/// Something in the lane of a CPU, from one column to another.
#[derive(Clone, Copy)]
pub struct Span<'a> {
    pub cpu: u32,
    pub first: u32,
    pub last: u32,
    pub drawn: Drawn<'a>,
}

/// An arrow of a style from one event to another.
#[derive(Clone, Copy)]
pub struct Arrow {
    pub style: &'static str,
    pub from: Row,
    pub to: Row,
}

// A line of the script by its number; nothing where there is no such line.
fn script_line<'a>(lines: &[&'a [u8]], line: usize) -> &'a [u8] {
    match lines.get(line.saturating_sub(1)) {
        Some(bytes) => bytes,
        None => b"",
    }
}

// The last column of a command: that of the CPU's last step before another event of it.
fn end_of(begun: &Row, rest: &[Row]) -> u32 {
    let mut end = column(begun);
    for row in rest {
        match row.what {
            What::Shown => {}
            What::Stepped(_) if row.cpu == begun.cpu => end = column(row),
            _ if row.cpu == begun.cpu => return end,
            _ => {}
        }
    }
    end
}

// The box of a command, where it was begun.
fn command_of<'a>(
    moment: &Moment,
    begun: &Row,
    rest: &[Row],
    lines: &[&'a [u8]],
) -> Option<Span<'a>> {
    match (moment.asked, begun.what) {
        (Asked::Turn(Event::Start(_, command)), What::Began) => {
            let line = script_line(lines, begun.line);
            let drawn = if is_idle(moment, begun, rest) {
                Drawn::Idle(line)
            } else {
                Drawn::Command(box_style(command), line)
            };
            Some(Span {
                cpu: begun.cpu,
                first: column(begun),
                last: end_of(begun, rest),
                drawn,
            })
        }
        _ => None,
    }
}

/// The boxes of all commands.
pub fn commands<'a, A: Allocator>(
    alloc: A,
    lines: &[&'a [u8]],
    moments: &[Moment],
    rows: &[Row],
) -> Result<Vec<Span<'a>, A>, AllocError> {
    let mut found = Vec::new(alloc);
    let mut rows = rows;
    for moment in moments {
        let [row, rest @ ..] = rows else {
            return Ok(found);
        };
        if let Some(span) = command_of(moment, row, rest, lines) {
            found.push(span)?;
        }
        rows = rest;
    }
    Ok(found)
}

// The last column of what a row opens: the one before that which closes it, or this one.
fn last_of(link: Link, rest: &[Row], last: u32) -> u32 {
    match closing(rest, link) {
        Some(row) => column(row).saturating_sub(1),
        None => last,
    }
}

// The band of what a row opens: in the lane of its CPU, or of the stop's source.
fn band_of(row: &Row, rest: &[Row], last: u32) -> Option<Span<'static>> {
    let link = opened_by(row)?;
    let (cpu, drawn) = match link {
        Link::Off(cpu) => (cpu, Drawn::Off),
        Link::Phase(slot, phase) => (slot, Drawn::Phase(phase)),
        _ => return None,
    };
    Some(Span {
        cpu,
        first: column(row),
        last: last_of(link, rest, last),
        drawn,
    })
}

/// The bands of interrupts and of phases, where no column is behind this one.
pub fn bands<A: Allocator>(
    alloc: A,
    rows: &[Row],
    last: u32,
) -> Result<Vec<Span<'static>, A>, AllocError> {
    let mut found = Vec::new(alloc);
    let mut rest = rows;
    for row in rows {
        let [_, after @ ..] = rest else {
            return Ok(found);
        };
        rest = after;
        if let Some(span) = band_of(row, rest, last) {
            found.push(span)?;
        }
    }
    Ok(found)
}

// The style of an arrow, where what is opened is drawn as one.
fn arrow_style(link: Link) -> Option<&'static str> {
    match link {
        Link::Call(_) => Some("call"),
        Link::Interrupt(_) => Some("interrupt"),
        _ => None,
    }
}

// The arrow from what opens a call or an interrupt to what closes it.
fn arrow_of(row: &Row, rest: &[Row]) -> Option<Arrow> {
    let link = opened_by(row)?;
    let style = arrow_style(link)?;
    let to = closing(rest, link)?;
    Some(Arrow {
        style,
        from: *row,
        to: *to,
    })
}

/// The arrows of calls and interrupts.
pub fn arrows<A: Allocator>(alloc: A, rows: &[Row]) -> Result<Vec<Arrow, A>, AllocError> {
    let mut found = Vec::new(alloc);
    let mut rest = rows;
    for row in rows {
        let [_, after @ ..] = rest else {
            return Ok(found);
        };
        rest = after;
        if let Some(arrow) = arrow_of(row, rest) {
            found.push(arrow)?;
        }
    }
    Ok(found)
}
