//! A replay as a page of HTML to step through: a text that never changes, around the script and a line for each thing that
//! was seen of its replay.

ghost use Rattle.std.specs.Prelude.{◌≡◌, ◌++◌, Option, ℕ, IfOk, OnOk, string_bytes};
ghost use Rattle.std.specs.List.{flat_map};
ghost use Rattle.smp_script.specs.Transforms.{HasFault, Makes};
ghost use Rattle.view.specs.Choice.{marked_in};
ghost use Rattle.view.specs.Pages.{IsPaged, found_in, number_text, page_of, put_in, row_line};

use crate::cell::cell;
use crate::choice::{Choice, Mark};
use crate::page_replay::{BEFORE_EVENTS, BEFORE_MARK, PARTS, REPLAY};
use crate::page_script::{HELPERS, LANES};
use crate::page_style::STYLE;
use smp_mask::SmpError;
use smp_script::script::read_script;
use smp_script::{Mode, Outcome};
use std::alloc::{AllocError, Allocator};
use trace_events::replay::{ending, rows_of_script};
use trace_events::rows::{Row, What};

// The number that a step found, where it found one.
fn found_in(what: What) -> Option<u64>
    ensures { result ≡ found_in what }
{
    match what {
        What::Stepped(seen) => seen.found,
        What::Began | What::Refused(_) | What::Shown => None,
    }
}

// The number that a step put, where it put one.
fn put_in(what: What) -> Option<u64>
    ensures { result ≡ put_in what }
{
    match what {
        What::Stepped(seen) => seen.put,
        What::Began | What::Refused(_) | What::Shown => None,
    }
}

// A number, or a dash where there is none.
fn write_number<A: Allocator>(out: &mut String<A>, number: Option<u64>) -> Result<(), AllocError>
    ensures { OnOk result (string_bytes out.new ≡ string_bytes out.old ++ number_text number) }
{
    match number {
        Some(number) => write!(out, "{number}"),
        None => write!(out, "-"),
    }
}

// The line of a row: its number, its line of the script, its CPU, what was found and put, and what is told of it.
fn write_row<A: Allocator + Copy>(
    alloc: A,
    out: &mut String<A>,
    row: &Row,
) -> Result<(), AllocError>
    ensures { OnOk result (string_bytes out.new ≡ string_bytes out.old ++ row_line row.now) }
{
    let number = row.number;
    let line = row.line;
    let cpu = row.cpu;
    let told = cell(alloc, row.what)?;
    write!(out, "{number} {line} {cpu} ")?;
    write_number(out, found_in(row.what))?;
    write!(out, " ")?;
    write_number(out, put_in(row.what))?;
    write!(out, " ")?;
    out.push_str(told.as_str())?;
    writeln!(out, "")
}

// The lines of all rows.
fn rows_text<A: Allocator + Copy>(alloc: A, rows: &[Row]) -> Result<String<A>, AllocError>
    ensures { IfOk result (λ text. string_bytes text ≡ flat_map row_line rows.now) }
{
    let mut out = String::new(alloc);
    for row in rows {
        write_row(alloc, &mut out, row)?;
    }
    Ok(out)
}

// The number of the event that is marked, or a dash.
fn mark_text<A: Allocator + Copy>(
    alloc: A,
    mark: Option<Mark>,
    rows: &[Row],
) -> Result<String<A>, AllocError>
    ensures { IfOk result (λ text. string_bytes text ≡ number_text (marked_in mark rows.now)) }
{
    let mut out = String::new(alloc);
    let choice = Choice {
        mark,
        ..Choice::ALL
    };
    match choice.marked(rows) {
        Some(number) => write!(out, "{number}")?,
        None => write!(out, "-")?,
    }
    Ok(out)
}

// The front of a page: up to the lines of events.
fn push_events<A: Allocator>(
    out: &mut Vec<u8, A>,
    text: &[u8],
    events: &[u8],
) -> Result<(), AllocError>
    ensures { OnOk result (out.new.items ≡ out.old.items ++ STYLE.now ++ PARTS.now ++ text.now ++ BEFORE_EVENTS.now ++ events.now) }
{
    out.extend_from_slice(STYLE.as_bytes())?;
    out.extend_from_slice(PARTS.as_bytes())?;
    out.extend_from_slice(text)?;
    out.extend_from_slice(BEFORE_EVENTS.as_bytes())?;
    out.extend_from_slice(events)
}

// The rest of a page: the event at which it opens, and its script.
fn push_foot<A: Allocator>(out: &mut Vec<u8, A>, marked: &[u8]) -> Result<(), AllocError>
    ensures { OnOk result (out.new.items ≡ out.old.items ++ BEFORE_MARK.now ++ marked.now ++ HELPERS.now ++ REPLAY.now ++ LANES.now) }
{
    out.extend_from_slice(BEFORE_MARK.as_bytes())?;
    out.extend_from_slice(marked)?;
    out.extend_from_slice(HELPERS.as_bytes())?;
    out.extend_from_slice(REPLAY.as_bytes())?;
    out.extend_from_slice(LANES.as_bytes())
}

// The page of a replay, which opens at the event that is marked.
fn page<A: Allocator + Copy>(
    alloc: A,
    mark: Option<Mark>,
    text: &[u8],
    rows: &[Row],
) -> Result<Vec<u8, A>, AllocError>
    ensures { IfOk result (λ out. out.items ≡ page_of mark text.now rows.now) }
{
    let events = rows_text(alloc, rows)?;
    let marked = mark_text(alloc, mark, rows)?;
    let mut out = Vec::new(alloc);
    push_events(&mut out, text, events.as_bytes())?;
    push_foot(&mut out, marked.as_bytes())?;
    Ok(out)
}

/// The page of the replay of the script in this text, and how the replay ended.
pub(crate) fn paged<A: Allocator + Copy>(
    alloc: A,
    mark: Option<Mark>,
    text: &[u8],
) -> Result<(Vec<u8, A>, Outcome), SmpError>
    ensures { Makes (IsPaged mark) (HasFault Mode.Replay) text.now result }
{
    let script = read_script(alloc, Mode::Replay, text)?;
    let rows = rows_of_script(alloc, &script)?;
    let ended = ending(rows.as_slice());
    let Ok(out) = page(alloc, mark, text, rows.as_slice()) else {
        return Err(SmpError::NoMemory);
    };
    Ok((out, ended))
}
