//! A trace of events, or what a kernel's tracer wrote, as a page of HTML to step through.

ghost use Rattle.std.specs.Prelude.{◌≡◌, ◌++◌, IfOk, OnOk, map, string_bytes};
ghost use Rattle.std.specs.List.{flat_map};
ghost use Rattle.smp_script.specs.Lines.{parts_of};
ghost use Rattle.smp_script.specs.Transforms.{Makes};
ghost use Rattle.trace_judge.specs.Traces.{AtFault, IsRuled, ruling_of};
ghost use Rattle.trace_page.specs.Escapes.{escaped};
ghost use Rattle.trace_page.specs.TracePages.{event_line, kernel_page, page_of, shown, source_line, told_by, trace_page};
ghost use Rattle.trace_page.specs.TracePages.{IsTracePage, PagesKernel};

use crate::escape::push_escaped;
use crate::page_trace::{BEFORE_EVENTS, BEFORE_VERDICT, PARTS, TRACE};
use crate::shown::shown_count;
use smp_mask::SmpError;
use smp_script::line::parts;
use std::alloc::{AllocError, Allocator};
use trace_events::text::write_numbered_line;
use trace_ftrace::text::judge_kernel;
use trace_ftrace::told::Told;
use trace_ftrace::verdict::read_told;
use trace_ftrace::wrong::Refusal;
use trace_judge::Ruling;
use trace_judge::verdict::{Verdict, judge, write_verdict};
use view::page_script::{HELPERS, LANES};
use view::page_style::STYLE;

/// The front of a page, up to its lines of events.
fn push_front<A: Allocator>(out: &mut Vec<u8, A>, text: &[u8]) -> Result<(), AllocError>
    ensures { OnOk result (out.new.items ≡ out.old.items ++ STYLE.now ++ PARTS.now ++ text.now ++ BEFORE_EVENTS.now) }
{
    out.extend_from_slice(STYLE.as_bytes())?;
    out.extend_from_slice(PARTS.as_bytes())?;
    out.extend_from_slice(text)?;
    out.extend_from_slice(BEFORE_EVENTS.as_bytes())
}

/// What is behind the verdict.
fn push_script<A: Allocator>(out: &mut Vec<u8, A>) -> Result<(), AllocError>
    ensures { OnOk result (out.new.items ≡ out.old.items ++ HELPERS.now ++ TRACE.now ++ LANES.now) }
{
    out.extend_from_slice(HELPERS.as_bytes())?;
    out.extend_from_slice(TRACE.as_bytes())?;
    out.extend_from_slice(LANES.as_bytes())
}

/// A page with this text, these lines of events and this verdict.
#[tactic(auto, unfolding(crate::specs::TracePages::page_of))]
fn page<A: Allocator + Copy>(
    alloc: A,
    text: &[u8],
    events: &[u8],
    said: &[u8],
) -> Result<Vec<u8, A>, AllocError>
    ensures { IfOk result (λ out. out.items ≡ page_of text.now events.now (escaped said.now)) }
{
    let mut out = Vec::new(alloc);
    push_front(&mut out, text)?;
    out.extend_from_slice(events)?;
    out.extend_from_slice(BEFORE_VERDICT.as_bytes())?;
    push_escaped(&mut out, said)?;
    push_script(&mut out)?;
    Ok(out)
}

/// The page of a trace, with what is printed of its verdict.
fn trace_page<A: Allocator + Copy>(
    alloc: A,
    text: &[u8],
    said: &[u8],
) -> Result<Vec<u8, A>, AllocError>
    ensures { IfOk result (λ out. out.items ≡ trace_page text.now said.now) }
{
    let mut shown = Vec::new(alloc);
    push_escaped(&mut shown, text)?;
    page(alloc, shown.as_slice(), b"", said)
}

/// Whether a verdict is that the trace is lawful.
fn ruling_of<A: Allocator>(verdict: &Verdict<A>) -> Ruling
    ensures { result ≡ ruling_of verdict.now }
{
    match verdict {
        Verdict::Lawful(..) => Ruling::Lawful,
        Verdict::Broken(..) => Ruling::Broken,
    }
}

/// What is printed of the verdict on the trace in this text, and whether it is lawful.
fn ruled<A: Allocator + Copy>(alloc: A, text: &[u8]) -> Result<(Vec<u8, A>, Ruling), SmpError>
    ensures { Makes IsRuled AtFault text.now result }
{
    let verdict = judge(alloc, text)?;
    let mut out = String::new(alloc);
    let Ok(()) = write_verdict(&mut out, &verdict) else {
        return Err(SmpError::NoMemory);
    };
    Ok((out.into_bytes(), ruling_of(&verdict)))
}

/// The page of the trace in this text, and whether the trace is lawful. A trace that is not is shown up to its refused event.
///
/// Refusals: `BadScript` with the first line at fault, where no event before it is broken; `NoMemory`.
pub fn page_of_trace<A: Allocator + Copy>(
    alloc: A,
    text: &[u8],
) -> Result<(Vec<u8, A>, Ruling), SmpError>
    ensures { Makes IsTracePage AtFault text.now result }
{
    let (said, ruling) = ruled(alloc, text)?;
    let Ok(out) = trace_page(alloc, text, said.as_slice()) else {
        return Err(SmpError::NoMemory);
    };
    Ok((out, ruling))
}

/// The line of an event: the number of the line that tells it, its CPU, and the event.
fn write_event<A: Allocator>(out: &mut String<A>, told: &Told) -> Result<(), AllocError>
    ensures { OnOk result (string_bytes out.new ≡ string_bytes out.old ++ event_line told.now) }
{
    let line = told.line;
    write!(out, "{line} ")?;
    write_numbered_line(out, told.cpu, told.event)
}

/// The lines of events.
fn events_text<A: Allocator>(alloc: A, events: &[Told]) -> Result<String<A>, AllocError>
    ensures { IfOk result (λ text. string_bytes text ≡ flat_map event_line events.now) }
{
    let mut out = String::new(alloc);
    for told in events {
        write_event(&mut out, told)?;
    }
    Ok(out)
}

/// The line that tells an event, of these lines.
fn line_of<'a>(lines: &[&'a [u8]], told: &Told) -> &'a [u8]
    ensures { result.now ≡ told_by (map (λ l. l.now) lines.now) told.now }
{
    match lines.get((told.line as usize).saturating_sub(1)) {
        Some(line) => *line,
        None => b"",
    }
}

/// The lines that tell events, of these lines.
fn lines_text<A: Allocator>(
    alloc: A,
    lines: &[&[u8]],
    events: &[Told],
) -> Result<Vec<u8, A>, AllocError>
    ensures { IfOk result (λ text. text.items ≡ flat_map (source_line (map (λ l. l.now) lines.now)) events.now) }
{
    let mut out = Vec::new(alloc);
    for told in events {
        push_escaped(&mut out, line_of(lines, told))?;
        out.push(b'\n')?;
    }
    Ok(out)
}

/// The page of a text of a kernel's tracer that tells these events, with what is printed of its verdict.
fn kernel_page<A: Allocator + Copy>(
    alloc: A,
    text: &[u8],
    events: &[Told],
    said: &[u8],
) -> Result<Vec<u8, A>, AllocError>
    ensures { IfOk result (λ out. out.items ≡ kernel_page text.now events.now said.now) }
{
    let lines = parts(alloc, text, b'\n')?;
    let shown = lines_text(alloc, lines.as_slice(), events)?;
    let rows = events_text(alloc, events)?;
    page(alloc, shown.as_slice(), rows.as_bytes(), said)
}

/// The page of what a text tells, up to the first event that the model has no step for, with what is printed of its verdict.
fn told_page<A: Allocator + Copy>(
    alloc: A,
    text: &[u8],
    told: &[Told],
    said: &[u8],
) -> Result<Vec<u8, A>, AllocError>
    ensures { IfOk result (λ out. out.items ≡ kernel_page text.now (shown told.now) said.now) }
{
    let count = shown_count(alloc, told)?;
    kernel_page(alloc, text, &told[..count], said)
}

/// The page of a text that a kernel's tracer wrote, without its first `skip` nanoseconds, and whether the text is lawful. One
/// that is not is shown up to its refused event.
///
/// Refusals: `TooLong`; `Wrong` with the first line at fault; `NoMemory`.
pub fn page_of_kernel<A: Allocator + Copy>(
    alloc: A,
    skip: u64,
    text: &[u8],
) -> Result<(Vec<u8, A>, Ruling), Refusal>
    ensures { PagesKernel skip text.now result }
{
    let (said, ruling) = match judge_kernel(alloc, skip, text) {
        Ok(printed) => printed,
        Err(why) => return Err(why),
    };
    let reading = match read_told(alloc, skip, text) {
        Ok(reading) => reading,
        Err(_) => return Err(Refusal::NoMemory),
    };
    let told = reading.telling.told.as_slice();
    match told_page(alloc, text, told, said.as_slice()) {
        Ok(out) => Ok((out, ruling)),
        Err(_) => Err(Refusal::NoMemory),
    }
}
