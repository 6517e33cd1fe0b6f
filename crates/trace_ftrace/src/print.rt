//! The trace that a text tells, as `smp judge` reads it.

ghost use Rattle.std.specs.Prelude.{◌≡◌, ◌++◌, OnOk, IfOk, string_bytes};
ghost use Rattle.std.specs.List.{flat_map};
ghost use Rattle.trace_ftrace.specs.Print.{event_lines, has_third, head_text, is_long, is_third, printed, trace_of, trace_text, IsTrace};
ghost use Rattle.trace_ftrace.specs.Reading.{reading_of};

use crate::told::Told;
use crate::verdict::read_told;
use crate::wrong::Refusal;
use std::alloc::{AllocError, Allocator};
use trace_events::text::write_numbered_line;
use trace_judge::body::MOST_TRACE_BYTES;
use trace_model::{CallEvent, Event};

/// The most events of a trace that has a comment for each, and three lines in front.
const MOST_PRINTED: usize = 499_998;

/// Whether an event needs version 3: it is of stops, or it is of a CPU from 32 on, or queues a call for one.
fn is_third(told: &Told) -> bool
    ensures { result ≡ is_third told.now }
{
    if told.cpu >= 32 {
        return true;
    }
    match told.event {
        Event::Call(CallEvent::Queue(_, to, ..)) => to >= 32,
        Event::Stop(_) => true,
        _ => false,
    }
}

/// Whether one of these is so.
fn has_third(told: &[Told]) -> bool
    ensures { result ≡ has_third told.now }
{
    let mut rest = told;
    while let [first, after @ ..] = rest {
        if is_third(first) {
            return true;
        }
        rest = after;
    }
    false
}

/// Writes what is in front of the events.
#[tactic(auto, unfolding(crate::specs::Print::head_text))]
fn write_head<A: Allocator>(out: &mut String<A>, is_third: bool) -> Result<(), AllocError>
    ensures { OnOk result (string_bytes out.new ≡ string_bytes out.old ++ head_text is_third) }
{
    if is_third {
        return write!(
            out,
            "smp 3 trace\ncpus 512 0-511\nwithout gate interrupts order raises switches unlocks\n"
        );
    }
    write!(
        out,
        "smp 2 trace\ncpus 32 0-31\nwithout gate interrupts order raises switches unlocks\n"
    )
}

/// Writes an event behind the number of the line that tells it.
#[tactic(auto, unfolding(crate::specs::Print::event_lines))]
fn write_event<A: Allocator>(out: &mut String<A>, told: &Told) -> Result<(), AllocError>
    ensures { OnOk result (string_bytes out.new ≡ string_bytes out.old ++ event_lines told.now) }
{
    let line = told.line;
    writeln!(out, "# line {line}")?;
    write_numbered_line(out, told.cpu, told.event)
}

/// Writes events.
fn write_all<A: Allocator>(out: &mut String<A>, told: &[Told]) -> Result<(), AllocError>
    ensures { OnOk result (string_bytes out.new ≡ string_bytes out.old ++ flat_map event_lines told.now) }
{
    let mut rest = told;
    while let [first, after @ ..] = rest {
        write_event(out, first)?;
        rest = after;
    }
    Ok(())
}

/// The trace of events.
#[tactic(auto, unfolding(crate::specs::Print::trace_text))]
fn trace_text<A: Allocator>(alloc: A, told: &[Told]) -> Result<Vec<u8, A>, AllocError>
    ensures { IfOk result (λ v. v.items ≡ trace_text told.now) }
{
    let mut out = String::new(alloc);
    write_head(&mut out, has_third(told))?;
    write_all(&mut out, told)?;
    Ok(out.into_bytes())
}

/// Whether a trace of this number of events and bytes is longer than one may be.
fn is_long(events: usize, bytes: usize) -> bool
    ensures { result ≡ is_long events bytes }
{
    events > MOST_PRINTED || bytes > MOST_TRACE_BYTES as usize
}

/// The trace of events, where it is not too long.
#[tactic(auto, unfolding(crate::specs::Print::printed))]
fn printed<A: Allocator>(alloc: A, told: &[Told]) -> Result<Vec<u8, A>, Refusal>
    ensures { IsTrace result (printed told.now) }
{
    let Ok(out) = trace_text(alloc, told) else {
        return Err(Refusal::NoMemory);
    };
    if is_long(told.len(), out.len()) {
        return Err(Refusal::LongTrace);
    }
    Ok(out)
}

/// The trace that a text of a kernel's tracer tells, without the text's first `skip` nanoseconds. In front of each event a comment
/// has the number of the line that tells it. The class of a call is `async` where no line shows it.
///
/// Refusals: `TooLong`; `Wrong` with the first line at fault; `LongTrace`; `NoMemory`.
pub fn print_kernel<A: Allocator + Copy>(
    alloc: A,
    skip: u64,
    text: &[u8],
) -> Result<Vec<u8, A>, Refusal>
    ensures { IsTrace result (trace_of (reading_of skip text.now)) }
{
    match read_told(alloc, skip, text) {
        Ok(reading) => printed(alloc, reading.telling.told.as_slice()),
        Err(why) => Err(why),
    }
}
