//! The lines of a trace, one after the other.

ghost use Rattle.std.specs.Prelude.{◌≡◌, ◌+◌, ◌≤◌, ◌<◌, ◌^◌, length, IfOk, IfSome};
ghost use Rattle.smp_script.specs.LineOf.{line_of};
ghost use Rattle.smp_script.specs.Lines.{lines_of};
ghost use Rattle.trace_judge.specs.Judged.{early_end, event_on, is_comment, judged, line_goes, told_goes, used_after, Judges, Lines, Reads};

use crate::cursor::Cursor;
use crate::early_end::EarlyEnd;
use crate::reading::read_event;
use smp_mask::Cause;
use smp_script::line::{Line, fields, next_line};
use std::alloc::Allocator;
use trace_model::{Event, Halt, Setting, State};

/// The most lines that a trace may have.
pub const MOST_LINES: u32 = 1_000_000;

/// The most bytes of a line, with its line feed.
pub const MOST_LINE_BYTES: u32 = 1024;

/// The most bytes of a trace.
pub const MOST_TRACE_BYTES: u32 = 16_777_216;

/// How many bytes are used up to the end of a line, or what is wrong with it as a line.
#[tactic(auto, unfolding(crate::specs::Judged::used_after))]
pub(crate) fn used_after(number: u32, used: u32, line: &Line<'_>) -> Result<u32, EarlyEnd>
    requires { used ≤ 16777216 }
    ensures used { result ≡ used_after number used (line_of line.now) }
    ensures within { IfOk result (λ more. (more ≤ 16777216) × (number ≤ 1000000) × (length line.now.text.now ≤ 1024)) }
{
    let size = line.text.len().min(2000) as u32 + if line.is_ended { 1 } else { 0 };
    if number > MOST_LINES || size > MOST_LINE_BYTES || used + size > MOST_TRACE_BYTES {
        return Err(EarlyEnd::Fault(number, Cause::TooLong));
    }
    if !line.is_ended {
        return Err(EarlyEnd::Fault(number, Cause::Cut));
    }
    Ok(used + size)
}

/// Whether a line is a comment.
fn is_comment(text: &[u8]) -> bool
    ensures { result ≡ is_comment text.now }
{
    match text {
        [first, ..] => *first == b'#',
        [] => false,
    }
}

/// The event that a line tells; none of a comment.
#[tactic(auto, unfolding(crate::specs::Judged::event_on))]
fn event_on<A: Allocator>(
    alloc: A,
    setting: &Setting,
    number: u32,
    text: &[u8],
) -> Result<Option<(u32, Event)>, EarlyEnd>
    requires { length text.now < 2 ^ 32 }
    ensures value { Reads result (event_on setting.now number text.now) }
    ensures below { IfOk result (λ told. IfSome told (λ p. p.0 < 512)) }
{
    if is_comment(text) {
        return Ok(None);
    }
    let Ok(fields) = fields(alloc, text) else {
        return Err(EarlyEnd::NoMemory);
    };
    match read_event(setting, fields.as_slice()) {
        Ok(event) => Ok(Some(event)),
        Err(cause) => Err(EarlyEnd::Fault(number, cause)),
    }
}

/// Why a line is the end of a trace, where its event was not made.
fn early_end(number: u32, cpu: u32, event: Event, halt: Halt) -> EarlyEnd
    ensures { result ≡ early_end number cpu event halt }
{
    match halt {
        Halt::Broken(reason) => EarlyEnd::Broken(number, cpu, event, reason),
        Halt::NoMemory => EarlyEnd::NoMemory,
    }
}

/// The event of a CPU, told by a line of this number.
#[tactic(auto, unfolding(crate::specs::Judged::told_goes))]
fn told<A: Allocator + Copy>(
    alloc: A,
    state: &mut State<A>,
    number: u32,
    cpu: u32,
    event: Event,
) -> Result<(), EarlyEnd>
    requires { cpu < 512 }
    ensures { Lines result state.new (told_goes number cpu event state.old) }
{
    let told = event;
    let made = state.event(alloc, cpu, event);
    match made {
        Ok(()) => Ok(()),
        Err(halt) => Err(early_end(number, cpu, told, halt)),
    }
}

/// The line of this number, after a number of events: how many there are with it.
#[tactic(auto, unfolding(crate::specs::Judged::line_goes))]
fn line<A: Allocator + Copy>(
    alloc: A,
    setting: &Setting,
    state: &mut State<A>,
    told_before: (u32, u32),
    text: &[u8],
) -> Result<u32, EarlyEnd>
    requires short { length text.now < 2 ^ 32 }
    requires few { told_before.1 ≤ told_before.0 }
    requires number { told_before.0 ≤ 1000000 }
    ensures goes { Judges result state.new (line_goes setting.now told_before.0 told_before.1 text.now state.old) }
    ensures few { IfOk result (λ more. more ≤ told_before.0 + 1) }
{
    let (number, events) = told_before;
    let Some((cpu, event)) = event_on(alloc, setting, number, text)? else {
        return Ok(events);
    };
    told(alloc, state, number, cpu, event)?;
    Ok(events + 1)
}

/// The lines from here on: how many events they tell.
#[tactic(auto, using(crate::proofs::Judging::judged_on, crate::proofs::Judging::judged_all))]
pub(crate) fn lines<A: Allocator + Copy>(
    alloc: A,
    setting: &Setting,
    state: &mut State<A>,
    cursor: Cursor<'_>,
) -> Result<u32, EarlyEnd>
    requires first { cursor.number ≤ 5 }
    requires before { cursor.used ≤ 16777216 }
    ensures { Judges result state.new (judged setting.now cursor.entry.number cursor.entry.used 0 (lines_of cursor.entry.rest.now) state.old) }
{
    let mut number = cursor.number;
    let mut used = cursor.used;
    let mut events = 0;
    let mut rest = cursor.rest;
    while let Some(next) = next_line(rest) {
        match used_after(number, used, &next) {
            Ok(more) => used = more,
            Err(why) => return Err(why),
        }
        match line(alloc, setting, state, (number, events), next.text) {
            Ok(more) => events = more,
            Err(why) => return Err(why),
        }
        number += 1;
        rest = next.rest;
    }
    Ok(events)
}
