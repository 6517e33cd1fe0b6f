//! What is printed of a verdict on a text of the tracer.

ghost use Rattle.std.specs.Prelude.{◌≡◌, ◌++◌, IfOk, OnOk, string_bytes};
ghost use Rattle.smp_script.specs.Lines.{lines_of};
ghost use Rattle.trace_ftrace.specs.SourceView.{source_value};
ghost use Rattle.trace_ftrace.specs.Text.{broken_lines, broken_record, class_text, count_text, counts_text, direct_text, earlier_text};
ghost use Rattle.trace_ftrace.specs.Text.{event_record, first_counts, front_text, judged_text, last_counts, last_queue, lawful_lines};
ghost use Rattle.trace_ftrace.specs.Text.{line_behind, line_from, named_record, order_text, queue_of, queued_text, shown_text, source_text};
ghost use Rattle.trace_ftrace.specs.Text.{verdict_text, wakes_text, works_text};

use crate::counts::{Counts, count_lines};
use crate::kept::Mark;
use crate::names::{BrokenEvent, Names, broken_line};
use crate::told::Told;
use crate::waits::{is_queue, write_waits};
use smp_script::line::next_line;
use std::alloc::{AllocError, Allocator};
use trace_judge::Verdict;
use trace_judge::text::write_lawful;
use trace_model::{CallEvent, Event, Reason, State};

/// Whether order is judged.
#[derive(Clone, Copy, Debug, PartialEq, Eq)]
pub enum OrderJudged {
    /// It is not asked for.
    Unasked,
    /// Some line leaves it out, as one that shows no class or no context of a call that it queues.
    Hidden,
    Judged,
}

/// A text, with the kernel's names in it, what its lines show, the events that these tell, and the most nanoseconds that a call
/// waits untold.
#[derive(Clone, Copy)]
pub(crate) struct Source<'a> {
    pub(crate) text: &'a [u8],
    pub(crate) names: Names<'a>,
    pub(crate) marks: &'a [Mark],
    pub(crate) offline: Option<u32>,
    pub(crate) told: &'a [Told],
    pub(crate) order: OrderJudged,
    pub(crate) slow: u64,
}

/// The line of this number, from 1 on; empty where there is none.
pub(crate) fn line_text(text: &[u8], number: u32) -> &[u8]
    ensures { result.now ≡ line_from 1 number (lines_of text.now) }
{
    let mut at = 1u64;
    let mut rest = text;
    while let Some(next) = next_line(rest) {
        if at == number as u64 {
            return next.text;
        }
        at += 1;
        rest = next.rest;
    }
    b""
}

/// The record that a reason names; none where it names none.
fn named_record(why: Reason) -> Option<u16>
    ensures { result ≡ named_record why }
{
    match why {
        Reason::RecordFree(id) => Some(id),
        Reason::RecordQueued(id, _) => Some(id),
        Reason::RecordRuns(id, _) => Some(id),
        Reason::ComesFirst(id) => Some(id),
        Reason::NotOver(id) => Some(id),
        _ => None,
    }
}

/// The record of an event; none where it has none.
fn event_record(event: Event) -> Option<u16>
    ensures { result ≡ event_record event }
{
    match event {
        Event::Call(CallEvent::Queue(id, _, _, _, _)) => Some(id),
        Event::Call(CallEvent::Begin(id, _, _)) => Some(id),
        Event::Call(CallEvent::End(id)) => Some(id),
        Event::Call(CallEvent::Free(id)) => Some(id),
        _ => None,
    }
}

/// The record that is wrong where an event is refused: that of the reason, or else that of the event.
pub(crate) fn broken_record(event: Event, why: Reason) -> Option<u16>
    ensures { result ≡ broken_record event why }
{
    match named_record(why) {
        Some(id) => Some(id),
        None => event_record(event),
    }
}

/// The line before this one that has queued a record last.
fn last_queue(told: &[Told], id: u16, line: u32) -> Option<u32>
    ensures { result ≡ last_queue id line told.now None }
{
    let mut found = None;
    let mut rest = told;
    while let [first, after @ ..] = rest {
        if first.line < line && is_queue(first, id) {
            found = Some(first.line);
        }
        rest = after;
    }
    found
}

/// The line that has queued a record last, where there is a record.
pub(crate) fn queue_of(told: &[Told], broken: Option<u16>, line: u32) -> Option<u32>
    ensures { result ≡ queue_of broken line told.now }
{
    match broken {
        Some(id) => last_queue(told, id, line),
        None => None,
    }
}

/// Writes a line of a text.
fn write_line<A: Allocator>(out: &mut Vec<u8, A>, text: &[u8], line: u32) -> Result<(), AllocError>
    ensures { OnOk result (out.new.items ≡ out.old.items ++ line_behind text.now line) }
{
    out.extend_from_slice(line_text(text, line))?;
    out.push(b'\n')?;
    Ok(())
}

/// Writes what is in front of the line that has queued a record last.
#[tactic(auto, unfolding(crate::specs::Text::front_text))]
fn write_front<A: Allocator + Copy>(
    alloc: A,
    out: &mut Vec<u8, A>,
    line: u32,
) -> Result<(), AllocError>
    ensures { OnOk result (out.new.items ≡ out.old.items ++ front_text line) }
{
    let front = format!(in alloc; "queued last: line {line}: ")?;
    out.extend_from_slice(front.as_bytes())
}

/// Writes the line that has queued a record last, where there is one.
fn write_queued<A: Allocator + Copy>(
    alloc: A,
    out: &mut Vec<u8, A>,
    text: &[u8],
    queued: Option<u32>,
) -> Result<(), AllocError>
    ensures { OnOk result (out.new.items ≡ out.old.items ++ queued_text text.now queued) }
{
    let Some(line) = queued else {
        return Ok(());
    };
    write_front(alloc, out, line)?;
    write_line(out, text, line)
}

/// Writes the line of an event that is refused, and the one that has queued the record last.
#[tactic(auto, unfolding(crate::specs::Text::source_text))]
fn write_source<A: Allocator + Copy>(
    alloc: A,
    out: &mut Vec<u8, A>,
    source: &Source<'_>,
    line: u32,
    broken: Option<u16>,
) -> Result<(), AllocError>
    ensures { OnOk result (out.new.items ≡ out.old.items ++ source_text source.now.text.now source.now.told.now line broken) }
{
    write_line(out, source.text, line)?;
    let queued = queue_of(source.told, broken, line);
    write_queued(alloc, out, source.text, queued)
}

/// Writes whether class is judged.
#[tactic(auto, unfolding(crate::specs::Text::class_text))]
fn write_class<A: Allocator>(out: &mut String<A>, unshown: usize) -> Result<(), AllocError>
    ensures { OnOk result (string_bytes out.new ≡ string_bytes out.old ++ class_text unshown) }
{
    if unshown == 0 {
        return write!(out, "class: judged\norder: ");
    }
    write!(out, "class: not judged of {unshown} calls\norder: ")
}

/// What is said of order.
fn order_text(order: OrderJudged) -> &'static str
    ensures { result.now ≡ order_text order }
{
    match order {
        OrderJudged::Unasked => "not judged\n",
        OrderJudged::Hidden => "not judged: the lines do not show it\n",
        OrderJudged::Judged => "judged\n",
    }
}

/// Writes whether class and order are judged.
fn write_judged<A: Allocator>(
    out: &mut String<A>,
    order: OrderJudged,
    unshown: usize,
) -> Result<(), AllocError>
    ensures { OnOk result (string_bytes out.new ≡ string_bytes out.old ++ judged_text order unshown) }
{
    write_class(out, unshown)?;
    out.push_str(order_text(order))
}

/// Writes a count between two texts.
#[tactic(auto, unfolding(crate::specs::Text::count_text))]
fn write_count<A: Allocator>(
    out: &mut String<A>,
    front: &'static str,
    count: usize,
    back: &'static str,
) -> Result<(), AllocError>
    ensures { OnOk result (string_bytes out.new ≡ string_bytes out.old ++ count_text front.now count back.now) }
{
    write!(out, "{front}{count}{back}")
}

/// Writes how many direct calls there are.
#[tactic(auto, unfolding(crate::specs::Text::direct_text))]
fn write_direct<A: Allocator>(out: &mut String<A>, count: usize) -> Result<(), AllocError>
    ensures { OnOk result (string_bytes out.new ≡ string_bytes out.old ++ direct_text count) }
{
    write_count(out, "not judged: ", count, " direct calls")
}

/// Writes how many wakes there are.
#[tactic(auto, unfolding(crate::specs::Text::wakes_text))]
fn write_wakes<A: Allocator>(out: &mut String<A>, count: usize) -> Result<(), AllocError>
    ensures { OnOk result (string_bytes out.new ≡ string_bytes out.old ++ wakes_text count) }
{
    write_count(out, ", ", count, " wakes")
}

/// Writes how many irq works there are.
#[tactic(auto, unfolding(crate::specs::Text::works_text))]
fn write_works<A: Allocator>(out: &mut String<A>, count: usize) -> Result<(), AllocError>
    ensures { OnOk result (string_bytes out.new ≡ string_bytes out.old ++ works_text count) }
{
    write_count(out, ", ", count, " irq works")
}

/// Writes how many calls from before there are.
#[tactic(auto, unfolding(crate::specs::Text::earlier_text))]
fn write_earlier<A: Allocator>(out: &mut String<A>, count: usize) -> Result<(), AllocError>
    ensures { OnOk result (string_bytes out.new ≡ string_bytes out.old ++ earlier_text count) }
{
    write_count(out, ", ", count, " earlier calls\n")
}

/// Writes how many direct calls and wakes there are.
#[tactic(auto, unfolding(crate::specs::Text::first_counts))]
fn write_first_counts<A: Allocator>(out: &mut String<A>, counts: Counts) -> Result<(), AllocError>
    ensures { OnOk result (string_bytes out.new ≡ string_bytes out.old ++ first_counts counts) }
{
    write_direct(out, counts.direct)?;
    write_wakes(out, counts.wakes)
}

/// Writes how many irq works and calls from before there are.
#[tactic(auto, unfolding(crate::specs::Text::last_counts))]
fn write_last_counts<A: Allocator>(out: &mut String<A>, counts: Counts) -> Result<(), AllocError>
    ensures { OnOk result (string_bytes out.new ≡ string_bytes out.old ++ last_counts counts) }
{
    write_works(out, counts.works)?;
    write_earlier(out, counts.earlier)
}

/// Writes what is not judged.
fn write_counts<A: Allocator>(
    out: &mut String<A>,
    order: OrderJudged,
    counts: Counts,
) -> Result<(), AllocError>
    ensures { OnOk result (string_bytes out.new ≡ string_bytes out.old ++ counts_text order counts) }
{
    write_first_counts(out, counts)?;
    write_last_counts(out, counts)?;
    write_judged(out, order, counts.unshown)
}

/// What is printed of a lawful text.
#[tactic(auto, unfolding(crate::specs::Text::lawful_lines))]
fn lawful_lines<A: Allocator + Copy>(
    alloc: A,
    order: OrderJudged,
    events: u32,
    state: &State<A>,
    counts: Counts,
) -> Result<Vec<u8, A>, AllocError>
    ensures { IfOk result (λ v. v.items ≡ lawful_lines order events state.now counts) }
{
    let mut out = String::new(alloc);
    write_lawful(&mut out, events, state)?;
    write_counts(&mut out, order, counts)?;
    Ok(out.into_bytes())
}

/// What is printed of a text with an event that no run has.
#[tactic(auto, unfolding(crate::specs::Text::broken_lines))]
fn broken_lines<A: Allocator + Copy>(
    alloc: A,
    source: &Source<'_>,
    broken: &BrokenEvent,
    unshown: usize,
) -> Result<Vec<u8, A>, AllocError>
    ensures { IfOk result (λ v. v.items ≡ broken_lines (source_value source.now) broken.now unshown) }
{
    let mut out = broken_line(alloc, &source.names, broken)?;
    let record = broken_record(broken.event, broken.why);
    write_source(alloc, &mut out, source, broken.line, record)?;
    let mut judged = String::new(alloc);
    write_judged(&mut judged, source.order, unshown)?;
    out.extend_from_slice(judged.as_bytes())?;
    Ok(out)
}

/// What is printed of a verdict alone.
#[tactic(auto, unfolding(crate::specs::Text::verdict_text))]
fn verdict_lines<A: Allocator + Copy>(
    alloc: A,
    source: &Source<'_>,
    verdict: &Verdict<A>,
) -> Result<Vec<u8, A>, AllocError>
    ensures { IfOk result (λ v. v.items ≡ verdict_text (source_value source.now) verdict.now) }
{
    let counts = count_lines(source.marks, source.told);
    match verdict {
        Verdict::Lawful(events, state) => lawful_lines(alloc, source.order, *events, state, counts),
        Verdict::Broken(line, cpu, event, why) => {
            let broken = BrokenEvent {
                line: *line,
                cpu: *cpu,
                event: *event,
                why: *why,
            };
            broken_lines(alloc, source, &broken, counts.unshown)
        }
    }
}

/// What is printed of a verdict, and behind it the calls that wait.
#[tactic(auto, unfolding(crate::specs::Text::shown_text))]
pub(crate) fn shown<A: Allocator + Copy>(
    alloc: A,
    source: &Source<'_>,
    verdict: &Verdict<A>,
) -> Result<Vec<u8, A>, AllocError>
    ensures { IfOk result (λ v. v.items ≡ shown_text (source_value source.now) verdict.now) }
{
    let mut out = verdict_lines(alloc, source, verdict)?;
    write_waits(alloc, &mut out, &source.names, source.slow, source.told)?;
    Ok(out)
}
