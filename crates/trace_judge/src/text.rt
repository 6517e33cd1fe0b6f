//! What is printed of a trace.

ghost use Rattle.std.specs.Prelude.{◌≡◌, ◌<◌, ◌++◌, OnOk, string_bytes};
ghost use Rattle.trace_judge.specs.Text.{broken_text, call_name, event_name, label_name, lawful_text, left_text};
ghost use Rattle.trace_judge.specs.Text.{open_text, owed_text, queue_text, reason_text, stop_name, stop_text};
ghost use Rattle.trace_judge.specs.Text.{tallies_of, tally_text, texts_below, why_text};

use crate::phrase::{phrase_of, write_phrase};
use smp_script::spelling::{kind_name, write_mask};
use std::alloc::{AllocError, Allocator};
use trace_model::{CallEvent, Event, LabelEvent, Reason, State, Stop, StopEvent};

/// The name of an event of calls.
fn call_name(event: CallEvent) -> &'static str
    ensures { result.now ≡ call_name event }
{
    match event {
        CallEvent::Queue(..) | CallEvent::QueueOther(..) => "queue",
        CallEvent::Free(_) => "free",
        CallEvent::Send(_) => "send",
        CallEvent::Accept => "accept",
        CallEvent::Idle => "idle",
        CallEvent::Take => "take",
        CallEvent::Unlock(_) => "unlock",
        CallEvent::Begin(..) => "begin",
        CallEvent::End(_) => "end",
    }
}

/// The name of an event of stops.
fn stop_name(event: StopEvent) -> &'static str
    ensures { result.now ≡ stop_name event }
{
    match event {
        StopEvent::Gate => "gate",
        StopEvent::Ungate => "ungate",
        StopEvent::Open(..) => "open",
        StopEvent::Enter(_) => "enter",
        StopEvent::Ack(_) => "ack",
        StopEvent::Raise(_) => "raise",
        StopEvent::Off => "off",
        StopEvent::On => "on",
        StopEvent::Run(..) => "run",
        StopEvent::Complete(_) => "complete",
        StopEvent::Collect(..) => "collect",
    }
}

/// The name of an event of keys and sites.
fn label_name(event: LabelEvent) -> &'static str
    ensures { result.now ≡ label_name event }
{
    match event {
        LabelEvent::Set(..) => "set",
        LabelEvent::Turn(..) => "turn",
        LabelEvent::Key(..) => "key",
        LabelEvent::Site(..) => "site",
        LabelEvent::Nudge(..) => "nudge",
    }
}

/// The name of an event.
fn event_name(event: Event) -> &'static str
    ensures { result.now ≡ event_name event }
{
    match event {
        Event::Call(event) => call_name(event),
        Event::Stop(event) => stop_name(event),
        Event::Label(event) => label_name(event),
    }
}

/// Why an event is none.
fn write_reason<A: Allocator>(out: &mut String<A>, why: Reason) -> Result<(), AllocError>
    ensures { OnOk result (string_bytes out.new ≡ string_bytes out.old ++ reason_text why) }
{
    write_phrase(out, phrase_of(why))
}

/// The line of an event that no run has.
pub fn write_broken<A: Allocator>(
    out: &mut String<A>,
    line: u32,
    cpu: u32,
    event: Event,
    why: Reason,
) -> Result<(), AllocError>
    ensures { OnOk result (string_bytes out.new ≡ string_bytes out.old ++ broken_text line cpu event why) }
{
    let name = event_name(event);
    write!(out, "line {line}: CPU {cpu} {name}: ")?;
    write_reason(out, why)?;
    writeln!(out, "")
}

/// A pair that has a call.
fn write_tally<A: Allocator, B: Allocator + Copy>(
    out: &mut String<A>,
    state: &State<B>,
    source: u32,
    to: u32,
) -> Result<(), AllocError>
    requires source { source < 512 }
    requires to { to < 512 }
    ensures { OnOk result (string_bytes out.new ≡ string_bytes out.old ++ tally_text state.now source to) }
{
    let queued = state.queued(source, to);
    if queued == 0 {
        return write!(out, "");
    }
    let ran = state.ran(source, to);
    write!(out, "tally {source} {to} ")?;
    writeln!(out, "{queued} {ran}")
}

/// The pairs of a source.
#[tactic(auto, using(crate::proofs::Texts::texts_none, crate::proofs::Texts::texts_more), unfolding(crate::specs::Text::tallies_of))]
fn write_tallies_of<A: Allocator, B: Allocator + Copy>(
    out: &mut String<A>,
    state: &State<B>,
    source: u32,
) -> Result<(), AllocError>
    requires { source < 512 }
    ensures { OnOk result (string_bytes out.new ≡ string_bytes out.old ++ tallies_of state.now source) }
{
    for to in 0..512 {
        write_tally(out, state, source, to)?;
    }
    Ok(())
}

/// All pairs.
#[tactic(auto, using(crate::proofs::Texts::texts_none, crate::proofs::Texts::texts_more))]
fn write_tallies<A: Allocator, B: Allocator + Copy>(
    out: &mut String<A>,
    state: &State<B>,
) -> Result<(), AllocError>
    ensures { OnOk result (string_bytes out.new ≡ string_bytes out.old ++ texts_below (tallies_of state.now) 512) }
{
    for source in 0..512 {
        write_tallies_of(out, state, source)?;
    }
    Ok(())
}

/// Which CPU owes an interrupt.
fn write_owed<A: Allocator>(out: &mut String<A>, owed: Option<u32>) -> Result<(), AllocError>
    ensures { OnOk result (string_bytes out.new ≡ string_bytes out.old ++ owed_text owed) }
{
    match owed {
        Some(source) => write!(out, " owed {source}"),
        None => write!(out, ""),
    }
}

/// Why a queue is not lost.
fn write_why<A: Allocator>(
    out: &mut String<A>,
    silent: bool,
    accepted: bool,
    pending: bool,
    owed: Option<u32>,
) -> Result<(), AllocError>
    ensures { OnOk result (string_bytes out.new ≡ string_bytes out.old ++ why_text silent accepted pending owed) }
{
    if silent {
        return write!(out, "");
    }
    if accepted {
        return write!(out, " accepted");
    }
    if pending {
        return write!(out, " pending");
    }
    write_owed(out, owed)
}

/// A queue that is not empty, with its number of calls.
fn write_queue<A: Allocator, B: Allocator + Copy>(
    out: &mut String<A>,
    state: &State<B>,
    cpu: u32,
) -> Result<(), AllocError>
    requires { cpu < 512 }
    ensures { OnOk result (string_bytes out.new ≡ string_bytes out.old ++ queue_text state.now cpu) }
{
    if !state.has_nodes(cpu) {
        return write!(out, "");
    }
    let length = state.queue_length(cpu);
    write!(out, "queue {cpu} {length}")?;
    let silent = state.setting.without.interrupts;
    let owed = state.owed_by(cpu);
    write_why(
        out,
        silent,
        state.has_accepted(cpu),
        state.has_pending(cpu),
        owed,
    )?;
    writeln!(out, "")
}

/// All queues.
#[tactic(auto, using(crate::proofs::Texts::texts_none, crate::proofs::Texts::texts_more))]
fn write_queues<A: Allocator, B: Allocator + Copy>(
    out: &mut String<A>,
    state: &State<B>,
) -> Result<(), AllocError>
    ensures { OnOk result (string_bytes out.new ≡ string_bytes out.old ++ texts_below (queue_text state.now) 512) }
{
    for cpu in 0..512 {
        write_queue(out, state, cpu)?;
    }
    Ok(())
}

/// A stop that is open.
fn write_stop<A: Allocator>(out: &mut String<A>, number: u32, stop: &Stop) -> Result<(), AllocError>
    ensures { OnOk result (string_bytes out.new ≡ string_bytes out.old ++ open_text number stop.now) }
{
    if !stop.is_open {
        return write!(out, "");
    }
    let kind = kind_name(stop.task.kind);
    let phase = stop.phase;
    write!(out, "stop {number} {kind} {phase} ")?;
    write_mask(out, stop.waiting())?;
    writeln!(out, "")
}

/// All stops that are open.
#[tactic(auto, using(crate::proofs::Texts::texts_none, crate::proofs::Texts::texts_more))]
fn write_stops<A: Allocator, B: Allocator + Copy>(
    out: &mut String<A>,
    state: &State<B>,
) -> Result<(), AllocError>
    ensures { OnOk result (string_bytes out.new ≡ string_bytes out.old ++ texts_below (stop_text state.now) 64) }
{
    for number in 0..64 {
        write_stop(out, number, state.stop(number))?;
    }
    Ok(())
}

/// What is left, or that nothing is.
fn write_left<A: Allocator>(
    out: &mut String<A>,
    heads: usize,
    locked: usize,
    busy: usize,
) -> Result<(), AllocError>
    ensures { OnOk result (string_bytes out.new ≡ string_bytes out.old ++ left_text heads locked busy) }
{
    if heads == 0 && locked == 0 && busy == 0 {
        return writeln!(out, "drained");
    }
    writeln!(out, "left {heads} {locked} {busy}")
}

/// What is printed of a lawful trace, with its number of events and the state in which it ends.
pub fn write_lawful<A: Allocator, B: Allocator + Copy>(
    out: &mut String<A>,
    events: u32,
    state: &State<B>,
) -> Result<(), AllocError>
    ensures { OnOk result (string_bytes out.new ≡ string_bytes out.old ++ lawful_text events state.now) }
{
    write!(out, "lawful {events} events\n")?;
    write_tallies(out, state)?;
    write_queues(out, state)?;
    write_stops(out, state)?;
    write_left(out, state.heads(), state.locked(), state.busy())
}
