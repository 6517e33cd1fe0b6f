//! The events that steps on the words of calls, and on the gate, tell.

ghost use Rattle.std.specs.Prelude.{◌≡◌};
ghost use Rattle.trace_events.specs.StepEvents.{of_flags, of_gate, of_hand, of_head, of_intr, of_ran, of_unlock};

use crate::past::{Past, id_of};
use crate::step_events::StepEvents;
use smp_words::{Act, Note, Seen};
use trace_model::{CallEvent, Event, StopEvent};

/// What is told of a record that was unlocked: that an ASYNC call begins too, and nothing where it was never queued.
fn of_unlock(id: u16, note: Option<Note>) -> StepEvents
    ensures { result ≡ of_unlock id note }
{
    match note {
        Some(Note::Call(_, func, info)) => StepEvents::Two(
            Event::Call(CallEvent::Unlock(id)),
            Event::Call(CallEvent::Begin(id, u64::from(func), info)),
        ),
        Some(Note::Contended) => StepEvents::Nothing,
        _ => StepEvents::One(Event::Call(CallEvent::Unlock(id))),
    }
}

/// What a step on a record's flags tells.
pub fn of_flags(id: u32, seen: Seen) -> StepEvents
    ensures { result ≡ of_flags id seen.act seen }
{
    let id = id_of(u64::from(id));
    match seen.act {
        Act::Load if seen.found.unwrap_or(0) % 2 == 0 => {
            StepEvents::One(Event::Call(CallEvent::Free(id)))
        }
        Act::Store if seen.put.unwrap_or(0) == 0 => of_unlock(id, seen.note),
        _ => StepEvents::Nothing,
    }
}

/// What a step on a queue tells: a call joins it, or its CPU takes it.
pub fn of_head(past: &Past, cpu: u32, seen: Seen) -> StepEvents
    ensures { result ≡ of_head past.now cpu seen.act seen.put }
{
    let post = past.post;
    match (seen.act, seen.put) {
        (Act::Cas, Some(put)) => StepEvents::One(Event::Call(CallEvent::Queue(
            id_of(put.saturating_sub(1)),
            cpu,
            post.class,
            post.func,
            post.info,
        ))),
        (Act::Swap, _) => StepEvents::One(Event::Call(CallEvent::Take)),
        _ => StepEvents::Nothing,
    }
}

/// What a step on an interrupt word tells.
pub fn of_intr(cpu: u32, seen: Seen) -> StepEvents
    ensures { result ≡ of_intr cpu seen.act seen }
{
    match seen.act {
        Act::Store => StepEvents::One(Event::Call(CallEvent::Send(cpu))),
        Act::Swap if seen.found.unwrap_or(0) == 0 => StepEvents::One(Event::Call(CallEvent::Idle)),
        Act::Swap => StepEvents::One(Event::Call(CallEvent::Accept)),
        _ => StepEvents::Nothing,
    }
}

/// What a step on a handling word tells: that a SYNC call begins.
pub fn of_hand(seen: Seen) -> StepEvents
    ensures { result ≡ of_hand seen.note seen }
{
    match seen.note {
        Some(Note::Call(_, func, info)) => StepEvents::One(Event::Call(CallEvent::Begin(
            id_of(seen.put.unwrap_or(0).saturating_sub(2)),
            u64::from(func),
            info,
        ))),
        _ => StepEvents::Nothing,
    }
}

/// What a step on a count of calls that have run tells: that the call is over.
pub fn of_ran(past: &Past, seen: Seen) -> StepEvents
    ensures { result ≡ of_ran past.now seen.act }
{
    match seen.act {
        Act::Store => StepEvents::One(Event::Call(CallEvent::End(past.begun))),
        _ => StepEvents::Nothing,
    }
}

/// What a step on the gate tells.
pub fn of_gate(seen: Seen) -> StepEvents
    ensures { result ≡ of_gate seen.act seen.put }
{
    match (seen.act, seen.put) {
        (Act::Cas, Some(_)) => StepEvents::One(Event::Stop(StopEvent::Gate)),
        (Act::Store, _) => StepEvents::One(Event::Stop(StopEvent::Ungate)),
        _ => StepEvents::Nothing,
    }
}
