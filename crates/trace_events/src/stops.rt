//! The events that steps on the words of a slot tell.

ghost use Rattle.std.specs.Prelude.{◌≡◌};
ghost use Rattle.trace_events.specs.StepEvents.{of_ack, of_arg, of_result, of_roll, of_slot, of_state, of_todo, task_of, with_on};

use crate::mask::{has_bit, mask_of};
use crate::past::{Draft, Past, is_new, phase_of};
use crate::step_events::StepEvents;
use smp_words::phase::{DISABLE_IRQ, PREPARE};
use smp_words::{Act, Field, Note, Seen};
use trace_model::{Event, StopEvent, Task};

/// The stop that a CPU opens, by what it has stored.
fn task_of(draft: &Draft) -> Task
    ensures { result ≡ task_of draft.now }
{
    Task {
        kind: draft.kind,
        mask: mask_of(draft.mask),
        active: mask_of(draft.active),
        func: draft.func,
        arg: draft.arg,
    }
}

/// An event, and that the interrupts go on, where the note says so.
fn with_on(event: StopEvent, note: Option<Note>) -> StepEvents
    ensures { result ≡ with_on event note }
{
    match note {
        Some(Note::Left) => StepEvents::Two(Event::Stop(event), Event::Stop(StopEvent::On)),
        _ => StepEvents::One(Event::Stop(event)),
    }
}

/// What a step on the CPUs that have not entered tells: the stop is open, or this CPU is in it.
fn of_roll(past: &Past, source: u32, seen: Seen) -> StepEvents
    ensures { result ≡ of_roll past.now source seen.act seen }
{
    match seen.act {
        Act::Store => {
            StepEvents::One(Event::Stop(StopEvent::Open(seen.cpu, task_of(&past.draft))))
        }
        Act::And if has_bit(seen.found.unwrap_or(0), seen.cpu) => {
            StepEvents::One(Event::Stop(StopEvent::Enter(source)))
        }
        _ => StepEvents::Nothing,
    }
}

/// What a step on the phase tells: interrupts go off at `DISABLE_IRQ`, or the phase grows.
fn of_state(seen: Seen) -> StepEvents
    ensures { result ≡ of_state seen.act seen }
{
    let put = seen.put.unwrap_or(0);
    match seen.act {
        Act::Load if seen.found.unwrap_or(0) == u64::from(DISABLE_IRQ) && is_new(seen.note) => {
            StepEvents::One(Event::Stop(StopEvent::Off))
        }
        Act::Store if put > u64::from(PREPARE) => with_on(
            StopEvent::Raise(phase_of(put)),
            seen.note,
        ),
        _ => StepEvents::Nothing,
    }
}

/// What a step on the count of acknowledgements tells.
fn of_ack(past: &Past, seen: Seen) -> StepEvents
    ensures { result ≡ of_ack past.now seen.act seen.note }
{
    match seen.act {
        Act::Sub => with_on(StopEvent::Ack(past.phase), seen.note),
        _ => StepEvents::Nothing,
    }
}

/// What a step on the argument tells: that the function is entered.
fn of_arg(seen: Seen) -> StepEvents
    ensures { result ≡ of_arg seen.note }
{
    match seen.note {
        Some(Note::Run(func, arg)) => {
            StepEvents::One(Event::Stop(StopEvent::Run(u64::from(func), arg)))
        }
        _ => StepEvents::Nothing,
    }
}

/// What a step on the count of those who have not completed tells.
fn of_todo(past: &Past, seen: Seen) -> StepEvents
    ensures { result ≡ of_todo past.now seen.act }
{
    match seen.act {
        Act::Sub => StepEvents::One(Event::Stop(StopEvent::Complete(past.answer))),
        _ => StepEvents::Nothing,
    }
}

/// What a step on the result tells: that it is collected.
fn of_result(seen: Seen) -> StepEvents
    ensures { result ≡ of_result seen.cpu seen.note }
{
    match seen.note {
        Some(Note::Result(answer)) => {
            StepEvents::One(Event::Stop(StopEvent::Collect(seen.cpu, answer)))
        }
        _ => StepEvents::Nothing,
    }
}

/// What a step on a word of a slot tells.
pub fn of_slot(past: &Past, source: u32, field: Field, seen: Seen) -> StepEvents
    ensures { result ≡ of_slot past.now source field seen }
{
    match field {
        Field::Roll => of_roll(past, source, seen),
        Field::State => of_state(seen),
        Field::Ack => of_ack(past, seen),
        Field::Arg => of_arg(seen),
        Field::Todo => of_todo(past, seen),
        Field::Result => of_result(seen),
        Field::Kind | Field::Mask | Field::Active | Field::Func | Field::Done => {
            StepEvents::Nothing
        }
    }
}
