//! The events that a step tells.

ghost use Rattle.std.specs.Prelude.{◌≡◌};
ghost use Rattle.trace_events.specs.StepEvents.{of_key, of_site, told_of};

use crate::calls::{of_flags, of_gate, of_hand, of_head, of_intr, of_ran};
use crate::past::Past;
use crate::stops::of_slot;
use smp_labels::is_on;
use smp_words::phase::RUN;
use smp_words::{Act, Seen, Word};
use trace_model::{Event, LabelEvent};

/// What a step tells: at most two events, in this order.
#[derive(Clone, Copy)]
pub enum StepEvents {
    Nothing,
    One(Event),
    Two(Event, Event),
}

/// What a step on a key tells. Inside a patch a load tells nothing.
fn of_key(past: &Past, key: u32, seen: Seen) -> StepEvents
    ensures { result ≡ of_key past.now key seen.act seen }
{
    let found = seen.found.unwrap_or(0);
    match seen.act {
        Act::Load if past.phase == RUN => StepEvents::Nothing,
        Act::Load => StepEvents::One(Event::Label(LabelEvent::Key(key, is_on(found)))),
        Act::Store => StepEvents::One(Event::Label(LabelEvent::Set(key, seen.put.unwrap_or(0)))),
        Act::Cas => match seen.put {
            Some(put) => StepEvents::One(Event::Label(LabelEvent::Nudge(key, put > found))),
            None => StepEvents::Nothing,
        },
        _ => StepEvents::Nothing,
    }
}

/// What a step on a site tells.
fn of_site(site: u32, seen: Seen) -> StepEvents
    ensures { result ≡ of_site site seen.act seen }
{
    match seen.act {
        Act::Load => {
            StepEvents::One(Event::Label(LabelEvent::Site(site, is_on(seen.found.unwrap_or(0)))))
        }
        Act::Store => {
            StepEvents::One(Event::Label(LabelEvent::Turn(site, is_on(seen.put.unwrap_or(0)))))
        }
        _ => StepEvents::Nothing,
    }
}

/// What a step tells, by what its CPU has done before.
pub fn tell(past: &Past, seen: Seen) -> StepEvents
    ensures { result ≡ told_of past.now seen }
{
    match seen.word {
        Word::Flags(id) => of_flags(id, seen),
        Word::Head(cpu) => of_head(past, cpu, seen),
        Word::Intr(cpu) => of_intr(cpu, seen),
        Word::Hand(_) => of_hand(seen),
        Word::Ran(..) => of_ran(past, seen),
        Word::Gate => of_gate(seen),
        Word::Slot(source, field) => of_slot(past, source, field, seen),
        Word::Key(key) => of_key(past, key, seen),
        Word::Site(site) => of_site(site, seen),
        Word::Queued(..) | Word::Func(_) | Word::Info(_) | Word::Next(_) | Word::Entry(_) => {
            StepEvents::Nothing
        }
    }
}
