//! What one step opens and a later one closes.

ghost use Rattle.std.specs.Prelude.{◌≡◌, MatchOption, None, Some};
ghost use Rattle.std.specs.List.{find};
ghost use Rattle.view.specs.OpenClose.{call_opened, closed_by, closes, is_left, is_phase, is_run, is_taking, opened, opened_by, phase_opened, state_opened};

use smp_core::{Act, Field, Note, Seen, Word};
use trace_events::rows::{Row, What};

/// Something that lasts from one step to a later one.
#[derive(Clone, Copy)]
pub enum Link {
    /// The call of this record: from the compare-exchange that queues it to its run.
    Call(u64),
    /// The interrupt of this CPU: from a send to the swap that takes it.
    Interrupt(u32),
    /// Interrupts of this CPU are off: from its second phase until it has left the stop.
    Off(u32),
    /// The stop of this slot is in this phase.
    Phase(u32, u64),
}

// What a store to a slot opens: a phase from 1 to 4.
fn phase_opened(slot: u32, phase: u64) -> Option<Link>
    ensures { result ≡ phase_opened slot phase }
{
    if 1 <= phase && phase <= 4 {
        Some(Link::Phase(slot, phase))
    } else {
        None
    }
}

// The call that a compare-exchange queues: the head then has its record + 1.
fn call_opened(act: Act, put: Option<u64>) -> Option<Link>
    ensures { result ≡ call_opened act put }
{
    match (act, put) {
        (Act::Cas, Some(head)) => Some(Link::Call(head.saturating_sub(1))),
        _ => None,
    }
}

// What a step on a phase opens: its store the phase, the load of the second one that interrupts are off.
fn state_opened(slot: u32, seen: Seen) -> Option<Link>
    ensures { result ≡ state_opened slot seen.cpu seen.act seen.found seen.put seen.note }
{
    match (seen.act, seen.found, seen.put, seen.note) {
        (Act::Store, _, Some(phase), _) => phase_opened(slot, phase),
        (Act::Load, Some(2), _, None) => Some(Link::Off(seen.cpu)),
        _ => None,
    }
}

/// What a step opens.
pub fn opened(seen: Seen) -> Option<Link>
    ensures { result ≡ opened seen }
{
    match (seen.word, seen.note) {
        (Word::Head(_), _) => call_opened(seen.act, seen.put),
        (Word::Intr(cpu), Some(Note::Sent)) => Some(Link::Interrupt(cpu)),
        (Word::Slot(slot, Field::State), _) => state_opened(slot, seen),
        _ => None,
    }
}

// Whether a step is the run of this record's call.
fn is_run(seen: Seen, own: u64) -> bool
    ensures { result ≡ is_run own seen.note seen.word seen.put }
{
    match (seen.note, seen.word, seen.put) {
        (Some(Note::Call(_, _, _)), Word::Hand(_), Some(hand)) => hand.saturating_sub(2) == own,
        (Some(Note::Call(_, _, _)), Word::Flags(id), _) => u64::from(id) == own,
        _ => false,
    }
}

// Whether a step takes the interrupt of this CPU.
fn is_taking(seen: Seen, of: u32) -> bool
    ensures { result ≡ is_taking of seen.act seen.word }
{
    match (seen.act, seen.word) {
        (Act::Swap, Word::Intr(cpu)) => cpu == of,
        _ => false,
    }
}

// Whether a step stores the phase of this slot.
fn is_phase(seen: Seen, of: u32) -> bool
    ensures { result ≡ is_phase of seen.act seen.word }
{
    match (seen.act, seen.word) {
        (Act::Store, Word::Slot(slot, Field::State)) => slot == of,
        _ => false,
    }
}

// Whether the CPU has left its stop.
fn is_left(note: Option<Note>) -> bool
    ensures { result ≡ is_left note }
{
    match note {
        Some(Note::Left) => true,
        _ => false,
    }
}

/// Whether a step closes it.
pub fn closes(seen: Seen, link: Link) -> bool
    ensures { result ≡ closes link seen }
{
    match link {
        Link::Call(own) => is_run(seen, own),
        Link::Interrupt(cpu) => is_taking(seen, cpu),
        Link::Off(cpu) => seen.cpu == cpu && is_left(seen.note),
        Link::Phase(slot, _) => is_phase(seen, slot),
    }
}

/// What a row opens.
pub fn opened_by(row: &Row) -> Option<Link>
    ensures { result ≡ opened_by row.now.what }
{
    match row.what {
        What::Stepped(seen) => opened(seen),
        _ => None,
    }
}

// Whether a row closes it.
fn is_closed_by(row: &Row, link: Link) -> bool
    ensures { result ≡ closed_by link row.now.what }
{
    match row.what {
        What::Stepped(seen) => closes(seen, link),
        _ => false,
    }
}

/// The first of these rows that closes it.
pub fn closing<'a>(rows: &'a [Row], link: Link) -> Option<&'a Row>
    ensures { MatchOption result (find (λ row. closed_by link row.what) rows.now ≡ None) (λ row. find (λ r. closed_by link r.what) rows.now ≡ Some row.now) }
{
    for row in rows {
        if is_closed_by(row, link) {
            return Some(row);
        }
    }
    None
}
