//! A CPU that a stop calls enters it: it takes its bit from the roll, and loads what it is to know of the stop.

ghost use Rattle.std.specs.Prelude.{◌≡◌, ℕ, ◌<◌, true, false, None, if◌then◌else◌, MatchOption};
ghost use Rattle.smp_mask.specs.Mask.{has};
ghost use Rattle.smp_words.specs.Size.{cpus};
ghost use Rattle.smp_stop_steps.specs.Threads.Known.{stepped};
ghost use Rattle.smp_multi.specs.Lives.{Lives, StopMoment};
ghost use Rattle.smp_multi.specs.Names.{Slot, Work};
ghost use Rattle.smp_multi.specs.Names.field;
ghost use Rattle.smp_multi.specs.Places.{IsFree, HasEntered, IsCalled, IsVisitOf, entered, missed};

use crate::seat::{SharedStopWords, StopSeat, load, mask};
use smp_stop_steps::mask::has_bit;
use smp_stop_steps::stage::Visit;
use smp_words::field::Field;
use smp_words::word::Word;
use smp_words::work::Kind;

/// Takes the own bit from the roll of a slot: with it the CPU is in the stop of that slot.
fn take_bit(words: SharedStopWords<'_>, seat: &mut StopSeat, number: u32, slot: u32) -> bool
    requires free { IsFree words.shared.now.table_id seat.old number }
    requires low { slot < cpus }
    ensures table { seat.new.table ≡ words.entry.shared.now.table_id }
    ensures lives { Lives seat.new.known }
    ensures known { (work : Work) × (seat.new.known ≡ if result then entered slot work seat.old.known else missed slot seat.old.known)
        × (result ≡ true → IsCalled seat.old.known slot work) }
    ensures then { (found : ℕ) × StopMoment seat.old.known (Slot slot field.Roll) found × (result ≡ has found number) }
{
    let found = mask(words, seat, Word::Slot(slot, Field::Roll), !(1 << number));
    has_bit(found, number)
}

/// Loads what a CPU is to know of the stop that it has entered.
fn load_visit(words: SharedStopWords<'_>, seat: &mut StopSeat, slot: u32) -> Visit
    requires { (work : Work) × HasEntered words.shared.now.table_id seat.old slot work }
    ensures table { seat.new.table ≡ words.entry.shared.now.table_id }
    ensures lives { Lives seat.new.known }
    ensures known { seat.new.known ≡ stepped 3 seat.old.known }
    ensures visit { (work : Work) → HasEntered words.entry.shared.now.table_id seat.old slot work → IsVisitOf slot work result }
{
    let kind = load(words, seat, Word::Slot(slot, Field::Kind));
    let mask = load(words, seat, Word::Slot(slot, Field::Mask));
    let active = load(words, seat, Word::Slot(slot, Field::Active));
    Visit {
        slot,
        kind: Kind::of_word(kind),
        mask,
        active,
        acked: 0,
        answer: 0,
    }
}

/// Enters the stop of a slot, where its roll has the CPU.
pub(crate) fn enter(
    words: SharedStopWords<'_>,
    seat: &mut StopSeat,
    number: u32,
    slot: u32,
) -> Option<Visit>
    requires free { IsFree words.shared.now.table_id seat.old number }
    requires low { slot < cpus }
    ensures table { seat.new.table ≡ words.entry.shared.now.table_id }
    ensures lives { Lives seat.new.known }
    ensures known { MatchOption result (seat.new.known ≡ missed slot seat.old.known) (λ visit. (work : Work)
        × (seat.new.known ≡ stepped 3 (entered slot work seat.old.known)) × IsCalled seat.old.known slot work × IsVisitOf slot work visit) }
    ensures then { (found : ℕ) × StopMoment seat.old.known (Slot slot field.Roll) found × (result ≡ None → has found number ≡ false) }
{
    if take_bit(words, seat, number, slot) {
        Some(load_visit(words, seat, slot))
    } else {
        None
    }
}
