//! The steps of a turn: a CPU loads the phase, acknowledges it, and as the last stores the next one (`ack_state`,
//! `set_state`).

ghost use Rattle.std.specs.Prelude.{◌≡◌, ◌≢◌, ◌⊎◌, ◌+◌, ◌≤◌, ◌==◌, false, if◌then◌else◌};
ghost use Rattle.smp_mask.specs.Mask.{has};
ghost use Rattle.smp_stop_steps.specs.Threads.Known.{stepped};
ghost use Rattle.smp_multi.specs.Lives.{Lives};
ghost use Rattle.smp_stop_steps.specs.Threads.KnownAfter.{acked_by, looked_known, raised_by};
ghost use Rattle.smp_stop_steps.specs.Stages.{visit_acked};
ghost use Rattle.smp_multi.specs.Names.{Rests, Fills};
ghost use Rattle.smp_multi.specs.Rounds.{AtTurn, passed_by};

use crate::seat::{SharedStopWords, StopSeat, load, store, subtract};
use smp_stop_steps::mask::weight;
use smp_stop_steps::stage::Visit;
use smp_words::field::Field;
use smp_words::phase::{DISABLE_IRQ, EXIT, RUN};
use smp_words::word::Word;

/// Loads the phase: the one that the CPU has acknowledged last, or the next one.
pub(crate) fn look(words: SharedStopWords<'_>, seat: &mut StopSeat, visit: Visit) -> u64
    requires at { AtTurn words.shared.now.table_id seat.old visit visit.acked Rests }
    requires more { visit.acked ≢ EXIT }
    ensures at { AtTurn words.entry.shared.now.table_id seat.new visit result Rests }
    ensures lives { Lives seat.new.known }
    ensures known { seat.new.known ≡ stepped 1 (looked_known result seat.old.known) }
    ensures near { (result ≡ visit.acked) ⊎ (result ≡ visit.acked + 1) }
    ensures few { visit.acked ≤ RUN }
{
    load(words, seat, Word::Slot(visit.slot, Field::State))
}

/// Acknowledges a phase in which it calls no function, and answers what was found in the count.
fn acknowledge(words: SharedStopWords<'_>, seat: &mut StopSeat, visit: Visit) -> u64
    requires at { AtTurn words.shared.now.table_id seat.old visit (visit.acked + 1) Rests }
    requires calm { visit.acked ≡ DISABLE_IRQ → has visit.active seat.old.known.number ≡ false }
    ensures table { seat.new.table ≡ words.entry.shared.now.table_id }
    ensures lives { Lives seat.new.known }
    ensures known { seat.new.known ≡ stepped 1 (acked_by result seat.old.known.seat seat.old.known) }
{
    subtract(words, seat, Word::Slot(visit.slot, Field::Ack))
}

/// As the last to acknowledge a phase, fills the count again and then stores the next phase. A CPU that sees the new phase
/// acknowledges it at once, so the count has to be full by then (`set_state`: `thread_ack` is set before `state`, with a barrier
/// between them). In the other order a CPU would take 1 from the old count, and the refill would undo that.
fn raise(words: SharedStopWords<'_>, seat: &mut StopSeat, visit: Visit)
    requires at { AtTurn words.shared.now.table_id seat.old visit visit.acked Fills }
    ensures at { AtTurn words.entry.shared.now.table_id seat.new visit visit.acked Rests }
    ensures lives { Lives seat.new.known }
    ensures known { seat.new.known ≡ raised_by (visit.acked + 1) seat.old.known.seat seat.old.known }
{
    store(
        words,
        seat,
        Word::Slot(visit.slot, Field::Ack),
        weight(visit.mask),
    );
    let next = u64::from(visit.acked) + 1;
    store(words, seat, Word::Slot(visit.slot, Field::State), next);
}

/// A CPU whose decrement found 1 was the last to acknowledge. It stores the next phase.
pub(crate) fn pass(words: SharedStopWords<'_>, seat: &mut StopSeat, visit: Visit, found: u64)
    requires at { AtTurn words.shared.now.table_id seat.old visit visit.acked (if found == 1 then Fills else Rests) }
    requires lives { Lives seat.old.known }
    ensures at { AtTurn words.entry.shared.now.table_id seat.new visit visit.acked Rests }
    ensures lives { Lives seat.new.known }
    ensures known { seat.new.known ≡ (if found == 1 then raised_by (visit.acked + 1) seat.old.known.seat seat.old.known else seat.old.known) }
{
    if found == 1 {
        raise(words, seat, visit);
    }
}

/// Acknowledges a phase in which it calls no function, and stores the next one as the last.
pub(crate) fn move_on(words: SharedStopWords<'_>, seat: &mut StopSeat, visit: Visit) -> Visit
    requires at { AtTurn words.shared.now.table_id seat.old visit (visit.acked + 1) Rests }
    requires calm { visit.acked ≡ DISABLE_IRQ → has visit.active seat.old.known.number ≡ false }
    requires few { visit.acked ≤ RUN }
    ensures at { AtTurn words.entry.shared.now.table_id seat.new result result.acked Rests }
    ensures lives { Lives seat.new.known }
    ensures known { seat.new.known ≡ stepped 1 (passed_by seat.old.known.seat seat.old.known) }
    ensures visit { result ≡ visit_acked visit 0 false }
{
    let found = acknowledge(words, seat, visit);
    let visit = visit.acknowledged(0, false);
    pass(words, seat, visit, found);
    visit
}
