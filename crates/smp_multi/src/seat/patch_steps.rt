//! The steps by which a CPU makes the patch of its stop: the stores of labels, and the acknowledgement of `RUN` after
//! them. No other page can make them.

ghost use Rattle.std.specs.Prelude.{◌≡◌, [], length};
ghost use Rattle.smp_stop_steps.specs.Threads.Known.{carrying, stepped};
ghost use Rattle.smp_multi.specs.Lives.{Lives};
ghost use Rattle.smp_stop_steps.specs.Threads.KnownAfter.{acked_by};
ghost use Rattle.smp_stop_steps.specs.Labels.{patch_answer};
ghost use Rattle.smp_stop_steps.specs.Stages.{label_word};
ghost use Rattle.smp_multi.specs.Patches.{AtPatch, count_in, made_in, rest_in, stored_all};
ghost use Rattle.smp_multi.specs.Places.{work_in};

use super::access::{SharedStopWords, StopSeat, store_any};
use super::run_steps::subtract_with;
use arrayvec::ArrayVec;
use smp_labels::{MOST_CHANGES, Place};
use smp_stop_steps::stage::Visit;
use smp_words::field::Field;
use smp_words::word::Word;

/// The word of a place.
fn word_of(place: Place) -> Word
    ensures { result ≡ label_word place }
{
    match place {
        Place::Key(key) => Word::Key(key),
        Place::Site(site) => Word::Site(site),
    }
}

/// Makes the stores of a patch, in order.
pub(crate) fn store_plan(
    words: SharedStopWords<'_>,
    seat: &mut StopSeat,
    visit: Visit,
    plan: &ArrayVec<(Place, u64), MOST_CHANGES>,
)
    requires at { AtPatch words.shared.now.table_id seat.old visit }
    requires fresh { made_in seat.old.known.seat ≡ [] }
    requires plan { rest_in seat.old.known.seat ≡ plan.now.items }
    requires lives { Lives seat.old.known }
    ensures at { AtPatch words.entry.shared.now.table_id seat.new visit }
    ensures lives { Lives seat.new.known }
    ensures known { seat.new.known ≡ stepped (length (rest_in seat.old.known.seat)) (stored_all seat.old.known.seat seat.old.known) }
{
    let _ = visit;
    for (place, number) in plan.as_slice() {
        store_any(words, seat, word_of(*place), *number);
    }
}

/// Acknowledges `RUN`, with all stores of the patch made, and answers what was found in the count. With this step the CPU
/// carries the answer of the patch.
pub(crate) fn acknowledge_patch(
    words: SharedStopWords<'_>,
    seat: &mut StopSeat,
    visit: Visit,
    answer: u64,
) -> u64
    requires at { AtPatch words.shared.now.table_id seat.old visit }
    requires whole { rest_in seat.old.known.seat ≡ [] }
    requires answer { answer ≡ patch_answer (work_in seat.old.known.seat) (count_in seat.old.known.seat) }
    ensures table { seat.new.table ≡ words.entry.shared.now.table_id }
    ensures lives { Lives seat.new.known }
    ensures known { seat.new.known ≡ stepped 1 (acked_by result seat.old.known.seat (carrying answer seat.old.known)) }
{
    subtract_with(words, seat, Word::Slot(visit.slot, Field::Ack), answer)
}
