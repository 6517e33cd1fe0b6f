//! A CPU completes a stop (`cpu_stop_signal_done`).

ghost use Rattle.std.specs.Prelude.{◌≡◌, ◌≢◌};
ghost use Rattle.smp_stop_steps.specs.Threads.Known.{carrying, stepped};
ghost use Rattle.smp_multi.specs.Lives.{Lives};
ghost use Rattle.smp_stop_steps.specs.Threads.KnownAfter.{completed_with};
ghost use Rattle.smp_multi.specs.Completes.{AtEnd, AtClose, left};
ghost use Rattle.smp_multi.specs.Names.{Idle, One};
ghost use Rattle.smp_multi.specs.Places.{work_in};
ghost use Rattle.smp_multi.specs.StepCounts.{completing};

use crate::seat::run_steps::complete_round;
use crate::seat::{SharedStopWords, StopSeat, store};
use smp_words::field::Field;
use smp_words::phase::EXIT;
use smp_words::word::Word;

/// Where this was found in the count of who has not completed: the last of all stores done.
pub(crate) fn close_if_last(words: SharedStopWords<'_>, seat: &mut StopSeat, slot: u32, found: u64)
    requires at { AtClose words.shared.now.table_id seat.old slot found }
    requires lives { Lives seat.old.known }
    ensures table { seat.new.table ≡ words.entry.shared.now.table_id }
    ensures lives { Lives seat.new.known }
    ensures known { seat.new.known ≡ left seat.old.known }
{
    if found == 1 {
        store(words, seat, Word::Slot(slot, Field::Done), 1);
    }
}

/// Completes a stop of several CPUs with the answer that the CPU carries.
pub(crate) fn finish(words: SharedStopWords<'_>, seat: &mut StopSeat, slot: u32)
    requires at { AtEnd words.shared.now.table_id seat.old slot EXIT }
    requires several { (work_in seat.old.known.seat).kind ≢ One }
    requires carries { seat.old.known.carried ≢ 0 → seat.old.known.part.calling ≢ Idle }
    ensures table { seat.new.table ≡ words.entry.shared.now.table_id }
    ensures lives { Lives seat.new.known }
    ensures known { seat.new.known ≡ stepped (completing seat.old.known.carried)
        (completed_with 0 slot (work_in seat.old.known.seat) seat.old.known.carried (carrying 0 seat.old.known)) }
{
    let found = complete_round(words, seat, slot);
    close_if_last(words, seat, slot, found);
}
