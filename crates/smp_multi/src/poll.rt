//! A source looks for the end of its stop, and collects its result (`wait_for_completion`).

ghost use Rattle.std.specs.Prelude.{◌≡◌, ℕ, ◌==◌, not};
ghost use Rattle.smp_multi.specs.Lives.{Lives, StopMoment};
ghost use Rattle.smp_stop_steps.specs.AnswerWords.{IsI32Word};
ghost use Rattle.smp_multi.specs.Names.{Slot};
ghost use Rattle.smp_multi.specs.Names.field;
ghost use Rattle.smp_multi.specs.Polls.{IsOwner, HasFound, looked, collected};

use crate::seat::{SharedStopWords, StopSeat, load};
use smp_words::field::Field;
use smp_words::word::Word;

/// Whether all have completed.
pub(crate) fn is_done(words: SharedStopWords<'_>, seat: &mut StopSeat, number: u32) -> bool
    requires { IsOwner words.shared.now.table_id seat.old number }
    ensures table { seat.new.table ≡ words.entry.shared.now.table_id }
    ensures lives { Lives seat.new.known }
    ensures known { seat.new.known ≡ looked result seat.old.known }
    ensures then { (found : ℕ) × StopMoment seat.old.known (Slot number field.Done) found × (result ≡ not (found == 0)) }
{
    load(words, seat, Word::Slot(number, Field::Done)) != 0
}

/// Collects the result, which closes the stop.
pub(crate) fn collect(words: SharedStopWords<'_>, seat: &mut StopSeat, number: u32) -> u64
    requires { HasFound words.shared.now.table_id seat.old number }
    ensures table { seat.new.table ≡ words.entry.shared.now.table_id }
    ensures lives { Lives seat.new.known }
    ensures known { seat.new.known ≡ collected result seat.old.known }
    ensures fits { IsI32Word result }
{
    load(words, seat, Word::Slot(number, Field::Result))
}
