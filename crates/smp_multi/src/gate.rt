//! The gate that orders all stops (`stop_cpus_mutex`).

ghost use Rattle.std.specs.Prelude.{◌≡◌, ℕ, ◌==◌, true, false};
ghost use Rattle.smp_multi.specs.Lives.{Lives, StopMoment};
ghost use Rattle.smp_multi.specs.Names.{Gate};
ghost use Rattle.smp_multi.specs.Places.{IsSeated, given_up, tried};

use crate::seat::{SharedStopWords, StopSeat, exchange, store};
use smp_words::word::Word;

/// Takes the gate where nobody holds it.
pub(crate) fn take_gate(words: SharedStopWords<'_>, seat: &mut StopSeat, number: u32) -> bool
    requires { IsSeated words.shared.now.table_id seat.old number }
    ensures table { seat.new.table ≡ words.entry.shared.now.table_id }
    ensures lives { Lives seat.new.known }
    ensures known { seat.new.known ≡ tried result seat.old.known }
    ensures held { seat.old.known.part.holds ≡ true → result ≡ false }
    ensures then { (found : ℕ) × StopMoment seat.old.known Gate found × (result ≡ (found == 0)) }
{
    let own = u64::from(number) + 1;
    exchange(words, seat, Word::Gate, 0, own) == 0
}

/// Gives up the gate.
pub(crate) fn leave_gate(words: SharedStopWords<'_>, seat: &mut StopSeat, number: u32)
    requires seat { IsSeated words.shared.now.table_id seat.old number }
    requires held { seat.old.known.part.holds ≡ true }
    ensures table { seat.new.table ≡ words.entry.shared.now.table_id }
    ensures lives { Lives seat.new.known }
    ensures known { seat.new.known ≡ given_up seat.old.known }
{
    let _ = number;
    store(words, seat, Word::Gate, 0);
}
