//! Seats of CPUs that are looked at together. They are out of their places meanwhile, so the raw seats of a crowd are named here.
//! No function makes a step.

ghost use Rattle.std.specs.Prelude.{◌≡◌, [], ◌∷◌};
ghost use Rattle.smp_start.specs.Crowd.{StandsFirst};
ghost use Rattle.smp_queue.specs.Together.{KnowAllTogether};

use super::{CallSeat, SharedCallWords};
use crate::seat_view::CallSeatView;
use smp_start::ToldCrowd;
use std::marker::Model;

/// Seats of CPUs that are looked at together, seen as their table and, of each, the name under which another one stands in its
/// place, and what its CPU knows. The one that came last is the first.
#[derive(Drop)]
pub struct CallSeatCrowd {
    raw: ToldCrowd<CallSeatView>,
}

impl Model for CallSeatCrowd {
    ghost use Rattle.smp_queue.specs.Together.{SeatsValue, seats_of, AreCpuSeats};

    ghost Value = { SeatsValue };

    ghost view = { λ c. record { table = c.raw.table_id; seats = seats_of c.raw.seats } };

    ghost invariant = { λ c. AreCpuSeats c.raw.seats };
}

/// No seats of this table.
pub(crate) fn gather(words: SharedCallWords) -> CallSeatCrowd
    ensures { result ≡ record { table = words.entry.shared.now.table_id; seats = [] } }
{
    CallSeatCrowd { raw: words.crowd() }
}

/// Takes a seat out of its place. It makes no step.
pub(crate) fn take(crowd: &mut CallSeatCrowd, seat: &mut CallSeat)
    requires { seat.old.table ≡ crowd.old.table }
    ensures known { seat.new.known ≡ seat.old.known }
    ensures crowd { crowd.new ≡ record { table = crowd.old.table; seats = (seat.new.table, seat.old.known) ∷ crowd.old.seats } }
{
    crowd.raw.take(&mut seat.raw);
}

/// Puts the seat that came last back into its place. It makes no step.
pub(crate) fn give(crowd: &mut CallSeatCrowd, seat: &mut CallSeat)
    requires { StandsFirst seat.old.table crowd.old.seats }
    ensures seat { seat.new ≡ record { table = crowd.old.table; known = seat.old.known } }
    ensures crowd { crowd.old ≡ record { table = crowd.new.table; seats = (seat.old.table, seat.old.known) ∷ crowd.new.seats } }
{
    crowd.raw.give(&mut seat.raw);
}

/// What all CPUs of the crowd know now is their parts of the same calls. It makes no step.
pub(crate) fn all_together(words: SharedCallWords, crowd: &mut CallSeatCrowd)
    requires { crowd.old.table ≡ words.shared.now.table_id }
    ensures kept { crowd.new ≡ crowd.old }
    ensures same { KnowAllTogether crowd.old.seats }
{
    words.all_now(&mut crowd.raw);
}
