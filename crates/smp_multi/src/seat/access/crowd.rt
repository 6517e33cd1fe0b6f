//! Seats of CPUs that are looked at together. They are out of their places meanwhile, so the raw seats of a crowd are named here.
//! No function makes a step.

ghost use Rattle.std.specs.Prelude.{◌≡◌, [], ◌∷◌};
ghost use Rattle.smp_start.specs.Crowd.{StandsFirst};
ghost use Rattle.smp_multi.specs.Together.{KnowAllTogether};

use super::{SharedStopWords, StopSeat};
use crate::seat_view::StopSeatView;
use smp_start::ToldCrowd;
use std::marker::Model;

/// Seats of CPUs that are looked at together, seen as their table and, of each, the name under which another one stands in its
/// place, and what its CPU knows. The one that came last is the first.
#[derive(Drop)]
pub struct StopSeatCrowd {
    raw: ToldCrowd<StopSeatView>,
}

impl Model for StopSeatCrowd {
    ghost use Rattle.smp_multi.specs.Together.{SeatsValue, seats_of, AreCpuSeats};

    ghost Value = { SeatsValue };

    ghost view = { λ c. record { table = c.raw.table_id; seats = seats_of c.raw.seats } };

    ghost invariant = { λ c. AreCpuSeats c.raw.seats };
}

/// No seats of this table.
pub(crate) fn gather(words: SharedStopWords<'_>) -> StopSeatCrowd
    ensures { result ≡ record { table = words.entry.shared.now.table_id; seats = [] } }
{
    StopSeatCrowd { raw: words.crowd() }
}

/// Takes a seat out of its place. It makes no step.
pub(crate) fn take(crowd: &mut StopSeatCrowd, seat: &mut StopSeat)
    requires { seat.old.table ≡ crowd.old.table }
    ensures known { seat.new.known ≡ seat.old.known }
    ensures crowd { crowd.new ≡ record { table = crowd.old.table; seats = (seat.new.table, seat.old.known) ∷ crowd.old.seats } }
{
    crowd.raw.take(&mut seat.raw);
}

/// Puts the seat that came last back into its place. It makes no step.
pub(crate) fn give(crowd: &mut StopSeatCrowd, seat: &mut StopSeat)
    requires { StandsFirst seat.old.table crowd.old.seats }
    ensures seat { seat.new ≡ record { table = crowd.old.table; known = seat.old.known } }
    ensures crowd { crowd.old ≡ record { table = crowd.new.table; seats = (seat.old.table, seat.old.known) ∷ crowd.new.seats } }
{
    crowd.raw.give(&mut seat.raw);
}

/// What all CPUs of the crowd know now is their parts of the same stops. It makes no step.
pub(crate) fn all_together(words: SharedStopWords<'_>, crowd: &mut StopSeatCrowd)
    requires { crowd.old.table ≡ words.shared.now.table_id }
    ensures kept { crowd.new ≡ crowd.old }
    ensures same { KnowAllTogether crowd.old.seats }
{
    words.all_now(&mut crowd.raw);
}
