//! Seats of a table at one moment, with no step, and what a seat comes to know with none.

ghost use Rattle.std.specs.Prelude.{◌≡◌, [], ◌∷◌};
ghost use mathlib.Core.Option.{some};
ghost use lib.ListN.{get_elem?};
ghost use Rattle.atomic_table.specs.Table.{State};
ghost use Rattle.smp_start.specs.Crowd.{IsMoment, StandsFirst};
ghost use Rattle.smp_start.specs.Seats.{StaysRuled};

use super::{ToldSeat, ToldWords};
use crate::seats::{Crowd, Retold, all_now, both_now, retell};
use atomic_table::TableRule;
use std::marker::Model;

/// Seats of one table that are out of their places, the one that came last first. It has no bytes. In the place of each a seat
/// stands that is of no table, under a name that no table has.
#[derive(Drop)]
pub struct ToldCrowd<V> {
    raw: Crowd<(), V>,
}

impl<V> Model for ToldCrowd<V> {
    ghost use Rattle.smp_start.specs.Told.{CrowdValue};

    ghost Value = { CrowdValue V };

    ghost view = { λ c. record { table_id = c.raw.table_id; seats = c.raw.seats } };
}

impl<V> ToldCrowd<V> {
    /// Takes a seat out of its place, and leaves one there that knows the same and is of no table. It makes no step.
    pub fn take(&mut self, seat: &mut ToldSeat<V>)
        requires { seat.old.table_id ≡ self.old.table_id }
        ensures { (self.new.table_id ≡ self.old.table_id) × (seat.new.me.0 ≡ seat.old.me.0)
            × (self.new.seats ≡ (seat.new.table_id, (seat.old.id, seat.old.me)) ∷ self.old.seats) }
    {
        self.raw.take(&mut seat.raw);
    }

    /// Puts the seat that came last back into its place. It makes no step.
    pub fn give(&mut self, seat: &mut ToldSeat<V>)
        requires { StandsFirst seat.old.table_id self.old.seats }
        ensures { (self.new.table_id ≡ self.old.table_id) × (seat.new.table_id ≡ self.old.table_id) × (seat.new.me.0 ≡ seat.old.me.0)
            × (self.old.seats ≡ (seat.old.table_id, (seat.new.id, seat.new.me)) ∷ self.new.seats) }
    {
        self.raw.give(&mut seat.raw);
    }
}

impl<'a, V, K, P: TableRule<(), V, K>> ToldWords<'a, V, K, P> {
    /// No seats of this table.
    pub fn crowd(&self) -> ToldCrowd<V>
        ensures { (result.table_id ≡ self.now.shared.now.table_id) × (result.seats ≡ []) }
    {
        ToldCrowd {
            raw: Crowd::new(self.shared),
        }
    }

    /// Whatever other threads do, there is a state of the table that keeps the rule and in which all seats of the crowd have the
    /// views that they have now. It makes no step.
    pub fn all_now(&self, crowd: &mut ToldCrowd<V>)
        requires { crowd.old.table_id ≡ self.now.shared.now.table_id }
        ensures { (crowd.new ≡ crowd.old) × ((s : State (Unit {0}) V) × P.holds self.now.shared.now.key s × IsMoment s crowd.old.seats) }
    {
        all_now(self.shared, &mut crowd.raw);
    }

    /// Two seats at one moment, as [`ToldWords::all_now`] has a crowd. It makes no step.
    pub fn both_now(&self, one: &mut ToldSeat<V>, other: &mut ToldSeat<V>)
        requires { (one.old.table_id ≡ self.now.shared.now.table_id) × (other.old.table_id ≡ self.now.shared.now.table_id) }
        ensures { (one.new ≡ one.old) × (other.new ≡ other.old) × ((s : State (Unit {0}) V) × P.holds self.now.shared.now.key s
            × (get_elem? s.views one.old.id ≡ some one.old.me.0) × (get_elem? s.views other.old.id ≡ some other.old.me.0)) }
    {
        both_now(self.shared, &mut one.raw, &mut other.raw);
    }

    /// A seat comes to know something else, with no step: what the rule of its table says of that. Whatever state of the table
    /// keeps the rule, it has to keep it with the new view as well.
    pub fn retell(&self, seat: &mut ToldSeat<V>)
    where
        P: Retold<V>,
        requires { (seat.old.table_id ≡ self.now.shared.now.table_id)
            × StaysRuled (P.holds self.now.shared.now.key) seat.old.id seat.old.me.0 (P.after seat.old.me.0) }
        ensures { (seat.new.table_id ≡ seat.old.table_id) × (seat.new.id ≡ seat.old.id) × (seat.new.me ≡ (P.after seat.old.me.0, seat.old.me.1)) }
    {
        retell(self.shared, &mut seat.raw);
    }
}
