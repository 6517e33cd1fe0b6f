//! Seats of a table at one moment, with no step.

ghost use Rattle.std.specs.Prelude.{◌≡◌, ℕ, List, [], ◌∷◌};
ghost use mathlib.Core.Option.{some};
ghost use lib.ListN.{get_elem?};
ghost use base.Stored.{coded×, coded_ℕ, coded_list};
ghost use Rattle.atomic_table.specs.Table.{State, Me};
ghost use Rattle.atomic_table.specs.Seated.{TableId, table_id_coded};
ghost use Rattle.smp_start.specs.Crowd.{crowd_owns, IsMoment, StandsFirst};
ghost use Rattle.smp_start.specs.Seats.{StaysRuled};

use atomic_table::{Seat, Shared, TableRule};
use std::marker::{Model, PhantomData};

/// Seats of one table that are out of their places, the one that came last first. It has no bytes. In the place of each a seat
/// stands that is of no table, under a name that no table has.
#[derive(Drop)]
pub(crate) struct Crowd<S, V> {
    marker: PhantomData<(S, V)>,
    pub ghost table_id: { TableId } by { table_id_coded },
    pub ghost seats: { List (TableId × (ℕ × Me S V)) } by { coded_list (coded× table_id_coded
        (coded× coded_ℕ (coded× V.code (coded_list (coded× coded_ℕ S.code))))) },
}

impl<S, V> Model for Crowd<S, V> {
    ghost also_owns = { λ c. crowd_owns S.row V.row.coded.code c.table_id c.seats };
}

impl<S, V> Crowd<S, V> {
    /// No seats of this table.
    pub(crate) fn new<K, P: TableRule<S, V, K>>(table: &Shared<S, V, K, P>) -> Crowd<S, V>
        ensures { (result.table_id ≡ table.now.table_id) × (result.seats ≡ []) }
    {
        Crowd {
            marker: PhantomData,
        }
    }

    /// Takes a seat out of its place, and leaves one there that knows the same and is of no table. It makes no step.
    pub(crate) fn take(&mut self, seat: &mut Seat<S, V>)
        requires { seat.old.table_id ≡ self.old.table_id }
        ensures { (self.new.table_id ≡ self.old.table_id) × (seat.new.me.0 ≡ seat.old.me.0)
            × (self.new.seats ≡ (seat.new.table_id, (seat.old.id, seat.old.me)) ∷ self.old.seats) }
    {}

    /// Puts the seat that came last back into its place. It makes no step.
    pub(crate) fn give(&mut self, seat: &mut Seat<S, V>)
        requires { StandsFirst seat.old.table_id self.old.seats }
        ensures { (self.new.table_id ≡ self.old.table_id) × (seat.new.table_id ≡ self.old.table_id) × (seat.new.me.0 ≡ seat.old.me.0)
            × (self.old.seats ≡ (seat.old.table_id, (seat.new.id, seat.new.me)) ∷ self.new.seats) }
    {}
}

/// Whatever other threads do, there is a state of the table that keeps the rule and in which all seats of the crowd have the views
/// that they have now. It makes no step.
pub(crate) fn all_now<S, V, K, P: TableRule<S, V, K>>(
    table: &Shared<S, V, K, P>,
    crowd: &mut Crowd<S, V>,
)
    requires { crowd.old.table_id ≡ table.now.table_id }
    ensures { (crowd.new ≡ crowd.old) × ((s : State S V) × P.holds table.now.key s × IsMoment s crowd.old.seats) }
{}

/// Two seats of one table at one moment, as [`all_now`] has a crowd. It makes no step.
pub(crate) fn both_now<S, V, K, P: TableRule<S, V, K>>(
    table: &Shared<S, V, K, P>,
    one: &mut Seat<S, V>,
    other: &mut Seat<S, V>,
)
    requires { (one.old.table_id ≡ table.now.table_id) × (other.old.table_id ≡ table.now.table_id) }
    ensures { (one.new ≡ one.old) × (other.new ≡ other.old) × ((s : State S V) × P.holds table.now.key s
        × (get_elem? s.views one.old.id ≡ some one.old.me.0) × (get_elem? s.views other.old.id ≡ some other.old.me.0)) }
{
    let mut crowd = Crowd::new(table);
    crowd.take(one);
    crowd.take(other);
    all_now(table, &mut crowd);
    crowd.give(other);
    crowd.give(one);
}

/// What a seat of a table of this rule knows after the one change that no step makes. Under a rule without it each change of what
/// a seat knows is a step's.
pub trait Retold<V> {
    ghost after: { V → V };
}

/// A seat comes to know something else, with no step: what the rule of its table says of that. Whatever state of the table keeps
/// the rule, it has to keep it with the new view as well.
pub(crate) fn retell<S, V, K, P: TableRule<S, V, K> + Retold<V>>(
    table: &Shared<S, V, K, P>,
    seat: &mut Seat<S, V>,
)
    requires { (seat.old.table_id ≡ table.now.table_id) × StaysRuled (P.holds table.now.key) seat.old.id seat.old.me.0 (P.after seat.old.me.0) }
    ensures { (seat.new.table_id ≡ seat.old.table_id) × (seat.new.id ≡ seat.old.id) × (seat.new.me ≡ (P.after seat.old.me.0, seat.old.me.1)) }
{}
