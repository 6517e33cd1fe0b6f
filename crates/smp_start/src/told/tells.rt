//! What each kind of step of such a table tells, and the kinds of step that do so.

ghost use Rattle.std.specs.Prelude.{ℕ};
ghost use Rattle.atomic_table.specs.Table.{Me, Step};

use atomic_table::Play;
use std::marker::{Brand, PhantomData};

/// What each kind of step tells: of the step, the seat before, the number found (at a store the number stored), and the seat after.
/// A kind that a table does not have tells what never holds, so no such step can be made.
pub trait Tells<V> {
    ghost use Rattle.std.specs.Prelude.{ℕ};
    ghost use Rattle.atomic_table.specs.Table.{Me, Step};

    ghost loaded: { Step (Unit {0}) → Me (Unit {0}) V → ℕ → Me (Unit {0}) V → Type 0 };

    ghost stored: { Step (Unit {0}) → Me (Unit {0}) V → ℕ → Me (Unit {0}) V → Type 0 };

    ghost exchanged: { Step (Unit {0}) → Me (Unit {0}) V → ℕ → Me (Unit {0}) V → Type 0 };

    ghost swapped: { Step (Unit {0}) → Me (Unit {0}) V → ℕ → Me (Unit {0}) V → Type 0 };

    ghost subtracted: { Step (Unit {0}) → Me (Unit {0}) V → ℕ → Me (Unit {0}) V → Type 0 };

    /// By a step with which the seat's thread says a number.
    ghost answered: { ℕ → Step (Unit {0}) → Me (Unit {0}) V → ℕ → Me (Unit {0}) V → Type 0 };

    ghost masked: { Step (Unit {0}) → Me (Unit {0}) V → ℕ → Me (Unit {0}) V → Type 0 };
}

/// A number that a thread says with a step.
pub trait Answer {
    ghost use Rattle.std.specs.Prelude.{ℕ};

    ghost answer: { ℕ };
}

/// A call may pick what a brand says.
impl Answer for Brand {
    ghost answer = { 0 };
}

/// A load.
pub(super) struct Loaded<P> {
    rule: PhantomData<P>,
}

impl<V, P: Tells<V>> Play<(), V> for Loaded<P> {
    ghost then = { P.loaded };
}

/// A store.
pub(super) struct Stored<P> {
    rule: PhantomData<P>,
}

impl<V, P: Tells<V>> Play<(), V> for Stored<P> {
    ghost then = { P.stored };
}

/// A compare-exchange.
pub(super) struct Exchanged<P> {
    rule: PhantomData<P>,
}

impl<V, P: Tells<V>> Play<(), V> for Exchanged<P> {
    ghost then = { P.exchanged };
}

/// A swap.
pub(super) struct Swapped<P> {
    rule: PhantomData<P>,
}

impl<V, P: Tells<V>> Play<(), V> for Swapped<P> {
    ghost then = { P.swapped };
}

/// A `fetch_sub` of 1.
pub(super) struct Subtracted<P> {
    rule: PhantomData<P>,
}

impl<V, P: Tells<V>> Play<(), V> for Subtracted<P> {
    ghost then = { P.subtracted };
}

/// A `fetch_sub` of 1 with which its thread says a number.
pub(super) struct Answered<P, N> {
    rule: PhantomData<(P, N)>,
}

impl<V, P: Tells<V>, N: Answer> Play<(), V> for Answered<P, N> {
    ghost then = { P.answered N.answer };
}

/// A `fetch_and`.
pub(super) struct Masked<P> {
    rule: PhantomData<P>,
}

impl<V, P: Tells<V>> Play<(), V> for Masked<P> {
    ghost then = { P.masked };
}
