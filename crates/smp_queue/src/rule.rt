//! The rule of the table: between any two steps its words show the calls that the CPUs know.

use crate::seat_view::CallSeatView;
use atomic_table::{Split, TableRule};
use smp_call_steps::known::CallSetting;
use smp_start::{Retold, Tells, ToldSeat};

/// The rule of the table. Its key is what the table is made with.
pub struct CallRule;

impl TableRule<(), CallSeatView, CallSetting> for CallRule {
    ghost use Rattle.smp_queue.specs.Rule.{Ruled};
    ghost use Rattle.smp_queue.specs.declared.seat_view.CallSeatView.TheVariants.{Maker};

    ghost holds = { λ k. Ruled k };

    ghost first = { λ k. Maker 0 k };
}

/// A direct call is noted, which is no step.
impl Retold<CallSeatView> for CallRule {
    ghost use Rattle.smp_queue.specs.Rule.{noted};

    ghost after = { noted };
}

/// What each kind of step tells its CPU. No step of calls takes 1 from a word, or masks one.
impl Tells<CallSeatView> for CallRule {
    ghost use Rattle.smp_queue.specs.Plays.{loaded, stored, exchanged, swapped, not_made};

    ghost loaded = { loaded };

    ghost stored = { stored };

    ghost exchanged = { exchanged };

    ghost swapped = { swapped };

    ghost subtracted = { not_made };

    ghost answered = { λ _. not_made };

    ghost masked = { not_made };
}

/// The first seat makes a seat for the next CPU.
impl Split<CallSeatView> for CallRule {
    ghost use Rattle.smp_queue.specs.Rule.{after, seat_made};

    ghost left = { after };

    ghost right = { seat_made };
}

/// A seat at the table.
pub type RawCallSeat = ToldSeat<CallSeatView>;
