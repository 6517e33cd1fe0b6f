//! The rule of the table: between any two steps its words show the stops that the CPUs know.

use crate::seat_view::StopSeatView;
use atomic_table::{Split, TableRule};
use smp_start::{Tells, ToldSeat};
use smp_stop_steps::known::StopSetting;

/// The rule of the table. Its key is what the table is made with.
pub struct StopRule;

impl TableRule<(), StopSeatView, StopSetting> for StopRule {
    ghost use Rattle.smp_multi.specs.Rule.{Ruled};
    ghost use Rattle.smp_multi.specs.declared.seat_view.StopSeatView.TheVariants.{Maker};

    ghost holds = { λ k. Ruled k };

    ghost first = { λ k. Maker 0 k };
}

/// What each kind of step tells its CPU. No step of stops swaps a word.
impl Tells<StopSeatView> for StopRule {
    ghost use Rattle.smp_multi.specs.Plays.{loaded, stored, exchanged, not_made, subtracted, answered, masked};

    ghost loaded = { loaded };

    ghost stored = { stored };

    ghost exchanged = { exchanged };

    ghost swapped = { not_made };

    ghost subtracted = { subtracted };

    ghost answered = { answered };

    ghost masked = { masked };
}

/// The first seat makes a seat for the next CPU.
impl Split<StopSeatView> for StopRule {
    ghost use Rattle.smp_multi.specs.Rule.{after, seat_made};

    ghost left = { after };

    ghost right = { seat_made };
}

/// A seat at the table.
pub type RawStopSeat = ToldSeat<StopSeatView>;
