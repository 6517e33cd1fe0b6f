//! Printing a mask, as a CPU list.

ghost use Rattle.std.specs.Prelude.{◌≡◌, ℕ, ◌+◌, ◌<◌, ◌≤◌, true, false, Some, ◌++◌, codes};
ghost use Rattle.std.specs.Iterator.{YieldsFirst, item_count};
ghost use Rattle.smp_mask.specs.Mask.{has};
ghost use Rattle.smp_mask.specs.ListText.{list_text, mask_items};

use crate::item::Item;
use crate::mask::{CpuMask, NR_CPUS};
use std::fmt;

// The runs of members that are still to come, ascending, each as long as can be.
#[derive(Clone, Copy)]
struct Runs {
    left: CpuMask,
}

// The last CPU of the run of members that begins at `low`.
fn run_end(mask: CpuMask, low: u32) -> u32
    requires member { has mask low ≡ true }
    requires within { low < NR_CPUS }
    ensures up { low ≤ result }
    ensures all { (c : ℕ) → low ≤ c → c ≤ result → has mask c ≡ true }
    ensures within { result < NR_CPUS }
    ensures last { has mask (result + 1) ≡ false }
{
    let mut high = low;
    while mask.contains(high + 1) {
        high += 1;
    }
    high
}

impl Iterator for Runs {
    type Item = Item;

    ghost next_gives = { YieldsFirst (λ r. mask_items r.left) };

    ghost remaining = { item_count (λ r. mask_items r.left) };

    fn next(&mut self) -> Option<Item> {
        let low = self.left.first()?;
        let high = run_end(self.left, low);
        self.left = self.left.above(high);
        Some(Item::between(low, high))
    }
}

/// The canonical CPU list, as the kernel's `%*pbl` prints it: the members ascending, a run of two
/// or more as `low-high`, joined by commas. The empty mask prints nothing.
impl fmt::Display for CpuMask {
    ghost output = { λ m. Some (list_text m) };

    fn fmt<W: fmt::Write>(&self, f: &mut fmt::Formatter<W>) -> fmt::Result {
        let mut runs = Runs { left: *self };
        let Some(first) = runs.next() else {
            return Ok(());
        };
        write!(f, "{first}")?;
        for item in runs {
            write!(f, ",{item}")?;
        }
        Ok(())
    }
}

/// The CPU list in the name of the type, as `CpuMask(0-3,5)`.
impl fmt::Debug for CpuMask {
    ghost debug_output = { λ m. Some (codes "CpuMask(" ++ list_text m ++ codes ")") };

    fn fmt<W: fmt::Write>(&self, f: &mut fmt::Formatter<W>) -> fmt::Result {
        let mask = *self;
        write!(f, "CpuMask({mask})")
    }
}
