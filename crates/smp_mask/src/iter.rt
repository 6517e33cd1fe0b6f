//! The members of a mask, one by one.

ghost use Rattle.std.specs.Prelude.{◌≡◌};
ghost use Rattle.std.specs.Iterator.{item_count};
ghost use Rattle.smp_mask.specs.Mask.{members, TakesLeast};

use crate::mask::CpuMask;
use std::marker::Model;

/// The members of a mask that are still to come, ascending. From [`CpuMask::iter`].
#[derive(Clone, Copy, Debug)]
pub struct MaskIter {
    left: CpuMask,
}

impl Model for MaskIter {
    ghost use Rattle.std.specs.Prelude.{ℕ};

    // the mask of the members that are still to come
    ghost Value = { ℕ };

    ghost view = { λ m. m.left };

    ghost inverse = { λ n. record { left = n } };
}

impl MaskIter {
    /// All members of the mask.
    pub(crate) fn of(mask: CpuMask) -> MaskIter
        ensures { result ≡ mask }
    {
        MaskIter { left: mask }
    }
}

impl Iterator for MaskIter {
    type Item = u32;

    ghost next_gives = { TakesLeast };

    ghost remaining = { item_count members };

    fn next(&mut self) -> Option<u32> {
        let cpu = self.left.first()?;
        self.left = self.left.without(cpu);
        Some(cpu)
    }
}
