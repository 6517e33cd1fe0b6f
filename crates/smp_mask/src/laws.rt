//! What is proved of masks and their texts beside the contracts of the calls.

ghost use Rattle.std.specs.Prelude.{◌≡◌, ℕ, ◌<◌, ◌^◌, Ok, List};
ghost use Rattle.smp_mask.specs.ListText.{list_text, mask_items, AreCanonical};
ghost use Rattle.smp_mask.specs.declared.item.Item.{Item};
ghost use Rattle.smp_mask.specs.Mask.{has};
ghost use Rattle.smp_mask.specs.Reading.{mask_of_text};

use crate::mask::NR_CPUS;

/// Masks with the same members are equal.
pub fn masks_are_sets()
    ensures { (a b : ℕ) → ((c : ℕ) → has a c ≡ has b c) → a ≡ b }
{}

/// What Display prints is the canonical list of the mask, of which there is one: its items have the
/// members and no other CPU, they ascend, and between two of them a CPU is left out.
pub fn lists_are_canonical()
    ensures canonical { (mask : ℕ) → mask < 2 ^ NR_CPUS → AreCanonical NR_CPUS mask (mask_items mask) }
    ensures only { (mask : ℕ) (items : List Item) → mask < 2 ^ NR_CPUS → AreCanonical NR_CPUS mask items → items ≡ mask_items mask }
{}

/// What Display prints of a mask, `CpuMask::parse` reads back.
pub fn lists_read_back()
    ensures { (mask : ℕ) → mask < 2 ^ NR_CPUS → mask_of_text NR_CPUS (list_text mask) ≡ Ok mask }
{}
