//! A set of CPUs by its bits.

ghost use Rattle.std.specs.Prelude.{◌≡◌};

use smp_mask::CpuMask;

/// The set with bit `c` for CPU `c`.
pub fn mask_of(bits: u32) -> CpuMask
    ensures { result ≡ bits }
{
    let mut mask = CpuMask::empty();
    for cpu in 0..32u32 {
        if (bits >> cpu) & 1 == 1 {
            mask = match mask.with(cpu) {
                Ok(more) => more,
                Err(_) => mask,
            };
        }
    }
    mask
}
