//! Which CPUs a call to many is for.

ghost use Rattle.std.specs.Prelude.{◌≡◌, ℕ};
ghost use Rattle.smp_mask.specs.Mask.{has};
ghost use Rattle.smp_calls.specs.Targets.{is_target};

use smp_mask::CpuMask;

/// The CPUs of `mask` that are `online`, without `this`; and with `this` where it counts (`local`) and the mask
/// has it (`kernel/smp.c: smp_call_function_many_cond`). It makes no step, and does not wait.
pub fn targets(mask: CpuMask, online: CpuMask, this: u32, local: bool) -> CpuMask
    ensures { (c : ℕ) → has result c ≡ is_target mask online this local c }
{
    let others = mask.and(online).without(this);
    if local && mask.contains(this) {
        others.with(this).unwrap_or(others)
    } else {
        others
    }
}
