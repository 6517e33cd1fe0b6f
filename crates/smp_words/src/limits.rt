//! How many CPUs a table may have, and which may be online.

ghost use Rattle.std.specs.Prelude.{◌≡◌, ◌↔◌, ℕ, ◌<◌, true};
ghost use Rattle.smp_mask.specs.Mask.{has};
ghost use Rattle.smp_words.specs.Limits.{AreLimits};

use crate::size::NR_CPUS;
use smp_mask::CpuMask;

/// Whether there are 1 to `NR_CPUS` CPUs, of which some are online, and none but these.
pub fn are_limits(nr: u32, online: CpuMask) -> bool
    ensures { result ≡ true ↔ AreLimits nr online }
{
    if nr < 1 || nr > NR_CPUS {
        return false;
    }
    has_member(online) && is_below(nr, online)
}

fn has_member(online: CpuMask) -> bool
    ensures { result ≡ true ↔ ((cpu : ℕ) × (has online cpu ≡ true)) }
{
    match online.first() {
        Some(_) => true,
        None => false,
    }
}

/// Whether all that are online are below `nr`.
fn is_below(nr: u32, online: CpuMask) -> bool
    requires { 0 < nr }
    ensures { result ≡ true ↔ ((cpu : ℕ) → has online cpu ≡ true → cpu < nr) }
{
    match online.next_after(nr - 1) {
        Some(_) => false,
        None => true,
    }
}
