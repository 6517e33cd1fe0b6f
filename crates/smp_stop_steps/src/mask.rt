//! Masks as the words of a slot have them: bit c for CPU c.

ghost use Rattle.std.specs.Prelude.{◌≡◌, ◌<◌, ◌≤◌};
ghost use Rattle.smp_mask.specs.Mask.{has};
ghost use Rattle.smp_words.specs.Size.{cpus};
ghost use Rattle.smp_stop_steps.specs.Counts.{mask_weight};
ghost use Rattle.smp_stop_steps.specs.Value.{first_below};

use smp_mask::CpuMask;
use smp_words::size::NR_CPUS;

/// Whether the bit of a CPU is set.
pub fn has_bit(mask: u64, cpu: u32) -> bool
    requires { cpu < 64 }
    ensures { result ≡ has mask cpu }
{
    (mask >> cpu) & 1 == 1
}

/// How many CPUs are in a mask.
pub fn weight(mask: u64) -> u64
    ensures { result ≡ mask_weight cpus mask }
{
    u64::from((mask % (1 << NR_CPUS)).count_ones())
}

/// The least CPU in a mask, or the number of CPUs where it has none.
pub fn first_of(mask: CpuMask) -> u32
    ensures least { result ≡ first_below mask cpus }
    ensures within { result ≤ cpus }
{
    match mask.first() {
        Some(cpu) => cpu,
        None => NR_CPUS,
    }
}

/// A mask as the word of a slot has it.
pub fn mask_word(mask: CpuMask) -> u64
    ensures { result ≡ mask }
{
    u64::from(mask.bits())
}
