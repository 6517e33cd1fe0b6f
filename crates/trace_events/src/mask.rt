//! The mask that a word has.

ghost use Rattle.std.specs.Prelude.{◌≡◌, ℕ, ◌%◌, ◌^◌, ◌&&◌, ◌||◌, ◌==◌, nat_lt};
ghost use Rattle.smp_mask.specs.Mask.{has};

use smp_mask::CpuMask;

/// Whether a word has the bit of this CPU.
pub fn has_bit(word: u64, cpu: u32) -> bool
    ensures { result ≡ (nat_lt cpu 32 && has word cpu) }
{
    cpu < 32 && (word >> cpu) & 1 == 1
}

/// A mask, with this CPU too where the word has its bit.
fn with_bit(mask: CpuMask, word: u64, cpu: u32) -> CpuMask
    ensures { (c : ℕ) → has result c ≡ (has mask c || ((c == cpu) && (nat_lt cpu 32 && has word cpu))) }
{
    if !has_bit(word, cpu) {
        return mask;
    }
    match mask.with(cpu) {
        Ok(more) => more,
        Err(_) => mask,
    }
}

/// The CPUs below 32 whose bits a word has.
pub fn mask_of(word: u64) -> CpuMask
    ensures { result ≡ word % 2 ^ 32 }
{
    let mut mask = CpuMask::empty();
    for cpu in 0..32 {
        mask = with_bit(mask, word, cpu);
    }
    mask
}
