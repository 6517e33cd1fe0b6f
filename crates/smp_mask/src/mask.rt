//! A set of CPUs.

ghost use Rattle.std.specs.Prelude.{◌≡◌, ℕ, ◌+◌, ◌-◌, ◌^◌, ◌<◌, ◌≤◌, ◌↔◌, ◌&&◌, ◌||◌, ◌==◌, not, true, false, nat_lt, length, IsErrOf, IfOk, IfSome, OnErr};
ghost use Rattle.std.specs.Int.Bits.{bit_or};
ghost use Rattle.smp_mask.specs.Mask.{has, members, FindsLeast};

use crate::error::SmpError;
use crate::iter::MaskIter;
use std::marker::Model;

/// How many CPUs there can be: their numbers are 0 to `NR_CPUS - 1`.
pub const NR_CPUS: u32 = 32;

/// A set of CPU numbers below [`NR_CPUS`], as Linux's `cpumask_t` (`include/linux/cpumask.h`).
///
/// A contract sees it as the number that has bit `c` where CPU `c` is a member.
#[derive(Clone, Copy, PartialEq, Eq)]
pub struct CpuMask {
    bits: u32,
}

impl Model for CpuMask {
    ghost use Rattle.std.specs.Prelude.{ℕ, ◌<◌, ◌^◌};
    ghost use Rattle.smp_mask.specs.declared.mask.TheConstants.{NR_CPUS};

    ghost Value = { ℕ };

    ghost view = { λ m. m.bits };

    ghost invariant = { λ m. m.bits < 2 ^ NR_CPUS };

    ghost inverse = { λ n. record { bits = n } };
}

impl CpuMask {
    /// The set with no member.
    pub fn empty() -> CpuMask
        ensures { (c : ℕ) → has result c ≡ false }
    {
        CpuMask { bits: 0 }
    }

    /// The set of one CPU. `BadArgument` where there is no such CPU.
    pub fn of(cpu: u32) -> Result<CpuMask, SmpError>
        ensures refused { IsErrOf result SmpError.BadArgument ↔ (NR_CPUS ≤ cpu) }
        ensures only { OnErr result (IsErrOf result SmpError.BadArgument) }
        ensures members { IfOk result (λ m. (c : ℕ) → has m c ≡ (c == cpu)) }
    {
        CpuMask::empty().with(cpu)
    }

    /// The set as a number: bit `c` for CPU `c`, as Linux's `cpumask_bits` of a mask of one word.
    pub fn bits(self) -> u32
        ensures { result ≡ self }
    {
        self.bits
    }

    /// The set with one more member, as Linux's `cpumask_set_cpu`. `BadArgument` where there is no such CPU.
    pub fn with(self, cpu: u32) -> Result<CpuMask, SmpError>
        ensures refused { IsErrOf result SmpError.BadArgument ↔ (NR_CPUS ≤ cpu) }
        ensures only { OnErr result (IsErrOf result SmpError.BadArgument) }
        ensures members { IfOk result (λ m. (c : ℕ) → has m c ≡ (has self c || c == cpu)) }
    {
        if cpu >= NR_CPUS {
            return Err(SmpError::BadArgument);
        }
        Ok(CpuMask {
            bits: self.bits | 1 << cpu,
        })
    }

    // The set with the CPUs from `low` to `high` too.
    pub(crate) fn with_run(self, low: u32, high: u32) -> CpuMask
        requires run { low ≤ high }
        requires within { high < NR_CPUS }
        ensures { result ≡ bit_or self (2 ^ (high + 1) - 2 ^ low) }
    {
        let from_low = u32::MAX << low;
        let to_high = u32::MAX >> (u32::BITS - 1 - high);
        CpuMask {
            bits: self.bits | (from_low & to_high),
        }
    }

    /// The set without that member, as Linux's `cpumask_clear_cpu`.
    pub fn without(self, cpu: u32) -> CpuMask
        ensures { (c : ℕ) → has result c ≡ (has self c && not (c == cpu)) }
    {
        if cpu >= NR_CPUS {
            return self;
        }
        CpuMask {
            bits: self.bits & !(1 << cpu),
        }
    }

    /// The members of both, as Linux's `cpumask_and`.
    pub fn and(self, o: CpuMask) -> CpuMask
        ensures { (c : ℕ) → has result c ≡ (has self c && has o c) }
    {
        CpuMask {
            bits: self.bits & o.bits,
        }
    }

    /// The members of either, as Linux's `cpumask_or`.
    pub fn or(self, o: CpuMask) -> CpuMask
        ensures { (c : ℕ) → has result c ≡ (has self c || has o c) }
    {
        CpuMask {
            bits: self.bits | o.bits,
        }
    }

    /// Whether the CPU is a member, as Linux's `cpumask_test_cpu`. No number from `NR_CPUS` on is one.
    pub fn contains(self, cpu: u32) -> bool
        ensures member { result ≡ has self cpu }
        ensures within { result ≡ true → cpu < NR_CPUS }
    {
        cpu < NR_CPUS && (self.bits >> cpu) & 1 == 1
    }

    /// The number of members, as Linux's `cpumask_weight`.
    pub fn weight(self) -> u32
        ensures count { result ≡ length (members self) }
        ensures within { result ≤ NR_CPUS }
        ensures width { self < 2 ^ NR_CPUS }
    {
        self.bits.count_ones()
    }

    /// The least member, as Linux's `cpumask_first`.
    pub fn first(self) -> Option<u32>
        ensures least { FindsLeast result (λ c. has self c) }
        ensures within { IfSome result (λ c. c < NR_CPUS) }
    {
        if self.bits == 0 {
            None
        } else {
            Some(self.bits.trailing_zeros())
        }
    }

    // The members above `cpu`.
    pub(crate) fn above(self, cpu: u32) -> CpuMask
        ensures { (c : ℕ) → has result c ≡ (nat_lt cpu c && has self c) }
    {
        let bits = self.bits;
        if cpu >= NR_CPUS {
            return CpuMask::empty();
        }
        CpuMask {
            bits: bits & (u32::MAX << cpu << 1),
        }
    }

    /// The least member above `cpu`, as Linux's `cpumask_next`.
    pub fn next_after(self, cpu: u32) -> Option<u32>
        ensures least { FindsLeast result (λ c. nat_lt cpu c && has self c) }
        ensures within { IfSome result (λ c. c < NR_CPUS) }
    {
        self.above(cpu).first()
    }

    /// The least member of both, as Linux's `cpumask_first_and`.
    pub fn first_and(self, o: CpuMask) -> Option<u32>
        ensures least { FindsLeast result (λ c. has self c && has o c) }
        ensures within { IfSome result (λ c. c < NR_CPUS) }
    {
        self.and(o).first()
    }

    /// The members, ascending, as Linux's `for_each_cpu`.
    pub fn iter(self) -> MaskIter
        ensures { result ≡ self }
    {
        MaskIter::of(self)
    }
}
