//! The CPUs of a table that were not given out yet.

ghost use Rattle.std.specs.Prelude.{◌≡◌, true, false, IfOk, IfErr, ◌⊎◌};
ghost use Rattle.smp_mask.specs.Mask.{has};
ghost use Rattle.smp_multi.specs.Cpu.{fresh_cpu, is_left, given};

use crate::cpu::StopCpu;
use crate::seat::StopSeatMaker;
use smp_mask::{CpuMask, SmpError};
use std::alloc::Allocator;
use std::marker::Model;

/// Hands each CPU of a table out once.
#[derive(Drop)]
pub struct StopBoot<A: Allocator> {
    /// The first seat, which made those of the CPUs.
    pub(crate) maker: StopSeatMaker,
    pub(crate) online: CpuMask,
    pub(crate) waiting: Vec<Option<StopCpu>, A>,
}

impl<A: Allocator> Model for StopBoot<A> {
    ghost use Rattle.std.specs.Prelude.{map, is_some};
    ghost use Rattle.smp_multi.specs.Rule.{made_with};
    ghost use Rattle.smp_multi.specs.Cpu.{BootValue, AreWaiting};

    ghost Value = { BootValue };

    ghost view = { λ b. record { table = b.maker.raw.table_id; setting = made_with b.maker.raw.me.0; left = map is_some b.waiting.items } };

    ghost invariant = { λ b. AreWaiting b.maker.raw.table_id (made_with b.maker.raw.me.0) b.online b.waiting.items };
}

impl<A: Allocator> StopBoot<A> {
    /// This CPU's value: that of a CPU of this table that has done nothing. E1 where it is not online, then E2 where it
    /// was given out. It makes no step of the table, and does not wait.
    pub fn cpu(&mut self, cpu: u32) -> Result<StopCpu, SmpError>
        ensures ok { IfOk result (λ c. (c ≡ fresh_cpu self.old.table self.old.setting cpu) × (has self.old.setting.online cpu ≡ true)
            × (is_left self.old cpu ≡ true) × (self.new ≡ given cpu self.old)) }
        ensures err { IfErr result (λ e. ((e ≡ SmpError.NoCpu) × (has self.old.setting.online cpu ≡ false))
            ⊎ ((e ≡ SmpError.Busy) × (has self.old.setting.online cpu ≡ true) × (is_left self.old cpu ≡ false))) }
        ensures kept { IfErr result (λ e. self.new ≡ self.old) }
    {
        if !self.online.contains(cpu) {
            return Err(SmpError::NoCpu);
        }
        match self.waiting[cpu as usize].take() {
            Some(given) => Ok(given),
            None => Err(SmpError::Busy),
        }
    }
}
