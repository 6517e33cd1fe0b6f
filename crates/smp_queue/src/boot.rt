//! The CPUs of a table that were not given out yet.

ghost use Rattle.std.specs.Prelude.{◌≡◌, ℕ, ◌<◌, true, false, [], IfOk, IfErr, ◌⊎◌, slice_index_or};
ghost use Rattle.smp_words.specs.Size.{records_of_one};
ghost use Rattle.smp_mask.specs.Mask.{has};
ghost use Rattle.smp_queue.specs.Cpu.{fresh_cpu, is_left, given, confirmed_at};

use crate::cpu::CallCpu;
use crate::seat::CallSeatMaker;
use smp_mask::{CpuMask, SmpError};
use std::alloc::Allocator;
use std::marker::Model;

/// Hands each CPU of a table out once.
#[derive(Drop)]
pub struct Boot<A: Allocator> {
    /// The first seat, which made those of the CPUs.
    pub(crate) maker: CallSeatMaker,
    pub(crate) online: CpuMask,
    pub(crate) waiting: Vec<Option<CallCpu>, A>,
}

impl<A: Allocator> Model for Boot<A> {
    ghost use Rattle.std.specs.Prelude.{map, is_some};
    ghost use Rattle.smp_queue.specs.Rule.{made_with};
    ghost use Rattle.smp_queue.specs.Cpu.{BootValue, AreWaiting, table_with};

    ghost Value = { BootValue };

    ghost view = { λ b. record { table = table_with b.maker.raw.table_id (made_with b.maker.raw.me.0); left = map is_some b.waiting.items } };

    ghost invariant = { λ b. AreWaiting (table_with b.maker.raw.table_id (made_with b.maker.raw.me.0)) b.online b.waiting.items };
}

impl<A: Allocator> Boot<A> {
    /// This CPU's value: that of a CPU of this table that has done nothing. Each of its records is confirmed; it has sent,
    /// taken, run and asked nothing, and owes no CPU an interrupt. E1 (`SmpError::NoCpu`) where it is not online, then E2
    /// (`SmpError::Busy`) where it was given out. It makes no step of the table, and does not wait.
    pub fn cpu(&mut self, cpu: u32) -> Result<CallCpu, SmpError>
        ensures ok { IfOk result (λ c. (c ≡ fresh_cpu self.old.table cpu) × (has self.old.table.online cpu ≡ true)
            × (is_left self.old cpu ≡ true) × (self.new ≡ given cpu self.old)) }
        ensures unused { IfOk result (λ c. (k : ℕ) → k < records_of_one → confirmed_at c k ≡ true) }
        ensures idle { IfOk result (λ c. (c.part.sent ≡ []) × (c.part.taken ≡ []) × (c.part.ran ≡ []) × (c.part.asked ≡ []) × (c.log ≡ []) × (c.steps ≡ 0)
            × ((to : ℕ) → slice_index_or c.part.owes to false ≡ false)) }
        ensures err { IfErr result (λ e. ((e ≡ SmpError.NoCpu) × (has self.old.table.online cpu ≡ false))
            ⊎ ((e ≡ SmpError.Busy) × (has self.old.table.online cpu ≡ true) × (is_left self.old cpu ≡ false))) }
        ensures kept { IfErr result (λ e. self.new ≡ self.old) }
    {
        if !self.online.contains(cpu) {
            return Err(SmpError::NoCpu);
        }
        match self.waiting[cpu as usize].take() {
            Some(given) => Ok(given),
            None => Err(SmpError::Busy),
        }
    }
}
