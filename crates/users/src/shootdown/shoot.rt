//! A TLB shootdown: a CPU drops an address space from the TLBs of all CPUs that use it.

ghost use Rattle.std.specs.Prelude.{◌≡◌, ℕ, false, IfOk, IfErr};
ghost use Rattle.smp_mask.specs.Mask.{has, members};
ghost use Rattle.smp_calls.specs.Ended.{HaveEnded};
ghost use Rattle.smp_calls.specs.Records.{many_call};
ghost use Rattle.smp_calls.specs.Targets.{is_target};
ghost use Rattle.smp_machine.specs.Calls.{RefusedInHand};
ghost use Rattle.smp_machine.specs.Seats.{IsSameSeat};
ghost use Rattle.users.specs.Once.{CallsOnce};
ghost use Rattle.users.specs.Tlb.{IsGone, IsFlushed, Loses};

use crate::shootdown::space::AddressSpace;
use crate::shootdown::tlb::{FLUSH, Tlb};
use smp_machine::{NoStop, Seat};
use smp_mask::{CpuMask, SmpError};
use smp_words::call::Class;
use std::alloc::Global;
use std::sync::Wait;

/// Drops an address space from the TLBs of the CPUs that use it, and waits until each has run the flush; then from its own:
/// the other CPUs that were called (`arch/arm/kernel/smp_tlb.c: flush_tlb_mm`).
///
/// It may wait as `Seat::call_many` does, for its calls and for the last call by the record of each destination; the users
/// must poll. Meanwhile it runs the flushes that were queued for it. Entries of other spaces stay, but for those flushes.
///
/// E4 (`SmpError::BadArgument`) where a work of a stop is in hand.
pub fn shoot_down<'a, R: Wait>(
    seat: &mut Seat<'_, Global, R, Tlb<'a>, NoStop>,
    space: &AddressSpace,
) -> Result<CpuMask, SmpError>
    ensures called { IfOk result (λ called. (c : ℕ) →
        has called c ≡ is_target space.now.users seat.old.machine.calls.online seat.old.cpu.calls.number false c) }
    ensures once { IfOk result (λ called. CallsOnce seat.old.cpu.calls seat.new.cpu.calls
        (many_call seat.old.cpu.calls.number Class.Sync FLUSH space.now.id) (members called)) }
    ensures ended { IfOk result (λ called. HaveEnded seat.new.cpu.calls
        (many_call seat.old.cpu.calls.number Class.Sync FLUSH space.now.id) (members called)) }
    ensures own { IfOk result (λ _. IsGone space.now.id seat.new.handler.entries.items) }
    ensures loses { IfOk result (λ _. Loses space.now.id seat.old.cpu.calls seat.new.cpu.calls
        seat.old.handler.entries.items seat.new.handler.entries.items) }
    ensures flushed { IsFlushed seat.old.cpu.calls seat.old.handler.entries.items → IsFlushed seat.new.cpu.calls seat.new.handler.entries.items }
    ensures refused { IfErr result (λ e. RefusedInHand e seat.old.cpu seat.old.handler seat.new.cpu seat.new.handler) }
    ensures same { IsSameSeat seat.old seat.new }
{
    let called = seat.call_many(space.users, FLUSH, space.id, true)?;
    seat.handler.flush(space.id);
    Ok(called)
}
