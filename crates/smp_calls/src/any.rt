//! A call to any CPU of a mask.

ghost use Rattle.std.specs.Prelude.{◌≡◌, ◌≢◌, true, false, None, [], ◌∷◌, IfOk, IfErr, IfNone, IfSome};
ghost use Rattle.smp_queue.specs.Cpu.{confirmed_at, notes_call};
ghost use Rattle.smp_queue.specs.Handling.{heard};
ghost use Rattle.smp_calls.specs.Targets.{IsAny, HasNone};
ghost use Rattle.smp_calls.specs.Records.{call_by, single_record as single_record_in};
ghost use Rattle.smp_calls.specs.Ended.{HaveEnded};
ghost use Rattle.smp_calls.specs.Families.{CallsOne, CallsHere};
ghost use Rattle.smp_calls.specs.Turns.{HasTurns};

use crate::single::call_single;
use smp_mask::{CpuMask, SmpError};
use smp_queue::{CallCpu, CallTable, Handler};
use smp_words::call::Class;
use std::alloc::Allocator;
use std::sync::Wait;

/// The CPU `this` where the mask has it, else the lowest CPU of the mask that is online.
fn any_of(mask: CpuMask, online: CpuMask, this: u32) -> Option<u32>
    ensures some { IfSome result (λ cpu. IsAny mask online this cpu) }
    ensures none { IfNone result (HasNone mask online this) }
{
    if mask.contains(this) {
        Some(this)
    } else {
        mask.first_and(online)
    }
}

/// Calls a function on one CPU of the mask (`kernel/smp.c: smp_call_function_any`): on this CPU where the mask
/// has it, else on the lowest one that is online. It then does as [`call_single`], and answers that CPU.
///
/// A call to another CPU is queued at the compare-exchange that wins in its post. It may wait as [`call_single`] does;
/// the targets of the calls that it waits for must poll.
///
/// E1 (`SmpError::NoCpu`) where there is no such CPU; then nothing is waited for.
pub fn call_any<A: Allocator, R: Wait, H: Handler>(
    table: &CallTable<A>,
    rt: &R,
    me: &mut CallCpu,
    handler: &mut H,
    mask: CpuMask,
    func: u16,
    info: u64,
    wait: bool,
) -> Result<u32, SmpError>
    requires { me.old.table ≡ table.now.table }
    ensures any { IfOk result (λ cpu. IsAny mask table.now.online me.old.number cpu) }
    ensures queued { IfOk result (λ cpu. cpu ≢ me.old.number → CallsOne H.leads me.old handler.old me.new handler.new cpu func info wait) }
    ensures here { IfOk result (λ cpu. cpu ≡ me.old.number → CallsHere H.leads me.old handler.old me.new handler.new func info wait) }
    ensures at_once { IfOk result (λ cpu. wait ≡ true → cpu ≡ me.old.number → (me.new ≡ notes_call me.old)
        × H.leads handler.old (heard me.old.number func info) handler.new) }
    ensures freed { IfOk result (λ cpu. wait ≡ false → cpu ≡ me.old.number → confirmed_at me.new 1 ≡ true) }
    ensures refused { IfErr result (λ e. (e ≡ SmpError.NoCpu) × HasNone mask table.now.online me.old.number × (me.new ≡ me.old) × (handler.new ≡ handler.old)) }
    ensures turns { IfOk result (λ cpu. cpu ≢ me.old.number → HasTurns me.old me.new 1 wait) }
    ensures ended { IfOk result (λ cpu. wait ≡ true → cpu ≢ me.old.number →
        HaveEnded me.new (λ _. call_by me.old.number (single_record_in true) Class.Sync func info) (cpu ∷ [])) }
{
    let dst = any_of(mask, table.online(), me.number()).ok_or(SmpError::NoCpu)?;
    call_single(table, rt, me, handler, dst, func, info, wait)?;
    Ok(dst)
}
