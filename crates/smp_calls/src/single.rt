//! A call to one CPU.

ghost use Rattle.std.specs.Prelude.{◌≡◌, ◌≢◌, true, false, None, Some, [], ◌∷◌, IfOk, IfErr};
ghost use Rattle.smp_mask.specs.Mask.{has};
ghost use Rattle.smp_queue.specs.Cpu.{confirmed_at, notes_call};
ghost use Rattle.smp_queue.specs.Handling.{heard};
ghost use Rattle.smp_calls.specs.Records.{call_by, single_record as single_record_in};
ghost use Rattle.smp_calls.specs.Ended.{HaveEnded};
ghost use Rattle.smp_calls.specs.Families.{IsSized, Awaits, CallsOne, CallsHere, QueuesNone};
ghost use Rattle.smp_calls.specs.Turns.{HasTurns};

use crate::context::CallContext;
use crate::queue::{Job, queue_and_send};
use crate::records::{ASYNC_RECORD, class_for, single_record};
use crate::wait::wait_for;
use smp_mask::SmpError;
use smp_queue::{CallCpu, CallTable, Handler};
use smp_words::call::Class;
use std::alloc::Allocator;
use std::sync::Wait;

/// A call to one CPU: its function, the info, and whether it is waited for.
#[derive(Clone, Copy)]
struct OneCall {
    func: u16,
    info: u64,
    wait: bool,
}

/// Waits for the async record where the call is not to be waited for.
fn free_async<A: Allocator, R: Wait, H: Handler>(
    context: CallContext<A, R>,
    me: &mut CallCpu,
    handler: &mut H,
    wait: bool,
)
    requires table { me.old.table ≡ context.table.now.table }
    requires sized { IsSized me.old }
    ensures none { QueuesNone H.leads me.old handler.old me.new handler.new wait }
    ensures waited { wait ≡ true → (me.new ≡ me.old) × (handler.new ≡ handler.old) }
    ensures turns { wait ≡ false → Awaits 1 me.old handler.old me.new handler.new }
{
    if !wait {
        wait_for(context, me, handler, ASYNC_RECORD);
    }
}

/// Runs the function on this CPU.
fn call_here<A: Allocator, R: Wait, H: Handler>(
    context: CallContext<A, R>,
    me: &mut CallCpu,
    handler: &mut H,
    call: OneCall,
)
    requires table { me.old.table ≡ context.table.now.table }
    requires sized { IsSized me.old }
    ensures here { CallsHere H.leads me.old handler.old me.new handler.new call.func call.info call.wait }
    ensures at_once { call.wait ≡ true → (me.new ≡ notes_call me.old) × H.leads handler.old (heard me.old.number call.func call.info) handler.new }
{
    free_async(context, me, handler, call.wait);
    context.table.call_here(me, handler, call.func, call.info);
}

/// Queues the call for another CPU, which is online.
fn call_there<A: Allocator, R: Wait, H: Handler>(
    context: CallContext<A, R>,
    me: &mut CallCpu,
    handler: &mut H,
    to: u32,
    call: OneCall,
)
    requires table { me.old.table ≡ context.table.now.table }
    requires sized { IsSized me.old }
    requires other { to ≢ me.old.number }
    requires online { has context.table.now.online to ≡ true }
    ensures called { CallsOne H.leads me.old handler.old me.new handler.new to call.func call.info call.wait }
    ensures turns { HasTurns me.old me.new 1 call.wait }
{
    let OneCall { func, info, wait } = call;
    let k = single_record(wait);
    let class = class_for(wait);
    wait_for(context, me, handler, k);
    queue_and_send(context, me, k, to, Job { class, func, info });
    if wait {
        wait_for(context, me, handler, k);
    }
}

/// Calls a function on one CPU (`kernel/smp.c: smp_call_function_single`).
///
/// The function runs on the CPU `dst`, with this CPU as its source. With `wait` the call returns once it has run
/// there. Without, it uses the async record, for whose last call it first waits, whatever `dst` is. On this CPU
/// it runs at once, with `wait` before any step, and nothing is queued. While it waits, the CPU handles its own interrupts,
/// once after each look that finds the record locked. After its function has run here, it does nothing more.
///
/// A call to another CPU is queued at the compare-exchange that wins in its post. It may wait, for the record's last
/// call and with `wait` for its own; the targets of the calls that it waits for must poll.
///
/// E1 (`SmpError::NoCpu`) where `dst` is another CPU that is not online: with `wait` nothing has changed then.
pub fn call_single<A: Allocator, R: Wait, H: Handler>(
    table: &CallTable<A>,
    rt: &R,
    me: &mut CallCpu,
    handler: &mut H,
    dst: u32,
    func: u16,
    info: u64,
    wait: bool,
) -> Result<(), SmpError>
    requires { me.old.table ≡ table.now.table }
    ensures queued { IfOk result (λ _. dst ≢ me.old.number → (has table.now.online dst ≡ true)
        × CallsOne H.leads me.old handler.old me.new handler.new dst func info wait) }
    ensures here { IfOk result (λ _. dst ≡ me.old.number → CallsHere H.leads me.old handler.old me.new handler.new func info wait) }
    ensures at_once { IfOk result (λ _. wait ≡ true → dst ≡ me.old.number → (me.new ≡ notes_call me.old)
        × H.leads handler.old (heard me.old.number func info) handler.new) }
    ensures stays { IfErr result (λ _. wait ≡ true → (me.new ≡ me.old) × (handler.new ≡ handler.old)) }
    ensures freed { IfOk result (λ _. wait ≡ false → dst ≡ me.old.number → confirmed_at me.new 1 ≡ true) }
    ensures waits { IfErr result (λ _. wait ≡ false → (confirmed_at me.new 1 ≡ true) × Awaits 1 me.old handler.old me.new handler.new) }
    ensures refused { IfErr result (λ e. (e ≡ SmpError.NoCpu) × (dst ≢ me.old.number) × (has table.now.online dst ≡ false)
        × QueuesNone H.leads me.old handler.old me.new handler.new wait) }
    ensures turns { IfOk result (λ _. dst ≢ me.old.number → HasTurns me.old me.new 1 wait) }
    ensures ended { IfOk result (λ _. wait ≡ true → dst ≢ me.old.number →
        HaveEnded me.new (λ _. call_by me.old.number (single_record_in true) Class.Sync func info) (dst ∷ [])) }
{
    let context = CallContext { table, rt };
    let call = OneCall { func, info, wait };
    if dst == me.number() {
        call_here(context, me, handler, call);
        return Ok(());
    }
    if !table.online().contains(dst) {
        free_async(context, me, handler, wait);
        return Err(SmpError::NoCpu);
    }
    call_there(context, me, handler, dst, call);
    me.is_shown();
    Ok(())
}
