//! A call to one CPU by a record of the user.

ghost use Rattle.std.specs.Prelude.{◌≡◌, ◌≢◌, ◌<◌, true, false, IfOk, IfErr};
ghost use Rattle.smp_mask.specs.Mask.{has};
ghost use Rattle.smp_queue.specs.Handling.{heard};
ghost use Rattle.smp_calls.specs.Records.{user_record as user_record_in};
ghost use Rattle.smp_calls.specs.Families.{CallsBy, CallsUserHere, RefusesUser, HandlesNone};

use crate::context::CallContext;
use crate::queue::{Job, queue_and_send};
use crate::records::{USER_RECORDS, user_record};
use crate::wait::is_done;
use smp_mask::SmpError;
use smp_queue::{CallCpu, CallTable, Handler};
use smp_words::call::Class;
use std::alloc::Allocator;
use std::sync::Wait;

/// Calls a function on one CPU by the user's record `u`, 0 or 1, and does not wait for it
/// (`kernel/smp.c: smp_call_function_single_async`). On this CPU it runs at once, and nothing is queued.
///
/// A call to another CPU is queued at the compare-exchange that wins in its post. It waits for no call, so it handles
/// nothing, but its post may wait while others change the same head, and `dst` must poll for the call to run.
///
/// E4 (`SmpError::BadArgument`) where there is no such record; then E2 (`SmpError::Busy`) where the record's last call is not
/// done; then E1 (`SmpError::NoCpu`) where `dst` is another CPU that is not online.
pub fn call_async<A: Allocator, R: Wait, H: Handler>(
    table: &CallTable<A>,
    rt: &R,
    me: &mut CallCpu,
    handler: &mut H,
    u: u32,
    dst: u32,
    func: u16,
    info: u64,
) -> Result<(), SmpError>
    requires { me.old.table ≡ table.now.table }
    ensures record { IfOk result (λ _. u < 2) }
    ensures queued { IfOk result (λ _. dst ≢ me.old.number → (has table.now.online dst ≡ true)
        × CallsBy H.leads me.old handler.old me.new handler.new (user_record_in u) Class.Async dst func info false) }
    ensures here { IfOk result (λ _. dst ≡ me.old.number → CallsUserHere H.leads me.old handler.old me.new handler.new u func info) }
    ensures still { HandlesNone me.old me.new }
    ensures untouched { IfOk result (λ _. dst ≢ me.old.number → handler.new ≡ handler.old) }
    ensures called { IfOk result (λ _. dst ≡ me.old.number → H.leads handler.old (heard me.old.number func info) handler.new) }
    ensures refused { IfErr result (λ e. RefusesUser table.now.online me.old me.new u dst e × (handler.new ≡ handler.old)) }
{
    if u >= USER_RECORDS {
        return Err(SmpError::BadArgument);
    }
    let k = user_record(u);
    let number = me.number();
    if !is_done(table, me, k) {
        return Err(SmpError::Busy);
    }
    if dst == number {
        table.call_here(me, handler, func, info);
        return Ok(());
    }
    if !table.online().contains(dst) {
        return Err(SmpError::NoCpu);
    }
    let class = Class::Async;
    let job = Job { class, func, info };
    queue_and_send(CallContext { table, rt }, me, k, dst, job);
    Ok(())
}
