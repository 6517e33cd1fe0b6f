//! Calls to many CPUs.

ghost use Rattle.std.specs.Prelude.{◌≡◌, ◌≢◌, ℕ, ◌<◌, ◌==◌, ◌&&◌, ◌||◌, ◌*◌, true, false, List, None, Some, if◌then◌else◌, length};
ghost use Rattle.smp_mask.specs.Mask.{has, members};
ghost use Rattle.smp_words.specs.Size.{cpus};
ghost use Rattle.smp_words.specs.Limits.{AreLimits};
ghost use Rattle.smp_queue.specs.Handling.{heard};
ghost use Rattle.smp_calls.specs.Records.{many_call, class_for as class_in};
ghost use Rattle.smp_calls.specs.Targets.{is_target, remote};
ghost use Rattle.smp_calls.specs.Ended.{HaveEnded};
ghost use Rattle.smp_calls.specs.Families.{IsSized, IsLast, AreConfirmed, HandlesNone, CallsMany};
ghost use Rattle.smp_calls.specs.Rounds.{WaitsFor, Picks, HearsIf, noted_if};
ghost use Rattle.smp_calls.specs.Turns.{LooksFor, MakesMore, HasTurns};

use crate::context::CallContext;
use crate::each::{ManyCalls, queue_each, send_each, wait_each};
use crate::queue::Job;
use crate::records::class_for;
use crate::target::targets;
use smp_mask::CpuMask;
use smp_queue::{CallCpu, CallTable, Handler};
use smp_words::call::Class;
use std::alloc::Allocator;
use std::sync::Wait;

/// Queues a call for each of these CPUs that the condition holds of, and then sends all interrupts that are
/// owed: the CPUs called.
pub(crate) fn queue_all<A: Allocator, R: Wait, H: Handler, C: Fn(u32, u64) -> bool>(
    context: CallContext<A, R>,
    me: &mut CallCpu,
    handler: &mut H,
    calls: ManyCalls,
    cond: &C,
) -> CpuMask
    requires table { me.old.table ≡ context.table.now.table }
    requires sized { IsSized me.old }
    requires limits { AreLimits context.table.now.nr context.table.now.online }
    requires online { (c : ℕ) → has calls.others c ≡ true → (has context.table.now.online c ≡ true) × (c ≢ me.old.number) }
    requires condition { (c : ℕ) → c < cpus → C.pre cond.now c calls.job.info }
    ensures picks { Picks (λ c answer. C.post cond.now c calls.job.info answer) (has calls.others) result }
    ensures calls { CallsMany H.leads me.old handler.old me.new handler.new (members result) calls.job.class calls.job.func calls.job.info None false }
    ensures last { IsLast me.old me.new (members result) }
    ensures turns { MakesMore me.old me.new (6 * length (members result)) }
    ensures at_once { AreConfirmed me.old (has calls.others) → HandlesNone me.old me.new × (handler.new ≡ handler.old) }
{
    let (called, owed) = queue_each(context, me, handler, calls, cond);
    send_each(context.table, me, owed);
    called
}

/// Where the calls are to be waited for, waits for that to each of these CPUs, which are online.
fn wait_all<A: Allocator, R: Wait, H: Handler>(
    context: CallContext<A, R>,
    me: &mut CallCpu,
    handler: &mut H,
    called: CpuMask,
    wait: bool,
)
    requires table { me.old.table ≡ context.table.now.table }
    requires sized { IsSized me.old }
    requires limits { AreLimits context.table.now.nr context.table.now.online }
    requires online { (c : ℕ) → has called c ≡ true → has context.table.now.online c ≡ true }
    ensures waited { WaitsFor H.leads me.old handler.old me.new handler.new (members called) wait }
    ensures turns { LooksFor me.old me.new (if wait then length (members called) else 0) }
{
    if wait {
        wait_each(context, me, handler, called);
    }
}

/// Whether the mask has this CPU and the condition holds of it. The condition is asked only where the mask has
/// it.
fn runs_here<C: Fn(u32, u64) -> bool>(mask: CpuMask, this: u32, info: u64, cond: &C) -> bool
    requires { (c : ℕ) → c < cpus → C.pre cond.now c info }
    ensures member { result ≡ true → (has mask this ≡ true) × (this < cpus) }
    ensures answered { has mask this ≡ true → this < cpus → C.post cond.now this info result }
{
    mask.contains(this) && cond(this, info)
}

/// Runs the function here, where it is called here.
fn call_if<A: Allocator, H: Handler>(
    table: &CallTable<A>,
    me: &mut CallCpu,
    handler: &mut H,
    job: Job,
    here: bool,
)
    requires table { me.old.table ≡ table.now.table }
    ensures called { HearsIf H.leads handler.old (if here then Some (heard me.old.number job.func job.info) else None) handler.new }
    ensures noted { me.new ≡ noted_if (if here then Some (heard me.old.number job.func job.info) else None) me.old }
{
    if here {
        table.call_here(me, handler, job.func, job.info);
    }
}

/// The mask, with this CPU where it is called.
fn with_if(mask: CpuMask, this: u32, here: bool) -> CpuMask
    requires { here ≡ true → this < cpus }
    ensures { (c : ℕ) → has result c ≡ (has mask c || (here && c == this)) }
{
    if here {
        mask.with(this).unwrap_or(mask)
    } else {
        mask
    }
}

/// Calls a function on each online CPU of the mask but this one (`kernel/smp.c: smp_call_function_many`): all
/// calls are queued, ascending, before the first interrupt is sent. With `wait` the call returns once they have
/// run. Each call uses the record for its destination, for whose last call it first waits. While it waits, the
/// CPU handles its own interrupts. Answers the CPUs called.
///
/// Each call is queued at the compare-exchange that wins in its post: they are as many steps, not one. It may wait, for
/// the records and with `wait` for its calls; its targets must poll. It refuses nothing: a CPU that is not online is left
/// out.
pub fn call_many<A: Allocator, R: Wait, H: Handler>(
    table: &CallTable<A>,
    rt: &R,
    me: &mut CallCpu,
    handler: &mut H,
    mask: CpuMask,
    func: u16,
    info: u64,
    wait: bool,
) -> CpuMask
    requires { me.old.table ≡ table.now.table }
    ensures targets { (c : ℕ) → has result c ≡ is_target mask table.now.online me.old.number false c }
    ensures calls { CallsMany H.leads me.old handler.old me.new handler.new (members result) (class_in wait) func info None wait }
    ensures turns { HasTurns me.old me.new (length (members result)) wait }
    ensures ended { wait ≡ true → HaveEnded me.new (many_call me.old.number Class.Sync func info) (members result) }
{
    let others = targets(mask, table.online(), me.number(), false);
    let class = class_for(wait);
    let job = Job { class, func, info };
    let context = CallContext { table, rt };
    let calls = ManyCalls { others, job };
    let called = queue_all(context, me, handler, calls, &|_, _| true);
    wait_all(context, me, handler, called, wait);
    me.is_shown();
    others
}

/// Calls a function on each online CPU of the mask of which the condition holds, this one included
/// (`kernel/smp.c: on_each_cpu_cond_mask`). The condition is asked of the other CPUs ascending, each just before
/// its call is queued, and of this CPU after all interrupts are sent; the function then runs here at once. The
/// rest is as in [`call_many`]. Answers the CPUs called.
///
/// Each call is queued at the compare-exchange that wins in its post: they are as many steps, not one. It may wait, for
/// the records and with `wait` for its calls; its targets must poll. It refuses nothing: a CPU that is not online is left
/// out.
pub fn each_cpu_cond<A: Allocator, R: Wait, H: Handler, C: Fn(u32, u64) -> bool>(
    table: &CallTable<A>,
    rt: &R,
    me: &mut CallCpu,
    handler: &mut H,
    mask: CpuMask,
    func: u16,
    info: u64,
    cond: &C,
    wait: bool,
) -> CpuMask
    requires table { me.old.table ≡ table.now.table }
    requires condition { (c : ℕ) → c < cpus → C.pre cond.now c info }
    ensures picks { Picks (λ c answer. C.post cond.now c info answer) (is_target mask table.now.online me.old.number true) result }
    ensures calls { CallsMany H.leads me.old handler.old me.new handler.new (remote me.old.number result) (class_in wait) func info
        (if has result me.old.number then Some (heard me.old.number func info) else None) wait }
    ensures turns { HasTurns me.old me.new (length (remote me.old.number result)) wait }
    ensures ended { wait ≡ true → HaveEnded me.new (many_call me.old.number Class.Sync func info) (remote me.old.number result) }
{
    let this = me.number();
    let others = targets(mask, table.online(), this, false);
    let class = class_for(wait);
    let job = Job { class, func, info };
    let context = CallContext { table, rt };
    let calls = ManyCalls { others, job };
    let called = queue_all(context, me, handler, calls, cond);
    let here = runs_here(mask, this, info, cond);
    call_if(table, me, handler, job, here);
    wait_all(context, me, handler, called, wait);
    me.is_shown();
    with_if(called, this, here)
}
