//! A call to many CPUs that gives up waiting, and says which of them have not answered.

ghost use Rattle.std.specs.Prelude.{◌≡◌, ℕ, false};
ghost use Rattle.smp_calls.specs.Targets.{is_target};
ghost use Rattle.smp_calls.specs.Within.{CallsWithin};

use crate::context::CallContext;
use crate::each::ManyCalls;
use crate::many::queue_all;
use crate::queue::Job;
use crate::target::targets;
use crate::wait_within::wait_within;
use smp_mask::CpuMask;
use smp_queue::{CallCpu, CallTable, Handler};
use smp_words::call::Class;
use std::alloc::Allocator;
use std::sync::Wait;

/// What a call to many has come to within its polls.
#[derive(Clone, Copy, Debug, PartialEq, Eq)]
pub struct Within {
    /// The CPUs for which a call was queued.
    pub called: CpuMask,
    /// The CPUs that have not answered: the record for calls to each was found locked by the last look at it. One that was
    /// called has not run the function yet. One that was not called has not run the call before.
    pub silent: CpuMask,
}

/// Calls a function on each online CPU of the mask but this one, as [`crate::call_many`] with wait, and gives up waiting after
/// some polls: the CPUs called, and those that have not answered (`kernel/smp.c: csd_lock_wait_toolong`, which names them).
///
/// It first waits for the record of each destination, with at most `polls` polls in all. A CPU whose record stays locked is not
/// called, and is silent. Then it queues the calls for the others, sends the interrupts, and waits for these calls, with at most
/// `polls` polls more. A call to a CPU that is silent stays queued, and runs once that CPU polls. Until then its record stays
/// locked, so that each later call to many waits for it first. `CallTable::is_done` with [`crate::many_record`] says when.
///
/// Between the two waits it handles nothing. So at most `polls` polls come before its last interrupt, and none where the records
/// of all destinations were seen confirmed. In all there are at most twice `polls`, and at most `polls` where it calls no CPU.
///
/// Each call is queued at the compare-exchange that wins in its post: they are as many steps, not one. It waits for no CPU longer
/// than its polls; only its posts may wait while others change the same head. It refuses nothing.
pub fn call_many_within<A: Allocator, R: Wait, H: Handler>(
    table: &CallTable<A>,
    rt: &R,
    me: &mut CallCpu,
    handler: &mut H,
    mask: CpuMask,
    func: u16,
    info: u64,
    polls: u32,
) -> Within
    requires { me.old.table ≡ table.now.table }
    ensures { CallsWithin H.leads me.old handler.old me.new handler.new func info
        (is_target mask table.now.online me.old.number false) result.called result.silent polls }
{
    let others = targets(mask, table.online(), me.number(), false);
    let context = CallContext { table, rt };
    let (free, busy) = wait_within(context, me, handler, others, polls);
    let class = Class::Sync;
    let job = Job { class, func, info };
    let calls = ManyCalls { others: free, job };
    queue_all(context, me, handler, calls, &|_, _| true);
    let (_, silent) = wait_within(context, me, handler, free, polls);
    me.is_shown();
    Within {
        called: free,
        silent: busy.or(silent),
    }
}
