//! Queueing one call, and the interrupt that is owed for it.

ghost use Rattle.std.specs.Prelude.{◌≡◌, true, false, Bool, if◌then◌else◌};
ghost use Rattle.smp_mask.specs.Mask.{has};
ghost use Rattle.smp_call_steps.specs.Threads.Heads.{Found};
ghost use Rattle.smp_queue.specs.Cpu.{confirmed_at, misused, posts, sends};

use crate::context::CallContext;
use smp_queue::{CallCpu, CallTable};
use smp_words::call::Class;
use std::alloc::Allocator;
use std::sync::Wait;

/// What a call asks for: the class of its record, the function and its info.
#[derive(Clone, Copy)]
pub(crate) struct Job {
    pub(crate) class: Class,
    pub(crate) func: u16,
    pub(crate) info: u64,
}

/// Queues one call by a record that is confirmed: whether the queue was empty, so that an interrupt is owed.
pub(crate) fn queue<A: Allocator, R: Wait>(
    context: CallContext<A, R>,
    me: &mut CallCpu,
    k: u32,
    to: u32,
    job: Job,
) -> bool
    requires table { me.old.table ≡ context.table.now.table }
    requires lawful { misused context.table.now.nr me.old k to job.class 1 ≡ false }
    requires online { has context.table.now.online to ≡ true }
    requires free { confirmed_at me.old k ≡ true }
    ensures { (found : Found) × (me.new ≡ posts k to job.class job.func job.info result found me.old) }
{
    let CallContext { table, rt } = context;
    match table.post(rt, me, k, to, job.class, job.func, job.info) {
        Ok(first) => first,
        Err(_) => unreachable!(),
    }
}

/// Sends an interrupt to a CPU that is online.
pub(crate) fn interrupt<A: Allocator>(table: &CallTable<A>, me: &mut CallCpu, to: u32)
    requires table { me.old.table ≡ table.now.table }
    requires online { has table.now.online to ≡ true }
    ensures { me.new ≡ sends to me.old }
{
    match table.send(me, to) {
        Ok(()) => (),
        Err(_) => unreachable!(),
    }
}

/// Queues one call by a record that is confirmed, and sends the interrupt where it is owed
/// (`kernel/smp.c: __smp_call_single_queue`).
pub(crate) fn queue_and_send<A: Allocator, R: Wait>(
    context: CallContext<A, R>,
    me: &mut CallCpu,
    k: u32,
    to: u32,
    job: Job,
)
    requires table { me.old.table ≡ context.table.now.table }
    requires lawful { misused context.table.now.nr me.old k to job.class 1 ≡ false }
    requires online { has context.table.now.online to ≡ true }
    requires free { confirmed_at me.old k ≡ true }
    ensures { (first : Bool) × (found : Found)
        × (me.new ≡ let posted = posts k to job.class job.func job.info first found me.old in if first then sends to posted else posted) }
{
    if queue(context, me, k, to, job) {
        interrupt(context.table, me, to);
    }
}
