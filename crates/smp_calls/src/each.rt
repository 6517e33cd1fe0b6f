//! The parts of a call to many CPUs: a call is queued for each, an interrupt is sent to each that is owed one,
//! each record is waited for.

ghost use Rattle.std.specs.Prelude.{◌≡◌, ◌≢◌, ℕ, ◌<◌, ◌==◌, ◌&&◌, ◌*◌, not, true, false, Bool, List, [], ◌∷◌, ◌++◌, None, if◌then◌else◌, length};
ghost use Rattle.smp_mask.specs.Mask.{has, members};
ghost use Rattle.smp_words.specs.Size.{cpus};
ghost use Rattle.smp_words.specs.Limits.{AreLimits};
ghost use Rattle.smp_queue.specs.Cpu.{confirmed_at};
ghost use Rattle.smp_calls.specs.Records.{many_call, many_record as many_record_in};
ghost use Rattle.smp_calls.specs.Queued.{Queued, destinations, firsts};
ghost use Rattle.smp_calls.specs.Families.{IsSized, AreConfirmed, HandlesNone};
ghost use Rattle.smp_calls.specs.Rounds.{only_if, Queues, Sends, WaitsFor, QueuesEach};
ghost use Rattle.smp_calls.specs.Turns.{LooksFor, MakesMore};

use crate::context::CallContext;
use crate::queue::{Job, interrupt, queue};
use crate::records::many_record;
use crate::wait::wait_for;
use smp_mask::CpuMask;
use smp_queue::{CallCpu, CallTable, Handler};
use std::alloc::Allocator;
use std::sync::Wait;

/// A destination of calls to many, and whether a call is asked for.
#[derive(Clone, Copy)]
struct Candidate {
    to: u32,
    asked: bool,
}

/// Calls to many CPUs: which ones, and what is asked of each.
#[derive(Clone, Copy)]
pub(crate) struct ManyCalls {
    pub(crate) others: CpuMask,
    pub(crate) job: Job,
}

/// Queues one of many calls, once the record for its destination is free, where it is `asked` for: whether the
/// queue was empty.
fn queue_if<A: Allocator, R: Wait, H: Handler>(
    context: CallContext<A, R>,
    me: &mut CallCpu,
    handler: &mut H,
    candidate: Candidate,
    job: Job,
) -> bool
    requires table { me.old.table ≡ context.table.now.table }
    requires sized { IsSized me.old }
    requires limits { AreLimits context.table.now.nr context.table.now.online }
    requires online { has context.table.now.online candidate.to ≡ true }
    requires other { candidate.to ≢ me.old.number }
    ensures queued { (queued : List Queued) × (destinations queued ≡ only_if candidate.asked candidate.to) × (firsts queued ≡ only_if result candidate.to)
        × Queues H.leads me.old handler.old me.new handler.new (many_call me.old.number job.class job.func job.info) queued }
    ensures turns { MakesMore me.old me.new (6 * length (only_if candidate.asked candidate.to)) }
    ensures at_once { confirmed_at me.old (many_record_in candidate.to) ≡ true → HandlesNone me.old me.new × (handler.new ≡ handler.old) }
{
    if !candidate.asked {
        return false;
    }
    let k = many_record(candidate.to);
    wait_for(context, me, handler, k);
    queue(context, me, k, candidate.to, job)
}

/// The mask, without the CPU unless that is kept.
pub(crate) fn without_unless(mask: CpuMask, cpu: u32, keep: bool) -> CpuMask
    ensures kept { keep ≡ true → result ≡ mask }
    ensures out { keep ≡ false → (c : ℕ) → has result c ≡ (has mask c && not (c == cpu)) }
{
    if keep { mask } else { mask.without(cpu) }
}

/// Asks the condition of each of these CPUs, ascending, and queues a call for each that it holds of, just after:
/// for which CPUs, and which of these are owed an interrupt.
pub(crate) fn queue_each<A: Allocator, R: Wait, H: Handler, C: Fn(u32, u64) -> bool>(
    context: CallContext<A, R>,
    me: &mut CallCpu,
    handler: &mut H,
    calls: ManyCalls,
    cond: &C,
) -> (CpuMask, CpuMask)
    requires table { me.old.table ≡ context.table.now.table }
    requires sized { IsSized me.old }
    requires limits { AreLimits context.table.now.nr context.table.now.online }
    requires online { (c : ℕ) → has calls.others c ≡ true → (has context.table.now.online c ≡ true) × (c ≢ me.old.number) }
    requires condition { (c : ℕ) → c < cpus → C.pre cond.now c calls.job.info }
    ensures queued { QueuesEach H.leads me.old handler.old me.new handler.new (λ c answer. C.post cond.now c calls.job.info answer)
        (many_call me.old.number calls.job.class calls.job.func calls.job.info) calls.others result.0 result.1 }
    ensures turns { MakesMore me.old me.new (6 * length (members result.0)) }
    ensures at_once { AreConfirmed me.old (has calls.others) → HandlesNone me.old me.new × (handler.new ≡ handler.old) }
{
    let ManyCalls { others, job } = calls;
    let mut called = others;
    let mut owed = others;
    for cpu in others.iter() {
        let asked = cond(cpu, job.info);
        let candidate = Candidate { to: cpu, asked };
        let first = queue_if(context, me, handler, candidate, job);
        called = without_unless(called, cpu, asked);
        owed = without_unless(owed, cpu, first);
    }
    (called, owed)
}

/// Sends an interrupt to each of these CPUs, which are online.
pub(crate) fn send_each<A: Allocator>(table: &CallTable<A>, me: &mut CallCpu, owed: CpuMask)
    requires table { me.old.table ≡ table.now.table }
    requires online { (c : ℕ) → has owed c ≡ true → has table.now.online c ≡ true }
    ensures { Sends me.old me.new (members owed) }
{
    for cpu in owed.iter() {
        interrupt(table, me, cpu);
    }
}

/// Waits for the record for calls to many of each of these CPUs, which are online.
pub(crate) fn wait_each<A: Allocator, R: Wait, H: Handler>(
    context: CallContext<A, R>,
    me: &mut CallCpu,
    handler: &mut H,
    called: CpuMask,
)
    requires table { me.old.table ≡ context.table.now.table }
    requires sized { IsSized me.old }
    requires limits { AreLimits context.table.now.nr context.table.now.online }
    requires online { (c : ℕ) → has called c ≡ true → has context.table.now.online c ≡ true }
    ensures waited { WaitsFor H.leads me.old handler.old me.new handler.new (members called) true }
    ensures turns { LooksFor me.old me.new (length (members called)) }
{
    for cpu in called.iter() {
        wait_for(context, me, handler, many_record(cpu));
    }
}
