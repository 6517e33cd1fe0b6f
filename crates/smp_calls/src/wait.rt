//! Waiting for a record: the CPU handles its own interrupts meanwhile.

ghost use Rattle.std.specs.Prelude.{◌≡◌, ◌≢◌, ◌+◌, ◌<◌, ◌==◌, ◌||◌, ◌++◌, ◌∷◌, None, [], true, false, if◌then◌else◌, length};
ghost use Rattle.smp_call_steps.specs.Start.{has_record};
ghost use Rattle.smp_queue.specs.Cpu.{confirmed_at, confirms, looks};
ghost use Rattle.smp_calls.specs.Families.{IsSized, Leaves, Awaits, owes_at};

use crate::context::CallContext;
use smp_queue::{CallCpu, CallTable, Handler};
use std::alloc::Allocator;
use std::sync::Wait;

/// Whether the record is unlocked, by one step; if so, it is confirmed.
pub(crate) fn is_done<A: Allocator>(table: &CallTable<A>, me: &mut CallCpu, k: u32) -> bool
    requires table { me.old.table ≡ table.now.table }
    requires record { has_record table.now.nr k ≡ true }
    ensures known { me.new ≡ looks (if result then confirms k me.old else me.old) }
    ensures locked { result ≡ false → confirmed_at me.old k ≢ true }
{
    match table.is_done(me, k) {
        Ok(done) => done,
        Err(_) => unreachable!(),
    }
}

/// Handles the CPU's own interrupt, if one is pending; whether one was.
pub(crate) fn handle_own<A: Allocator, R: Wait, H: Handler>(
    context: CallContext<A, R>,
    me: &mut CallCpu,
    handler: &mut H,
) -> bool
    requires { me.old.table ≡ context.table.now.table }
    ensures left { Leaves H.leads me.old handler.old me.new handler.new [] [] (owes_at me.old) (confirmed_at me.old) }
    ensures once { (me.new.steps ≡ me.old.steps) × (length me.new.part.asked ≡ length me.old.part.asked + 1)
        × (me.new.asked_after ≡ me.old.asked_after ++ me.old.steps ∷ []) }
    ensures tried { me.new.tried ≡ me.old.tried }
{
    context.table.handle(me, handler).interrupted
}

/// Waits until the record is unlocked, and handles the CPU's own interrupts meanwhile, once after each look at the record that
/// finds it locked (`kernel/smp.c: csd_lock_wait`, with interrupts on).
pub(crate) fn wait_for<A: Allocator, R: Wait, H: Handler>(
    context: CallContext<A, R>,
    me: &mut CallCpu,
    handler: &mut H,
    k: u32,
)
    requires table { me.old.table ≡ context.table.now.table }
    requires sized { IsSized me.old }
    requires record { has_record context.table.now.nr k ≡ true }
    ensures left { Leaves H.leads me.old handler.old me.new handler.new [] [] (owes_at me.old) (λ j. j == k || confirmed_at me.old j) }
    ensures turns { Awaits k me.old handler.old me.new handler.new }
{
    let mut pause = context.table.pause(me);
    for _ in context.rt.forever() {
        pause.before_look();
        if is_done(context.table, me, k) {
            return;
        }
        let interrupted = handle_own(context, me, handler);
        pause.after_look(context.rt, interrupted);
    }
    unreachable!()
}
