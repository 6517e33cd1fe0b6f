//! Waiting no longer than some polls.

ghost use Rattle.std.specs.Prelude.{◌≡◌, ◌≢◌, ℕ, ◌+◌, ◌≤◌, ◌&&◌, ◌||◌, ◌==◌, not, true, false, [], length};
ghost use Rattle.smp_mask.specs.Mask.{has};
ghost use Rattle.smp_words.specs.Limits.{AreLimits};
ghost use Rattle.smp_call_steps.specs.Start.{has_record};
ghost use Rattle.smp_queue.specs.Cpu.{confirmed_at};
ghost use Rattle.smp_calls.specs.Families.{IsSized, Leaves, owes_at};
ghost use Rattle.smp_calls.specs.Turns.{TakesApart};
ghost use Rattle.smp_calls.specs.Within.{WaitsWithin};

use crate::context::CallContext;
use crate::each::without_unless;
use crate::records::many_record;
use crate::wait::{handle_own, is_done};
use crossbeam_utils::Backoff;
use smp_mask::CpuMask;
use smp_queue::{CallCpu, Handler};
use std::alloc::Allocator;
use std::sync::Wait;

/// Looks at the record until it is found unlocked, and handles the CPU's own interrupts after each look but the last, at most
/// `polls` times: whether it was unlocked, and how many polls are left.
fn poll_until<A: Allocator, R: Wait, H: Handler>(
    context: CallContext<A, R>,
    me: &mut CallCpu,
    handler: &mut H,
    k: u32,
    polls: u32,
) -> (bool, u32)
    requires table { me.old.table ≡ context.table.now.table }
    requires sized { IsSized me.old }
    requires record { has_record context.table.now.nr k ≡ true }
    ensures left { Leaves H.leads me.old handler.old me.new handler.new [] [] (owes_at me.old) (λ j. (result.0 && j == k) || confirmed_at me.old j) }
    ensures locked { result.0 ≡ false → (confirmed_at me.old k ≡ false) × (result.1 ≡ 0) }
    ensures turns { me.new.steps + length me.old.part.asked ≡ me.old.steps + (1 + length me.new.part.asked) }
    ensures apart { TakesApart me.old me.new }
    ensures polled { length me.new.part.asked + result.1 ≡ length me.old.part.asked + polls }
    ensures fewer { result.1 ≤ polls }
    ensures at_once { confirmed_at me.old k ≡ true → length me.new.part.asked ≡ length me.old.part.asked }
{
    let backoff = Backoff::new();
    for made in 0..polls {
        if is_done(context.table, me, k) {
            return (true, polls - made);
        }
        handle_own(context, me, handler);
        backoff.snooze();
    }
    let done = is_done(context.table, me, k);
    (done, 0)
}

/// Waits for the record for calls to many of each of these CPUs, which are online, with at most `polls` polls in all: the CPUs
/// whose record was found unlocked, and those whose record the last look has found locked.
pub(crate) fn wait_within<A: Allocator, R: Wait, H: Handler>(
    context: CallContext<A, R>,
    me: &mut CallCpu,
    handler: &mut H,
    called: CpuMask,
    polls: u32,
) -> (CpuMask, CpuMask)
    requires table { me.old.table ≡ context.table.now.table }
    requires sized { IsSized me.old }
    requires limits { AreLimits context.table.now.nr context.table.now.online }
    requires online { (c : ℕ) → has called c ≡ true → has context.table.now.online c ≡ true }
    ensures { WaitsWithin H.leads me.old handler.old me.new handler.new called result.0 result.1 polls }
{
    let mut answered = called;
    let mut silent = called;
    let mut left = polls;
    for cpu in called.iter() {
        let (done, rest) = poll_until(context, me, handler, many_record(cpu), left);
        left = rest;
        answered = without_unless(answered, cpu, done);
        silent = without_unless(silent, cpu, !done);
    }
    (answered, silent)
}
