//! A user's proof, by public clauses alone: each call that was waited for has ended.

ghost use Rattle.std.specs.Prelude.{◌≡◌, ℕ, false};
ghost use Rattle.smp_mask.specs.Mask.{has, members};
ghost use Rattle.smp_calls.specs.Ended.{HaveEnded};
ghost use Rattle.smp_calls.specs.Records.{many_call};
ghost use Rattle.smp_calls.specs.Targets.{is_target};

use smp_calls::Caller;
use smp_mask::CpuMask;
use smp_queue::Handler;
use smp_words::call::Class;
use std::alloc::Allocator;
use std::sync::Wait;

/// The function that drops an address space from a CPU's TLB.
const FLUSH: u16 = 1;

/// Drops an address space from the TLBs of these CPUs: the CPUs called, each of which has run the function.
fn shoot_down<A: Allocator, R: Wait, H: Handler + Drop>(
    me: &mut Caller<A, R, H>,
    users: CpuMask,
    space: u64,
) -> CpuMask
    ensures targets { (c : ℕ) → has result c ≡ is_target users me.old.table.now.online me.old.cpu.number false c }
    ensures ended { HaveEnded me.new.cpu (many_call me.old.cpu.number Class.Sync 1 space) (members result) }
{
    me.call_many(users, FLUSH, space, true)
}
