//! Calls by the names that Linux gives them, as methods of a [`Caller`]: each is `call_many` or `each_cpu_cond` of all CPUs
//! that are online, or of a mask.

ghost use Rattle.std.specs.Prelude.{◌≡◌, ℕ, true, false, None, Some, if◌then◌else◌, length};
ghost use Rattle.smp_mask.specs.Mask.{has, members};
ghost use Rattle.smp_queue.specs.Handling.{heard};
ghost use Rattle.smp_calls.specs.Ended.{HaveEnded};
ghost use Rattle.smp_calls.specs.Families.{CallsMany};
ghost use Rattle.smp_calls.specs.Records.{many_call, class_for};
ghost use Rattle.smp_calls.specs.Targets.{is_target, remote};
ghost use Rattle.smp_calls.specs.Turns.{HasTurns};

use crate::caller::Caller;
use smp_mask::CpuMask;
use smp_mask::laws::masks_are_sets;
use smp_queue::Handler;
use smp_words::call::Class;
use std::alloc::Allocator;
use std::sync::Wait;

impl<'a, A: Allocator, R: Wait, H: Handler + Drop> Caller<'a, A, R, H> {
    /// Calls a function on each online CPU of the mask, this one included where the mask has it: the CPUs called
    /// (`include/linux/smp.h: on_each_cpu_mask`).
    ///
    /// It is [`Caller::each_cpu_cond`] with a condition that holds of each CPU: each call is queued at the compare-exchange
    /// that wins in its post. It may wait, for the records and with `wait` for its calls; its targets must poll.
    #[tactic(auto, using(crate::proofs::Names::each_is_called))]
    pub fn on_each_cpu_mask(&mut self, mask: CpuMask, func: u16, info: u64, wait: bool) -> CpuMask
        ensures targets { (c : ℕ) → has result c ≡ is_target mask self.old.table.now.online self.old.cpu.number true c }
        ensures calls { CallsMany H.leads self.old.cpu self.old.handler self.new.cpu self.new.handler (remote self.old.cpu.number result) (class_for wait)
            func info (if has result self.old.cpu.number then Some (heard self.old.cpu.number func info) else None) wait }
        ensures turns { HasTurns self.old.cpu self.new.cpu (length (remote self.old.cpu.number result)) wait }
        ensures ended { wait ≡ true → HaveEnded self.new.cpu (many_call self.old.cpu.number Class.Sync func info) (remote self.old.cpu.number result) }
        ensures table { self.new.table.now ≡ self.old.table.now }
    {
        // The CPUs online are among 32, and this CPU is one of them.
        let _limits = self.table.online();
        let _below = self.cpu.number();
        let always = |_cpu: u32, _info: u64| -> bool
            ensures { result ≡ true }
        { true };
        self.each_cpu_cond(mask, func, info, &always, wait)
    }

    /// Calls a function on each CPU that is online, this one included (`include/linux/smp.h: on_each_cpu`): these CPUs.
    ///
    /// It is [`Caller::on_each_cpu_mask`] of the CPUs that are online, and waits as that does.
    #[tactic(auto, using(crate::proofs::Names::all_are_targets))]
    pub fn on_each_cpu(&mut self, func: u16, info: u64, wait: bool) -> CpuMask
        ensures targets { result ≡ self.old.table.now.online }
        ensures calls { CallsMany H.leads self.old.cpu self.old.handler self.new.cpu self.new.handler (remote self.old.cpu.number result) (class_for wait)
            func info (if has result self.old.cpu.number then Some (heard self.old.cpu.number func info) else None) wait }
        ensures turns { HasTurns self.old.cpu self.new.cpu (length (remote self.old.cpu.number result)) wait }
        ensures ended { wait ≡ true → HaveEnded self.new.cpu (many_call self.old.cpu.number Class.Sync func info) (remote self.old.cpu.number result) }
        ensures table { self.new.table.now ≡ self.old.table.now }
    {
        masks_are_sets();
        let online = self.table.online();
        self.on_each_cpu_mask(online, func, info, wait)
    }

    /// Calls a function on each other CPU that is online: these CPUs (`kernel/smp.c: smp_call_function`).
    ///
    /// It is [`Caller::call_many`] of the CPUs that are online, and waits as that does.
    pub fn smp_call_function(&mut self, func: u16, info: u64, wait: bool) -> CpuMask
        ensures targets { (c : ℕ) → has result c ≡ is_target self.old.table.now.online self.old.table.now.online self.old.cpu.number false c }
        ensures calls { CallsMany H.leads self.old.cpu self.old.handler self.new.cpu self.new.handler (members result) (class_for wait) func info None wait }
        ensures turns { HasTurns self.old.cpu self.new.cpu (length (members result)) wait }
        ensures ended { wait ≡ true → HaveEnded self.new.cpu (many_call self.old.cpu.number Class.Sync func info) (members result) }
        ensures table { self.new.table.now ≡ self.old.table.now }
    {
        let online = self.table.online();
        self.call_many(online, func, info, wait)
    }

    /// Makes each other CPU that is online run a function that does nothing, and waits until each has: these CPUs
    /// (`kernel/smp.c: kick_all_cpus_sync`, with its `do_nothing`). What a CPU does from then on it does after what this CPU
    /// had done before the call.
    ///
    /// `nothing` is the function that does nothing at the handlers of those CPUs. It is [`Caller::smp_call_function`] with
    /// wait, of that function with info 0; those CPUs must poll.
    pub fn kick_all_cpus_sync(&mut self, nothing: u16) -> CpuMask
        ensures targets { (c : ℕ) → has result c ≡ is_target self.old.table.now.online self.old.table.now.online self.old.cpu.number false c }
        ensures calls { CallsMany H.leads self.old.cpu self.old.handler self.new.cpu self.new.handler (members result) Class.Sync nothing 0 None true }
        ensures turns { HasTurns self.old.cpu self.new.cpu (length (members result)) true }
        ensures ended { HaveEnded self.new.cpu (many_call self.old.cpu.number Class.Sync nothing 0) (members result) }
        ensures table { self.new.table.now ≡ self.old.table.now }
    {
        self.smp_call_function(nothing, 0, true)
    }
}
