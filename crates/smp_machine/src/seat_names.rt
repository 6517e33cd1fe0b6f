//! Calls of a seat by the names that Linux gives them: each is `call_many` or `each_cpu_cond` of all CPUs that are online, or
//! of a mask.

ghost use Rattle.std.specs.Prelude.{◌≡◌, true, IfOk};
ghost use Rattle.smp_machine.specs.Answers.{EachAnswers, ManyAnswers};
ghost use Rattle.smp_machine.specs.Seats.{IsSameSeat};

use crate::seat::Seat;
use smp_mask::laws::masks_are_sets;
use smp_mask::{CpuMask, SmpError};
use smp_multi::StopFunc;
use smp_queue::Handler;
use std::alloc::Allocator;
use std::sync::Wait;

impl<'m, A: Allocator, R: Wait, H: Handler + Drop, F: StopFunc + Drop> Seat<'m, A, R, H, F> {
    /// Calls a function on each online CPU of the mask, this one included where the mask has it: the CPUs called
    /// (`include/linux/smp.h: on_each_cpu_mask`).
    ///
    /// It is [`Seat::each_cpu_cond`] with a condition that holds of each CPU: each call is queued at the compare-exchange
    /// that wins in its post. It may wait, for the records and with `wait` for its calls; its targets must poll.
    ///
    /// E4 (`SmpError::BadArgument`) where a work is in hand.
    pub fn on_each_cpu_mask(
        &mut self,
        mask: CpuMask,
        func: u16,
        info: u64,
        wait: bool,
    ) -> Result<CpuMask, SmpError>
        ensures answers { EachAnswers H.leads self.old.machine self.old.cpu self.old.handler self.new.cpu self.new.handler mask func info wait result }
        ensures functions { self.new.functions ≡ self.old.functions }
        ensures same { IsSameSeat self.old self.new }
    {
        // The CPUs online are among 32, and this CPU is one of them.
        let _limits = self.online();
        let _below = self.number();
        let always = |_cpu: u32, _info: u64| -> bool
            ensures { result ≡ true }
        { true };
        self.each_cpu_cond(mask, func, info, &always, wait)
    }

    /// Calls a function on each CPU that is online, this one included (`include/linux/smp.h: on_each_cpu`): these CPUs.
    ///
    /// It is [`Seat::on_each_cpu_mask`] of the CPUs that are online, and waits as that does.
    ///
    /// E4 (`SmpError::BadArgument`) where a work is in hand.
    pub fn on_each_cpu(&mut self, func: u16, info: u64, wait: bool) -> Result<CpuMask, SmpError>
        ensures answers { EachAnswers H.leads self.old.machine self.old.cpu self.old.handler self.new.cpu self.new.handler
            self.old.machine.calls.online func info wait result }
        ensures all { IfOk result (λ called. called ≡ self.old.machine.calls.online) }
        ensures functions { self.new.functions ≡ self.old.functions }
        ensures same { IsSameSeat self.old self.new }
    {
        masks_are_sets();
        let online = self.online();
        self.on_each_cpu_mask(online, func, info, wait)
    }

    /// Calls a function on each other CPU that is online: these CPUs (`kernel/smp.c: smp_call_function`).
    ///
    /// It is [`Seat::call_many`] of the CPUs that are online, and waits as that does.
    ///
    /// E4 (`SmpError::BadArgument`) where a work is in hand.
    pub fn smp_call_function(
        &mut self,
        func: u16,
        info: u64,
        wait: bool,
    ) -> Result<CpuMask, SmpError>
        ensures answers { ManyAnswers H.leads self.old.machine self.old.cpu self.old.handler self.new.cpu self.new.handler
            self.old.machine.calls.online func info wait result }
        ensures functions { self.new.functions ≡ self.old.functions }
        ensures same { IsSameSeat self.old self.new }
    {
        let online = self.online();
        self.call_many(online, func, info, wait)
    }

    /// Makes each other CPU that is online run a function that does nothing, and waits until each has: these CPUs
    /// (`kernel/smp.c: kick_all_cpus_sync`, with its `do_nothing`).
    ///
    /// `nothing` is the function that does nothing at the handlers of those CPUs; at [`crate::Silent`] each does. It is
    /// [`Seat::smp_call_function`] with wait, of that function with info 0; those CPUs must poll.
    ///
    /// E4 (`SmpError::BadArgument`) where a work is in hand.
    pub fn kick_all_cpus_sync(&mut self, nothing: u16) -> Result<CpuMask, SmpError>
        ensures answers { ManyAnswers H.leads self.old.machine self.old.cpu self.old.handler self.new.cpu self.new.handler
            self.old.machine.calls.online nothing 0 true result }
        ensures functions { self.new.functions ≡ self.old.functions }
        ensures same { IsSameSeat self.old self.new }
    {
        self.smp_call_function(nothing, 0, true)
    }
}
