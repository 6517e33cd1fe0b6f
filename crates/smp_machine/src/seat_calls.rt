//! The families of calls of a seat.

ghost use Rattle.std.specs.Prelude.{◌≡◌, ◌<◌, ℕ};
ghost use Rattle.smp_words.specs.Size.{cpus};
ghost use Rattle.smp_machine.specs.Answers.{SingleAnswers, AsyncAnswers, AnyAnswers, ManyAnswers, CondAnswers};
ghost use Rattle.smp_machine.specs.Seats.{IsSameSeat};

use crate::seat::Seat;
use smp_mask::{CpuMask, SmpError};
use smp_multi::StopFunc;
use smp_queue::Handler;
use std::alloc::Allocator;
use std::sync::Wait;

impl<'m, A: Allocator, R: Wait, H: Handler + Drop, F: StopFunc + Drop> Seat<'m, A, R, H, F> {
    /// Calls a function on one CPU, as [`crate::Machine::call_single`] (`kernel/smp.c: smp_call_function_single`): on this CPU
    /// at once, with `wait` before any step.
    ///
    /// A call to another CPU is queued at the compare-exchange that wins in its post. It may wait, for the record's last
    /// call and with `wait` for its own; the targets of the calls that it waits for must poll. While it waits, the CPU
    /// handles its own interrupts, and takes no part in a stop.
    ///
    /// E4 (`SmpError::BadArgument`) where a work is in hand; then E1 (`SmpError::NoCpu`) where `dst` is another CPU that is
    /// not online: with `wait` nothing has changed then.
    #[tactic(auto, using(crate::proofs::Seats::at_called))]
    pub fn call_single(
        &mut self,
        dst: u32,
        func: u16,
        info: u64,
        wait: bool,
    ) -> Result<(), SmpError>
        ensures answers { SingleAnswers H.leads self.old.machine self.old.cpu self.old.handler self.new.cpu self.new.handler dst func info wait result }
        ensures functions { self.new.functions ≡ self.old.functions }
        ensures same { IsSameSeat self.old self.new }
    {
        let (rt, cpu, handler) = (self.rt, &mut self.cpu, &mut self.handler);
        self.machine
            .call_single(rt, cpu, handler, dst, func, info, wait)
    }

    /// Calls a function on one CPU by the user's record `u`, 0 or 1, and does not wait for it, as
    /// [`crate::Machine::call_async`] (`kernel/smp.c: smp_call_function_single_async`).
    ///
    /// A call to another CPU is queued at the compare-exchange that wins in its post. It waits for no call, but its post
    /// may wait while others change the same head, and `dst` must poll for the call to run.
    ///
    /// E4 (`SmpError::BadArgument`) where a work is in hand or there is no such record; then E2 (`SmpError::Busy`) where the
    /// record's last call is not done; then E1 (`SmpError::NoCpu`) where `dst` is another CPU that is not online.
    #[tactic(auto, using(crate::proofs::Seats::at_called))]
    pub fn call_async(&mut self, u: u32, dst: u32, func: u16, info: u64) -> Result<(), SmpError>
        ensures answers { AsyncAnswers H.leads self.old.machine self.old.cpu self.old.handler self.new.cpu self.new.handler u dst func info result }
        ensures functions { self.new.functions ≡ self.old.functions }
        ensures same { IsSameSeat self.old self.new }
    {
        let (rt, cpu, handler) = (self.rt, &mut self.cpu, &mut self.handler);
        self.machine
            .call_async(rt, cpu, handler, u, dst, func, info)
    }

    /// Calls a function on one CPU of the mask, and answers that CPU, as [`crate::Machine::call_any`]
    /// (`kernel/smp.c: smp_call_function_any`): this CPU where the mask has it, else the lowest that is online.
    ///
    /// A call to another CPU is queued at the compare-exchange that wins in its post. It may wait as `call_single` does;
    /// the targets of the calls that it waits for must poll.
    ///
    /// E4 (`SmpError::BadArgument`) where a work is in hand; then E1 (`SmpError::NoCpu`) where there is no such CPU: then
    /// nothing is waited for.
    #[tactic(auto, using(crate::proofs::Seats::at_called))]
    pub fn call_any(
        &mut self,
        mask: CpuMask,
        func: u16,
        info: u64,
        wait: bool,
    ) -> Result<u32, SmpError>
        ensures answers { AnyAnswers H.leads self.old.machine self.old.cpu self.old.handler self.new.cpu self.new.handler mask func info wait result }
        ensures functions { self.new.functions ≡ self.old.functions }
        ensures same { IsSameSeat self.old self.new }
    {
        let (rt, cpu, handler) = (self.rt, &mut self.cpu, &mut self.handler);
        self.machine
            .call_any(rt, cpu, handler, mask, func, info, wait)
    }

    /// Calls a function on each online CPU of the mask but this one, and answers the CPUs called, as
    /// [`crate::Machine::call_many`] (`kernel/smp.c: smp_call_function_many`).
    ///
    /// Each call is queued at the compare-exchange that wins in its post: they are as many steps, not one. It may wait, for
    /// the records and with `wait` for its calls; its targets must poll. While it waits, the CPU handles its own
    /// interrupts, and takes no part in a stop.
    ///
    /// E4 (`SmpError::BadArgument`) where a work is in hand.
    #[tactic(auto, using(crate::proofs::Seats::at_called))]
    pub fn call_many(
        &mut self,
        mask: CpuMask,
        func: u16,
        info: u64,
        wait: bool,
    ) -> Result<CpuMask, SmpError>
        ensures answers { ManyAnswers H.leads self.old.machine self.old.cpu self.old.handler self.new.cpu self.new.handler mask func info wait result }
        ensures functions { self.new.functions ≡ self.old.functions }
        ensures same { IsSameSeat self.old self.new }
    {
        let (rt, cpu, handler) = (self.rt, &mut self.cpu, &mut self.handler);
        self.machine
            .call_many(rt, cpu, handler, mask, func, info, wait)
    }

    /// Calls a function on each online CPU of the mask of which the condition holds, this one included, and answers the CPUs
    /// called, as [`crate::Machine::each_cpu_cond`] (`kernel/smp.c: on_each_cpu_cond_mask`).
    ///
    /// Each call is queued at the compare-exchange that wins in its post: they are as many steps, not one. It may wait, for
    /// the records and with `wait` for its calls; its targets must poll. While it waits, the CPU handles its own
    /// interrupts, and takes no part in a stop.
    ///
    /// E4 (`SmpError::BadArgument`) where a work is in hand.
    #[tactic(auto, using(crate::proofs::Seats::at_called))]
    pub fn each_cpu_cond<C: Fn(u32, u64) -> bool>(
        &mut self,
        mask: CpuMask,
        func: u16,
        info: u64,
        cond: &C,
        wait: bool,
    ) -> Result<CpuMask, SmpError>
        requires { (c : ℕ) → c < cpus → C.pre cond.now c info }
        ensures answers { CondAnswers H.leads self.old.machine self.old.cpu self.old.handler self.new.cpu self.new.handler
            (λ c answer. C.post cond.now c info answer) mask func info wait result }
        ensures functions { self.new.functions ≡ self.old.functions }
        ensures same { IsSameSeat self.old self.new }
    {
        let (rt, cpu, handler) = (self.rt, &mut self.cpu, &mut self.handler);
        self.machine
            .each_cpu_cond(rt, cpu, handler, mask, func, info, cond, wait)
    }
}
