//! The families of calls on a machine: those of `smp_calls`, by a CPU that has no work in hand.
//!
//! Each refuses with E4 where a work is in hand, and else lends the CPU, with its interrupts on, to the page that handles
//! ([`crate::hearing`]). A CPU that waits in a family takes no part in a stop (Linux has preemption off there).

ghost use Rattle.std.specs.Prelude.{◌<◌, ℕ};
ghost use Rattle.smp_words.specs.Size.{cpus};
ghost use Rattle.smp_machine.specs.Answers.{SingleAnswers, AsyncAnswers, AnyAnswers, ManyAnswers, CondAnswers};
ghost use Rattle.smp_machine.specs.MachineCpu.{IsAt};

use crate::context::MachineContext;
use crate::cpu::Cpu;
use crate::hearing::{CallByUser, CallToMask, CallToOne, any, each, many, single, single_async};
use crate::machine::Machine;
use smp_mask::{CpuMask, SmpError};
use smp_queue::Handler;
use std::alloc::Allocator;
use std::sync::Wait;

impl<A: Allocator> Machine<A> {
    /// Calls a function on one CPU (`kernel/smp.c: smp_call_function_single`), as [`smp_calls::call_single`]: on this CPU at
    /// once, with `wait` before any step.
    ///
    /// A call to another CPU is queued at the compare-exchange that wins in its post. It may wait, for the record's last
    /// call and with `wait` for its own; the targets of the calls that it waits for must poll. While it waits, the CPU
    /// handles its own interrupts, once after each look that finds the record locked, and takes no part in a stop.
    ///
    /// E4 where a work is in hand; then E1 where `dst` is another CPU that is not online: with `wait` nothing has changed then.
    pub fn call_single<R: Wait, H: Handler>(
        &self,
        rt: &R,
        me: &mut Cpu<A>,
        handler: &mut H,
        dst: u32,
        func: u16,
        info: u64,
        wait: bool,
    ) -> Result<(), SmpError>
        requires at { IsAt self.now me.old }
        ensures { SingleAnswers H.leads self.now me.old handler.old me.new handler.new dst func info wait result }
    {
        if me.place.in_hand() {
            return Err(SmpError::BadArgument);
        }
        let context = MachineContext { machine: self, rt };
        let call = CallToOne {
            dst,
            func,
            info,
            wait,
        };
        single(context, &mut me.place, handler, call)
    }

    /// Calls a function on one CPU by the user's record `u`, 0 or 1, and does not wait for it
    /// (`kernel/smp.c: smp_call_function_single_async`), as [`smp_calls::call_async`].
    ///
    /// A call to another CPU is queued at the compare-exchange that wins in its post. It waits for no call, but its post
    /// may wait while others change the same head, and `dst` must poll for the call to run.
    ///
    /// E4 where a work is in hand or there is no such record; then E2 where the record's last call is not done; then E1
    /// where `dst` is another CPU that is not online.
    pub fn call_async<R: Wait, H: Handler>(
        &self,
        rt: &R,
        me: &mut Cpu<A>,
        handler: &mut H,
        u: u32,
        dst: u32,
        func: u16,
        info: u64,
    ) -> Result<(), SmpError>
        requires at { IsAt self.now me.old }
        ensures { AsyncAnswers H.leads self.now me.old handler.old me.new handler.new u dst func info result }
    {
        if me.place.in_hand() {
            return Err(SmpError::BadArgument);
        }
        let context = MachineContext { machine: self, rt };
        let call = CallByUser { u, dst, func, info };
        single_async(context, &mut me.place, handler, call)
    }

    /// Calls a function on one CPU of the mask (`kernel/smp.c: smp_call_function_any`), and answers that CPU, as
    /// [`smp_calls::call_any`].
    ///
    /// A call to another CPU is queued at the compare-exchange that wins in its post. It may wait as `call_single` does;
    /// the targets of the calls that it waits for must poll.
    ///
    /// E4 where a work is in hand; then E1 where the mask has neither this CPU nor one that is online: then nothing is
    /// waited for.
    pub fn call_any<R: Wait, H: Handler>(
        &self,
        rt: &R,
        me: &mut Cpu<A>,
        handler: &mut H,
        mask: CpuMask,
        func: u16,
        info: u64,
        wait: bool,
    ) -> Result<u32, SmpError>
        requires at { IsAt self.now me.old }
        ensures { AnyAnswers H.leads self.now me.old handler.old me.new handler.new mask func info wait result }
    {
        if me.place.in_hand() {
            return Err(SmpError::BadArgument);
        }
        let context = MachineContext { machine: self, rt };
        let call = CallToMask {
            mask,
            func,
            info,
            wait,
        };
        any(context, &mut me.place, handler, call)
    }

    /// Calls a function on each online CPU of the mask but this one (`kernel/smp.c: smp_call_function_many`), and answers
    /// the CPUs called, as [`smp_calls::call_many`].
    ///
    /// Each call is queued at the compare-exchange that wins in its post: they are as many steps, not one. It may wait, for
    /// the records and with `wait` for its calls; its targets must poll. While it waits, the CPU handles its own
    /// interrupts, and takes no part in a stop.
    ///
    /// E4 where a work is in hand.
    pub fn call_many<R: Wait, H: Handler>(
        &self,
        rt: &R,
        me: &mut Cpu<A>,
        handler: &mut H,
        mask: CpuMask,
        func: u16,
        info: u64,
        wait: bool,
    ) -> Result<CpuMask, SmpError>
        requires at { IsAt self.now me.old }
        ensures { ManyAnswers H.leads self.now me.old handler.old me.new handler.new mask func info wait result }
    {
        if me.place.in_hand() {
            return Err(SmpError::BadArgument);
        }
        let context = MachineContext { machine: self, rt };
        let call = CallToMask {
            mask,
            func,
            info,
            wait,
        };
        Ok(many(context, &mut me.place, handler, call))
    }

    /// Calls a function on each online CPU of the mask of which the condition holds, this one included
    /// (`kernel/smp.c: on_each_cpu_cond_mask`), and answers the CPUs called, as [`smp_calls::each_cpu_cond`].
    ///
    /// Each call is queued at the compare-exchange that wins in its post: they are as many steps, not one. It may wait, for
    /// the records and with `wait` for its calls; its targets must poll. While it waits, the CPU handles its own
    /// interrupts, and takes no part in a stop.
    ///
    /// E4 where a work is in hand.
    pub fn each_cpu_cond<R: Wait, H: Handler, C: Fn(u32, u64) -> bool>(
        &self,
        rt: &R,
        me: &mut Cpu<A>,
        handler: &mut H,
        mask: CpuMask,
        func: u16,
        info: u64,
        cond: &C,
        wait: bool,
    ) -> Result<CpuMask, SmpError>
        requires at { IsAt self.now me.old }
        requires condition { (c : ℕ) → c < cpus → C.pre cond.now c info }
        ensures { CondAnswers H.leads self.now me.old handler.old me.new handler.new (λ c answer. C.post cond.now c info answer) mask func info wait result }
    {
        if me.place.in_hand() {
            return Err(SmpError::BadArgument);
        }
        let context = MachineContext { machine: self, rt };
        let call = CallToMask {
            mask,
            func,
            info,
            wait,
        };
        Ok(each(context, &mut me.place, handler, call, cond))
    }
}
