//! A call to many CPUs on a machine that gives up waiting, and says which of them have not answered.

ghost use Rattle.smp_machine.specs.Answers.{WithinAnswers};
ghost use Rattle.smp_machine.specs.MachineCpu.{IsAt};

use crate::context::MachineContext;
use crate::cpu::Cpu;
use crate::hearing::{CallForPolls, many_within};
use crate::machine::Machine;
use smp_calls::Within;
use smp_mask::{CpuMask, SmpError};
use smp_queue::Handler;
use std::alloc::Allocator;
use std::sync::Wait;

impl<A: Allocator> Machine<A> {
    /// Calls a function on each online CPU of the mask but this one, and gives up waiting after some polls
    /// (`kernel/smp.c: csd_lock_wait_toolong`): the CPUs called, and those that have not answered, as
    /// [`smp_calls::call_many_within`].
    ///
    /// Each call is queued at the compare-exchange that wins in its post: they are as many steps, not one. It waits for no CPU
    /// longer than its polls; only its posts may wait while others change the same head. While it waits, the CPU handles its
    /// own interrupts, and takes no part in a stop. A call to a CPU that has not answered stays queued.
    ///
    /// E4 where a work is in hand.
    pub fn call_many_within<R: Wait, H: Handler>(
        &self,
        rt: &R,
        me: &mut Cpu<A>,
        handler: &mut H,
        mask: CpuMask,
        func: u16,
        info: u64,
        polls: u32,
    ) -> Result<Within, SmpError>
        requires at { IsAt self.now me.old }
        ensures { WithinAnswers H.leads self.now me.old handler.old me.new handler.new mask func info polls result }
    {
        if me.place.in_hand() {
            return Err(SmpError::BadArgument);
        }
        let context = MachineContext { machine: self, rt };
        let call = CallForPolls {
            mask,
            func,
            info,
            polls,
        };
        Ok(many_within(context, &mut me.place, handler, call))
    }
}
