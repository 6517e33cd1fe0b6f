//! A call to many CPUs by a seat that gives up waiting, and says which of them have not answered.

ghost use Rattle.std.specs.Prelude.{◌≡◌};
ghost use Rattle.smp_machine.specs.Answers.{WithinAnswers};
ghost use Rattle.smp_machine.specs.Seats.{IsSameSeat};

use crate::seat::Seat;
use smp_calls::Within;
use smp_mask::{CpuMask, SmpError};
use smp_multi::StopFunc;
use smp_queue::Handler;
use std::alloc::Allocator;
use std::sync::Wait;

impl<'m, A: Allocator, R: Wait, H: Handler + Drop, F: StopFunc + Drop> Seat<'m, A, R, H, F> {
    /// Calls a function on each online CPU of the mask but this one, and gives up waiting after some polls: the CPUs called, and
    /// those that have not answered, as [`crate::Machine::call_many_within`].
    ///
    /// Each call is queued at the compare-exchange that wins in its post: they are as many steps, not one. It waits for no CPU
    /// longer than its polls. A call to a CPU that has not answered stays queued.
    ///
    /// E4 (`SmpError::BadArgument`) where a work is in hand.
    #[tactic(auto, using(crate::proofs::Seats::at_called))]
    pub fn call_many_within(
        &mut self,
        mask: CpuMask,
        func: u16,
        info: u64,
        polls: u32,
    ) -> Result<Within, SmpError>
        ensures answers { WithinAnswers H.leads self.old.machine self.old.cpu self.old.handler self.new.cpu self.new.handler mask func info polls result }
        ensures functions { self.new.functions ≡ self.old.functions }
        ensures same { IsSameSeat self.old self.new }
    {
        let (rt, cpu, handler) = (self.rt, &mut self.cpu, &mut self.handler);
        self.machine
            .call_many_within(rt, cpu, handler, mask, func, info, polls)
    }
}
