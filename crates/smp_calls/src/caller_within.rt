//! A call to many CPUs that gives up waiting, as a method of a [`Caller`].

ghost use Rattle.std.specs.Prelude.{◌≡◌, false};
ghost use Rattle.smp_calls.specs.Targets.{is_target};
ghost use Rattle.smp_calls.specs.Within.{CallsWithin};

use crate::caller::Caller;
use crate::many_within::{Within, call_many_within};
use smp_mask::CpuMask;
use smp_queue::Handler;
use std::alloc::Allocator;
use std::sync::Wait;

impl<'a, A: Allocator, R: Wait, H: Handler + Drop> Caller<'a, A, R, H> {
    /// Calls a function on each online CPU of the mask but this one, and gives up waiting after some polls, as
    /// [`call_many_within`]: the CPUs called, and those that have not answered.
    ///
    /// Each call is queued at the compare-exchange that wins in its post: they are as many steps, not one. It waits for no CPU
    /// longer than its polls. A call to a CPU that has not answered stays queued. It refuses nothing.
    pub fn call_many_within(&mut self, mask: CpuMask, func: u16, info: u64, polls: u32) -> Within
        ensures calls { CallsWithin H.leads self.old.cpu self.old.handler self.new.cpu self.new.handler func info
            (is_target mask self.old.table.now.online self.old.cpu.number false) result.called result.silent polls }
        ensures table { self.new.table.now ≡ self.old.table.now }
    {
        call_many_within(
            self.table,
            self.rt,
            &mut self.cpu,
            &mut self.handler,
            mask,
            func,
            info,
            polls,
        )
    }
}
