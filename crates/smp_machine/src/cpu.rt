//! A CPU as callers hold it.

ghost use Rattle.std.specs.Prelude.{◌≡◌, ◌<◌};
ghost use Rattle.smp_words.specs.Size.{cpus};

use crate::machine_cpu::MachineCpu;
use std::alloc::Allocator;
use std::marker::Model;

/// One CPU of a machine, seen as its part of the calls, of the stops and of the stopper queues. Only calls with this
/// value change these. Between two calls it does not hold the gate, and no stop of its own is left to collect. It may
/// move to another thread.
#[derive(Drop)]
pub struct Cpu<A: Allocator> {
    pub(crate) place: MachineCpu<A>,
}

impl<A: Allocator> Model for Cpu<A> {
    ghost use Rattle.smp_machine.specs.MachineCpu.{MachineCpuValue, IsQuiet};

    ghost Value = { MachineCpuValue };

    ghost view = { λ c. c.place };

    ghost invariant = { λ c. IsQuiet c.place };
}

impl<A: Allocator> Cpu<A> {
    /// The CPU's number, which is below `NR_CPUS`. No step of a table.
    pub fn number(&self) -> u32
        ensures number { (result ≡ self.now.calls.number) × (result ≡ self.now.stops.number) × (result ≡ self.now.passes.number) }
        ensures below { result < cpus }
    {
        self.place.number()
    }
}
