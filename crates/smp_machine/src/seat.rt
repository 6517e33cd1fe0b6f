//! A seat: a CPU with its machine, its runtime, its handler and its stop function, so that a call names what it calls alone.

ghost use Rattle.std.specs.Prelude.{◌≡◌, ◌<◌};
ghost use Rattle.smp_words.specs.Limits.{AreLimits};
ghost use Rattle.smp_words.specs.Size.{cpus};
ghost use Rattle.smp_machine.specs.MachineCpu.{IsAt};

use crate::cpu::Cpu;
use crate::machine::Machine;
use smp_mask::CpuMask;
use smp_multi::StopFunc;
use smp_queue::Handler;
use std::alloc::Allocator;
use std::marker::Model;
use std::sync::Wait;

/// A CPU of a machine, with the handler that runs the calls that it hears, and the stop function that runs its stops. Each
/// method is the call of the [`Machine`] of that name, and promises the same. Its CPU is always one of its machine.
#[derive(Drop)]
pub struct Seat<'m, A: Allocator, R: Wait, H: Handler + Drop, F: StopFunc + Drop> {
    /// The machine of the CPU.
    pub machine: &'m Machine<A>,
    /// The runtime by which its calls wait.
    pub rt: &'m R,
    /// The CPU itself, for the other calls of its machine.
    pub cpu: Cpu<A>,
    /// What runs the calls that it hears.
    pub handler: H,
    /// What runs the functions of the stops that it takes part in.
    pub functions: F,
}

impl<'m, A: Allocator, R: Wait, H: Handler + Drop, F: StopFunc + Drop> Model
    for Seat<'m, A, R, H, F> {
    ghost use Rattle.smp_machine.specs.MachineCpu.{IsAt};
    ghost use Rattle.smp_machine.specs.Seats.{SeatValue};

    ghost Value = { SeatValue H F };

    ghost view = { λ s. record { machine = s.machine.now; cpu = s.cpu; handler = s.handler; functions = s.functions } };

    ghost invariant = { λ s. IsAt s.machine.now s.cpu };
}

impl<'m, A: Allocator, R: Wait, H: Handler + Drop, F: StopFunc + Drop> Seat<'m, A, R, H, F> {
    /// A CPU of this machine, with its handler and its stop function. It makes no step, and does not wait.
    pub fn new(
        machine: &'m Machine<A>,
        rt: &'m R,
        cpu: Cpu<A>,
        handler: H,
        functions: F,
    ) -> Seat<'m, A, R, H, F>
        requires { IsAt machine.now cpu }
        ensures { result ≡ record { machine = machine.now; cpu = cpu; handler = handler; functions = functions } }
    {
        Seat {
            machine,
            rt,
            cpu,
            handler,
            functions,
        }
    }

    /// Gives the CPU back, with its handler and its stop function. It makes no step, and does not wait.
    pub fn into_parts(self) -> (Cpu<A>, H, F)
        ensures parts { (result.0 ≡ self.entry.cpu) × (result.1 ≡ self.entry.handler) × (result.2 ≡ self.entry.functions) }
        ensures at { IsAt self.entry.machine result.0 }
    {
        let Seat {
            cpu,
            handler,
            functions,
            ..
        } = self;
        (cpu, handler, functions)
    }

    /// The CPUs of its machine that are online. No step of a table.
    pub fn online(&self) -> CpuMask
        ensures calls { result ≡ self.now.machine.calls.online }
        ensures stops { result ≡ self.now.machine.stops.setting.online }
        ensures limits { AreLimits self.now.machine.calls.nr result }
    {
        self.machine.online()
    }

    /// The CPU's number, which is below `NR_CPUS`. No step of a table.
    pub fn number(&self) -> u32
        ensures number { result ≡ self.now.cpu.calls.number }
        ensures below { result < cpus }
    {
        self.cpu.number()
    }
}
