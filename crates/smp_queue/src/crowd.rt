//! CPUs of one table, all at one moment.

ghost use Rattle.std.specs.Prelude.{◌≡◌, [], ◌∷◌};
ghost use Rattle.smp_start.specs.Crowd.{StandsFirst};
ghost use Rattle.smp_queue.specs.Together.{AllRunWhatIsSent, AreAllTogether, values};

use crate::cpu::CallCpu;
use crate::seat::{CallSeatCrowd, all_together, gather, give, take};
use crate::table::CallTable;
use std::alloc::Allocator;
use std::marker::Model;

/// CPUs of one table that are looked at together, the one that came last first. While a CPU is here, its value names a table that
/// there is not, so no call can be made with it. It has no bytes.
#[derive(Drop)]
pub struct CallCrowd {
    seats: CallSeatCrowd,
}

impl Model for CallCrowd {
    ghost use Rattle.smp_queue.specs.Together.{CrowdValue, crowd_of};

    ghost Value = { CrowdValue };

    ghost view = { λ c. crowd_of c.seats };
}

impl CallCrowd {
    /// Takes a CPU of the table in. It makes no step.
    pub fn take(&mut self, cpu: &mut CallCpu)
        requires { cpu.old.table ≡ self.old.table }
        ensures cpu { cpu.new ≡ record cpu.old { table = cpu.new.table } }
        ensures taken { self.new ≡ record { table = self.old.table; cpus = (cpu.new.table, cpu.old) ∷ self.old.cpus } }
    {
        take(&mut self.seats, &mut cpu.seat);
    }

    /// Gives the CPU that came last back to its table. It makes no step.
    pub fn give(&mut self, cpu: &mut CallCpu)
        requires { StandsFirst cpu.old.table self.old.cpus }
        ensures cpu { cpu.new ≡ record cpu.old { table = self.old.table } }
        ensures given { self.old ≡ record { table = self.new.table; cpus = (cpu.old.table, cpu.new) ∷ self.new.cpus } }
    {
        give(&mut self.seats, &mut cpu.seat);
    }
}

impl<A: Allocator> CallTable<A> {
    /// A crowd of no CPUs.
    pub fn crowd(&self) -> CallCrowd
        ensures { result ≡ record { table = self.now.table; cpus = [] } }
    {
        CallCrowd {
            seats: gather(self.words()),
        }
    }

    /// All CPUs of a crowd at one moment, whatever other threads do: their values are their parts of the same calls, to which
    /// steps that the CPUs may make lead from nothing called (`same`). In each class, the calls of any of them that have begun on
    /// another one are the first of those that it has sent there (`runs`).
    ///
    /// It makes no step and does not wait, and nobody must poll.
    pub fn all_together(&self, crowd: &mut CallCrowd)
        requires { crowd.old.table ≡ self.now.table }
        ensures kept { crowd.new ≡ crowd.old }
        ensures same { AreAllTogether (values crowd.old.cpus) }
        ensures runs { AllRunWhatIsSent (values crowd.old.cpus) }
    {
        all_together(self.words(), &mut crowd.seats);
    }
}
