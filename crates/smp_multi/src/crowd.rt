//! CPUs of one table, all at one moment.

ghost use Rattle.std.specs.Prelude.{◌≡◌, [], ◌∷◌};
ghost use Rattle.smp_start.specs.Crowd.{StandsFirst};
ghost use Rattle.smp_multi.specs.Together.{AllAreInStep, AllWaitFor, AreAllTogether, values};

use crate::cpu::StopCpu;
use crate::seat::{StopSeatCrowd, all_together, gather, give, take};
use crate::table::StopTable;
use std::alloc::Allocator;
use std::marker::Model;

/// CPUs of one table that are looked at together, the one that came last first. While a CPU is here, its value names a table that
/// there is not, so no call can be made with it. It has no bytes.
#[derive(Drop)]
pub struct StopCrowd {
    seats: StopSeatCrowd,
}

impl Model for StopCrowd {
    ghost use Rattle.smp_multi.specs.Together.{CrowdValue, crowd_of};

    ghost Value = { CrowdValue };

    ghost view = { λ c. crowd_of c.seats };
}

impl StopCrowd {
    /// Takes a CPU of the table in. It makes no step.
    pub fn take(&mut self, cpu: &mut StopCpu)
        requires { cpu.old.table ≡ self.old.table }
        ensures cpu { cpu.new ≡ record cpu.old { table = cpu.new.table } }
        ensures taken { self.new ≡ record { table = self.old.table; cpus = (cpu.new.table, cpu.old) ∷ self.old.cpus } }
    {
        take(&mut self.seats, &mut cpu.seat);
    }

    /// Gives the CPU that came last back to its table. It makes no step.
    pub fn give(&mut self, cpu: &mut StopCpu)
        requires { StandsFirst cpu.old.table self.old.cpus }
        ensures cpu { cpu.new ≡ record cpu.old { table = self.old.table } }
        ensures given { self.old ≡ record { table = self.new.table; cpus = (cpu.old.table, cpu.new) ∷ self.new.cpus } }
    {
        give(&mut self.seats, &mut cpu.seat);
    }
}

impl<A: Allocator> StopTable<A> {
    /// A crowd of no CPUs.
    pub fn crowd(&self) -> StopCrowd
        ensures { result ≡ record { table = self.now.table; cpus = [] } }
    {
        StopCrowd {
            seats: gather(self.owner.words()),
        }
    }

    /// All CPUs of a crowd at one moment, whatever other threads do: their values are their parts of the same stops, to which
    /// steps that the CPUs may make lead from no stop begun (`same`). In the stop of one source any two of them have the same work,
    /// and neither has acknowledged more than one phase more than the other (`step`). While one is in the stop of another one, that
    /// one has this work pending (`waits`).
    ///
    /// It makes no step and does not wait, and nobody must poll.
    pub fn all_together(&self, crowd: &mut StopCrowd)
        requires { crowd.old.table ≡ self.now.table }
        ensures kept { crowd.new ≡ crowd.old }
        ensures same { AreAllTogether (values crowd.old.cpus) }
        ensures step { AllAreInStep (values crowd.old.cpus) }
        ensures waits { AllWaitFor (values crowd.old.cpus) }
    {
        all_together(self.owner.words(), &mut crowd.seats);
    }
}
