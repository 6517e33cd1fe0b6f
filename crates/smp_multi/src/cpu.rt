//! One CPU at the table.

ghost use Rattle.std.specs.Prelude.{◌≡◌, ◌<◌, true, None};
ghost use Rattle.smp_mask.specs.Mask.{has};
ghost use Rattle.smp_words.specs.Size.{cpus};
ghost use Rattle.smp_stop_steps.specs.Threads.Known.{fresh};
ghost use Rattle.smp_multi.specs.Lives.{Lives};
ghost use Rattle.smp_multi.specs.Cpu.{fresh_cpu, is_in};

use crate::seat::StopSeat;
use smp_stop_steps::stage::Visit;
use smp_words::phase::{DISABLE_IRQ, EXIT};
use std::marker::Model;

/// One CPU between two calls, seen as its table, its number, its own stop that is not collected, the stop that it is
/// in, whether its interrupts are on, its own part of all stops (what it has begun, collected, answered, looked at, called
/// and read), its steps at the gate, at its own stop and at keys, in order, its attempts to enter a stop, in order, and how
/// many steps it has made in all. Only calls with this value change these four.
/// It may move to another thread.
#[derive(Drop)]
pub struct StopCpu {
    pub(crate) seat: StopSeat,
    pub(crate) number: u32,
    /// The stop that it is in.
    pub(crate) visit: Option<Visit>,
    /// Whether it holds the gate, and whether the stop of its own slot is open.
    pub(crate) holds: bool,
    pub(crate) is_open: bool,
}

impl Model for StopCpu {
    ghost use Rattle.smp_multi.specs.Cpu.{CpuValue, IsKept, cpu_of};

    ghost Value = { CpuValue };

    ghost view = { λ c. cpu_of c.seat };

    ghost invariant = { λ c. IsKept c.seat.known c.number c.visit c.holds c.is_open };
}

impl StopCpu {
    /// An online CPU that has done nothing.
    pub(crate) fn new(seat: StopSeat, number: u32) -> StopCpu
        requires fresh { seat.known ≡ fresh seat.known.setting number }
        requires below { number < cpus }
        requires online { has seat.known.setting.online number ≡ true }
        requires lives { Lives seat.known }
        ensures { result ≡ fresh_cpu seat.table seat.known.setting number }
    {
        StopCpu {
            seat,
            number,
            visit: None,
            holds: false,
            is_open: false,
        }
    }

    /// The CPU's number, which is below `NR_CPUS`. No step of the table.
    pub fn number(&self) -> u32
        ensures number { result ≡ self.now.number }
        ensures below { self.now.number < cpus }
        ensures online { has self.now.setting.online self.now.number ≡ true }
    {
        self.number
    }

    /// Whether its interrupts are on: off from its look at `DISABLE_IRQ` until it has acknowledged `EXIT`. No step of
    /// the table.
    pub fn interrupts_on(&self) -> bool
        ensures value { result ≡ self.now.irq }
        ensures outside { self.now.inside ≡ None → self.now.irq ≡ true }
    {
        match self.visit {
            Some(visit) => visit.acked < DISABLE_IRQ || visit.acked == EXIT,
            None => true,
        }
    }

    /// Whether it is in a stop. No step of the table.
    pub fn in_stop(&self) -> bool
        ensures { result ≡ is_in self.now.inside }
    {
        self.visit.is_some()
    }
}
