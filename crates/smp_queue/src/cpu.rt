//! One CPU at the table.

ghost use Rattle.std.specs.Prelude.{◌≡◌, ◌<◌, true, length};
ghost use Rattle.smp_mask.specs.Mask.{has};
ghost use Rattle.smp_words.specs.Size.{cpus, records};
ghost use Rattle.smp_call_steps.specs.Threads.Known.{fresh};
ghost use Rattle.smp_queue.specs.Cpu.{cpu_of};

use crate::seat::CallSeat;
use smp_words::size::NR_CPUS;
use std::marker::Model;

/// One CPU between two calls, seen as its table, its number and its own part of the calls: what it has sent and
/// owes, which of its records it has seen confirmed, and what it has taken and run. Only calls with this value
/// change that part. It may move to another thread.
#[derive(Drop)]
pub struct CallCpu {
    pub(crate) seat: CallSeat,
    pub(crate) number: u32,
    /// How many calls it has queued for each CPU, modulo 2^64.
    pub(crate) queued: [u64; NR_CPUS as usize],
    /// How many calls from each CPU it has run, modulo 2^64.
    pub(crate) ran: [u64; NR_CPUS as usize],
}

impl Model for CallCpu {
    ghost use Rattle.smp_queue.specs.Cpu.{CpuValue, IsKept, cpu_of};

    ghost Value = { CpuValue };

    ghost view = { λ c. cpu_of c.seat };

    ghost invariant = { λ c. IsKept c.seat.known c.number c.queued c.ran };
}

impl CallCpu {
    /// An online CPU that has done nothing.
    pub(crate) fn new(seat: CallSeat, number: u32) -> CallCpu
        requires fresh { seat.known ≡ fresh seat.known.setting number }
        requires below { number < cpus }
        requires online { has seat.known.setting.online number ≡ true }
        ensures { result ≡ cpu_of seat }
    {
        CallCpu {
            seat,
            number,
            queued: [0; NR_CPUS as usize],
            ran: [0; NR_CPUS as usize],
        }
    }

    ghost use Rattle.smp_queue.specs.Laws.{CallsAreShown};

    /// At any time, and whatever calls were made with it, a CPU's value is its part of calls that some words show and that
    /// keep all laws, and the CPU is outside any command. Steps that the CPUs may make lead to those calls from nothing called.
    /// It is one of its table's CPUs and online, and in those calls CPUs that its table does not have, or that are not online,
    /// have done nothing. Nothing is queued or pending for those that are not online; a CPU that has a queue has an interrupt
    /// pending or accepted, or a CPU that is online owes it one. A record whose last call it has seen confirmed is free, and each
    /// call that it has sent by it has run at its target; the last may still run where it is ASYNC. It makes no step.
    pub fn is_shown(&self)
        ensures { CallsAreShown self.now }
    {
        self.seat.is_shown();
    }

    /// The CPU's number, which is below `NR_CPUS` and that of an online CPU. It has a confirmation of each record.
    pub fn number(&self) -> u32
        ensures number { result ≡ self.now.number }
        ensures online { has self.now.setting.online self.now.number ≡ true }
        ensures sized { (self.now.number < cpus) × (length self.now.part.confirmed ≡ records) }
    {
        self.number
    }
}
