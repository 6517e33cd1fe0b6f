//! What a seat does while it waits, and when it is idle.

ghost use Rattle.std.specs.Prelude.{◌≡◌, true, false, None};
ghost use Rattle.smp_machine.specs.Own.{own_of};
ghost use Rattle.smp_machine.specs.Seats.{IsSameSeat, SeatPolls, SeatWorks};
ghost use Rattle.smp_machine.specs.Takes.{TakesWork};
ghost use Rattle.smp_machine.specs.Works.{LooksOnceMore, LooksOnceOrMore, TurnsStop};

use crate::poll::poll;
use crate::seat::Seat;
use smp_multi::{StopFunc, Turn};
use smp_queue::Handler;
use std::alloc::Allocator;
use std::sync::Wait;

impl<'m, A: Allocator, R: Wait, H: Handler + Drop, F: StopFunc + Drop> Seat<'m, A, R, H, F> {
    /// One turn, as [`crate::Machine::turn`]: where interrupts are on, one look at the own interrupt word; then, where a work
    /// is in hand, one turn of its stop (`kernel/stop_machine.c: multi_cpu_stop`). `Left` exactly where the work is completed.
    /// It does not wait; with a stop of several CPUs each CPU of the mask must go on too.
    #[tactic(auto, using(crate::proofs::Works::at_still, crate::proofs::Seats::number_worked))]
    pub fn turn(&mut self) -> Turn
        ensures works { SeatWorks H.leads F.leads self.old self.new (own_of self.old.cpu) }
        ensures stops { TurnsStop F.leads self.old.cpu.stops self.old.functions self.new.cpu.stops self.new.functions result }
        ensures once { self.old.cpu.stops.irq ≡ true → LooksOnceMore self.old.cpu.calls self.new.cpu.calls }
        ensures off { self.old.cpu.stops.irq ≡ false → (self.new.cpu.calls ≡ self.old.cpu.calls) × (self.new.handler ≡ self.old.handler) }
        ensures passes { self.new.cpu.passes ≡ self.old.cpu.passes }
        ensures same { IsSameSeat self.old self.new }
    {
        self.machine
            .turn(&mut self.cpu, &mut self.handler, &mut self.functions)
    }

    /// Where no work is in hand, takes the front of the CPU's own queue and enters its stop, as
    /// [`crate::Machine::take_work`] (`kernel/stop_machine.c: cpu_stopper_thread`). True where a work is in hand afterwards.
    /// It may wait while another CPU is between two steps of a put into this queue.
    pub fn take_work(&mut self) -> bool
        ensures takes { TakesWork self.old.machine self.old.cpu self.new.cpu result }
        ensures handler { self.new.handler ≡ self.old.handler }
        ensures functions { self.new.functions ≡ self.old.functions }
        ensures same { IsSameSeat self.old self.new }
    {
        self.machine.take_work(self.rt, &mut self.cpu)
    }

    /// A turn; then, where a work can be taken, turns until it is completed, as [`crate::Machine::poll`]: what an idle CPU
    /// repeats. Afterwards no work is in hand. It may wait: with a stop of several CPUs for the other CPUs of its mask, which
    /// must poll too.
    #[tactic(auto, using(crate::proofs::Works::at_still, crate::proofs::Seats::number_worked))]
    pub fn poll(&mut self)
        ensures works { SeatWorks H.leads F.leads self.old self.new (own_of self.old.cpu) }
        ensures polls { SeatPolls H.leads F.leads self.old self.new }
        ensures outside { self.new.cpu.stops.inside ≡ None }
        ensures once { self.old.cpu.stops.irq ≡ true → LooksOnceOrMore self.old.cpu.calls self.new.cpu.calls }
        ensures same { IsSameSeat self.old self.new }
    {
        self.machine.poll(
            self.rt,
            &mut self.cpu,
            &mut self.handler,
            &mut self.functions,
        )
    }

    /// As [`Seat::poll`]: whether it took an interrupt or a work.
    #[tactic(auto, using(crate::proofs::Works::at_still, crate::proofs::Seats::number_worked))]
    pub(crate) fn poll_and_tell(&mut self) -> bool
        ensures works { SeatWorks H.leads F.leads self.old self.new (own_of self.old.cpu) }
        ensures outside { self.new.cpu.stops.inside ≡ None }
        ensures same { IsSameSeat self.old self.new }
    {
        poll(
            self.machine,
            self.rt,
            &mut self.cpu.place,
            &mut self.handler,
            &mut self.functions,
        )
    }

    /// A poll; then, where that took neither an interrupt nor a work, it sleeps until another CPU sends one to this CPU, or
    /// wakes it, as [`crate::Machine::rest`]: what an idle CPU repeats that is to leave its processor to others. It may wait as a
    /// poll does, and it may sleep as long as nothing is for it.
    #[tactic(auto, using(crate::proofs::Works::at_still, crate::proofs::Seats::number_worked))]
    pub fn rest(&mut self)
        ensures works { SeatWorks H.leads F.leads self.old self.new (own_of self.old.cpu) }
        ensures polls { SeatPolls H.leads F.leads self.old self.new }
        ensures outside { self.new.cpu.stops.inside ≡ None }
        ensures once { self.old.cpu.stops.irq ≡ true → LooksOnceOrMore self.old.cpu.calls self.new.cpu.calls }
        ensures same { IsSameSeat self.old self.new }
    {
        self.machine.rest(
            self.rt,
            &mut self.cpu,
            &mut self.handler,
            &mut self.functions,
        )
    }
}
