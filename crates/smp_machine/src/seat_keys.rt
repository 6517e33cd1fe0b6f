//! The keys and sites of a seat's machine.

ghost use Rattle.std.specs.Prelude.{◌≡◌, true, false, None, IfOk, IfErr};
ghost use Rattle.smp_multi.specs.Names.{ReadKey};
ghost use Rattle.smp_multi.specs.Reads.{KeyAnswers, SiteAnswers};
ghost use Rattle.smp_machine.specs.Keys.{MayChange, Reads, RefusesKey};
ghost use Rattle.smp_machine.specs.Passes.{LastIsOwn};
ghost use Rattle.smp_machine.specs.Seats.{IsSameSeat, SeatCounts, SeatReads, SeatSets};

use crate::seat::Seat;
use smp_labels::SiteKind;
use smp_mask::SmpError;
use smp_multi::StopFunc;
use smp_queue::Handler;
use std::alloc::Allocator;
use std::sync::Wait;

impl<'m, A: Allocator, R: Wait, H: Handler + Drop, F: StopFunc + Drop> Seat<'m, A, R, H, F> {
    /// Turns a key on or off, as [`crate::Machine::set_key`] (`kernel/jump_label.c: static_key_enable`,
    /// `static_key_disable`): false where it was so already, which makes no stop; true where it has turned it, with all its sites,
    /// in a stop of all online CPUs. Off brings any count to 0.
    ///
    /// It takes effect in the patch, at `RUN` of its stop; where the key is so already, at the load of its count. It waits
    /// for the gate, which it keeps until the stop is complete, and for its stop: all online CPUs must poll. Meanwhile it
    /// polls, until its own patch has run here; from there on it only handles its interrupts. So its reads of the key
    /// give what it has set until it takes part in another stop.
    ///
    /// E4 (`SmpError::BadArgument`) where a work is in hand, or there is no such key. A refusal makes no step.
    #[tactic(auto, using(crate::proofs::Seats::at_set, crate::proofs::Seats::number_set))]
    pub fn set_key(&mut self, k: u32, on: bool) -> Result<bool, SmpError>
        ensures may { IfOk result (λ _. MayChange self.old.machine.stops self.old.cpu k) }
        ensures sets { IfOk result (λ turned. SeatSets H.leads F.leads k on self.old self.new turned) }
        ensures read { IfOk result (λ _. Reads self.new.cpu.stops (ReadKey k on)) }
        ensures last { IfOk result (λ turned. turned ≡ true → LastIsOwn self.old.cpu.passes self.new.cpu.passes) }
        ensures outside { IfOk result (λ _. self.new.cpu.stops.inside ≡ None) }
        ensures err { IfErr result (λ e. RefusesKey self.old.machine.stops self.old.cpu k e) }
        ensures kept { IfErr result (λ _. self.new ≡ self.old) }
        ensures same { IsSameSeat self.old self.new }
    {
        self.machine.set_key(
            self.rt,
            &mut self.cpu,
            &mut self.handler,
            &mut self.functions,
            k,
            on,
        )
    }

    /// Counts a key up by one, as [`crate::Machine::key_inc`] (`kernel/jump_label.c: static_key_slow_inc`): false where the
    /// key was on and stays so, by a nudge outside any stop; true where it turned on, with all its sites, in a stop of all
    /// online CPUs.
    ///
    /// It takes effect at the compare-exchange of a nudge, or in the patch, at `RUN` of its stop. At a count of 0 it waits
    /// for the gate, tries once more, and waits for its stop, as `set_key` does: all online CPUs must poll, and meanwhile it
    /// polls.
    ///
    /// E4 (`SmpError::BadArgument`) where a work is in hand, or there is no such key, which makes no step. E13
    /// (`SmpError::KeyRange`) where the count is 65,535: found by the load of a nudge, or by its own patch, which stays among
    /// the stops that the CPU has made.
    #[tactic(auto, using(crate::proofs::Seats::at_counted, crate::proofs::Seats::number_counted))]
    pub fn key_inc(&mut self, k: u32) -> Result<bool, SmpError>
        ensures counts { SeatCounts H.leads F.leads k true self.old self.new result }
        ensures same { IsSameSeat self.old self.new }
    {
        self.machine.key_inc(
            self.rt,
            &mut self.cpu,
            &mut self.handler,
            &mut self.functions,
            k,
        )
    }

    /// Counts a key down by one, as [`crate::Machine::key_dec`] (`kernel/jump_label.c: static_key_slow_dec`): false where the
    /// key stays on, by a nudge outside any stop; true where it turned off, with all its sites, in a stop of all online CPUs.
    ///
    /// It takes effect as `key_inc` does, and waits as that does, at a count of 1.
    ///
    /// E4 (`SmpError::BadArgument`) where a work is in hand, or there is no such key, which makes no step. E13
    /// (`SmpError::KeyRange`) where the count is 0: found by the load of a nudge, or by its own patch, which stays among the
    /// stops that the CPU has made.
    #[tactic(auto, using(crate::proofs::Seats::at_counted, crate::proofs::Seats::number_counted))]
    pub fn key_dec(&mut self, k: u32) -> Result<bool, SmpError>
        ensures counts { SeatCounts H.leads F.leads k false self.old self.new result }
        ensures same { IsSameSeat self.old self.new }
    {
        self.machine.key_dec(
            self.rt,
            &mut self.cpu,
            &mut self.handler,
            &mut self.functions,
            k,
        )
    }

    /// Whether a key is on, at a load of its count, as [`crate::Machine::read_key`]
    /// (`include/linux/jump_label.h: static_key_enabled`). It does not wait.
    ///
    /// E4 (`SmpError::BadArgument`) where the machine has no such key, or this CPU has its interrupts off, which makes no step.
    pub fn read_key(&mut self, k: u32) -> Result<bool, SmpError>
        ensures answers { KeyAnswers k self.old.cpu.stops self.new.cpu.stops result }
        ensures reads { SeatReads self.old self.new }
    {
        self.machine.read_key(&mut self.cpu, k)
    }

    /// What is at a site, a NOP or a jump, at a load of its word, as [`crate::Machine::read_site`]
    /// (`arch_static_branch`, `arch_static_branch_jump`). It does not wait.
    ///
    /// E4 (`SmpError::BadArgument`) where the machine has no such site, or this CPU has its interrupts off, which makes no
    /// step.
    pub fn read_site(&mut self, i: u32) -> Result<SiteKind, SmpError>
        ensures answers { SiteAnswers i self.old.cpu.stops self.new.cpu.stops result }
        ensures reads { SeatReads self.old self.new }
    {
        self.machine.read_site(&mut self.cpu, i)
    }
}
