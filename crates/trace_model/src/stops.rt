//! Events of stops.

ghost use Rattle.std.specs.Prelude.{◌≡◌, ◌<◌, IfOk};
ghost use Rattle.trace_model.specs.Cpu.{Makes};
ghost use Rattle.trace_model.specs.Stops.{ack_by, acks_at_run, acks_disabled, collect_by, complete_by, enter_by};
ghost use Rattle.trace_model.specs.Stops.{gate_by, holds_gate, in_patch, in_round, is_store, made_store, may_ack};
ghost use Rattle.trace_model.specs.Stops.{may_off, next_store, off_by, on_by, open_by, patch_by, patch_left};
ghost use Rattle.trace_model.specs.Stops.{patch_over, raise_by, run_by, switched, switched_on, ungate_by};
ghost use Rattle.trace_model.specs.Stops.{with_word};

use crate::labels::{front_of, patch_now, popped, store, to_be};
use crate::reason::Reason;
use crate::state::State;
use crate::stop::{Patch, Task};
use smp_labels::Place;
use smp_words::phase::{DISABLE_IRQ, EXIT, OVER, RUN};
use smp_words::work::Kind;
use std::alloc::Allocator;

impl<A: Allocator + Copy> State<A> {
    /// A CPU takes the gate.
    #[tactic(auto, unfolding(crate::specs::Stops::gate_by))]
    pub(crate) fn take_gate(&mut self, cpu: u32) -> Result<(), Reason>
        ensures { Makes result self.new (gate_by cpu self.old) }
    {
        if let Some(holder) = self.gate {
            return Err(Reason::GateOf(holder));
        }
        self.gate = Some(cpu);
        Ok(())
    }

    /// Refuses where a CPU does not hold the gate.
    fn holds_gate(&self, cpu: u32) -> Result<(), Reason>
        ensures { result ≡ holds_gate cpu self.now }
    {
        match self.gate {
            Some(holder) if holder == cpu => Ok(()),
            Some(holder) => Err(Reason::GateOf(holder)),
            None => Err(Reason::GateOfNone),
        }
    }

    /// A CPU gives the gate up.
    #[tactic(auto, unfolding(crate::specs::Stops::ungate_by))]
    pub(crate) fn give_gate(&mut self, cpu: u32) -> Result<(), Reason>
        ensures { Makes result self.new (ungate_by cpu self.old) }
    {
        self.holds_gate(cpu)?;
        self.gate = None;
        Ok(())
    }

    /// A CPU opens the stop of a number.
    #[tactic(auto, unfolding(crate::specs::Stops::open_by))]
    pub(crate) fn open(&mut self, cpu: u32, number: u32, task: Task) -> Result<(), Reason>
        ensures { Makes result self.new (open_by cpu number task self.old) }
    {
        if number >= 64 {
            return Err(Reason::NoSuchWork);
        }
        if self.stop(number).is_open {
            return Err(Reason::StopOpen(number));
        }
        if !self.setting.without.gate {
            self.holds_gate(cpu)?;
        }
        self.open_stop(number, task)
    }

    /// A CPU enters the stop of a number.
    #[tactic(auto, unfolding(crate::specs::Stops::enter_by))]
    pub(crate) fn enter(&mut self, cpu: u32, number: u32) -> Result<(), Reason>
        requires { cpu < 32 }
        ensures { Makes result self.new (enter_by cpu number self.old) }
    {
        if let Ok(inside) = self.stop_of(cpu) {
            return Err(Reason::IsInStop(cpu, inside));
        }
        if number >= 64 || !self.stop(number).is_open {
            return Err(Reason::StopNotOpen(number));
        }
        self.enter_stop(number, cpu)?;
        self.put_inside(cpu, Some(number));
        Ok(())
    }

    /// The rendezvous that a CPU is in.
    fn round_of(&self, cpu: u32) -> Result<u32, Reason>
        requires { cpu < 32 }
        ensures value { result ≡ in_round cpu self.now }
        ensures below { IfOk result (λ number. number < 64) }
    {
        let number = self.stop_of(cpu)?;
        match self.stop(number).task.kind {
            Kind::One => Err(Reason::StopIsOf(number, Kind::One)),
            Kind::Multi | Kind::Patch => Ok(number),
        }
    }

    /// What is left of the patch of a stop, and its next store.
    fn next_store(&self, number: u32) -> (Patch, Option<(Place, u64)>)
        requires { number < 64 }
        ensures patch { result.0 ≡ patch_left number self.now }
        ensures next { result.1 ≡ next_store number self.now }
    {
        let stop = self.stop(number);
        let patch = patch_now(&self.words, stop);
        let next = front_of(&self.words, stop.task.func, &patch);
        (patch, next)
    }

    /// Refuses where an active CPU may not acknowledge RUN: its function has not run, or its patch is not over.
    fn acks_at_run(&mut self, cpu: u32, number: u32) -> Result<(), Reason>
        requires { number < 64 }
        ensures { Makes result self.new (acks_at_run cpu number self.old) }
    {
        match self.stop(number).task.kind {
            Kind::Patch => self.ends_patch(number),
            Kind::One | Kind::Multi => {
                if !self.stop(number).has_run(cpu) {
                    return Err(Reason::FunctionHasNotRun);
                }
                Ok(())
            }
        }
    }

    /// Refuses where the patch of a stop is not over.
    fn ends_patch(&mut self, number: u32) -> Result<(), Reason>
        requires { number < 64 }
        ensures { Makes result self.new (patch_over (next_store number self.old) number (patch_left number self.old) self.old) }
    {
        let (patch, next) = self.next_store(number);
        match next {
            Some(next) => Err(to_be(next)),
            None => {
                self.put_patch(number, patch);
                Ok(())
            }
        }
    }

    /// Refuses where a CPU may not acknowledge a phase.
    fn may_ack(&mut self, cpu: u32, number: u32, phase: u32) -> Result<(), Reason>
        requires cpu { cpu < 32 }
        requires number { number < 64 }
        ensures { Makes result self.new (may_ack cpu number phase self.old) }
    {
        self.stop(number).at_phase(cpu, phase)?;
        if phase == DISABLE_IRQ {
            self.acks_disabled(cpu)?;
            return Ok(());
        }
        if phase == RUN && self.stop(number).is_active(cpu) {
            return self.acks_at_run(cpu, number);
        }
        Ok(())
    }

    /// Refuses where a CPU may not acknowledge DISABLE_IRQ: its interrupts are on, or where switches are left out it handles
    /// one.
    fn acks_disabled(&self, cpu: u32) -> Result<(), Reason>
        requires { cpu < 32 }
        ensures { result ≡ acks_disabled self.now.setting.without.switches cpu self.now }
    {
        if self.setting.without.switches {
            return self.handles_nothing(cpu);
        }
        if self.has_irq(cpu) {
            return Err(Reason::InterruptsOn);
        }
        Ok(())
    }

    /// Where switches are left out, interrupts go off with DISABLE_IRQ, and on with EXIT but of the one that is to raise it.
    fn switch(&mut self, cpu: u32, number: u32, phase: u32)
        requires cpu { cpu < 32 }
        requires number { number < 64 }
        ensures { self.new ≡ switched cpu number phase self.old }
    {
        if !self.setting.without.switches {
            return;
        }
        if phase == DISABLE_IRQ {
            self.put_irq(cpu, false);
        } else if phase == EXIT {
            let raises = self.stop(number).is_raiser(cpu);
            self.put_irq(cpu, !raises);
        }
    }

    /// A CPU acknowledges a phase.
    #[tactic(auto, unfolding(crate::specs::Stops::ack_by))]
    pub(crate) fn ack(&mut self, cpu: u32, phase: u32) -> Result<(), Reason>
        requires { cpu < 32 }
        ensures { Makes result self.new (ack_by cpu phase self.old) }
    {
        let number = self.round_of(cpu)?;
        self.may_ack(cpu, number, phase)?;
        self.acknowledge(number, cpu, phase);
        self.switch(cpu, number, phase);
        Ok(())
    }

    /// A CPU raises the phase.
    #[tactic(auto, unfolding(crate::specs::Stops::raise_by))]
    pub(crate) fn raise(&mut self, cpu: u32, phase: u32) -> Result<(), Reason>
        requires { cpu < 32 }
        ensures { Makes result self.new (raise_by cpu phase self.old) }
    {
        let number = self.round_of(cpu)?;
        self.raise_stop(number, cpu, phase)?;
        self.switch_on(cpu, phase);
        Ok(())
    }

    /// Where switches are left out, interrupts are on once the last phase is raised.
    fn switch_on(&mut self, cpu: u32, phase: u32)
        requires { cpu < 32 }
        ensures { self.new ≡ switched_on cpu phase self.old }
    {
        if self.setting.without.switches && phase == OVER {
            self.put_irq(cpu, true);
        }
    }

    /// Refuses where a CPU may not turn its interrupts off.
    fn may_off(&self, cpu: u32, number: u32) -> Result<(), Reason>
        requires cpu { cpu < 32 }
        requires number { number < 64 }
        ensures { result ≡ may_off cpu number self.now }
    {
        if !self.has_irq(cpu) {
            return Err(Reason::InterruptsOff);
        }
        self.stop(number).at_phase(cpu, DISABLE_IRQ)?;
        self.handles_nothing(cpu)
    }

    /// A CPU turns its interrupts off.
    #[tactic(auto, unfolding(crate::specs::Stops::off_by))]
    pub(crate) fn off(&mut self, cpu: u32) -> Result<(), Reason>
        requires { cpu < 32 }
        ensures { Makes result self.new (off_by cpu self.old) }
    {
        let number = self.round_of(cpu)?;
        self.may_off(cpu, number)?;
        self.put_irq(cpu, false);
        Ok(())
    }

    /// A CPU turns its interrupts on.
    #[tactic(auto, unfolding(crate::specs::Stops::on_by))]
    pub(crate) fn on(&mut self, cpu: u32) -> Result<(), Reason>
        requires { cpu < 32 }
        ensures { Makes result self.new (on_by cpu self.old) }
    {
        let number = self.round_of(cpu)?;
        if self.has_irq(cpu) {
            return Err(Reason::InterruptsOn);
        }
        self.stop(number).through(cpu)?;
        self.put_irq(cpu, true);
        Ok(())
    }

    /// A CPU enters the function of its stop.
    #[tactic(auto, unfolding(crate::specs::Stops::run_by))]
    pub(crate) fn run(&mut self, cpu: u32, func: u64, arg: u64) -> Result<(), Reason>
        requires { cpu < 32 }
        ensures { Makes result self.new (run_by cpu func arg self.old) }
    {
        let number = self.stop_of(cpu)?;
        match self.stop(number).task.kind {
            Kind::Patch => Err(Reason::StopIsOf(number, Kind::Patch)),
            Kind::One | Kind::Multi => self.run_stop(number, cpu, func, arg),
        }
    }

    /// A CPU completes its stop.
    #[tactic(auto, unfolding(crate::specs::Stops::complete_by))]
    pub(crate) fn complete(&mut self, cpu: u32, answer: i32) -> Result<(), Reason>
        requires { cpu < 32 }
        ensures { Makes result self.new (complete_by cpu answer self.old) }
    {
        let number = self.stop_of(cpu)?;
        let irq = self.has_irq(cpu);
        self.complete_stop(number, cpu, answer, irq)?;
        self.put_inside(cpu, None);
        Ok(())
    }

    /// The result of a stop is collected.
    #[tactic(auto, unfolding(crate::specs::Stops::collect_by))]
    pub(crate) fn collect(&mut self, number: u32, answer: i32) -> Result<(), Reason>
        ensures { Makes result self.new (collect_by number answer self.old) }
    {
        if number >= 64 || !self.stop(number).is_open {
            return Err(Reason::StopNotOpen(number));
        }
        self.collect_stop(number, answer)
    }

    /// The patch that a CPU makes: it is the active one, at RUN.
    fn patch_of(&self, cpu: u32) -> Result<u32, Reason>
        requires { cpu < 32 }
        ensures value { result ≡ in_patch cpu self.now }
        ensures below { IfOk result (λ number. number < 64) }
    {
        let number = self.stop_of(cpu)?;
        let stop = self.stop(number);
        match stop.task.kind {
            Kind::One => return Err(Reason::StopIsOf(number, Kind::One)),
            Kind::Multi => return Err(Reason::StopIsOf(number, Kind::Multi)),
            Kind::Patch => {}
        }
        if !stop.is_active(cpu) {
            return Err(Reason::NotActive(cpu));
        }
        stop.at_phase(cpu, RUN)?;
        Ok(number)
    }

    /// A patch makes a store.
    #[tactic(auto, unfolding(crate::specs::Stops::patch_by))]
    pub(crate) fn patch(&mut self, cpu: u32, place: Place, word: u64) -> Result<(), Reason>
        requires { cpu < 32 }
        ensures { Makes result self.new (patch_by cpu place word self.old) }
    {
        let number = self.patch_of(cpu)?;
        self.make_store(number, place, word)
    }

    /// The patch of a stop makes the store that is next.
    fn make_store(&mut self, number: u32, place: Place, word: u64) -> Result<(), Reason>
        requires { number < 64 }
        ensures { Makes result self.new (made_store (next_store number self.old) number (patch_left number self.old) place word self.old) }
    {
        let (patch, next) = self.next_store(number);
        let Some(next) = next else {
            return Err(Reason::PatchOver);
        };
        if !is_store(next, place, word) {
            return Err(to_be(next));
        }
        self.store(place, word);
        self.put_patch(number, popped(&patch, place));
        Ok(())
    }

    /// Stores a word of the keys and sites.
    fn store(&mut self, place: Place, word: u64)
        ensures { self.new ≡ with_word place word self.old }
    {
        store(&mut self.words, place, word);
    }
}

/// Whether that is the store of this word at this place.
fn is_store(next: (Place, u64), place: Place, word: u64) -> bool
    ensures { result ≡ is_store next place word }
{
    match (next.0, place) {
        (Place::Key(one), Place::Key(other)) => one == other && next.1 == word,
        (Place::Site(one), Place::Site(other)) => one == other && next.1 == word,
        _ => false,
    }
}
