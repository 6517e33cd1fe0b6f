//! What one stop of the state does, and the CPU that is in it.

ghost use Rattle.std.specs.Prelude.{◌≡◌, ◌<◌, not, IfOk};
ghost use Rattle.trace_model.specs.Cpu.{Makes, handles_nothing};
ghost use Rattle.trace_model.specs.State.{cpu_at, stop_at, with_stop};
ghost use Rattle.trace_model.specs.Stop.{acknowledged, collected, completed, entered, opened, raised, ran_function};
ghost use Rattle.trace_model.specs.Stops.{on_stop, stop_of, with_inside, with_irq, with_patch};

use crate::reason::Reason;
use crate::state::State;
use crate::stop::{Patch, Stop, Task};
use std::alloc::Allocator;

impl<A: Allocator + Copy> State<A> {
    /// The number of the stop that a CPU is in.
    pub(crate) fn stop_of(&self, cpu: u32) -> Result<u32, Reason>
        requires { cpu < 32 }
        ensures value { result ≡ stop_of cpu self.now }
        ensures below { IfOk result (λ number. number < 64) }
    {
        match self.cpus[cpu as usize].stop() {
            Some(number) if number < 64 => Ok(number),
            _ => Err(Reason::InNoStop(cpu)),
        }
    }

    /// The stop of a number.
    pub fn stop(&self, number: u32) -> &Stop
        requires { number < 64 }
        ensures { result.now ≡ stop_at self.now number }
    {
        &self.stops[number as usize]
    }

    /// Whether a CPU's interrupts are on.
    pub(crate) fn has_irq(&self, cpu: u32) -> bool
        requires { cpu < 32 }
        ensures { result ≡ (cpu_at self.now cpu).irq }
    {
        self.cpus[cpu as usize].has_irq()
    }

    /// Refuses where a CPU handles an interrupt.
    pub(crate) fn handles_nothing(&self, cpu: u32) -> Result<(), Reason>
        requires { cpu < 32 }
        ensures { result ≡ handles_nothing (cpu_at self.now cpu) }
    {
        self.cpus[cpu as usize].handles_nothing()
    }

    /// Turns a CPU's interrupts on or off.
    pub(crate) fn put_irq(&mut self, cpu: u32, on: bool)
        requires { cpu < 32 }
        ensures { self.new ≡ with_irq cpu on self.old }
    {
        self.cpus[cpu as usize].put_irq(on);
    }

    /// A CPU is in the stop of this number, or in none.
    pub(crate) fn put_inside(&mut self, cpu: u32, number: Option<u32>)
        requires { cpu < 32 }
        ensures { self.new ≡ with_inside cpu number self.old }
    {
        self.cpus[cpu as usize].put_stop(number);
    }

    /// Opens the stop of a number.
    pub(crate) fn open_stop(&mut self, number: u32, task: Task) -> Result<(), Reason>
        requires { number < 64 }
        ensures { Makes result self.new (on_stop number self.old (opened self.old.setting task)) }
    {
        let setting = self.setting;
        self.stops[number as usize].open(&setting, task)
    }

    /// A CPU enters a stop.
    pub(crate) fn enter_stop(&mut self, number: u32, cpu: u32) -> Result<(), Reason>
        requires { number < 64 }
        ensures { Makes result self.new (on_stop number self.old (entered cpu (stop_at self.old number))) }
    {
        self.stops[number as usize].enter(cpu)
    }

    /// A CPU acknowledges a phase of its stop.
    pub(crate) fn acknowledge(&mut self, number: u32, cpu: u32, phase: u32)
        requires { number < 64 }
        ensures { self.new ≡ with_stop number self.old (acknowledged cpu phase (not self.old.setting.without.raises) (stop_at self.old number)) }
    {
        let raises = !self.setting.without.raises;
        self.stops[number as usize].acknowledge(cpu, phase, raises);
    }

    /// A CPU raises the phase of its stop.
    pub(crate) fn raise_stop(&mut self, number: u32, cpu: u32, phase: u32) -> Result<(), Reason>
        requires { number < 64 }
        ensures { Makes result self.new (on_stop number self.old (raised cpu phase (stop_at self.old number))) }
    {
        self.stops[number as usize].raise(cpu, phase)
    }

    /// A CPU enters the function of its stop.
    pub(crate) fn run_stop(
        &mut self,
        number: u32,
        cpu: u32,
        func: u64,
        arg: u64,
    ) -> Result<(), Reason>
        requires { number < 64 }
        ensures { Makes result self.new (on_stop number self.old (ran_function cpu func arg (stop_at self.old number))) }
    {
        self.stops[number as usize].run(cpu, func, arg)
    }

    /// A CPU completes its stop with an answer.
    #[tactic(auto, using(crate::proofs::Made::made_on_stop))]
    pub(crate) fn complete_stop(
        &mut self,
        number: u32,
        cpu: u32,
        answer: i32,
        irq: bool,
    ) -> Result<(), Reason>
        requires { number < 64 }
        ensures { Makes result self.new (on_stop number self.old (completed cpu answer irq (stop_at self.old number))) }
    {
        self.stops[number as usize].complete(cpu, answer, irq)
    }

    /// The result of a stop is collected.
    #[tactic(auto, using(crate::proofs::Made::made_on_stop))]
    pub(crate) fn collect_stop(&mut self, number: u32, answer: i32) -> Result<(), Reason>
        requires { number < 64 }
        ensures { Makes result self.new (on_stop number self.old (collected answer (stop_at self.old number))) }
    {
        self.stops[number as usize].collect(answer)
    }

    /// What is left of the patch of a stop.
    pub(crate) fn put_patch(&mut self, number: u32, patch: Patch)
        requires { number < 64 }
        ensures { self.new ≡ with_patch number patch self.old }
    {
        self.stops[number as usize].patch = Some(patch);
    }
}
