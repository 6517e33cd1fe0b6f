//! One event of the model.

ghost use Rattle.std.specs.Prelude.{◌≡◌, ◌<◌};
ghost use Rattle.trace_model.specs.Calls.{Steps};
ghost use Rattle.trace_model.specs.Cpu.{Makes};
ghost use Rattle.trace_model.specs.Step.{call_goes, goes, inside_goes, key_by, label_goes, nudge_by, nudged_word, reads_by, site_by, stop_goes};

use crate::call::Call;
use crate::cpu::handling::Entry;
use crate::event::{CallEvent, Event, LabelEvent, StopEvent};
use crate::halt::Halt;
use crate::labels::{nudge, read_key, read_site};
use crate::reason::Reason;
use crate::state::State;
use smp_labels::{Place, SiteKind};
use std::alloc::Allocator;

impl<A: Allocator + Copy> State<A> {
    /// Refuses where a CPU's interrupts are off.
    fn reads(&self, cpu: u32) -> Result<(), Reason>
        requires { cpu < 32 }
        ensures { result ≡ reads_by cpu self.now }
    {
        if !self.has_irq(cpu) {
            return Err(Reason::InterruptsOff);
        }
        Ok(())
    }

    /// A CPU reads a key.
    fn key(&self, cpu: u32, key: u32, on: bool) -> Result<(), Reason>
        requires { cpu < 32 }
        ensures { result ≡ key_by cpu key on self.now }
    {
        self.reads(cpu)?;
        read_key(&self.words, key, on)
    }

    /// A CPU reads a site.
    fn site(&self, cpu: u32, site: u32, jumps: bool) -> Result<(), Reason>
        requires { cpu < 32 }
        ensures { result ≡ site_by cpu site jumps self.now }
    {
        self.reads(cpu)?;
        read_site(&self.words, site, jumps)
    }

    /// A CPU changes a count by one outside a patch.
    fn nudge(&mut self, cpu: u32, key: u32, up: bool) -> Result<(), Reason>
        requires { cpu < 32 }
        ensures { Makes result self.new (nudge_by cpu key up self.old) }
    {
        self.reads(cpu)?;
        self.nudge_word(key, up)
    }

    /// A count is changed by one.
    fn nudge_word(&mut self, key: u32, up: bool) -> Result<(), Reason>
        ensures { Makes result self.new (nudged_word key up self.old) }
    {
        match nudge(&mut self.words, key, up) {
            Ok(()) => Ok(()),
            Err(reason) => Err(reason),
        }
    }

    /// An event of calls that fills no memory.
    #[tactic(auto, unfolding(crate::specs::Step::call_goes))]
    fn call_step(&mut self, cpu: u32, event: CallEvent) -> Result<(), Reason>
        requires { cpu < 512 }
        ensures { Makes result self.new (call_goes cpu event self.old) }
    {
        match event {
            CallEvent::QueueOther(to, _) => self.queue_other(cpu, to),
            CallEvent::Free(id) => self.free(id),
            CallEvent::Send(to) => self.send(cpu, to),
            CallEvent::Accept => self.accept(cpu),
            CallEvent::Idle => {
                self.idle(cpu)?;
                Ok(())
            }
            CallEvent::Unlock(id) => self.unlock(cpu, id),
            CallEvent::Begin(id, func, info) => self.begin(cpu, Entry { id, func, info }),
            CallEvent::End(id) => self.end(cpu, id),
            CallEvent::Queue(..) | CallEvent::Take => Ok(()),
        }
    }

    /// What a CPU does in a stop.
    #[tactic(auto, unfolding(crate::specs::Step::inside_goes))]
    fn inside_step(&mut self, cpu: u32, event: StopEvent) -> Result<(), Reason>
        requires { cpu < 32 }
        ensures { Makes result self.new (inside_goes cpu event self.old) }
    {
        match event {
            StopEvent::Enter(number) => self.enter(cpu, number),
            StopEvent::Ack(phase) => self.ack(cpu, phase),
            StopEvent::Raise(phase) => self.raise(cpu, phase),
            StopEvent::Off => self.off(cpu),
            StopEvent::On => self.on(cpu),
            StopEvent::Run(func, arg) => self.run(cpu, func, arg),
            StopEvent::Complete(answer) => self.complete(cpu, answer),
            StopEvent::Gate | StopEvent::Ungate | StopEvent::Open(..) | StopEvent::Collect(..) => {
                Ok(())
            }
        }
    }

    /// An event of stops.
    #[tactic(auto, unfolding(crate::specs::Step::stop_goes))]
    fn stop_step(&mut self, cpu: u32, event: StopEvent) -> Result<(), Reason>
        ensures { Makes result self.new (stop_goes cpu event self.old) }
    {
        match event {
            StopEvent::Gate => self.take_gate(cpu),
            StopEvent::Ungate => self.give_gate(cpu),
            StopEvent::Open(number, task) => self.open(cpu, number, task),
            StopEvent::Collect(number, answer) => self.collect(number, answer),
            _ if cpu >= 32 => Err(Reason::NoSuchWork),
            _ => self.inside_step(cpu, event),
        }
    }

    /// An event of keys and sites.
    #[tactic(auto, unfolding(crate::specs::Step::label_goes))]
    fn label_step(&mut self, cpu: u32, event: LabelEvent) -> Result<(), Reason>
        requires { cpu < 32 }
        ensures { Makes result self.new (label_goes cpu event self.old) }
    {
        match event {
            LabelEvent::Set(key, count) => self.patch(cpu, Place::Key(key), count),
            LabelEvent::Turn(site, true) => {
                self.patch(cpu, Place::Site(site), SiteKind::Jmp.word())
            }
            LabelEvent::Turn(site, false) => {
                self.patch(cpu, Place::Site(site), SiteKind::Nop.word())
            }
            LabelEvent::Key(key, on) => {
                self.key(cpu, key, on)?;
                Ok(())
            }
            LabelEvent::Site(site, jumps) => {
                self.site(cpu, site, jumps)?;
                Ok(())
            }
            LabelEvent::Nudge(key, up) => self.nudge(cpu, key, up),
        }
    }

    /// One event of a CPU that is online.
    pub fn event(&mut self, alloc: A, cpu: u32, event: Event) -> Result<(), Halt>
        requires { cpu < 512 }
        ensures { Steps result self.new (goes cpu event self.old) }
    {
        let made = match event {
            Event::Call(CallEvent::Queue(id, to, class, func, info)) => {
                let source = cpu;
                return self.queue(
                    Call {
                        source,
                        id,
                        class,
                        func,
                        info,
                    },
                    to,
                );
            }
            Event::Call(CallEvent::Take) => return self.take(alloc, cpu),
            Event::Call(event) => self.call_step(cpu, event),
            Event::Stop(event) => self.stop_step(cpu, event),
            Event::Label(_) if cpu >= 32 => Err(Reason::NoSuchWork),
            Event::Label(event) => self.label_step(cpu, event),
        };
        match made {
            Ok(()) => Ok(()),
            Err(reason) => Err(Halt::Broken(reason)),
        }
    }
}
