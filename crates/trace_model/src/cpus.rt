//! What one CPU of the state does with its own part.

ghost use Rattle.std.specs.Prelude.{◌≡◌, ◌<◌, true, false, is_some, OnOk};
ghost use Rattle.trace_model.specs.Calls.{accept_by, idle_by, on_cpu, entered_by};
ghost use Rattle.trace_model.specs.Cpu.{ended, interrupted, is_bare, may_take, noted, owing, pushed, pushed_other};
ghost use Rattle.trace_model.specs.Cpu.{runs_locked, sent, taken, unlocked, Makes};
ghost use Rattle.trace_model.specs.State.{cpu_at, with_cpu};

use crate::call::{Call, Place};
use crate::cpu::handling::Entry;
use crate::reason::Reason;
use crate::state::{State, place_reason};
use std::alloc::{AllocError, Allocator};

impl<A: Allocator + Copy> State<A> {
    /// A CPU takes the interrupt that is pending.
    pub(crate) fn accept(&mut self, cpu: u32) -> Result<(), Reason>
        requires { cpu < 512 }
        ensures { Makes result self.new (accept_by cpu self.old) }
    {
        self.cpus[cpu as usize].accept()
    }

    /// A CPU has looked for an interrupt, and there was none.
    pub(crate) fn idle(&self, cpu: u32) -> Result<(), Reason>
        requires { cpu < 512 }
        ensures { result ≡ idle_by cpu self.now }
    {
        self.cpus[cpu as usize].idle()
    }

    /// Whether nothing is queued for a CPU.
    pub(crate) fn is_bare(&self, cpu: u32) -> bool
        requires { cpu < 512 }
        ensures { result ≡ is_bare (cpu_at self.now cpu) }
    {
        self.cpus[cpu as usize].is_bare()
    }

    /// What is no call joins the queue of a CPU.
    pub(crate) fn push_other(&mut self, cpu: u32)
        requires { cpu < 512 }
        ensures { self.new ≡ with_cpu cpu self.old (pushed_other (cpu_at self.old cpu)) }
    {
        self.cpus[cpu as usize].push_other();
    }

    /// A CPU has added to the queue of another.
    pub(crate) fn note_owed(&mut self, cpu: u32, to: u32, first: bool)
        requires { cpu < 512 }
        ensures { self.new ≡ with_cpu cpu self.old (owing to first (cpu_at self.old cpu)) }
    {
        self.cpus[cpu as usize].note_owed(to, first);
    }

    /// A call joins the queue of a CPU.
    pub(crate) fn push(&mut self, cpu: u32, call: Call) -> Result<(), AllocError>
        requires { cpu < 512 }
        ensures { OnOk result (self.new ≡ with_cpu cpu self.old (pushed call (cpu_at self.old cpu))) }
    {
        match self.cpus[cpu as usize].push(call) {
            Ok(()) => Ok(()),
            Err(error) => Err(error),
        }
    }

    /// A CPU has queued a call for another.
    pub(crate) fn note_queued(&mut self, cpu: u32, to: u32, first: bool)
        requires { cpu < 512 }
        ensures { self.new ≡ with_cpu cpu self.old (noted to first (cpu_at self.old cpu)) }
    {
        self.cpus[cpu as usize].note_queued(to, first);
    }

    /// A CPU has sent another an interrupt.
    pub(crate) fn note_sent(&mut self, cpu: u32, to: u32)
        requires { cpu < 512 }
        ensures { self.new ≡ with_cpu cpu self.old (sent to (cpu_at self.old cpu)) }
    {
        self.cpus[cpu as usize].note_sent(to);
    }

    /// An interrupt is pending for a CPU.
    pub(crate) fn interrupt(&mut self, cpu: u32)
        requires { cpu < 512 }
        ensures { self.new ≡ with_cpu cpu self.old (interrupted (cpu_at self.old cpu)) }
    {
        self.cpus[cpu as usize].interrupt();
    }

    /// Refuses where a CPU may not take its queue; `told` says whether interrupts are told.
    pub(crate) fn may_take(&self, cpu: u32, told: bool) -> Result<(), Reason>
        requires { cpu < 512 }
        ensures { result ≡ may_take told (cpu_at self.now cpu) }
    {
        self.cpus[cpu as usize].may_take(told)
    }

    /// A CPU has its whole queue in its batch.
    pub(crate) fn take_queue(&mut self, alloc: A, cpu: u32) -> Result<(), AllocError>
        requires { cpu < 512 }
        ensures { OnOk result (self.new ≡ with_cpu cpu self.old (taken (cpu_at self.old cpu))) }
    {
        self.cpus[cpu as usize].take(alloc)
    }

    /// A CPU unlocks a record, which is in its batch or not, and is at that place.
    pub(crate) fn unlock_call(
        &mut self,
        cpu: u32,
        id: u16,
        here: bool,
        elsewhere: Reason,
    ) -> Result<(), Reason>
        requires { cpu < 512 }
        ensures { Makes result self.new (on_cpu cpu self.old (unlocked id here elsewhere (cpu_at self.old cpu))) }
    {
        self.cpus[cpu as usize].unlock(id, here, elsewhere)
    }

    /// Whether a CPU runs a call.
    pub(crate) fn runs(&self, cpu: u32) -> bool
        requires { cpu < 512 }
        ensures { result ≡ is_some (cpu_at self.now cpu).current }
    {
        self.cpus[cpu as usize].runs()
    }

    /// Whether it runs a call whose record is locked.
    pub(crate) fn runs_locked(&self, cpu: u32) -> bool
        requires { cpu < 512 }
        ensures { result ≡ runs_locked (cpu_at self.now cpu) }
    {
        self.cpus[cpu as usize].runs_locked()
    }

    /// A CPU enters the function of a call of its queue, whose record is at that place.
    fn begin_loose(&mut self, cpu: u32, seen: Entry, place: Place) -> Result<(), Reason>
        requires { cpu < 512 }
        ensures { Makes result self.new (on_cpu cpu self.old (entered_by true cpu seen place self.old)) }
    {
        let elsewhere = place_reason(seen.id, place);
        self.cpus[cpu as usize].begin_loose(seen, elsewhere)
    }

    /// A CPU enters the function of a call of its batch, whose record is at that place.
    fn begin_strict(&mut self, cpu: u32, seen: Entry, place: Place) -> Result<(), Reason>
        requires { cpu < 512 }
        ensures { Makes result self.new (on_cpu cpu self.old (entered_by false cpu seen place self.old)) }
    {
        let elsewhere = place_reason(seen.id, place);
        let unlocks = !self.setting.without.unlocks;
        self.cpus[cpu as usize].begin(seen, place.is_batch(cpu), elsewhere, unlocks)
    }

    /// A CPU enters the function of a call whose record is at that place.
    pub(crate) fn enter_call(&mut self, cpu: u32, seen: Entry, place: Place) -> Result<(), Reason>
        requires { cpu < 512 }
        ensures { Makes result self.new (on_cpu cpu self.old (entered_by self.old.setting.without.order cpu seen place self.old)) }
    {
        if self.setting.without.order {
            self.begin_loose(cpu, seen, place)
        } else {
            self.begin_strict(cpu, seen, place)
        }
    }

    /// The function of a call has returned.
    pub(crate) fn end_call(&mut self, cpu: u32, id: u16, unlocks: bool) -> Result<(), Reason>
        requires { cpu < 512 }
        ensures { Makes result self.new (on_cpu cpu self.old (ended id unlocks (cpu_at self.old cpu))) }
    {
        self.cpus[cpu as usize].end(id, unlocks)
    }
}
