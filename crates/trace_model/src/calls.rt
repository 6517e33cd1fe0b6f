//! Events of calls.

ghost use Rattle.std.specs.Prelude.{◌≡◌, ◌<◌, length, OnOk};
ghost use Rattle.trace_model.specs.Calls.{begin_by, end_by, joined, moved, other_by, other_joined, place_of_run, placed, queue_by, send_by, take_by, unlock_by};
ghost use Rattle.trace_model.specs.Calls.{Steps};
ghost use Rattle.trace_model.specs.Cpu.{Makes};
ghost use Rattle.trace_model.specs.State.{cpu_at, with_place};

use crate::call::{Call, Place};
use crate::cpu::handling::Entry;
use crate::halt::Halt;
use crate::reason::Reason;
use crate::state::{State, place_reason};
use std::alloc::{AllocError, Allocator};

/// The records of these calls are at this place.
fn place_all(places: &mut [Place], calls: &[Call], place: Place)
    requires { length places.old ≡ 65536 }
    ensures placed { places.new ≡ placed place calls.now places.old }
    ensures length { length places.new ≡ 65536 }
{
    for call in calls {
        places[call.id as usize] = place;
    }
}

impl<A: Allocator + Copy> State<A> {
    /// A call joins the queue of its destination.
    #[tactic(auto, unfolding(crate::specs::Calls::queue_by))]
    pub(crate) fn queue(&mut self, call: Call, to: u32) -> Result<(), Halt>
        requires { call.source < 512 }
        ensures { Steps result self.new (queue_by call to self.old) }
    {
        if !self.setting.is_online(to) {
            return Err(Halt::Broken(Reason::NotOnline(to)));
        }
        if to == call.source {
            return Err(Halt::Broken(Reason::IsCaller(to)));
        }
        if let Err(reason) = self.free(call.id) {
            return Err(Halt::Broken(reason));
        }
        match self.join(call, to) {
            Ok(()) => Ok(()),
            Err(_) => Err(Halt::NoMemory),
        }
    }

    /// A call is in the queue of its destination.
    fn join(&mut self, call: Call, to: u32) -> Result<(), AllocError>
        requires source { call.source < 512 }
        requires to { to < 512 }
        ensures { OnOk result (self.new ≡ joined call to self.old) }
    {
        let first = self.is_bare(to);
        self.push(to, call)?;
        self.note_queued(call.source, to, first);
        self.put_place(call.id, Place::Queue(to));
        Ok(())
    }

    /// What is no call is in the queue of a CPU.
    fn join_other(&mut self, cpu: u32, to: u32)
        requires source { cpu < 512 }
        requires to { to < 512 }
        ensures { self.new ≡ other_joined cpu to self.old }
    {
        let first = self.is_bare(to);
        self.push_other(to);
        self.note_owed(cpu, to, first);
    }

    /// What is no call joins a queue. Without the order of queues nothing shows how it leaves one, so it is not kept.
    #[tactic(auto, unfolding(crate::specs::Calls::other_by))]
    pub(crate) fn queue_other(&mut self, cpu: u32, to: u32) -> Result<(), Reason>
        requires { cpu < 512 }
        ensures { Makes result self.new (other_by cpu to self.old) }
    {
        if !self.setting.is_online(to) {
            return Err(Reason::NotOnline(to));
        }
        if to == cpu {
            return Err(Reason::IsCaller(to));
        }
        if !self.setting.without.order {
            self.join_other(cpu, to);
        }
        Ok(())
    }

    /// A CPU sends an interrupt.
    #[tactic(auto, unfolding(crate::specs::Calls::send_by))]
    pub(crate) fn send(&mut self, cpu: u32, to: u32) -> Result<(), Reason>
        requires { cpu < 512 }
        ensures { Makes result self.new (send_by cpu to self.old) }
    {
        if !self.setting.is_online(to) {
            return Err(Reason::NotOnline(to));
        }
        self.interrupt(to);
        self.note_sent(cpu, to);
        Ok(())
    }

    /// The records of a CPU's queue are in its batch.
    fn move_places(&mut self, cpu: u32)
        requires { cpu < 512 }
        ensures { self.new ≡ moved cpu self.old }
    {
        let queue = self.cpus[cpu as usize].queued_calls();
        place_all(&mut self.places, queue, Place::Batch(cpu));
    }

    /// A CPU takes its whole queue.
    #[tactic(auto, unfolding(crate::specs::Calls::take_by))]
    pub(crate) fn take(&mut self, alloc: A, cpu: u32) -> Result<(), Halt>
        requires { cpu < 512 }
        ensures { Steps result self.new (take_by cpu self.old) }
    {
        let told = !self.setting.without.interrupts;
        if let Err(reason) = self.may_take(cpu, told) {
            return Err(Halt::Broken(reason));
        }
        self.move_places(cpu);
        if self.take_queue(alloc, cpu).is_err() {
            return Err(Halt::NoMemory);
        }
        Ok(())
    }

    /// A CPU unlocks a record.
    #[tactic(auto, unfolding(crate::specs::Calls::unlock_by))]
    pub(crate) fn unlock(&mut self, cpu: u32, id: u16) -> Result<(), Reason>
        requires { cpu < 512 }
        ensures { Makes result self.new (unlock_by cpu id self.old) }
    {
        let place = self.place(id);
        let elsewhere = place_reason(id, place);
        self.unlock_call(cpu, id, place.is_batch(cpu), elsewhere)?;
        self.put_place(id, Place::Free);
        Ok(())
    }

    /// A CPU enters the function of a call. The record of a SYNC call is locked until it has ended.
    #[tactic(auto, unfolding(crate::specs::Calls::begin_by))]
    pub(crate) fn begin(&mut self, cpu: u32, seen: Entry) -> Result<(), Reason>
        requires { cpu < 512 }
        ensures { Makes result self.new (begin_by cpu seen self.old) }
    {
        let held = self.runs(cpu);
        let place = self.place(seen.id);
        self.enter_call(cpu, seen, place)?;
        if !held {
            self.place_run(cpu, seen.id);
        }
        Ok(())
    }

    /// The record of a call that has just begun is locked or free.
    fn place_run(&mut self, cpu: u32, id: u16)
        requires { cpu < 512 }
        ensures { self.new ≡ with_place id (place_of_run cpu (cpu_at self.old cpu)) self.old }
    {
        let place = if self.runs_locked(cpu) {
            Place::Run(cpu)
        } else {
            Place::Free
        };
        self.put_place(id, place);
    }

    /// The function of a call has returned. Where unlocks are left out, the record of a SYNC call is free.
    #[tactic(auto, unfolding(crate::specs::Calls::end_by))]
    pub(crate) fn end(&mut self, cpu: u32, id: u16) -> Result<(), Reason>
        requires { cpu < 512 }
        ensures { Makes result self.new (end_by cpu id self.old) }
    {
        let unlocks = !self.setting.without.unlocks;
        let locked = self.runs_locked(cpu);
        self.end_call(cpu, id, unlocks)?;
        if locked && !unlocks {
            self.put_place(id, Place::Free);
        }
        Ok(())
    }
}
