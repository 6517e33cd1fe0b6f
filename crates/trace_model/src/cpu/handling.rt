//! How a CPU of the model handles an interrupt: it accepts it, takes its queue, and runs and unlocks its calls one by one.

ghost use Rattle.std.specs.Prelude.{◌≡◌, ◌++◌, ◌==◌, position, is_some, false, OnOk};
ghost use Rattle.trace_model.specs.Cpu.{accepted, as_idle, begun, begun_loose, begun_unlocked, ended, front_of};
ghost use Rattle.trace_model.specs.Cpu.{handles_nothing, is_of, left_batch, may_take, not_over, of_class};
ghost use Rattle.trace_model.specs.Cpu.{runs_locked, slipped_from_batch, slipped_from_queue, taken, unlocked};
ghost use Rattle.trace_model.specs.Cpu.{Makes};
ghost use Rattle.trace_model.specs.Ending.{is_busy};

use super::{Cpu, count};
use crate::call::{Call, Current, Progress};
use crate::reason::Reason;
use smp_words::call::Class;
use std::alloc::{AllocError, Allocator};
use std::collections::VecDeque;

/// The call whose function a CPU enters, as the trace tells it.
#[derive(Clone, Copy)]
pub(crate) struct Entry {
    pub(crate) id: u16,
    pub(crate) func: u64,
    pub(crate) info: u64,
}

impl Entry {
    /// Refuses where the call has another function or argument.
    fn is_of(&self, call: &Call) -> Result<(), Reason>
        ensures { result ≡ is_of self.now call.now }
    {
        if call.func != self.func || call.info != self.info {
            return Err(Reason::CallIs(call.func, call.info));
        }
        Ok(())
    }
}

/// The calls of a class join a batch, as they were queued.
#[tactic(auto, using(crate::proofs::Lists::filter_next, crate::proofs::Lists::pushed_if))]
fn join<A: Allocator>(
    batch: &mut VecDeque<Call, A>,
    queue: &[Call],
    class: Class,
) -> Result<(), AllocError>
    ensures { OnOk result (batch.new.items ≡ batch.old.items ++ of_class class queue.now) }
{
    for call in queue {
        if call.class == class {
            if batch.push_back(*call).is_err() {
                return Err(AllocError);
            }
        }
    }
    Ok(())
}

impl<A: Allocator + Copy> Cpu<A> {
    /// Refuses where a call that it has taken is not over.
    pub(crate) fn not_over(&self) -> Result<(), Reason>
        ensures { result ≡ not_over self.now }
    {
        if let Some(current) = self.current {
            return Err(Reason::NotOver(current.call.id));
        }
        match self.batch.front() {
            Some(call) => Err(Reason::NotOver(call.id)),
            None => Ok(()),
        }
    }

    /// Refuses where it handles an interrupt.
    pub(crate) fn handles_nothing(&self) -> Result<(), Reason>
        ensures { result ≡ handles_nothing self.now }
    {
        self.not_over()?;
        if self.accepted {
            return Err(Reason::InterruptAccepted);
        }
        Ok(())
    }

    /// It takes its whole queue.
    pub(crate) fn take(&mut self, alloc: A) -> Result<(), AllocError>
        ensures { OnOk result (self.new ≡ taken self.old) }
    {
        let mut batch = VecDeque::new(alloc);
        join(&mut batch, &self.queue, Class::Sync)?;
        join(&mut batch, &self.queue, Class::Async)?;
        self.queue.clear();
        self.others = false;
        self.batch = batch;
        self.accepted = false;
        Ok(())
    }

    /// It takes the interrupt that is pending.
    pub(crate) fn accept(&mut self) -> Result<(), Reason>
        ensures { Makes result self.new (accepted self.old) }
    {
        if !self.irq {
            return Err(Reason::InterruptsOff);
        }
        self.handles_nothing()?;
        if !self.pending {
            return Err(Reason::NoInterruptPending);
        }
        self.pending = false;
        self.accepted = true;
        Ok(())
    }

    /// It has looked for an interrupt, and there was none.
    pub(crate) fn idle(&self) -> Result<(), Reason>
        ensures { result ≡ as_idle self.now }
    {
        if !self.irq {
            return Err(Reason::InterruptsOff);
        }
        self.handles_nothing()?;
        if self.pending {
            return Err(Reason::InterruptPending);
        }
        Ok(())
    }

    /// Refuses where it may not take its queue; `told` says whether interrupts are told.
    pub(crate) fn may_take(&self, told: bool) -> Result<(), Reason>
        ensures { result ≡ may_take told self.now }
    {
        if !self.irq {
            return Err(Reason::InterruptsOff);
        }
        self.not_over()?;
        if told && !self.accepted {
            return Err(Reason::NoInterruptAccepted);
        }
        Ok(())
    }

    /// It unlocks a record. `here` says whether the record is in its batch, and `elsewhere` where it is.
    pub(crate) fn unlock(&mut self, id: u16, here: bool, elsewhere: Reason) -> Result<(), Reason>
        ensures { Makes result self.new (unlocked id here elsewhere self.old) }
    {
        if let Some(current) = self.current {
            if current.call.id != id {
                return Err(Reason::NotOver(current.call.id));
            }
            if current.progress == Progress::Ended {
                self.current = None;
                return Ok(());
            }
            if current.progress == Progress::Runs && current.call.class == Class::Sync {
                return Err(Reason::NotOver(id));
            }
            return Err(elsewhere);
        }
        let front = self.front(id, here, elsewhere)?;
        if front.class == Class::Sync {
            return Err(Reason::NotBegun(id));
        }
        self.leave_batch(Progress::Unlocked, front);
        Ok(())
    }

    /// The front of its batch, where that is of this record.
    fn front(&self, id: u16, here: bool, elsewhere: Reason) -> Result<Call, Reason>
        ensures { result ≡ front_of id here elsewhere self.now.batch }
    {
        if !here {
            return Err(elsewhere);
        }
        match self.batch.front() {
            Some(call) if call.id == id => Ok(*call),
            Some(call) => Err(Reason::ComesFirst(call.id)),
            None => Err(elsewhere),
        }
    }

    /// The front leaves the batch, and is the call that it runs.
    fn leave_batch(&mut self, progress: Progress, call: Call)
        ensures { self.new ≡ left_batch progress call self.old }
    {
        let _ = self.batch.pop_front();
        self.current = Some(Current { progress, call });
    }

    /// The function of a call is entered, where queues are told in order.
    pub(crate) fn begin(
        &mut self,
        seen: Entry,
        here: bool,
        elsewhere: Reason,
        unlocks: bool,
    ) -> Result<(), Reason>
        ensures { Makes result self.new (begun seen here elsewhere unlocks self.old) }
    {
        if !self.irq {
            return Err(Reason::InterruptsOff);
        }
        if let Some(current) = self.current {
            return self.begin_unlocked(seen, current);
        }
        let front = self.front(seen.id, here, elsewhere)?;
        seen.is_of(&front)?;
        if front.class == Class::Async && unlocks {
            return Err(Reason::IsLocked(seen.id));
        }
        self.leave_batch(Progress::Runs, front);
        Ok(())
    }

    /// `begin` of a call that is unlocked already.
    fn begin_unlocked(&mut self, seen: Entry, current: Current) -> Result<(), Reason>
        ensures { Makes result self.new (begun_unlocked seen current self.old) }
    {
        if current.progress != Progress::Unlocked {
            return Err(Reason::NotOver(current.call.id));
        }
        if current.call.id != seen.id {
            return Err(Reason::ComesFirst(current.call.id));
        }
        seen.is_of(&current.call)?;
        self.current = Some(Current {
            progress: Progress::Runs,
            call: current.call,
        });
        Ok(())
    }

    /// The place in its queue of the call of this record.
    fn find(&self, id: u16) -> Option<usize>
        ensures { result ≡ position (λ call. call.id == id) self.now.queue }
    {
        self.queue.iter().position(|call| call.id == id)
    }

    /// The function of a call is entered, where the order of queues is left out.
    pub(crate) fn begin_loose(&mut self, seen: Entry, elsewhere: Reason) -> Result<(), Reason>
        ensures { Makes result self.new (begun_loose seen elsewhere self.old) }
    {
        if !self.irq {
            return Err(Reason::InterruptsOff);
        }
        if let Some(current) = self.current {
            return self.begin_unlocked(seen, current);
        }
        let Some(at) = self.find(seen.id) else {
            return Err(elsewhere);
        };
        seen.is_of(&self.queue[at])?;
        let call = self.queue.remove(at);
        self.current = Some(Current {
            progress: Progress::Runs,
            call,
        });
        Ok(())
    }

    /// The function of a call has returned; `unlocks` says whether unlocks are told.
    pub(crate) fn end(&mut self, id: u16, unlocks: bool) -> Result<(), Reason>
        ensures { Makes result self.new (ended id unlocks self.old) }
    {
        let Some(current) = self.current else {
            return Err(Reason::NoCallRuns);
        };
        if current.progress != Progress::Runs {
            return Err(Reason::NoCallRuns);
        }
        if current.call.id != id {
            return Err(Reason::NotOver(current.call.id));
        }
        count(&mut self.ran, current.call.source);
        self.current = if current.call.class == Class::Sync && unlocks {
            Some(Current {
                progress: Progress::Ended,
                call: current.call,
            })
        } else {
            None
        };
        Ok(())
    }

    /// Unlocks the ASYNC call at the front of its batch, where that is of this record and the CPU runs none: whether it was so.
    pub(crate) fn slip_from_batch(&mut self, id: u16) -> bool
        ensures { (result, self.new) ≡ slipped_from_batch id self.old }
    {
        if self.current.is_some() {
            return false;
        }
        match self.batch.front() {
            Some(call) if call.id == id && call.class == Class::Async => {
                let call = *call;
                self.leave_batch(Progress::Unlocked, call);
                true
            }
            _ => false,
        }
    }

    /// Unlocks the ASYNC call of this record in its queue, where it runs none and its interrupts are on: whether it was so.
    pub(crate) fn slip_from_queue(&mut self, id: u16) -> bool
        ensures { (result, self.new) ≡ slipped_from_queue id self.old }
    {
        if self.current.is_some() || !self.irq {
            return false;
        }
        let Some(at) = self.find(id) else {
            return false;
        };
        if self.queue[at].class != Class::Async {
            return false;
        }
        let call = self.queue.remove(at);
        self.current = Some(Current {
            progress: Progress::Unlocked,
            call,
        });
        true
    }

    /// Whether it runs a call.
    pub(crate) fn runs(&self) -> bool
        ensures { result ≡ is_some self.now.current }
    {
        self.current.is_some()
    }

    /// Whether it runs a call whose record is locked.
    pub(crate) fn runs_locked(&self) -> bool
        ensures { result ≡ runs_locked self.now }
    {
        match self.current {
            Some(current) => {
                current.progress == Progress::Runs && current.call.class == Class::Sync
            }
            None => false,
        }
    }

    /// Whether it handles an interrupt.
    pub(crate) fn is_busy(&self) -> bool
        ensures { result ≡ is_busy self.now }
    {
        self.handles_nothing().is_err()
    }
}
