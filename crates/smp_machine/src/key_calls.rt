//! The changes of keys that a CPU of a machine makes.
//!
//! While it waits for the gate, the CPU polls. Once its own patch has run here, it only handles its interrupts until all
//! have completed: what it has read of the key holds until it takes part in another stop.

ghost use Rattle.std.specs.Prelude.{◌≡◌, true, false, None, IfOk, IfErr};
ghost use Rattle.smp_multi.specs.Names.{ReadKey};
ghost use Rattle.smp_machine.specs.Counts.{CountsOr};
ghost use Rattle.smp_machine.specs.Keys.{MayChange, Reads, RefusesKey, Sets};
ghost use Rattle.smp_machine.specs.Passes.{LastIsOwn};
ghost use Rattle.smp_machine.specs.MachineCpu.{IsAt};
ghost use Rattle.smp_machine.specs.Stops.{RefusedStill};

use crate::context::MachineContext;
use crate::cpu::Cpu;
use crate::key::{KeyChange, set};
use crate::key_count::{KeyStep, count};
use crate::key_work::{patch_work, state};
use crate::machine::Machine;
use smp_mask::SmpError;
use smp_multi::StopFunc;
use smp_queue::Handler;
use std::alloc::Allocator;
use std::sync::Wait;

impl<A: Allocator> Machine<A> {
    /// Turns a key on or off (`kernel/jump_label.c: static_key_enable`, `static_key_disable`): false where it was so already,
    /// which makes no stop; true where it has turned it, with all its sites, in a stop of all online CPUs. Off brings any
    /// count to 0.
    ///
    /// It takes effect in the patch, at `RUN` of its stop; where the key is so already, at the load of its count. It waits
    /// for the gate, which it keeps until the stop is complete, and for its stop: all online CPUs must poll. Meanwhile it
    /// polls, until its own patch has run here; from there on it only handles its interrupts. So its reads of the key
    /// give what it has set until it takes part in another stop.
    ///
    /// E4 where a work is in hand, or there is no such key. A refusal makes no step.
    pub fn set_key<R: Wait, H: Handler, F: StopFunc>(
        &self,
        rt: &R,
        me: &mut Cpu<A>,
        handler: &mut H,
        run: &mut F,
        k: u32,
        on: bool,
    ) -> Result<bool, SmpError>
        requires at { IsAt self.now me.old }
        ensures may { IfOk result (λ _. MayChange self.now.stops me.old k) }
        ensures sets { IfOk result (λ turned. Sets H.leads F.leads self.now.stops k on me.old handler.old run.old me.new handler.new run.new turned) }
        ensures read { IfOk result (λ _. Reads me.new.stops (ReadKey k on)) }
        ensures last { IfOk result (λ turned. turned ≡ true → LastIsOwn me.old.passes me.new.passes) }
        ensures outside { IfOk result (λ _. me.new.stops.inside ≡ None) }
        ensures err { IfErr result (λ e. RefusesKey self.now.stops me.old k e) }
        ensures kept { IfErr result (λ _. RefusedStill me.old handler.old run.old me.new handler.new run.new) }
    {
        if me.place.in_hand() || k >= self.stops.keys() {
            return Err(SmpError::BadArgument);
        }
        let work = patch_work(&self.stops, k, state(on));
        let context = MachineContext { machine: self, rt };
        let key = KeyChange { k, on, work: &work };
        Ok(set(context, &mut me.place, handler, run, key))
    }

    /// Counts a key up by one (`kernel/jump_label.c: static_key_slow_inc`): false where the key was on and stays so, by a
    /// nudge outside any stop; true where it turned on, with all its sites, in a stop of all online CPUs.
    ///
    /// It takes effect at the compare-exchange of a nudge ([`smp_multi::StopTable::try_key`], again where another CPU has
    /// changed the count meanwhile), or in the patch, at `RUN` of its stop. At a count of 0 it waits for the gate, tries
    /// once more, and waits for its stop, as [`Machine::set_key`] does: all online CPUs must poll, and meanwhile it polls.
    ///
    /// E4 where a work is in hand, or there is no such key, which makes no step. E13 where the count is 65,535: found by
    /// the load of a nudge, or by its own patch, which stays among the stops that the CPU has made.
    #[inline]
    pub fn key_inc<R: Wait, H: Handler, F: StopFunc>(
        &self,
        rt: &R,
        me: &mut Cpu<A>,
        handler: &mut H,
        run: &mut F,
        k: u32,
    ) -> Result<bool, SmpError>
        requires at { IsAt self.now me.old }
        ensures { CountsOr H.leads F.leads self.now.stops k true me.old handler.old run.old me.new handler.new run.new result }
    {
        if me.place.in_hand() || k >= self.stops.keys() {
            return Err(SmpError::BadArgument);
        }
        let context = MachineContext { machine: self, rt };
        let key = KeyStep { k, up: true };
        count(context, &mut me.place, handler, run, key)
    }

    /// Counts a key down by one (`kernel/jump_label.c: static_key_slow_dec`): false where the key stays on, by a nudge
    /// outside any stop; true where it turned off, with all its sites, in a stop of all online CPUs.
    ///
    /// It takes effect as [`Machine::key_inc`] does, and waits as that does, at a count of 1.
    ///
    /// E4 where a work is in hand, or there is no such key, which makes no step. E13 where the count is 0: found by the
    /// load of a nudge, or by its own patch, which stays among the stops that the CPU has made.
    #[inline]
    pub fn key_dec<R: Wait, H: Handler, F: StopFunc>(
        &self,
        rt: &R,
        me: &mut Cpu<A>,
        handler: &mut H,
        run: &mut F,
        k: u32,
    ) -> Result<bool, SmpError>
        requires at { IsAt self.now me.old }
        ensures { CountsOr H.leads F.leads self.now.stops k false me.old handler.old run.old me.new handler.new run.new result }
    {
        if me.place.in_hand() || k >= self.stops.keys() {
            return Err(SmpError::BadArgument);
        }
        let context = MachineContext { machine: self, rt };
        let key = KeyStep { k, up: false };
        count(context, &mut me.place, handler, run, key)
    }
}
