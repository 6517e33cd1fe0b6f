//! The stops that a CPU of a machine makes.
//!
//! While it waits for the gate and for its stop, the CPU polls: it handles its interrupts, and takes part in the stops that
//! call it, its own among them. A handler or a stop function makes no stop.

ghost use Rattle.std.specs.Prelude.{◌≡◌, ◌≢◌, true, false, None, IfOk, IfErr};
ghost use Rattle.smp_mask.specs.Mask.{has};
ghost use Rattle.smp_machine.specs.Moves.{short_stop, long_stop};
ghost use Rattle.smp_machine.specs.OwnAnswers.{HasCalledFor};
ghost use Rattle.smp_machine.specs.MachineCpu.{IsAt};
ghost use Rattle.smp_machine.specs.Stops.{HasStopped, IsActiveAlone, IsOneWork, IsTwoWork, IsMachineWork, RefusedStill, RefusesOne, RefusesTwo};

use crate::context::MachineContext;
use crate::cpu::Cpu;
use crate::machine::Machine;
use crate::stop::{Holds, StopJob, stop};
use crate::stop_work::{machine_work, one_work, two_work};
use smp_mask::{CpuMask, SmpError};
use smp_multi::StopFunc;
use smp_queue::Handler;
use smp_words::work::Work;
use std::alloc::Allocator;
use std::sync::Wait;

impl<A: Allocator> Machine<A> {
    /// Runs a function on one CPU, as a stop of its own (`kernel/stop_machine.c: stop_one_cpu`): its answer.
    ///
    /// The stop begins at the store of its roll, with the gate held. It waits for the gate, which it gives up once the
    /// work is queued, and for its stop: `dst` must poll, and the CPU that holds the gate. Meanwhile it polls.
    ///
    /// Where `dst` is the calling CPU, the function is called here, and its answer is what it has answered.
    ///
    /// E4 where a work is in hand; then E3 where `dst` is not online. A refusal makes no step.
    pub fn stop_one<R: Wait, H: Handler, F: StopFunc>(
        &self,
        rt: &R,
        me: &mut Cpu<A>,
        handler: &mut H,
        run: &mut F,
        dst: u32,
        func: u16,
        arg: u64,
    ) -> Result<i32, SmpError>
        requires at { IsAt self.now me.old }
        ensures free { IfOk result (λ _. me.old.stops.inside ≡ None) }
        ensures online { IfOk result (λ _. has self.now.stops.setting.online dst ≡ true) }
        ensures ok { IfOk result (λ v. (work : Work) × IsOneWork dst func arg work
            × HasStopped H.leads F.leads short_stop work me.old handler.old run.old me.new handler.new run.new v) }
        ensures own { IfOk result (λ v. dst ≡ me.old.stops.number → HasCalledFor func arg me.old.stops me.new.stops v) }
        ensures err { IfErr result (λ e. RefusesOne self.now.stops me.old dst e) }
        ensures kept { IfErr result (λ _. RefusedStill me.old handler.old run.old me.new handler.new run.new) }
    {
        if me.place.in_hand() {
            return Err(SmpError::BadArgument);
        }
        if !self.stops.online().contains(dst) {
            return Err(SmpError::NoStopper);
        }
        let work = one_work(&self.stops, dst, func, arg);
        let context = MachineContext { machine: self, rt };
        let job = StopJob {
            work: &work,
            holds: Holds::UntilQueued,
        };
        Ok(stop(context, &mut me.place, handler, run, job))
    }

    /// Stops two CPUs together and runs a function on the first of them (`kernel/stop_machine.c: stop_two_cpus`): its
    /// answer.
    ///
    /// The stop begins at the store of its roll, with the gate held. It waits for the gate, which it gives up once the
    /// works are queued, and for its stop: `a` and `b` must poll, and the CPU that holds the gate. Meanwhile it polls.
    ///
    /// Where `a` is the calling CPU, the function is called here, and its answer is what it has answered.
    ///
    /// E4 where a work is in hand, or `a` is `b`; then E3 where one of them is not online. A refusal makes no step.
    pub fn stop_two<R: Wait, H: Handler, F: StopFunc>(
        &self,
        rt: &R,
        me: &mut Cpu<A>,
        handler: &mut H,
        run: &mut F,
        a: u32,
        b: u32,
        func: u16,
        arg: u64,
    ) -> Result<i32, SmpError>
        requires at { IsAt self.now me.old }
        ensures free { IfOk result (λ _. me.old.stops.inside ≡ None) }
        ensures online { IfOk result (λ _. (a ≢ b) × (has self.now.stops.setting.online a ≡ true) × (has self.now.stops.setting.online b ≡ true)) }
        ensures ok { IfOk result (λ v. (work : Work) × IsTwoWork a b func arg work
            × HasStopped H.leads F.leads short_stop work me.old handler.old run.old me.new handler.new run.new v) }
        ensures own { IfOk result (λ v. a ≡ me.old.stops.number → HasCalledFor func arg me.old.stops me.new.stops v) }
        ensures err { IfErr result (λ e. RefusesTwo self.now.stops me.old a b e) }
        ensures kept { IfErr result (λ _. RefusedStill me.old handler.old run.old me.new handler.new run.new) }
    {
        if me.place.in_hand() || a == b {
            return Err(SmpError::BadArgument);
        }
        let online = self.stops.online();
        if !(online.contains(a) && online.contains(b)) {
            return Err(SmpError::NoStopper);
        }
        let work = two_work(&self.stops, a, b, func, arg);
        let context = MachineContext { machine: self, rt };
        let job = StopJob {
            work: &work,
            holds: Holds::UntilQueued,
        };
        Ok(stop(context, &mut me.place, handler, run, job))
    }

    /// Stops all CPUs that are online, and runs a function on the active ones of them, with the interrupts of all of them
    /// off (`kernel/stop_machine.c: stop_machine`): 0 where all have answered 0, else one of the other answers. Active are
    /// the CPUs of `active` that are online, or with `None` the first that is online; where there is no such CPU, the
    /// function runs nowhere and the answer is 0.
    ///
    /// The stop begins at the store of its roll, with the gate held. It waits for the gate, which it keeps until the
    /// stop is complete, and for its stop: all online CPUs must poll. Meanwhile it polls.
    ///
    /// Where the calling CPU is the only active one that is online, the function is called here, and its answer is what it
    /// has answered.
    ///
    /// E4 where a work is in hand, which makes no step.
    pub fn stop_machine<R: Wait, H: Handler, F: StopFunc>(
        &self,
        rt: &R,
        me: &mut Cpu<A>,
        handler: &mut H,
        run: &mut F,
        func: u16,
        arg: u64,
        active: Option<CpuMask>,
    ) -> Result<i32, SmpError>
        requires at { IsAt self.now me.old }
        ensures free { IfOk result (λ _. me.old.stops.inside ≡ None) }
        ensures ok { IfOk result (λ v. (work : Work) × IsMachineWork self.now.stops func arg active work
            × HasStopped H.leads F.leads long_stop work me.old handler.old run.old me.new handler.new run.new v) }
        ensures own { IfOk result (λ v. IsActiveAlone self.now.stops.setting.online active me.old.stops.number
            → HasCalledFor func arg me.old.stops me.new.stops v) }
        ensures err { IfErr result (λ e. (e ≡ SmpError.BadArgument) × (me.old.stops.inside ≢ None)) }
        ensures kept { IfErr result (λ _. RefusedStill me.old handler.old run.old me.new handler.new run.new) }
    {
        if me.place.in_hand() {
            return Err(SmpError::BadArgument);
        }
        let work = machine_work(&self.stops, func, arg, active);
        let context = MachineContext { machine: self, rt };
        let job = StopJob {
            work: &work,
            holds: Holds::UntilDone,
        };
        Ok(stop(context, &mut me.place, handler, run, job))
    }
}
