//! The stops of a seat.

ghost use Rattle.std.specs.Prelude.{◌≡◌, ◌≢◌, true, None, IfOk, IfErr};
ghost use Rattle.smp_mask.specs.Mask.{has};
ghost use Rattle.smp_machine.specs.Moves.{long_stop, short_stop};
ghost use Rattle.smp_machine.specs.OwnAnswers.{HasCalledFor};
ghost use Rattle.smp_machine.specs.Seats.{IsSameSeat, SeatStopped};
ghost use Rattle.smp_machine.specs.Stops.{IsActiveAlone, IsOneWork, IsTwoWork, IsMachineWork, RefusesOne, RefusesTwo};

use crate::seat::Seat;
use smp_mask::{CpuMask, SmpError};
use smp_multi::StopFunc;
use smp_queue::Handler;
use smp_words::work::Work;
use std::alloc::Allocator;
use std::sync::Wait;

impl<'m, A: Allocator, R: Wait, H: Handler + Drop, F: StopFunc + Drop> Seat<'m, A, R, H, F> {
    /// Runs a function on one CPU, as a stop of its own: its answer, as [`crate::Machine::stop_one`]
    /// (`kernel/stop_machine.c: stop_one_cpu`).
    ///
    /// The stop begins at the store of its roll, by the CPU that holds the gate. It waits for the gate, which it gives up
    /// once the work is queued, and for its stop: `dst` must poll, and the CPU that holds the gate. Meanwhile it polls.
    /// Where `dst` is the calling CPU, the function is called here, and its answer is what it has answered.
    ///
    /// E4 (`SmpError::BadArgument`) where a work is in hand; then E3 (`SmpError::NoStopper`) where `dst` is not online. A
    /// refusal makes no step.
    #[tactic(auto, using(crate::proofs::Seats::at_stopped, crate::proofs::Seats::number_stopped))]
    pub fn stop_one(&mut self, dst: u32, func: u16, arg: u64) -> Result<i32, SmpError>
        ensures free { IfOk result (λ _. self.old.cpu.stops.inside ≡ None) }
        ensures online { IfOk result (λ _. has self.old.machine.stops.setting.online dst ≡ true) }
        ensures ok { IfOk result (λ v. (work : Work) × IsOneWork dst func arg work
            × SeatStopped H.leads F.leads short_stop work self.old self.new v) }
        ensures own { IfOk result (λ v. dst ≡ self.old.cpu.stops.number → HasCalledFor func arg self.old.cpu.stops self.new.cpu.stops v) }
        ensures err { IfErr result (λ e. RefusesOne self.old.machine.stops self.old.cpu dst e) }
        ensures kept { IfErr result (λ _. self.new ≡ self.old) }
        ensures same { IsSameSeat self.old self.new }
    {
        self.machine.stop_one(
            self.rt,
            &mut self.cpu,
            &mut self.handler,
            &mut self.functions,
            dst,
            func,
            arg,
        )
    }

    /// Stops two CPUs together and runs a function on the first of them: its answer, as [`crate::Machine::stop_two`]
    /// (`kernel/stop_machine.c: stop_two_cpus`).
    ///
    /// The stop begins at the store of its roll, by the CPU that holds the gate. It waits for the gate, which it gives up
    /// once the works are queued, and for its stop: `a` and `b` must poll, and the CPU that holds the gate. Meanwhile it
    /// polls.
    ///
    /// E4 (`SmpError::BadArgument`) where a work is in hand, or `a` is `b`; then E3 (`SmpError::NoStopper`) where one of them
    /// is not online. A refusal makes no step.
    #[tactic(auto, using(crate::proofs::Seats::at_stopped, crate::proofs::Seats::number_stopped))]
    pub fn stop_two(&mut self, a: u32, b: u32, func: u16, arg: u64) -> Result<i32, SmpError>
        ensures free { IfOk result (λ _. self.old.cpu.stops.inside ≡ None) }
        ensures online { IfOk result (λ _. (a ≢ b) × (has self.old.machine.stops.setting.online a ≡ true)
            × (has self.old.machine.stops.setting.online b ≡ true)) }
        ensures ok { IfOk result (λ v. (work : Work) × IsTwoWork a b func arg work
            × SeatStopped H.leads F.leads short_stop work self.old self.new v) }
        ensures own { IfOk result (λ v. a ≡ self.old.cpu.stops.number → HasCalledFor func arg self.old.cpu.stops self.new.cpu.stops v) }
        ensures err { IfErr result (λ e. RefusesTwo self.old.machine.stops self.old.cpu a b e) }
        ensures kept { IfErr result (λ _. self.new ≡ self.old) }
        ensures same { IsSameSeat self.old self.new }
    {
        self.machine.stop_two(
            self.rt,
            &mut self.cpu,
            &mut self.handler,
            &mut self.functions,
            a,
            b,
            func,
            arg,
        )
    }

    /// Stops all CPUs that are online, and runs a function on the active ones of them, with the interrupts of all of them
    /// off, as [`crate::Machine::stop_machine`] (`kernel/stop_machine.c: stop_machine`): 0 where all have answered 0, else
    /// one of the other answers. Active are the CPUs of `active` that are online, or with `None` the first that is online;
    /// where there is no such CPU, the function runs nowhere and the answer is 0.
    ///
    /// The stop begins at the store of its roll, by the CPU that holds the gate. It waits for the gate, which it keeps until
    /// the stop is complete, and for its stop: all online CPUs must poll. Meanwhile it polls.
    ///
    /// E4 (`SmpError::BadArgument`) where a work is in hand, which makes no step.
    #[tactic(auto, using(crate::proofs::Seats::at_stopped, crate::proofs::Seats::number_stopped))]
    pub fn stop_machine(
        &mut self,
        func: u16,
        arg: u64,
        active: Option<CpuMask>,
    ) -> Result<i32, SmpError>
        ensures free { IfOk result (λ _. self.old.cpu.stops.inside ≡ None) }
        ensures ok { IfOk result (λ v. (work : Work) × IsMachineWork self.old.machine.stops func arg active work
            × SeatStopped H.leads F.leads long_stop work self.old self.new v) }
        ensures own { IfOk result (λ v. IsActiveAlone self.old.machine.stops.setting.online active self.old.cpu.stops.number
            → HasCalledFor func arg self.old.cpu.stops self.new.cpu.stops v) }
        ensures err { IfErr result (λ e. (e ≡ SmpError.BadArgument) × (self.old.cpu.stops.inside ≢ None)) }
        ensures kept { IfErr result (λ _. self.new ≡ self.old) }
        ensures same { IsSameSeat self.old self.new }
    {
        self.machine.stop_machine(
            self.rt,
            &mut self.cpu,
            &mut self.handler,
            &mut self.functions,
            func,
            arg,
            active,
        )
    }
}
