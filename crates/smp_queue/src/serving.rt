//! A CPU inside `handle` one of whose calls is out.

use crate::cpu::CallCpu;
use crate::handler::{Handler, Heard};
use crate::run::Place;
use crate::seat::CallSeat;
use crate::seat::call_steps::Begun;
use smp_words::size::{NR_CPUS, owner_of};
use std::marker::Model;

/// What is told of a call that the caller runs: nothing.
pub(crate) struct Given;

impl Handler for Given {
    ghost leads = { λ _ _ _. Unit {0} };

    fn call(&mut self, src: u32, func: u16, info: u64) {
        let _ = (src, func, info);
    }
}

/// The seat of a CPU inside `handle`, and the CPU's number.
#[derive(Drop)]
pub(crate) struct InsideSeat {
    pub(crate) seat: CallSeat,
    pub(crate) number: u32,
}

/// A CPU inside `handle` one of whose calls is out, seen as the CPU and that call. It is between the step before the call
/// and the step behind it.
#[derive(Drop)]
pub struct Serving {
    pub(crate) cpu: InsideSeat,
    pub(crate) queued: [u64; NR_CPUS as usize],
    pub(crate) ran: [u64; NR_CPUS as usize],
    pub(crate) place: Place,
    pub(crate) begun: Begun<Given>,
}

impl Model for Serving {
    ghost use Rattle.std.specs.Prelude.{◌≡◌};
    ghost use Rattle.smp_queue.specs.Cpu.{cpu_of};
    ghost use Rattle.smp_queue.specs.ServingValue.{ServingValue};
    ghost use Rattle.smp_queue.specs.Serving.{IsServing};

    ghost Value = { ServingValue };

    ghost view = { λ s. record { cpu = cpu_of s.cpu.seat; call = s.place.call } };

    ghost invariant = { λ s. IsServing s.cpu.seat.known s.cpu.number s.queued s.ran s.place × (s.begun.call.value ≡ s.place.call) };
}

/// What a CPU goes on with.
#[derive(Drop)]
pub enum Next {
    /// No interrupt was pending, and nothing runs.
    Idle(CallCpu),
    /// A call of the batch is out, and is to be run now.
    Run(Serving),
    /// The batch has run.
    Done(CallCpu),
}

impl Serving {
    ghost use Rattle.std.specs.Prelude.{◌≡◌};
    ghost use Rattle.smp_queue.specs.Handling.{heard_of};
    ghost use Rattle.smp_queue.specs.Out.{IsShownOut};

    /// The call that is out, as its function hears it.
    pub fn call(&self) -> Heard
        ensures { result ≡ heard_of self.now.call }
    {
        let call = self.place.call;
        Heard {
            src: owner_of(call.id),
            func: call.func,
            info: call.info,
        }
    }

    /// While a call is out, the value is its CPU's part of calls that some words show and that keep all laws. Steps that the CPUs
    /// may make lead to those calls from nothing called. In these words the record of a SYNC call is locked, and the handling word
    /// of the CPU names it. The record of an ASYNC call is free: its source may lock it again at any time since. It makes no step.
    pub fn is_shown(&self)
        ensures { IsShownOut self.now }
    {
        let _ = &self.cpu.seat;
    }
}
