//! What a caller may do inside handlers, and where a CPU ends.

ghost use Rattle.std.specs.Prelude.{◌≡◌};
ghost use Rattle.smp_run.specs.Answers.{IsEcho};

use crate::answer::Answer;
use smp_machine::Seat;
use smp_multi::StopFunc;
use smp_queue::Handler;
use std::alloc::Allocator;
use std::sync::Wait;

/// Is told of each call as its function runs, and says which CPUs poll at the end. All threads of a run share it.
pub trait Pace {
    /// CPU `cpu` runs a call that CPU `src` has made, on its thread and inside its handler.
    fn entered(&self, cpu: u32, src: u32, func: u16, info: u64);

    /// Whether this CPU polls once its own lines are done, until all CPUs are done. Asked once of each CPU.
    fn polls(&self, cpu: u32) -> bool;
}

/// Does nothing, and lets each CPU poll.
#[derive(Clone, Copy)]
pub struct FreePace;

impl Pace for FreePace {
    fn entered(&self, _cpu: u32, _src: u32, _func: u16, _info: u64) {}

    fn polls(&self, _cpu: u32) -> bool {
        true
    }
}

/// The functions that calls run on a CPU: each tells the pace. They keep the answers to the CPU's lines, which its part leaves
/// here.
#[derive(Drop)]
pub(crate) struct Paced<'a, P: Pace, B: Allocator> {
    pub(crate) pace: &'a P,
    pub(crate) cpu: u32,
    pub(crate) answers: Vec<Answer, B>,
}

impl<'a, P: Pace, B: Allocator> Handler for Paced<'a, P, B> {
    ghost leads = { λ before _ after. after.answers ≡ before.answers };

    fn call(&mut self, src: u32, func: u16, info: u64) {
        self.pace.entered(self.cpu, src, func, info);
    }
}

/// The functions that stops run: each answers its argument, which is below 2^31 in a script.
#[derive(Clone, Copy)]
pub(crate) struct Echo;

impl StopFunc for Echo {
    ghost leads = { λ before call after. IsEcho call };

    fn run(&mut self, _cpu: u32, _func: u16, arg: u64) -> i32 {
        if arg < 1 << 31 { arg as i32 } else { i32::MAX }
    }
}

/// A CPU of a run at its seat, with any handler.
pub(crate) type RunSeat<'m, A, R, H> = Seat<'m, A, R, H, Echo>;
