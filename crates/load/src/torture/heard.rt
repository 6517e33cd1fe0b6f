//! What calls and stops run on a CPU.

ghost use Rattle.std.specs.Prelude.{◌≡◌, ◌+◌, ◌%◌, ◌/◌, pos};

use crate::torture::call_totals::CallTotals;
use crate::torture::counts::Counts;
use crate::torture::kind::Kind;
use crate::torture::shared_words::SharedWords;
use smp_multi::StopFunc;
use smp_queue::Handler;
use smp_words::size::NR_CPUS;

/// Notes each call that it hears, answers those with wait, and keeps what its CPU has done at the end.
#[derive(Drop)]
pub struct Listener<'e> {
    pub own: u32,
    pub words: &'e SharedWords,
    pub heard: CallTotals,
    /// Polls and waits in which it heard calls of other CPUs, modulo 2^64; those after its CPU's last act are one. Each is a
    /// batch of the queue, or more.
    pub batches: u64,
    /// Whether the current poll or wait has had none yet.
    pub fresh: bool,
    /// Calls with wait that did not see what their source had stored before, modulo 2^64.
    pub unseen: u64,
    pub counts: Counts,
}

impl<'e> Listener<'e> {
    /// The handler of this CPU, which has heard nothing.
    pub fn new(own: u32, words: &'e SharedWords) -> Listener<'e> {
        Listener {
            own,
            words,
            heard: CallTotals::new(),
            batches: 0,
            fresh: true,
            unseen: 0,
            counts: Counts::new(),
        }
    }
}

impl<'e> Handler for Listener<'e> {
    ghost use Rattle.std.specs.Prelude.{◌≡◌};
    ghost use Rattle.load.specs.Counts.{Notes};

    // Each call that it hears is noted once, with its source.
    ghost leads = { λ old call new. Notes call.func call.src call.info old.heard new.heard × (new.own ≡ old.own) };

    fn call(&mut self, src: u32, func: u16, info: u64) {
        self.heard.note(func, src, info);
        if Kind::waits(func) && !self.words.answer(self.own, src, info) {
            self.unseen = self.unseen.wrapping_add(1);
        }
        if self.fresh && src != self.own {
            self.batches = self.batches.wrapping_add(1);
            self.fresh = false;
        }
    }
}

/// Notes each stop function that runs, and answers a number that its argument gives.
#[derive(Drop)]
pub struct StopListener {
    pub own: u32,
    pub ran: CallTotals,
}

impl StopListener {
    /// The stop function of this CPU, which has run nothing.
    pub fn new(own: u32) -> StopListener {
        StopListener {
            own,
            ran: CallTotals::new(),
        }
    }
}

/// The argument of a stop by this CPU.
pub fn arg_of(source: u32, random: u64) -> u64
    ensures { result % 32 ≡ source % 32 }
{
    random - random % u64::from(NR_CPUS) + u64::from(source % NR_CPUS)
}

/// The CPU that made the stop of an argument.
pub fn source_of(arg: u64) -> u32
    ensures { result ≡ arg % 32 }
{
    (arg % u64::from(NR_CPUS)) as u32
}

/// What a stop function answers: it is never 0.
pub fn answer_to(arg: u64) -> i32
    ensures { result ≡ pos (arg / 32 % 1_000_000 + 1) }
{
    (arg / u64::from(NR_CPUS) % 1_000_000) as i32 + 1
}

impl StopFunc for StopListener {
    ghost use Rattle.std.specs.Prelude.{◌≡◌, ◌%◌};
    ghost use Rattle.load.specs.Counts.{Notes};

    // Each stop function that runs here is noted once, with the CPU that made the stop.
    ghost leads = { λ old call new. (call.cpu ≡ old.own → Notes call.func (call.arg % 32) call.arg old.ran new.ran) × (new.own ≡ old.own) };

    fn run(&mut self, cpu: u32, func: u16, arg: u64) -> i32 {
        if cpu == self.own {
            self.ran.note(func, source_of(arg), arg);
        } else {
            self.ran.stray();
        }
        answer_to(arg)
    }
}
