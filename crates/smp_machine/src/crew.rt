//! What the CPUs of a machine run, each on a thread of its own.

ghost use Rattle.std.specs.Prelude.{◌≡◌, ℕ, false, IfOk};
ghost use Rattle.smp_machine.specs.MachineCpu.{MachineValue, IsFresh};
ghost use Rattle.smp_machine.specs.Seats.{SeatValue, IsSameSeat};

use crate::cpu::Cpu;
use crate::seat::Seat;
use smp_multi::StopFunc;
use smp_queue::Handler;
use std::alloc::{AllocError, Allocator};
use std::sync::Wait;

/// What the CPUs of a machine run, each on a thread of its own. All threads share it by reference.
pub trait Crew<H: Handler + Drop, F: StopFunc + Drop, A: Allocator> {
    /// On which machines it may run: on each, unless an `impl` says else.
    ghost runs_on: { Self → MachineValue → Type 0 } = { λ _ _. Unit {0} };

    /// With which handler and stop function the CPU of a number begins.
    ghost begins: { Self → ℕ → H → F → Type 0 };

    /// To which value of its seat the part of a CPU leads, from which.
    ghost plays: { Self → SeatValue H F → SeatValue H F → Type 0 };

    /// Which CPUs may end without a poll: none, unless an `impl` says else.
    ghost leaves: { Self → ℕ → Type 0 } = { λ _ _. ⊥ };

    /// The handler and the stop function of this CPU. Those of all CPUs are made in ascending order, before any thread is
    /// started. Where memory is refused to one, no CPU begins.
    fn make(&self, cpu: u32) -> Result<(H, F), AllocError>
        ensures { IfOk result (λ made. begins self.now cpu made.0 made.1) };

    /// The part of one CPU, which is online and has done nothing before. It may wait; the other CPUs play theirs, and those
    /// that are done poll.
    fn play<R: Wait>(&self, seat: &mut Seat<'_, A, R, H, F>)
        requires machine { runs_on self.now seat.old.machine }
        requires fresh { IsFresh seat.old.machine seat.old.cpu }
        requires made { begins self.now seat.old.cpu.calls.number seat.old.handler seat.old.functions }
        ensures plays { plays self.now seat.old seat.new }
        ensures same { IsSameSeat seat.old seat.new };

    /// Whether this CPU polls once its part is played, until all CPUs have played theirs, and once more. Else its thread ends
    /// at once, and a CPU that waits for this one waits for ever. Asked once of each CPU, on its thread. Each polls, unless an `impl`
    /// says else.
    fn polls(&self, _cpu: u32) -> bool
        ensures { result ≡ false → leaves self.now _cpu }
    {
        true
    }
}

/// A CPU that has played its part, with its handler and its stop function.
#[derive(Drop)]
pub struct Played<H: Handler + Drop, F: StopFunc + Drop, A: Allocator> {
    /// The CPU.
    pub cpu: Cpu<A>,
    /// What has heard its calls.
    pub handler: H,
    /// What has run its stop functions.
    pub functions: F,
}
