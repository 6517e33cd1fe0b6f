//! A fence on all CPUs, as the system call `membarrier` (`kernel/sched/membarrier.c`): when it returns, each other CPU has
//! passed it.

ghost use Rattle.std.specs.Prelude.{◌≡◌, ◌&&◌, ◌==◌, ℕ, not, IfOk};
ghost use Rattle.smp_mask.specs.Mask.{has, members};
ghost use Rattle.smp_calls.specs.Ended.{HaveEnded};
ghost use Rattle.smp_calls.specs.Records.{many_call};
ghost use Rattle.smp_machine.specs.Seats.{IsSameSeat};

use crate::end::calls_run;
use smp_labels::LabelMap;
use smp_machine::{Crew, Machine, NoStop, Seat, Silent, run_cpus};
use smp_mask::{CpuMask, SmpError};
use smp_words::call::Class;
use std::alloc::{AllocError, Global};
use std::sync::Wait;
use std::thread::Threads;

/// Makes each other online CPU run a function that does nothing, and waits until each has: these CPUs.
#[tactic(auto, using(crate::proofs::Others::others_are, crate::proofs::Others::all_ended))]
fn fence<R: Wait>(seat: &mut Seat<'_, Global, R, Silent, NoStop>) -> Result<CpuMask, SmpError>
    // Those that have passed are all that are online but this one.
    ensures others { IfOk result (λ passed. (c : ℕ) → has passed c ≡ (has seat.old.machine.calls.online c && not (c == seat.old.cpu.calls.number))) }
    // Each of them has run this call of the fence to its end, in some words.
    ensures passed { IfOk result (λ passed. HaveEnded seat.new.cpu.calls (many_call seat.old.cpu.calls.number Class.Sync 0 0) (members passed)) }
    ensures same { IsSameSeat seat.old seat.new }
{
    seat.kick_all_cpus_sync(0)
}

/// Each CPU makes ten fences.
struct Fences;

impl Crew<Silent, NoStop, Global> for Fences {
    ghost begins = { λ _ _ _ _. Unit {0} };

    ghost plays = { λ _ _ _. Unit {0} };

    fn make(&self, _cpu: u32) -> Result<(Silent, NoStop), AllocError> {
        Ok((Silent, NoStop))
    }

    fn play<R: Wait>(&self, seat: &mut Seat<'_, Global, R, Silent, NoStop>) {
        for _ in 0..10 {
            let _ = fence(seat);
        }
    }
}

/// Runs four CPUs: how many calls they have run.
#[tactic(auto, using(crate::proofs::Ending::all_at))]
pub fn run<R: Wait + Threads + Sync>(rt: &R, alloc: Global) -> Result<u64, SmpError> {
    let (machine, boot) = Machine::new(alloc, 4, "0-3".parse()?, &LabelMap::empty())?;
    let played = run_cpus(rt, alloc, &machine, boot, &Fences)?;
    calls_run(machine, played)
}
