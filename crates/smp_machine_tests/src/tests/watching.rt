//! A CPU that keeps a stop waiting is named, and a call to it that gives up waiting says so.

ghost use Rattle.smp_machine.specs.Seats.{IsSameSeat};

use super::hall::run_watched;
use super::*;
use crossbeam_utils::Backoff;
use std::sync::atomic::{AtomicU64, Ordering};

/// CPU 0 stops both CPUs, and CPU 1 takes no part before it is named.
#[derive(Drop)]
struct Late {
    right: AtomicU64,
}

/// Whether CPU 1 alone is named, by the last of some looks.
fn is_named<R: Wait>(seat: &Seat<'_, Global, R, Silent, NoStop>) -> bool {
    let backoff = Backoff::new();
    for _ in 0..TURNS {
        if CpuMask::of(1) == Ok(seat.machine.silent()) {
            return true;
        }
        backoff.snooze();
    }
    false
}

/// Calls CPU 1, which does not poll, stops it, and calls it again: whether it is named while it does not answer, and not any
/// more once it has.
fn call_and_stop<R: Wait>(seat: &mut Seat<'_, Global, R, Silent, NoStop>) -> Result<bool, SmpError>
    ensures { IsSameSeat seat.old seat.new }
{
    let one = CpuMask::of(1)?;
    let before = seat.call_many_within(one, 1, 0, 10)?;
    let answer = seat.stop_machine(0, 0, None)?;
    let after = seat.call_many_within(one, 1, 0, u32::MAX)?;
    let late = (before.called, before.silent) == (one, one);
    let none = CpuMask::empty();
    Ok(late && answer == 0 && after.silent == none && seat.machine.silent() == none)
}

impl Crew<Silent, NoStop, Global> for Late {
    ghost begins = { λ _ _ _ _. Unit {0} };

    ghost plays = { λ _ _ _. Unit {0} };

    fn make(&self, _cpu: u32) -> Result<(Silent, NoStop), AllocError> {
        Ok((Silent, NoStop))
    }

    fn play<R: Wait>(&self, seat: &mut Seat<'_, Global, R, Silent, NoStop>) {
        let right = match seat.number() {
            0 => call_and_stop(seat) == Ok(true),
            _ => is_named(seat),
        };
        if right {
            self.right.fetch_add(1, Ordering::SeqCst);
        }
    }
}

#[test]
fn a_cpu_that_takes_no_part_is_named(rt: HostRuntime) -> Result<(), Fail> {
    let (machine, boot) = Machine::new(rt.alloc(), 2, "0-1".parse()?, &LabelMap::empty())?;
    let late = Late {
        right: AtomicU64::new(0),
    };
    run_watched(&rt, rt.alloc(), &machine, boot, &late)?;
    assert_eq!(rt; late.right.load(Ordering::SeqCst), 2);
    Ok(())
}
