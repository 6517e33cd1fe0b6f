//! CPUs that have nothing to do, and sleep.

ghost use Rattle.smp_machine.specs.Seats.{IsSameSeat};

use crate::bench::machine_seat::BenchSeat;
use crate::bench::meter::Meter;
use crate::flag::Flag;
use crate::request::Limit;
use std::sync::Wait;
use std::thread;
use std::time::{Clock, CpuClock, Duration};

/// The function by which the first CPU ends a rest, and its info.
const FUNC: u16 = 7;

const INFO: u64 = 42;

/// Rests until the first CPU is through. A call has to follow that sign, since it is looked for between two rests.
pub fn rest_to_the_end<R: Wait>(seat: &mut BenchSeat<'_, R>, over: &Flag)
    ensures { IsSameSeat seat.old seat.new }
{
    for _ in seat.rt.forever() {
        if over.is_set() {
            return;
        }
        seat.rest();
    }
    unreachable!()
}

/// Calls all other CPUs, and waits until their functions have run.
pub fn call_all<R: Wait>(seat: &mut BenchSeat<'_, R>)
    ensures { IsSameSeat seat.old seat.new }
{
    let all = seat.online();
    let _ = seat.call_many(all, FUNC, INFO, true);
}

/// How many rests there are to be.
fn rests_of(limit: Limit) -> u32 {
    match limit {
        Limit::Operations(most) => most.max(1),
        Limit::Milliseconds(_) => 1,
    }
}

/// The first CPU sleeps as long as the others are to rest, where that is a time.
fn sleep<T: Clock>(rt: &T, limit: Limit) {
    if let Limit::Milliseconds(most) = limit {
        thread::sleep(rt, Duration::from_millis(u64::from(most)));
    }
}

/// All CPUs rest, again and again, until the first calls the others. Before the last call it tells them that it is through.
pub fn rest_and_call<R: Wait, T: Clock + CpuClock + Eprint>(
    rt: &T,
    seat: &mut BenchSeat<'_, R>,
    over: &Flag,
    meter: &mut Meter<T>,
)
    ensures { IsSameSeat seat.old seat.new }
{
    let limit = meter.limit();
    for left in (0..rests_of(limit)).rev() {
        sleep(rt, limit);
        if left == 0 {
            over.set();
        }
        call_all(seat);
        meter.lap(1);
    }
}
