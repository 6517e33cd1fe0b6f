//! What a thread does at a machine, over and over: stops, changes of a key, and idle polls.

ghost use Rattle.smp_machine.specs.Seats.{IsSameSeat};

use crate::bench::machine_seat::{BenchSeat, count};
use crate::bench::workload::Workload;
use crate::cpus::turn_and_poll;
use crate::request::Limit;
use std::sync::Wait;

/// The function that all stops name, and its argument.
const FUNC: u16 = 3;

const ARG: u64 = 4;

/// Stops that are timed together.
const STOPS: u32 = 10;

/// Changes of a count, or idle polls, that are timed together.
const SHORT: u32 = 100;

/// Counts the key up and down in turn.
pub fn count_batch<R: Wait>(seat: &mut BenchSeat<'_, R>)
    ensures { IsSameSeat seat.old seat.new }
{
    for i in 0..SHORT {
        count(seat, i % 2 == 0);
    }
}

/// How many batches of changes there are to be, where they are counted.
pub fn batches_of(limit: Limit) -> Option<u32> {
    match limit {
        Limit::Operations(most) => Some(most.div_ceil(SHORT)),
        Limit::Milliseconds(_) => None,
    }
}

/// One batch of stops; a key is turned on and off in turn.
fn stop_batch<R: Wait>(seat: &mut BenchSeat<'_, R>, workload: Workload)
    ensures { IsSameSeat seat.old seat.new }
{
    for i in 0..STOPS {
        match workload {
            Workload::StopOne => seat.stop_one(1, FUNC, ARG).is_ok(),
            Workload::SetKey => seat.set_key(0, i % 2 == 0).is_ok(),
            _ => seat.stop_machine(FUNC, ARG, None).is_ok(),
        };
    }
}

/// One batch of this workload: how many operations it has.
pub fn run_batch<R: Wait>(seat: &mut BenchSeat<'_, R>, workload: Workload) -> u32
    ensures { IsSameSeat seat.old seat.new }
{
    match workload {
        Workload::CountOne | Workload::CountAll => {
            count_batch(seat);
            SHORT
        }
        Workload::Idle => {
            for _ in 0..SHORT {
                turn_and_poll(seat);
            }
            SHORT
        }
        _ => {
            stop_batch(seat, workload);
            STOPS
        }
    }
}
