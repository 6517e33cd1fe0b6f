//! Posts and their handling by one thread.

use crate::bench::call_seat::{CallRoom, CallSeat, calls_run};
use crate::bench::meter::Meter;
use crate::bench::workload::Workload;
use crate::error::LoadError;
use smp_queue::CallTable;
use std::alloc::Global;
use std::time::{Clock, CpuClock};

/// The CPU that is called.
const TARGET: u32 = 0;

/// How many handlings are timed together.
const ROUNDS: u32 = 100;

/// A source posts one call, and the target handles it. Where there is one of each, nothing is measured but these.
fn round_of_one(source: &mut CallSeat, target: &mut CallSeat) -> u32 {
    source.post(ONE, TARGET);
    target.poll()
}

/// Rounds of one source until the meter says that it is enough.
fn repeat_one<R: Clock + CpuClock + Eprint>(
    source: &mut CallSeat,
    target: &mut CallSeat,
    meter: &mut Meter<R>,
) {
    for _ in 0..u64::MAX {
        let mut handled = 0u32;
        for _ in 0..ROUNDS {
            handled = handled.wrapping_add(round_of_one(source, target));
        }
        if !meter.lap(handled) {
            return;
        }
    }
}

/// Each source posts a call by each of these records, and the target handles them.
fn round(sources: &mut [CallSeat], records: &[u32], target: &mut CallSeat) -> u32 {
    for source in sources {
        for k in records {
            source.post(*k, TARGET);
        }
    }
    target.poll()
}

/// Rounds until the meter says that it is enough.
fn repeat<R: Clock + CpuClock + Eprint>(
    sources: &mut [CallSeat],
    records: &[u32],
    target: &mut CallSeat,
    meter: &mut Meter<R>,
) {
    for _ in 0..u64::MAX {
        let mut handled = 0u32;
        for _ in 0..ROUNDS {
            handled = handled.wrapping_add(round(sources, records, target));
        }
        if !meter.lap(handled) {
            return;
        }
    }
}

/// Seats the target and one source, and repeats rounds.
fn measure_one<R: Clock + CpuClock + Eprint>(
    room: &mut CallRoom,
    meter: &mut Meter<R>,
) -> Result<(), LoadError> {
    let mut target = room.seat(TARGET)?;
    let mut source = room.seat(1)?;
    meter.begin()?;
    repeat_one(&mut source, &mut target, meter);
    Ok(())
}

/// Seats the target and four sources, and repeats rounds.
fn measure_four<R: Clock + CpuClock + Eprint>(
    room: &mut CallRoom,
    alloc: Global,
    meter: &mut Meter<R>,
) -> Result<(), LoadError> {
    let mut target = room.seat(TARGET)?;
    let mut sources = room.seats(alloc, 5)?;
    meter.begin()?;
    repeat(sources.as_mut_slice(), &BOTH, &mut target, meter);
    Ok(())
}

/// Seats the CPUs of a workload, and repeats its rounds.
fn measure<R: Clock + CpuClock + Eprint>(
    room: &mut CallRoom,
    alloc: Global,
    workload: Workload,
    meter: &mut Meter<R>,
) -> Result<(), LoadError> {
    match workload {
        Workload::PostOne => measure_one(room, meter),
        _ => measure_four(room, alloc, meter),
    }
}

/// The user's record by which one source posts, and those by which each of four does.
const ONE: u32 = 10;

const BOTH: [u32; 2] = [10, 11];

/// Posts from each source of this workload, each by each of its records: how many calls have run.
pub fn run<R: Clock + CpuClock + Eprint>(
    alloc: Global,
    workload: Workload,
    meter: &mut Meter<R>,
) -> Result<u64, LoadError> {
    let (table, mut boot) = CallTable::new(alloc, 6, "0-5".parse()?)?;
    let last = boot.cpu(5)?;
    measure(&mut CallRoom::new(&table, boot), alloc, workload, meter)?;
    calls_run(table.audit(last))
}
