//! Calls between threads.

ghost use Rattle.std.specs.Prelude.{◌≤◌};

use crate::bench::call_seat::{CallRoom, CallSeat, calls_run};
use crate::bench::meter::Meter;
use crate::bench::workload::Workload;
use crate::cpus::first_cpus;
use crate::error::LoadError;
use crate::flag::Flag;
use crossbeam_utils::{Backoff, CachePadded};
use smp_mask::CpuMask;
use smp_queue::CallTable;
use smp_start::StartLine;
use std::alloc::Global;
use std::sync::Wait;
use std::thread;
use std::thread::Threads;
use std::time::{Clock, CpuClock};

/// Operations of one thread that are timed together.
const BATCH: u32 = 100;

/// What the threads share beside the table.
#[derive(Drop)]
struct Shared {
    workload: Workload,
    /// The CPUs beside the first, and how many they are.
    others: CpuMask,
    count: u32,
    /// How many calls each of them makes where it is a source, or until all are to stop.
    times: u64,
    /// A source is done once it has made its last call.
    start: StartLine,
    /// Set once all are to stop.
    stop: Flag,
}

impl Shared {
    /// What the threads of a workload share, where this number of operations is to be made by this number of threads.
    fn new(workload: Workload, threads: u32, quota: u64) -> Result<Shared, LoadError>
        requires { 1 ≤ threads }
    {
        let count = threads - 1;
        Ok(Shared {
            workload,
            others: first_cpus(threads)?.without(0),
            count,
            times: quota / u64::from(count.max(1)),
            start: StartLine::new(),
            stop: Flag::new(),
        })
    }
}

/// Handles a CPU's own interrupts until it is told to stop.
fn answer<R: Wait>(rt: &R, mut seat: CallSeat, shared: &Shared) {
    let mut backoff = Backoff::new();
    for _ in rt.forever() {
        if shared.stop.is_set() {
            return;
        }
        if seat.poll() > 0 {
            backoff = Backoff::new();
        } else {
            backoff.snooze();
        }
    }
    unreachable!()
}

/// Rests until it is told to stop.
fn rest<R: Wait>(rt: &R, mut seat: CallSeat, shared: &Shared) {
    for _ in rt.forever() {
        if seat.rest(rt, &shared.stop) {
            return;
        }
    }
    unreachable!()
}

/// Calls CPU 0 without wait, as often as it has to or until it is told to stop.
fn call_zero<R: Wait>(rt: &R, mut seat: CallSeat, shared: &Shared) {
    if !shared.start.wait(rt) {
        return;
    }
    for _ in 0..shared.times {
        if shared.stop.is_set() {
            break;
        }
        seat.single(rt, 0, false);
    }
    shared.start.note_done();
}

/// What a thread beside the first does.
fn help<R: Wait>(rt: &R, seat: CallSeat, shared: &Shared) {
    match shared.workload {
        Workload::Async => call_zero(rt, seat, shared),
        Workload::Wake => rest(rt, seat, shared),
        _ => answer(rt, seat, shared),
    }
}

/// Calls with wait until the meter says that it is enough, and then tells the others to stop.
fn call_and_wait<R: Wait + Clock + CpuClock + Eprint>(
    rt: &R,
    seat: &mut CallSeat,
    shared: &Shared,
    meter: &mut Meter<R>,
) {
    let many = shared.workload == Workload::Many;
    for _ in rt.forever() {
        for _ in 0..BATCH {
            if many {
                seat.many(rt, shared.others);
            } else {
                seat.single(rt, 1, true);
            }
        }
        if !meter.lap(BATCH) {
            shared.stop.set();
            return;
        }
    }
    unreachable!()
}

/// Handles the calls of all sources until each has made its last. Tells them to stop where the meter says that it is enough.
fn handle_all<R: Wait + Clock + CpuClock + Eprint>(
    rt: &R,
    seat: &mut CallSeat,
    shared: &Shared,
    meter: &mut Meter<R>,
) {
    let mut since = 0u32;
    let mut backoff = Backoff::new();
    for _ in rt.forever() {
        let over = shared.start.done() >= u64::from(shared.count);
        let ran = seat.poll();
        since = since.wrapping_add(ran);
        if since >= BATCH || over {
            if !meter.lap(since) {
                shared.stop.set();
            }
            since = 0;
        }
        if over {
            return;
        }
        if ran > 0 {
            backoff = Backoff::new();
        } else {
            backoff.snooze();
        }
    }
    unreachable!()
}

/// What the first thread does, with all others started.
fn lead<R: Wait + Clock + CpuClock + Eprint>(
    rt: &R,
    seat: &mut CallSeat,
    shared: &Shared,
    meter: &mut Meter<R>,
) {
    if shared.workload == Workload::Async {
        handle_all(rt, seat, shared, meter);
    } else {
        call_and_wait(rt, seat, shared, meter);
    }
}

/// Starts the helpers, and leads where all were started: whether they were.
fn run_threads<'a, R: Wait + Threads + Clock + CpuClock + Eprint + Sync>(
    rt: &R,
    mut first: CallSeat<'a>,
    helpers: Vec<CallSeat<'a>, Global>,
    shared: &Shared,
    meter: &mut Meter<R>,
) -> bool {
    let mut started = true;
    thread::scope(thread::scope_env(), rt, |scope| {
        for helper in helpers {
            let spawned = scope.spawn(move || help(rt, helper, shared));
            started = started && spawned.is_ok();
        }
        shared.start.settle(started);
        if started {
            lead(rt, &mut first, shared, meter);
        } else {
            shared.stop.set();
        }
        // A CPU that rests looks whether all are to stop once it is awake.
        first.wake(1);
    });
    started
}

/// Seats one CPU for each thread, and runs the threads.
fn measure<R: Wait + Threads + Clock + CpuClock + Eprint + Sync>(
    rt: &R,
    alloc: Global,
    room: &mut CallRoom,
    shared: &Shared,
    meter: &mut Meter<R>,
) -> Result<(), LoadError> {
    let first = room.seat(0)?;
    let helpers = room.seats(alloc, shared.count.saturating_add(1))?;
    meter.begin()?;
    if run_threads(rt, first, helpers, shared, meter) {
        Ok(())
    } else {
        Err(LoadError::NoThread)
    }
}

/// Runs a workload of calls by this number of threads, with a CPU on each: how many calls have run.
pub fn run<R: Wait + Threads + Clock + CpuClock + Eprint + Sync>(
    rt: &R,
    alloc: Global,
    workload: Workload,
    threads: u32,
    meter: &mut Meter<R>,
) -> Result<u64, LoadError>
    requires { 1 ≤ threads }
{
    // All threads look at it all the time, so that it must share no line with what one of them writes.
    let padded = CachePadded::new(Shared::new(workload, threads, meter.quota())?);
    let shared: &Shared = &padded;
    // One CPU more keeps the table's last value.
    let (table, mut boot) = CallTable::new(alloc, 32, "0-31".parse()?)?;
    let last = boot.cpu(31)?;
    measure(rt, alloc, &mut CallRoom::new(&table, boot), shared, meter)?;
    calls_run(table.audit(last))
}
