//! Each family between threads that poll.

ghost use Rattle.std.specs.Prelude.{◌≡◌, IfOk};

use super::*;
use crossbeam_utils::Backoff;
use smp_queue::Left;
use smp_start::StartLine;
use std::thread;
use std::thread::Threads;

/// How often each CPU makes each call.
const ROUNDS: usize = 50;

/// How many CPUs make calls, each with a thread.
const CALLERS: u64 = 4;

/// Where the threads start, and how many CPUs heard what they should.
#[derive(Drop)]
struct Progress {
    start: StartLine,
    right: AtomicU64,
}

impl Progress {
    fn new() -> Progress {
        Progress {
            start: StartLine::new(),
            right: AtomicU64::new(0),
        }
    }
}

/// Calls another CPU by the user's record, and handles its own interrupts while that is busy.
fn repeat_by_user<R: Wait>(driver: &mut Driver, rt: &R, dst: u32) -> Result<(), SmpError> {
    let backoff = Backoff::new();
    for _ in 0..TURNS {
        if driver.by_user(rt, 0, dst, 6).is_ok() {
            return Ok(());
        }
        driver.poll();
        backoff.snooze();
    }
    Err(SmpError::Busy)
}

/// The CPU after this one, where the lowest comes after the highest.
fn next_of(all: CpuMask, this: u32) -> u32 {
    all.next_after(this).or(all.first()).unwrap_or(this)
}

fn call_each_other<R: Wait>(driver: &mut Driver, rt: &R, others: CpuMask) -> Result<(), SmpError> {
    for other in others.iter() {
        driver.single(rt, other, 1, true)?;
        driver.single(rt, other, 2, false)?;
    }
    Ok(())
}

/// Makes each call once, to all other CPUs or to the next one.
fn call_all<R: Wait>(driver: &mut Driver, rt: &R, all: CpuMask) -> Result<(), SmpError> {
    let this = driver.cpu.number();
    call_each_other(driver, rt, all.without(this))?;
    let next = next_of(all, this);
    driver.any(rt, CpuMask::of(next)?, 3, true)?;
    driver.many(rt, all, 4, true);
    let call = CondCall {
        mask: all,
        func: 5,
        wait: true,
    };
    driver.each(rt, call, &|cpu, _| cpu % 2 == 0);
    repeat_by_user(driver, rt, next)
}

/// Whether the CPU has heard each call as often as it was made.
fn has_heard_all(driver: &Driver, all: CpuMask) -> bool {
    let this = driver.cpu.number();
    all.iter().all(|src| {
        let from_other = if src == this { 0 } else { ROUNDS };
        let from_before = if next_of(all, src) == this { ROUNDS } else { 0 };
        let from_even = if this % 2 == 0 { ROUNDS } else { 0 };
        [
            (1, from_other),
            (2, from_other),
            (3, from_before),
            (4, from_other),
            (5, from_even),
            (6, from_before),
        ]
        .iter()
        .all(|(func, times)| driver.times(src, *func) == *times)
    })
}

/// Is done with its calls, and polls until all CPUs are, and once more. Whether all were done in time.
fn poll_to_the_end(driver: &mut Driver, start: &StartLine) -> bool {
    start.note_done();
    let backoff = Backoff::new();
    for _ in 0..TURNS {
        let last = start.done() >= CALLERS;
        driver.poll();
        if last {
            return true;
        }
        backoff.snooze();
    }
    false
}

/// What one thread does: its calls, then it polls until all CPUs are done, and once more.
fn run<R: Wait>(mut driver: Driver, rt: &R, all: CpuMask, progress: &Progress) {
    if !progress.start.wait(rt) {
        return;
    }
    let mut refused = false;
    for _ in 0..ROUNDS {
        refused |= call_all(&mut driver, rt, all).is_err();
    }
    let ended = poll_to_the_end(&mut driver, &progress.start);
    if ended && !refused && driver.heard.whole && has_heard_all(&driver, all) {
        progress.right.fetch_add(1, Ordering::SeqCst);
    }
}

/// Runs each of the CPUs on a thread of its own, to the end: how many heard what they should.
fn run_threads<R: Wait + Threads + Sync>(
    rt: &R,
    drivers: Vec<Driver, Global>,
    all: CpuMask,
) -> u64 {
    let progress = Progress::new();
    let shared = &progress;
    let mut started = true;
    thread::scope(thread::scope_env(), rt, |scope| {
        for driver in drivers {
            let spawned = scope.spawn(move || run(driver, rt, all, shared));
            started = started && spawned.is_ok();
        }
        shared.start.settle(started);
    });
    progress.right.load(Ordering::SeqCst)
}

fn mask_of(numbers: &[u32]) -> Result<CpuMask, SmpError> {
    let mut mask = CpuMask::empty();
    for number in numbers {
        mask = mask.with(*number)?;
    }
    Ok(mask)
}

/// A new table on which one CPU more than these is online, what is left of its CPUs, and that one.
fn table_and_last(
    alloc: Global,
    nr: u32,
    all: CpuMask,
    last: u32,
) -> Result<(CallTable<Global>, Boot<Global>, CallCpu), SmpError>
    ensures { IfOk result (λ t. (t.1.table.table ≡ t.0.table) × (t.2.table ≡ t.0.table)) }
{
    let (table, mut boot) = CallTable::new(alloc, nr, all.with(last)?)?;
    let last = boot.cpu(last)?;
    Ok((table, boot, last))
}

/// Runs these four CPUs of a new table in threads: how many heard what they should, and what is left. One CPU
/// more keeps the table's last value.
fn run_all<R: Wait + Threads + Sync>(
    rt: &R,
    alloc: Global,
    nr: u32,
    callers: [u32; 4],
    last: u32,
) -> Result<(u64, Audit), SmpError> {
    let all = mask_of(&callers)?;
    let (table, boot, last) = table_and_last(alloc, nr, all, last)?;
    let drivers = Room::new(&table, boot, alloc).drive_all(&callers)?;
    let right = run_threads(rt, drivers, all);
    Ok((right, table.audit(last)))
}

const DRAINED: Left = Left {
    heads: 0,
    locked: 0,
    handling: 0,
};

// In each round a CPU makes three calls to each other one, two more to the next one, and one more to an even one.

#[test]
fn calls_between_threads_that_poll_all_run(rt: HostRuntime) -> Result<(), Fail> {
    let (right, audit) = run_all(&rt, rt.alloc(), 8, [0, 2, 5, 7], 1)?;
    assert_eq!(rt; right, CALLERS);
    let calls = [(0, 2, 300), (0, 5, 150), (5, 7, 250), (5, 2, 200)];
    all_have_run(&rt, &audit, &calls);
    Ok(())
}

#[test]
fn calls_between_threads_of_a_wide_table_all_run(rt: HostRuntime) -> Result<(), Fail> {
    let (right, audit) = run_all(&rt, rt.alloc(), 32, [3, 7, 8, 31], 20)?;
    assert_eq!(rt; right, CALLERS);
    let calls = [(7, 8, 300), (3, 31, 150), (31, 3, 250), (31, 8, 200)];
    all_have_run(&rt, &audit, &calls);
    Ok(())
}

/// This number of calls were queued and ran from each CPU to the other, and nothing is left.
fn all_have_run(rt: &impl Abort, audit: &Audit, calls: &[(usize, usize, u64)]) {
    match audit {
        Audit::Drained(tally) => {
            for (src, dst, count) in calls {
                let queued = count_in(&tally.queued, *src, *dst);
                let ran = count_in(&tally.ran, *dst, *src);
                assert_eq!(rt;
                    (*src, *dst, queued, ran),
                    (*src, *dst, Some(*count), Some(*count))
                );
            }
        }
        Audit::Left(left) => assert_eq!(rt; *left, DRAINED),
    }
}

fn count_in(
    counts: &[[u64; NR_CPUS as usize]; NR_CPUS as usize],
    row: usize,
    column: usize,
) -> Option<u64> {
    counts.get(row)?.get(column).copied()
}
