//! One key that four threads raise and lower.

use super::labels::{patch, two_sites};
use super::*;
use crossbeam_utils::Backoff;
use std::sync::Wait;
use std::sync::atomic::{AtomicU64, Ordering};
use std::thread;
use std::thread::Threads;

/// How often each CPU raises the key, and lowers it.
const NUDGES: u32 = 2_000;

/// How many CPUs there are, each with a thread.
const CPUS: u32 = 4;

/// One more, which raises the key from 0 before they begin.
const SOURCE: u32 = CPUS;

/// Moves the key once, by trying again. Whether it has.
fn nudge(cpu: &mut Driver, up: bool) -> bool {
    let backoff = Backoff::new();
    for _ in 0..TURNS {
        match cpu.try_key(0, up) {
            Ok(Nudge::Done) => return true,
            Ok(Nudge::Lost) => backoff.spin(),
            _ => return false,
        }
    }
    false
}

/// What one thread does: it raises the key and lowers it again, and at last raises it once more.
fn run(mut cpu: Driver, right: &AtomicU64) {
    for _ in 0..NUDGES {
        if !nudge(&mut cpu, true) || !nudge(&mut cpu, false) {
            return;
        }
    }
    if nudge(&mut cpu, true) {
        right.fetch_add(1, Ordering::SeqCst);
    }
}

/// One turn of a CPU's part in the stop of the source.
fn serve(cpu: &mut Driver, func: &mut Answerer) {
    if !cpu.cpu.in_stop() {
        let _ = cpu.enter(SOURCE);
    } else if cpu.advance(func) == Ok(Turn::Left) {
        let _ = cpu.finish();
    }
}

/// Each CPU has such a turn.
fn serve_each(cpus: &mut [Driver], func: &mut Answerer) {
    for cpu in cpus {
        serve(cpu, func);
    }
}

/// All CPUs make a stop that raises the key from 0: its result.
fn turn_on(source: &mut Driver, others: &mut [Driver], work: Work) -> Option<i32> {
    let mut func = Answerer::new(9);
    if !source.try_gate() || source.begin(work).is_err() {
        return None;
    }
    for _ in 0..20 {
        serve(source, &mut func);
        serve_each(others, &mut func);
        if let Ok(Some(answer)) = source.poll_done() {
            return Some(answer);
        }
    }
    None
}

/// Runs each of the CPUs on a thread of its own, to the end.
fn run_threads<R: Wait + Threads>(rt: &R, drivers: Vec<Driver, Global>, right: &AtomicU64) {
    let mut started = true;
    thread::scope(thread::scope_env(), rt, |scope| {
        for driver in drivers {
            let spawned = scope.spawn(move || run(driver, right));
            started = started && spawned.is_ok();
        }
    });
    if !started {
        right.fetch_add(200, Ordering::SeqCst);
    }
}

/// Turns the key on, and then runs the other CPUs in threads: how many moved it as they should.
fn nudge_by<R: Wait + Threads>(
    rt: &R,
    source: &mut Driver,
    mut drivers: Vec<Driver, Global>,
    work: Work,
) -> u64 {
    let answer = turn_on(source, drivers.as_mut_slice(), work);
    let right = AtomicU64::new(if answer == Some(0) { 0 } else { 100 });
    run_threads(rt, drivers, &right);
    right.load(Ordering::SeqCst)
}

/// Turns the key on, and then runs the CPUs in threads: how many moved it as they should, and its count then.
fn nudge_all<R: Wait + Threads>(
    rt: &R,
    alloc: Global,
    room: &mut Room,
    work: Work,
) -> Result<(u64, u64), SmpError> {
    let drivers = room.drive_all(alloc, CPUS)?;
    let mut source = room.drive(SOURCE)?;
    let right = nudge_by(rt, &mut source, drivers, work);
    let count = source.count_of_key()?;
    Ok((right, count))
}

/// Runs the CPUs of a new table: how many moved the key as they should, and its count.
fn run_all<R: Wait + Threads>(rt: &R, alloc: Global) -> Result<(u64, u64), SmpError> {
    let online: CpuMask = "0-4".parse()?;
    let (table, boot) = StopTable::new(alloc, CPUS + 1, online, &two_sites()?)?;
    let work = patch(online, 2)?;
    nudge_all(rt, alloc, &mut Room::new(&table, boot), work)
}

#[test]
fn four_threads_nudge_one_key(rt: HostRuntime) -> Result<(), Fail> {
    // 1 by the patch, and 1 more by each CPU.
    assert_eq!(rt; run_all(&rt, rt.alloc())?, (u64::from(CPUS), 5));
    Ok(())
}
