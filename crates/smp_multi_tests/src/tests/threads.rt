//! Stops of one CPU between threads.

use super::*;
use crossbeam_utils::Backoff;
use smp_start::StartLine;
use std::sync::Wait;
use std::sync::atomic::{AtomicU64, Ordering};
use std::thread;
use std::thread::Threads;

/// How many stops each CPU makes.
const STOPS: u64 = 500;

/// How many CPUs there are, each with a thread.
const CPUS: u32 = 4;

/// Where the threads start, and how many CPUs saw what they should.
#[derive(Drop)]
struct Progress {
    start: StartLine,
    right: AtomicU64,
}

impl Progress {
    fn new() -> Progress {
        Progress {
            start: StartLine::new(),
            right: AtomicU64::new(0),
        }
    }
}

/// Answers a number that the CPU, the function and the argument tell: below 0, 0 and above 0.
#[derive(Drop)]
struct Teller {
    calls: u64,
}

fn told(cpu: u32, func: u16, arg: u64) -> i32 {
    (arg % 1_000) as i32 - 250 + (cpu % NR_CPUS) as i32 * 1_000 * (func % 2) as i32
}

impl StopFunc for Teller {
    ghost leads = { λ _ _ _. Unit {0} };

    fn run(&mut self, cpu: u32, func: u16, arg: u64) -> i32 {
        self.calls = self.calls.wrapping_add(1);
        told(cpu, func, arg)
    }
}

/// Runs the function of each stop that calls the CPU. Whether all that were entered could be run.
fn serve(cpu: &mut Driver, teller: &mut Teller) -> bool {
    let mut whole = true;
    for slot in 0..CPUS {
        if cpu.enter(slot).is_ok() {
            whole = cpu.run_one(teller).is_ok() && whole;
        }
    }
    whole
}

/// Takes the gate by trying again, and serves while it waits. Whether it has it, and all could be served.
fn take_gate(cpu: &mut Driver, teller: &mut Teller) -> bool {
    let backoff = Backoff::new();
    let mut whole = true;
    for _ in 0..TURNS {
        if cpu.try_gate() {
            return whole;
        }
        whole = serve(cpu, teller) && whole;
        backoff.snooze();
    }
    false
}

/// Serves until the own stop is over: its answer, where it came in time and all could be served.
fn await_answer(cpu: &mut Driver, teller: &mut Teller) -> Option<i32> {
    let backoff = Backoff::new();
    let mut whole = true;
    for _ in 0..TURNS {
        match cpu.poll_done() {
            Ok(Some(answer)) => return if whole { Some(answer) } else { None },
            Ok(None) => whole = serve(cpu, teller) && whole,
            Err(_) => return None,
        }
        backoff.snooze();
    }
    None
}

/// Stops one CPU. Whether the answer was right.
fn stop_one(cpu: &mut Driver, teller: &mut Teller, target: u32, func: u16, arg: u64) -> bool {
    let Ok(work) = one(target, func, arg) else {
        return false;
    };
    take_gate(cpu, teller)
        && cpu.begin(work).is_ok()
        && cpu.open_gate().is_ok()
        && await_answer(cpu, teller) == Some(told(target, func, arg))
}

/// Makes the CPU's stops, up to the first that is not answered right. Whether each was.
fn stop_all(cpu: &mut Driver, teller: &mut Teller) -> bool {
    let this = cpu.cpu.number();
    for round in 0..STOPS {
        let target = (this + (round % 4) as u32) % CPUS;
        if !stop_one(cpu, teller, target, (round % 3) as u16, round) {
            return false;
        }
    }
    true
}

/// Is done with its stops, and serves until all CPUs are, and once more. Whether they were in time, and all could be served.
fn serve_to_the_end(cpu: &mut Driver, teller: &mut Teller, start: &StartLine) -> bool {
    start.note_done();
    let backoff = Backoff::new();
    let mut whole = true;
    for _ in 0..TURNS {
        let last = start.done() >= u64::from(CPUS);
        whole = serve(cpu, teller) && whole;
        if last {
            return whole;
        }
        backoff.snooze();
    }
    false
}

/// What one thread does: its stops, then it serves until all CPUs are done.
fn run<R: Wait>(mut cpu: Driver, rt: &R, progress: &Progress) {
    if !progress.start.wait(rt) {
        return;
    }
    let mut teller = Teller { calls: 0 };
    let stopped = stop_all(&mut cpu, &mut teller);
    let served = serve_to_the_end(&mut cpu, &mut teller, &progress.start);
    // Each CPU makes as many stops on each.
    if stopped && served && teller.calls == STOPS {
        progress.right.fetch_add(1, Ordering::SeqCst);
    }
}

/// Runs each of the CPUs on a thread of its own, to the end.
fn run_threads<R: Wait + Threads + Sync>(
    rt: &R,
    drivers: Vec<Driver, Global>,
    progress: &Progress,
) {
    let mut started = true;
    thread::scope(thread::scope_env(), rt, |scope| {
        for driver in drivers {
            let spawned = scope.spawn(move || run(driver, rt, progress));
            started = started && spawned.is_ok();
        }
        progress.start.settle(started);
    });
}

/// Runs the CPUs of a new table in threads: how many saw what they should.
fn run_all<R: Wait + Threads + Sync>(rt: &R, alloc: Global) -> Result<u64, SmpError> {
    let none = LabelMap::empty();
    let progress = Progress::new();
    let (table, boot) = StopTable::new(alloc, CPUS, "0-3".parse()?, &none)?;
    let drivers = Room::new(&table, boot).drive_all(alloc, CPUS)?;
    run_threads(rt, drivers, &progress);
    Ok(progress.right.load(Ordering::SeqCst))
}

#[test]
fn four_threads_stop_each_other(rt: HostRuntime) -> Result<(), Fail> {
    assert_eq!(rt; run_all(&rt, rt.alloc())?, u64::from(CPUS));
    Ok(())
}
