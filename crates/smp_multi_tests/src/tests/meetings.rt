//! Stops of several CPUs between threads.

use super::*;
use crossbeam_utils::Backoff;
use smp_start::StartLine;
use std::sync::Wait;
use std::sync::atomic::{AtomicU64, Ordering};
use std::thread;
use std::thread::Threads;

/// How many stops the CPUs make together.
const STOPS: u32 = 500;

/// How many CPUs there are, each with a thread: all are of each stop.
const CPUS: u32 = 4;

/// What the threads share: where they start, a counter that stop functions alone write, how many functions run
/// now, and how many CPUs saw what they should.
#[derive(Drop)]
struct Hall {
    start: StartLine,
    count: AtomicU64,
    running: AtomicU64,
    right: AtomicU64,
}

/// A stop function: where it runs on one CPU it adds 1 to the counter, by a load and a store.
#[derive(Drop)]
struct Member<'a> {
    hall: &'a Hall,
    calls: u64,
    whole: bool,
}

/// What the function answers: 0 in each third stop, else a number that tells the CPU.
fn told(cpu: u32, func: u16) -> i32 {
    if func % 3 == 0 {
        0
    } else {
        -1 - (cpu % NR_CPUS) as i32
    }
}

impl<'a> StopFunc for Member<'a> {
    ghost leads = { λ _ _ _. Unit {0} };

    fn run(&mut self, cpu: u32, func: u16, arg: u64) -> i32 {
        let hall = self.hall;
        let others = hall.running.fetch_add(1, Ordering::SeqCst);
        let seen = hall.count.load(Ordering::SeqCst);
        if arg == 1 {
            self.whole = self.whole && others == 0;
            hall.count.store(seen.wrapping_add(1), Ordering::SeqCst);
        } else {
            self.whole = self.whole && hall.count.load(Ordering::SeqCst) == seen;
        }
        hall.running.fetch_sub(1, Ordering::SeqCst);
        self.calls = self.calls.wrapping_add(1);
        told(cpu, func)
    }
}

/// Enters the stop of a slot once it is open, goes through its phases, and completes.
fn attend(cpu: &mut Driver, member: &mut Member, slot: u32) -> bool {
    let backoff = Backoff::new();
    for _ in 0..TURNS {
        if cpu.enter(slot).is_ok() {
            break;
        }
        backoff.snooze();
    }
    for _ in 0..TURNS {
        match cpu.advance(member) {
            Ok(Turn::Left) => return cpu.finish().is_ok(),
            Ok(Turn::Same) => backoff.snooze(),
            Ok(_) => {}
            Err(_) => return false,
        }
    }
    false
}

/// Opens a stop of these CPUs once the gate is free.
fn call_all(cpu: &mut Driver, work: Work) -> bool {
    let backoff = Backoff::new();
    for _ in 0..TURNS {
        if cpu.try_gate() {
            return cpu.begin(work).is_ok();
        }
        backoff.snooze();
    }
    false
}

/// Whether this is a result of a stop with these active CPUs.
fn may_answer(active: CpuMask, func: u16, answer: i32) -> bool {
    if active.weight() == 0 {
        return answer == 0;
    }
    for cpu in active.iter() {
        if told(cpu, func) == answer {
            return true;
        }
    }
    false
}

/// Waits until all have completed, and gives up the gate. Whether the result was right.
fn collect(cpu: &mut Driver, active: CpuMask, func: u16) -> bool {
    let backoff = Backoff::new();
    for _ in 0..TURNS {
        match cpu.poll_done() {
            Ok(Some(answer)) => return cpu.open_gate().is_ok() && may_answer(active, func, answer),
            Ok(None) => backoff.snooze(),
            Err(_) => return false,
        }
    }
    false
}

/// The CPUs of these bits.
fn cpus_of(bits: u32) -> Result<CpuMask, SmpError> {
    let mut mask = CpuMask::empty();
    for cpu in 0..CPUS {
        if (bits >> cpu) & 1 == 1 {
            mask = mask.with(cpu)?;
        }
    }
    Ok(mask)
}

/// One stop of all CPUs: each is the source in its turn, and each set of them is active in its turn.
fn meet(cpu: &mut Driver, member: &mut Member, all: CpuMask, round: u32) -> bool {
    let Ok(active) = cpus_of(round % 16) else {
        return false;
    };
    let source = round % CPUS;
    if cpu.cpu.number() != source {
        return attend(cpu, member, source);
    }
    let func = (round % 1_000) as u16;
    let work = Work {
        kind: Kind::Multi,
        mask: all,
        active,
        func,
        arg: u64::from(active.weight() == 1),
    };
    call_all(cpu, work) && attend(cpu, member, source) && collect(cpu, active, func)
}

/// What one thread does.
fn run<R: Wait>(mut cpu: Driver, rt: &R, hall: &Hall, all: CpuMask) {
    if !hall.start.wait(rt) {
        return;
    }
    let mut member = Member {
        hall,
        calls: 0,
        whole: true,
    };
    for round in 0..STOPS {
        if !meet(&mut cpu, &mut member, all, round) {
            return;
        }
    }
    // Of 500 stops, 31 times each set of CPUs was active, and once more those of bits 0, 1, 2 and 3.
    let calls = if cpu.cpu.number() < 2 { 250 } else { 248 };
    if member.whole && member.calls == calls {
        hall.right.fetch_add(1, Ordering::SeqCst);
    }
}

/// Runs each of the CPUs on a thread of its own, to the end.
fn run_threads<R: Wait + Threads + Sync>(
    rt: &R,
    drivers: Vec<Driver, Global>,
    hall: &Hall,
    all: CpuMask,
) {
    let mut started = true;
    thread::scope(thread::scope_env(), rt, |scope| {
        for driver in drivers {
            let spawned = scope.spawn(move || run(driver, rt, hall, all));
            started = started && spawned.is_ok();
        }
        hall.start.settle(started);
    });
}

/// Runs the CPUs of a new table in threads: how many saw what they should, and the counter.
fn run_all<R: Wait + Threads + Sync>(rt: &R, alloc: Global) -> Result<(u64, u64), SmpError> {
    let none = LabelMap::empty();
    let all: CpuMask = "0-3".parse()?;
    let hall = Hall {
        start: StartLine::new(),
        count: AtomicU64::new(0),
        running: AtomicU64::new(0),
        right: AtomicU64::new(0),
    };
    let (table, boot) = StopTable::new(alloc, CPUS, all, &none)?;
    let drivers = Room::new(&table, boot).drive_all(alloc, CPUS)?;
    run_threads(rt, drivers, &hall, all);
    Ok((
        hall.right.load(Ordering::SeqCst),
        hall.count.load(Ordering::SeqCst),
    ))
}

// One CPU is active in 126 of the stops: 31 times each of four, and once more CPU 0 and CPU 1.
#[test]
fn four_threads_stop_together(rt: HostRuntime) -> Result<(), Fail> {
    assert_eq!(rt; run_all(&rt, rt.alloc())?, (4, 126));
    Ok(())
}
