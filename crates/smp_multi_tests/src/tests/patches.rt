//! Patches between threads: two CPUs make them, and two read the key and its sites.

use super::labels::{patch, two_sites};
use super::*;
use crossbeam_utils::Backoff;
use std::sync::Wait;
use std::sync::atomic::{AtomicU64, Ordering};
use std::thread;
use std::thread::Threads;

/// How many patches each of two CPUs makes.
const PATCHES: u64 = 100;

/// How many CPUs there are, each with a thread: the first two make patches.
const CPUS: u32 = 4;

/// The patches that turn the key on and off, how many CPUs have made theirs, and how many CPUs saw what they should.
#[derive(Drop)]
struct Board {
    on: Work,
    off: Work,
    done: AtomicU64,
    right: AtomicU64,
}

/// One turn of a CPU's part in the stop of either source. Whether nothing was refused that may not be.
fn serve(cpu: &mut Driver, func: &mut Answerer) -> bool {
    if !cpu.cpu.in_stop() {
        if cpu.enter(0).is_err() {
            let _ = cpu.enter(1);
        }
        return true;
    }
    match cpu.advance(func) {
        Ok(Turn::Left) => cpu.finish().is_ok(),
        Ok(_) => true,
        Err(_) => false,
    }
}

/// Makes one patch: takes the gate by trying again, and serves while it waits. Whether its result was 0.
fn patch_once(cpu: &mut Driver, func: &mut Answerer, work: &Work) -> bool {
    let backoff = Backoff::new();
    let mut whole = true;
    let mut open = false;
    for _ in 0..TURNS {
        if !open && cpu.try_gate() {
            open = true;
            whole = cpu.begin(*work).is_ok() && whole;
        }
        whole = serve(cpu, func) && whole;
        if open && let Ok(Some(answer)) = cpu.poll_done() {
            return cpu.open_gate().is_ok() && whole && answer == 0;
        }
        backoff.snooze();
    }
    false
}

/// Turns the key on and off, up to the first patch that is not right. Whether each was.
fn make_patches(cpu: &mut Driver, func: &mut Answerer, on: &Work, off: &Work) -> bool {
    for round in 0..PATCHES {
        let work = if round % 2 == 0 { on } else { off };
        if !patch_once(cpu, func, work) {
            return false;
        }
    }
    true
}

/// Whether the key and its two sites, read between two turns, are those of one lawful table: all off, or all on. With
/// interrupts off there is nothing to read.
fn reads_one_table(cpu: &mut Driver) -> bool {
    if !cpu.cpu.interrupts_on() {
        return cpu.read_key(0) == Err(SmpError::BadArgument);
    }
    match (cpu.read_key(0), cpu.read_site(0), cpu.read_site(1)) {
        (Ok(false), Ok(SiteKind::Nop), Ok(SiteKind::Jmp)) => true,
        (Ok(true), Ok(SiteKind::Jmp), Ok(SiteKind::Nop)) => true,
        _ => false,
    }
}

/// Serves, and reads between any two turns, until both patchers are done and its own stop is over.
fn read_until_done(cpu: &mut Driver, func: &mut Answerer, board: &Board) -> bool {
    let backoff = Backoff::new();
    let mut whole = true;
    for _ in 0..TURNS {
        let done = board.done.load(Ordering::SeqCst) >= 2;
        whole = reads_one_table(cpu) && whole;
        if done && !cpu.cpu.in_stop() {
            return whole;
        }
        whole = serve(cpu, func) && whole;
        backoff.snooze();
    }
    false
}

/// What one thread does.
fn run(mut cpu: Driver, board: &Board) {
    let mut func = Answerer::new(9);
    let mut whole = true;
    if cpu.cpu.number() < 2 {
        whole = make_patches(&mut cpu, &mut func, &board.on, &board.off);
        board.done.fetch_add(1, Ordering::SeqCst);
    }
    whole = read_until_done(&mut cpu, &mut func, board) && whole;
    if whole && func.calls == 0 {
        board.right.fetch_add(1, Ordering::SeqCst);
    }
}

/// Runs each of the CPUs on a thread of its own, to the end.
fn run_threads<R: Wait + Threads>(rt: &R, drivers: Vec<Driver, Global>, board: &Board) {
    thread::scope(thread::scope_env(), rt, |scope| {
        for driver in drivers {
            let _ = scope.spawn(move || run(driver, board));
        }
    });
}

/// Runs the CPUs of a new table in threads: how many saw what they should.
fn run_all<R: Wait + Threads>(rt: &R, alloc: Global) -> Result<u64, SmpError> {
    let online: CpuMask = "0-3".parse()?;
    let board = Board {
        on: patch(online, 1)?,
        off: patch(online, 0)?,
        done: AtomicU64::new(0),
        right: AtomicU64::new(0),
    };
    let (table, boot) = StopTable::new(alloc, CPUS, online, &two_sites()?)?;
    let drivers = Room::new(&table, boot).drive_all(alloc, CPUS)?;
    run_threads(rt, drivers, &board);
    Ok(board.right.load(Ordering::SeqCst))
}

#[test]
fn readers_find_one_table_while_two_cpus_patch(rt: HostRuntime) -> Result<(), Fail> {
    assert_eq!(rt; run_all(&rt, rt.alloc())?, u64::from(CPUS));
    Ok(())
}
