//! Stops of CPUs of a machine, between threads.

use super::hall::in_threads;
use super::line::Act::{
    All, Any, AwaitWork, ByUser, Calls, Dec, Each, Heard, Hears, Inc, Linger, Many, Meet, One,
    Poll, Raise, Rest, Runs, Set, Single, SlowLater, Turn, Two,
};
use super::line::Often::{Times, Until};
use super::line::{Act, Part};
use super::member::{SLOW, STAYS};
use super::*;
use smp_multi::Turn::{Left, Moved, Same};

const BAD: SmpError = SmpError::BadArgument;

const NO_STOPPER: SmpError = SmpError::NoStopper;

/// Which CPUs a stop function runs on, and what a stop answers. CPU 0 makes the stops, and CPU 4 is offline.
#[test]
fn functions_run_on_active_cpus_alone(rt: HostRuntime) -> Result<(), Fail> {
    let some = [
        One(2, 9, Ok(9)),
        Runs(1 << 16),
        Two(3, 1, 7, Ok(0)),
        Runs(1 << 24),
        Two(1, 3, 7, Ok(7)),
        Runs(1 << 8),
        Two(1, 1, 9, Err(BAD)),
        Two(4, 4, 9, Err(BAD)),
        One(4, 9, Err(NO_STOPPER)),
        Two(0, 4, 9, Err(NO_STOPPER)),
        Two(4, 0, 9, Err(NO_STOPPER)),
        Runs(0),
    ];
    let all = [
        All(9, 4, None, Ok(9)),
        Runs(1),
        All(9, 4, Some(CpuMask::of(5)?), Ok(0)),
        Runs(0),
        All(7, 4, Some(CpuMask::of(0)?.with(1)?), Ok(7)),
        Runs(257),
    ];
    let serves = [Poll];
    let plays: [&[Part]; 4] = [
        &[(Times(1), &some), (Times(1), &all)],
        &[(Times(1), &serves)],
        &[(Times(1), &serves)],
        &[(Times(1), &serves)],
    ];
    let none = LabelMap::empty();
    assert_eq!(rt; in_threads(&rt, rt.alloc(), "0-3", &none, &plays)?, 4);
    Ok(())
}

/// CPU 0 stops CPU 1, which has left that stop with its first turn.
#[test]
fn a_stop_of_one_cpu_is_left_at_once(rt: HostRuntime) -> Result<(), Fail> {
    let stops = [One(1, 9, Ok(9))];
    let serves = [AwaitWork, Turn(Left), Turn(Same), Calls(1)];
    let plays: [&[Part]; 2] = [&[(Times(1), &stops)], &[(Times(1), &serves)]];
    let none = LabelMap::empty();
    assert_eq!(rt; in_threads(&rt, rt.alloc(), "0-1", &none, &plays)?, 2);
    Ok(())
}

/// CPU 2 stops CPUs 0 and 1. CPU 1 is stopped too: it goes through the phases, and runs no function.
#[test]
fn the_second_of_two_is_stopped(rt: HostRuntime) -> Result<(), Fail> {
    let stops = [Two(0, 1, 9, Ok(9))];
    let first = [AwaitWork, Turn(Moved(1)), Poll, Calls(1)];
    let second = [AwaitWork, Turn(Moved(1)), Poll, Calls(0)];
    let plays: [&[Part]; 3] = [
        &[(Times(1), &first)],
        &[(Times(1), &second)],
        &[(Times(1), &stops)],
    ];
    let none = LabelMap::empty();
    assert_eq!(rt; in_threads(&rt, rt.alloc(), "0-2", &none, &plays)?, 3);
    Ok(())
}

/// CPU 0 stops CPU 1, which may make no call with that work in hand, nor turn or count a key that there is. A poll completes the
/// work, and then it may.
#[test]
fn no_call_with_a_work_in_hand(rt: HostRuntime) -> Result<(), Fail> {
    let zero = CpuMask::of(0)?;
    let stops = [One(1, 9, Ok(9))];
    let calls = [
        AwaitWork,
        Single(0, false, Err(BAD)),
        ByUser(0, Err(BAD)),
        Any(zero, Err(BAD)),
        Many(zero, Err(BAD)),
        Each(zero, true, Err(BAD)),
    ];
    let refused = [
        One(0, 9, Err(BAD)),
        Two(0, 1, 9, Err(BAD)),
        All(9, 4, None, Err(BAD)),
        Set(0, true, Err(BAD)),
        Inc(0, Err(BAD)),
        Dec(0, Err(BAD)),
        Calls(0),
    ];
    let free = [Poll, Calls(1), Inc(0, Ok(true)), Dec(0, Ok(true))];
    let one: [Part; 3] = [(Times(1), &calls), (Times(1), &refused), (Times(1), &free)];
    let plays: [&[Part]; 2] = [&[(Times(1), &stops)], &one];
    assert_eq!(rt;
        in_threads(&rt, rt.alloc(), "0-1", &two_sites()?, &plays)?,
        2
    );
    Ok(())
}

/// Two CPUs stop the machine 500 times each, while a third calls both and waits.
#[test]
fn two_cpus_stop_the_machine_against_each_other(rt: HostRuntime) -> Result<(), Fail> {
    let stops = [
        All(7, 4, Some(CpuMask::of(0)?), Ok(0)),
        All(7, 4, Some(CpuMask::of(1)?), Ok(7)),
        All(7, 4, Some(CpuMask::of(2)?), Ok(0)),
        All(7, 4, None, Ok(0)),
    ];
    let calls = [Single(0, true, Ok(())), Poll, Single(1, true, Ok(())), Poll];
    let plays: [&[Part]; 3] = [
        &[(Times(125), &stops)],
        &[(Times(125), &stops)],
        &[(Times(250), &calls)],
    ];
    let none = LabelMap::empty();
    assert_eq!(rt; in_threads(&rt, rt.alloc(), "0-2", &none, &plays)?, 3);
    Ok(())
}

/// CPU 0 stops the machine. CPU 1 acknowledges PREPARE and goes on with turns; there it hears a call of CPU 2, which takes
/// no part in the stop before that call has run.
#[test]
fn calls_run_while_a_cpu_waits_in_prepare(rt: HostRuntime) -> Result<(), Fail> {
    let stops = [All(9, 4, None, Ok(9))];
    let waits = [
        AwaitWork,
        Turn(Moved(1)),
        Heard(0, (0, 0, 0)),
        Raise,
        Hears(1),
    ];
    let waits_apart = [Calls(0)];
    let calls = [Single(1, true, Ok(()))];
    let plays: [&[Part]; 3] = [
        &[(Times(1), &stops)],
        &[(Times(1), &waits)],
        &[(Until(1), &waits_apart), (Times(1), &calls)],
    ];
    let none = LabelMap::empty();
    assert_eq!(rt; in_threads(&rt, rt.alloc(), "0-2", &none, &plays)?, 3);
    Ok(())
}

/// A stop of the machine for a function that only this CPU runs, with its number.
fn own(cpu: u32) -> Result<[Act; 1], SmpError> {
    let active = Some(CpuMask::of(cpu)?);
    Ok([All(8, u64::from(cpu), active, Ok((cpu % 32) as i32))])
}

/// Each CPU stops the machine 500 times for a function of its own, which runs on no other.
#[test]
fn each_stop_of_four_cpus_answers_its_own_number(rt: HostRuntime) -> Result<(), Fail> {
    let (zero, one, two, three) = (own(0)?, own(1)?, own(2)?, own(3)?);
    let ran = [Calls(500)];
    let plays: [&[Part]; 4] = [
        &[(Times(500), &zero), (Times(1), &ran)],
        &[(Times(500), &one), (Times(1), &ran)],
        &[(Times(500), &two), (Times(1), &ran)],
        &[(Times(500), &three), (Times(1), &ran)],
    ];
    let none = LabelMap::empty();
    assert_eq!(rt; in_threads(&rt, rt.alloc(), "0-3", &none, &plays)?, 4);
    Ok(())
}

/// A CPU stops CPU 0, whose function waits there, and CPU 1. Meanwhile CPU 2, which is in no stop, calls CPU 1: that has its
/// interrupts off, and hears the call once the function has ended.
#[test]
fn no_handler_runs_with_interrupts_off(rt: HostRuntime) -> Result<(), Fail> {
    let stops = [Two(0, 1, STAYS, Ok(1))];
    let (serves, heard) = ([Poll], [Heard(1, (2, SLOW, 0))]);
    let calls = [SlowLater(1), Raise];
    let stopper: [Part; 1] = [(Times(1), &stops)];
    let stopped: [Part; 1] = [(Until(3), &serves)];
    let ear: [Part; 2] = [(Until(3), &serves), (Times(1), &heard)];
    let ear_that_stops: [Part; 3] = [(Times(1), &stops), (Until(3), &serves), (Times(1), &heard)];
    let caller: [Part; 2] = [(Until(1), &serves), (Times(1), &calls)];
    let none = LabelMap::empty();
    let by_zero: [&[Part]; 3] = [&stopper, &ear, &caller];
    assert_eq!(rt; in_threads(&rt, rt.alloc(), "0-2", &none, &by_zero)?, 3);
    let by_one: [&[Part]; 3] = [&stopped, &ear_that_stops, &caller];
    assert_eq!(rt; in_threads(&rt, rt.alloc(), "0-2", &none, &by_one)?, 3);
    Ok(())
}

/// CPUs 2 and 3 stop CPUs 0 and 1 together, one in one order and one in the other, 300 times at the same time. The works of two
/// stops lie in both queues in one order, since each source holds the gate until it has queued its own. In two orders, CPU 0 would
/// wait in one stop and CPU 1 in the other. These two rest, so that a source wakes one of them between its two works.
#[test]
fn stops_of_two_cpus_do_not_cross(rt: HostRuntime) -> Result<(), Fail> {
    let first = [Linger, Meet, Two(0, 1, 9, Ok(9))];
    let second = [Linger, Meet, Two(1, 0, 9, Ok(9))];
    let rests = [Rest];
    // Each source raises the flag in each of its rounds.
    let target: [Part; 1] = [(Until(600), &rests)];
    let plays: [&[Part]; 4] = [
        &target,
        &target,
        &[(Times(300), &first)],
        &[(Times(300), &second)],
    ];
    let none = LabelMap::empty();
    assert_eq!(rt; in_threads(&rt, rt.alloc(), "0-3", &none, &plays)?, 4);
    Ok(())
}
