//! Calls that give up waiting: which CPUs have not answered, and what becomes of the calls to them.

use super::*;
use crossbeam_utils::Backoff;
use std::thread;
use std::thread::Threads;

/// Calls CPUs 1 and 2 and waits for three polls at most: whom it has called, and who has not answered.
fn call_both<R: Wait>(rt: &R, zero: &mut Driver, func: u16) -> Result<Within, SmpError> {
    let both = "1-2".parse()?;
    let (table, cpu, heard) = (zero.table, &mut zero.cpu, &mut zero.heard);
    Ok(call_many_within(table, rt, cpu, heard, both, func, 6, 3))
}

/// What such a call has come to.
fn come_to(called: &str, silent: &str) -> Result<Within, SmpError> {
    Ok(Within {
        called: called.parse()?,
        silent: silent.parse()?,
    })
}

/// How often a CPU has heard functions 1, 2 and 3 from CPU 0.
fn heard(driver: &Driver) -> [usize; 3] {
    [driver.times(0, 1), driver.times(0, 2), driver.times(0, 3)]
}

/// CPU 1 polls after the first call and after the second, CPU 2 after the second alone, so that the second is not made to it.
fn poll_in_between<R: Wait + Abort>(rt: &R, cpus: &mut Three) {
    let (zero, one, two) = (&mut cpus.first, &mut cpus.second, &mut cpus.third);
    assert_eq!(rt; call_both(rt, zero, 1), come_to("1-2", "1-2"));
    one.poll();
    assert_eq!(rt; call_both(rt, zero, 2), come_to("1", "1-2"));
    one.poll();
    two.poll();
    assert_eq!(rt; (heard(one), heard(two)), ([1, 1, 0], [1, 0, 0]));
}

/// CPUs 1 and 2 poll after the third call, which is made to both.
fn poll_after_the_third<R: Wait + Abort>(rt: &R, cpus: &mut Three) {
    let (zero, one, two) = (&mut cpus.first, &mut cpus.second, &mut cpus.third);
    assert_eq!(rt; call_both(rt, zero, 3), come_to("1-2", "1-2"));
    one.poll();
    two.poll();
    assert_eq!(rt; (heard(one), heard(two)), ([1, 1, 1], [1, 0, 1]));
}

#[test]
fn cpus_that_do_not_poll_are_named(rt: HostRuntime) -> Result<(), Fail> {
    for nr in [3, 8, 32] {
        let (table, zero, one, two) = table_and_three(rt.alloc(), nr, "0-2", [0, 1, 2])?;
        let mut cpus = Three::new(&table, zero, one, two, rt.alloc());
        poll_in_between(&rt, &mut cpus);
        poll_after_the_third(&rt, &mut cpus);
    }
    Ok(())
}

/// Polls until it has heard function 2.
fn poll_until_over(mut one: Driver) {
    let backoff = Backoff::new();
    for _ in 0..TURNS {
        one.poll();
        if one.times(0, 2) == 1 {
            return;
        }
        backoff.snooze();
    }
}

/// Calls a CPU that polls on a thread of its own: what that has come to.
fn call_one_that_polls<R: Wait + Threads + Sync>(
    rt: &R,
    zero: &mut Driver,
    one: Driver,
) -> Result<Within, SmpError> {
    let mut come = Err(SmpError::NoMemory);
    thread::scope(thread::scope_env(), rt, |scope| {
        if scope.spawn(move || poll_until_over(one)).is_ok() {
            let (table, cpu, heard) = (zero.table, &mut zero.cpu, &mut zero.heard);
            let to = CpuMask::of(1).unwrap_or(CpuMask::empty());
            let most = u32::MAX;
            come = Ok(call_many_within(table, rt, cpu, heard, to, 1, 6, most));
            zero.many(rt, to, 2, true);
        }
    });
    come
}

#[test]
fn a_cpu_that_polls_is_not_named(rt: HostRuntime) -> Result<(), Fail> {
    let (table, zero, one) = table_and_two(rt.alloc(), 2, "0-1")?;
    let mut zero = Driver::new(&table, zero, rt.alloc());
    let one = Driver::new(&table, one, rt.alloc());
    assert_eq!(rt; call_one_that_polls(&rt, &mut zero, one), come_to("1", ""));
    Ok(())
}
