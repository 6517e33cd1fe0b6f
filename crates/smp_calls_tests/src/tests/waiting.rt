//! A CPU that waits hears its own calls.

use super::*;
use crossbeam_utils::Backoff;
use std::thread;
use std::thread::Threads;

/// Whether the CPU's call by its first user record has begun to run, by the last of this number of looks.
fn was_heard(one: &mut Driver) -> bool {
    let backoff = Backoff::new();
    for _ in 0..TURNS {
        if one.is_done(10) == Ok(true) {
            return true;
        }
        backoff.snooze();
    }
    false
}

/// Polls until the CPU has heard function 2 from CPU 0.
fn poll_until_called(one: &mut Driver) {
    let backoff = Backoff::new();
    for _ in 0..TURNS {
        one.poll();
        if one.times(0, 2) == 1 {
            return;
        }
        backoff.snooze();
    }
}

/// CPU 1 runs nothing before its own call was heard.
fn answer_once_heard(mut one: Driver, heard: &AtomicU64) {
    if was_heard(&mut one) {
        heard.store(1, Ordering::SeqCst);
    }
    poll_until_called(&mut one);
}

/// CPU 0 calls CPU 1 and waits, while a call of CPU 1 is pending: whether CPU 0 heard that while it waited.
fn is_heard_while_waiting<R: Wait + Threads + Sync>(
    rt: &R,
    zero: &mut Driver,
    one: Driver,
) -> bool {
    let heard = AtomicU64::new(0);
    let shared = &heard;
    let mut done = false;
    thread::scope(thread::scope_env(), rt, |scope| {
        if scope.spawn(move || answer_once_heard(one, shared)).is_ok() {
            done = zero.single(rt, 1, 2, true).is_ok();
        }
    });
    done && heard.load(Ordering::SeqCst) == 1
}

#[test]
fn a_cpu_that_waits_hears_its_own_calls(rt: HostRuntime) -> Result<(), Fail> {
    let (table, zero, one) = table_and_two(rt.alloc(), 2, "0-1")?;
    let mut zero = Driver::new(&table, zero, rt.alloc());
    let mut one = Driver::new(&table, one, rt.alloc());
    assert_eq!(rt; one.by_user(&rt, 0, 0, 3), Ok(()));
    assert!(rt; is_heard_while_waiting(&rt, &mut zero, one));
    assert_eq!(rt; zero.times(1, 3), 1);
    Ok(())
}
