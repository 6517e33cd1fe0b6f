//! A CPU that rests is woken by each call.

use super::*;
use crossbeam_utils::Backoff;
use std::thread;
use std::thread::Threads;

/// How often the CPU is called.
const CALLS: u64 = 100_000;

/// Counts calls of function 1, and notes a call of function 2.
#[derive(Drop)]
struct Count {
    calls: u64,
    over: bool,
}

impl Count {
    fn new() -> Count {
        Count {
            calls: 0,
            over: false,
        }
    }
}

impl Handler for Count {
    ghost leads = { λ _ _ _. Unit {0} };

    fn call(&mut self, _src: u32, func: u16, _info: u64) {
        match func {
            1 => self.calls = self.calls.wrapping_add(1),
            _ => self.over = true,
        }
    }
}

/// A CPU that counts its calls.
type Counter<'a, R> = Caller<'a, Global, R, Count>;

/// Rests until it was called with function 2: how often it was called with function 1, and 0 where it gives up.
fn rest_until_over<R: Wait>(mut one: Counter<'_, R>) -> u64 {
    for _ in 0..TURNS {
        if one.handler.over {
            return one.handler.calls;
        }
        one.rest();
    }
    0
}

/// Whether the CPU's call by its first user record has begun to run, by the last of this number of looks.
fn was_heard<R: Wait>(zero: &mut Counter<'_, R>) -> bool {
    let backoff = Backoff::new();
    for _ in 0..TURNS {
        if zero.table.is_done(&mut zero.cpu, 10) == Ok(true) {
            return true;
        }
        backoff.snooze();
    }
    false
}

/// Calls CPU 1, each time once it has heard the call before, up to the first call that it does not hear, and then with
/// function 2: how many calls it has heard.
fn call_each<R: Wait>(zero: &mut Counter<'_, R>) -> u64 {
    let mut heard = 0u64;
    for _ in 0..CALLS {
        if zero.call_async(0, 1, 1, 0).is_err() || !was_heard(zero) {
            break;
        }
        heard = heard.wrapping_add(1);
    }
    match zero.call_single(1, 2, 0, false) {
        Ok(()) => heard,
        Err(_) => 0,
    }
}

/// What a CPU that rests has heard, and whether it has ended.
#[derive(Drop)]
struct Rested {
    heard: AtomicU64,
    ended: AtomicU64,
}

impl Rested {
    fn new() -> Rested {
        Rested {
            heard: AtomicU64::new(0),
            ended: AtomicU64::new(0),
        }
    }

    /// The CPU has heard this number of calls, and ends.
    fn end(&self, heard: u64) {
        self.heard.store(heard, Ordering::SeqCst);
        self.ended.store(1, Ordering::SeqCst);
    }

    /// Whether the CPU has ended, by the last of this number of looks.
    fn has_ended(&self) -> bool {
        let backoff = Backoff::new();
        for _ in 0..TURNS {
            if self.ended.load(Ordering::SeqCst) == 1 {
                return true;
            }
            backoff.snooze();
        }
        false
    }
}

/// How many calls the caller has seen heard, how many were heard by a CPU that rests on a thread of its own, and whether
/// that CPU has ended by the last call alone. It is woken once more, so that one that sleeps on does not hang.
fn call_a_thread<'a, R: Wait + Threads + Sync>(
    zero: &mut Counter<'a, R>,
    one: Counter<'a, R>,
) -> (u64, u64, bool) {
    let rested = Rested::new();
    let shared = &rested;
    let mut seen = 0;
    let mut ended = false;
    thread::scope(thread::scope_env(), zero.rt, |scope| {
        let rests = move || shared.end(rest_until_over(one));
        if scope.spawn(rests).is_ok() {
            seen = call_each(zero);
            ended = shared.has_ended();
        }
        zero.table.wake(1);
    });
    (seen, rested.heard.load(Ordering::SeqCst), ended)
}

#[test]
fn a_cpu_that_rests_is_woken_by_each_call(rt: HostRuntime) -> Result<(), Fail> {
    let (table, zero, one) = table_and_two(rt.alloc(), 2, "0-1")?;
    let mut zero = Caller::new(&table, &rt, zero, Count::new());
    let one = Caller::new(&table, &rt, one, Count::new());
    assert_eq!(rt; call_a_thread(&mut zero, one), (CALLS, CALLS, true));
    Ok(())
}
