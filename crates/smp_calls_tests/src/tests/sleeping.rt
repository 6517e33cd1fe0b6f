//! A CPU that waits asleep is woken once its call has run.

use super::*;
use crossbeam_utils::Backoff;
use std::thread;
use std::thread::Threads;

/// How often the CPU calls and waits.
const CALLS: u64 = 100_000;

/// Counts calls.
#[derive(Drop)]
struct Count {
    calls: u64,
}

impl Handler for Count {
    ghost leads = { λ _ _ _. Unit {0} };

    fn call(&mut self, _src: u32, _func: u16, _info: u64) {
        self.calls = self.calls.wrapping_add(1);
    }
}

/// A CPU that counts its calls.
type Counter<'a, R> = Caller<'a, Global, R, Count>;

/// How far the CPUs are.
#[derive(Drop)]
struct Progress {
    /// How many calls have ended.
    ended: AtomicU64,
    /// How many calls the CPU has heard that was called; 0 until it has ended.
    heard: AtomicU64,
}

/// Calls CPU 1 and waits, again and again.
fn call_each<R: Wait>(mut zero: Counter<'_, R>, progress: &Progress) {
    for ended in 1..CALLS + 1 {
        if zero.call_single(1, 1, 0, true).is_ok() {
            progress.ended.store(ended, Ordering::SeqCst);
        }
    }
}

/// Rests until it has heard all calls.
fn rest_until_called<R: Wait>(mut one: Counter<'_, R>, progress: &Progress) {
    for _ in 0..TURNS {
        if one.handler.calls >= CALLS {
            break;
        }
        one.rest();
    }
    progress.heard.store(one.handler.calls, Ordering::SeqCst);
}

/// Looks until this number of calls have ended. Where they have not by the last look, a wake-up was lost.
fn have_ended(progress: &Progress, calls: u64) -> bool {
    let backoff = Backoff::new();
    for _ in 0..TURNS {
        if progress.ended.load(Ordering::SeqCst) >= calls {
            return true;
        }
        backoff.snooze();
    }
    false
}

/// Wakes both CPUs at each look, until all is over: so the threads of a test that fails end.
fn wake_to_the_end(table: &CallTable<Global>, progress: &Progress) {
    let backoff = Backoff::new();
    for _ in 0..TURNS {
        let ended = progress.ended.load(Ordering::SeqCst);
        if ended == CALLS && progress.heard.load(Ordering::SeqCst) != 0 {
            return;
        }
        table.wake(0);
        table.wake(1);
        backoff.snooze();
    }
}

/// Looks at each call until it has ended: whether no wake-up was lost.
fn watch(table: &CallTable<Global>, progress: &Progress) -> bool {
    for calls in 1..CALLS + 1 {
        if !have_ended(progress, calls) {
            wake_to_the_end(table, progress);
            return false;
        }
    }
    true
}

/// Both CPUs on threads of their own: how many calls have ended, how many were heard, and whether no wake-up was lost.
fn call_a_thread<'a, R: Wait + Threads + Sync>(
    zero: Counter<'a, R>,
    one: Counter<'a, R>,
) -> (u64, u64, bool) {
    let (table, rt) = (zero.table, zero.rt);
    let progress = Progress {
        ended: AtomicU64::new(0),
        heard: AtomicU64::new(0),
    };
    let shared = &progress;
    let mut whole = false;
    thread::scope(thread::scope_env(), rt, |scope| {
        let rests = move || rest_until_called(one, shared);
        let calls = move || call_each(zero, shared);
        if scope.spawn(rests).is_ok() && scope.spawn(calls).is_ok() {
            whole = watch(table, shared);
        }
    });
    (
        progress.ended.load(Ordering::SeqCst),
        progress.heard.load(Ordering::SeqCst),
        whole,
    )
}

#[test]
fn a_cpu_that_waits_asleep_is_woken_once_its_call_has_run(rt: HostRuntime) -> Result<(), Fail> {
    let (mut table, zero, one) = table_and_two(rt.alloc(), 2, "0-1")?;
    table.sleep_after(0);
    assert_eq!(rt; table.pause(&zero).may_sleep(), true);
    let zero = Caller::new(&table, &rt, zero, Count { calls: 0 });
    let one = Caller::new(&table, &rt, one, Count { calls: 0 });
    assert_eq!(rt; call_a_thread(zero, one), (CALLS, CALLS, true));
    Ok(())
}
