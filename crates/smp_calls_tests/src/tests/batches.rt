//! A CPU that waits asleep is awake before the rest of its call's batch runs.

use super::*;
use crossbeam_utils::Backoff;
use std::thread;
use std::thread::Threads;

/// How far the CPUs are: each word is 0, and then 1.
#[derive(Drop)]
struct Progress {
    /// Both calls are queued.
    queued: AtomicU64,
    /// The call with wait has ended.
    ended: AtomicU64,
    /// The function behind it has seen that.
    seen: AtomicU64,
}

/// Looks until the word is 1: whether it came to that.
fn comes(word: &AtomicU64) -> bool {
    let backoff = Backoff::new();
    for _ in 0..TURNS {
        if word.load(Ordering::SeqCst) == 1 {
            return true;
        }
        backoff.snooze();
    }
    false
}

/// Function 1 gives its caller time to fall asleep. Function 2 waits until that caller has gone on.
#[derive(Drop)]
struct WaitsForCaller<'a> {
    progress: &'a Progress,
}

impl<'a> Handler for WaitsForCaller<'a> {
    ghost leads = { λ _ _ _. Unit {0} };

    fn call(&mut self, _src: u32, func: u16, _info: u64) {
        if func == 1 {
            let backoff = Backoff::new();
            for _ in 0..1_000 {
                backoff.snooze();
            }
        } else if comes(&self.progress.ended) {
            self.progress.seen.store(1, Ordering::SeqCst);
        }
    }
}

/// CPU 0 calls function 2 of CPU 1 without wait, and then function 1 with wait. As CPU 2 is asked about, both are queued.
fn call_twice<R: Wait>(rt: &R, zero: &mut Driver, both: CpuMask, progress: &Progress) {
    let cond = |cpu: u32, _: u64| {
        if cpu == 2 {
            progress.queued.store(1, Ordering::SeqCst);
        }
        cpu == 1
    };
    let _ = zero.single(rt, 1, 2, false);
    let call = CondCall {
        mask: both,
        func: 1,
        wait: true,
    };
    zero.each(rt, call, &cond);
    progress.ended.store(1, Ordering::SeqCst);
}

/// CPU 1 runs both calls in one batch. Then it wakes CPU 0 until that has ended, so that a test that fails ends.
fn run_both<R: Wait>(mut one: Caller<'_, Global, R, WaitsForCaller<'_>>, progress: &Progress) {
    if comes(&progress.queued) {
        one.poll();
    }
    for _ in 0..TURNS {
        if progress.ended.load(Ordering::SeqCst) == 1 {
            return;
        }
        one.table.wake(0);
    }
}

#[test]
fn a_cpu_that_waits_asleep_is_awake_before_the_rest_of_the_batch(
    rt: HostRuntime,
) -> Result<(), Fail> {
    let both: CpuMask = "1-2".parse()?;
    let (mut table, zero, one) = table_and_two(rt.alloc(), 3, "0-2")?;
    table.sleep_after(0);
    let progress = Progress {
        queued: AtomicU64::new(0),
        ended: AtomicU64::new(0),
        seen: AtomicU64::new(0),
    };
    let shared = &progress;
    let mut zero = Driver::new(&table, zero, rt.alloc());
    let handler = WaitsForCaller { progress: shared };
    let one = Caller::new(&table, &rt, one, handler);
    thread::scope(thread::scope_env(), &rt, |scope| {
        if scope.spawn(move || run_both(one, shared)).is_ok() {
            call_twice(&rt, &mut zero, both, shared);
        }
    });
    assert_eq!(rt; progress.seen.load(Ordering::SeqCst), 1);
    Ok(())
}
