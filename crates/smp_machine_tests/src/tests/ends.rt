//! CPUs that end before others: they poll until all are done, and once more.

use super::hall::run_watched;
use super::*;
use std::sync::atomic::{AtomicU64, Ordering};

/// How often it looks once more when it has found it: so long that CPU 0 is done by then.
const MORE: u32 = 200_000;

/// Counts the calls that it hears.
#[derive(Drop)]
struct Counts {
    calls: u32,
}

impl Handler for Counts {
    ghost leads = { λ _ _ _. Unit {0} };

    fn call(&mut self, _src: u32, _func: u16, _info: u64) {
        self.calls = self.calls.saturating_add(1);
    }
}

/// CPU 0 calls CPU 1 and leaves a mark. CPU 1 ends after that, without a poll.
#[derive(Drop)]
struct Late {
    mark: AtomicU64,
}

impl Late {
    fn has_mark(&self) -> bool {
        self.mark.load(Ordering::SeqCst) == 1
    }

    /// Waits for the mark, and then so long that CPU 0 is done.
    fn wait(&self) {
        for _ in 0..TURNS {
            if self.has_mark() {
                break;
            }
        }
        for _ in 0..MORE {
            let _ = self.has_mark();
        }
    }
}

impl Crew<Counts, NoStop, Global> for Late {
    ghost begins = { λ _ _ _ _. Unit {0} };

    ghost plays = { λ _ _ _. Unit {0} };

    fn make(&self, _cpu: u32) -> Result<(Counts, NoStop), AllocError> {
        Ok((Counts { calls: 0 }, NoStop))
    }

    fn play<R: Wait>(&self, seat: &mut Seat<'_, Global, R, Counts, NoStop>) {
        if seat.number() == 0 {
            let _ = seat.call_async(0, 1, 7, 42);
            self.mark.store(1, Ordering::SeqCst);
        } else {
            self.wait();
        }
    }
}

#[test]
fn a_cpu_hears_calls_at_its_last_poll(rt: HostRuntime) -> Result<(), Fail> {
    let none = LabelMap::empty();
    let (machine, boot) = Machine::new(rt.alloc(), 2, "0-1".parse()?, &none)?;
    let late = Late {
        mark: AtomicU64::new(0),
    };
    let played = run_watched(&rt, rt.alloc(), &machine, boot, &late)?;
    let heard = played.get(1).map(|played| played.handler.calls);
    assert_eq!(rt; heard, Some(1));
    Ok(())
}

/// CPU 0 calls CPU 1 three times, each time once the call before has run. CPU 1 plays nothing, and polls from then on. How
/// often each CPU was asked whether it polls.
#[derive(Drop)]
struct Asked {
    zero: AtomicU64,
    one: AtomicU64,
}

impl Crew<Counts, NoStop, Global> for Asked {
    ghost begins = { λ _ _ _ _. Unit {0} };

    ghost plays = { λ _ _ _. Unit {0} };

    fn make(&self, _cpu: u32) -> Result<(Counts, NoStop), AllocError> {
        Ok((Counts { calls: 0 }, NoStop))
    }

    fn play<R: Wait>(&self, seat: &mut Seat<'_, Global, R, Counts, NoStop>) {
        if seat.number() == 0 {
            let _ = seat.call_single(1, 7, 42, true);
            let _ = seat.call_single(1, 7, 42, true);
            let _ = seat.call_single(1, 7, 42, true);
        }
    }

    fn polls(&self, cpu: u32) -> bool {
        let asked = if cpu == 0 { &self.zero } else { &self.one };
        asked.fetch_add(1, Ordering::SeqCst);
        true
    }
}

/// Each CPU is asked once whether it polls, however often it then does: CPU 1 makes a poll for each of three calls.
#[test]
fn a_cpu_is_asked_once_whether_it_polls(rt: HostRuntime) -> Result<(), Fail> {
    let none = LabelMap::empty();
    let (machine, boot) = Machine::new(rt.alloc(), 2, "0-1".parse()?, &none)?;
    let asked = Asked {
        zero: AtomicU64::new(0),
        one: AtomicU64::new(0),
    };
    let played = run_watched(&rt, rt.alloc(), &machine, boot, &asked)?;
    let heard = played.get(1).map(|played| played.handler.calls);
    assert_eq!(rt; heard, Some(3));
    assert_eq!(rt; asked.zero.load(Ordering::SeqCst), 1);
    assert_eq!(rt; asked.one.load(Ordering::SeqCst), 1);
    Ok(())
}
