//! CPUs of one machine, each on a thread of its own.

ghost use Rattle.std.specs.Prelude.{◌≡◌, IfOk};
ghost use Rattle.smp_machine.specs.MachineCpu.{IsFull};

use super::line::{Part, play_parts};
use super::member::{Ear, Member, Teller};
use super::*;
use crossbeam_utils::Backoff;
use smp_multi::StopFunc;
use std::sync::atomic::{AtomicU64, Ordering};
use std::thread;
use std::thread::Threads;

/// How often the flag is read in vain by a function that is slow on purpose.
const LINGER: u32 = 200_000;

/// How often a function that stays looks for what must not happen.
const LOOKS: u32 = 100_000;

/// What the threads share: how many CPUs saw what they should, on which CPUs stop functions have run, and how often the
/// flag was raised.
#[derive(Drop)]
pub struct Hall {
    right: AtomicU64,
    ran: AtomicU64,
    flag: AtomicU64,
}

impl Hall {
    pub fn new() -> Hall {
        Hall {
            right: AtomicU64::new(0),
            ran: AtomicU64::new(0),
            flag: AtomicU64::new(0),
        }
    }

    /// A stop function has run on this CPU.
    pub fn has_run(&self, cpu: u32) {
        self.ran.fetch_add(1 << (cpu % 8 * 8), Ordering::SeqCst);
    }

    /// How often stop functions have run since the last question: 1 for each run on CPU 0, 256 on CPU 1, 65,536 on CPU 2 ..
    pub fn runs(&self) -> u64 {
        self.ran.swap(0, Ordering::SeqCst)
    }

    pub fn raise(&self) {
        self.flag.fetch_add(1, Ordering::SeqCst);
    }

    pub fn flag(&self) -> u64 {
        self.flag.load(Ordering::SeqCst)
    }

    /// Whether the flag was raised this number of times more since it was at this number.
    pub fn was_raised(&self, before: u64, times: u32) -> bool {
        self.flag() == before.wrapping_add(u64::from(times))
    }

    /// Raises the flag, and waits until two CPUs have done so since it was at an even number. False where the other does not come.
    pub fn meet(&self) -> bool {
        let both = (self.flag.fetch_add(1, Ordering::SeqCst) | 1).wrapping_add(1);
        let backoff = Backoff::new();
        for _ in 0..TURNS {
            if self.flag() >= both {
                return true;
            }
            backoff.spin();
        }
        false
    }

    /// Takes some time, and not for ever.
    pub fn linger(&self) {
        for _ in 0..LINGER {
            let _ = self.flag();
        }
    }

    /// Raises the flag, from 0, and waits until another CPU has raised it. Whether nobody raises it a third time within many
    /// looks from then on.
    pub fn stays(&self) -> bool {
        self.raise();
        let backoff = Backoff::new();
        for _ in 0..TURNS {
            if self.flag() >= 2 {
                break;
            }
            backoff.snooze();
        }
        for _ in 0..LOOKS {
            if self.flag() != 2 {
                return false;
            }
            backoff.snooze();
        }
        true
    }
}

/// What the CPUs of a machine do: each its parts, from CPU 0 on.
#[derive(Drop)]
struct Case<'a> {
    hall: &'a Hall,
    plays: &'a [&'a [Part<'a>]],
}

impl<'a> Crew<Ear<'a>, Teller<'a>, Global> for Case<'a> {
    ghost begins = { λ _ _ _ _. Unit {0} };

    ghost plays = { λ _ _ _. Unit {0} };

    fn make(&self, _cpu: u32) -> Result<(Ear<'a>, Teller<'a>), AllocError> {
        Ok((Ear::new(self.hall), Teller::new(self.hall)))
    }

    fn play<R: Wait>(&self, seat: &mut Member<'_, 'a, R>) {
        let right = match self.plays.get(seat.number() as usize) {
            Some(parts) => play_parts(seat, parts),
            None => false,
        };
        if right {
            self.hall.right.fetch_add(1, Ordering::SeqCst);
        }
    }
}

/// A machine of these labels, and its CPUs. Where CPU 31 is none of them, the CPU above them is offline.
fn new_machine(
    alloc: Global,
    online: &str,
    labels: &LabelMap,
) -> Result<(Machine<Global>, MachineBoot<Global>), SmpError>
    ensures { IfOk result (λ t. IsFull t.1 t.0) }
{
    let online: CpuMask = online.parse()?;
    let cpus = online.weight();
    let nr = if cpus < NR_CPUS && !online.contains(NR_CPUS - 1) {
        cpus + 1
    } else {
        NR_CPUS
    };
    Machine::new(alloc, nr, online, labels)
}

/// Looks until the threads of a test have ended. Where they have not by the last look, it ends the test, which has failed.
fn watch(rt: &impl Abort, over: &AtomicU64) {
    let backoff = Backoff::new();
    for _ in 0..TURNS {
        if over.load(Ordering::SeqCst) == 1 {
            return;
        }
        backoff.snooze();
    }
    assert!(rt; false, "the threads did not end");
}

/// As [`run_cpus`], with one thread more, so that CPUs that wait for ever fail the test and do not hang.
pub fn run_watched<
    R: Wait + Threads + Sync + Abort,
    H: Handler + Drop + Send,
    F: StopFunc + Drop + Send,
    C: Crew<H, F, Global> + Sync,
>(
    rt: &R,
    alloc: Global,
    machine: &Machine<Global>,
    boot: MachineBoot<Global>,
    crew: &C,
) -> Result<Vec<Played<H, F, Global>, Global>, SmpError>
    requires { C.runs_on crew.now machine.now × IsFull boot machine.now }
{
    let over = AtomicU64::new(0);
    let shared = &over;
    thread::scope(
        thread::scope_env(),
        rt,
        move |scope| -> Result<Vec<Played<H, F, Global>, Global>, SmpError>
            requires { C.runs_on crew.now machine.now × IsFull boot machine.now }
        {
            if scope.spawn(move || watch(rt, shared)).is_err() {
                return Err(SmpError::NoMemory);
            }
            let played = run_cpus(rt, alloc, machine, boot, crew);
            shared.store(1, Ordering::SeqCst);
            played
        },
    )
}

/// Runs the CPUs of a machine on threads, each with its parts, from CPU 0 on: how many saw what they should.
fn run_plays<R: Wait + Threads + Sync + Abort>(
    rt: &R,
    alloc: Global,
    machine: &Machine<Global>,
    boot: MachineBoot<Global>,
    plays: &[&[Part]],
) -> Result<u64, SmpError>
    requires { IsFull boot machine.now }
{
    let hall = Hall::new();
    let case = Case { hall: &hall, plays };
    run_watched(rt, alloc, machine, boot, &case)?;
    Ok(hall.right.load(Ordering::SeqCst))
}

/// Runs the CPUs of a new machine of these labels: how many saw what they should.
pub fn in_threads<R: Wait + Threads + Sync + Abort>(
    rt: &R,
    alloc: Global,
    online: &str,
    labels: &LabelMap,
    plays: &[&[Part]],
) -> Result<u64, SmpError> {
    let (machine, boot) = new_machine(alloc, online, labels)?;
    run_plays(rt, alloc, &machine, boot, plays)
}

/// Runs the CPUs of a new machine that sleep while they wait, after one look in vain: how many saw what they should.
pub fn in_threads_asleep<R: Wait + Threads + Sync + Abort>(
    rt: &R,
    alloc: Global,
    online: &str,
    labels: &LabelMap,
    plays: &[&[Part]],
) -> Result<u64, SmpError> {
    let (mut machine, boot) = new_machine(alloc, online, labels)?;
    machine.sleep_after(1);
    run_plays(rt, alloc, &machine, boot, plays)
}
