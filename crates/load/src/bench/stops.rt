//! Threads at a machine, one for each of its CPUs.

ghost use Rattle.smp_machine.specs.MachineCpu.{IsFull};
ghost use Rattle.smp_machine.specs.Seats.{IsSameSeat};

use crate::bench::batch::{batches_of, count_batch, run_batch};
use crate::bench::call_seat::Counter;
use crate::bench::machine_seat::{BenchSeat, StopCounter, label};
use crate::bench::meter::{Measured, Meter};
use crate::bench::rest::{call_all, rest_and_call, rest_to_the_end};
use crate::bench::workload::Workload;
use crate::cpus::{first_cpus, turn_and_poll};
use crate::error::LoadError;
use crate::flag::Flag;
use crate::request::{Bench, Limit};
use crate::watch::{Subject, watch};
use crossbeam_utils::{Backoff, CachePadded};
use smp_machine::{Crew, Machine, MachineBoot, Played, run_cpus};
use std::alloc::{AllocError, Global};
use std::sync::Wait;
use std::thread;
use std::thread::Threads;
use std::time::{Clock, CpuClock};

/// What the first CPU of a machine tells the others.
#[derive(Drop)]
struct Signs {
    /// Set once the key is on, so that all may count.
    counting: Flag,
    /// Set once the first CPU is through.
    over: Flag,
}

/// What a CPU waits for while it polls.
#[derive(Clone, Copy)]
enum Until {
    /// That it may count, or the first CPU is through.
    Counting,
    /// That the first CPU is through.
    Over,
}

/// Whether a CPU need not poll any more.
fn is_reached(signs: &Signs, until: Until) -> bool {
    match until {
        Until::Counting => signs.counting.is_set() || signs.over.is_set(),
        Until::Over => signs.over.is_set(),
    }
}

/// Polls until this is reached.
fn answer<R: Wait>(seat: &mut BenchSeat<'_, R>, signs: &Signs, until: Until)
    ensures { IsSameSeat seat.old seat.new }
{
    let mut backoff = Backoff::new();
    for _ in seat.rt.forever() {
        if is_reached(signs, until) {
            return;
        }
        if turn_and_poll(seat) {
            backoff = Backoff::new();
        } else {
            backoff.snooze();
        }
    }
    unreachable!()
}

/// Makes this number of batches of changes of the key.
fn count_batches<R: Wait>(seat: &mut BenchSeat<'_, R>, batches: u32)
    ensures { IsSameSeat seat.old seat.new }
{
    for _ in 0..batches {
        count_batch(seat);
    }
}

/// Counts the key up and down this number of times, or until the first CPU is through.
fn count<R: Wait>(seat: &mut BenchSeat<'_, R>, signs: &Signs, limit: Limit)
    ensures { IsSameSeat seat.old seat.new }
{
    if let Some(batches) = batches_of(limit) {
        count_batches(seat, batches);
        return;
    }
    for _ in seat.rt.forever() {
        if signs.over.is_set() {
            return;
        }
        count_batch(seat);
    }
    unreachable!()
}

/// Polls until the key is on, and then counts it.
fn count_with_all<R: Wait>(seat: &mut BenchSeat<'_, R>, signs: &Signs, limit: Limit)
    ensures { IsSameSeat seat.old seat.new }
{
    answer(seat, signs, Until::Counting);
    if signs.counting.is_set() {
        count(seat, signs, limit);
    }
}

/// Makes batches until the meter says that it is enough.
fn repeat<R: Wait, T: Clock + CpuClock + Eprint>(
    seat: &mut BenchSeat<'_, R>,
    workload: Workload,
    meter: &mut Meter<T>,
)
    ensures { IsSameSeat seat.old seat.new }
{
    for _ in seat.rt.forever() {
        let operations = run_batch(seat, workload);
        if !meter.lap(operations) {
            return;
        }
    }
    unreachable!()
}

/// What the CPUs do: the first is timed, and the others help it.
#[derive(Drop)]
struct StopCrew<'a, T> {
    rt: &'a T,
    alloc: Global,
    workload: Workload,
    limit: Limit,
    signs: &'a Signs,
}

impl<'a, T: Clock + CpuClock + Eprint> StopCrew<'a, T> {
    /// What a CPU beside the first does.
    fn help<R: Wait>(&self, seat: &mut BenchSeat<'_, R>)
        ensures { IsSameSeat seat.old seat.new }
    {
        match self.workload {
            Workload::Rest => rest_to_the_end(seat, &self.signs.over),
            Workload::CountAll => count_with_all(seat, self.signs, self.limit),
            _ => answer(seat, self.signs, Until::Over),
        }
    }

    /// What the first CPU does, with all others started.
    fn lead<R: Wait>(&self, seat: &mut BenchSeat<'_, R>, meter: &mut Meter<T>)
        ensures { IsSameSeat seat.old seat.new }
    {
        if self.workload == Workload::Rest {
            rest_and_call(self.rt, seat, &self.signs.over, meter);
            return;
        }
        if self.workload == Workload::CountOne || self.workload == Workload::CountAll {
            // The key is on from here on. The first batch begins only now.
            let _ = seat.set_key(0, true);
            self.signs.counting.set();
            meter.lap(0);
        }
        repeat(seat, self.workload, meter);
    }

    /// What the first CPU does, and what it has measured.
    fn measure<R: Wait>(&self, seat: &mut BenchSeat<'_, R>) -> Result<Measured, LoadError>
        ensures { IsSameSeat seat.old seat.new }
    {
        let mut meter = Meter::new(self.rt, self.alloc, self.workload.name(), self.limit)?;
        self.lead(seat, &mut meter);
        meter.close()
    }
}

impl<'a, T: Clock + CpuClock + Eprint> Crew<Counter, StopCounter, Global> for StopCrew<'a, T> {
    ghost begins = { λ _ _ _ _. Unit {0} };

    ghost plays = { λ _ _ _. Unit {0} };

    fn make(&self, _cpu: u32) -> Result<(Counter, StopCounter), AllocError> {
        Ok((Counter { calls: 0 }, StopCounter::new()))
    }

    fn play<R: Wait>(&self, seat: &mut BenchSeat<'_, R>) {
        if seat.number() > 0 {
            self.help(seat);
            return;
        }
        let measured = self.measure(seat);
        let failed = measured.is_err();
        seat.functions.measured = Some(measured);
        self.signs.over.set();
        if failed {
            // CPUs that rest look for that sign once they are called.
            call_all(seat);
        }
    }
}

/// What the first CPU has measured, and what all have done, modulo 2^64.
fn sum_up(
    back: Vec<Played<Counter, StopCounter, Global>, Global>,
) -> Result<(Measured, u64), LoadError> {
    let mut first = None;
    let mut sum = 0u64;
    for played in back {
        let Played {
            handler,
            functions,
            ..
        } = played;
        sum = sum
            .wrapping_add(handler.calls)
            .wrapping_add(functions.done());
        if let Some(measured) = functions.measured {
            first = Some(measured?);
        }
    }
    match first {
        Some(measured) => Ok((measured, sum)),
        None => Err(LoadError::NoThread),
    }
}

/// Runs the CPUs of a machine, each on a thread of its own, and one more thread that watches over them.
fn measure_watched<R: Wait + Threads + Clock + CpuClock + Eprint + Sync>(
    rt: &R,
    machine: &Machine<Global>,
    boot: MachineBoot<Global>,
    crew: &StopCrew<'_, R>,
) -> Result<(Measured, u64), LoadError>
    requires { IsFull boot machine.now }
{
    let (name, over) = (crew.workload.name(), &crew.signs.over);
    thread::scope(
        thread::scope_env(),
        rt,
        |scope| -> Result<(Measured, u64), LoadError>
            requires { IsFull boot machine.now }
        {
            // CPUs that rest make no stops, in which some could keep others waiting.
            if crew.workload != Workload::Rest {
                let _watcher = scope
                    .spawn(|| watch(rt, machine, Subject::Workload(name), 1, over))
                    .ok();
            }
            let back = run_cpus(rt, crew.alloc, machine, boot, crew);
            over.set();
            match back {
                Ok(back) => sum_up(back),
                Err(_) => Err(LoadError::NoThread),
            }
        },
    )
}

/// Runs a workload of a thread for each CPU of a machine with one key and two sites.
pub fn run<R: Wait + Threads + Clock + CpuClock + Eprint + Sync>(
    rt: &R,
    alloc: Global,
    workload: Workload,
    asked: &Bench,
) -> Result<(Measured, u64), LoadError> {
    let online = first_cpus(workload.threads(asked.threads))?;
    let (machine, boot) = Machine::new(alloc, 32, online, &label()?)?;
    // All threads look at it all the time, so that it must share no line with what one of them writes.
    let signs = CachePadded::new(Signs {
        counting: Flag::new(),
        over: Flag::new(),
    });
    let crew = StopCrew {
        rt,
        alloc,
        workload,
        limit: asked.limit,
        signs: &signs,
    };
    measure_watched(rt, &machine, boot, &crew)
}
