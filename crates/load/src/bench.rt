//! Measures calls and stops, by threads.
//!
//! `time` goes on for LIMIT milliseconds and prints for each workload its name, its threads, its operations and the
//! nanoseconds of one operation: the median over batches, what a tenth of the batches stays below, and the processor's time
//! of the whole process. `count` makes LIMIT operations and prints the calls that have run in place of the times, so that
//! it prints the same each time.

mod batch;
mod call_seat;
mod calls;
mod machine_seat;
mod meter;
mod posts;
mod rest;
mod samples;
mod stops;
pub mod workload;

use crate::bench::meter::{Measured, Meter};
use crate::bench::workload::Workload;
use crate::error::LoadError;
use crate::request::{Bench, Limit};
use std::alloc::Global;
use std::sync::Wait;
use std::thread::Threads;
use std::time::{Clock, CpuClock};
use std::{fmt, io};

/// Runs a workload of calls on a new table: how many calls have run.
fn run_calls<R: Wait + Threads + Clock + CpuClock + Eprint + Sync>(
    rt: &R,
    alloc: Global,
    workload: Workload,
    asked: &Bench,
    meter: &mut Meter<R>,
) -> Result<u64, LoadError> {
    match workload {
        Workload::PostOne | Workload::PostEight => posts::run(alloc, workload, meter),
        _ => calls::run(rt, alloc, workload, workload.threads(asked.threads), meter),
    }
}

/// Runs a workload of calls, and measures it.
fn measure_calls<R: Wait + Threads + Clock + CpuClock + Eprint + Sync>(
    rt: &R,
    alloc: Global,
    workload: Workload,
    asked: &Bench,
) -> Result<(Measured, u64), LoadError> {
    let mut meter = Meter::new(rt, alloc, workload.name(), asked.limit)?;
    let calls = run_calls(rt, alloc, workload, asked, &mut meter)?;
    Ok((meter.close()?, calls))
}

/// Runs a workload on a new table or machine: what was measured, and how many calls or stop functions have run.
fn run<R: Wait + Threads + Clock + CpuClock + Eprint + Sync>(
    rt: &R,
    alloc: Global,
    workload: Workload,
    asked: &Bench,
) -> Result<(Measured, u64), LoadError> {
    if workload.is_of_calls() {
        measure_calls(rt, alloc, workload, asked)
    } else {
        stops::run(rt, alloc, workload, asked)
    }
}

/// The tenths of a number of tenths, behind a point.
#[derive(Clone, Copy)]
struct Tenths(u64);

impl fmt::Display for Tenths {
    fn fmt<W: fmt::Write>(&self, f: &mut fmt::Formatter<W>) -> fmt::Result {
        write!(f, "{}.{}", self.0 / 10, self.0 % 10)
    }
}

/// Prints the line of a workload: with the calls that have run where operations are counted, else with the times of one.
fn print_line<R: Print>(
    rt: &R,
    workload: Workload,
    asked: &Bench,
    measured: Measured,
    calls: u64,
) -> io::Result<()> {
    let (name, threads) = (workload.name(), workload.threads(asked.threads));
    let operations = measured.operations;
    if let Limit::Operations(_) = asked.limit {
        return println!(rt; "{name} {threads} {operations} {calls}");
    }
    let (median, lowest) = (
        Tenths(measured.times.median),
        Tenths(measured.times.lowest_tenth),
    );
    let used = Tenths(measured.used);
    println!(rt; "{name} {threads} {operations} {median} {lowest} {used}")
}

/// Runs a workload and prints its line.
fn report<R: Wait + Threads + Clock + CpuClock + Print + Eprint + Sync>(
    rt: &R,
    alloc: Global,
    workload: Workload,
    asked: &Bench,
) -> Result<(), LoadError> {
    let (measured, calls) = run(rt, alloc, workload, asked)?;
    Ok(print_line(rt, workload, asked, measured, calls)?)
}

/// Runs what is asked for, and prints its lines.
pub fn run_all<R: Wait + Threads + Clock + CpuClock + Print + Eprint + Sync>(
    rt: &R,
    alloc: Global,
    asked: &Bench,
) -> Result<(), LoadError> {
    for workload in Workload::ALL {
        if asked.asks(workload) {
            report(rt, alloc, workload, asked)?;
        }
    }
    Ok(())
}
