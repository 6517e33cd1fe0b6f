//! Programs of users, on machines of four CPUs. What a user wants to know of a call is a clause of it, proved by the library's
//! public clauses alone.
//!
//! - `fence`: A fence on all CPUs, as `membarrier`: when it returns, each other CPU has passed it (docs/FIRST_PROGRAM.md).
//! - `switch`: A static key with two sites: what a reader finds is lawful while others call each other.
//! - `shootdown`: A TLB shootdown: when it returns, each user of an address space has run the flush.
//! - `end`: How each of them ends: all calls that were queued have run.
#![tactic(auto)]

mod end;
mod fence;
mod shootdown;
mod switch;

use smp_mask::SmpError;
use std::alloc::Global;
use std::io;
use std::process::ExitCode;
use std::sync::Wait;
use std::thread::Threads;

/// What the programs have shown: how many calls have run, and which entries the TLBs have lost.
#[derive(Drop)]
struct Shown {
    fences: u64,
    switched: u64,
    dropped: shootdown::Report,
}

/// Runs all of them, one after the other.
fn run_all<R: Wait + Threads + Sync>(rt: &R, alloc: Global) -> Result<Shown, SmpError> {
    Ok(Shown {
        fences: fence::run(rt, alloc)?,
        switched: switch::run(rt, alloc)?,
        dropped: shootdown::run(rt, alloc)?,
    })
}

fn main(rt: HostRuntime) -> io::Result<ExitCode> {
    match run_all(&rt, rt.alloc()) {
        Ok(shown) => {
            println!(rt; "fence: {} calls run", shown.fences)?;
            println!(rt; "switch: {} calls run", shown.switched)?;
            shootdown::print(&rt, &shown.dropped)?;
            Ok(ExitCode::SUCCESS)
        }
        Err(error) => {
            eprintln!(rt; "users: {error}")?;
            Ok(ExitCode::from(2))
        }
    }
}
