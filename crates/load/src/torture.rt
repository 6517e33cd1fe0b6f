//! Tortures a machine by random calls and stops from all of its CPUs, as `kernel/scftorture.c` does.
//!
//! Each CPU is a thread. It draws what it does by weights, sleeps and polls among them, until the seconds have passed;
//! then all poll until the last is done. At the end the calls that each CPU has sent are compared with those that the
//! others' handlers have heard, and with the machine's own tally words.

ghost use Rattle.std.specs.Prelude.{◌≡◌, IfOk};
ghost use Rattle.smp_mask.specs.Mask.{members};
ghost use Rattle.smp_machine.specs.MachineCpu.{IsAt, IsFull};
ghost use Rattle.load.specs.Ends.{AreFirst, HasEach, reported};

mod acts;
mod answers;
mod call_totals;
mod choice;
mod counts;
mod heard;
pub mod kind;
mod launch;
mod report;
mod report_page;
mod schedule;
pub mod shared_words;
mod torturer;
mod verdict;
pub mod weights;

use crate::cpus::first_cpus;
use crate::error::LoadError;
use crate::request::Torture;
use crate::torture::acts::labels;
use crate::torture::launch::{Ended, torture};
use crate::torture::report::Report;
use crate::torture::report_page::print_page;
use crate::torture::schedule::Schedule;
use crate::torture::verdict::{are_all_right, is_drained};
use smp_machine::{Machine, MachineBoot};
use smp_queue::Audit;
use std::alloc::Global;
use std::sync::Wait;
use std::thread::Threads;
use std::time::{Clock, Instant};

/// After how many looks in vain a CPU sleeps that waits, where it sleeps at all.
const LOOKS: u32 = 100;

/// A new machine, all of whose CPUs are online, and its CPUs.
fn machine_of(
    alloc: Global,
    request: &Torture,
) -> Result<(Machine<Global>, MachineBoot<Global>), LoadError>
    ensures full { IfOk result (λ t. IsFull t.1 t.0) }
    ensures online { IfOk result (λ t. AreFirst request.now.threads t.0.calls.online) }
{
    let online = first_cpus(request.threads)?;
    let (mut machine, boot) = Machine::new(alloc, request.threads, online, &labels()?)?;
    if request.sleeps {
        machine.sleep_after(LOOKS);
    }
    Ok((machine, boot))
}

/// Tortures this machine from now on: a CPU of it, and what all have done.
fn torture_from_now<R: Wait + Threads + Clock + Eprint + Sync>(
    rt: &R,
    alloc: Global,
    request: &Torture,
    machine: &Machine<Global>,
    boot: MachineBoot<Global>,
) -> Result<Ended, LoadError>
    requires { IsFull boot machine.now }
    ensures at { IfOk result (λ e. IsAt machine.now e.last) }
    ensures each { IfOk result (λ e. reported e.reports.items ≡ members machine.now.calls.online) }
{
    let schedule = Schedule {
        request: *request,
        began: Instant::now(rt)?,
    };
    torture(rt, alloc, &schedule, machine, boot)
}

/// Tortures a new machine: what each of its CPUs has done, and the audit of its calls.
#[tactic(auto, using(crate::proofs::Ending::first_members))]
fn torture_new<R: Wait + Threads + Clock + Eprint + Sync>(
    rt: &R,
    alloc: Global,
    request: &Torture,
) -> Result<(Vec<Report, Global>, Audit), LoadError>
    ensures { IfOk result (λ t. HasEach request.now.threads t.0.items) }
{
    let (machine, boot) = machine_of(alloc, request)?;
    let Ended { last, reports } = torture_from_now(rt, alloc, request, &machine, boot)?;
    Ok((reports, machine.shutdown(last)))
}

/// Tortures a new machine, and prints what was done: whether all counts are right.
pub fn run<R: Wait + Threads + Clock + Print + Eprint + Sync>(
    rt: &R,
    alloc: Global,
    request: &Torture,
) -> Result<bool, LoadError> {
    let (reports, audit) = torture_new(rt, alloc, request)?;
    print_page(rt, request, reports.as_slice(), &audit)?;
    Ok(are_all_right(reports.as_slice()) && is_drained(reports.as_slice(), &audit))
}
