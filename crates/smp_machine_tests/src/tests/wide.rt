//! Machines of 8 and of 32 CPUs, each of which makes stops and takes part in those of others.

use super::hall::in_threads;
use super::keys::labels;
use super::line::Act::{All, Calls, OneNext, Poll, Raise, Reads, Set, TwoNext};
use super::line::Often::{Times, Until};
use super::line::{Act, Part};
use super::*;

/// What CPU 0 does before the others end: it stops the machine for a function on all CPUs, and turns the last key.
fn leads(all: CpuMask) -> [Act; 6] {
    [
        All(9, 4, Some(all), Ok(9)),
        Set(3, true, Ok(true)),
        Reads(3, true),
        Set(3, true, Ok(false)),
        Set(3, false, Ok(true)),
        Reads(3, false),
    ]
}

/// What each does: it stops the CPU after it, alone and then with itself.
const EACH: [Act; 3] = [OneNext, TwoNext, Raise];

#[test]
fn eight_cpus_stop_each_other(rt: HostRuntime) -> Result<(), Fail> {
    let lead = leads("0-7".parse()?);
    let serves = [Poll];
    let ran = [Calls(3)];
    let others: [Part; 3] = [(Times(1), &EACH), (Until(8), &serves), (Times(1), &ran)];
    let first: [Part; 4] = [
        (Times(1), &lead),
        (Times(1), &EACH),
        (Until(8), &serves),
        (Times(1), &ran),
    ];
    let mut plays: [&[Part]; 8] = [&others; 8];
    plays[0] = &first;
    assert_eq!(rt; in_threads(&rt, rt.alloc(), "0-7", &labels(4)?, &plays)?, 8);
    Ok(())
}

#[test]
fn all_cpus_stop_each_other(rt: HostRuntime) -> Result<(), Fail> {
    let lead = leads("0-31".parse()?);
    let serves = [Poll];
    let ran = [Calls(3)];
    let others: [Part; 3] = [(Times(1), &EACH), (Until(32), &serves), (Times(1), &ran)];
    let first: [Part; 4] = [
        (Times(1), &lead),
        (Times(1), &EACH),
        (Until(32), &serves),
        (Times(1), &ran),
    ];
    let mut plays: [&[Part]; 32] = [&others; 32];
    plays[0] = &first;
    assert_eq!(rt;
        in_threads(&rt, rt.alloc(), "0-31", &labels(4)?, &plays)?,
        32
    );
    Ok(())
}
