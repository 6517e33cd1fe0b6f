//! Calls that wait, of a function that is slow on purpose: they return after it.

use super::hall::in_threads;
use super::line::Act::{Poll, Raise, SlowEach, SlowMany, SlowSingle};
use super::line::Often::{Times, Until};
use super::line::Part;
use super::*;

#[test]
fn a_call_with_wait_returns_after_its_function(rt: HostRuntime) -> Result<(), Fail> {
    let others = CpuMask::of(1)?.with(2)?;
    let calls = [
        SlowSingle(1),
        SlowMany(others),
        SlowEach(others),
        SlowSingle(2),
        SlowEach(CpuMask::of(0)?),
    ];
    let serves = [Poll];
    let plays: [&[Part]; 3] = [
        &[(Times(10), &calls)],
        &[(Times(1), &serves)],
        &[(Times(1), &serves)],
    ];
    let none = LabelMap::empty();
    assert_eq!(rt; in_threads(&rt, rt.alloc(), "0-2", &none, &plays)?, 3);
    Ok(())
}

/// CPU 0 calls CPUs 9 and 31, the last of which has the last record, and then CPU 31 calls CPUs 0 and 9.
#[test]
fn a_call_to_a_high_cpu_with_wait_returns_after_its_function(rt: HostRuntime) -> Result<(), Fail> {
    let (nine, last) = (CpuMask::of(9)?, CpuMask::of(31)?);
    // Seven times a slow function raises the flag in each of ten rounds, and CPU 0 raises it once more.
    let calls = [
        SlowSingle(31),
        SlowMany(last),
        SlowEach(last),
        SlowMany(nine.or(last)),
        SlowEach(nine.or(last)),
    ];
    let back = [
        SlowSingle(9),
        SlowMany(nine),
        SlowMany(nine.with(0)?),
        SlowEach(nine.with(0)?),
    ];
    let (serves, ends) = ([Poll], [Raise]);
    let zero: [Part; 2] = [(Times(10), &calls), (Times(1), &ends)];
    let others: [Part; 1] = [(Times(1), &serves)];
    let highest: [Part; 2] = [(Until(71), &serves), (Times(10), &back)];
    let mut plays: [&[Part]; 32] = [&others; 32];
    plays[0] = &zero;
    plays[31] = &highest;
    let none = LabelMap::empty();
    assert_eq!(rt; in_threads(&rt, rt.alloc(), "0,9,31", &none, &plays)?, 3);
    Ok(())
}
