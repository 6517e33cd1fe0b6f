//! CPUs that sleep while they wait for the gate, for their stops and for their calls.

use super::hall::in_threads_asleep;
use super::keys::labels;
use super::line::Act::{All, Count, Many};
use super::line::Often::Times;
use super::line::{Act, Part};
use super::*;

/// How often each CPU stops and calls the others.
const ROUNDS: u32 = 200;

/// How often each of many CPUs stops all of them.
const FEW: u32 = 3;

/// It stops all of these CPUs, and calls all of them but this one.
fn acts_of(all: CpuMask, cpu: u32) -> [Act; 2] {
    let others = all.without(cpu);
    [All(9, 4, Some(all), Ok(9)), Many(others, Ok(others))]
}

#[test]
fn cpus_that_wait_asleep_are_woken_by_each_end(rt: HostRuntime) -> Result<(), Fail> {
    let all: CpuMask = "0-2".parse()?;
    let (zero, one, two) = (acts_of(all, 0), acts_of(all, 1), acts_of(all, 2));
    let zero: [Part; 1] = [(Times(ROUNDS), &zero)];
    let one: [Part; 1] = [(Times(ROUNDS), &one)];
    let two: [Part; 1] = [(Times(ROUNDS), &two)];
    let plays: [&[Part]; 3] = [&zero, &one, &two];
    let none = LabelMap::empty();
    assert_eq!(rt;
        in_threads_asleep(&rt, rt.alloc(), "0-2", &none, &plays)?,
        3
    );
    Ok(())
}

#[test]
fn many_cpus_that_wait_asleep_for_the_gate_all_get_it(rt: HostRuntime) -> Result<(), Fail> {
    let stops = [All(9, 4, None, Ok(9))];
    let part: [Part; 1] = [(Times(FEW), &stops)];
    let plays: [&[Part]; 32] = [&part; 32];
    let none = LabelMap::empty();
    assert_eq!(rt;
        in_threads_asleep(&rt, rt.alloc(), "0-31", &none, &plays)?,
        32
    );
    Ok(())
}

#[test]
fn cpus_that_wait_asleep_for_the_end_of_a_patch_are_woken(rt: HostRuntime) -> Result<(), Fail> {
    let counts = [Count(0, true), Count(0, false)];
    let part: [Part; 1] = [(Times(ROUNDS), &counts)];
    let plays: [&[Part]; 3] = [&part; 3];
    assert_eq!(rt;
        in_threads_asleep(&rt, rt.alloc(), "0-2", &labels(1)?, &plays)?,
        3
    );
    Ok(())
}
