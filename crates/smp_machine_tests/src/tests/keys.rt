//! Keys that CPUs of a machine change, between threads.

use super::hall::in_threads;
use super::line::Act::{Agrees, Count, Dec, Inc, Poll, Raise, Reads, Set, SetTo};
use super::line::Often::{Times, Until};
use super::line::Part;
use super::*;
use smp_mask::Edge;

const BAD: SmpError = SmpError::BadArgument;

const BELOW: SmpError = SmpError::KeyRange(Edge::Zero);

const ABOVE: SmpError = SmpError::KeyRange(Edge::Full);

/// Two sites of each key at least, with both branches.
pub fn labels(keys: u32) -> Result<LabelMap, SmpError> {
    let mut entries = [Entry {
        key: 0,
        branch: false,
    }; 8];
    for (site, entry) in entries.iter_mut().enumerate() {
        entry.key = (site as u32 / 2) % keys.max(1);
        entry.branch = site % 2 == 1;
    }
    LabelMap::new(&entries, keys)
}

/// CPU 0 sets the only key.
#[test]
fn a_key_is_turned_with_its_sites(rt: HostRuntime) -> Result<(), Fail> {
    let sets = [
        Reads(0, false),
        Set(0, false, Ok(false)),
        Set(0, true, Ok(true)),
        Reads(0, true),
        Set(0, true, Ok(false)),
        Reads(0, true),
        Set(1, true, Err(BAD)),
        Set(0, false, Ok(true)),
        Reads(0, false),
    ];
    let serves = [Poll];
    let plays: [&[Part]; 2] = [&[(Times(1), &sets)], &[(Times(1), &serves)]];
    assert_eq!(rt; in_threads(&rt, rt.alloc(), "0-1", &labels(1)?, &plays)?, 2);
    Ok(())
}

/// CPU 0 sets the last three of four keys, and then each to what it is, which it is told.
#[test]
fn each_key_is_set_by_its_number(rt: HostRuntime) -> Result<(), Fail> {
    let sets = [
        Set(3, true, Ok(true)),
        Reads(3, true),
        Reads(2, false),
        Set(3, true, Ok(false)),
        Set(2, true, Ok(true)),
        Set(1, true, Ok(true)),
        Set(3, false, Ok(true)),
        Reads(3, false),
        Reads(2, true),
        Reads(1, true),
        Reads(0, false),
    ];
    let stays = [
        Set(1, true, Ok(false)),
        Set(2, true, Ok(false)),
        Set(3, false, Ok(false)),
    ];
    let last = [Raise];
    let serves = [Poll];
    let plays: [&[Part]; 2] = [
        &[(Times(1), &sets), (Times(50), &stays), (Times(1), &last)],
        &[(Until(1), &serves)],
    ];
    assert_eq!(rt; in_threads(&rt, rt.alloc(), "0-1", &labels(4)?, &plays)?, 2);
    Ok(())
}

/// Two CPUs set two keys 100 times each, while two others read them: between two of its stops, what a CPU reads agrees
/// with one lawful table.
#[test]
fn readings_between_two_stops_agree(rt: HostRuntime) -> Result<(), Fail> {
    let even = [
        SetTo(0, false),
        SetTo(0, true),
        SetTo(1, true),
        SetTo(1, false),
        SetTo(0, true),
    ];
    let odd = [
        SetTo(1, true),
        SetTo(1, false),
        SetTo(0, true),
        SetTo(0, false),
    ];
    let reads = [Agrees(0), Agrees(1), Agrees(0), Poll];
    let last = [Raise];
    let plays: [&[Part]; 4] = [
        &[(Times(20), &even), (Times(1), &last)],
        &[(Times(25), &odd), (Times(1), &last)],
        &[(Until(2), &reads)],
        &[(Until(2), &reads)],
    ];
    assert_eq!(rt; in_threads(&rt, rt.alloc(), "0-3", &labels(2)?, &plays)?, 4);
    Ok(())
}

/// One CPU counts a key up and down. Its sites are looked at after each change of on and off.
#[test]
fn a_key_counts(rt: HostRuntime) -> Result<(), Fail> {
    let small = [
        Inc(0, Ok(true)),
        Reads(0, true),
        Inc(0, Ok(false)),
        Dec(0, Ok(false)),
        Set(0, true, Ok(false)),
        Reads(0, true),
        Dec(0, Ok(true)),
        Reads(0, false),
        Dec(0, Err(BELOW)),
        Inc(0, Ok(true)),
        Inc(0, Ok(false)),
        Inc(0, Ok(false)),
        Reads(0, true),
        Set(0, false, Ok(true)),
        Reads(0, false),
        Inc(1, Err(BAD)),
        Dec(1, Err(BAD)),
        Inc(0, Ok(true)),
    ];
    let up = [Inc(0, Ok(false))];
    let over = [Inc(0, Err(ABOVE))];
    let serves = [Poll];
    let plays: [&[Part]; 2] = [
        &[(Times(1), &small), (Times(65_534), &up), (Times(1), &over)],
        &[(Times(1), &serves)],
    ];
    assert_eq!(rt; in_threads(&rt, rt.alloc(), "0-1", &labels(1)?, &plays)?, 2);
    Ok(())
}

/// Four CPUs count one key up and down across 0, 1,000 times each. At the end it is at 0, so that CPU 0 may count from there.
#[test]
fn four_cpus_count_one_key(rt: HostRuntime) -> Result<(), Fail> {
    let counts = [Count(0, true), Agrees(0), Count(0, false), Agrees(0)];
    let last = [Raise];
    let serves = [Poll];
    let end = [Reads(0, false), Inc(0, Ok(true))];
    let others: [Part; 3] = [
        (Times(1_000), &counts),
        (Times(1), &last),
        (Until(4), &serves),
    ];
    let first: [Part; 4] = [
        (Times(1_000), &counts),
        (Times(1), &last),
        (Until(4), &serves),
        (Times(1), &end),
    ];
    let plays: [&[Part]; 4] = [&first, &others, &others, &others];
    assert_eq!(rt; in_threads(&rt, rt.alloc(), "0-3", &labels(1)?, &plays)?, 4);
    Ok(())
}
