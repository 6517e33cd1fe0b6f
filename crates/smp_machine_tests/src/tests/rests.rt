//! CPUs that rest are woken by what comes for them.

use super::hall::in_threads;
use super::line::Act::{All, Calls, Many, Raise, Rest, Single};
use super::line::Often::{Times, Until};
use super::line::Part;
use super::*;

/// How often CPU 0 stops and calls the others.
const ROUNDS: u32 = 200;

#[test]
fn cpus_that_rest_are_woken_by_calls_and_stops(rt: HostRuntime) -> Result<(), Fail> {
    let others: CpuMask = "1-2".parse()?;
    let wakes = [
        All(9, 4, Some("0-2".parse()?), Ok(9)),
        Single(1, true, Ok(())),
        Single(2, true, Ok(())),
    ];
    // The flag is raised before a call wakes the others to see it.
    let ends = [Raise, Many(others, Ok(others))];
    let (rests, ran) = ([Rest], [Calls(ROUNDS)]);
    let first: [Part; 2] = [(Times(ROUNDS), &wakes), (Times(1), &ends)];
    let other: [Part; 2] = [(Until(1), &rests), (Times(1), &ran)];
    let plays: [&[Part]; 3] = [&first, &other, &other];
    let none = LabelMap::empty();
    assert_eq!(rt; in_threads(&rt, rt.alloc(), "0-2", &none, &plays)?, 3);
    Ok(())
}
