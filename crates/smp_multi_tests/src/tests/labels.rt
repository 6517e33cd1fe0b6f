//! Keys and sites on one thread: readings, nudges, and a patch by hand.

use super::line::Act::*;
use super::line::{Case, Line, play};
use super::*;
use smp_mask::Edge;

/// One key with two sites, as `static_branch_unlikely` and `static_branch_likely` declare them.
pub(super) fn two_sites() -> Result<LabelMap, SmpError> {
    let off = Entry {
        key: 0,
        branch: false,
    };
    let on = Entry {
        key: 0,
        branch: true,
    };
    LabelMap::new(&[off, on], 1)
}

/// A patch of key 0 by this change, in a stop of all these CPUs.
pub(super) fn patch(online: CpuMask, change: u64) -> Result<Work, SmpError> {
    Ok(Work {
        kind: Kind::Patch,
        mask: online,
        active: CpuMask::of(0)?,
        func: 0,
        arg: change,
    })
}

#[test]
fn keys_and_sites_are_read(rt: HostRuntime) -> Result<(), Fail> {
    let lines = [
        (0, ReadKey(0, Ok(false))),
        (0, ReadSite(0, Ok(SiteKind::Nop))),
        (0, ReadSite(1, Ok(SiteKind::Jmp))),
        (0, ReadKey(1, Err(BAD))),
        (0, ReadSite(2, Err(BAD))),
    ];
    let case = Case {
        nr: 1,
        online: "0",
        labels: &two_sites()?,
        cpus: 1,
    };
    let fault = play(rt.alloc(), case, &[&lines])?;
    assert_eq!(rt; fault, None);
    Ok(())
}

/// A CPU that is alone makes a stop of this patch, which answers so.
fn patch_alone(work: Work, answer: i32) -> [Line; 8] {
    [
        (0, Begin(work, Ok(()))),
        (0, Enter(0, Ok(Kind::Patch))),
        (0, Advance(Ok(Turn::Moved(1)))),
        (0, Advance(Ok(Turn::Moved(2)))),
        (0, Advance(Ok(Turn::Ran))),
        (0, Advance(Ok(Turn::Left))),
        (0, Finish(Ok(()))),
        (0, Poll(Ok(Some(answer)))),
    ]
}

/// At 0 a count takes a stop.
const NUDGED_AT_ZERO: [Line; 4] = [
    (0, Nudge(1, true, Err(BAD))),
    (0, Nudge(0, true, Ok(super::Nudge::Stop))),
    (0, Nudge(0, false, Err(SmpError::KeyRange(Edge::Zero)))),
    (0, Gate(true)),
];

const NUDGED_ABOVE_ZERO: [Line; 5] = [
    (0, Called(0, (0, 0, 0))),
    (0, Nudge(0, false, Ok(super::Nudge::Stop))),
    (0, Nudge(0, true, Ok(super::Nudge::Done))),
    (0, Nudge(0, false, Ok(super::Nudge::Done))),
    (0, Nudge(0, false, Ok(super::Nudge::Stop))),
];

// A count is nudged above 0; to 0, and from it, it takes a stop.
#[test]
fn a_count_is_nudged_where_the_key_stays_on(rt: HostRuntime) -> Result<(), Fail> {
    let up = patch_alone(patch(CpuMask::of(0)?, 2)?, 0);
    let parts: [&[Line]; 3] = [&NUDGED_AT_ZERO, &up, &NUDGED_ABOVE_ZERO];
    let case = Case {
        nr: 1,
        online: "0",
        labels: &two_sites()?,
        cpus: 1,
    };
    let fault = play(rt.alloc(), case, &parts)?;
    assert_eq!(rt; fault, None);
    Ok(())
}

/// The key with this count, and its sites, which are lawful, as a CPU reads them.
fn read_at(cpu: usize, is_on: bool) -> [Line; 3] {
    let (first, second) = if is_on {
        (SiteKind::Jmp, SiteKind::Nop)
    } else {
        (SiteKind::Nop, SiteKind::Jmp)
    };
    [
        (cpu, ReadKey(0, Ok(is_on))),
        (cpu, ReadSite(0, Ok(first))),
        (cpu, ReadSite(1, Ok(second))),
    ]
}

// Down at 0 answers 1, and changes nothing; off takes any count to 0, and on leaves one that is above 0.
#[test]
fn a_patch_answers_1_at_the_end_of_the_range(rt: HostRuntime) -> Result<(), Fail> {
    let online = CpuMask::of(0)?;
    let to_off = patch_alone(patch(online, 0)?, 0);
    let to_on = patch_alone(patch(online, 1)?, 0);
    let up = patch_alone(patch(online, 2)?, 0);
    let down = patch_alone(patch(online, 3)?, 0);
    let down_in_vain = patch_alone(patch(online, 3)?, 1);
    let sites = two_sites()?;
    let off = read_at(0, false);
    let on = read_at(0, true);
    let parts: [&[Line]; 22] = [
        &[(0, Gate(true))],
        &down_in_vain,
        &[(0, Count(0))],
        &off,
        &to_on,
        &[(0, Count(1))],
        &on,
        &up,
        &[(0, Count(2))],
        &on,
        &to_on,
        &[(0, Count(2))],
        &on,
        &down,
        &[(0, Count(1))],
        &on,
        &up,
        &[(0, Count(2))],
        &on,
        &to_off,
        &[(0, Count(0))],
        &off,
    ];
    let case = Case {
        nr: 1,
        online: "0",
        labels: &sites,
        cpus: 1,
    };
    let fault = play(rt.alloc(), case, &parts)?;
    assert_eq!(rt; fault, None);
    Ok(())
}

/// The turns of two CPUs up to the patch, and what neither may do then.
const UP_TO_RUN: [Line; 12] = [
    (0, Enter(0, Ok(Kind::Patch))),
    (1, Enter(0, Ok(Kind::Patch))),
    (0, Advance(Ok(Turn::Moved(1)))),
    (0, Advance(Ok(Turn::Same))),
    (1, Advance(Ok(Turn::Moved(1)))),
    (1, Advance(Ok(Turn::Moved(2)))),
    (1, Interrupts(false)),
    (1, ReadKey(0, Err(BAD))),
    (1, ReadSite(0, Err(BAD))),
    (1, Nudge(0, true, Err(BAD))),
    (0, ReadKey(0, Ok(false))),
    (0, Finish(Err(BAD))),
];

/// Those from there to the end.
const TO_THE_END: [Line; 10] = [
    (0, Advance(Ok(Turn::Moved(2)))),
    (0, Advance(Ok(Turn::Ran))),
    (1, Advance(Ok(Turn::Moved(3)))),
    (1, Advance(Ok(Turn::Left))),
    (0, Advance(Ok(Turn::Left))),
    (0, Finish(Ok(()))),
    (0, Poll(Ok(None))),
    (1, Finish(Ok(()))),
    (0, Poll(Ok(Some(0)))),
    (0, Called(0, (0, 0, 0))),
];

#[test]
fn two_cpus_make_a_patch(rt: HostRuntime) -> Result<(), Fail> {
    let work = patch("0-1".parse()?, 1)?;
    let parts: [&[Line]; 5] = [
        &[(0, Gate(true)), (0, Begin(work, Ok(())))],
        &UP_TO_RUN,
        &TO_THE_END,
        &read_at(0, true),
        &read_at(1, true),
    ];
    let case = Case {
        nr: 2,
        online: "0-1",
        labels: &two_sites()?,
        cpus: 2,
    };
    let fault = play(rt.alloc(), case, &parts)?;
    assert_eq!(rt; fault, None);
    Ok(())
}
