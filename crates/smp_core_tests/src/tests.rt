mod calls;
mod counts;
mod cpu_lists;
mod hangs;
mod labels;
mod line;
mod masks;
mod memory;
mod merged_moves;
mod numbers;
mod patches;
mod programs;
mod search;
mod sparse;
mod start_line;
mod stops;
mod watches;

use smp_core::*;
use smp_mask::{CpuMask, SmpError};
use std::alloc::{Allocator, Global};
use std::test::*;

// All CPUs below `nr`.
fn all_online(nr: u32) -> Result<CpuMask, SmpError> {
    let mut online = CpuMask::empty();
    for cpu in 0..nr {
        online = online.with(cpu)?;
    }
    Ok(online)
}

// A core without sites, whose CPUs are all online.
fn core_of<A: Allocator + Copy>(alloc: A, nr: u32) -> Result<Core<A>, SmpError> {
    Core::new(alloc, nr, all_online(nr)?)
}

// Why there is no such core; none where there is.
fn refusal(alloc: Global, nr: u32, online: CpuMask) -> Option<SmpError> {
    Core::new(alloc, nr, online).err()
}

#[test]
fn constructor_limits(rt: HostRuntime) -> Result<(), Fail> {
    let one = CpuMask::of(0)?;
    let bad = Some(SmpError::BadArgument);
    for (nr, online, error) in [
        (1, one, None),
        (32, all_online(32)?, None),
        (0, one, bad),
        (33, one, bad),
        (2, CpuMask::empty(), bad),
        (2, CpuMask::of(2)?, bad),
    ] {
        assert_eq!(rt; refusal(rt.alloc(), nr, online), error, "at {nr}");
    }
    Ok(())
}

// How many steps a replay by two CPUs makes, and where it stops.
fn replayed<A: Allocator + Copy>(
    alloc: A,
    events: &[Event],
) -> Result<(usize, Option<(usize, SmpError)>), SmpError> {
    let end = replay(alloc, core_of(alloc, 2)?, events)?;
    Ok((end.seen.len(), end.stopped))
}

#[test]
fn replays_stop_at_a_refusal(rt: HostRuntime) {
    let step = [Event::Step(1)];
    let idle = replayed(rt.alloc(), &step);
    assert_eq!(rt; idle, Ok((0, Some((0, SmpError::IdleStep)))));
    let handles = [Event::Start(0, Command::Handle); 2];
    let busy = replayed(rt.alloc(), &handles);
    assert_eq!(rt; busy, Ok((0, Some((1, SmpError::Busy)))));
}
