//! Turns, polls, calls and readings of CPUs of a machine, on one thread.

use super::line::Act::{Any, ByUser, Each, Heard, Key, Many, Poll, Single, Site, TakeWork, Turn};
use super::line::play;
use super::*;
use smp_labels::SiteKind::{Jmp, Nop};
use smp_multi::Turn::Same;

const NO_CPU: SmpError = SmpError::NoCpu;

const BAD: SmpError = SmpError::BadArgument;

#[test]
fn a_cpu_calls_itself(rt: HostRuntime) -> Result<(), Fail> {
    let all = CpuMask::of(0)?;
    let none = CpuMask::empty();
    let lines = [
        (0, Single(0, true, Ok(()))),
        (0, Heard(1, (0, 5, 6))),
        (0, Single(1, true, Err(NO_CPU))),
        (0, ByUser(1, Ok(()))),
        (0, Heard(2, (0, 7, 8))),
        (0, ByUser(2, Err(BAD))),
        (0, Any(all, Ok(0))),
        (0, Heard(3, (0, 9, 10))),
        (0, Any(none, Err(NO_CPU))),
        (0, Many(all, Ok(none))),
        (0, Each(all, true, Ok(all))),
        (0, Heard(4, (0, 13, 14))),
        (0, Each(all, false, Ok(none))),
        (0, Heard(4, (0, 13, 14))),
    ];
    let labels = LabelMap::empty();
    assert_eq!(rt; play(&rt, rt.alloc(), all, &labels, &lines)?, None);
    Ok(())
}

/// A call of a CPU to itself, or to a CPU that is not online, waits for nothing: it runs no call that is pending for the CPU, with wait
/// neither. The next poll does.
#[test]
fn own_calls_with_wait_handle_nothing(rt: HostRuntime) -> Result<(), Fail> {
    let zero = CpuMask::of(0)?;
    let lines = [
        (1, ByUser(0, Ok(()))),
        (0, Single(0, true, Ok(()))),
        (0, Heard(1, (0, 5, 6))),
        (0, Single(7, true, Err(NO_CPU))),
        (0, Heard(1, (0, 5, 6))),
        (0, Any(zero, Ok(0))),
        (0, Heard(2, (0, 9, 10))),
        (0, Each(zero, true, Ok(zero))),
        (0, Heard(3, (0, 13, 14))),
        (0, Many(zero, Ok(CpuMask::empty()))),
        (0, Heard(3, (0, 13, 14))),
        (0, Poll),
        (0, Heard(4, (1, 7, 8))),
    ];
    let labels = LabelMap::empty();
    let online = "0-1".parse()?;
    assert_eq!(rt; play(&rt, rt.alloc(), online, &labels, &lines)?, None);
    Ok(())
}

/// CPU 1 calls CPU 0, which hears it at its next turn, or its next poll, once.
#[test]
fn turns_and_polls_hear_calls(rt: HostRuntime) -> Result<(), Fail> {
    let lines = [
        (0, Turn(Same)),
        (0, Poll),
        (0, Heard(0, (0, 0, 0))),
        (1, ByUser(0, Ok(()))),
        (0, TakeWork(false)),
        (0, Heard(0, (0, 0, 0))),
        (0, Turn(Same)),
        (0, Heard(1, (1, 7, 8))),
        (1, ByUser(1, Ok(()))),
        (0, Poll),
        (0, Heard(2, (1, 7, 8))),
        (0, Poll),
        (0, Heard(2, (1, 7, 8))),
        (1, Heard(0, (0, 0, 0))),
    ];
    let labels = LabelMap::empty();
    let online = "0-1".parse()?;
    assert_eq!(rt; play(&rt, rt.alloc(), online, &labels, &lines)?, None);
    Ok(())
}

/// Site 0 belongs to a branch that is likely off, site 1 to one that is likely on; their key is off.
#[test]
fn keys_and_sites_are_read(rt: HostRuntime) -> Result<(), Fail> {
    let lines = [
        (0, Site(0, Ok(Nop))),
        (0, Site(1, Ok(Jmp))),
        (0, Site(2, Err(BAD))),
        (0, Key(0, Ok(false))),
        (0, Key(1, Err(BAD))),
        (1, Site(0, Ok(Nop))),
        (1, Site(1, Ok(Jmp))),
        (1, Site(2, Err(BAD))),
        (1, Key(0, Ok(false))),
        (1, Key(1, Err(BAD))),
    ];
    let labels = two_sites()?;
    let online = "0-1".parse()?;
    assert_eq!(rt; play(&rt, rt.alloc(), online, &labels, &lines)?, None);
    Ok(())
}
