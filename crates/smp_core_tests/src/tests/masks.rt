ghost use Rattle.std.specs.Prelude.{◌≡◌, length};
ghost use Rattle.smp_mask.specs.Mask.{members};

use super::cpu_lists::CPU_LISTS;
use smp_mask::{Cause, CpuMask, Edge, NR_CPUS, Side, SmpError};
use std::test::*;

#[test]
fn prints_errors(rt: HostRuntime) -> Result<(), Fail> {
    let texts = [
        (SmpError::NoCpu, "E1 no such CPU"),
        (SmpError::Busy, "E2 busy"),
        (SmpError::NoStopper, "E3 no stopper"),
        (SmpError::BadArgument, "E4 bad argument"),
        (SmpError::Contended, "E5 contended"),
        (SmpError::NoMemory, "E6 no memory"),
        (SmpError::Stale, "E7 stale"),
        (SmpError::SlotBusy, "E8 slot busy"),
        (SmpError::IdleStep, "E10 idle step"),
        (SmpError::BadMask { position: 2 }, "E11 bad mask at 2"),
        (SmpError::StreamFailed(Side::Read), "E12 read failed"),
        (SmpError::StreamFailed(Side::Write), "E12 write failed"),
        (SmpError::KeyRange(Edge::Full), "E13 key full"),
        (SmpError::KeyRange(Edge::Zero), "E13 key zero"),
    ];
    for (error, text) in texts {
        assert_eq!(rt; error.to_string(rt.alloc())?.as_str(), text);
    }
    Ok(())
}

#[test]
fn prints_causes(rt: HostRuntime) -> Result<(), Fail> {
    let texts = [
        (Cause::TooLong, "E9 line 7 TooLong"),
        (Cause::Cut, "E9 line 7 Cut"),
        (Cause::Word, "E9 line 7 Word"),
        (Cause::Number, "E9 line 7 Number"),
        (Cause::Range, "E9 line 7 Range"),
        (Cause::Mask, "E9 line 7 Mask"),
        (Cause::SharedKey, "E9 line 7 SharedKey"),
    ];
    for (cause, text) in texts {
        let error = SmpError::BadScript { line: 7, cause };
        assert_eq!(rt; error.to_string(rt.alloc())?.as_str(), text);
    }
    Ok(())
}

#[test]
fn masks_are_sets(rt: HostRuntime) -> Result<(), Fail> {
    let low: CpuMask = "0-3".parse()?;
    let high: CpuMask = "2-5,7".parse()?;
    assert_eq!(rt; (low.and(high).weight(), low.or(high).weight()), (2, 7));
    assert_eq!(rt;
        (low.first_and(high), high.without(2).first()),
        (Some(2), Some(3))
    );
    assert_eq!(rt; (high.next_after(5), high.next_after(7)), (Some(7), None));
    assert_eq!(rt; (high.contains(7), high.contains(6)), (true, false));
    assert_eq!(rt; CpuMask::of(32).err(), Some(SmpError::BadArgument));
    let shown = format!(in rt.alloc(); "{high:?} {:?}", CpuMask::empty())?;
    assert_eq!(rt; shown.as_str(), "CpuMask(2-5,7) CpuMask()");
    Ok(())
}

// A loop over the members, as callers write it: each is below NR_CPUS, and all come.
fn counted(mask: CpuMask) -> u32
    ensures { result ≡ length (members mask) }
{
    let mut seen = [false; NR_CPUS as usize];
    let mut count = 0;
    for cpu in mask.iter() {
        seen[cpu as usize] = true;
        count += 1;
    }
    count
}

#[test]
fn loops_over_members(rt: HostRuntime) -> Result<(), Fail> {
    let mask = CpuMask::of(3)?.with(0)?.with(7)?;
    assert_eq!(rt; counted(mask), 3);
    assert_eq!(rt;
        mask.iter().collect::<Vec<u32>>(rt.alloc())?.as_slice(),
        [0, 3, 7].as_slice()
    );
    Ok(())
}

#[test]
fn reads_and_prints_cpu_lists(rt: HostRuntime) -> Result<(), Fail> {
    let alloc = rt.alloc();
    assert_eq!(rt; CPU_LISTS.lines().count(), 291);
    for line in CPU_LISTS.lines() {
        let (text, answer) = line.split_once("\t").ok_or("no tab")?;
        let printed = match CpuMask::parse(text.as_bytes()) {
            Ok(mask) => mask.to_string(alloc)?,
            Err(error) => error.to_string(alloc)?,
        };
        assert_eq!(rt; printed.as_str(), answer, "{text}");
    }
    Ok(())
}
