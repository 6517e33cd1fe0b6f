mod ends;
mod hall;
mod keys;
mod line;
mod lines;
mod member;
mod rests;
mod sleeping;
mod stops;
mod turns;
mod users;
mod waits;
mod watching;
mod wide;

use linked_list_allocator::LocalHeap;
use smp_labels::{Entry, LabelMap};
use smp_machine::*;
use smp_mask::{CpuMask, SmpError};
use smp_queue::{Audit, Handler};
use smp_words::size::NR_CPUS;
use std::alloc::{AllocError, Global};
use std::process::Abort;
use std::sync::Wait;
use std::test::*;

/// No wait of a test takes more turns than this, so that a fault fails and does not hang.
const TURNS: u32 = 100_000_000;

/// Site 0 belongs to a branch that is likely off, site 1 to one that is likely on, both of key 0.
fn two_sites() -> Result<LabelMap, SmpError> {
    let off = Entry {
        key: 0,
        branch: false,
    };
    let on = Entry {
        key: 0,
        branch: true,
    };
    LabelMap::new(&[off, on], 1)
}

#[test]
fn a_machine_has_lawful_limits(rt: HostRuntime) -> Result<(), Fail> {
    let none = LabelMap::empty();
    for (nr, cpus) in [(0, "0"), (33, "0"), (2, ""), (2, "2")] {
        let refused = Machine::new(rt.alloc(), nr, cpus.parse()?, &none).err();
        assert_eq!(rt; refused, Some(SmpError::BadArgument), "{nr} {cpus}");
    }
    let labels = two_sites()?;
    for (nr, cpus) in [(1, "0"), (2, "0-1"), (32, "0-31")] {
        let online: CpuMask = cpus.parse()?;
        let (machine, _) = Machine::new(rt.alloc(), nr, online, &labels)?;
        assert!(rt; machine.online() == online, "{nr} {cpus}");
    }
    Ok(())
}

/// With ample memory, a machine of any number of CPUs is made.
#[test]
fn a_machine_of_each_size_is_made(rt: HostRuntime) -> Result<(), Fail> {
    let labels = two_sites()?;
    let mut online = CpuMask::empty();
    for last in 0..NR_CPUS {
        online = online.with(last)?;
        let (machine, _) = Machine::new(rt.alloc(), last + 1, online, &labels)?;
        assert!(rt; machine.online() == online, "{last}");
    }
    Ok(())
}

#[test]
fn each_growth_may_be_refused(rt: HostRuntime) -> Result<(), Fail> {
    let online: CpuMask = "0-31".parse()?;
    let none = LabelMap::empty();
    // No growth is smaller than 256 bytes, so that each is the first to be refused by some heap.
    for steps in 0..100_000usize {
        let size = steps * 256;
        let heap = LocalHeap::new(rt.alloc(), size)?;
        match Machine::new(&heap, NR_CPUS, online, &none) {
            Ok(_) => {
                // The tables have 6,752 and 2,092 words of 8 bytes.
                assert!(rt; size > (6_752 + 2_092) * 8, "{size} bytes");
                return Ok(());
            }
            Err(error) => {
                assert_eq!(rt; error, SmpError::NoMemory, "{size} bytes");
                assert_eq!(rt; heap.used(), 0, "{size} bytes");
            }
        }
    }
    assert!(rt; false, "no heap was large enough");
    Ok(())
}

#[test]
fn each_online_cpu_is_given_out_once(rt: HostRuntime) -> Result<(), Fail> {
    let none = LabelMap::empty();
    let (_machine, mut boot) = Machine::new(rt.alloc(), 4, "0-1,3".parse()?, &none)?;
    give_out(&rt, &mut boot);
    Ok(())
}

fn give_out(rt: &impl Abort, boot: &mut MachineBoot<Global>) {
    for (number, once, again) in [
        (0, Ok(0), SmpError::Busy),
        (1, Ok(1), SmpError::Busy),
        (3, Ok(3), SmpError::Busy),
        (2, Err(SmpError::NoCpu), SmpError::NoCpu),
        (4, Err(SmpError::NoCpu), SmpError::NoCpu),
        (5, Err(SmpError::NoCpu), SmpError::NoCpu),
        (31, Err(SmpError::NoCpu), SmpError::NoCpu),
        (32, Err(SmpError::NoCpu), SmpError::NoCpu),
    ] {
        assert_eq!(rt; boot.cpu(number).map(|cpu| cpu.number()), once, "{number}");
        assert_eq!(rt; boot.cpu(number).err(), Some(again), "{number}");
    }
}

#[test]
fn an_idle_machine_is_drained(rt: HostRuntime) -> Result<(), Fail> {
    let none = LabelMap::empty();
    let (machine, mut boot) = Machine::new(rt.alloc(), 2, "0-1".parse()?, &none)?;
    let zero = boot.cpu(0)?;
    let drained = match machine.shutdown(zero) {
        Audit::Drained(_) => true,
        Audit::Left(_) => false,
    };
    assert!(rt; drained);
    Ok(())
}

/// Only a machine that threads may share, and a CPU that may move to another thread, are taken.
fn may_be_threaded<M: Sync, C: Send>(machine: &M, cpu: C) -> C {
    let _ = machine;
    cpu
}

#[test]
fn threads_share_a_machine_and_cpus_move(rt: HostRuntime) -> Result<(), Fail> {
    let none = LabelMap::empty();
    let (machine, mut boot) = Machine::new(rt.alloc(), 1, "0".parse()?, &none)?;
    let zero = boot.cpu(0)?;
    assert_eq!(rt; may_be_threaded(&machine, zero).number(), 0);
    Ok(())
}
