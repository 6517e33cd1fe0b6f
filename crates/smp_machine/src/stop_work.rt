//! The works of stops.

ghost use Rattle.std.specs.Prelude.{◌≡◌, ℕ, ◌==◌, true, None};
ghost use Rattle.smp_mask.specs.Mask.{has};
ghost use Rattle.smp_machine.specs.Stops.{IsActive, IsOneWork, IsTwoWork, IsMachineWork, MayBegin};

use smp_mask::CpuMask;
use smp_multi::StopTable;
use smp_words::work::{Kind, Work};
use std::alloc::Allocator;

/// The set of one CPU, of those that are online.
fn only(online: CpuMask, cpu: u32) -> CpuMask
    requires { has online cpu ≡ true }
    ensures { (c : ℕ) → has result c ≡ (c == cpu) }
{
    let _ = online.contains(cpu);
    match CpuMask::of(cpu) {
        Ok(mask) => mask,
        Err(_) => unreachable!(),
    }
}

/// The set of the first of these CPUs.
pub(crate) fn first_of(online: CpuMask) -> CpuMask
    requires { (cpu : ℕ) × (has online cpu ≡ true) }
    ensures { IsActive online None result }
{
    match online.first() {
        Some(cpu) => only(online, cpu),
        None => unreachable!(),
    }
}

/// The work of a stop of one CPU.
pub(crate) fn one_work<A: Allocator>(table: &StopTable<A>, dst: u32, func: u16, arg: u64) -> Work
    requires { has table.now.setting.online dst ≡ true }
    ensures work { IsOneWork dst func arg result }
    ensures begins { MayBegin table.now result }
{
    let mask = only(table.online(), dst);
    Work {
        kind: Kind::One,
        mask,
        active: mask,
        func,
        arg,
    }
}

/// The work of a stop of two CPUs.
pub(crate) fn two_work<A: Allocator>(
    table: &StopTable<A>,
    a: u32,
    b: u32,
    func: u16,
    arg: u64,
) -> Work
    requires a { has table.now.setting.online a ≡ true }
    requires b { has table.now.setting.online b ≡ true }
    ensures work { IsTwoWork a b func arg result }
    ensures begins { MayBegin table.now result }
{
    let online = table.online();
    let active = only(online, a);
    Work {
        kind: Kind::Multi,
        mask: active.or(only(online, b)),
        active,
        func,
        arg,
    }
}

/// The work of a stop of all CPUs that are online.
pub(crate) fn machine_work<A: Allocator>(
    table: &StopTable<A>,
    func: u16,
    arg: u64,
    active: Option<CpuMask>,
) -> Work
    ensures work { IsMachineWork table.now func arg active result }
    ensures begins { MayBegin table.now result }
{
    let mask = table.online();
    let active = match active {
        Some(active) => active,
        None => first_of(mask),
    };
    Work {
        kind: Kind::Multi,
        mask,
        active,
        func,
        arg,
    }
}
