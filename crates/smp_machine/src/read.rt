//! Readings of keys and sites by a CPU of the machine.

ghost use Rattle.std.specs.Prelude.{◌≡◌};
ghost use Rattle.smp_multi.specs.Reads.{KeyAnswers, SiteAnswers};
ghost use Rattle.smp_machine.specs.MachineCpu.{IsAt};

use crate::cpu::Cpu;
use crate::machine::Machine;
use crate::machine_cpu::MachineCpu;
use smp_labels::SiteKind;
use smp_mask::SmpError;
use std::alloc::Allocator;

/// Whether a key is on.
pub(crate) fn read_key<A: Allocator>(
    machine: &Machine<A>,
    me: &mut MachineCpu<A>,
    k: u32,
) -> Result<bool, SmpError>
    requires at { IsAt machine.now me.old }
    ensures answers { KeyAnswers k me.old.stops me.new.stops result }
    ensures calls { me.new.calls ≡ me.old.calls }
    ensures passes { me.new.passes ≡ me.old.passes }
    ensures heard { me.new.heard_at ≡ me.old.heard_at }
{
    machine.stops.read_key(&mut me.stops, k)
}

/// What is at a site.
fn read_site<A: Allocator>(
    machine: &Machine<A>,
    me: &mut MachineCpu<A>,
    i: u32,
) -> Result<SiteKind, SmpError>
    requires at { IsAt machine.now me.old }
    ensures answers { SiteAnswers i me.old.stops me.new.stops result }
    ensures calls { me.new.calls ≡ me.old.calls }
    ensures passes { me.new.passes ≡ me.old.passes }
    ensures heard { me.new.heard_at ≡ me.old.heard_at }
{
    machine.stops.read_site(&mut me.stops, i)
}

impl<A: Allocator> Machine<A> {
    /// Whether a key is on (`include/linux/jump_label.h: static_key_enabled`), at a load of its count, as
    /// [`smp_multi::StopTable::read_key`]. E4 where the machine has no such key, or this CPU has its interrupts off, which
    /// makes no step. One lawful table says all that the CPU has read since its interrupts last went on. It does not wait.
    pub fn read_key(&self, me: &mut Cpu<A>, k: u32) -> Result<bool, SmpError>
        requires at { IsAt self.now me.old }
        ensures answers { KeyAnswers k me.old.stops me.new.stops result }
        ensures calls { me.new.calls ≡ me.old.calls }
        ensures passes { me.new.passes ≡ me.old.passes }
        ensures heard { me.new.heard_at ≡ me.old.heard_at }
    {
        read_key(self, &mut me.place, k)
    }

    /// What is at a site, a NOP or a jump (`arch_static_branch`, `arch_static_branch_jump`), at a load of its word, as
    /// [`smp_multi::StopTable::read_site`]. E4 where the machine has no such site, or this CPU has its interrupts off,
    /// which makes no step. One lawful table says all that the CPU has read since its interrupts last went on. It does not
    /// wait.
    pub fn read_site(&self, me: &mut Cpu<A>, i: u32) -> Result<SiteKind, SmpError>
        requires at { IsAt self.now me.old }
        ensures answers { SiteAnswers i me.old.stops me.new.stops result }
        ensures calls { me.new.calls ≡ me.old.calls }
        ensures passes { me.new.passes ≡ me.old.passes }
        ensures heard { me.new.heard_at ≡ me.old.heard_at }
    {
        read_site(self, &mut me.place, i)
    }
}
