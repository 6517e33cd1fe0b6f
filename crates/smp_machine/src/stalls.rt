//! Which CPUs keep others waiting. Nothing here makes a step of a table, and no clause speaks of it.

ghost use Rattle.std.specs.Prelude.{◌≡◌, ◌<◌, ℕ, true};
ghost use Rattle.smp_mask.specs.Mask.{has};
ghost use Rattle.smp_words.specs.Size.{cpus};
ghost use Rattle.smp_machine.specs.MachineCpu.{IsAt};

use crate::machine::Machine;
use crate::machine_cpu::MachineCpu;
use smp_mask::CpuMask;
use smp_words::size::NR_CPUS;
use std::alloc::Allocator;
use std::array;
use std::sync::atomic::{AtomicBool, Ordering};

/// A CPU looks for those that keep it waiting each time that it has made this number of turns in vain.
const PATIENCE: u32 = 65_536;

/// Which CPUs keep another one waiting.
#[derive(Drop)]
pub(crate) struct Stalls {
    /// A flag for each CPU. A CPU that waits sets it where it finds a work in that CPU's queue. A CPU that takes a work clears
    /// its own flag.
    late: [AtomicBool; NR_CPUS as usize],
}

impl Stalls {
    /// No flag is set.
    pub(crate) fn new() -> Stalls {
        Stalls {
            late: array::from_fn(|_| AtomicBool::new(false)),
        }
    }

    /// The flag of a CPU, by its number modulo 32.
    fn is_late(&self, cpu: u32) -> bool {
        self.late[(cpu % NR_CPUS) as usize].load(Ordering::SeqCst)
    }

    /// Sets or clears the flag of a CPU, by its number modulo 32.
    fn set(&self, cpu: u32, is_late: bool) {
        self.late[(cpu % NR_CPUS) as usize].store(is_late, Ordering::SeqCst);
    }

    /// Clears the flag of a CPU that has taken a work.
    pub(crate) fn answers(&self, cpu: u32) {
        if self.is_late(cpu) {
            self.set(cpu, false);
        }
    }
}

/// Sets the flag of this CPU where its queue has a work. The CPU may have taken the work before the flag was set, and then it
/// does not clear it. So the queue is looked at once more, and the flag is cleared where the queue is empty then.
///
/// A flag that a third CPU sets in between is cleared too. That CPU looks again while it waits, unless it sleeps.
fn note_one<A: Allocator>(machine: &Machine<A>, me: &mut MachineCpu<A>, cpu: u32)
    requires at { IsAt machine.now me.old }
    requires within { cpu < cpus }
    ensures { me.new ≡ me.old }
{
    if machine.queues.has_work(&mut me.passes, cpu) {
        machine.stalls.set(cpu, true);
        if !machine.queues.has_work(&mut me.passes, cpu) {
            machine.stalls.set(cpu, false);
        }
    }
}

/// Looks at the queue of each CPU that is online, and sets the flags of those that have a work there.
fn note_all<A: Allocator>(machine: &Machine<A>, me: &mut MachineCpu<A>)
    requires at { IsAt machine.now me.old }
    ensures { me.new ≡ me.old }
{
    for cpu in machine.online().iter() {
        note_one(machine, me, cpu);
    }
}

/// At each 65,536th turn that this CPU makes in vain, and at each where it may sleep, sets the flags of the CPUs whose queues
/// have a work.
pub(crate) fn note_late<A: Allocator>(
    machine: &Machine<A>,
    me: &mut MachineCpu<A>,
    turns: u32,
    may_sleep: bool,
)
    requires at { IsAt machine.now me.old }
    ensures { me.new ≡ me.old }
{
    if may_sleep || turns % PATIENCE == 0 {
        note_all(machine, me);
    }
}

/// Those of these CPUs whose flags are set.
fn late_of(stalls: &Stalls, online: CpuMask) -> CpuMask
    ensures { (c : ℕ) → has result c ≡ true → has online c ≡ true }
{
    let mut late = online;
    for cpu in online.iter() {
        if !stalls.is_late(cpu) {
            late = late.without(cpu);
        }
    }
    late
}

impl<A: Allocator> Machine<A> {
    /// The CPUs that keep another one waiting in a stop. A CPU that waits for its stop, or takes part in one, looks at all queues at
    /// each 65,536th turn that it makes in vain, and before it sleeps. It notes the CPUs that have a work there. Each of them is
    /// named until it takes a work. A CPU that sleeps does not look again, so one that stalls later may not be named.
    ///
    /// It is for a thread that watches over the others. It makes no step of a table, and does not wait. The notes are loaded one
    /// by one, so a CPU may be named for a moment after it has taken its work. No clause promises that a CPU is named: another
    /// one has to wait for it, and to have looked.
    pub fn silent(&self) -> CpuMask
        ensures { (c : ℕ) → has result c ≡ true → has self.now.stops.setting.online c ≡ true }
    {
        late_of(&self.stalls, self.online())
    }
}
