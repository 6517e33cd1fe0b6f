//! The machine: both tables, and the stopper queues.

ghost use Rattle.std.specs.Prelude.{◌≡◌, ◌⊎◌, ◌↔◌, IfOk, IfErr, OnOk, IsErrOf};
ghost use Rattle.smp_words.specs.Limits.{AreLimits};
ghost use Rattle.smp_queue.specs.Audit.{Audited, IfDrained, AreEqual, HasRowsOf, HasZerosFrom};
ghost use Rattle.smp_queue.specs.Together.{AreTogether as CallsTogether, RunsWhatIsSent};
ghost use Rattle.smp_multi.specs.Together.{AreTogether as StopsTogether, AreInStep, WaitsFor};
ghost use Rattle.smp_machine.specs.MachineCpu.{IsAt, IsFull};

use crate::boot::{MachineBoot, seat_all};
use crate::cpu::Cpu;
use crate::hearing::Hearing;
use crate::machine_cpu::MachineCpu;
use crate::open::open;
use crate::stalls::Stalls;
use crate::stoppers::Stoppers;
use crossbeam_utils::CachePadded;
use smp_labels::LabelMap;
use smp_mask::{CpuMask, SmpError};
use smp_multi::StopTable;
use smp_queue::Audit;
use smp_words::limits::are_limits;
use std::alloc::Allocator;
use std::marker::Model;

/// The machine: its call table, its stop table and its stopper queues. Threads share it by reference. Wherever it lies, what
/// all threads read of it shares no cache line with what one of them writes beside it.
#[derive(Drop)]
#[repr(C)]
pub struct Machine<A: Allocator> {
    pub(crate) calls: Hearing<A>,
    pub(crate) stops: StopTable<A>,
    pub(crate) queues: Stoppers<A>,
    pub(crate) stalls: CachePadded<Stalls>,
    after: [u64; 8],
}

impl<A: Allocator> Model for Machine<A> {
    ghost use Rattle.smp_machine.specs.MachineCpu.{MachineValue, IsMachine};

    ghost Value = { MachineValue };

    ghost view = { λ m. record { calls = m.calls; stops = m.stops; queues = m.queues } };

    ghost invariant = { λ m. IsMachine (record { calls = m.calls; stops = m.stops; queues = m.queues }) };
}

/// The tables and the queues, and the CPUs.
fn build<A: Allocator>(
    alloc: A,
    nr: u32,
    online: CpuMask,
    labels: &LabelMap,
) -> Result<(Machine<A>, MachineBoot<A>), SmpError>
where
    A: Copy,
    requires { AreLimits nr online }
    ensures calls { IfOk result (λ t. (t.0.calls.nr ≡ nr) × (t.0.calls.online ≡ online)) }
    ensures stops { IfOk result (λ t. (t.0.stops.nr ≡ nr) × (t.0.stops.setting ≡ record { online = online; labels = labels.now })) }
    ensures full { IfOk result (λ t. IsFull t.1 t.0) }
    ensures err { IfErr result (λ e. e ≡ SmpError.NoMemory) }
{
    let (calls, call_cpus) = Hearing::new(alloc, nr, online)?;
    let (stops, stop_cpus) = StopTable::new(alloc, nr, online, labels)?;
    let Ok((queues, passes)) = open(alloc) else {
        return Err(SmpError::NoMemory);
    };
    let machine = Machine {
        calls,
        stops,
        queues,
        stalls: CachePadded::new(Stalls::new()),
        after: [0; 8],
    };
    match seat_all(alloc, &machine, call_cpus, stop_cpus, passes) {
        Ok(boot) => Ok((machine, boot)),
        Err(_) => Err(SmpError::NoMemory),
    }
}

impl<A: Allocator> Machine<A> {
    /// A machine of `nr` CPUs with no calls, no stops, these labels with all keys off, and those of its CPUs that are
    /// online, each to be handed out once. E4 where `nr` is not 1 to `NR_CPUS`, no CPU is online, or one that is online
    /// is not below `nr`; then E6 where a growth is refused. It takes effect at no step, since no thread shares the
    /// machine yet, and does not wait.
    pub fn new(
        alloc: A,
        nr: u32,
        online: CpuMask,
        labels: &LabelMap,
    ) -> Result<(Machine<A>, MachineBoot<A>), SmpError>
    where
        A: Copy,
        ensures calls { IfOk result (λ t. (t.0.calls.nr ≡ nr) × (t.0.calls.online ≡ online)) }
        ensures stops { IfOk result (λ t. (t.0.stops.nr ≡ nr) × (t.0.stops.setting ≡ record { online = online; labels = labels.now })) }
        ensures full { IfOk result (λ t. IsFull t.1 t.0) }
        ensures limits { OnOk result (AreLimits nr online) }
        ensures refused { IsErrOf result SmpError.BadArgument ↔ (¬ (AreLimits nr online)) }
        ensures only { IfErr result (λ e. (e ≡ SmpError.BadArgument) ⊎ (e ≡ SmpError.NoMemory)) }
    {
        if !are_limits(nr, online) {
            return Err(SmpError::BadArgument);
        }
        match build(alloc, nr, online, labels) {
            Ok(built) => Ok(built),
            Err(_) => Err(SmpError::NoMemory),
        }
    }

    /// The CPUs that are online. No step of a table.
    pub fn online(&self) -> CpuMask
        ensures calls { result ≡ self.now.calls.online }
        ensures stops { result ≡ self.now.stops.setting.online }
        ensures limits { AreLimits self.now.calls.nr result }
    {
        self.calls.online()
    }

    /// Lets CPUs of this machine sleep while they wait. After this number of looks in vain, a CPU sleeps between two looks for the
    /// end of its call ([`smp_queue::CallTable::sleep_after`]), for the gate, for the end of its stop
    /// (`kernel/sched/completion.c: wait_for_completion`), or, in [`crate::run_cpus`], for the last CPU. All CPUs of a new machine poll.
    ///
    /// A CPU that takes part in a stop always spins, as Linux's does (`kernel/stop_machine.c: multi_cpu_stop`): its interrupts are off,
    /// and the others wait for it. Where a CPU waits for the gate asleep, another one that asks for it sleeps at once. The one that gives
    /// the gate up wakes the next of them, and the others let that one try first.
    ///
    /// It is asked for before threads share the machine. It makes no step, and does not wait.
    pub fn sleep_after(&mut self, looks: u32)
        ensures { self.new ≡ self.old }
    {
        self.calls.sleep_after(looks);
    }

    /// Two CPUs at one moment, whatever other threads do: their values are their parts of the same calls and of the same stops
    /// (`calls`, `stops`). In each class, the calls of the one that have begun on the other are the first of those that the one has
    /// sent to it (`runs`). In the stop of one source they have the same work, and neither has acknowledged more than one phase
    /// more than the other (`step`). While the one is in the stop of the other, the other has this work pending (`waits`).
    ///
    /// It makes no step and does not wait, and no CPU must poll.
    pub fn together(&self, one: &mut Cpu<A>, other: &mut Cpu<A>)
        requires { IsAt self.now one.old × IsAt self.now other.old }
        ensures kept { (one.new ≡ one.old) × (other.new ≡ other.old) }
        ensures calls { CallsTogether one.old.calls other.old.calls }
        ensures stops { StopsTogether one.old.stops other.old.stops }
        ensures runs { RunsWhatIsSent one.old.calls other.old.calls × RunsWhatIsSent other.old.calls one.old.calls }
        ensures step { AreInStep one.old.stops other.old.stops }
        ensures waits { WaitsFor one.old.stops other.old.stops × WaitsFor other.old.stops one.old.stops }
    {
        self.calls
            .calls_together(&mut one.place.calls, &mut other.place.calls);
        self.stops
            .together(&mut one.place.stops, &mut other.place.stops);
    }

    /// Gives up the machine and one of its CPUs, and answers what is left of calls, as [`smp_queue::CallTable::audit`]. Other CPUs of
    /// the machine are useless afterwards.
    ///
    /// It takes effect at no step, since it owns the machine; it does not wait, and no CPU must poll any more.
    pub fn shutdown(self, last: Cpu<A>) -> Audit
        requires { IsAt self last }
        ensures audited { Audited self.calls last.calls result }
        ensures equal { IfDrained result AreEqual }
        ensures rows { IfDrained result (HasRowsOf last.calls) }
        ensures zeros { IfDrained result (HasZerosFrom self.calls.nr) }
    {
        let Machine { calls, .. } = self;
        let Cpu { place } = last;
        let MachineCpu { calls: cpu, .. } = place;
        calls.audit(cpu)
    }
}
