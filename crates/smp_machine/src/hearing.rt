//! The calls of a machine, and all that may run a handler. The call table is private to this page: each function that lends a CPU
//! with a handler to it notes its looks at the interrupt word ([`noted`]). By these notes its callers show that no handler has run with
//! interrupts off.

ghost use Rattle.std.specs.Prelude.{◌≡◌, ◌≢◌, ◌⊎◌, ◌<◌, ◌↔◌, ◌++◌, ℕ, true, false, None, Some, [], ◌∷◌, if◌then◌else◌, IfOk, IfErr, OnOk, IsErrOf, length};
ghost use Rattle.smp_mask.specs.Mask.{has, members};
ghost use Rattle.smp_words.specs.Limits.{AreLimits};
ghost use Rattle.smp_words.specs.Size.{cpus};
ghost use Rattle.smp_queue.specs.Audit.{Audited, IfDrained, AreEqual, HasRowsOf, HasZerosFrom};
ghost use Rattle.smp_queue.specs.Cpu.{IsFull, confirmed_at, notes_call};
ghost use Rattle.smp_queue.specs.Handling.{heard};
ghost use Rattle.smp_queue.specs.Together.{AreTogether, AreAllTogether, RunsWhatIsSent, values};
ghost use Rattle.smp_calls.specs.Ended.{HaveEnded};
ghost use Rattle.smp_calls.specs.Families.{Awaits, CallsOne, CallsBy, CallsHere, CallsUserHere, CallsMany, QueuesNone, RefusesUser, HandlesNone};
ghost use Rattle.smp_calls.specs.Records.{call_by, many_call, single_record, user_record, class_for};
ghost use Rattle.smp_calls.specs.Rounds.{Picks};
ghost use Rattle.smp_calls.specs.Targets.{IsAny, HasNone, is_target, remote};
ghost use Rattle.smp_calls.specs.Turns.{HasTurns};
ghost use Rattle.smp_calls.specs.Within.{CallsWithin};
ghost use Rattle.smp_machine.specs.Calls.{KeepsStops};
ghost use Rattle.smp_machine.specs.MachineCpu.{IsAt};
ghost use Rattle.smp_machine.specs.Works.{LooksOnce};

use crate::context::MachineContext;
use crate::heard_at::noted;
use crate::machine::Machine;
use crate::machine_cpu::MachineCpu;
use smp_calls::{
    Within, call_any, call_async, call_many, call_many_within, call_single, each_cpu_cond,
};
use smp_mask::{CpuMask, SmpError};
use smp_queue::{Alarm, Audit, Boot, CallCpu, CallCrowd, CallTable, Handler, LineWait, Pause};
use smp_words::call::Class;
use std::alloc::Allocator;
use std::marker::Model;
use std::snapshot::Snapshot;
use std::sync::Wait;

/// The call table of a machine.
#[derive(Drop)]
pub(crate) struct Hearing<A: Allocator> {
    table: CallTable<A>,
}

impl<A: Allocator> Model for Hearing<A> {
    ghost use Rattle.smp_queue.specs.Cpu.{TableValue};

    ghost Value = { TableValue };

    ghost view = { λ h. h.table };
}

impl<A: Allocator> Hearing<A> {
    /// A call table, and its CPUs: [`CallTable::new`].
    pub(crate) fn new(alloc: A, nr: u32, online: CpuMask) -> Result<(Hearing<A>, Boot<A>), SmpError>
    where
        A: Copy,
        ensures ok { IfOk result (λ t. (t.0.nr ≡ nr) × (t.0.online ≡ online) × IsFull t.1 t.0) }
        ensures refused { IsErrOf result SmpError.BadArgument ↔ (¬ (AreLimits nr online)) }
        ensures only { IfErr result (λ e. (e ≡ SmpError.BadArgument) ⊎ (e ≡ SmpError.NoMemory)) }
    {
        let (table, boot) = CallTable::new(alloc, nr, online)?;
        Ok((Hearing { table }, boot))
    }

    /// The CPUs that are online.
    pub(crate) fn online(&self) -> CpuMask
        ensures known { result ≡ self.now.online }
        ensures limits { AreLimits self.now.nr result }
    {
        self.table.online()
    }

    /// Lets CPUs sleep while they wait: [`CallTable::sleep_after`].
    pub(crate) fn sleep_after(&mut self, looks: u32)
        ensures { self.new ≡ self.old }
    {
        self.table.sleep_after(looks);
    }

    /// Two CPUs at one moment: [`CallTable::together`].
    pub(crate) fn calls_together(&self, one: &mut CallCpu, other: &mut CallCpu)
        requires { (one.old.table ≡ self.now.table) × (other.old.table ≡ self.now.table) }
        ensures kept { (one.new ≡ one.old) × (other.new ≡ other.old) }
        ensures same { AreTogether one.old other.old }
        ensures runs { RunsWhatIsSent one.old other.old × RunsWhatIsSent other.old one.old }
    {
        self.table.together(one, other);
    }

    /// A crowd of no CPUs: [`CallTable::crowd`].
    pub(crate) fn crowd(&self) -> CallCrowd
        ensures { result ≡ record { table = self.now.table; cpus = [] } }
    {
        self.table.crowd()
    }

    /// All CPUs of a crowd at one moment: [`CallTable::all_together`].
    pub(crate) fn all_together(&self, crowd: &mut CallCrowd)
        requires { crowd.old.table ≡ self.now.table }
        ensures kept { crowd.new ≡ crowd.old }
        ensures same { AreAllTogether (values crowd.old.cpus) }
    {
        self.table.all_together(crowd);
    }

    /// What is left of calls: [`CallTable::audit`].
    pub(crate) fn audit(self, last: CallCpu) -> Audit
        requires { last.table ≡ self.table }
        ensures audited { Audited self last result }
        ensures equal { IfDrained result AreEqual }
        ensures rows { IfDrained result (HasRowsOf last) }
        ensures zeros { IfDrained result (HasZerosFrom self.nr) }
    {
        let Hearing { table } = self;
        table.audit(last)
    }
}

/// Sets the alarm of a CPU: [`CallTable::set_alarm`].
pub(crate) fn set_alarm<'m, A: Allocator>(
    machine: &'m Machine<A>,
    me: &MachineCpu<A>,
) -> Alarm<'m> {
    machine.calls.table.set_alarm(&me.calls)
}

/// Wakes a CPU that sleeps: [`CallTable::wake`].
pub(crate) fn wake<A: Allocator>(machine: &Machine<A>, cpu: u32) {
    machine.calls.table.wake(cpu);
}

/// A wait of a CPU that ends where another one wakes it: [`CallTable::pause_alone`].
pub(crate) fn pause<'m, A: Allocator>(machine: &'m Machine<A>, me: &MachineCpu<A>) -> Pause<'m> {
    machine.calls.table.pause_alone(&me.calls)
}

/// A wait of a CPU for the gate: [`CallTable::line`].
pub(crate) fn line<'m, A: Allocator>(machine: &'m Machine<A>, me: &MachineCpu<A>) -> LineWait<'m> {
    machine.calls.table.line(&me.calls)
}

/// Wakes the next CPU that waits for the gate asleep: [`CallTable::wake_next`].
pub(crate) fn wake_next<A: Allocator>(machine: &Machine<A>) {
    machine.calls.table.wake_next();
}

/// Handles the CPU's own interrupt: whether one was pending. Its callers have to show that interrupts are on.
pub(crate) fn hear<A: Allocator, H: Handler>(
    machine: &Machine<A>,
    me: &mut MachineCpu<A>,
    handler: &mut H,
) -> bool
    requires at { IsAt machine.now me.old }
    ensures looks { LooksOnce H.leads me.old handler.old me.new handler.new }
    ensures told { me.new.calls.part.asked ≡ me.old.calls.part.asked ++ result ∷ [] }
{
    let before = Snapshot::of(&me.calls);
    let found = machine.calls.table.handle(&mut me.calls, handler);
    me.heard = noted(&me.heard, &before, &me.calls, &me.stops);
    found.interrupted
}

/// A call to one CPU: its function, the info, and whether it is waited for.
#[derive(Clone, Copy)]
pub(crate) struct CallToOne {
    pub(crate) dst: u32,
    pub(crate) func: u16,
    pub(crate) info: u64,
    pub(crate) wait: bool,
}

/// A call to one CPU. Interrupts are on: while it waits, the CPU handles its own.
pub(crate) fn single<A: Allocator, R: Wait, H: Handler>(
    context: MachineContext<A, R>,
    me: &mut MachineCpu<A>,
    handler: &mut H,
    call: CallToOne,
) -> Result<(), SmpError>
    requires at { IsAt context.machine.now me.old }
    requires irq { me.old.stops.irq ≡ true }
    ensures queued { IfOk result (λ _. call.dst ≢ me.old.calls.number → (has context.entry.machine.now.calls.online call.dst ≡ true)
        × CallsOne H.leads me.old.calls handler.old me.new.calls handler.new call.dst call.func call.info call.wait) }
    ensures here { IfOk result (λ _. call.dst ≡ me.old.calls.number →
        CallsHere H.leads me.old.calls handler.old me.new.calls handler.new call.func call.info call.wait) }
    ensures at_once { IfOk result (λ _. call.wait ≡ true → call.dst ≡ me.old.calls.number → (me.new.calls ≡ notes_call me.old.calls)
        × H.leads handler.old (heard me.old.calls.number call.func call.info) handler.new) }
    ensures stays { IfErr result (λ _. call.wait ≡ true → (me.new.calls ≡ me.old.calls) × (handler.new ≡ handler.old)) }
    ensures freed { IfOk result (λ _. call.wait ≡ false → call.dst ≡ me.old.calls.number → confirmed_at me.new.calls 1 ≡ true) }
    ensures waits { IfErr result (λ _. call.wait ≡ false → (confirmed_at me.new.calls 1 ≡ true)
        × Awaits 1 me.old.calls handler.old me.new.calls handler.new) }
    ensures refused { IfErr result (λ e. (e ≡ SmpError.NoCpu) × (call.dst ≢ me.old.calls.number)
        × (has context.entry.machine.now.calls.online call.dst ≡ false) × QueuesNone H.leads me.old.calls handler.old me.new.calls handler.new call.wait) }
    ensures turns { IfOk result (λ _. call.dst ≢ me.old.calls.number → HasTurns me.old.calls me.new.calls 1 call.wait) }
    ensures ended { IfOk result (λ _. call.wait ≡ true → call.dst ≢ me.old.calls.number →
        HaveEnded me.new.calls (λ _. call_by me.old.calls.number (single_record true) Class.Sync call.func call.info) (call.dst ∷ [])) }
    ensures kept { KeepsStops me.old me.new }
{
    let MachineContext { machine, rt } = context;
    let CallToOne {
        dst,
        func,
        info,
        wait,
    } = call;
    let before = Snapshot::of(&me.calls);
    let answer = call_single(
        &machine.calls.table,
        rt,
        &mut me.calls,
        handler,
        dst,
        func,
        info,
        wait,
    );
    me.heard = noted(&me.heard, &before, &me.calls, &me.stops);
    answer
}

/// A call to one CPU by a record of the user: its function and the info.
#[derive(Clone, Copy)]
pub(crate) struct CallByUser {
    pub(crate) u: u32,
    pub(crate) dst: u32,
    pub(crate) func: u16,
    pub(crate) info: u64,
}

/// A call to one CPU by a record of the user. Interrupts are on: while it waits, the CPU handles its own.
pub(crate) fn single_async<A: Allocator, R: Wait, H: Handler>(
    context: MachineContext<A, R>,
    me: &mut MachineCpu<A>,
    handler: &mut H,
    call: CallByUser,
) -> Result<(), SmpError>
    requires at { IsAt context.machine.now me.old }
    requires irq { me.old.stops.irq ≡ true }
    ensures record { IfOk result (λ _. call.u < 2) }
    ensures queued { IfOk result (λ _. call.dst ≢ me.old.calls.number → (has context.entry.machine.now.calls.online call.dst ≡ true)
        × CallsBy H.leads me.old.calls handler.old me.new.calls handler.new (user_record call.u) Class.Async call.dst call.func call.info false) }
    ensures here { IfOk result (λ _. call.dst ≡ me.old.calls.number →
        CallsUserHere H.leads me.old.calls handler.old me.new.calls handler.new call.u call.func call.info) }
    ensures still { HandlesNone me.old.calls me.new.calls }
    ensures untouched { IfOk result (λ _. call.dst ≢ me.old.calls.number → handler.new ≡ handler.old) }
    ensures called { IfOk result (λ _. call.dst ≡ me.old.calls.number → H.leads handler.old (heard me.old.calls.number call.func call.info) handler.new) }
    ensures refused { IfErr result (λ e. RefusesUser context.entry.machine.now.calls.online me.old.calls me.new.calls call.u call.dst e
        × (handler.new ≡ handler.old)) }
    ensures kept { KeepsStops me.old me.new }
{
    let MachineContext { machine, rt } = context;
    let CallByUser { u, dst, func, info } = call;
    let before = Snapshot::of(&me.calls);
    let answer = call_async(
        &machine.calls.table,
        rt,
        &mut me.calls,
        handler,
        u,
        dst,
        func,
        info,
    );
    me.heard = noted(&me.heard, &before, &me.calls, &me.stops);
    answer
}

/// A call to CPUs of a mask: its function, the info, and whether it is waited for.
#[derive(Clone, Copy)]
pub(crate) struct CallToMask {
    pub(crate) mask: CpuMask,
    pub(crate) func: u16,
    pub(crate) info: u64,
    pub(crate) wait: bool,
}

/// A call to any CPU of a mask. Interrupts are on: while it waits, the CPU handles its own.
pub(crate) fn any<A: Allocator, R: Wait, H: Handler>(
    context: MachineContext<A, R>,
    me: &mut MachineCpu<A>,
    handler: &mut H,
    call: CallToMask,
) -> Result<u32, SmpError>
    requires at { IsAt context.machine.now me.old }
    requires irq { me.old.stops.irq ≡ true }
    ensures any { IfOk result (λ cpu. IsAny call.mask context.entry.machine.now.calls.online me.old.calls.number cpu) }
    ensures queued { IfOk result (λ cpu. cpu ≢ me.old.calls.number →
        CallsOne H.leads me.old.calls handler.old me.new.calls handler.new cpu call.func call.info call.wait) }
    ensures here { IfOk result (λ cpu. cpu ≡ me.old.calls.number →
        CallsHere H.leads me.old.calls handler.old me.new.calls handler.new call.func call.info call.wait) }
    ensures at_once { IfOk result (λ cpu. call.wait ≡ true → cpu ≡ me.old.calls.number → (me.new.calls ≡ notes_call me.old.calls)
        × H.leads handler.old (heard me.old.calls.number call.func call.info) handler.new) }
    ensures freed { IfOk result (λ cpu. call.wait ≡ false → cpu ≡ me.old.calls.number → confirmed_at me.new.calls 1 ≡ true) }
    ensures refused { IfErr result (λ e. (e ≡ SmpError.NoCpu) × HasNone call.mask context.entry.machine.now.calls.online me.old.calls.number
        × (me.new.calls ≡ me.old.calls) × (handler.new ≡ handler.old)) }
    ensures turns { IfOk result (λ cpu. cpu ≢ me.old.calls.number → HasTurns me.old.calls me.new.calls 1 call.wait) }
    ensures ended { IfOk result (λ cpu. call.wait ≡ true → cpu ≢ me.old.calls.number →
        HaveEnded me.new.calls (λ _. call_by me.old.calls.number (single_record true) Class.Sync call.func call.info) (cpu ∷ [])) }
    ensures kept { KeepsStops me.old me.new }
{
    let MachineContext { machine, rt } = context;
    let CallToMask {
        mask,
        func,
        info,
        wait,
    } = call;
    let before = Snapshot::of(&me.calls);
    let answer = call_any(
        &machine.calls.table,
        rt,
        &mut me.calls,
        handler,
        mask,
        func,
        info,
        wait,
    );
    me.heard = noted(&me.heard, &before, &me.calls, &me.stops);
    answer
}

/// A call to many CPUs. Interrupts are on: while it waits, the CPU handles its own.
pub(crate) fn many<A: Allocator, R: Wait, H: Handler>(
    context: MachineContext<A, R>,
    me: &mut MachineCpu<A>,
    handler: &mut H,
    call: CallToMask,
) -> CpuMask
    requires at { IsAt context.machine.now me.old }
    requires irq { me.old.stops.irq ≡ true }
    ensures targets { (c : ℕ) → has result c ≡ is_target call.mask context.entry.machine.now.calls.online me.old.calls.number false c }
    ensures calls { CallsMany H.leads me.old.calls handler.old me.new.calls handler.new (members result)
        (class_for call.wait) call.func call.info None call.wait }
    ensures turns { HasTurns me.old.calls me.new.calls (length (members result)) call.wait }
    ensures ended { call.wait ≡ true → HaveEnded me.new.calls (many_call me.old.calls.number Class.Sync call.func call.info) (members result) }
    ensures kept { KeepsStops me.old me.new }
{
    let MachineContext { machine, rt } = context;
    let CallToMask {
        mask,
        func,
        info,
        wait,
    } = call;
    let before = Snapshot::of(&me.calls);
    let called = call_many(
        &machine.calls.table,
        rt,
        &mut me.calls,
        handler,
        mask,
        func,
        info,
        wait,
    );
    me.heard = noted(&me.heard, &before, &me.calls, &me.stops);
    called
}

/// A call to CPUs of a mask: its function, the info, and how many polls it waits.
#[derive(Clone, Copy)]
pub(crate) struct CallForPolls {
    pub(crate) mask: CpuMask,
    pub(crate) func: u16,
    pub(crate) info: u64,
    pub(crate) polls: u32,
}

/// A call to many CPUs that gives up waiting after some polls. Interrupts are on: while it waits, the CPU handles its own.
pub(crate) fn many_within<A: Allocator, R: Wait, H: Handler>(
    context: MachineContext<A, R>,
    me: &mut MachineCpu<A>,
    handler: &mut H,
    call: CallForPolls,
) -> Within
    requires at { IsAt context.machine.now me.old }
    requires irq { me.old.stops.irq ≡ true }
    ensures calls { CallsWithin H.leads me.old.calls handler.old me.new.calls handler.new call.func call.info
        (is_target call.mask context.entry.machine.now.calls.online me.old.calls.number false) result.called result.silent call.polls }
    ensures kept { KeepsStops me.old me.new }
{
    let MachineContext { machine, rt } = context;
    let CallForPolls {
        mask,
        func,
        info,
        polls,
    } = call;
    let before = Snapshot::of(&me.calls);
    let within = call_many_within(
        &machine.calls.table,
        rt,
        &mut me.calls,
        handler,
        mask,
        func,
        info,
        polls,
    );
    me.heard = noted(&me.heard, &before, &me.calls, &me.stops);
    within
}

/// A call to each CPU of which a condition holds. Interrupts are on: while it waits, the CPU handles its own.
pub(crate) fn each<A: Allocator, R: Wait, H: Handler, C: Fn(u32, u64) -> bool>(
    context: MachineContext<A, R>,
    me: &mut MachineCpu<A>,
    handler: &mut H,
    call: CallToMask,
    cond: &C,
) -> CpuMask
    requires at { IsAt context.machine.now me.old }
    requires irq { me.old.stops.irq ≡ true }
    requires condition { (c : ℕ) → c < cpus → C.pre cond.now c call.info }
    ensures picks { Picks (λ c answer. C.post cond.now c call.info answer)
        (is_target call.mask context.entry.machine.now.calls.online me.old.calls.number true) result }
    ensures calls { CallsMany H.leads me.old.calls handler.old me.new.calls handler.new (remote me.old.calls.number result) (class_for call.wait)
        call.func call.info (if has result me.old.calls.number then Some (heard me.old.calls.number call.func call.info) else None) call.wait }
    ensures turns { HasTurns me.old.calls me.new.calls (length (remote me.old.calls.number result)) call.wait }
    ensures ended { call.wait ≡ true → HaveEnded me.new.calls (many_call me.old.calls.number Class.Sync call.func call.info)
        (remote me.old.calls.number result) }
    ensures kept { KeepsStops me.old me.new }
{
    let MachineContext { machine, rt } = context;
    let CallToMask {
        mask,
        func,
        info,
        wait,
    } = call;
    let before = Snapshot::of(&me.calls);
    let called = each_cpu_cond(
        &machine.calls.table,
        rt,
        &mut me.calls,
        handler,
        mask,
        func,
        info,
        cond,
        wait,
    );
    me.heard = noted(&me.heard, &before, &me.calls, &me.stops);
    called
}
