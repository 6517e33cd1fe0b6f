//! A CPU that makes calls, with its table, its handler and its runtime, so that a call names what it calls alone.

ghost use Rattle.std.specs.Prelude.{◌≡◌, ◌≢◌, ◌<◌, ℕ, true, None, Some, List, [], ◌∷◌, if◌then◌else◌, IfOk, IfErr, length, false};
ghost use Rattle.smp_mask.specs.Mask.{has, members};
ghost use Rattle.smp_words.specs.Size.{cpus};
ghost use Rattle.smp_words.specs.declared.call.Call.{Call};
ghost use Rattle.smp_call_steps.specs.Order.{order};
ghost use Rattle.smp_queue.specs.Cpu.{confirmed_at, notes_call};
ghost use Rattle.smp_queue.specs.Handling.{Grows, asks, drains, heard};
ghost use Rattle.smp_queue.specs.Laws.{CallsAreShown};
ghost use Rattle.smp_calls.specs.Records.{call_by, many_call, single_record, user_record, class_for};
ghost use Rattle.smp_calls.specs.Targets.{IsAny, HasNone, is_target, remote};
ghost use Rattle.smp_calls.specs.Ended.{HaveEnded};
ghost use Rattle.smp_calls.specs.Families.{Awaits, CallsOne, CallsBy, CallsHere, CallsUserHere, CallsMany, QueuesNone, RefusesUser, HandlesNone};
ghost use Rattle.smp_calls.specs.Rounds.{Picks};
ghost use Rattle.smp_calls.specs.Turns.{HasTurns};

use crate::any::call_any;
use crate::many::{call_many, each_cpu_cond};
use crate::single::call_single;
use crate::single_async::call_async;
use smp_mask::{CpuMask, SmpError};
use smp_queue::{CallCpu, CallTable, Handled, Handler};
use smp_words::call::Class;
use std::alloc::Allocator;
use std::sync::Wait;

/// A CPU of a table, with the handler that runs its calls. Each method is the call of that name, and promises the same.
#[derive(Drop)]
pub struct Caller<'a, A: Allocator, R: Wait, H: Handler + Drop> {
    /// The CPU's table.
    pub table: &'a CallTable<A>,
    /// The runtime by which its calls wait.
    pub rt: &'a R,
    /// The CPU itself, for the other calls of its table.
    pub cpu: CallCpu,
    /// What runs the calls that it hears.
    pub handler: H,
    ghost own: { cpu.table ≡ table.now.table },
}

impl<'a, A: Allocator, R: Wait, H: Handler + Drop> Caller<'a, A, R, H> {
    /// A CPU of this table, with its handler. It makes no step, and does not wait.
    pub fn new(table: &'a CallTable<A>, rt: &'a R, cpu: CallCpu, handler: H) -> Caller<'a, A, R, H>
        requires { cpu.table ≡ table.now.table }
        ensures cpu { (result.table.now ≡ table.now) × (result.cpu ≡ cpu) }
        ensures handler { result.handler ≡ handler }
    {
        Caller {
            table,
            rt,
            cpu,
            handler,
        }
    }

    /// Gives the CPU and its handler back. It makes no step, and does not wait.
    pub fn into_parts(self) -> (CallCpu, H)
        ensures { (result.0 ≡ self.entry.cpu) × (result.1 ≡ self.entry.handler) }
    {
        let Caller { cpu, handler, .. } = self;
        (cpu, handler)
    }

    /// Takes the CPU's interrupt, if one is pending, and runs what was queued for it, as `CallTable::handle`: to call it is
    /// to poll, and it waits for no other CPU.
    pub fn poll(&mut self) -> Handled
        ensures asked { result.interrupted ≡ true → (batch : List Call) × (self.new.cpu ≡ drains batch (asks true self.old.cpu))
            × (Grows H.leads self.old.handler (order batch) self.new.handler) × (result.ran ≡ length batch) }
        ensures idle { result.interrupted ≡ false → (self.new.cpu ≡ asks false self.old.cpu)
            × (self.new.handler ≡ self.old.handler) × (result.ran ≡ 0) }
        ensures laws { CallsAreShown self.new.cpu }
        ensures table { self.new.table.now ≡ self.old.table.now }
    {
        self.table.handle(&mut self.cpu, &mut self.handler)
    }

    /// A poll; then, where no interrupt was pending, it sleeps until another CPU sends one to this CPU, or wakes it, as
    /// `CallTable::rest`: what a CPU repeats that has nothing else to do. Nobody must poll.
    pub fn rest(&mut self) -> Handled
        ensures asked { result.interrupted ≡ true → (batch : List Call) × (self.new.cpu ≡ drains batch (asks true self.old.cpu))
            × (Grows H.leads self.old.handler (order batch) self.new.handler) × (result.ran ≡ length batch) }
        ensures idle { result.interrupted ≡ false → (self.new.cpu ≡ asks false self.old.cpu)
            × (self.new.handler ≡ self.old.handler) × (result.ran ≡ 0) }
        ensures laws { CallsAreShown self.new.cpu }
        ensures table { self.new.table.now ≡ self.old.table.now }
    {
        self.table.rest(self.rt, &mut self.cpu, &mut self.handler)
    }

    /// Calls a function on one CPU, as [`call_single`] (`kernel/smp.c: smp_call_function_single`): on this CPU at once, with
    /// `wait` before any step.
    ///
    /// A call to another CPU is queued at the compare-exchange that wins in its post. It may wait, for the record's last
    /// call and with `wait` for its own; the targets of the calls that it waits for must poll.
    ///
    /// E1 (`SmpError::NoCpu`) where `dst` is another CPU that is not online: with `wait` nothing has changed then.
    pub fn call_single(
        &mut self,
        dst: u32,
        func: u16,
        info: u64,
        wait: bool,
    ) -> Result<(), SmpError>
        ensures queued { IfOk result (λ _. dst ≢ self.old.cpu.number → (has self.old.table.now.online dst ≡ true)
            × CallsOne H.leads self.old.cpu self.old.handler self.new.cpu self.new.handler dst func info wait) }
        ensures here { IfOk result (λ _. dst ≡ self.old.cpu.number →
            CallsHere H.leads self.old.cpu self.old.handler self.new.cpu self.new.handler func info wait) }
        ensures at_once { IfOk result (λ _. wait ≡ true → dst ≡ self.old.cpu.number → (self.new.cpu ≡ notes_call self.old.cpu)
            × H.leads self.old.handler (heard self.old.cpu.number func info) self.new.handler) }
        ensures stays { IfErr result (λ _. wait ≡ true → (self.new.cpu ≡ self.old.cpu) × (self.new.handler ≡ self.old.handler)) }
        ensures freed { IfOk result (λ _. wait ≡ false → dst ≡ self.old.cpu.number → confirmed_at self.new.cpu 1 ≡ true) }
        ensures waits { IfErr result (λ _. wait ≡ false → (confirmed_at self.new.cpu 1 ≡ true)
            × Awaits 1 self.old.cpu self.old.handler self.new.cpu self.new.handler) }
        ensures refused { IfErr result (λ e. (e ≡ SmpError.NoCpu) × (dst ≢ self.old.cpu.number) × (has self.old.table.now.online dst ≡ false)
            × QueuesNone H.leads self.old.cpu self.old.handler self.new.cpu self.new.handler wait) }
        ensures turns { IfOk result (λ _. dst ≢ self.old.cpu.number → HasTurns self.old.cpu self.new.cpu 1 wait) }
        ensures ended { IfOk result (λ _. wait ≡ true → dst ≢ self.old.cpu.number →
            HaveEnded self.new.cpu (λ _. call_by self.old.cpu.number (single_record true) Class.Sync func info) (dst ∷ [])) }
        ensures table { self.new.table.now ≡ self.old.table.now }
    {
        call_single(
            self.table,
            self.rt,
            &mut self.cpu,
            &mut self.handler,
            dst,
            func,
            info,
            wait,
        )
    }

    /// Calls a function on one CPU by the user's record `u`, and does not wait for it, as [`call_async`]
    /// (`kernel/smp.c: smp_call_function_single_async`).
    ///
    /// A call to another CPU is queued at the compare-exchange that wins in its post. It waits for no call, but its post may
    /// wait while others change the same head, and `dst` must poll for the call to run.
    ///
    /// E4 (`SmpError::BadArgument`) where there is no such record; then E2 (`SmpError::Busy`) where the record's last call is not
    /// done; then E1 (`SmpError::NoCpu`) where `dst` is another CPU that is not online.
    pub fn call_async(&mut self, u: u32, dst: u32, func: u16, info: u64) -> Result<(), SmpError>
        ensures record { IfOk result (λ _. u < 2) }
        ensures queued { IfOk result (λ _. dst ≢ self.old.cpu.number → (has self.old.table.now.online dst ≡ true)
            × CallsBy H.leads self.old.cpu self.old.handler self.new.cpu self.new.handler (user_record u) Class.Async dst func info false) }
        ensures here { IfOk result (λ _. dst ≡ self.old.cpu.number →
            CallsUserHere H.leads self.old.cpu self.old.handler self.new.cpu self.new.handler u func info) }
        ensures still { HandlesNone self.old.cpu self.new.cpu }
        ensures untouched { IfOk result (λ _. dst ≢ self.old.cpu.number → self.new.handler ≡ self.old.handler) }
        ensures called { IfOk result (λ _. dst ≡ self.old.cpu.number → H.leads self.old.handler (heard self.old.cpu.number func info) self.new.handler) }
        ensures refused { IfErr result (λ e. RefusesUser self.old.table.now.online self.old.cpu self.new.cpu u dst e
            × (self.new.handler ≡ self.old.handler)) }
        ensures table { self.new.table.now ≡ self.old.table.now }
    {
        call_async(
            self.table,
            self.rt,
            &mut self.cpu,
            &mut self.handler,
            u,
            dst,
            func,
            info,
        )
    }

    /// Calls a function on one CPU of the mask, as [`call_any`]: on this CPU where the mask has it, else on the lowest one
    /// that is online; which one (`kernel/smp.c: smp_call_function_any`).
    ///
    /// A call to another CPU is queued at the compare-exchange that wins in its post. It may wait as `call_single` does.
    ///
    /// E1 (`SmpError::NoCpu`) where there is no such CPU; then nothing is waited for.
    pub fn call_any(
        &mut self,
        mask: CpuMask,
        func: u16,
        info: u64,
        wait: bool,
    ) -> Result<u32, SmpError>
        ensures any { IfOk result (λ cpu. IsAny mask self.old.table.now.online self.old.cpu.number cpu) }
        ensures queued { IfOk result (λ cpu. cpu ≢ self.old.cpu.number →
            CallsOne H.leads self.old.cpu self.old.handler self.new.cpu self.new.handler cpu func info wait) }
        ensures here { IfOk result (λ cpu. cpu ≡ self.old.cpu.number →
            CallsHere H.leads self.old.cpu self.old.handler self.new.cpu self.new.handler func info wait) }
        ensures at_once { IfOk result (λ cpu. wait ≡ true → cpu ≡ self.old.cpu.number → (self.new.cpu ≡ notes_call self.old.cpu)
            × H.leads self.old.handler (heard self.old.cpu.number func info) self.new.handler) }
        ensures freed { IfOk result (λ cpu. wait ≡ false → cpu ≡ self.old.cpu.number → confirmed_at self.new.cpu 1 ≡ true) }
        ensures refused { IfErr result (λ e. (e ≡ SmpError.NoCpu) × HasNone mask self.old.table.now.online self.old.cpu.number
            × (self.new.cpu ≡ self.old.cpu) × (self.new.handler ≡ self.old.handler)) }
        ensures turns { IfOk result (λ cpu. cpu ≢ self.old.cpu.number → HasTurns self.old.cpu self.new.cpu 1 wait) }
        ensures ended { IfOk result (λ cpu. wait ≡ true → cpu ≢ self.old.cpu.number →
            HaveEnded self.new.cpu (λ _. call_by self.old.cpu.number (single_record true) Class.Sync func info) (cpu ∷ [])) }
        ensures table { self.new.table.now ≡ self.old.table.now }
    {
        call_any(
            self.table,
            self.rt,
            &mut self.cpu,
            &mut self.handler,
            mask,
            func,
            info,
            wait,
        )
    }

    /// Calls a function on each online CPU of the mask but this one, as [`call_many`]: the CPUs called
    /// (`kernel/smp.c: smp_call_function_many`).
    ///
    /// Each call is queued at the compare-exchange that wins in its post: they are as many steps, not one. It may wait, for
    /// the records and with `wait` for its calls; its targets must poll.
    pub fn call_many(&mut self, mask: CpuMask, func: u16, info: u64, wait: bool) -> CpuMask
        ensures targets { (c : ℕ) → has result c ≡ is_target mask self.old.table.now.online self.old.cpu.number false c }
        ensures calls { CallsMany H.leads self.old.cpu self.old.handler self.new.cpu self.new.handler (members result) (class_for wait) func info None wait }
        ensures turns { HasTurns self.old.cpu self.new.cpu (length (members result)) wait }
        ensures ended { wait ≡ true → HaveEnded self.new.cpu (many_call self.old.cpu.number Class.Sync func info) (members result) }
        ensures table { self.new.table.now ≡ self.old.table.now }
    {
        call_many(
            self.table,
            self.rt,
            &mut self.cpu,
            &mut self.handler,
            mask,
            func,
            info,
            wait,
        )
    }

    /// Calls a function on each online CPU of the mask of which the condition holds, this one included, as
    /// [`each_cpu_cond`]: the CPUs called (`kernel/smp.c: on_each_cpu_cond_mask`).
    ///
    /// Each call is queued at the compare-exchange that wins in its post: they are as many steps, not one. It may wait, for
    /// the records and with `wait` for its calls; its targets must poll.
    pub fn each_cpu_cond<C: Fn(u32, u64) -> bool>(
        &mut self,
        mask: CpuMask,
        func: u16,
        info: u64,
        cond: &C,
        wait: bool,
    ) -> CpuMask
        requires { (c : ℕ) → c < cpus → C.pre cond.now c info }
        ensures picks { Picks (λ c answer. C.post cond.now c info answer) (is_target mask self.old.table.now.online self.old.cpu.number true) result }
        ensures calls { CallsMany H.leads self.old.cpu self.old.handler self.new.cpu self.new.handler (remote self.old.cpu.number result) (class_for wait)
            func info (if has result self.old.cpu.number then Some (heard self.old.cpu.number func info) else None) wait }
        ensures turns { HasTurns self.old.cpu self.new.cpu (length (remote self.old.cpu.number result)) wait }
        ensures ended { wait ≡ true → HaveEnded self.new.cpu (many_call self.old.cpu.number Class.Sync func info) (remote self.old.cpu.number result) }
        ensures table { self.new.table.now ≡ self.old.table.now }
    {
        each_cpu_cond(
            self.table,
            self.rt,
            &mut self.cpu,
            &mut self.handler,
            mask,
            func,
            info,
            cond,
            wait,
        )
    }
}
