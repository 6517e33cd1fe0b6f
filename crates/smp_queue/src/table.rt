//! The call table.
//!
//! Which steps may meet in which word, and what orders them. A record's source is the CPU that owns it, its target
//! the CPU whose queue it goes to.
//!
//! | Word | Loads | Stores | Exchanges | What orders them |
//! |---|---|---|---|---|
//! | `head.c` | each CPU but c, before its first exchange | none | compare-exchange by each CPU but c; swap by c | each won exchange and each swap |
//! | `intr.c` | none | 1 by each CPU | swap with 0 by c | the swap answers all stores of 1 before it; a CPU that found an empty queue still owes a store |
//! | `hand.c` | none | c | none | c alone |
//! | `queued.s.d` | s | s | none | s alone |
//! | `ran.d.s` | d | d | none | d alone |
//! | `flags.r` | the source; the target with the record in its batch | the source, unless a call waits; the target's last store of a call | none | LOCK |
//! | `func.r`, `info.r` | the target with the record in its batch | the source before the exchange that queues it | none | that exchange, and the swap |
//! | `next.r` | the target with the record in its batch | the source before each exchange; the target with the record in its batch | none | the same |
//!
//! Each won exchange and each swap of a head is one point in the queue's order; a lost exchange finds the newest head. The
//! source stores flags while LOCK is clear or its record is not queued: between the won exchange and the target's clearing
//! store it only loads.

ghost use Rattle.std.specs.Prelude.{◌≡◌, ◌≢◌, ◌⊎◌, ◌↔◌, ◌+◌, ◌<◌, ◌≤◌, ◌%◌, ◌^◌, true, false, length, if◌then◌else◌, IfOk, IfErr, OnOk, IsErrOf, Ok, List};
ghost use Rattle.std.specs.Prelude.{Some, None};
ghost use Rattle.smp_mask.specs.Mask.{has};
ghost use Rattle.smp_words.specs.Size.{cpus};
ghost use Rattle.smp_call_steps.specs.Start.{has_record as has_record_in};
ghost use Rattle.smp_words.specs.Limits.{AreLimits};
ghost use Rattle.smp_call_steps.specs.Histories.{sent_to, calls_from};
ghost use Rattle.smp_call_steps.specs.Order.{order};
ghost use Rattle.smp_words.specs.declared.call.Call.{Call};
ghost use Rattle.smp_queue.specs.Handling.{Grows, asks, drains, heard};
ghost use Rattle.smp_queue.specs.Laws.{CallsAreShown};
ghost use Rattle.smp_queue.specs.Empty.{BeginsEmpty};
ghost use Rattle.smp_queue.specs.Cells.{cells};
ghost use Rattle.smp_queue.specs.Rule.{HasComeTo};
ghost use Rattle.smp_queue.specs.Cpu.{TableValue, IsFull, fresh_cpu, table_with, confirmed_at, confirms, looks, sends, notes_call};
ghost use Rattle.smp_queue.specs.Audit.{ClosesWith, Audited, IfDrained, AreEqual, HasRowsOf, HasZerosFrom};

mod posts;

use crate::alarms::{Alarm, Alarms};
use crate::audit::Audit;
use crate::boot::Boot;
use crate::closing::ClosedTable;
use crate::cpu::CallCpu;
use crate::handle::{Handled, handle};
use crate::handler::Handler;
use crate::line_wait::LineWait;
use crate::pause::Pause;
use crate::post::is_locked;
use crate::seat::{
    CallSeatMaker, OwnedCallWords, SharedCallWords, lay, next_seat, note_call, store,
};
use smp_call_steps::known::CallSetting;
use smp_call_steps::start::has_record;
use smp_mask::{CpuMask, SmpError};
use smp_words::Word;
use smp_words::limits::are_limits;
use smp_words::size::record_of;
use std::alloc::{AllocError, Allocator};
use std::marker::Model;
use std::sync::Wait;

/// The call table: its name, how many CPUs it has, and those online. Threads share it by reference. Wherever it lies, what
/// all threads read of it shares no cache line with what one of them writes beside it.
#[derive(Drop)]
#[repr(C)]
pub struct CallTable<A: Allocator> {
    before: [u64; 8],
    owner: OwnedCallWords<A>,
    nr: u32,
    online: CpuMask,
    alarms: Alarms,
    /// After how many looks in vain a call that waits sleeps; it never does where this is none.
    sleep_after: Option<u32>,
    after: [u64; 8],
}

impl<A: Allocator> Model for CallTable<A> {
    ghost use Rattle.smp_queue.specs.Cpu.{TableValue};
    ghost use Rattle.smp_queue.specs.Table.{IsTable};

    ghost Value = { TableValue };

    ghost view = { λ t. record { table = t.owner.table.shared.table_id; nr = t.nr; online = t.online } };

    ghost invariant = { λ t. IsTable t.owner.table.shared.table_id t.owner.table.shared.key t.nr t.online };
}

/// The CPU of this number, where it is online; else it gets no seat.
fn cpu_if(
    words: SharedCallWords,
    maker: &mut CallSeatMaker,
    number: u32,
    is_online: bool,
) -> Option<CallCpu>
    requires table { (maker.old.raw.table_id ≡ words.shared.now.table_id) × (words.shared.now.table_id.words ≡ cells) }
    requires come { HasComeTo maker.old.raw.me.0 words.shared.now.key number }
    requires below { (number < words.shared.now.key.nr) × (number < cpus) }
    requires online { is_online ≡ has words.shared.now.key.online number }
    ensures table { maker.new.raw.table_id ≡ words.entry.shared.now.table_id }
    ensures come { HasComeTo maker.new.raw.me.0 words.entry.shared.now.key (number + 1) }
    ensures cpu { result ≡ if is_online then Some (fresh_cpu (table_with words.entry.shared.now.table_id words.entry.shared.now.key) number) else None }
{
    if !is_online {
        return None;
    }
    let seat = next_seat(words, maker, number);
    Some(CallCpu::new(seat, number))
}

/// The table, and its CPUs: one seat for each that is online.
fn build<A: Allocator>(
    alloc: A,
    nr: u32,
    online: CpuMask,
) -> Result<(CallTable<A>, Boot<A>), AllocError>
where
    A: Copy,
    requires { AreLimits nr online }
    ensures { IfOk result (λ t. (t.0.nr ≡ nr) × (t.0.online ≡ online) × IsFull t.1 t.0) }
{
    let mut waiting = Vec::with_capacity(alloc, nr as usize)?;
    let (owner, mut maker) = lay(alloc, &CallSetting { nr, online })?;
    for number in 0..nr {
        let is_online = online.contains(number);
        waiting.push(cpu_if(owner.words(), &mut maker, number, is_online))?;
    }
    let table = CallTable {
        before: [0; 8],
        owner,
        nr,
        online,
        alarms: Alarms::new(),
        sleep_after: None,
        after: [0; 8],
    };
    let boot = Boot {
        maker,
        online,
        waiting,
    };
    Ok((table, boot))
}

impl<A: Allocator> CallTable<A> {
    /// A table of `nr` CPUs with no calls, and those of its CPUs that are online, each to be handed out once. Each CPU has done
    /// nothing, and one that is not online never will. Until one of its CPUs makes a step, all words of the table are 0, so that
    /// no interrupt is pending, all queues are empty, and all records are free (clause `empty`): the table's rule says so at any
    /// time, and can't be met by words that are made otherwise.
    ///
    /// E4 (`SmpError::BadArgument`) where `nr` is not 1 to `NR_CPUS`, no CPU is online, or one that is online is not below
    /// `nr`; E6 (`SmpError::NoMemory`) where a growth is refused. It takes effect at no step, since no thread shares the table yet, and does not wait.
    pub fn new(alloc: A, nr: u32, online: CpuMask) -> Result<(CallTable<A>, Boot<A>), SmpError>
    where
        A: Copy,
        ensures ok { IfOk result (λ t. (t.0.nr ≡ nr) × (t.0.online ≡ online) × IsFull t.1 t.0) }
        ensures empty { IfOk result (λ t. BeginsEmpty t.0) }
        ensures limits { OnOk result (AreLimits nr online) }
        ensures refused { IsErrOf result SmpError.BadArgument ↔ (¬ (AreLimits nr online)) }
        ensures only { IfErr result (λ e. (e ≡ SmpError.BadArgument) ⊎ (e ≡ SmpError.NoMemory)) }
    {
        if !are_limits(nr, online) {
            return Err(SmpError::BadArgument);
        }
        match build(alloc, nr, online) {
            Ok(built) => Ok(built),
            Err(_) => Err(SmpError::NoMemory),
        }
    }

    /// The CPUs that are online.
    pub fn online(&self) -> CpuMask
        ensures known { result ≡ self.now.online }
        ensures limits { AreLimits self.now.nr result }
    {
        self.online
    }

    /// Whether the record of this local number is unlocked, as it is when its last call was run or given up, or
    /// it was never used (one turn of `kernel/smp.c: csd_lock_wait`). A record that is unlocked is confirmed.
    /// E4 (`SmpError::BadArgument`) where there is no such record.
    ///
    /// It takes effect at its one step, the load of the record's flags, and does not wait; a record that is queued is
    /// unlocked only if the target of its call polls.
    pub fn is_done(&self, me: &mut CallCpu, k: u32) -> Result<bool, SmpError>
        requires { me.old.table ≡ self.now.table }
        ensures known { IfOk result (λ done. (has_record_in self.now.nr k ≡ true) × (me.new ≡ looks (if done then confirms k me.old else me.old))) }
        ensures locked { IfOk result (λ done. done ≡ false → confirmed_at me.old k ≢ true) }
        ensures laws { IfOk result (λ _. CallsAreShown me.new) }
        ensures err { IfErr result (λ e. (e ≡ SmpError.BadArgument) × (has_record_in self.now.nr k ≡ false) × (me.new ≡ me.old)) }
    {
        if !has_record(self.nr, k) {
            return Err(SmpError::BadArgument);
        }
        let id = record_of(me.number, k);
        let locked = is_locked(self.owner.words(), &mut me.seat, id);
        me.is_shown();
        Ok(!locked)
    }

    /// How many calls this CPU has queued for `other`, and how many calls from `other` it has run, modulo 2^64;
    /// zeros where there is no such CPU.
    ///
    /// It makes no step, since it reads only the CPU's own value; it does not wait, and nobody must poll.
    pub fn tally(&self, me: &mut CallCpu, other: u32) -> (u64, u64)
        requires { me.old.table ≡ self.now.table }
        ensures counts { other < self.now.nr → result ≡ (length (sent_to other me.old.part.sent) % 2 ^ 64, length (calls_from other me.old.part.ran) % 2 ^ 64) }
        ensures zeros { self.now.nr ≤ other → result ≡ (0, 0) }
        ensures kept { me.new ≡ me.old }
    {
        if other < self.nr {
            (me.queued[other as usize], me.ran[other as usize])
        } else {
            (0, 0)
        }
    }

    /// Sends an interrupt to a CPU, which then takes its queue (`arch_send_call_function_single_ipi`). One that
    /// is not owed does no harm. E1 (`SmpError::NoCpu`) where the CPU is not online.
    ///
    /// The interrupt is pending at its one step, the store of the interrupt word; it does not wait, and the CPU that is
    /// sent to must poll to take it. It wakes that CPU, where it sleeps.
    pub fn send(&self, me: &mut CallCpu, to: u32) -> Result<(), SmpError>
        requires { me.old.table ≡ self.now.table }
        ensures ok { IfOk result (λ _. (has self.now.online to ≡ true) × (me.new ≡ sends to me.old)) }
        ensures laws { IfOk result (λ _. CallsAreShown me.new) }
        ensures err { IfErr result (λ e. (e ≡ SmpError.NoCpu) × (has self.now.online to ≡ false) × (me.new ≡ me.old)) }
    {
        self.interrupt(me, to)?;
        self.wake(to);
        Ok(())
    }

    /// As `send`, but it wakes nobody: for a caller that wakes a CPU by means of its own.
    ///
    /// The interrupt is pending at its one step, the store of the interrupt word; it does not wait, and the CPU that is
    /// sent to must poll to take it.
    pub fn interrupt(&self, me: &mut CallCpu, to: u32) -> Result<(), SmpError>
        requires { me.old.table ≡ self.now.table }
        ensures ok { IfOk result (λ _. (has self.now.online to ≡ true) × (me.new ≡ sends to me.old)) }
        ensures laws { IfOk result (λ _. CallsAreShown me.new) }
        ensures err { IfErr result (λ e. (e ≡ SmpError.NoCpu) × (has self.now.online to ≡ false) × (me.new ≡ me.old)) }
    {
        if !self.online.contains(to) {
            return Err(SmpError::NoCpu);
        }
        store(self.owner.words(), &mut me.seat, Word::Intr(to), 1);
        me.is_shown();
        Ok(())
    }

    /// Wakes a CPU that sleeps, in [`CallTable::rest`] or in a call that waits. It does nothing where the CPU has no alarm set. So
    /// for what a CPU is to see beside its interrupts, it has to set its alarm before it looks ([`CallTable::set_alarm`]). A CPU
    /// that is woken with no interrupt pending runs nothing.
    ///
    /// It makes no step, does not wait, and nobody must poll.
    pub fn wake(&self, cpu: u32) {
        self.alarms.ring(cpu);
    }

    /// Sets the alarm of a CPU, for a caller that has more to look at than the interrupt word: set it, look, and let it
    /// sleep where nothing was found ([`Alarm::sleep`]). [`CallTable::send`] and [`CallTable::wake`] ring it.
    ///
    /// It makes no step, and does not wait.
    pub fn set_alarm(&self, me: &CallCpu) -> Alarm<'_> {
        self.alarms.set(me.number)
    }

    /// Lets waiting calls of this table sleep; `call_many_within` of `smp_calls` still polls, since it counts its polls. After this
    /// number of looks in vain, a CPU that waits sleeps between two looks. It is woken by an interrupt, and whenever some CPU has
    /// unlocked a record, since it may wait for that one. A new table's calls poll all the time, as Linux's do.
    ///
    /// It is asked for before threads share the table. It makes no step, and does not wait.
    pub fn sleep_after(&mut self, looks: u32)
        ensures { self.new ≡ self.old }
    {
        self.sleep_after = Some(looks);
    }

    /// A wait of a CPU, for a caller that waits in a loop of its own. What it waits for has to wake it
    /// ([`CallTable::wake_waiting`]). It makes no step, and does not wait.
    pub fn pause(&self, me: &CallCpu) -> Pause<'_> {
        Pause::new(&self.alarms, me.number, false, self.sleep_after)
    }

    /// As [`CallTable::pause`], for a wait that ends with an interrupt, or where another CPU wakes this one ([`CallTable::wake`]).
    /// [`CallTable::wake_waiting`] does not wake it.
    pub fn pause_alone(&self, me: &CallCpu) -> Pause<'_> {
        Pause::new(&self.alarms, me.number, true, self.sleep_after)
    }

    /// Wakes the CPUs that wait asleep ([`CallTable::pause`]): call it after a step that may end a wait. A CPU that is woken for
    /// nothing sleeps again. It makes no step, and does not wait.
    pub fn wake_waiting(&self) {
        self.alarms.ring_waiting();
    }

    /// A wait of a CPU for a lock, in line with the CPUs of this table that wait for it asleep. The table has one line. The CPU that
    /// gives the lock up has to wake the next one ([`CallTable::wake_next`]). It makes no step, and does not wait.
    pub fn line(&self, me: &CallCpu) -> LineWait<'_> {
        LineWait::new(&self.alarms, me.number, self.sleep_after)
    }

    /// Gives the turn to the next CPU that waits in line asleep ([`CallTable::line`]), and wakes it alone: call it after a lock was
    /// given up. CPUs that ask for the lock wait for that one to try, so that none waits for many turns of others. It makes no step,
    /// and does not wait.
    pub fn wake_next(&self) {
        self.alarms.ring_next();
    }

    /// The words, for what hands out calls.
    pub(crate) fn words(&self) -> SharedCallWords<'_>
        ensures table { result.shared.now.table_id ≡ self.now.table }
        ensures sized { result.shared.now.table_id.words ≡ cells }
    {
        self.owner.words()
    }

    /// The alarms, for what unlocks records.
    pub(crate) fn alarms(&self) -> &Alarms {
        &self.alarms
    }

    /// Runs a function on this CPU itself, with no queue, and notes it among the CPU's direct calls. The entry has the number of
    /// steps that the CPU has made by then, the number of takes of its interrupt word, and how long its log is.
    ///
    /// It makes no step, since what is noted is for clauses alone; it does not wait, and nobody must poll.
    pub fn call_here<H: Handler>(&self, me: &mut CallCpu, handler: &mut H, func: u16, info: u64)
        requires { me.old.table ≡ self.now.table }
        ensures called { H.leads handler.old (heard me.old.number func info) handler.new }
        ensures noted { me.new ≡ notes_call me.old }
        ensures laws { CallsAreShown me.new }
    {
        note_call(self.owner.words(), &mut me.seat);
        handler.call(me.number, func, info);
        me.is_shown();
    }

    /// Takes the CPU's interrupt and, where one was pending, its whole queue, and runs that batch: SYNC calls
    /// first, each record unlocked after its function, then ASYNC calls, each record unlocked before its function,
    /// both oldest first (`kernel/smp.c: __flush_smp_call_function_queue`). Where none was pending, nothing runs.
    ///
    /// The interrupt is taken at the swap of the interrupt word, and the batch at the swap of the head that follows; it
    /// waits for no other CPU, and to call it is to poll.
    pub fn handle<H: Handler>(&self, me: &mut CallCpu, handler: &mut H) -> Handled
        requires { me.old.table ≡ self.now.table }
        ensures asked { result.interrupted ≡ true → (batch : List Call) × (me.new ≡ drains batch (asks true me.old))
            × (Grows H.leads handler.old (order batch) handler.new) × (result.ran ≡ length batch) }
        ensures idle { result.interrupted ≡ false → (me.new ≡ asks false me.old) × (handler.new ≡ handler.old) × (result.ran ≡ 0) }
        ensures laws { CallsAreShown me.new }
    {
        // The table has a cell for each of its words.
        let _words = self.words();
        let handled = handle(self, &mut me.seat, me.number, &mut me.ran, handler);
        me.is_shown();
        handled
    }

    /// As [`CallTable::handle`]; then, where no interrupt was pending, it sleeps until another CPU sends one or wakes this
    /// CPU ([`CallTable::wake`]). It is what a CPU repeats that has nothing else to do, in the place of a poll.
    ///
    /// It takes effect at the steps of `handle`, and sleeps behind them. What wakes it is told by its next look alone. That a
    /// sleeping CPU is woken is not promised by a clause. Nobody must poll.
    pub fn rest<R: Wait, H: Handler>(&self, rt: &R, me: &mut CallCpu, handler: &mut H) -> Handled
        requires { me.old.table ≡ self.now.table }
        ensures asked { result.interrupted ≡ true → (batch : List Call) × (me.new ≡ drains batch (asks true me.old))
            × (Grows H.leads handler.old (order batch) handler.new) × (result.ran ≡ length batch) }
        ensures idle { result.interrupted ≡ false → (me.new ≡ asks false me.old) × (handler.new ≡ handler.old) × (result.ran ≡ 0) }
        ensures laws { CallsAreShown me.new }
    {
        let alarm = self.set_alarm(me);
        let handled = self.handle(me, handler);
        if !handled.interrupted {
            alarm.sleep(rt);
        }
        handled
    }

    /// Gives up the table and one of its CPUs: the words as the last step left them, which show calls of which this CPU's
    /// value is its part. Steps that the CPUs may make lead to those calls. Other CPUs of the table are useless afterwards.
    ///
    /// It takes effect at no step, since it owns the table; it does not wait, and nobody must poll any more.
    pub fn close(self, last: CallCpu) -> ClosedTable<A>
        requires { last.table ≡ self.table }
        ensures { ClosesWith self last result }
    {
        ClosedTable::of(self.owner, last.seat)
    }

    /// Gives up the table and one of its CPUs. Drained where all queues are empty, all records unlocked and all
    /// CPUs outside `handle`: then each call that was queued has run. Else what is left. Other CPUs of the table
    /// are useless afterwards.
    ///
    /// It takes effect at no step, since it owns the table; it does not wait, and nobody must poll any more.
    pub fn audit(self, last: CallCpu) -> Audit
        requires { last.table ≡ self.table }
        ensures audited { Audited self last result }
        ensures equal { IfDrained result AreEqual }
        ensures rows { IfDrained result (HasRowsOf last) }
        ensures zeros { IfDrained result (HasZerosFrom self.nr) }
    {
        let words = self.close(last);
        let audit = words.audit();
        words.free();
        audit
    }
}
