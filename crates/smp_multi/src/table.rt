//! The stop table.
//!
//! Which steps may meet in which word, and what orders them. A slot's source is the CPU of its number, its CPUs those of
//! the mask of its stop.
//!
//! | Word | Loads | Stores | Other steps | What orders them |
//! |---|---|---|---|---|
//! | `gate` | none | 0 by its holder | compare-exchange by each CPU | a won exchange and the holder's store are one stretch, in which no other begins a stop |
//! | kind, mask, active, func, arg of a slot | its CPUs, inside the stop | the source, before the roll | none | the store of the roll, and its fetch_and |
//! | its `roll` | none | the source, which opens the stop | fetch_and by each CPU, of its own bit | the bit: with it the CPU is in the stop |
//! | its `state` | its CPUs, inside the stop | the source before the roll; the last CPU to acknowledge a phase | none | the count of acknowledgements |
//! | its `ack` | none | the source before the roll; the last to acknowledge | fetch_sub by each of its CPUs, once a phase | the CPU that finds 1 is the last |
//! | its `result` | the source, once done is set | the source before the roll; its CPUs, before they count themselves | none | the counts, then done |
//! | its `todo` | none | the source before the roll | fetch_sub by each of its CPUs, once | the CPU that finds 1 is the last |
//! | its `done` | the source | the source before the roll; the last CPU to complete | none | the count of completions |
//! | keys and sites | CPUs with interrupts on; a CPU that patches | the same CPU | compare-exchange of a key by an online CPU with interrupts on | the phases |
//! | entries | the runner of a patch | none | none | they stay |
//!
//! The source's stores into its slot wait until all CPUs of its last stop have completed. The last CPU to acknowledge a
//! phase is alone until it stores the next one. While a patch runs, every online CPU has interrupts off.

ghost use Rattle.std.specs.Prelude.{◌≡◌, ◌≢◌, ◌⊎◌, ◌↔◌, ℕ, ◌<◌, ◌≤◌, true, false, if◌then◌else◌, IfOk, IfErr, IfSome, OnOk, IsErrOf, option_map};
ghost use Rattle.smp_labels.specs.declared.words.TheConstants.{MOST_KEYS};
ghost use Rattle.smp_mask.specs.Mask.{has};
ghost use Rattle.smp_words.specs.Limits.{AreLimits};
ghost use Rattle.smp_words.specs.Size.{cpus};
ghost use Rattle.smp_stop_steps.specs.Threads.Known.{fresh};
ghost use Rattle.smp_multi.specs.Lives.{Lives};
ghost use Rattle.smp_multi.specs.Advance.{AdvanceAnswers, FinishAnswers};
ghost use Rattle.smp_multi.specs.Answers.{BeginAnswers, Enters, RefusesEntry, RunAnswers, PollAnswers};
ghost use Rattle.smp_multi.specs.ByValue.{Answered, OneAnswers, TurnedAnswers};
ghost use Rattle.smp_multi.specs.Cpu.{IsAt, IsFull, fresh_cpu, gives_gate, misses_gate, takes_gate};
ghost use Rattle.smp_multi.specs.Laws.{FindsHeld};
ghost use Rattle.smp_multi.specs.Nudges.{NudgeAnswers};
ghost use Rattle.smp_multi.specs.Reads.{KeyAnswers, SiteAnswers};

use crate::answering::{Answering, Turned, come_to_one, give_answer, turn_once};
use crate::boot::StopBoot;
use crate::cpu::StopCpu;
use crate::func::StopFunc;
use crate::gate::{leave_gate, take_gate};
use crate::nudge::Nudge;
use crate::poll::{collect, is_done};
use crate::run::take_turn;
use crate::seat::{OwnedStopWords, StopSeat, lay, next_seat};
use crate::turn::Turn;
use crate::{begin, complete, enter, nudge, read, run};
use smp_labels::{LabelMap, SiteKind};
use smp_mask::{CpuMask, SmpError};
use smp_stop_steps::known::StopSetting;
use smp_stop_steps::start::{Terms, has_slot};
use smp_words::limits::are_limits;
use smp_words::phase::EXIT;
use smp_words::size::NR_CPUS;
use smp_words::work::{Kind, Work};
use std::alloc::{AllocError, Allocator};
use std::marker::Model;

/// The stop table: its name, how many CPUs it has, and what it is made with. Threads share it by reference. Wherever it lies,
/// what all threads read of it shares no cache line with what one of them writes beside it.
#[derive(Drop)]
#[repr(C)]
pub struct StopTable<A: Allocator> {
    before: [u64; 8],
    pub(crate) owner: OwnedStopWords<A>,
    nr: u32,
    setting: StopSetting,
    after: [u64; 8],
}

impl<A: Allocator> Model for StopTable<A> {
    ghost use Rattle.smp_multi.specs.Cpu.{TableValue};
    ghost use Rattle.smp_multi.specs.Table.{IsTable};

    ghost Value = { TableValue };

    ghost view = { λ t. record { table = t.owner.table.shared.table_id; nr = t.nr; setting = t.setting } };

    ghost invariant = { λ t. IsTable t.owner.table.shared.table_id t.owner.table.shared.key t.nr t.setting };
}

/// The CPU of a seat, if there is one.
fn cpu_if(seat: Option<StopSeat>, number: u32) -> Option<StopCpu>
    requires fresh { IfSome seat (λ s. (s.known ≡ fresh s.known.setting number) × (has s.known.setting.online number ≡ true) × Lives s.known) }
    requires below { number < cpus }
    ensures { result ≡ option_map (λ s. fresh_cpu s.table s.known.setting number) seat }
{
    match seat {
        Some(seat) => Some(StopCpu::new(seat, number)),
        None => None,
    }
}

/// The table, and its CPUs: one seat for each that there can be, of which those online are kept.
fn build<A: Allocator>(
    alloc: A,
    nr: u32,
    setting: StopSetting,
) -> Result<(StopTable<A>, StopBoot<A>), AllocError>
where
    A: Copy,
    requires { AreLimits nr setting.online }
    ensures { IfOk result (λ t. (t.0.nr ≡ nr) × (t.0.setting ≡ setting) × IsFull t.1 t.0.table setting) }
{
    let mut waiting = Vec::with_capacity(alloc, NR_CPUS as usize)?;
    let (owner, mut maker) = lay(alloc, nr, &setting)?;
    let online = setting.online;
    for number in 0..NR_CPUS {
        let is_online = online.contains(number);
        let seat = next_seat(owner.words(), &mut maker, number, is_online);
        waiting.push(cpu_if(seat, number))?;
    }
    let table = StopTable {
        before: [0; 8],
        owner,
        nr,
        setting,
        after: [0; 8],
    };
    let boot = StopBoot {
        maker,
        online,
        waiting,
    };
    Ok((table, boot))
}

impl<A: Allocator> StopTable<A> {
    /// A table of `nr` CPUs with no stops, these labels with all keys off, and those of its CPUs that are online, each
    /// to be handed out once. E4 where `nr` is not 1 to `NR_CPUS`, no CPU is online, or one that is online is not below
    /// `nr`; then E6 where a growth is refused. It takes effect at no step, since no thread shares the table yet, and
    /// does not wait.
    pub fn new(
        alloc: A,
        nr: u32,
        online: CpuMask,
        labels: &LabelMap,
    ) -> Result<(StopTable<A>, StopBoot<A>), SmpError>
    where
        A: Copy,
        ensures ok { IfOk result (λ t. (t.0.nr ≡ nr) × (t.0.setting ≡ record { online = online; labels = labels.now }) × IsFull t.1 t.0.table t.0.setting) }
        ensures limits { OnOk result (AreLimits nr online) }
        ensures refused { IsErrOf result SmpError.BadArgument ↔ (¬ (AreLimits nr online)) }
        ensures only { IfErr result (λ e. (e ≡ SmpError.BadArgument) ⊎ (e ≡ SmpError.NoMemory)) }
    {
        if !are_limits(nr, online) {
            return Err(SmpError::BadArgument);
        }
        let setting = StopSetting {
            online,
            labels: labels.copy(),
        };
        match build(alloc, nr, setting) {
            Ok(built) => Ok(built),
            Err(_) => Err(SmpError::NoMemory),
        }
    }

    /// The CPUs that are online. No step of the table.
    pub fn online(&self) -> CpuMask
        ensures value { result ≡ self.now.setting.online }
        ensures limits { AreLimits self.now.nr result }
    {
        self.setting.online
    }

    /// How many keys there are. No step of the table.
    pub fn keys(&self) -> u32
        ensures value { result ≡ self.now.setting.labels.keys }
        ensures within { result ≤ MOST_KEYS }
    {
        self.setting.labels.keys()
    }

    /// Takes the gate (`stop_cpus_mutex`), at one compare-exchange; false where that has found a holder, which may be this
    /// CPU. It does not wait.
    pub fn try_gate(&self, me: &mut StopCpu) -> bool
        requires { IsAt self.now me.old }
        ensures taken { me.new ≡ if result then takes_gate me.old else misses_gate me.old }
        ensures held { me.old.part.holds ≡ true → result ≡ false }
        ensures busy { result ≡ false → FindsHeld me.old }
    {
        let taken = take_gate(self.owner.words(), &mut me.seat, me.number);
        me.holds = me.holds || taken;
        taken
    }

    /// Gives the gate up, at a store. E4 where this CPU does not hold it, which makes no step. It does not wait.
    pub fn open_gate(&self, me: &mut StopCpu) -> Result<(), SmpError>
        requires { IsAt self.now me.old }
        ensures ok { IfOk result (λ _. (me.old.part.holds ≡ true) × (me.new ≡ gives_gate me.old)) }
        ensures err { IfErr result (λ e. (e ≡ SmpError.BadArgument) × (me.old.part.holds ≡ false) × (me.new ≡ me.old)) }
    {
        if !me.holds {
            return Err(SmpError::BadArgument);
        }
        leave_gate(self.owner.words(), &mut me.seat, me.number);
        me.holds = false;
        Ok(())
    }

    /// Opens the slot of this CPU for a stop of this work, at the last of eleven stores, that of the roll
    /// (`kernel/stop_machine.c: stop_cpus`). It does not wait; the source polls by `poll_done`, and each CPU of the mask by
    /// `enter`.
    ///
    /// Refusals, in this order, none of which makes a step:
    /// - E8 (`SmpError::SlotBusy`) where this CPU's stop is not collected yet.
    /// - E4 (`SmpError::BadArgument`) where the CPU does not hold the gate, the mask is empty, or a stop of kind One has
    ///   another number of CPUs than one. E4 also for a patch that has another mask than the CPUs online, another active
    ///   mask than the first of them, a `func` that is no key of the table, or an `arg` that is no change.
    /// - E3 (`SmpError::NoStopper`) where a CPU of the mask is not online.
    pub fn begin(&self, me: &mut StopCpu, work: Work) -> Result<(), SmpError>
        requires { IsAt self.now me.old }
        ensures { BeginAnswers self.now me.old me.new work result }
    {
        let terms = Terms {
            nr: self.nr,
            online: self.setting.online,
            keys: self.setting.labels.keys(),
            sites: self.setting.labels.sites(),
            holds_gate: me.holds,
        };
        if let Some(refusal) = terms.begin_refusal(work, me.is_open) {
            return Err(refusal);
        }
        begin::begin(self.owner.words(), &mut me.seat, me.number, &work);
        me.is_open = true;
        Ok(())
    }

    /// Enters the stop of a slot, at the fetch_and that takes the own bit from its roll, and answers its kind. E7 where
    /// there is no such slot (it is below neither 8 nor `nr`), this CPU is in a stop already, or the roll that the
    /// fetch_and has found does not have it; only the last makes a step. It does not wait.
    pub fn enter(&self, me: &mut StopCpu, slot: u32) -> Result<Kind, SmpError>
        requires { IsAt self.now me.old }
        ensures ok { IfOk result (λ kind. Enters self.now slot me.old me.new kind) }
        ensures err { IfErr result (λ e. (e ≡ SmpError.Stale) × RefusesEntry self.now slot me.old me.new) }
    {
        if me.in_stop() || !has_slot(self.nr, slot) {
            return Err(SmpError::Stale);
        }
        match enter::enter(self.owner.words(), &mut me.seat, me.number, slot) {
            Some(visit) => {
                me.visit = Some(visit);
                Ok(visit.kind)
            }
            None => Err(SmpError::Stale),
        }
    }

    /// Calls the function of the stop of one CPU that this CPU has entered, and completes with its answer, at the
    /// fetch_sub of its count. E4 where it has entered no such stop, which makes no step. It does not wait.
    pub fn run_one<F: StopFunc>(&self, me: &mut StopCpu, func: &mut F) -> Result<i32, SmpError>
        requires { IsAt self.now me.old }
        ensures { RunAnswers F.leads me.old me.new func.old func.new result }
    {
        let Some(visit) = me.visit else {
            return Err(SmpError::BadArgument);
        };
        if visit.kind != Kind::One {
            return Err(SmpError::BadArgument);
        }
        let answer = run::run_one(
            self.owner.words(),
            &mut me.seat,
            me.number,
            visit.slot,
            func,
        );
        me.visit = None;
        Ok(answer)
    }

    /// One turn of the stop of several CPUs that this CPU has entered (`kernel/stop_machine.c: multi_cpu_stop`). It does not
    /// wait; each CPU of the mask polls until it has left.
    ///
    /// It takes effect at the load of the phase: `Same` where that is no new one. Else the turn ends in the fetch_sub that
    /// acknowledges the phase, after which the last of all CPUs stores the next one.
    ///
    /// At `RUN` an active CPU first calls the function, or makes the patch of a patch stop. Its interrupts are off, and every
    /// CPU of the mask has acknowledged `DISABLE_IRQ`. A patch loads the key, and the entries where the key turns on or off.
    /// Then it stores the key and its sites, ascending. Its answer is 1 where the count is at the end of its range, so that
    /// nothing changes, else 0.
    ///
    /// E4 (`SmpError::BadArgument`) where the CPU is in no such stop or has left it, which makes no step.
    pub fn advance<F: StopFunc>(&self, me: &mut StopCpu, func: &mut F) -> Result<Turn, SmpError>
        requires { IsAt self.now me.old }
        ensures { AdvanceAnswers F.leads me.old me.new func.old func.new result }
    {
        let Some(visit) = me.visit else {
            return Err(SmpError::BadArgument);
        };
        if visit.kind == Kind::One || visit.acked == EXIT {
            return Err(SmpError::BadArgument);
        }
        let (visit, turn) = take_turn(self.owner.words(), &mut me.seat, me.number, visit, func);
        me.visit = Some(visit);
        Ok(turn)
    }

    /// As [`StopTable::run_one`] up to the call: the function is the caller's to call. The CPU comes back by
    /// [`StopTable::answer`]. Err gives it back where it has entered no such stop, which makes no step. It does not wait.
    pub fn begin_one(&self, me: StopCpu) -> Result<Answering, StopCpu>
        requires { IsAt self.now me }
        ensures { OneAnswers me result }
    {
        come_to_one(self.owner.words(), me)
    }

    /// As [`StopTable::advance`], but it calls no function: at `RUN` an active CPU of a Multi stop comes back as `Call`, and
    /// the function is the caller's to call. Every CPU of the mask has its interrupts off until [`StopTable::answer`] takes
    /// the answer. Err gives the CPU back where it is in no such stop or has left it, which makes no step.
    pub fn turn(&self, me: StopCpu) -> Result<Turned, StopCpu>
        requires { IsAt self.now me }
        ensures { TurnedAnswers me result }
    {
        turn_once(self.owner.words(), me)
    }

    /// The function that was to be called has given this answer: the CPU acknowledges `RUN` with it, at that fetch_sub, or
    /// completes its stop of one CPU with it, at the fetch_sub of its count. It does not wait.
    pub fn answer(&self, answering: Answering, answer: i32) -> StopCpu
        requires { IsAt self.now answering.cpu }
        ensures { Answered answering answer result }
    {
        give_answer(self.owner.words(), answering, answer)
    }

    /// Completes the stop of several CPUs that this CPU has left, with its function's answer, 0 where it called none, at the
    /// fetch_sub of its count. E4 where it is in no such stop or has not left it, which makes no step. It does not wait.
    pub fn finish(&self, me: &mut StopCpu) -> Result<(), SmpError>
        requires { IsAt self.now me.old }
        ensures { FinishAnswers me.old me.new result }
    {
        let Some(visit) = me.visit else {
            return Err(SmpError::BadArgument);
        };
        if visit.kind == Kind::One || visit.acked != EXIT {
            return Err(SmpError::BadArgument);
        }
        complete::finish(self.owner.words(), &mut me.seat, visit.slot);
        me.visit = None;
        Ok(())
    }

    /// Whether all CPUs of this CPU's own stop have completed: None where its one load of done found 0; Some, with the
    /// result, closes the slot, at the load of the result. E4 where no stop of this CPU is open, which makes no step.
    /// It does not wait.
    pub fn poll_done(&self, me: &mut StopCpu) -> Result<Option<i32>, SmpError>
        requires { IsAt self.now me.old }
        ensures { PollAnswers me.old me.new result }
    {
        if !me.is_open {
            return Err(SmpError::BadArgument);
        }
        if !is_done(self.owner.words(), &mut me.seat, me.number) {
            return Ok(None);
        }
        let word = collect(self.owner.words(), &mut me.seat, me.number);
        me.is_open = false;
        Ok(Some(((word % 0x1_0000_0000) as u32).cast_signed()))
    }

    /// Whether a key is on (`include/linux/jump_label.h: static_key_enabled`), at a load of its count. E4 where the table
    /// has no such key, or this CPU has its interrupts off, which makes no step. One lawful table says all that the CPU
    /// has read since its interrupts last went on. It does not wait.
    pub fn read_key(&self, me: &mut StopCpu, k: u32) -> Result<bool, SmpError>
        requires { IsAt self.now me.old }
        ensures { KeyAnswers k me.old me.new result }
    {
        if k >= self.setting.labels.keys() || !me.interrupts_on() {
            return Err(SmpError::BadArgument);
        }
        Ok(read::read_key(self.owner.words(), &mut me.seat, k))
    }

    /// What a site is, a NOP or a jump (`arch_static_branch`, `arch_static_branch_jump`), at a load of its word. E4
    /// where the table has no such site, or this CPU has its interrupts off, which makes no step. One lawful table says
    /// all that the CPU has read since its interrupts last went on. It does not wait.
    pub fn read_site(&self, me: &mut StopCpu, i: u32) -> Result<SiteKind, SmpError>
        requires { IsAt self.now me.old }
        ensures { SiteAnswers i me.old me.new result }
    {
        if i >= self.setting.labels.sites() || !me.interrupts_on() {
            return Err(SmpError::BadArgument);
        }
        Ok(read::read_site(self.owner.words(), &mut me.seat, i))
    }

    /// Moves the count of a key by one, where the key stays on: up as the loop of `kernel/jump_label.c:
    /// static_key_slow_inc_cpuslocked`, down as `static_key_slow_try_dec`. It does not wait; after `Lost` the caller may try
    /// again.
    ///
    /// E4 (`SmpError::BadArgument`) where the table has no such key, or this CPU has its interrupts off, which makes no step.
    /// Else it loads the count, which is a reading of the key. At this load it is E13 (`SmpError::KeyRange`) where the count
    /// is 65,535 and is to go up, or 0 and is to go down. `Stop` where the key would turn on (up from 0) or off (down from
    /// 1), which takes a stop. Else one compare-exchange: `Done` where it has put the next count, or `Lost` where it has
    /// found another.
    pub fn try_key(&self, me: &mut StopCpu, k: u32, up: bool) -> Result<Nudge, SmpError>
        requires { IsAt self.now me.old }
        ensures { NudgeAnswers k up me.old me.new result }
    {
        if !me.interrupts_on() || k >= self.setting.labels.keys() {
            return Err(SmpError::BadArgument);
        }
        nudge::try_key(self.owner.words(), &mut me.seat, k, up)
    }
}
