//! The stop half of a pure machine: its words, and where each CPU is, one atomic step at a time.

ghost use Rattle.std.specs.Prelude.{◌≡◌, ◌↔◌, ◌≤◌, true, MatchOption};

pub mod kept;

use crate::control::StopControl;
use crate::stage::StopStage;
use crate::start::Terms;
use crate::table::WordTable;
use smp_labels::LabelMap;
use smp_mask::{CpuMask, SmpError};
use smp_words::access::Access;
use smp_words::command::Command;
use smp_words::field::Field;
use smp_words::same::{are_same, copy_all};
use smp_words::seen::{Note, Seen};
use smp_words::size::NR_CPUS;
use smp_words::word::Word;
use std::alloc::{AllocError, Allocator};
use std::marker::Model;

/// The stop table as one thread sees it, with the place of each CPU inside its command.
#[derive(Drop)]
pub struct Stops<A: Allocator> {
    nr: u32,
    online: CpuMask,
    labels: LabelMap,
    table: WordTable<A>,
    /// One for each CPU that there can be.
    controls: Vec<StopControl, A>,
}

impl<A: Allocator> Model for Stops<A> {
    ghost use Rattle.smp_stop_steps.specs.Value.{StopsValue};
    ghost use Rattle.smp_stop_steps.specs.Machine.{AreSoundStops};

    ghost Value = { StopsValue };

    ghost view = { λ s. record { nr = s.nr; online = s.online; labels = s.labels; table = s.table; controls = s.controls.items } };

    ghost invariant = { λ s. AreSoundStops s.online s.labels s.table s.controls.items };
}

/// Whether both halves are made of the same: as many CPUs, the same of them online, and the same labels.
fn is_same_setup(
    one: (u32, CpuMask),
    other: (u32, CpuMask),
    labels: &LabelMap,
    others: &LabelMap,
) -> bool
    ensures { result ≡ true ↔ (one ≡ other) × (labels.now ≡ others.now) }
{
    one == other && labels.is_same(others)
}

/// Moves the control of one CPU, which is inside a command, on.
fn advance(controls: &mut [StopControl], cpu: u32, found: u64) -> Option<Note>
    requires cpu { cpu < length controls.old }
    requires small { cpu < 64 }
    requires fits { IfSome (stop_control_of controls.old cpu).stage (λ stage. FitsStop (stop_control_of controls.old cpu) stage found) }
    ensures note { IfSome (stop_control_of controls.old cpu).stage (λ stage. result ≡ (moved_on controls.old cpu found stage).note) }
    ensures controls { IfSome (stop_control_of controls.old cpu).stage
        (λ stage. controls.new ≡ slice_set controls.old cpu (moved_on controls.old cpu found stage).control) }
{
    let control = &mut controls[cpu as usize];
    let Some(stage) = control.stage() else {
        return None;
    };
    control.advance(cpu, stage, found)
}

ghost use Rattle.std.specs.Prelude.{◌<◌, length, slice_set, IfSome};
ghost use Rattle.smp_stop_steps.specs.Stages.{FitsStop};
ghost use Rattle.smp_stop_steps.specs.Machine.{moved_on};
ghost use Rattle.smp_stop_steps.specs.Value.{stop_control_of};
ghost use Rattle.std.specs.Prelude.{IfOk, replicate};
ghost use Rattle.smp_words.specs.Size.{cpus};
ghost use Rattle.smp_stop_steps.specs.Stages.{stop_outside};

/// All CPUs in no stop, outside a command.
fn new_controls<A: Allocator>(alloc: A) -> Result<Vec<StopControl, A>, AllocError>
    ensures { IfOk result (λ controls. controls.items ≡ replicate cpus stop_outside) }
{
    let mut controls = Vec::new(alloc);
    for _cpu in 0..NR_CPUS {
        controls.push(StopControl::new())?;
    }
    Ok(controls)
}

impl<A: Allocator> Stops<A> {
    ghost use Rattle.smp_stop_steps.specs.Machine.{IsStepOf, StopTold, stop_access_at};
    ghost use Rattle.smp_stop_steps.specs.AnswerWords.{AnswersFit};
    ghost use Rattle.smp_stop_steps.specs.Begins.{MayBeginAt, stop_begun};
    ghost use Rattle.smp_stop_steps.specs.StepLaws.{StepsKeepLaws, StopNoteTold};
    ghost use Rattle.smp_stop_steps.specs.Stages.{FitsAccess};
    ghost use Rattle.smp_stop_steps.specs.State.{StopState};
    ghost use Rattle.smp_stop_steps.specs.Table.{stop_number};
    ghost use Rattle.smp_stop_steps.specs.Value.{StopShown};
    ghost use Rattle.std.specs.Prelude.{ℕ};
    ghost use Rattle.smp_mask.specs.Mask.{has};
    ghost use Rattle.smp_stop_steps.specs.New.{new_stops};
    ghost use Rattle.smp_stop_steps.specs.State.{no_stops};

    /// A half in which nothing was begun, with these CPUs online and these labels.
    pub fn new(alloc: A, nr: u32, online: CpuMask, labels: LabelMap) -> Result<Self, AllocError>
    where
        A: Copy,
        requires member { (cpu : ℕ) × (has online cpu ≡ true) }
        requires below { (cpu : ℕ) → has online cpu ≡ true → cpu < cpus }
        ensures made { IfOk result (λ s. s ≡ new_stops nr online labels) }
        ensures empty { IfOk result (StopShown no_stops) }
    {
        let controls = new_controls(alloc)?;
        let table = WordTable::new(alloc, labels.words())?;
        Ok(Stops {
            nr,
            online,
            labels,
            table,
            controls,
        })
    }

    /// A duplicate of this half.
    pub fn copy(&self, alloc: A) -> Result<Self, AllocError>
    where
        A: Copy,
        ensures { IfOk result (λ copy. copy ≡ self.now) }
    {
        let table = self.table.copy(alloc)?;
        let controls = copy_all(alloc, &self.controls)?;
        Ok(Stops {
            nr: self.nr,
            online: self.online,
            labels: self.labels.copy(),
            table,
            controls,
        })
    }

    /// Whether the two are the same: the words, and where each CPU is.
    pub fn is_same(&self, other: &Self) -> bool
        ensures { result ≡ true ↔ self.now ≡ other.now }
    {
        let (one, another) = ((self.nr, self.online), (other.nr, other.online));
        is_same_setup(one, another, &self.labels, &other.labels)
            && self.table.is_same(&other.table)
            && are_same(&self.controls, &other.controls)
    }

    /// Where this CPU is; none outside a command of the stop half, or where there is no such CPU.
    pub fn stage(&self, cpu: u32) -> Option<StopStage>
        ensures { result ≡ (stop_control_of self.now.controls cpu).stage }
    {
        if cpu < NR_CPUS {
            self.controls[cpu as usize].stage()
        } else {
            None
        }
    }

    ghost use Rattle.smp_stop_steps.specs.Start.{terms_of, stop_refusal, stop_started};
    ghost use Rattle.smp_stop_steps.specs.Table.{stop_number_of};

    /// What a refusal depends on beside where the CPU is.
    fn terms(&self, cpu: u32) -> Terms
        ensures { result ≡ terms_of self.now cpu }
    {
        Terms {
            nr: self.nr,
            online: self.online,
            keys: self.labels.keys(),
            sites: self.labels.sites(),
            holds_gate: self.table.read(Word::Gate) == u64::from(cpu) + 1,
        }
    }

    /// The own refusal of a command of this half, and of a handle while interrupts are off; none where it may start,
    /// and for another command.
    pub fn refusal(&self, cpu: u32, command: &Command) -> Option<SmpError>
        requires { cpu < cpus }
        ensures { result ≡ stop_refusal self.now cpu command.now }
    {
        self.terms(cpu)
            .refusal(&self.controls[cpu as usize], command)
    }

    /// There is a place for each CPU that there can be.
    pub fn has_all_places(&self)
        ensures { length self.now.controls ≡ cpus }
    {
        let _nr = self.nr;
    }

    /// Puts a CPU that is outside a command at the first stage of one that may start, where that is a command of this
    /// half. It makes no step.
    pub fn start(&mut self, cpu: u32, command: Command)
        requires cpu { cpu < cpus }
        requires online { has self.old.online cpu ≡ true }
        requires below { (c : ℕ) → has self.old.online c ≡ true → c < cpus }
        requires outside { (stop_control_of self.old.controls cpu).stage ≡ None }
        requires allowed { stop_refusal self.old cpu command ≡ None }
        ensures started { self.new ≡ stop_started self.old cpu command }
        ensures told { (p : StopState) → StopShown p self.old → StopShown p self.new }
    {
        if let Some(stage) = self.controls[cpu as usize].first_stage(&command) {
            self.begin(cpu, stage);
        }
    }

    /// Puts a CPU that is outside a command at the first stage of one that may begin. It makes no step.
    fn begin(&mut self, cpu: u32, stage: StopStage)
        requires cpu { cpu < cpus }
        requires outside { (stop_control_of self.old.controls cpu).stage ≡ None }
        requires may { MayBeginAt self.old cpu stage }
        requires answers { AnswersFit stage }
        ensures begun { self.new ≡ stop_begun self.old cpu stage }
        ensures told { (p : StopState) → StopShown p self.old → StopShown p self.new }
    {
        self.controls[cpu as usize].begin(stage);
    }

    /// The access that this CPU makes at this stage.
    fn access(&self, cpu: u32, stage: StopStage) -> Access
        requires cpu { cpu < cpus }
        requires fits { FitsAccess (stop_control_of self.now.controls cpu) stage }
        ensures { result ≡ stop_access_at self.now cpu stage }
    {
        stage.access(cpu, &self.controls[cpu as usize])
    }

    /// Makes one atomic step of the CPU's command; none where it has none.
    pub fn step(&mut self, cpu: u32) -> Option<Seen>
        ensures step { MatchOption (stop_control_of self.old.controls cpu).stage ((result ≡ None)
            × (self.new ≡ self.old)) (λ stage. IsStepOf self.old cpu stage result self.new) }
        ensures told { MatchOption (stop_control_of self.old.controls cpu).stage (self.new ≡ self.old) (λ stage. StopTold self.old cpu stage self.new) }
        ensures notes { IfSome (stop_control_of self.old.controls cpu).stage (StopNoteTold self.old cpu) }
    {
        let Some(stage) = self.stage(cpu) else {
            return None;
        };
        let access = self.access(cpu, stage);
        let found = self.table.perform(access);
        let note = advance(&mut self.controls, cpu, found);
        Some(access.seen(cpu, found, note))
    }

    /// The number in a word; none where there is no such word.
    pub fn word(&self, word: Word) -> Option<u64>
        ensures { result ≡ stop_number_of self.now.table word }
    {
        self.table.word(word)
    }

    ghost use Rattle.smp_words.specs.declared.field.Field.TheVariants.{State};
    ghost use Rattle.smp_words.specs.declared.phase.TheConstants.{OVER};
    ghost use Rattle.smp_words.specs.declared.word.Word.TheVariants.{Slot};

    /// The state word of a slot, 0 to `OVER`; 0 where there is no such slot.
    pub fn phase(&self, slot: u32) -> u32
        ensures phase { result ≡ stop_number self.now.table (Slot slot State) }
        ensures small { result ≤ OVER }
    {
        (self.table.read(Word::Slot(slot, Field::State)) % (1 << 32)) as u32
    }

    /// Whatever stops the half shows, each step that a CPU may make next keeps the laws of steps: who may make it, what it
    /// does of stop functions, and that a store to a key or a site is one of a patch.
    pub fn steps_keep_laws(&self)
        ensures { (p : StopState) → StopShown p self.now → StepsKeepLaws self.now p }
    {
        let _online = self.online;
    }

    ghost use Rattle.smp_stop_steps.specs.Machine.{IsSoundHalf};

    /// Every stop half is whole.
    pub fn is_sound(&self)
        ensures { IsSoundHalf self.now }
    {
        let _online = self.online;
    }

    /// Every stop half shows a state of the stops that keeps all laws.
    pub fn shows_stops(&self)
        ensures { (p : StopState) × StopShown p self.now }
    {
        let _online = self.online;
    }
}
