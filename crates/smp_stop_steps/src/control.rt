//! Where a CPU is in the stop half: which step it makes next, and what it knows of the stop that it is in.

ghost use Rattle.std.specs.Prelude.{◌≡◌, ◌↔◌, ◌<◌, ℕ, true, Some, None, length};
ghost use Rattle.smp_labels.specs.Keys.{count_after};
ghost use Rattle.smp_stop_steps.specs.Stages.{begun_next, change_at, completion_outcome, nudge_of, nudge_on, stop_ends};
ghost use Rattle.smp_stop_steps.specs.Stages.{stop_goes, stop_outcome, stop_outside, FitsStop, FitsCompletion};
ghost use Rattle.smp_stop_steps.specs.Stages.{IsOfSource};

pub mod kept;
mod turn;

use crate::mask::has_bit;
use crate::stage::{CompletionStage, StopStage, Visit};
use arrayvec::ArrayVec;
use smp_labels::{Change, MOST_CHANGES, Place, is_on};
use smp_words::field::Field;
use smp_words::same::Same;
use smp_words::seen::Note;
use smp_words::work::{Kind, Work};
use std::marker::Model;

/// Where a CPU is in the stop half.
#[derive(Drop)]
pub struct StopControl {
    /// None outside a command of the stop half.
    stage: Option<StopStage>,
    /// The stop that it is in.
    visit: Option<Visit>,
    /// The changes of the patch that it makes.
    changes: ArrayVec<(Place, u64), MOST_CHANGES>,
    interrupts: bool,
    /// Whether the stop of its own slot is open.
    is_open: bool,
}

impl Model for StopControl {
    ghost use Rattle.smp_stop_steps.specs.Stages.{StopControlValue};

    ghost Value = { StopControlValue };

    ghost view = { λ c. record { stage = c.stage; visit = c.visit; changes = c.changes.items; interrupts = c.interrupts; is_open = c.is_open } };
}

/// These changes once more.
fn copy_changes(
    changes: &ArrayVec<(Place, u64), MOST_CHANGES>,
) -> ArrayVec<(Place, u64), MOST_CHANGES>
    ensures { result ≡ changes.now }
{
    let mut copies = ArrayVec::new();
    for change in changes.iter() {
        copies.push(*change);
    }
    copies
}

/// Whether both are outside a command, or at the same stage.
fn is_same_stage(one: Option<StopStage>, other: Option<StopStage>) -> bool
    ensures { result ≡ true ↔ one ≡ other }
{
    match (one, other) {
        (None, None) => true,
        (Some(one), Some(other)) => one.is_same(other),
        _ => false,
    }
}

/// Whether both are in no stop, or know the same of it.
fn is_same_visit(one: Option<Visit>, other: Option<Visit>) -> bool
    ensures { result ≡ true ↔ one ≡ other }
{
    one == other
}

/// Whether the changes are the same, in the same order.
fn are_same_changes(one: &[(Place, u64)], other: &[(Place, u64)]) -> bool
    ensures { result ≡ true ↔ one.now ≡ other.now }
{
    if one.len() != other.len() {
        return false;
    }
    for i in 0..one.len() {
        if one[i] != other[i] {
            return false;
        }
    }
    true
}

impl Same for StopControl {
    fn copy(&self) -> Self {
        StopControl {
            stage: self.stage,
            visit: self.visit,
            changes: copy_changes(&self.changes),
            interrupts: self.interrupts,
            is_open: self.is_open,
        }
    }

    fn is_same(&self, other: &Self) -> bool {
        is_same_stage(self.stage, other.stage)
            && is_same_visit(self.visit, other.visit)
            && are_same_changes(self.changes.as_slice(), other.changes.as_slice())
            && self.interrupts == other.interrupts
            && self.is_open == other.is_open
    }
}

impl StopControl {
    /// A CPU in no stop, outside a command.
    pub fn new() -> Self
        ensures { result ≡ stop_outside }
    {
        StopControl {
            stage: None,
            visit: None,
            changes: ArrayVec::new(),
            interrupts: true,
            is_open: false,
        }
    }

    /// The stage; none outside a command of the stop half.
    pub fn stage(&self) -> Option<StopStage>
        ensures { result ≡ self.now.stage }
    {
        self.stage
    }

    /// The stop that it is in.
    pub fn visit(&self) -> Option<Visit>
        ensures { result ≡ self.now.visit }
    {
        self.visit
    }

    /// Whether its interrupts are on.
    pub fn interrupts(&self) -> bool
        ensures { result ≡ self.now.interrupts }
    {
        self.interrupts
    }

    /// Whether the stop of its own slot is open.
    pub fn is_open(&self) -> bool
        ensures { result ≡ self.now.is_open }
    {
        self.is_open
    }

    /// Begins at a stage.
    pub fn begin(&mut self, stage: StopStage)
        ensures { self.new ≡ (stop_goes self.old stage).control }
    {
        self.stage = Some(stage);
    }

    fn go_on(&mut self, stage: StopStage) -> Option<Note>
        ensures note { result ≡ (stop_goes self.old stage).note }
        ensures control { self.new ≡ (stop_goes self.old stage).control }
    {
        self.stage = Some(stage);
        None
    }

    fn end(&mut self, note: Note) -> Option<Note>
        ensures note { result ≡ (stop_ends self.old note).note }
        ensures control { self.new ≡ (stop_ends self.old note).control }
    {
        self.stage = None;
        Some(note)
    }

    /// The next store of begin.
    fn begin_next(&mut self, work: Work, field: Field) -> Option<Note>
        ensures note { result ≡ (begun_next self.old work field).note }
        ensures control { self.new ≡ (begun_next self.old work field).control }
    {
        let next = match field {
            Field::Kind => Field::Mask,
            Field::Mask => Field::Active,
            Field::Active => Field::Func,
            Field::Func => Field::Arg,
            Field::Arg => Field::Result,
            Field::Result => Field::Todo,
            Field::Todo => Field::Done,
            Field::Done => Field::Ack,
            Field::Ack => Field::State,
            Field::State => Field::Roll,
            Field::Roll => {
                self.is_open = true;
                return self.end(Note::Begun);
            }
        };
        self.go_on(StopStage::Begin(work, next))
    }

    /// What follows a step of a completion.
    fn advance_completion(
        &mut self,
        visit: Visit,
        stage: CompletionStage,
        found: u64,
    ) -> Option<Note>
        requires { FitsCompletion stage found }
        ensures note { result ≡ (completion_outcome self.old visit stage found).note }
        ensures control { self.new ≡ (completion_outcome self.old visit stage found).control }
    {
        match stage {
            CompletionStage::LoadFunc { answer } => {
                let func = found as u16;
                let next = CompletionStage::LoadArg { answer, func };
                self.go_on(StopStage::Complete(visit, next))
            }
            CompletionStage::LoadArg { answer, func } => {
                let visit = Visit { answer, ..visit };
                self.stage = Some(StopStage::Complete(visit, visit.completion()));
                self.visit = Some(visit);
                Some(Note::Run(func, found))
            }
            CompletionStage::StoreAnswer => {
                self.go_on(StopStage::Complete(visit, CompletionStage::CountDown))
            }
            CompletionStage::CountDown => {
                self.visit = None;
                if found == 1 {
                    self.go_on(StopStage::Close(visit.slot))
                } else {
                    self.end(Note::Finished)
                }
            }
        }
    }

    /// Goes on after the step of this stage, by the number that it found, and tells what that means.
    pub fn advance(&mut self, me: u32, stage: StopStage, found: u64) -> Option<Note>
        requires cpu { me < 64 }
        requires fits { FitsStop self.old stage found }
        ensures note { result ≡ (stop_outcome me self.old stage found).note }
        ensures control { self.new ≡ (stop_outcome me self.old stage found).control }
    {
        match stage {
            StopStage::TakeGate => self.end(if found == 0 { Note::Gate } else { Note::Taken }),
            StopStage::OpenGate => self.end(Note::Open),
            StopStage::Begin(work, field) => self.begin_next(work, field),
            StopStage::Enter(slot) => {
                if has_bit(found, me) {
                    self.go_on(StopStage::EnterKind(slot))
                } else {
                    self.end(Note::Stale)
                }
            }
            StopStage::EnterKind(slot) => {
                self.go_on(StopStage::EnterMask(slot, Kind::of_word(found)))
            }
            StopStage::EnterMask(slot, kind) => {
                self.go_on(StopStage::EnterActive(slot, kind, found))
            }
            StopStage::EnterActive(slot, kind, mask) => {
                self.visit = Some(Visit {
                    slot,
                    kind,
                    mask,
                    active: found,
                    acked: 0,
                    answer: 0,
                });
                self.end(Note::Entered)
            }
            StopStage::Advance(visit, round) => self.advance_round(me, visit, round, found),
            StopStage::Complete(visit, completion) => {
                self.advance_completion(visit, completion, found)
            }
            _ => self.advance_source(stage, found),
        }
    }

    /// The load of a nudge: it goes on where the key stays on.
    fn nudge(&mut self, key: u32, up: bool, found: u64) -> Option<Note>
        ensures note { result ≡ (nudge_on self.old key found (count_after (nudge_of up) found)).note }
        ensures control { self.new ≡ (nudge_on self.old key found (count_after (nudge_of up) found)).control }
    {
        let change = if up { Change::Up } else { Change::Down };
        let Some(word) = change.count_after(found) else {
            return self.end(Note::KeyRange);
        };
        if is_on(found) == is_on(word) {
            self.go_on(StopStage::ExchangeKey(key, found, word))
        } else {
            self.end(Note::Stop)
        }
    }

    /// What follows a step of the source, a reading or a nudge.
    fn advance_source(&mut self, stage: StopStage, found: u64) -> Option<Note>
        requires { IsOfSource stage }
        ensures note { (me : ℕ) → result ≡ (stop_outcome me self.old stage found).note }
        ensures control { (me : ℕ) → self.new ≡ (stop_outcome me self.old stage found).control }
    {
        match stage {
            StopStage::LoadDone => {
                if found == 0 {
                    self.end(Note::Pending)
                } else {
                    self.go_on(StopStage::LoadResult)
                }
            }
            StopStage::LoadResult => {
                self.is_open = false;
                self.end(Note::Result(((found % 0x1_0000_0000) as u32).cast_signed()))
            }
            StopStage::ReadKey(_) => self.end(if is_on(found) { Note::On } else { Note::Off }),
            StopStage::ReadSite(_) => self.end(if is_on(found) { Note::Jmp } else { Note::Nop }),
            StopStage::NudgeKey(key, up) => self.nudge(key, up, found),
            StopStage::ExchangeKey(_, expected, _) => {
                self.end(if found == expected {
                    Note::Done
                } else {
                    Note::Lost
                })
            }
            _ => self.end(Note::Finished),
        }
    }

    /// The store of the patch that is made after this number of them.
    pub fn change(&self, made: u32) -> (Place, u64)
        requires { made < length self.now.changes }
        ensures { result ≡ change_at self.now.changes made }
    {
        self.changes[made as usize]
    }
}
