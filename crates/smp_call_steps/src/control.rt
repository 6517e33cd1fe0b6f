//! Where a CPU is: its stage, and how many calls it has reversed of its batch.

ghost use Rattle.std.specs.Prelude.{◌≡◌, ◌↔◌, true};
ghost use Rattle.smp_call_steps.specs.Stages.{control_after, outcome_of, FitsStage};
ghost use Rattle.smp_call_steps.specs.Start.{control_at};
ghost use Rattle.smp_call_steps.specs.Value.{outside};
ghost use Rattle.smp_call_steps.specs.Batches.{has_record, down_link, up_link, between_of, is_this, running_of};

use crate::drain::Drain;
use crate::stage::{CallOutcome, Stage};
use smp_words::same::Same;
use smp_words::seen::Note;
use std::marker::Model;

/// Where a CPU is inside its command.
#[derive(Drop)]
pub struct Control {
    /// None outside a command.
    stage: Option<Stage>,
    drain: Drain,
}

impl Model for Control {
    ghost use Rattle.smp_call_steps.specs.Stages.{ControlValue};

    ghost Value = { ControlValue };

    ghost view = { λ c. record { stage = c.stage; drain = c.drain } };
}

/// Whether both are outside a command, or at the same stage.
fn is_same_stage(one: Option<Stage>, other: Option<Stage>) -> bool
    ensures { result ≡ true ↔ one ≡ other }
{
    match (one, other) {
        (None, None) => true,
        (Some(one), Some(other)) => one.is_same(other),
        _ => false,
    }
}

impl Same for Control {
    fn copy(&self) -> Self {
        Control {
            stage: self.stage,
            drain: self.drain.copy(),
        }
    }

    fn is_same(&self, other: &Self) -> bool {
        is_same_stage(self.stage, other.stage) && self.drain.is_same(&other.drain)
    }
}

impl Control {
    /// A CPU outside a command.
    pub fn new() -> Self
        ensures { result ≡ outside }
    {
        Control {
            stage: None,
            drain: Drain::new(),
        }
    }

    /// The stage; none outside a command.
    pub fn stage(&self) -> Option<Stage>
        ensures { result ≡ self.now.stage }
    {
        self.stage
    }

    /// Begins at a stage, or stays outside where none is given.
    pub fn begin(&mut self, stage: Option<Stage>)
        ensures { self.new ≡ control_at self.old stage }
    {
        self.stage = stage;
    }

    /// Goes on after the step of this stage, by the number that it found, and tells what that means.
    pub fn advance(&mut self, stage: Stage, found: u64) -> Option<Note>
        requires { FitsStage self.old.drain stage found }
        ensures note { result ≡ (outcome_of self.old.drain stage found).note }
        ensures control { self.new ≡ control_after self.old stage found }
    {
        let outcome = match stage {
            Stage::Handle(handle) => self.drain.advance(handle, found),
            Stage::Send(_) => CallOutcome::end(Note::Sent),
            Stage::Done(_) => CallOutcome::end(if found % 2 == 1 {
                Note::Locked
            } else {
                Note::Done
            }),
            Stage::Post(posting, post) => posting.outcome(post, found),
        };
        self.stage = outcome.next;
        outcome.note
    }

    /// The link to the records of the batch that are not reversed yet; 0 where all are.
    pub fn down(&self) -> u64
        ensures { result ≡ down_link self.now.stage }
    {
        match self.stage {
            Some(Stage::Handle(stage)) => stage.down(),
            _ => 0,
        }
    }

    /// The link to those that are, and are left in the chain.
    pub fn up(&self) -> u64
        ensures { result ≡ up_link self.now.stage }
    {
        match self.stage {
            Some(Stage::Handle(stage)) => stage.up(),
            _ => 0,
        }
    }

    /// Whether this record is being reversed, or its call begins next.
    pub fn is_between(&self, id: u32) -> bool
        ensures { result ≡ is_this id (between_of self.now.stage) }
    {
        match self.stage {
            Some(Stage::Handle(stage)) => stage.is_between(id),
            _ => false,
        }
    }

    /// Whether a SYNC call by this record runs.
    pub fn is_running(&self, id: u32) -> bool
        ensures { result ≡ has_record id (running_of self.now.stage) }
    {
        match self.stage {
            Some(Stage::Handle(stage)) => stage.is_running(id),
            _ => false,
        }
    }
}
