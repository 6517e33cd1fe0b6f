//! Where a CPU is inside its command.

ghost use Rattle.std.specs.Prelude.{◌≡◌, ◌↔◌, true};
ghost use Rattle.smp_call_steps.specs.Posts.{go_on, ends};

use crate::handle::HandleStage;
use crate::post::{PostStage, Posting};
use crate::table::read;
use smp_words::access::Access;
use smp_words::seen::Note;
use smp_words::word::Word;

/// The step that a CPU makes next.
#[derive(Clone, Copy, PartialEq, Eq)]
pub enum Stage {
    /// Send an interrupt to this CPU.
    Send(u32),
    /// Load the flags of this record.
    Done(u32),
    /// A step of queueing this call.
    Post(Posting, PostStage),
    /// A step of handling.
    Handle(HandleStage),
}

/// What a step leads to: the stage after it, or none where the command has ended, and its note.
#[derive(Clone, Copy)]
pub struct CallOutcome {
    /// The stage after it.
    pub next: Option<Stage>,
    /// What the step says.
    pub note: Option<Note>,
}

impl CallOutcome {
    pub fn go_on(next: Stage) -> Self
        ensures { result ≡ go_on next }
    {
        CallOutcome {
            next: Some(next),
            note: None,
        }
    }

    pub fn end(note: Note) -> Self
        ensures { result ≡ ends note }
    {
        CallOutcome {
            next: None,
            note: Some(note),
        }
    }
}

ghost use Rattle.std.specs.Prelude.{length};
ghost use Rattle.smp_words.specs.Size.{table_size};
ghost use Rattle.smp_words.specs.Layout.{number_in};
ghost use Rattle.smp_call_steps.specs.Stages.{access_of};

impl Stage {
    /// Whether the two are the same.
    pub fn is_same(self, other: Stage) -> bool
        ensures { result ≡ true ↔ self ≡ other }
    {
        match self {
            Stage::Handle(stage) => match other {
                Stage::Handle(other) => stage.is_same(other),
                _ => false,
            },
            Stage::Send(_) => self == other,
            Stage::Done(_) => self == other,
            Stage::Post(posting, stage) => match other {
                Stage::Post(other, at) => posting == other && stage == at,
                _ => false,
            },
        }
    }

    /// The access that is made next.
    pub fn access(self, words: &[u64], me: u32) -> Access
        requires { length words.now ≡ table_size }
        ensures { result ≡ access_of (number_in words.now) me self }
    {
        match self {
            Stage::Send(to) => Access::Store(Word::Intr(to), 1),
            Stage::Done(id) => Access::Load(Word::Flags(id)),
            Stage::Post(posting, stage) => posting.access(
                me,
                stage,
                read(words, Word::Queued(me, posting.to)),
            ),
            Stage::Handle(stage) => stage.access(me, read(words, Word::Ran(me, stage.source()))),
        }
    }
}
