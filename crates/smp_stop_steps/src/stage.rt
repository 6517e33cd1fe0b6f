//! Where a CPU is inside a command of the stop half.

ghost use Rattle.std.specs.Prelude.{◌≡◌, ◌≤◌, ◌↔◌, true};
ghost use Rattle.smp_stop_steps.specs.Stages.{completes_from, visit_acked};

use smp_labels::Change;
use smp_words::field::Field;
use smp_words::phase::RUN;
use smp_words::work::{Kind, Work};

/// What a CPU has loaded of the stop that it is in, and how far it is with it.
#[derive(Clone, Copy, PartialEq, Eq)]
pub struct Visit {
    /// The source whose stop it is.
    pub slot: u32,
    pub kind: Kind,
    /// The CPUs of the stop: bit c for CPU c.
    pub mask: u64,
    /// Those that call the function: bit c for CPU c.
    pub active: u64,
    /// The last phase that this CPU has acknowledged (`curstate` of `multi_cpu_stop`).
    pub acked: u32,
    /// What its function has answered, as the result word has it; 0 before, and where it calls none.
    pub answer: u64,
}

impl Visit {
    /// The visit once the next phase is acknowledged, with the function's answer where it has run.
    pub fn acknowledged(self, answer: u64, ran: bool) -> Visit
        requires { self.acked ≤ RUN }
        ensures { result ≡ visit_acked self answer ran }
    {
        Visit {
            acked: self.acked + 1,
            answer: if ran { answer } else { self.answer },
            ..self
        }
    }

    /// The first step of a completion with the visit's answer.
    pub fn completion(self) -> CompletionStage
        ensures { result ≡ completes_from self }
    {
        if self.answer == 0 {
            CompletionStage::CountDown
        } else {
            CompletionStage::StoreAnswer
        }
    }
}

/// The next step of one turn of `multi_cpu_stop`. `answer` is what the function will answer, `ran` whether the
/// CPU has called it in this turn.
#[derive(Clone, Copy, PartialEq, Eq)]
pub enum RoundStage {
    /// Load the phase.
    Look { answer: u64 },
    /// At `RUN` an active CPU loads its function.
    LoadFunc { answer: u64 },
    /// Load its argument; the function of a Multi stop runs after this step.
    LoadArg { answer: u64, func: u16 },
    /// Load the count of the key that a patch changes.
    LoadKey { key: u16, change: Change },
    /// Load the entry of this site; `word` is the key's new count.
    LoadEntry { key: u16, word: u64, site: u32 },
    /// Make the next store of the patch, after this number of them.
    StoreChange { made: u32 },
    /// Take 1 from the count of acknowledgements (`ack_state`).
    Acknowledge { answer: u64, ran: bool },
    /// As the last, fill the count again (`set_state`).
    Refill { ran: bool },
    /// Store the next phase.
    Raise { ran: bool },
}

/// The next step of `cpu_stop_signal_done`, and before it of the function of a stop of one CPU.
#[derive(Clone, Copy, PartialEq, Eq)]
pub enum CompletionStage {
    /// Load the function of a stop of one CPU.
    LoadFunc { answer: u64 },
    /// Load its argument; the function runs after this step.
    LoadArg { answer: u64, func: u16 },
    /// Store an answer that is not 0.
    StoreAnswer,
    /// Take 1 from the count of those that have not completed.
    CountDown,
}

/// The step that a CPU makes next.
#[derive(Clone, Copy, PartialEq, Eq)]
pub enum StopStage {
    /// Put the own number + 1 in the gate, where it is 0.
    TakeGate,
    /// Store 0 in the gate.
    OpenGate,
    /// Store this field of the own slot.
    Begin(Work, Field),
    /// Take the own bit from the roll of this slot.
    Enter(u32),
    EnterKind(u32),
    EnterMask(u32, Kind),
    EnterActive(u32, Kind, u64),
    Advance(Visit, RoundStage),
    Complete(Visit, CompletionStage),
    /// As the last of all, store done in this slot.
    Close(u32),
    /// Load done of the own slot.
    LoadDone,
    /// Load the result of the own slot.
    LoadResult,
    ReadKey(u32),
    ReadSite(u32),
    /// Load the count of a key that is to go up or down by one.
    NudgeKey(u32, bool),
    /// Put the second count in the key's word, where it is the first.
    ExchangeKey(u32, u64, u64),
}

impl StopStage {
    /// Whether the two are the same. Each arm compares a variant that is known: so a proof looks at 16 pairs for each, and
    /// not at all of them at once.
    pub fn is_same(self, other: StopStage) -> bool
        ensures { result ≡ true ↔ self ≡ other }
    {
        match self {
            StopStage::TakeGate => self == other,
            StopStage::OpenGate => self == other,
            StopStage::Begin(work, field) => match other {
                StopStage::Begin(w, f) => work == w && field == f,
                _ => false,
            },
            StopStage::Enter(_) => self == other,
            StopStage::EnterKind(_) => self == other,
            StopStage::EnterMask(_, _) => self == other,
            StopStage::EnterActive(_, _, _) => self == other,
            StopStage::Advance(visit, stage) => match other {
                StopStage::Advance(v, s) => visit == v && stage == s,
                _ => false,
            },
            StopStage::Complete(visit, stage) => match other {
                StopStage::Complete(v, s) => visit == v && stage == s,
                _ => false,
            },
            StopStage::Close(_) => self == other,
            StopStage::LoadDone => self == other,
            StopStage::LoadResult => self == other,
            StopStage::ReadKey(_) => self == other,
            StopStage::ReadSite(_) => self == other,
            StopStage::NudgeKey(_, _) => self == other,
            StopStage::ExchangeKey(_, _, _) => self == other,
        }
    }
}
