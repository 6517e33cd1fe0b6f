//! What a CPU does to which word, at each stage of the stop half.

ghost use Rattle.std.specs.Prelude.{◌≡◌, ◌<◌};
ghost use Rattle.smp_words.specs.Size.{cpus};
ghost use Rattle.smp_stop_steps.specs.Slots.{begun_value as value_of_begin};
ghost use Rattle.smp_stop_steps.specs.Stages.{completion_access as access_of_completion};
ghost use Rattle.smp_stop_steps.specs.Stages.{round_access as access_of_round, stop_access, store_of, FitsAccess};

use crate::control::StopControl;
use crate::mask::{mask_word, weight};
use crate::stage::{CompletionStage, RoundStage, StopStage, Visit};
use smp_labels::Place;
use smp_words::access::Access;
use smp_words::field::Field;
use smp_words::word::Word;
use smp_words::work::{Kind, Work};

impl StopStage {
    /// The access that is made next.
    pub fn access(self, me: u32, control: &StopControl) -> Access
        requires cpu { me < 64 }
        requires fits { FitsAccess control.now self }
        ensures { result ≡ stop_access cpus me control.now.changes self }
    {
        match self {
            StopStage::TakeGate => Access::Exchange(Word::Gate, 0, u64::from(me) + 1),
            StopStage::OpenGate => Access::Store(Word::Gate, 0),
            StopStage::Begin(work, field) => {
                Access::Store(Word::Slot(me, field), begun_value(work, field))
            }
            StopStage::Enter(slot) => Access::And(Word::Slot(slot, Field::Roll), !(1 << me)),
            StopStage::EnterKind(slot) => Access::Load(Word::Slot(slot, Field::Kind)),
            StopStage::EnterMask(slot, _) => Access::Load(Word::Slot(slot, Field::Mask)),
            StopStage::EnterActive(slot, _, _) => Access::Load(Word::Slot(slot, Field::Active)),
            StopStage::Advance(visit, round) => round_access(visit, round, control),
            StopStage::Complete(visit, completion) => completion_access(visit, completion),
            StopStage::Close(slot) => Access::Store(Word::Slot(slot, Field::Done), 1),
            StopStage::LoadDone => Access::Load(Word::Slot(me, Field::Done)),
            StopStage::LoadResult => Access::Load(Word::Slot(me, Field::Result)),
            StopStage::ReadKey(key) => Access::Load(Word::Key(key)),
            StopStage::ReadSite(site) => Access::Load(Word::Site(site)),
            StopStage::NudgeKey(key, _) => Access::Load(Word::Key(key)),
            StopStage::ExchangeKey(key, expected, new) => {
                Access::Exchange(Word::Key(key), expected, new)
            }
        }
    }
}

fn round_access(visit: Visit, stage: RoundStage, control: &StopControl) -> Access
    requires { FitsAccess control.now (StopStage.Advance visit stage) }
    ensures { result ≡ access_of_round cpus control.now.changes visit stage }
{
    let slot = visit.slot;
    match stage {
        RoundStage::Look { answer: _ } => Access::Load(Word::Slot(slot, Field::State)),
        RoundStage::LoadFunc { answer: _ } => Access::Load(Word::Slot(slot, Field::Func)),
        RoundStage::LoadArg { answer: _, func: _ } => { Access::Load(Word::Slot(slot, Field::Arg)) }
        RoundStage::LoadKey { key, change: _ } => Access::Load(Word::Key(u32::from(key))),
        RoundStage::LoadEntry {
            key: _,
            word: _,
            site,
        } => Access::Load(Word::Entry(site)),
        RoundStage::StoreChange { made } => store(control.change(made)),
        RoundStage::Acknowledge { answer: _, ran: _ } => {
            Access::Sub(Word::Slot(slot, Field::Ack))
        }
        RoundStage::Refill { ran: _ } => {
            Access::Store(Word::Slot(slot, Field::Ack), weight(visit.mask))
        }
        RoundStage::Raise { ran: _ } => {
            Access::Store(Word::Slot(slot, Field::State), u64::from(visit.acked) + 1)
        }
    }
}

fn completion_access(visit: Visit, stage: CompletionStage) -> Access
    ensures { result ≡ access_of_completion visit stage }
{
    let slot = visit.slot;
    match stage {
        CompletionStage::LoadFunc { answer: _ } => Access::Load(Word::Slot(slot, Field::Func)),
        CompletionStage::LoadArg { answer: _, func: _ } => {
            Access::Load(Word::Slot(slot, Field::Arg))
        }
        CompletionStage::StoreAnswer => Access::Store(
            Word::Slot(slot, Field::Result),
            visit.answer,
        ),
        CompletionStage::CountDown => Access::Sub(Word::Slot(slot, Field::Todo)),
    }
}

/// A store of a patch.
fn store(change: (Place, u64)) -> Access
    ensures { result ≡ store_of change }
{
    match change.0 {
        Place::Key(key) => Access::Store(Word::Key(key), change.1),
        Place::Site(site) => Access::Store(Word::Site(site), change.1),
    }
}

/// What begin stores in a field.
pub fn begun_value(work: Work, field: Field) -> u64
    ensures { result ≡ value_of_begin cpus work field }
{
    match field {
        Field::Kind => work.kind.word(),
        Field::Mask | Field::Roll => mask_word(work.mask),
        Field::Active => mask_word(work.active),
        Field::Func => u64::from(work.func),
        Field::Arg => work.arg,
        Field::Todo | Field::Ack => weight(mask_word(work.mask)),
        Field::State => u64::from(work.kind != Kind::One),
        Field::Result | Field::Done => 0,
    }
}
