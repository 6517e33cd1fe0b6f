//! Posting: a CPU queues one call by a record of its own (`kernel/smp.c: generic_exec_single`,
//! `lib/llist.c: llist_add_batch`).
//!
//! The record is locked and written before it is linked, and linked by one compare-exchange of the head: so
//! whoever takes the queue finds every record in it complete.

ghost use Rattle.std.specs.Prelude.{◌≡◌};
ghost use Rattle.smp_call_steps.specs.Posts.{post_access, post_outcome, goes_to};

use crate::stage::{CallOutcome, Stage};
use smp_words::access::Access;
use smp_words::call::Class;
use smp_words::seen::Note;
use smp_words::word::Word;

/// The call that a `post` is queueing.
#[derive(Clone, Copy, PartialEq, Eq)]
pub struct Posting {
    /// The record.
    pub id: u32,
    /// The CPU that it is for.
    pub to: u32,
    /// Whether that CPU is online.
    pub is_online: bool,
    /// When the record is unlocked: after the function has run, or before.
    pub class: Class,
    /// The function's number.
    pub func: u16,
    /// What the function is told.
    pub info: u64,
    /// How many compare-exchanges may be tried.
    pub tries: u32,
}

/// The next step of a `post`. `link` is what was found in the head last, `tries` how many
/// compare-exchanges are left.
#[derive(Clone, Copy, PartialEq, Eq)]
pub enum PostStage {
    /// Load the record's flags.
    LoadFlags,
    /// Store LOCK and the class in them.
    Lock,
    /// Store the function in the record.
    StoreFunc,
    /// Store its info there.
    StoreInfo,
    /// Store one more in the tally of calls to that CPU.
    Count,
    /// Load that CPU's head.
    LoadHead,
    /// Link the record to what was found.
    StoreNext { link: u64, tries: u32 },
    /// Exchange the head for the record, where it is that number still.
    Exchange { link: u64, tries: u32 },
    /// All tries are lost: store one less in the tally.
    Uncount,
    /// Unlock the record.
    Release,
}

impl Posting {
    /// The next access; `queued` is the number in the word that counts the calls to this destination.
    pub fn access(&self, me: u32, stage: PostStage, queued: u64) -> Access
        ensures { result ≡ post_access self.now me stage queued }
    {
        let id = self.id;
        match stage {
            PostStage::LoadFlags => Access::Load(Word::Flags(id)),
            PostStage::Lock => Access::Store(Word::Flags(id), self.class.flags()),
            PostStage::StoreFunc => Access::Store(Word::Func(id), self.func as u64),
            PostStage::StoreInfo => Access::Store(Word::Info(id), self.info),
            PostStage::Count => Access::Store(Word::Queued(me, self.to), queued.wrapping_add(1)),
            PostStage::LoadHead => Access::Load(Word::Head(self.to)),
            PostStage::StoreNext { link, tries: _ } => Access::Store(Word::Next(id), link),
            PostStage::Exchange { link, tries: _ } => {
                Access::Exchange(Word::Head(self.to), link, id as u64 + 1)
            }
            PostStage::Uncount => Access::Store(Word::Queued(me, self.to), queued.wrapping_sub(1)),
            PostStage::Release => Access::Store(Word::Flags(id), 0),
        }
    }

    /// What follows when a step at this stage found this number.
    pub fn outcome(self, stage: PostStage, found: u64) -> CallOutcome
        ensures { result ≡ post_outcome self stage found }
    {
        match stage {
            PostStage::LoadFlags => {
                if found % 2 == 1 {
                    CallOutcome::end(Note::Busy)
                } else if !self.is_online {
                    CallOutcome::end(Note::NoCpu)
                } else {
                    self.at(PostStage::Lock)
                }
            }
            PostStage::Lock => self.at(PostStage::StoreFunc),
            PostStage::StoreFunc => self.at(PostStage::StoreInfo),
            PostStage::StoreInfo => self.at(PostStage::Count),
            PostStage::Count => self.at(PostStage::LoadHead),
            PostStage::LoadHead => self.at(PostStage::StoreNext {
                link: found,
                tries: self.tries,
            }),
            PostStage::StoreNext { link, tries } => self.at(PostStage::Exchange { link, tries }),
            PostStage::Exchange { link, tries } => {
                if found == link {
                    CallOutcome::end(if link == 0 { Note::Owed } else { Note::Queued })
                } else if tries > 1 {
                    self.at(PostStage::StoreNext {
                        link: found,
                        tries: tries - 1,
                    })
                } else {
                    self.at(PostStage::Uncount)
                }
            }
            PostStage::Uncount => self.at(PostStage::Release),
            PostStage::Release => CallOutcome::end(Note::Contended),
        }
    }

    fn at(self, stage: PostStage) -> CallOutcome
        ensures { result ≡ goes_to self stage }
    {
        CallOutcome::go_on(Stage::Post(self, stage))
    }
}
