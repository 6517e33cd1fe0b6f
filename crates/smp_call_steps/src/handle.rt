//! Handling: a CPU takes its interrupt and, where there was one, its whole queue, and runs it
//! (`kernel/smp.c: __flush_smp_call_function_queue`).
//!
//! The chain is reversed in place, by its next words, so that it leads from the oldest call to the newest. The first
//! pass runs the SYNC calls, each unlinked from the chain and loaded before its function runs, and unlocked after it;
//! the second runs the ASYNC calls that are left, each loaded, unlocked and then called.

ghost use Rattle.std.specs.Prelude.{◌≡◌, ◌↔◌, true, ◌+◌, ◌%◌, ◌^◌, ◌<◌};
ghost use Rattle.smp_words.specs.Size.{owner};
ghost use Rattle.smp_call_steps.specs.Drains.{handle_access, source_at, link_to};
ghost use Rattle.smp_call_steps.specs.Batches.{has_record, down_at, up_at, between_at, is_this, running_at};

use smp_words::access::Access;
use smp_words::call::{Call, Class};
use smp_words::size::owner_of;
use smp_words::word::Word;

/// Where the first pass is in its chain.
#[derive(Clone, Copy, PartialEq, Eq)]
pub struct Walk {
    /// The first record that is left in the chain.
    pub first: Option<u32>,
    /// The last ASYNC record that was passed.
    pub last: Option<u32>,
}

/// The next step of `handle`. `next` is the record to which a record leads, and `call` a call that is loaded.
#[derive(Clone, Copy, PartialEq, Eq)]
pub enum HandleStage {
    /// Store 1 in the handling word.
    Enter,
    /// Swap the interrupt word with 0.
    Accept,
    /// There was no interrupt: store 0 in the handling word.
    LeaveIdle,
    /// Swap the head with 0.
    Take,
    /// Load the link of the newest record that is not reversed yet.
    ReverseLoad {
        newer: Option<u32>,
        id: u32,
    },
    /// Link it to the record after it.
    ReverseStore {
        newer: Option<u32>,
        id: u32,
        older: Option<u32>,
    },
    /// The first pass: load the link to the record after this one.
    LoadNext {
        walk: Walk,
        id: u32,
    },
    /// Load the record's flags, which have its class.
    LoadFlags {
        walk: Walk,
        id: u32,
        next: Option<u32>,
    },
    /// Load the function of a SYNC call.
    LoadFunc {
        walk: Walk,
        id: u32,
        next: Option<u32>,
    },
    /// Load its info.
    LoadInfo {
        walk: Walk,
        id: u32,
        next: Option<u32>,
        func: u16,
    },
    /// Link the last ASYNC record that was passed to the record after this SYNC call's.
    Unlink {
        walk: Walk,
        last: u32,
        call: Call,
        next: Option<u32>,
    },
    /// Store the record + 2 in the handling word; the function runs after this step.
    BeginSync {
        walk: Walk,
        call: Call,
        next: Option<u32>,
    },
    /// Store one more in the tally of calls from its source, once its function has run.
    CountSync {
        walk: Walk,
        call: Call,
        next: Option<u32>,
    },
    /// Unlock the record of a SYNC call that has run.
    EndSync {
        walk: Walk,
        call: Call,
        next: Option<u32>,
    },
    /// The second pass: load the link to the record after this one.
    AsyncNext {
        id: u32,
    },
    /// Load the function of an ASYNC call.
    AsyncFunc {
        id: u32,
        next: Option<u32>,
    },
    /// Load its info.
    AsyncInfo {
        id: u32,
        next: Option<u32>,
        func: u16,
    },
    /// Unlock the record of an ASYNC call; the function runs after this step.
    BeginAsync {
        call: Call,
        next: Option<u32>,
    },
    /// Store one more in the tally of calls from its source, once its function has run.
    CountAsync {
        call: Call,
        next: Option<u32>,
    },
    /// All has run: store 0 in the handling word.
    Leave,
}

/// Whether two stages of the first pass have the same walk, SYNC call and next record.
fn is_same_sync(one: (Walk, Call, Option<u32>), other: (Walk, Call, Option<u32>)) -> bool
    ensures { result ≡ true ↔ one ≡ other }
{
    one.0 == other.0 && one.1 == other.1 && one.2 == other.2
}

impl HandleStage {
    /// Whether the two are the same. Most arms are the derived comparison, of a variant that is known: so a proof looks
    /// at 22 pairs for each, and not at all of them at once.
    pub fn is_same(self, other: HandleStage) -> bool
        ensures { result ≡ true ↔ self ≡ other }
    {
        match self {
            HandleStage::Enter => self == other,
            HandleStage::Accept => self == other,
            HandleStage::LeaveIdle => self == other,
            HandleStage::Take => self == other,
            HandleStage::ReverseLoad { .. } => self == other,
            HandleStage::ReverseStore { .. } => self == other,
            HandleStage::LoadNext { .. } => self == other,
            HandleStage::LoadFlags { .. } => self == other,
            HandleStage::LoadFunc { .. } => self == other,
            HandleStage::LoadInfo { .. } => self == other,
            HandleStage::Unlink {
                walk,
                last,
                call,
                next,
            } => match other {
                HandleStage::Unlink {
                    walk: w,
                    last: l,
                    call: c,
                    next: n,
                } => last == l && is_same_sync((walk, call, next), (w, c, n)),
                _ => false,
            },
            HandleStage::BeginSync { walk, call, next } => match other {
                HandleStage::BeginSync {
                    walk: w,
                    call: c,
                    next: n,
                } => is_same_sync((walk, call, next), (w, c, n)),
                _ => false,
            },
            HandleStage::CountSync { walk, call, next } => match other {
                HandleStage::CountSync {
                    walk: w,
                    call: c,
                    next: n,
                } => is_same_sync((walk, call, next), (w, c, n)),
                _ => false,
            },
            HandleStage::EndSync { walk, call, next } => match other {
                HandleStage::EndSync {
                    walk: w,
                    call: c,
                    next: n,
                } => is_same_sync((walk, call, next), (w, c, n)),
                _ => false,
            },
            HandleStage::AsyncNext { .. } => self == other,
            HandleStage::AsyncFunc { .. } => self == other,
            HandleStage::AsyncInfo { .. } => self == other,
            HandleStage::BeginAsync { .. } => self == other,
            HandleStage::CountAsync { .. } => self == other,
            HandleStage::Leave => self == other,
        }
    }

    /// The next access; `ran` is the number in the word that counts the calls of this call's source.
    pub fn access(self, me: u32, ran: u64) -> Access
        ensures { result ≡ handle_access me self ran }
    {
        match self {
            HandleStage::Enter => Access::Store(Word::Hand(me), 1),
            HandleStage::Accept => Access::Swap(Word::Intr(me), 0),
            HandleStage::LeaveIdle => Access::Store(Word::Hand(me), 0),
            HandleStage::Take => Access::Swap(Word::Head(me), 0),
            HandleStage::ReverseLoad { id, .. } => Access::Load(Word::Next(id)),
            HandleStage::ReverseStore { newer, id, .. } => {
                Access::Store(Word::Next(id), link_of(newer))
            }
            HandleStage::LoadNext { id, .. } => Access::Load(Word::Next(id)),
            HandleStage::LoadFlags { id, .. } => Access::Load(Word::Flags(id)),
            HandleStage::LoadFunc { id, .. } => Access::Load(Word::Func(id)),
            HandleStage::LoadInfo { id, .. } => Access::Load(Word::Info(id)),
            HandleStage::Unlink { last, next, .. } => {
                Access::Store(Word::Next(last), link_of(next))
            }
            HandleStage::BeginSync { call, .. } => {
                Access::Store(Word::Hand(me), call.id as u64 + 2)
            }
            HandleStage::CountSync { call, .. } => count(me, call, ran),
            HandleStage::EndSync { call, .. } => Access::Store(Word::Flags(call.id), 0),
            HandleStage::AsyncNext { id } => Access::Load(Word::Next(id)),
            HandleStage::AsyncFunc { id, .. } => Access::Load(Word::Func(id)),
            HandleStage::AsyncInfo { id, .. } => Access::Load(Word::Info(id)),
            HandleStage::BeginAsync { call, .. } => Access::Store(Word::Flags(call.id), 0),
            HandleStage::CountAsync { call, .. } => count(me, call, ran),
            HandleStage::Leave => Access::Store(Word::Hand(me), 0),
        }
    }

    /// The source of the call that this stage counts; 0 where it counts none.
    pub fn source(self) -> u32
        ensures { result ≡ source_at self }
    {
        match self {
            HandleStage::CountSync { call, .. } => owner_of(call.id),
            HandleStage::CountAsync { call, .. } => owner_of(call.id),
            _ => 0,
        }
    }

    /// The link to the records of the batch that are not reversed yet; 0 where all are.
    pub fn down(self) -> u64
        ensures { result ≡ down_at self }
    {
        match self {
            HandleStage::ReverseLoad { id, .. } => id as u64 + 1,
            HandleStage::ReverseStore { older, .. } => link_of(older),
            _ => 0,
        }
    }

    /// The link to those that are, and are left in the chain.
    pub fn up(self) -> u64
        ensures { result ≡ up_at self }
    {
        match self {
            HandleStage::ReverseLoad { newer, .. } => link_of(newer),
            HandleStage::ReverseStore { newer, .. } => link_of(newer),
            HandleStage::LoadNext { walk, .. } => link_of(walk.first),
            HandleStage::LoadFlags { walk, .. } => link_of(walk.first),
            HandleStage::LoadFunc { walk, .. } => link_of(walk.first),
            HandleStage::LoadInfo { walk, .. } => link_of(walk.first),
            HandleStage::Unlink { walk, .. } => link_of(walk.first),
            HandleStage::BeginSync { walk, .. } => link_of(walk.first),
            HandleStage::CountSync { walk, .. } => link_of(walk.first),
            HandleStage::EndSync { walk, .. } => link_of(walk.first),
            HandleStage::AsyncNext { id } => id as u64 + 1,
            HandleStage::AsyncFunc { id, .. } => id as u64 + 1,
            HandleStage::AsyncInfo { id, .. } => id as u64 + 1,
            HandleStage::BeginAsync { next, .. } => link_of(next),
            HandleStage::CountAsync { next, .. } => link_of(next),
            _ => 0,
        }
    }

    /// Whether this record is being reversed, or its call begins next.
    pub fn is_between(self, id: u32) -> bool
        ensures { result ≡ is_this id (between_at self) }
    {
        match self {
            HandleStage::ReverseStore { id: reversed, .. } => reversed == id,
            HandleStage::BeginSync { call, .. } => call.id == id,
            HandleStage::BeginAsync { call, .. } => call.id == id,
            _ => false,
        }
    }

    /// Whether the SYNC call that runs is by this record.
    pub fn is_running(self, id: u32) -> bool
        ensures { result ≡ has_record id (running_at self) }
    {
        match self {
            HandleStage::CountSync { call, .. } => call.id == id,
            HandleStage::EndSync { call, .. } => call.id == id,
            _ => false,
        }
    }
}

/// The link to a record, 0 where there is none.
pub fn link_of(to: Option<u32>) -> u64
    ensures { result ≡ link_to to }
{
    match to {
        Some(id) => id as u64 + 1,
        None => 0,
    }
}

fn count(me: u32, call: Call, ran: u64) -> Access
    ensures { result ≡ Access.Store (Word.Ran me (owner call.id)) ((ran + 1) % 2 ^ 64) }
{
    Access::Store(Word::Ran(me, owner_of(call.id)), ran.wrapping_add(1))
}
