//! The steps of a post (`kernel/smp.c: generic_exec_single`, `lib/llist.c: llist_add_batch`).
//!
//! A record is written before it is linked, and linked by one compare-exchange of the head. So the CPU that takes the
//! queue finds every record in it complete.

ghost use Rattle.std.specs.Prelude.{◌≡◌, ◌≢◌, ◌+◌, ◌*◌, ◌<◌, ◌%◌, ◌^◌, ◌==◌, true, length, if◌then◌else◌, IfSome, IfNone, Some, None};
ghost use Rattle.smp_words.specs.Size.{records};
ghost use Rattle.smp_mask.specs.Mask.{has};
ghost use Rattle.smp_call_steps.specs.Stands.{posted};
ghost use Rattle.smp_call_steps.specs.Threads.Known.{confirmed_known, queued_known, outside_known, looked_known, lost_one, stepped, is_confirmed};
ghost use Rattle.smp_call_steps.specs.Threads.Known.{standing, Lives};
ghost use Rattle.smp_call_steps.specs.declared.post.PostStage.TheVariants as post;
ghost use Rattle.smp_call_steps.specs.declared.stage.Stage.TheVariants.{Post};
ghost use Rattle.smp_queue.specs.Seat.{OwnsRecord, IsMine, IsCounting, IsTallied, uncounted, counted};
ghost use Rattle.smp_queue.specs.Appends.{Appends, GivesUp};
ghost use Rattle.smp_call_steps.specs.Threads.Heads.{Found, times_lost};

use crate::seat::{CallSeat, SharedCallWords, exchange, load, store};
use crossbeam_utils::Backoff;
use smp_call_steps::post::Posting;
use smp_words::Word;
use std::sync::Wait;

/// The CPU that posts: its number, and how many calls it has queued for the destination, modulo 2^64.
#[derive(Clone, Copy)]
pub(crate) struct Sender {
    pub(crate) number: u32,
    pub(crate) queued: u64,
}

/// Whether the record is locked. It makes one step; a record that is not locked is confirmed.
pub(crate) fn is_locked(words: SharedCallWords, seat: &mut CallSeat, id: u32) -> bool
    requires at { OwnsRecord words.shared.now.table_id seat.old id }
    requires outside { seat.old.known.stage ≡ None }
    ensures table { seat.new.table ≡ words.entry.shared.now.table_id }
    ensures lives { Lives seat.new.known }
    ensures known { seat.new.known ≡ stepped 1 (if result then seat.old.known else confirmed_known id seat.old.known) }
    ensures locked { result ≡ true → is_confirmed seat.old.known id ≢ true }
{
    load(words, seat, Word::Flags(id)) % 2 == 1
}

/// Locks the record, and writes the call into it.
pub(crate) fn write_record(words: SharedCallWords, seat: &mut CallSeat, posting: &Posting)
    requires mine { IsMine words.shared.now.table_id seat.old posting.now }
    requires outside { seat.old.known.stage ≡ None }
    requires free { is_confirmed seat.old.known posting.now.id ≡ true }
    ensures table { seat.new.table ≡ words.entry.shared.now.table_id }
    ensures known { seat.new.known ≡ standing (uncounted posting.now) post.Count (stepped 3 seat.old.known) }
{
    let id = posting.id;
    store(words, seat, Word::Flags(id), posting.class.flags());
    store(words, seat, Word::Func(id), posting.func as u64);
    store(words, seat, Word::Info(id), posting.info);
}

/// Counts the call, and finds the head of its destination.
pub(crate) fn count_and_look(
    words: SharedCallWords,
    seat: &mut CallSeat,
    posting: &Posting,
    sender: Sender,
) -> u64
    requires mine { IsMine words.shared.now.table_id seat.old posting.now }
    requires counting { IsCounting seat.old.known posting.now sender.number sender.queued }
    ensures table { seat.new.table ≡ words.entry.shared.now.table_id }
    ensures known { seat.new.known ≡ standing (counted posting.now) post.LoadHead (looked_known result seat.old.known) }
{
    store(
        words,
        seat,
        Word::Queued(sender.number, posting.to),
        sender.queued.wrapping_add(1),
    );
    load(words, seat, Word::Head(posting.to))
}

/// Links the record to what was found last, and tries to put it into the head: what was found there. It is
/// queued where that is the same.
pub(crate) fn link(words: SharedCallWords, seat: &mut CallSeat, posting: &Posting, link: u64) -> u64
    requires mine { IsMine words.shared.now.table_id seat.old posting.now }
    requires online { has words.shared.now.key.online posting.now.to ≡ true }
    requires stage { seat.old.known.stage ≡ Some (Post (counted posting.now) post.LoadHead) }
    ensures table { seat.new.table ≡ words.entry.shared.now.table_id }
    ensures lives { Lives seat.new.known }
    ensures won { result ≡ link → seat.new.known ≡ queued_known (posted posting.now) posting.now.to (link == 0) link seat.old.known }
    ensures lost { result ≢ link → seat.new.known ≡ lost_one link result seat.old.known }
{
    store(words, seat, Word::Next(posting.id), link);
    exchange(
        words,
        seat,
        Word::Head(posting.to),
        link,
        posting.id as u64 + 1,
    )
}

/// Takes the count back, and unlocks the record.
pub(crate) fn give_up(
    words: SharedCallWords,
    seat: &mut CallSeat,
    posting: &Posting,
    sender: Sender,
)
    requires mine { IsMine words.shared.now.table_id seat.old posting.now }
    requires stage { seat.old.known.stage ≡ Some (Post (counted posting.now) post.LoadHead) }
    requires counted { IsTallied seat.old.known posting.now sender.number sender.queued }
    ensures table { seat.new.table ≡ words.entry.shared.now.table_id }
    ensures lives { Lives seat.new.known }
    ensures known { seat.new.known ≡ outside_known (stepped 2 seat.old.known) }
{
    store(
        words,
        seat,
        Word::Queued(sender.number, posting.to),
        sender.queued,
    );
    store(words, seat, Word::Flags(posting.id), 0);
}

/// Appends the call to the queue of its destination: whether that was empty. None where the tries are used up,
/// and the record is unlocked again.
pub(crate) fn append(
    words: SharedCallWords,
    seat: &mut CallSeat,
    posting: &Posting,
    sender: Sender,
    tries: u32,
) -> Option<bool>
    requires mine { IsMine words.shared.now.table_id seat.old posting.now }
    requires online { has words.shared.now.key.online posting.now.to ≡ true }
    requires counting { IsCounting seat.old.known posting.now sender.number sender.queued }
    ensures table { seat.new.table ≡ words.entry.shared.now.table_id }
    ensures lives { Lives seat.new.known }
    ensures sent { IfSome result (λ first. (found : Found) × (times_lost found < tries) × Appends posting.now first found seat.old.known seat.new.known) }
    ensures lost { IfNone result ((found : Found) × (times_lost found ≡ tries) × GivesUp found seat.old.known seat.new.known) }
{
    let mut head = count_and_look(words, seat, posting, sender);
    for _lost in 0..tries {
        let found = link(words, seat, posting, head);
        if found == head {
            return Some(head == 0);
        }
        head = found;
    }
    give_up(words, seat, posting, sender);
    None
}

/// Appends the call to the queue of its destination: whether that was empty. It tries until it wins, and pauses
/// between two tries.
pub(crate) fn append_until_won<R: Wait>(
    rt: &R,
    words: SharedCallWords,
    seat: &mut CallSeat,
    posting: &Posting,
    sender: Sender,
) -> bool
    requires mine { IsMine words.shared.now.table_id seat.old posting.now }
    requires online { has words.shared.now.key.online posting.now.to ≡ true }
    requires counting { IsCounting seat.old.known posting.now sender.number sender.queued }
    ensures table { seat.new.table ≡ words.entry.shared.now.table_id }
    ensures lives { Lives seat.new.known }
    ensures sent { (found : Found) × Appends posting.now result found seat.old.known seat.new.known }
{
    let backoff = Backoff::new();
    let mut head = count_and_look(words, seat, posting, sender);
    for _ in rt.forever() {
        let found = link(words, seat, posting, head);
        if found == head {
            return head == 0;
        }
        head = found;
        backoff.snooze();
    }
    unreachable!()
}
