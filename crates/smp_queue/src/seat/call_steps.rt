//! The steps round the function of a call. `begin_call` begins it: the handling word names the record of a SYNC call, and
//! the record of an ASYNC call is unlocked. `end_call` counts it and unlocks the record of a SYNC call. The function runs
//! between the two, and this page does not call it.
//!
//! A beginning gives a token of that call, which has the handler as it was then. A step that counts or ends a call is
//! public: it is lent a handler and shows the token, and it asks that the call has led that handler from what it was to
//! what it is. No other page can make a token, and so none can count or end a call that has not begun: what steps is
//! private to the page of the seats, whose own store asks that no call begins, is counted or ends by it.

ghost use Rattle.std.specs.Prelude.{◌≡◌, ◌+◌, ◌%◌, ◌^◌, ◌<◌, Some, None, length, slice_index_or, slice_set};
ghost use Rattle.smp_words.specs.Size.{owner, records};
ghost use Rattle.smp_call_steps.specs.Drains.{first_on, second_on};
ghost use Rattle.smp_call_steps.specs.Threads.Known.{ran_tally};
ghost use Rattle.smp_call_steps.specs.Threads.Handling.{begun_sync, counted_sync, begun_async, ended_call};
ghost use Rattle.smp_words.specs.declared.word.Word.TheVariants.{Hand, Ran, Flags};
ghost use Rattle.smp_call_steps.specs.declared.handle.HandleStage.TheVariants as handle;
ghost use Rattle.smp_queue.specs.Seat.{InHandle};
ghost use Rattle.smp_queue.specs.Rule.{SeatInvariant};
ghost use Rattle.smp_queue.specs.Handling.{heard_of, AreRan};
ghost use Rattle.smp_queue.specs.Serving.{Gives, begins_at, out_at, goes_from};
ghost use Rattle.smp_queue.specs.declared.run.Pass.TheVariants.{First, Second};

use super::access::{CallSeat, SharedCallWords, store_in_call};
use crate::handler::Handler;
use crate::noted::Noted;
use crate::run::{Pass, Place};
use smp_call_steps::handle::Walk;
use smp_words::call::Class;
use smp_words::size::owner_of;
use smp_words::{Call, Word};

/// The token of a call that has begun: the call, and the handler as it was then.
#[derive(Drop)]
pub struct Begun<H> {
    call: Noted<Call>,
    before: Noted<H>,
}

/// A SYNC call of a batch: where the first pass is in its chain, and where it goes on.
#[derive(Clone, Copy)]
pub struct SyncPlace {
    walk: Walk,
    call: Call,
    next: Option<u32>,
}

/// An ASYNC call of a batch, and where the second pass goes on.
#[derive(Clone, Copy)]
pub struct AsyncPlace {
    call: Call,
    next: Option<u32>,
}

/// A call whose function has returned: where it stands in its batch, its token, and the handler that has heard it.
#[derive(Drop)]
pub struct Returned<'a, P, H> {
    pub(crate) place: P,
    pub(crate) begun: Begun<H>,
    pub(crate) handler: &'a H,
}

/// A SYNC call begins: the handling word names its record, which stays locked.
#[inline(always)]
fn begin_sync<H: Handler>(
    words: SharedCallWords,
    seat: &mut CallSeat,
    number: u32,
    place: SyncPlace,
    handler: &H,
) -> Begun<H>
    requires me { seat.old.known.number ≡ number }
    requires at { InHandle words.shared.now.table_id seat.old (handle.BeginSync place.walk place.call place.next) }
    requires class { place.call.class ≡ Class.Sync }
    ensures at { InHandle words.entry.shared.now.table_id seat.new (handle.CountSync place.walk place.call place.next) }
    ensures known { seat.new.known ≡ begun_sync place.walk place.call place.next seat.old.known }
    ensures named { (s : SeatInvariant seat.new.known) × (s.lives.at (Hand number) ≡ place.call.id + 2) }
    ensures of { result.call.value ≡ place.call }
    ensures before { result.before.value ≡ handler.now }
{
    store_in_call(words, seat, Word::Hand(number), place.call.id as u64 + 2);
    Begun {
        call: Noted::of(&place.call),
        before: Noted::of(handler),
    }
}

/// A SYNC call whose function has run is counted, as the call of this count from its source, in that source's tally word.
#[inline(always)]
pub fn count_sync<H: Handler>(
    words: SharedCallWords,
    seat: &mut CallSeat,
    tally: Word,
    count: u64,
    ran: &Returned<'_, SyncPlace, H>,
)
    requires at { InHandle words.shared.now.table_id seat.old (handle.CountSync ran.now.place.walk ran.now.place.call ran.now.place.next) }
    requires tally { tally ≡ Ran seat.old.known.number (owner ran.now.place.call.id) }
    requires count { count ≡ (ran_tally seat.old.known.part (owner ran.now.place.call.id) + 1) % 2 ^ 64 }
    requires of { ran.now.begun.call.value ≡ ran.now.place.call }
    requires heard { H.leads ran.now.begun.before.value (heard_of ran.now.place.call) ran.now.handler.now }
    ensures at { InHandle words.entry.shared.now.table_id seat.new (handle.EndSync ran.now.place.walk ran.now.place.call ran.now.place.next) }
    ensures known { seat.new.known ≡ counted_sync ran.now.place.walk ran.now.place.call ran.now.place.next seat.old.known }
{
    let _ = ran;
    store_in_call(words, seat, tally, count);
}

/// A SYNC call whose function has run ends: its record is unlocked, last of all. Its caller waits for that, and may free what the
/// function uses as soon as it sees it (`csd_unlock` behind `csd_do_func`).
#[inline(always)]
pub fn end_sync<H: Handler>(
    words: SharedCallWords,
    seat: &mut CallSeat,
    ran: Returned<'_, SyncPlace, H>,
)
    requires at { InHandle words.shared.now.table_id seat.old (handle.EndSync ran.place.walk ran.place.call ran.place.next) }
    requires of { ran.begun.call.value ≡ ran.place.call }
    requires heard { H.leads ran.begun.before.value (heard_of ran.place.call) ran.handler.now }
    ensures at { InHandle words.entry.shared.now.table_id seat.new (first_on ran.entry.place.walk ran.entry.place.next) }
    ensures known { seat.new.known ≡ ended_call (first_on ran.entry.place.walk ran.entry.place.next) ran.entry.place.call seat.old.known }
{
    store_in_call(words, seat, Word::Flags(ran.place.call.id), 0);
}

/// An ASYNC call begins: its record is unlocked. What the CPU is to know of the call was loaded before, since from this store on
/// the record's source may write it and queue it again (`csd_unlock` before `csd_do_func`).
#[inline(always)]
fn begin_async<H: Handler>(
    words: SharedCallWords,
    seat: &mut CallSeat,
    place: AsyncPlace,
    handler: &H,
) -> Begun<H>
    requires at { InHandle words.shared.now.table_id seat.old (handle.BeginAsync place.call place.next) }
    requires class { place.call.class ≡ Class.Async }
    ensures at { InHandle words.entry.shared.now.table_id seat.new (handle.CountAsync place.call place.next) }
    ensures known { seat.new.known ≡ begun_async place.call place.next seat.old.known }
    ensures unlocked { (s : SeatInvariant seat.new.known) × (s.lives.at (Flags place.call.id) ≡ 0) }
    ensures of { result.call.value ≡ place.call }
    ensures before { result.before.value ≡ handler.now }
{
    store_in_call(words, seat, Word::Flags(place.call.id), 0);
    Begun {
        call: Noted::of(&place.call),
        before: Noted::of(handler),
    }
}

/// An ASYNC call whose function has run is counted, as the call of this count from its source, in that source's tally
/// word, and ends.
#[inline(always)]
pub fn count_async<H: Handler>(
    words: SharedCallWords,
    seat: &mut CallSeat,
    tally: Word,
    count: u64,
    ran: Returned<'_, AsyncPlace, H>,
)
    requires at { InHandle words.shared.now.table_id seat.old (handle.CountAsync ran.place.call ran.place.next) }
    requires tally { tally ≡ Ran seat.old.known.number (owner ran.place.call.id) }
    requires count { count ≡ (ran_tally seat.old.known.part (owner ran.place.call.id) + 1) % 2 ^ 64 }
    requires of { ran.begun.call.value ≡ ran.place.call }
    requires heard { H.leads ran.begun.before.value (heard_of ran.place.call) ran.handler.now }
    ensures at { InHandle words.entry.shared.now.table_id seat.new (second_on ran.entry.place.next) }
    ensures known { seat.new.known ≡ ended_call (second_on ran.entry.place.next) ran.entry.place.call seat.old.known }
{
    let _ = ran;
    store_in_call(words, seat, tally, count);
}

/// One call more from this source: how many there are.
#[inline(always)]
fn one_more(counts: &mut [u64], source: u32) -> u64
    requires { source < length counts.old }
    ensures count { result ≡ (slice_index_or counts.old source 0 + 1) % 2 ^ 64 }
    ensures counts { counts.new ≡ slice_set counts.old source result }
{
    let more = counts[source as usize].wrapping_add(1);
    counts[source as usize] = more;
    more
}

/// A SYNC call begins and is given out.
#[inline(always)]
fn give_sync<H: Handler>(
    words: SharedCallWords,
    seat: &mut CallSeat,
    number: u32,
    place: SyncPlace,
    handler: &H,
) -> Begun<H>
    requires me { seat.old.known.number ≡ number }
    requires at { InHandle words.shared.now.table_id seat.old (handle.BeginSync place.walk place.call place.next) }
    ensures gives { Gives words.entry.shared.now.table_id seat.old seat.new (record { pass = First place.walk; call = place.call; next = place.next }) }
    ensures of { result.call.value ≡ place.call }
    ensures before { result.before.value ≡ handler.now }
{
    begin_sync(words, seat, number, place, handler)
}

/// An ASYNC call begins and is given out.
#[inline(always)]
fn give_async<H: Handler>(
    words: SharedCallWords,
    seat: &mut CallSeat,
    place: AsyncPlace,
    handler: &H,
) -> Begun<H>
    requires at { InHandle words.shared.now.table_id seat.old (handle.BeginAsync place.call place.next) }
    ensures gives { Gives words.entry.shared.now.table_id seat.old seat.new (record { pass = Second; call = place.call; next = place.next }) }
    ensures of { result.call.value ≡ place.call }
    ensures before { result.before.value ≡ handler.now }
{
    begin_async(words, seat, place, handler)
}

/// A call begins: the handling word names a SYNC call's record, and an ASYNC call's is unlocked.
#[inline(always)]
pub(crate) fn begin_call<H: Handler>(
    words: SharedCallWords,
    seat: &mut CallSeat,
    number: u32,
    place: Place,
    handler: &H,
) -> Begun<H>
    requires me { seat.old.known.number ≡ number }
    requires at { InHandle words.shared.now.table_id seat.old (begins_at place) }
    ensures gives { Gives words.entry.shared.now.table_id seat.old seat.new place }
    ensures of { result.call.value ≡ place.call }
    ensures before { result.before.value ≡ handler.now }
{
    let Place { pass, call, next } = place;
    match pass {
        Pass::First(walk) => {
            let place = SyncPlace { walk, call, next };
            give_sync(words, seat, number, place, handler)
        }
        Pass::Second => give_async(words, seat, AsyncPlace { call, next }, handler),
    }
}

/// A SYNC call whose function has run is counted, and its record is unlocked.
#[inline(always)]
fn finish_sync<H: Handler>(
    words: SharedCallWords,
    seat: &mut CallSeat,
    number: u32,
    counts: &mut [u64],
    ran: Returned<'_, SyncPlace, H>,
)
    requires me { seat.old.known.number ≡ number }
    requires at { InHandle words.shared.now.table_id seat.old (handle.CountSync ran.place.walk ran.place.call ran.place.next) }
    requires counts { AreRan counts.old seat.old.known }
    requires in_range { ran.place.call.id < records }
    requires of { ran.begun.call.value ≡ ran.place.call }
    requires heard { H.leads ran.begun.before.value (heard_of ran.place.call) ran.handler.now }
    ensures at { InHandle words.entry.shared.now.table_id seat.new (first_on ran.entry.place.walk ran.entry.place.next) }
    ensures known { seat.new.known ≡ ended_call (first_on ran.entry.place.walk ran.entry.place.next) ran.entry.place.call seat.old.known }
    ensures counts { AreRan counts.new seat.new.known }
{
    let source = owner_of(ran.place.call.id);
    let tally = Word::Ran(number, source);
    let count = one_more(counts, source);
    count_sync(words, seat, tally, count, &ran);
    end_sync(words, seat, ran);
}

/// An ASYNC call whose function has run is counted.
#[inline(always)]
fn finish_async<H: Handler>(
    words: SharedCallWords,
    seat: &mut CallSeat,
    number: u32,
    counts: &mut [u64],
    ran: Returned<'_, AsyncPlace, H>,
)
    requires me { seat.old.known.number ≡ number }
    requires at { InHandle words.shared.now.table_id seat.old (handle.CountAsync ran.place.call ran.place.next) }
    requires counts { AreRan counts.old seat.old.known }
    requires in_range { ran.place.call.id < records }
    requires of { ran.begun.call.value ≡ ran.place.call }
    requires heard { H.leads ran.begun.before.value (heard_of ran.place.call) ran.handler.now }
    ensures at { InHandle words.entry.shared.now.table_id seat.new (second_on ran.entry.place.next) }
    ensures known { seat.new.known ≡ ended_call (second_on ran.entry.place.next) ran.entry.place.call seat.old.known }
    ensures counts { AreRan counts.new seat.new.known }
{
    let source = owner_of(ran.place.call.id);
    let tally = Word::Ran(number, source);
    let count = one_more(counts, source);
    count_async(words, seat, tally, count, ran);
}

/// A call whose function has run is counted and ends: a SYNC call's record is unlocked.
#[inline(always)]
pub(crate) fn end_call<H: Handler>(
    words: SharedCallWords,
    seat: &mut CallSeat,
    number: u32,
    counts: &mut [u64],
    ran: Returned<'_, Place, H>,
)
    requires me { seat.old.known.number ≡ number }
    requires at { InHandle words.shared.now.table_id seat.old (out_at ran.place) }
    requires counts { AreRan counts.old seat.old.known }
    requires in_range { ran.place.call.id < records }
    requires of { ran.begun.call.value ≡ ran.place.call }
    requires heard { H.leads ran.begun.before.value (heard_of ran.place.call) ran.handler.now }
    ensures at { InHandle words.entry.shared.now.table_id seat.new (goes_from ran.entry.place) }
    ensures known { seat.new.known ≡ ended_call (goes_from ran.entry.place) ran.entry.place.call seat.old.known }
    ensures counts { AreRan counts.new seat.new.known }
{
    let Returned {
        place,
        begun,
        handler,
    } = ran;
    let Place { pass, call, next } = place;
    match pass {
        Pass::First(walk) => {
            let place = SyncPlace { walk, call, next };
            let ran = Returned {
                place,
                begun,
                handler,
            };
            finish_sync(words, seat, number, counts, ran);
        }
        Pass::Second => {
            let place = AsyncPlace { call, next };
            let ran = Returned {
                place,
                begun,
                handler,
            };
            finish_async(words, seat, number, counts, ran);
        }
    }
}
