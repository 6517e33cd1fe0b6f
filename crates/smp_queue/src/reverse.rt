//! How a CPU turns the chain of its batch, so that it leads from the oldest call to the newest
//! (`lib/llist.c: llist_reverse_order`).

ghost use Rattle.std.specs.Prelude.{◌≡◌, ◌+◌, ◌<◌, Some, None};
ghost use Rattle.smp_call_steps.specs.Drains.{first_on, reverse_on};
ghost use Rattle.smp_words.specs.declared.size.TheConstants.{MOST_CALLS};
ghost use Rattle.smp_call_steps.specs.declared.handle.HandleStage.TheVariants as handle;
ghost use Rattle.smp_call_steps.specs.declared.stage.Stage.TheVariants.{Handle};
ghost use Rattle.smp_queue.specs.Seat.{InHandle};

use crate::seat::{CallSeat, SharedCallWords, load, store};
use smp_call_steps::drain::linked;
use smp_call_steps::handle::link_of;
use smp_words::Word;

/// Links a record to the one after it, and answers the one before.
fn reverse_one(
    words: SharedCallWords,
    seat: &mut CallSeat,
    newer: Option<u32>,
    id: u32,
) -> Option<u32>
    requires { InHandle words.shared.now.table_id seat.old (handle.ReverseLoad newer id) }
    ensures at { InHandle words.entry.shared.now.table_id seat.new (reverse_on (Some id) result) }
    ensures known { seat.new.known ≡ record (seat.old.known) {
      stage = Some
          (Handle (reverse_on (Some id) result));
      drain = record { calls = seat.old.known.drain.calls + 1 };
    } }
    ensures room { seat.old.known.drain.calls < MOST_CALLS }
{
    let link = load(words, seat, Word::Next(id));
    let older = linked(link);
    store(words, seat, Word::Next(id), link_of(newer));
    older
}

/// Reverses the chain from this record down: its oldest record, and how many it has.
pub(crate) fn reverse(
    words: SharedCallWords,
    seat: &mut CallSeat,
    newest: Option<u32>,
) -> (Option<u32>, u32)
    requires at { InHandle words.shared.now.table_id seat.old (reverse_on None newest) }
    requires none { seat.old.known.drain.calls ≡ 0 }
    ensures at { InHandle words.entry.shared.now.table_id seat.new (first_on (record { first = result.0; last = None }) result.0) }
    ensures calls { result.1 ≡ seat.new.known.drain.calls }
    ensures known { seat.new.known ≡ record (seat.old.known) { stage = seat.new.known.stage; drain = seat.new.known.drain } }
{
    let mut oldest = None;
    let mut next = newest;
    let mut calls = 0;
    while let Some(id) = next {
        next = reverse_one(words, seat, oldest, id);
        oldest = Some(id);
        calls += 1;
    }
    (oldest, calls)
}
