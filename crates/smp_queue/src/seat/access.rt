//! The words of a table, the seat of a CPU, and the steps that it makes. Each function below makes one step of a word, or none.
//! What a step tells is said by the rule of the table alone ([`Tells`](smp_start::Tells)). No other page names a raw seat or a cell
//! but [`crowd`], which makes no step, and none can.
//!
//! A step that begins, counts or ends a call is made by `store_in_call`, which the page beside this one alone sees.

ghost use Rattle.std.specs.Prelude.{◌≡◌, ◌+◌, ◌<◌, ◌==◌, true, if◌then◌else◌, IfOk, Some, None};
ghost use Rattle.std.specs.Mem.Slots.{slots_items, slots_len, IsFull};
ghost use Rattle.smp_call_steps.specs.Threads.Known.{known_told, known_taking, noted_known, fresh, CallMoment, Lives};
ghost use Rattle.smp_words.specs.declared.access.Access.TheVariants as access;
ghost use Rattle.smp_words.specs.declared.seen.Act.TheVariants as act;
ghost use Rattle.smp_queue.specs.declared.seat_view.CallSeatView.TheVariants.{Maker};
ghost use Rattle.smp_queue.specs.Audit.{Closes};
ghost use Rattle.smp_queue.specs.Cells.{cells};
ghost use Rattle.smp_queue.specs.Seat.{SeatValue, Loads, Ready, IsStepOfCall};
ghost use Rattle.smp_queue.specs.Rule.{SeatInvariant, HasComeTo};
ghost use Rattle.smp_queue.specs.Together.{KnowTogether};
ghost use Rattle.smp_words.specs.Size.{cpus};
ghost use Rattle.smp_mask.specs.Mask.{has};

pub(crate) mod crowd;

use crate::cell::{CELLS, cell};
use crate::rule::{CallRule, RawCallSeat};
use crate::seat_view::CallSeatView;
use atomic_table::Closed;
use smp_call_steps::known::CallSetting;
use smp_start::{ToldTable, ToldWords};
use smp_words::Word;
use std::alloc::{AllocError, Allocator};
use std::marker::Model;

/// The words, as all threads share them.
pub type SharedCallWords<'a> = ToldWords<'a, CallSeatView, CallSetting, CallRule>;

/// The words with their memory.
pub type OwnedCallWords<A> = ToldTable<CallSeatView, CallSetting, CallRule, A>;

/// The seat of one CPU, seen as its table and what the CPU knows: at any time its part of calls that some words show.
#[derive(Drop)]
pub struct CallSeat {
    raw: RawCallSeat,
}

impl Model for CallSeat {
    ghost use Rattle.smp_queue.specs.Seat.{SeatValue, IsCpuSeat};
    ghost use Rattle.smp_queue.specs.Rule.{SeatInvariant, known};

    ghost Value = { SeatValue };

    ghost view = { λ c. record { table = c.raw.table_id; known = known c.raw.me.0 } };

    ghost invariant = { λ c. IsCpuSeat c.raw.me.0 × SeatInvariant (known c.raw.me.0) };
}

impl CallSeat {
    /// What the CPU knows is its part of calls that some words show, in which CPUs that the table does not have, or that
    /// are not online, have done nothing. Nothing is queued or pending for those that are not online.
    pub(crate) fn is_shown(&self)
        ensures { SeatInvariant self.now.known }
    {
        let _ = &self.raw;
    }
}

/// The first seat of a table, which makes one for each CPU.
#[derive(Drop)]
pub struct CallSeatMaker {
    raw: RawCallSeat,
}

/// The words of a table, all 0, and the first seat.
pub(crate) fn lay<A: Allocator>(
    alloc: A,
    setting: &CallSetting,
) -> Result<(OwnedCallWords<A>, CallSeatMaker), AllocError>
where
    A: Copy,
    ensures { IfOk result (λ t. (t.0.table.shared.table_id.words ≡ cells) × (t.0.table.shared.table_id.slots ≡ 0) × (t.0.table.shared.key ≡ setting.now)
        × (t.1.raw.table_id ≡ t.0.table.shared.table_id) × (t.1.raw.me.0 ≡ Maker 0 setting.now)) }
{
    let words = Vec::from_elem(alloc, 0u64, CELLS)?;
    let (table, raw) = ToldTable::new(alloc, words.as_slice(), setting)?;
    Ok((table, CallSeatMaker { raw }))
}

/// A seat for the next CPU that is online. Only such a CPU ever gets one.
pub(crate) fn next_seat(words: SharedCallWords, maker: &mut CallSeatMaker, n: u32) -> CallSeat
    requires table { (maker.old.raw.table_id ≡ words.shared.now.table_id) × (words.shared.now.table_id.words ≡ cells) }
    requires come { HasComeTo maker.old.raw.me.0 words.shared.now.key n }
    requires number { (n < words.shared.now.key.nr) × (n < cpus) × (has words.shared.now.key.online n ≡ true) }
    ensures maker { (maker.new.raw.table_id ≡ words.entry.shared.now.table_id) × (maker.new.raw.me.0 ≡ Maker (n + 1) words.entry.shared.now.key) }
    ensures seat { (result.table ≡ words.entry.shared.now.table_id) × (result.known ≡ fresh words.entry.shared.now.key n) }
{
    let raw = words.split(&mut maker.raw);
    CallSeat { raw }
}

/// Gives up the table and the seat of a CPU: the words as the last step left them.
pub(crate) fn close<A: Allocator>(owner: OwnedCallWords<A>, seat: CallSeat) -> Closed<(), A>
    requires table { seat.table ≡ owner.table.shared.table_id }
    requires sized { (owner.table.shared.table_id.words ≡ cells) × (owner.table.shared.table_id.slots ≡ 0) }
    ensures full { IsFull result.words × (slots_len result.words ≡ cells) × (slots_len result.slots ≡ 0) }
    ensures closes { Closes owner.table.shared.key seat.known (slots_items result.words) }
{
    owner.close_with(seat.raw)
}

/// What two CPUs of the table know now is their parts of the same calls. It makes no step.
pub(crate) fn together(words: SharedCallWords, one: &mut CallSeat, other: &mut CallSeat)
    requires { (one.old.table ≡ words.shared.now.table_id) × (other.old.table ≡ words.shared.now.table_id) }
    ensures kept { (one.new ≡ one.old) × (other.new ≡ other.old) }
    ensures same { KnowTogether one.old.known other.old.known }
{
    words.both_now(&mut one.raw, &mut other.raw);
}

/// Loads a word.
#[inline(always)]
pub(crate) fn load(words: SharedCallWords, seat: &mut CallSeat, word: Word) -> u64
    requires { Ready words.shared.now.table_id words.shared.now.key seat.old (access.Load word) }
    ensures { Loads words.entry.shared.now.table_id seat.old seat.new word result }
{
    words.load(&mut seat.raw, cell(word))
}

/// Notes a direct call in what the CPU knows. It makes no step.
pub(crate) fn note_call(words: SharedCallWords, seat: &mut CallSeat)
    requires { seat.old.table ≡ words.shared.now.table_id }
    ensures table { seat.new.table ≡ words.entry.shared.now.table_id }
    ensures known { seat.new.known ≡ noted_known seat.old.known }
{
    words.retell(&mut seat.raw);
}

/// Stores a number in a word.
#[inline(always)]
pub(crate) fn store(words: SharedCallWords, seat: &mut CallSeat, word: Word, number: u64)
    requires { Ready words.shared.now.table_id words.shared.now.key seat.old (access.Store word number) }
    ensures table { seat.new.table ≡ words.entry.shared.now.table_id }
    ensures lives { Lives seat.new.known }
    ensures known { seat.new.known ≡ known_told seat.old.known act.Store word None (Some number) }
{
    words.store(&mut seat.raw, cell(word), number);
}

/// Stores a number in a word, by a step inside `handle` that may begin, count or end a call.
#[inline(always)]
pub(super) fn store_in_call(words: SharedCallWords, seat: &mut CallSeat, word: Word, number: u64)
    requires { IsStepOfCall words.shared.now.table_id seat.old word number }
    ensures table { seat.new.table ≡ words.entry.shared.now.table_id }
    ensures lives { Lives seat.new.known }
    ensures known { seat.new.known ≡ known_told seat.old.known act.Store word None (Some number) }
    ensures put { (s : SeatInvariant seat.new.known) × (s.lives.at word ≡ number) }
{
    words.store(&mut seat.raw, cell(word), number);
}

/// Puts a number in a word where another is found, and answers what was found.
#[inline(always)]
pub(crate) fn exchange(
    words: SharedCallWords,
    seat: &mut CallSeat,
    word: Word,
    expected: u64,
    number: u64,
) -> u64
    requires { Ready words.shared.now.table_id words.shared.now.key seat.old (access.Exchange word expected number) }
    ensures table { seat.new.table ≡ words.entry.shared.now.table_id }
    ensures lives { Lives seat.new.known }
    ensures known { seat.new.known ≡ known_told seat.old.known act.Cas word (Some result) (if result == expected then Some number else None) }
{
    words.exchange(&mut seat.raw, cell(word), expected, number)
}

/// Puts a number in a word, and answers what was found. A swap of the own head takes the queue of that moment.
#[inline(always)]
pub(crate) fn swap(words: SharedCallWords, seat: &mut CallSeat, word: Word, number: u64) -> u64
    requires { Ready words.shared.now.table_id words.shared.now.key seat.old (access.Swap word number) }
    ensures table { seat.new.table ≡ words.entry.shared.now.table_id }
    ensures lives { Lives seat.new.known }
    ensures known { (t : CallMoment seat.old.known word result) × (seat.new.known ≡ known_taking
        (t.lives.calls.queue seat.old.known.number) seat.old.known act.Swap word (Some result) (Some number)) }
{
    words.swap(&mut seat.raw, cell(word), number)
}
