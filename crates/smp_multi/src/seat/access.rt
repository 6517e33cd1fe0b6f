//! The words of a table, the seat of a CPU, and the steps that it makes. Each function below makes one step of a word, or none.
//! What a step tells is said by the rule of the table alone ([`Tells`](smp_start::Tells)). No other page names a raw seat or a cell
//! but [`crowd`], which makes no step, and none can.
//!
//! Steps that store an answer or a label are made by `store_any`. Steps that end a stop function, a patch or a stop are made
//! by `end_with`: from such a step on the CPU carries an answer. Only the pages beside this one see these two.

ghost use Rattle.std.specs.Prelude.{◌≡◌, ℕ, ◌+◌, ◌<◌, ◌==◌, true, if◌then◌else◌, IfOk, Some, None};
ghost use Rattle.std.specs.Int.Bits.{bit_and};
ghost use Rattle.smp_mask.specs.Mask.{has};
ghost use Rattle.smp_words.specs.Limits.{AreLimits};
ghost use Rattle.smp_words.specs.Size.{cpus};
ghost use Rattle.smp_words.specs.Access.{one_less};
ghost use Rattle.smp_words.specs.declared.access.Access.TheVariants as access;
ghost use Rattle.smp_words.specs.declared.seen.Act.TheVariants as act;
ghost use Rattle.smp_stop_steps.specs.Threads.Known.{carrying, fresh};
ghost use Rattle.smp_multi.specs.Lives.{StopMoment, Lives};
ghost use Rattle.smp_stop_steps.specs.Threads.KnownAfter.{known_told, known_entering};
ghost use Rattle.smp_stop_steps.specs.Threads.Moves.{entering};
ghost use Rattle.smp_multi.specs.declared.seat_view.StopSeatView.TheVariants.{Maker};
ghost use Rattle.smp_multi.specs.Cells.{cells};
ghost use Rattle.smp_stop_steps.specs.AnswerWords.{IsI32Word};
ghost use Rattle.smp_multi.specs.Seat.{SeatValue, Able, EndsWith, Ready, fresh_seat};
ghost use Rattle.smp_multi.specs.Together.{KnowTogether};

pub(crate) mod crowd;

use crate::cell::{FIRST_ENTRY, cell};
use crate::rule::{RawStopSeat, StopRule};
use crate::seat_view::StopSeatView;
use smp_start::{Answer, ToldTable, ToldWords};
use smp_stop_steps::known::StopSetting;
use smp_words::word::Word;
use std::alloc::{AllocError, Allocator};
use std::marker::Model;

/// The words, as all threads share them.
pub type SharedStopWords<'a> = ToldWords<'a, StopSeatView, StopSetting, StopRule>;

/// The words with their memory.
pub type OwnedStopWords<A> = ToldTable<StopSeatView, StopSetting, StopRule, A>;

/// The seat of one CPU, seen as its table and what the CPU knows.
#[derive(Drop)]
pub struct StopSeat {
    raw: RawStopSeat,
    /// The answer with which the CPU is to complete the stop that it is in, 0 where it carries none: the word of an i32. It is the
    /// one that the CPU knows, so that no step but the one that takes it can change it.
    carried: u64,
}

impl Model for StopSeat {
    ghost use Rattle.std.specs.Prelude.{◌≡◌};
    ghost use Rattle.smp_multi.specs.Seat.{SeatValue, IsCpuSeat};
    ghost use Rattle.smp_multi.specs.Rule.{known};

    ghost Value = { SeatValue };

    ghost view = { λ c. record { table = c.raw.table_id; known = known c.raw.me.0 } };

    ghost invariant = { λ c. IsCpuSeat c.raw.me.0 c.carried };
}

impl StopSeat {
    /// The answer that the CPU carries.
    pub(super) fn carried(&self) -> u64
        ensures value { result ≡ self.now.known.carried }
        ensures fits { IsI32Word result }
    {
        self.carried
    }
}

/// The first seat of a table, which makes one for each CPU.
#[derive(Drop)]
pub struct StopSeatMaker {
    raw: RawStopSeat,
}

/// The words of a table with a free gate, free slots, and these labels with all keys off, and the first seat.
pub(crate) fn lay<A: Allocator + Copy>(
    alloc: A,
    nr: u32,
    setting: &StopSetting,
) -> Result<(OwnedStopWords<A>, StopSeatMaker), AllocError>
    requires { AreLimits nr setting.now.online }
    ensures made { IfOk result (λ t. (t.0.table.shared.table_id.words ≡ cells) × (t.0.table.shared.table_id.slots ≡ 0) × (t.0.table.shared.key ≡ setting.now)
        × (t.1.raw.table_id ≡ t.0.table.shared.table_id) × (t.1.raw.me.0 ≡ Maker 0 setting.now)) }
    ensures lives { IfOk result (λ _. (cpu : ℕ) → cpu < cpus → has setting.now.online cpu ≡ true → Lives (fresh setting.now cpu)) }
{
    let labels = setting.labels.words();
    let mut words = Vec::from_elem(alloc, 0u64, FIRST_ENTRY)?;
    words.extend_from_slice(&labels.entries)?;
    words.extend_from_slice(&labels.sites)?;
    let (table, raw) = ToldTable::new(alloc, words.as_slice(), setting)?;
    Ok((table, StopSeatMaker { raw }))
}

/// A seat for the next CPU, where it is online: no step is made by the seat of one that is not.
pub(crate) fn next_seat(
    words: SharedStopWords,
    maker: &mut StopSeatMaker,
    n: u32,
    is_online: bool,
) -> Option<StopSeat>
    requires table { (maker.old.raw.table_id ≡ words.shared.now.table_id) × (words.shared.now.table_id.words ≡ cells) }
    requires next { (maker.old.raw.me.0 ≡ Maker n words.shared.now.key) × (n < cpus) }
    requires online { is_online ≡ has words.shared.now.key.online n }
    ensures maker { (maker.new.raw.table_id ≡ words.entry.shared.now.table_id) × (maker.new.raw.me.0 ≡ Maker (n + 1) words.entry.shared.now.key) }
    ensures seat { result ≡ if is_online then Some (fresh_seat words.entry.shared.now.table_id words.entry.shared.now.key n) else None }
{
    let raw = words.split(&mut maker.raw);
    if !is_online {
        return None;
    }
    Some(StopSeat { raw, carried: 0 })
}

/// What two CPUs of the table know now is their parts of the same stops. It makes no step.
pub(crate) fn together(words: SharedStopWords, one: &mut StopSeat, other: &mut StopSeat)
    requires { (one.old.table ≡ words.shared.now.table_id) × (other.old.table ≡ words.shared.now.table_id) }
    ensures kept { (one.new ≡ one.old) × (other.new ≡ other.old) }
    ensures same { KnowTogether one.old.known other.old.known }
{
    words.both_now(&mut one.raw, &mut other.raw);
}

/// Loads a word.
#[inline(always)]
pub(crate) fn load(words: SharedStopWords, seat: &mut StopSeat, word: Word) -> u64
    requires { Ready words.shared.now.table_id seat.old (access.Load word) }
    ensures table { seat.new.table ≡ words.entry.shared.now.table_id }
    ensures lives { Lives seat.new.known }
    ensures known { seat.new.known ≡ known_told seat.old.known act.Load word (Some result) None }
    ensures then { StopMoment seat.old.known word result }
{
    words.load(&mut seat.raw, cell(word))
}

/// Stores a number in a word, by any step that the CPU may make.
#[inline(always)]
pub(super) fn store_any(words: SharedStopWords, seat: &mut StopSeat, word: Word, number: u64)
    requires { Able words.shared.now.table_id seat.old (access.Store word number) }
    ensures table { seat.new.table ≡ words.entry.shared.now.table_id }
    ensures lives { Lives seat.new.known }
    ensures known { seat.new.known ≡ known_told seat.old.known act.Store word None (Some number) }
{
    words.store(&mut seat.raw, cell(word), number);
}

/// Stores a number in a word, by a step that stores no answer and no label.
#[inline(always)]
pub(crate) fn store(words: SharedStopWords, seat: &mut StopSeat, word: Word, number: u64)
    requires { Ready words.shared.now.table_id seat.old (access.Store word number) }
    ensures table { seat.new.table ≡ words.entry.shared.now.table_id }
    ensures lives { Lives seat.new.known }
    ensures known { seat.new.known ≡ known_told seat.old.known act.Store word None (Some number) }
{
    store_any(words, seat, word, number);
}

/// Puts a number in a word where another is found, and answers what was found.
#[inline(always)]
pub(crate) fn exchange(
    words: SharedStopWords,
    seat: &mut StopSeat,
    word: Word,
    expected: u64,
    number: u64,
) -> u64
    requires { Ready words.shared.now.table_id seat.old (access.Exchange word expected number) }
    ensures table { seat.new.table ≡ words.entry.shared.now.table_id }
    ensures lives { Lives seat.new.known }
    ensures known { seat.new.known ≡ known_told seat.old.known act.Cas word (Some result) (if result == expected then Some number else None) }
    ensures then { StopMoment seat.old.known word result }
{
    words.exchange(&mut seat.raw, cell(word), expected, number)
}

/// Takes 1 from a word, by a step that ends a stop function, a patch or a stop, and answers what was found. From this step on the
/// CPU carries this answer.
#[inline(always)]
pub(super) fn end_with<N: Answer>(
    words: SharedStopWords,
    seat: &mut StopSeat,
    word: Word,
    answer: u64,
) -> u64
    requires ends { EndsWith words.shared.now.table_id seat.old word answer }
    requires fits { IsI32Word answer }
    requires picks { N.answer ≡ answer }
    ensures table { seat.new.table ≡ words.entry.shared.now.table_id }
    ensures lives { Lives seat.new.known }
    ensures known { seat.new.known ≡ known_told (carrying answer seat.old.known) act.Sub word (Some result) (Some (one_less result)) }
{
    let found = words.answer::<N>(&mut seat.raw, cell(word));
    seat.carried = answer;
    found
}

/// Takes 1 from a word, by a step that ends no stop function, no patch and no stop, and answers what was found.
#[inline(always)]
pub(crate) fn subtract(words: SharedStopWords, seat: &mut StopSeat, word: Word) -> u64
    requires { Ready words.shared.now.table_id seat.old (access.Sub word) }
    ensures table { seat.new.table ≡ words.entry.shared.now.table_id }
    ensures lives { Lives seat.new.known }
    ensures known { seat.new.known ≡ known_told seat.old.known act.Sub word (Some result) (Some (one_less result)) }
{
    words.subtract(&mut seat.raw, cell(word))
}

/// Keeps those bits of a word that this number has, and answers what was found. A CPU that enters a stop learns its
/// work.
#[inline(always)]
pub(crate) fn mask(words: SharedStopWords, seat: &mut StopSeat, word: Word, number: u64) -> u64
    requires { Ready words.shared.now.table_id seat.old (access.And word number) }
    ensures table { seat.new.table ≡ words.entry.shared.now.table_id }
    ensures lives { Lives seat.new.known }
    ensures known { (t : StopMoment seat.old.known word result) × (seat.new.known ≡ known_entering (entering t.stops word) seat.old.known act.And word
        (Some result) (Some (bit_and result number))) }
{
    words.mask(&mut seat.raw, cell(word), number)
}
