//! A table whose rule says also what each kind of step tells the seat that makes it.
//!
//! The kit's table can do more. Whoever has it can look at a word with no step, and a step may tell anything that the table's
//! rule does not refuse. The words and the seats of this page are reached by these functions alone. Each of them makes one step,
//! by which the seat comes to know what the rule says of that kind of step, or it makes none and tells nothing.

ghost use Rattle.std.specs.Prelude.{◌≡◌, ℕ, ◌+◌, ◌-◌, ◌^◌, ◌%◌, ◌<◌, ◌==◌, [], length, IfOk};
ghost use Rattle.std.specs.Int.Bits.{bit_and};
ghost use Rattle.std.specs.Mem.Slots.{slots_items, slots_len, IsFull};
ghost use mathlib.Core.Option.{none};
ghost use prog.Atomic.{either};
ghost use Rattle.atomic_table.specs.Table.{step, opening, Allows, Splits, Final, Seen};

mod moments;
mod tells;

use atomic_table::{Closed, Seat, Shared, Split, Table, TableRule};
pub use moments::ToldCrowd;
use std::alloc::{AllocError, Allocator};
use std::marker::Model;
pub use tells::{Answer, Tells};
use tells::{Answered, Exchanged, Loaded, Masked, Stored, Subtracted, Swapped};

/// The words of a table with their memory.
#[derive(Drop)]
pub struct ToldTable<V, K, P: TableRule<(), V, K>, A: Allocator> {
    table: Table<(), V, K, P, A>,
}

/// The words of a table, as all threads share them.
pub struct ToldWords<'a, V, K, P: TableRule<(), V, K>> {
    shared: &'a Shared<(), V, K, P>,
}

impl<'a, V, K, P: TableRule<(), V, K>> Clone for ToldWords<'a, V, K, P> {
    fn clone(&self) -> Result<ToldWords<'a, V, K, P>, AllocError> {
        Ok(*self)
    }
}

impl<'a, V, K, P: TableRule<(), V, K>> Copy for ToldWords<'a, V, K, P> {}

/// A seat at such a table. It has no bytes.
#[derive(Drop)]
pub struct ToldSeat<V> {
    raw: Seat<(), V>,
}

impl<V> Model for ToldSeat<V> {
    ghost use Rattle.smp_start.specs.Told.{ToldValue};

    ghost Value = { ToldValue V };

    ghost view = { λ s. record { table_id = s.raw.table_id; id = s.raw.id; me = s.raw.me } };
}

impl<V, K, P: TableRule<(), V, K>, A: Allocator> ToldTable<V, K, P, A> {
    /// A table of these words, and its first seat.
    pub fn new(
        alloc: A,
        words: &[u64],
        key: &K,
    ) -> Result<(ToldTable<V, K, P, A>, ToldSeat<V>), AllocError>
    where
        A: Copy,
        requires { P.holds key.now (opening words.now [] (P.first key.now)) }
        ensures { IfOk result (λ t. (t.0.table.shared.table_id.words ≡ length words.now) × (t.0.table.shared.table_id.slots ≡ 0)
            × (t.0.table.shared.key ≡ key.now)
            × (t.1.table_id ≡ t.0.table.shared.table_id) × (t.1.id ≡ 0) × (t.1.me ≡ (P.first key.now, []))) }
    {
        let (table, raw) = Table::of_words(alloc, words, key)?;
        Ok((ToldTable { table }, ToldSeat { raw }))
    }

    /// The words, to be accessed by seats.
    #[inline(always)]
    pub fn words(&self) -> ToldWords<'_, V, K, P>
        ensures table { result.shared.now.table_id ≡ self.now.table.shared.table_id }
        ensures key { result.shared.now.key ≡ self.now.table.shared.key }
    {
        ToldWords {
            shared: &self.table.shared,
        }
    }

    /// Gives up the table and a seat: the words as the last step left them.
    pub fn close_with(self, seat: ToldSeat<V>) -> Closed<(), A>
        requires { seat.table_id ≡ self.table.shared.table_id }
        ensures counts { (slots_len result.words ≡ self.table.shared.table_id.words) × (slots_len result.slots ≡ self.table.shared.table_id.slots) }
        ensures values { IsFull result.words × IsFull result.slots
            × Final (Seen (P.holds self.table.shared.key) seat.id seat.me.0) (slots_items result.words) (slots_items result.slots) }
    {
        self.table.close_with(seat.raw)
    }
}

impl<'a, V, K, P: TableRule<(), V, K> + Tells<V>> ToldWords<'a, V, K, P> {
    /// Loads a word.
    #[inline(always)]
    pub fn load(&self, seat: &mut ToldSeat<V>, word: usize) -> u64
        requires { (seat.old.table_id ≡ self.now.shared.now.table_id) × (word < self.now.shared.now.table_id.words)
            × Allows (P.holds self.now.shared.now.key) self.now.shared.now.table_id.slots seat.old.id seat.old.me word (λ n. n)
            (P.loaded (step self.now.shared.now.table_id.slots word 0 0 none) seat.old.me) }
        ensures { (seat.new.table_id ≡ seat.old.table_id) × (seat.new.id ≡ seat.old.id)
            × P.loaded (step self.now.shared.now.table_id.slots word 0 0 none) seat.old.me result seat.new.me }
    {
        self.shared.load::<Loaded<P>>(&mut seat.raw, word)
    }

    /// Stores a number in a word.
    #[inline(always)]
    pub fn store(&self, seat: &mut ToldSeat<V>, word: usize, new: u64)
        requires { (seat.old.table_id ≡ self.now.shared.now.table_id) × (word < self.now.shared.now.table_id.words)
            × Allows (P.holds self.now.shared.now.key) self.now.shared.now.table_id.slots seat.old.id seat.old.me word (λ _. new)
            (λ _. P.stored (step self.now.shared.now.table_id.slots word new 0 none) seat.old.me new) }
        ensures { (seat.new.table_id ≡ seat.old.table_id) × (seat.new.id ≡ seat.old.id)
            × P.stored (step self.now.shared.now.table_id.slots word new 0 none) seat.old.me new seat.new.me }
    {
        self.shared.store::<Stored<P>>(&mut seat.raw, word, new);
    }

    /// Puts a number in a word, and answers what was found.
    #[inline(always)]
    pub fn swap(&self, seat: &mut ToldSeat<V>, word: usize, new: u64) -> u64
        requires { (seat.old.table_id ≡ self.now.shared.now.table_id) × (word < self.now.shared.now.table_id.words)
            × Allows (P.holds self.now.shared.now.key) self.now.shared.now.table_id.slots seat.old.id seat.old.me word (λ _. new)
            (P.swapped (step self.now.shared.now.table_id.slots word new 0 none) seat.old.me) }
        ensures { (seat.new.table_id ≡ seat.old.table_id) × (seat.new.id ≡ seat.old.id)
            × P.swapped (step self.now.shared.now.table_id.slots word new 0 none) seat.old.me result seat.new.me }
    {
        self.shared.swap::<Swapped<P>>(&mut seat.raw, word, new)
    }

    /// Puts a number in a word where another is found, and answers what was found.
    #[inline(always)]
    pub fn exchange(&self, seat: &mut ToldSeat<V>, word: usize, old: u64, new: u64) -> u64
        requires { (seat.old.table_id ≡ self.now.shared.now.table_id) × (word < self.now.shared.now.table_id.words)
            × Allows (P.holds self.now.shared.now.key) self.now.shared.now.table_id.slots seat.old.id seat.old.me word (λ n. either (n == old) new n)
            (P.exchanged (step self.now.shared.now.table_id.slots word old new none) seat.old.me) }
        ensures { (seat.new.table_id ≡ seat.old.table_id) × (seat.new.id ≡ seat.old.id)
            × P.exchanged (step self.now.shared.now.table_id.slots word old new none) seat.old.me result seat.new.me }
    {
        self.shared
            .compare_exchange::<Exchanged<P>>(&mut seat.raw, word, old, new)
    }

    /// Takes 1 from a word, and answers what was found.
    #[inline(always)]
    pub fn subtract(&self, seat: &mut ToldSeat<V>, word: usize) -> u64
        requires { (seat.old.table_id ≡ self.now.shared.now.table_id) × (word < self.now.shared.now.table_id.words)
            × Allows (P.holds self.now.shared.now.key) self.now.shared.now.table_id.slots seat.old.id seat.old.me word (λ n. (n + (2 ^ 64 - 1)) % 2 ^ 64)
            (P.subtracted (step self.now.shared.now.table_id.slots word 1 0 none) seat.old.me) }
        ensures { (seat.new.table_id ≡ seat.old.table_id) × (seat.new.id ≡ seat.old.id)
            × P.subtracted (step self.now.shared.now.table_id.slots word 1 0 none) seat.old.me result seat.new.me }
    {
        self.shared
            .fetch_sub::<Subtracted<P>>(&mut seat.raw, word, 1)
    }

    /// Takes 1 from a word, says a number with this step, and answers what was found.
    #[inline(always)]
    pub fn answer<N: Answer>(&self, seat: &mut ToldSeat<V>, word: usize) -> u64
        requires { (seat.old.table_id ≡ self.now.shared.now.table_id) × (word < self.now.shared.now.table_id.words)
            × Allows (P.holds self.now.shared.now.key) self.now.shared.now.table_id.slots seat.old.id seat.old.me word (λ n. (n + (2 ^ 64 - 1)) % 2 ^ 64)
            (P.answered N.answer (step self.now.shared.now.table_id.slots word 1 0 none) seat.old.me) }
        ensures { (seat.new.table_id ≡ seat.old.table_id) × (seat.new.id ≡ seat.old.id)
            × P.answered N.answer (step self.now.shared.now.table_id.slots word 1 0 none) seat.old.me result seat.new.me }
    {
        self.shared
            .fetch_sub::<Answered<P, N>>(&mut seat.raw, word, 1)
    }

    /// Keeps those bits of a word that this number has, and answers what was found.
    #[inline(always)]
    pub fn mask(&self, seat: &mut ToldSeat<V>, word: usize, number: u64) -> u64
        requires { (seat.old.table_id ≡ self.now.shared.now.table_id) × (word < self.now.shared.now.table_id.words)
            × Allows (P.holds self.now.shared.now.key) self.now.shared.now.table_id.slots seat.old.id seat.old.me word (λ n. bit_and n number)
            (P.masked (step self.now.shared.now.table_id.slots word number 0 none) seat.old.me) }
        ensures { (seat.new.table_id ≡ seat.old.table_id) × (seat.new.id ≡ seat.old.id)
            × P.masked (step self.now.shared.now.table_id.slots word number 0 none) seat.old.me result seat.new.me }
    {
        self.shared
            .fetch_and::<Masked<P>>(&mut seat.raw, word, number)
    }

    /// A second seat, as the rule cuts what the first one knows. It makes no step.
    pub fn split(&self, seat: &mut ToldSeat<V>) -> ToldSeat<V>
    where
        P: Split<V>,
        requires { (seat.old.table_id ≡ self.now.shared.now.table_id) × (0 < self.now.shared.now.table_id.words)
            × Splits (P.holds self.now.shared.now.key) seat.old.id seat.old.me.0 (P.left seat.old.me.0) (P.right seat.old.me.0) }
        ensures seat { (seat.new.table_id ≡ seat.old.table_id) × (seat.new.id ≡ seat.old.id) × (seat.new.me ≡ (P.left seat.old.me.0, seat.old.me.1)) }
        ensures made { (result.table_id ≡ seat.old.table_id) × (result.me ≡ (P.right seat.old.me.0, [])) }
    {
        let raw = self.shared.split_seat::<P>(&mut seat.raw);
        ToldSeat { raw }
    }
}
