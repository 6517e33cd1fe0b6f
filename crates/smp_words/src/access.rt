//! What a step does to one word.

ghost use Rattle.std.specs.Prelude.{◌≡◌};
ghost use Rattle.smp_words.specs.Access.{act_of, put_by, seen_of, word_of};

use crate::seen::{Act, Note, Seen};
use crate::word::Word;

/// What a CPU does to one word in one step.
#[derive(Clone, Copy)]
pub enum Access {
    Load(Word),
    Store(Word, u64),
    /// Puts the number, whatever is found.
    Swap(Word, u64),
    /// Puts the second number where the first is found.
    Exchange(Word, u64, u64),
    /// Takes 1 away, modulo 2^64.
    Sub(Word),
    /// Keeps the bits that the number has.
    And(Word, u64),
}

impl Access {
    /// The word that it is made on.
    pub fn word(self) -> Word
        ensures { result ≡ word_of self }
    {
        match self {
            Access::Load(word) => word,
            Access::Store(word, _) => word,
            Access::Swap(word, _) => word,
            Access::Exchange(word, _, _) => word,
            Access::Sub(word) => word,
            Access::And(word, _) => word,
        }
    }

    /// What it puts into its word, by the number that it finds there.
    pub fn puts(self, found: u64) -> Option<u64>
        ensures { result ≡ put_by self found }
    {
        match self {
            Access::Load(_) => None,
            Access::Store(_, number) => Some(number),
            Access::Swap(_, number) => Some(number),
            Access::Exchange(_, expected, number) => (found == expected).then_some(number),
            Access::Sub(_) => Some(found.wrapping_sub(1)),
            Access::And(_, number) => Some(found & number),
        }
    }

    fn act(self) -> Act
        ensures { result ≡ act_of self }
    {
        match self {
            Access::Load(_) => Act::Load,
            Access::Store(_, _) => Act::Store,
            Access::Swap(_, _) => Act::Swap,
            Access::Exchange(_, _, _) => Act::Cas,
            Access::Sub(_) => Act::Sub,
            Access::And(_, _) => Act::And,
        }
    }

    /// The step as it is seen, by what it found.
    pub fn seen(self, cpu: u32, found: u64, note: Option<Note>) -> Seen
        ensures { result ≡ seen_of cpu self found note }
    {
        Seen {
            cpu,
            act: self.act(),
            word: self.word(),
            found: match self {
                Access::Store(_, _) => None,
                _ => Some(found),
            },
            put: self.puts(found),
            note,
        }
    }
}
