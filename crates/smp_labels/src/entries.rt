//! The entries of the sites.

ghost use Rattle.std.specs.Prelude.{◌≡◌, ◌↔◌, IsTrue, IfSome, IfNone};
ghost use Rattle.smp_labels.specs.Entries.{entry_word, entry_at, IsEntryWord};

use crate::words::MOST_KEYS;

/// A site as it was declared, as Linux's `struct jump_entry` (`include/linux/jump_label.h`).
#[derive(Clone, Copy, Debug, Default, PartialEq, Eq)]
pub struct Entry {
    /// The number of its key.
    pub key: u32,
    /// Whether the site jumps while its key is off, as `jump_entry_is_branch`.
    pub branch: bool,
}

impl Entry {
    /// The entry's word, which is never 0.
    pub fn word(self) -> u64
        ensures { result ≡ entry_word self }
    {
        2 * u64::from(self.key) + u64::from(self.branch) + 1
    }

    /// The entry of a word, or none where the word is 0. The key of an entry word must be below
    /// [`MOST_KEYS`], as in all lawful words.
    pub fn from_word(word: u64) -> Option<Entry>
        requires { IsEntryWord word }
        ensures value { result ≡ entry_at word }
        ensures entry { IfSome result (λ e. entry_word e ≡ word) }
        ensures none { IfNone result (word ≡ 0) }
    {
        let bits = word.checked_sub(1)?;
        Some(Entry {
            key: (bits / 2) as u32,
            branch: bits % 2 == 1,
        })
    }
}

/// Whether the word is 0, or of an entry whose key a table can have.
pub(crate) fn is_entry_word(word: u64) -> bool
    ensures { IsTrue result ↔ IsEntryWord word }
{
    word <= 2 * MOST_KEYS as u64
}
