//! The words of a label table, and their law.

ghost use Rattle.std.specs.Prelude.{◌≡◌, ◌↔◌, slice_index, All, IsTrue};
ghost use Rattle.smp_labels.specs.Entries.{IsEntryWord, entry_at};
ghost use Rattle.smp_labels.specs.Law.{site_word, IsPacked, HaveKinds, IsLawful};
ghost use Rattle.smp_labels.specs.Words.{table_of};

use crate::entries::{Entry, is_entry_word};
use crate::keys::{is_key_word, is_on};
use crate::kinds::kind_of;

/// How many keys a table can have: their numbers are 0 to `MOST_KEYS - 1`.
pub const MOST_KEYS: usize = smp_words::size::MOST_KEYS as usize;

/// How many sites a table can have: their numbers are 0 to `MOST_SITES - 1`.
pub const MOST_SITES: usize = smp_words::size::MOST_SITES as usize;

/// The words of a label table: what Linux keeps in `struct static_key`, in `struct jump_entry`
/// (`include/linux/jump_label.h`) and in the code at the sites.
#[derive(Clone, Copy, Debug, PartialEq, Eq)]
pub struct LabelWords {
    /// The count of each key: it is on where that is above 0.
    pub keys: [u64; MOST_KEYS],
    /// [`Entry::word`] of each site, and 0 after the last.
    pub entries: [u64; MOST_SITES],
    /// [`crate::SiteKind::word`] of each site, and 0 where there is no entry.
    pub sites: [u64; MOST_SITES],
}

/// Whether the words are lawful: they have the form that [`LabelWords`] says, with nothing after the
/// last entry, and the kind of each site is that of its key's state and its branch, as
/// `kernel/jump_label.c: jump_label_type`.
pub fn is_lawful(words: &LabelWords) -> bool
    ensures { IsTrue result ↔ IsLawful (table_of words.now) }
{
    words.keys.iter().all(|word| is_key_word(*word))
        && words.entries.iter().all(|word| is_entry_word(*word))
        && is_packed(&words.entries)
        && are_sites_lawful(words)
}

// Whether nothing follows the first 0.
fn is_packed(entries: &[u64; MOST_SITES]) -> bool
    ensures { IsTrue result ↔ IsPacked (slice_index entries.now) }
{
    for i in 1..MOST_SITES {
        if entries[i - 1] == 0 && entries[i] != 0 {
            return false;
        }
    }
    true
}

// Whether each site's word is what its entry and its key make it.
fn are_sites_lawful(words: &LabelWords) -> bool
    requires { All IsEntryWord words.now.entries }
    ensures { IsTrue result ↔ HaveKinds (table_of words.now) }
{
    for i in 0..MOST_SITES {
        if words.sites[i] != lawful_word(&words.keys, words.entries[i]) {
            return false;
        }
    }
    true
}

// The word that the site of this entry word is to have.
fn lawful_word(keys: &[u64; MOST_KEYS], entry: u64) -> u64
    requires { IsEntryWord entry }
    ensures { result ≡ site_word (slice_index keys.now) (entry_at entry) }
{
    match Entry::from_word(entry) {
        None => 0,
        Some(entry) => kind_of(is_on(keys[entry.key as usize]), entry.branch).word(),
    }
}
