//! The keys and the sites that a machine is made with.

ghost use Rattle.std.specs.Prelude.{[], ◌≡◌, ◌≤◌, ◌-◌, ◌++◌, ◌↔◌, length, map, replicate, IsOk, IfOk, true, OnErr, IsErrOf};
ghost use Rattle.smp_labels.specs.Entries.{entry_word};
ghost use Rattle.smp_labels.specs.Labels.{AreLabels, first_site};
ghost use Rattle.smp_labels.specs.Law.{IsLawful};
ghost use Rattle.smp_labels.specs.Words.{table_of};

pub mod kept;

use crate::entries::Entry;
use crate::kinds::kind_of;
use crate::words::{LabelWords, MOST_KEYS, MOST_SITES};
use arrayvec::ArrayVec;
use smp_mask::SmpError;
use std::marker::Model;

/// The keys and the sites that a machine is made with, as the jump table that
/// `kernel/jump_label.c: jump_label_init` walks.
///
/// A contract sees it as the number of its keys and the list of its entries.
#[derive(Clone, Debug, PartialEq, Eq, Drop)]
pub struct LabelMap {
    entries: ArrayVec<Entry, MOST_SITES>,
    keys: u32,
}

impl Model for LabelMap {
    ghost use Rattle.smp_labels.specs.Labels.{Labels, AreLabels};

    ghost Value = { Labels };

    ghost view = { λ m. record { keys = m.keys; entries = m.entries.items } };

    ghost invariant = { λ m. AreLabels m.keys m.entries.items };

    ghost inverse = { λ v. record { entries = record { items = v.entries }; keys = v.keys } };
}

// Whether the entries are the same, one by one.
fn are_same_entries(one: &[Entry], other: &[Entry]) -> bool
    ensures { result ≡ true ↔ one.now ≡ other.now }
{
    if one.len() != other.len() {
        return false;
    }
    for i in 0..one.len() {
        if one[i] != other[i] {
            return false;
        }
    }
    true
}

impl LabelMap {
    /// The map of these entries, in the order of their sites, over the keys 0 to `keys - 1`.
    /// `BadArgument` where there are more than [`MOST_SITES`] entries or more than [`MOST_KEYS`]
    /// keys, or an entry's key is not below `keys`.
    pub fn new(entries: &[Entry], keys: u32) -> Result<LabelMap, SmpError>
        ensures taken { IsOk result ↔ AreLabels keys entries.now }
        ensures refused { OnErr result (IsErrOf result SmpError.BadArgument) }
        ensures made { IfOk result (λ m. m ≡ record { keys = keys; entries = entries.now }) }
    {
        if keys as usize > MOST_KEYS || entries.iter().any(|entry| entry.key >= keys) {
            return Err(SmpError::BadArgument);
        }
        let entries = ArrayVec::try_from(entries).map_err(|_| SmpError::BadArgument)?;
        Ok(LabelMap { entries, keys })
    }

    /// The map of no keys and no sites.
    pub fn empty() -> LabelMap
        ensures { result ≡ record { keys = 0; entries = [] } }
    {
        LabelMap {
            entries: ArrayVec::new(),
            keys: 0,
        }
    }

    /// The words of a table with these entries and all keys off, as keys that are defined by
    /// `DEFINE_STATIC_KEY_FALSE` (`include/linux/jump_label.h`). They are lawful.
    pub fn words(&self) -> LabelWords
        ensures lawful { IsLawful (table_of result) }
        ensures off { result.keys ≡ replicate MOST_KEYS 0 }
        ensures entries { result.entries
            ≡ map entry_word self.now.entries ++ replicate (MOST_SITES - length self.now.entries) 0 }
        ensures sites { result.sites
            ≡ map first_site self.now.entries ++ replicate (MOST_SITES - length self.now.entries) 0 }
        ensures known { AreLabels self.now.keys self.now.entries }
    {
        let mut words = LabelWords {
            keys: [0; MOST_KEYS],
            entries: [0; MOST_SITES],
            sites: [0; MOST_SITES],
        };
        for (site, entry) in self.entries.iter().enumerate() {
            words.entries[site] = entry.word();
            words.sites[site] = kind_of(false, entry.branch).word();
        }
        words
    }

    /// Whether the two have as many keys, and the same entries in the same order.
    pub fn is_same(&self, other: &LabelMap) -> bool
        ensures { result ≡ true ↔ self.now ≡ other.now }
    {
        self.keys == other.keys
            && are_same_entries(self.entries.as_slice(), other.entries.as_slice())
    }

    /// A duplicate of this map.
    pub fn copy(&self) -> LabelMap
        ensures { result ≡ self.now }
    {
        let mut entries = ArrayVec::new();
        for entry in self.entries.iter() {
            entries.push(*entry);
        }
        LabelMap {
            entries,
            keys: self.keys,
        }
    }

    /// The number of keys that it was made with.
    pub fn keys(&self) -> u32
        ensures value { result ≡ self.now.keys }
        ensures within { result ≤ MOST_KEYS }
    {
        self.keys
    }

    /// The number of entries, one for each site.
    pub fn sites(&self) -> u32
        ensures value { result ≡ length self.now.entries }
        ensures within { result ≤ MOST_SITES }
    {
        self.entries.len() as u32
    }
}
