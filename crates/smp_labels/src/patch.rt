//! The plan of a patch.

ghost use Rattle.std.specs.Prelude.{◌≡◌, ℕ, ◌<◌, ◌≤◌, ◌↔◌, ◌⊎◌, None, ◌++◌, List, slice_index, IfOk, OnErr, IsErrOf};
ghost use Rattle.smp_labels.specs.Keys.{count_after, count_left, edge_of};
ghost use Rattle.smp_labels.specs.Law.{IsLawful};
ghost use Rattle.smp_labels.specs.Words.{table_of};
ghost use Rattle.smp_labels.specs.Plans.{applied, plan_of, SetsKey, StandsPartWay};

use crate::entries::Entry;
use crate::keys::{Change, is_on};
use crate::kinds::kind_of;
use crate::words::{LabelWords, MOST_KEYS, MOST_SITES};
use arrayvec::ArrayVec;
use smp_mask::SmpError;

/// How many words a plan can change: a key and all sites.
pub const MOST_CHANGES: usize = MOST_SITES + 1;

/// A word of a label table that a patch can change.
#[derive(Clone, Copy, Debug, PartialEq, Eq)]
pub enum Place {
    /// The word of this key.
    Key(u32),
    /// The word of this site.
    Site(u32),
}

/// What an `ArrayVec` of changes has in its unused places.
impl Default for Place {
    ghost use Rattle.smp_labels.specs.declared.patch.Place.TheVariants.{Key};

    ghost is_default = { λ p. p ≡ Key 0 };

    fn default() -> Place {
        Place::Key(0)
    }
}

/// The words that change a key's count, in the order in which they are stored: none where the count
/// stays; the key's word alone where the key is on or off as before; else the key's word, then the word
/// of each of its sites, ascending, as `kernel/jump_label.c: jump_label_update`. `BadArgument` where
/// `key` is not below [`MOST_KEYS`], then `KeyRange` where the count is at that end of its range.
///
/// The words must be lawful. With all stored they are lawful again, and nothing but the key and its
/// sites has changed; until then only what is stored has changed. So the words of the plan are to be
/// stored while nobody reads them, in one stop of the machine: that is this project's own choice,
/// where Linux on x86 patches the sites in three passes under a breakpoint.
pub fn plan(
    words: &LabelWords,
    key: u32,
    change: Change,
) -> Result<ArrayVec<(Place, u64), MOST_CHANGES>, SmpError>
    requires { IsLawful (table_of words.now) }
    ensures refused { IsErrOf result SmpError.BadArgument ↔ (MOST_KEYS ≤ key) }
    ensures stopped { IsErrOf result (SmpError.KeyRange (edge_of change)) ↔ ((key < MOST_KEYS) × (count_after change (slice_index words.now.keys key) ≡ None)) }
    ensures only { OnErr result (IsErrOf result SmpError.BadArgument ⊎ IsErrOf result (SmpError.KeyRange (edge_of change))) }
    ensures exact { let old = slice_index words.now.keys key in IfOk result (λ p.
        p.items ≡ plan_of key old (count_left change old) words.now.entries) }
    ensures leads { let t = table_of words.now in IfOk result (λ p. SetsKey key (count_left change (t.key key)) t (applied p.items t)) }
    ensures part_way { let t = table_of words.now in IfOk result (λ p. (front rest : List (Place × ℕ)) →
        p.items ≡ front ++ rest → StandsPartWay key (count_left change (t.key key)) front rest t) }
{
    if key as usize >= MOST_KEYS {
        return Err(SmpError::BadArgument);
    }
    let old = words.keys[key as usize];
    let Some(new) = change.count_after(old) else {
        return Err(SmpError::KeyRange(change.edge()));
    };
    let mut plan = ArrayVec::new();
    if old == new {
        return Ok(plan);
    }
    plan.push((Place::Key(key), new));
    if is_on(new) == is_on(old) {
        return Ok(plan);
    }
    for (site, word) in words.entries.iter().enumerate() {
        if let Some(entry) = Entry::from_word(*word)
            && entry.key == key
        {
            plan.push((
                Place::Site(site as u32),
                kind_of(is_on(new), entry.branch).word(),
            ));
        }
    }
    Ok(plan)
}
