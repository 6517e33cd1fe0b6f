//! The keys and sites of the model, and what a patch is to store.

ghost use Rattle.std.specs.Prelude.{◌≡◌};
ghost use Rattle.trace_model.specs.Cpu.{Makes};
ghost use Rattle.trace_model.specs.Labels.{count_at, entry_of, front_of, is_site, key_number, nudged, patch_for};
ghost use Rattle.trace_model.specs.Labels.{patch_now, popped, read_key, read_site, site_at, site_from, stored};
ghost use Rattle.trace_model.specs.Labels.{to_be};

use crate::reason::Reason;
use crate::stop::{Patch, Stop};
use smp_labels::{Change, LabelWords, MOST_COUNT, Place, is_on, kind_of};

/// The count of a key; 0 where there is no such key.
pub(crate) fn count_at(words: &LabelWords, key: u32) -> u64
    ensures { result ≡ count_at words.now key }
{
    if key < 4 { words.keys[key as usize] } else { 0 }
}

/// The word of a site; 0 where there is no such site.
fn site_at(words: &LabelWords, site: u32) -> u64
    ensures { result ≡ site_at words.now site }
{
    if site < 16 {
        words.sites[site as usize]
    } else {
        0
    }
}

/// The key of a site, and its branch; none where there is no such site.
fn entry_of(words: &LabelWords, site: u32) -> Option<(u64, bool)>
    ensures { result ≡ entry_of words.now site }
{
    if site >= 16 {
        return None;
    }
    let word = words.entries[site as usize];
    if word == 0 {
        return None;
    }
    Some(((word - 1) / 2, (word - 1) % 2 == 1))
}

/// Whether a site is of a key.
fn is_site(words: &LabelWords, key: u64, site: u32) -> bool
    ensures { result ≡ is_site words.now key site }
{
    match entry_of(words, site) {
        Some(entry) => entry.0 == key,
        None => false,
    }
}

/// The number of a key; a number above 32 bits is of none.
fn key_number(key: u64) -> u32
    ensures { result ≡ key_number key }
{
    key.min(u32::MAX as u64) as u32
}

/// The first site of a key from this one on.
#[tactic(auto, using(crate::proofs::Least::first_hit, crate::proofs::Least::first_miss, crate::proofs::Least::first_end))]
fn site_from(words: &LabelWords, key: u64, from: u32) -> Option<u32>
    ensures { result ≡ site_from words.now key from }
{
    for site in from..16 {
        if is_site(words, key, site) {
            return Some(site);
        }
    }
    None
}

/// What a patch of a key is to store, by its count as it is now.
fn patch_for(words: &LabelWords, key: u32, change: u64) -> Patch
    ensures { result ≡ patch_for words.now key change }
{
    let old = count_at(words, key);
    match Change::from_word(change).count_after(old) {
        Some(count) => Patch {
            count,
            counts: count != old,
            turns: is_on(count) != is_on(old),
            from: 0,
            at_edge: false,
        },
        None => Patch {
            count: old,
            counts: false,
            turns: false,
            from: 0,
            at_edge: true,
        },
    }
}

/// What is left of the patch of a stop; by the count as it is, where that is not known yet.
pub(crate) fn patch_now(words: &LabelWords, stop: &Stop) -> Patch
    ensures { result ≡ patch_now words.now stop.now }
{
    match stop.patch {
        Some(patch) => patch,
        None => patch_for(words, key_number(stop.task.func), stop.task.arg),
    }
}

/// The next store of a patch: its key's count, then its sites, ascending.
pub(crate) fn front_of(words: &LabelWords, key: u64, patch: &Patch) -> Option<(Place, u64)>
    ensures { result ≡ front_of words.now key patch.now }
{
    if patch.counts {
        return Some((Place::Key(key_number(key)), patch.count));
    }
    if !patch.turns {
        return None;
    }
    let site = site_from(words, key, patch.from)?;
    let entry = entry_of(words, site)?;
    Some((
        Place::Site(site),
        kind_of(is_on(patch.count), entry.1).word(),
    ))
}

/// Why an event is none, where this store is the next.
pub(crate) fn to_be(store: (Place, u64)) -> Reason
    ensures { result ≡ to_be store }
{
    match store.0 {
        Place::Key(key) => Reason::KeyToBe(key, store.1),
        Place::Site(site) => Reason::SiteToBe(site, store.1 != 0),
    }
}

/// What is left of a patch once that store is made.
pub(crate) fn popped(patch: &Patch, store: Place) -> Patch
    ensures { result ≡ popped patch.now store }
{
    match store {
        Place::Key(_) => Patch {
            counts: false,
            ..*patch
        },
        Place::Site(site) => Patch {
            from: site.saturating_add(1),
            ..*patch
        },
    }
}

/// Makes a store.
pub(crate) fn store(words: &mut LabelWords, place: Place, word: u64)
    ensures { words.new ≡ stored place word words.old }
{
    match place {
        Place::Key(key) => {
            if key < 4 {
                words.keys[key as usize] = word;
            }
        }
        Place::Site(site) => {
            if site < 16 {
                words.sites[site as usize] = word;
            }
        }
    }
}

/// Refuses where a key does not read so.
pub(crate) fn read_key(words: &LabelWords, key: u32, on: bool) -> Result<(), Reason>
    ensures { result ≡ read_key words.now key on }
{
    let is = is_on(count_at(words, key));
    if is != on {
        return Err(Reason::KeyIs(key, is));
    }
    Ok(())
}

/// Refuses where a site does not read so.
pub(crate) fn read_site(words: &LabelWords, site: u32, jumps: bool) -> Result<(), Reason>
    ensures { result ≡ read_site words.now site jumps }
{
    let is = site_at(words, site) != 0;
    if is != jumps {
        return Err(Reason::SiteIs(site, is));
    }
    Ok(())
}

/// Changes a count by one outside a patch: up where it is 1 or more and below the most, down where it is 2 or more.
pub(crate) fn nudge(words: &mut LabelWords, key: u32, up: bool) -> Result<(), Reason>
    ensures { Makes result words.new (nudged key up words.old) }
{
    let count = count_at(words, key);
    let next = if up {
        if count == 0 || count >= MOST_COUNT {
            return Err(Reason::CountIs(key, count));
        }
        count + 1
    } else {
        if count < 2 {
            return Err(Reason::CountIs(key, count));
        }
        count - 1
    };
    store(words, Place::Key(key), next);
    Ok(())
}
