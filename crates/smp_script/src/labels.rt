//! The labels line of a script.

ghost use Rattle.std.specs.Prelude.{◌≡◌, ◌≤◌, map, IfOk, MatchOption};
ghost use Rattle.std.specs.List.{list_all};
ghost use Rattle.smp_script.specs.Labels.{entries_in, entry_of, has_number, is_below, is_item, item_of, items_of, labels_in};

use crate::decimal::{is_number, read_from_to, read_u32};
use crate::line::{is_word, parts, split_part};
use arrayvec::ArrayVec;
use smp_labels::{Entry, LabelMap, MOST_KEYS, MOST_SITES};
use smp_mask::Cause;
use std::alloc::{AllocError, Allocator};

// The text of an item's key and its branch, or nothing where it is no `KEY:BRANCH`.
fn split_item(item: &[u8]) -> Option<(&[u8], bool)>
    ensures { MatchOption result (item_of item.now ≡ None) (λ p. item_of item.now ≡ Some (p.0.now, p.1)) }
{
    let (key, branch) = split_part(item, b':')?;
    if is_word(branch, b"0") {
        return Some((key, false));
    }
    if is_word(branch, b"1") {
        return Some((key, true));
    }
    None
}

fn is_item(item: &[u8]) -> bool
    ensures { result ≡ is_item item.now }
{
    split_item(item).is_some()
}

// Whether each is an item.
fn are_items(items: &[&[u8]]) -> bool
    ensures { result ≡ list_all (λ i. is_item i.now) items.now }
{
    items.iter().all(|item| is_item(item))
}

// Whether an item's key is a number.
fn has_number(item: &[u8]) -> bool
    ensures { result ≡ has_number item.now }
{
    match split_item(item) {
        Some((key, _)) => is_number(key),
        None => false,
    }
}

// Whether the key of each is.
fn have_numbers(items: &[&[u8]]) -> bool
    ensures { result ≡ list_all (λ i. has_number i.now) items.now }
{
    items.iter().all(|item| has_number(item))
}

// Whether an item's key is a number below `keys`.
fn is_below(keys: u32, item: &[u8]) -> bool
    ensures { result ≡ is_below keys item.now }
{
    match split_item(item) {
        Some((text, _)) => match read_u32(text) {
            Ok(key) => key < keys,
            Err(_) => false,
        },
        None => false,
    }
}

// Whether the key of each is.
fn are_below(keys: u32, items: &[&[u8]]) -> bool
    ensures { result ≡ list_all (λ i. is_below keys i.now) items.now }
{
    items.iter().all(|item| is_below(keys, item))
}

// The entry of an item; some entry where it is no item, or its key no number of 32 bits.
fn entry(item: &[u8]) -> Entry
    ensures { result ≡ entry_of item.now }
{
    match split_item(item) {
        Some((text, branch)) => Entry {
            key: read_u32(text).unwrap_or(0),
            branch,
        },
        None => Entry::default(),
    }
}

// The map of these items over the keys below `keys`.
#[tactic(auto, using(crate::proofs::Reader::Items::all_map, crate::proofs::Reader::Items::entries_below, crate::proofs::Reader::Items::many_items))]
fn read_entries(keys: u32, items: &[&[u8]]) -> Result<LabelMap, Cause>
    requires { keys ≤ MOST_KEYS }
    ensures { result ≡ entries_in keys (map (λ i. i.now) items.now) }
{
    if !have_numbers(items) {
        return Err(Cause::Number);
    }
    if items.len() > MOST_SITES {
        return Err(Cause::Range);
    }
    if !are_below(keys, items) {
        return Err(Cause::Range);
    }
    let mut entries = ArrayVec::<Entry, MOST_SITES>::new();
    for item in items {
        entries.push(entry(item));
    }
    match LabelMap::new(entries.as_slice(), keys) {
        Ok(labels) => Ok(labels),
        Err(_) => Err(Cause::Range),
    }
}

/// The items of a labels line: none where it has `-` in their place.
pub fn split_items<A: Allocator>(alloc: A, text: &[u8]) -> Result<Vec<&[u8], A>, AllocError>
    ensures { IfOk result (λ v. map (λ i. i.now) v.items ≡ items_of text.now) }
{
    if is_word(text, b"-") {
        return Ok(Vec::new(alloc));
    }
    parts(alloc, text, b',')
}

/// The labels of this number of keys and these items. A wrong item is told before all else, then what is wrong with
/// the number of keys, and then of any item first a key that is no number.
#[tactic(auto, using(crate::proofs::Reader::Items::all_map), unfolding(crate::specs::Labels::labels_in))]
pub fn read_labels(keys: &[u8], items: &[&[u8]]) -> Result<LabelMap, Cause>
    ensures { result ≡ labels_in keys.now (map (λ i. i.now) items.now) }
{
    if !are_items(items) {
        return Err(Cause::Word);
    }
    let keys = read_from_to(keys, 0, MOST_KEYS as u32)?;
    read_entries(keys, items)
}
