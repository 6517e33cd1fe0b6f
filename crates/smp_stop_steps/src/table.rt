//! The words of a stop table, and what an access does to them.

ghost use Rattle.std.specs.Prelude.{◌≡◌, ◌↔◌, true, IfOk, replicate};
ghost use Rattle.smp_words.specs.Access.{word_of};
ghost use Rattle.smp_stop_steps.specs.Value.{IsStopTable};
ghost use Rattle.smp_stop_steps.specs.Table.{slot_cell as cell_in, stop_number, stop_number_of, stop_put, stop_words_after};

pub mod kept;

use smp_labels::LabelWords;
use smp_words::access::Access;
use smp_words::field::Field;
use smp_words::size::{FIELDS, NR_CPUS, SLOT_WORDS};
use smp_words::word::Word;
use std::alloc::{AllocError, Allocator};
use std::marker::Model;

/// The words of a stop table: the gate, the rendezvous slots, and the labels.
#[derive(Drop)]
pub struct WordTable<A: Allocator> {
    gate: u64,
    slots: Vec<u64, A>,
    labels: LabelWords,
}

impl<A: Allocator> Model for WordTable<A> {
    ghost use Rattle.std.specs.Prelude.{◌≡◌, length};
    ghost use Rattle.smp_stop_steps.specs.Table.{StopWords};
    ghost use Rattle.smp_words.specs.declared.size.TheConstants.{SLOT_WORDS};

    ghost Value = { StopWords };

    ghost view = { λ t. record { gate = t.gate; slots = t.slots.items; keys = t.labels.keys; entries = t.labels.entries; sites = t.labels.sites } };

    ghost invariant = { λ t. length t.slots.items ≡ SLOT_WORDS };
}

/// The place of a field among the words of all slots; none where there is no such slot.
fn slot_cell(slot: u32, field: Field) -> Option<usize>
    ensures { result ≡ cell_in slot field }
{
    if slot < NR_CPUS {
        Some(FIELDS * slot as usize + field.place())
    } else {
        None
    }
}

fn read_at(words: &[u64], index: usize) -> u64
    ensures { result ≡ slice_index words.now index }
{
    if index < words.len() { words[index] } else { 0 }
}

fn write_at(words: &mut [u64], index: usize, number: u64)
    ensures { words.new ≡ slice_set words.old index number }
{
    if index < words.len() {
        words[index] = number;
    }
}

ghost use Rattle.std.specs.Prelude.{slice_index, slice_set};

impl<A: Allocator> WordTable<A> {
    /// A table with a free gate, free slots, and these labels.
    pub fn new(alloc: A, labels: LabelWords) -> Result<Self, AllocError>
        ensures sized { IfOk result IsStopTable }
        ensures made { IfOk result (λ t. t ≡ record {
          gate = 0;
          slots = replicate SLOT_WORDS 0;
          keys = labels.keys;
          entries = labels.entries;
          sites = labels.sites;
        }) }
    {
        let slots = vec![in alloc; 0; SLOT_WORDS]?;
        Ok(WordTable {
            gate: 0,
            slots,
            labels,
        })
    }

    /// A duplicate of this table.
    pub fn copy(&self, alloc: A) -> Result<Self, AllocError>
        ensures { IfOk result (λ copy. copy ≡ self.now) }
    {
        let mut slots = Vec::with_capacity(alloc, SLOT_WORDS)?;
        slots.extend_from_slice(&self.slots)?;
        Ok(WordTable {
            gate: self.gate,
            slots,
            labels: self.labels,
        })
    }

    /// Whether all words are the same.
    pub fn is_same(&self, other: &Self) -> bool
        ensures { result ≡ true ↔ self.now ≡ other.now }
    {
        self.gate == other.gate
            && self.slots.as_slice() == other.slots.as_slice()
            && self.labels == other.labels
    }

    /// The number in a word; 0 where there is no such word.
    pub fn read(&self, word: Word) -> u64
        ensures { result ≡ stop_number self.now word }
    {
        match word {
            Word::Gate => self.gate,
            Word::Slot(slot, field) => match slot_cell(slot, field) {
                Some(cell) => self.slots[cell],
                None => 0,
            },
            Word::Key(key) => read_at(&self.labels.keys, key as usize),
            Word::Entry(site) => read_at(&self.labels.entries, site as usize),
            Word::Site(site) => read_at(&self.labels.sites, site as usize),
            _ => 0,
        }
    }

    /// The number in a word; none where there is no such word.
    pub fn word(&self, word: Word) -> Option<u64>
        ensures { result ≡ stop_number_of self.now word }
    {
        match word {
            Word::Gate => Some(self.gate),
            Word::Slot(slot, field) => slot_cell(slot, field).map(|cell| self.slots[cell]),
            Word::Key(key) => self.labels.keys.get(key as usize).copied(),
            Word::Entry(site) => self.labels.entries.get(site as usize).copied(),
            Word::Site(site) => self.labels.sites.get(site as usize).copied(),
            _ => None,
        }
    }

    fn write(&mut self, word: Word, number: u64)
        ensures { self.new ≡ stop_put self.old word number }
    {
        match word {
            Word::Gate => self.gate = number,
            Word::Slot(slot, field) => {
                if let Some(cell) = slot_cell(slot, field) {
                    self.slots[cell] = number;
                }
            }
            Word::Key(key) => write_at(&mut self.labels.keys, key as usize, number),
            Word::Entry(site) => write_at(&mut self.labels.entries, site as usize, number),
            Word::Site(site) => write_at(&mut self.labels.sites, site as usize, number),
            _ => {}
        }
    }

    /// Makes one access, and answers what it found.
    pub fn perform(&mut self, access: Access) -> u64
        ensures found { result ≡ stop_number self.old (word_of access) }
        ensures words { self.new ≡ stop_words_after self.old access }
    {
        let word = access.word();
        let found = self.read(word);
        if let Some(number) = access.puts(found) {
            self.write(word, number);
        }
        found
    }
}
