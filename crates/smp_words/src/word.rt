//! The words of both tables, by name and by number.

ghost use Rattle.std.specs.Prelude.{◌≡◌, ◌<◌, ◌≤◌};
ghost use Rattle.smp_words.specs.Layout.{index_of, cpu_word, pair_word, record_word};
ghost use Rattle.smp_words.specs.StopLayout.{stop_index_of, slot_word, label_word};

use crate::field::Field;
use crate::size::{
    ENTRIES, FIELDS, FLAGS, FUNCS, GATE, HANDS, HEADS, INFOS, INTRS, KEYS, MOST_KEYS, MOST_SITES,
    NEXTS, NR_CPUS, QUEUED, RAN, RECORDS, SITES, SLOTS, WORDS, WORDS_OF_ONE,
};

/// A word, by its name: those up to `Next` are of the call table, the others of the stop table. CPUs, records,
/// keys and sites are numbers.
#[derive(Clone, Copy, Debug, PartialEq, Eq)]
pub enum Word {
    /// The newest record of this CPU's queue + 1, or 0 (`call_single_queue`).
    Head(u32),
    /// 1 where an interrupt is pending for this CPU.
    Intr(u32),
    /// 0 where this CPU handles nothing, else 1 or, from the entry of a SYNC call, its record + 2.
    Hand(u32),
    /// The calls that the first CPU has queued for the second, modulo 2^64.
    Queued(u32, u32),
    /// The calls from the second CPU that the first has run, modulo 2^64.
    Ran(u32, u32),
    /// 0 where this record is free, else LOCK and the class (`csd->node.u_flags`).
    Flags(u32),
    /// The function of this record's call.
    Func(u32),
    /// The info of this record's call.
    Info(u32),
    /// The record queued before this one + 1, or 0 (`llist_node.next`).
    Next(u32),
    /// The holder of the gate that orders all stops + 1, or 0.
    Gate,
    /// A word of this source's rendezvous slot.
    Slot(u32, Field),
    /// The word of this label key.
    Key(u32),
    /// The entry of this label site.
    Entry(u32),
    /// The word of this label site.
    Site(u32),
}

/// The number of a word in the call table; none where there is no such CPU or record, and for a word of the stop
/// table.
pub fn call_index(word: Word) -> Option<usize>
    ensures { result ≡ index_of word }
{
    match word {
        Word::Head(cpu) => of_cpu(HEADS, cpu),
        Word::Intr(cpu) => of_cpu(INTRS, cpu),
        Word::Hand(cpu) => of_cpu(HANDS, cpu),
        Word::Queued(from, to) => of_pair(QUEUED, from, to),
        Word::Ran(by, from) => of_pair(RAN, by, from),
        Word::Flags(id) => of_record(FLAGS, id),
        Word::Func(id) => of_record(FUNCS, id),
        Word::Info(id) => of_record(INFOS, id),
        Word::Next(id) => of_record(NEXTS, id),
        Word::Gate | Word::Slot(_, _) | Word::Key(_) | Word::Entry(_) | Word::Site(_) => None,
    }
}

/// The number of a word in the stop table; none where there is no such slot, key or site, and for a word of the call
/// table.
pub fn stop_index(word: Word) -> Option<usize>
    ensures { result ≡ stop_index_of word }
{
    match word {
        Word::Gate => Some(GATE),
        Word::Slot(source, field) => of_slot(source, field),
        Word::Key(key) => of_label(KEYS, MOST_KEYS, key),
        Word::Entry(site) => of_label(ENTRIES, MOST_SITES, site),
        Word::Site(site) => of_label(SITES, MOST_SITES, site),
        _ => None,
    }
}

fn of_cpu(base: usize, cpu: u32) -> Option<usize>
    requires { base ≤ WORDS }
    ensures { result ≡ cpu_word base cpu }
{
    if cpu < NR_CPUS {
        Some(base + cpu as usize)
    } else {
        None
    }
}

fn of_pair(base: usize, row: u32, column: u32) -> Option<usize>
    requires { base ≤ WORDS }
    ensures { result ≡ pair_word base row column }
{
    if row < NR_CPUS && column < NR_CPUS {
        Some(base + NR_CPUS as usize * row as usize + column as usize)
    } else {
        None
    }
}

fn of_record(base: usize, id: u32) -> Option<usize>
    requires { base ≤ WORDS }
    ensures { result ≡ record_word base id }
{
    if id < RECORDS {
        Some(base + WORDS_OF_ONE * id as usize)
    } else {
        None
    }
}

fn of_slot(source: u32, field: Field) -> Option<usize>
    ensures { result ≡ slot_word source field }
{
    if source < NR_CPUS {
        Some(SLOTS + FIELDS * source as usize + field.place())
    } else {
        None
    }
}

fn of_label(base: usize, most: u32, number: u32) -> Option<usize>
    requires { base ≤ SITES }
    ensures { result ≡ label_word base most number }
{
    if number < most {
        Some(base + number as usize)
    } else {
        None
    }
}
