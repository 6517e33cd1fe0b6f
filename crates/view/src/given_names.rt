//! What lines 2 and 3 of an exploration give: the CPUs, records, slots, keys and sites that a name may have.

use crate::fault::line_text;
use smp_script::decimal::number;
use smp_script::line::{is_word, split_part};
use smp_words::size::{FIRST_RECORDS, FIRST_TARGETS, MORE_OF_ONE, RECORDS, owner_of};

/// How many CPUs, keys and sites there are.
#[derive(Clone, Copy)]
pub struct GivenNames {
    pub nr: u32,
    pub keys: u32,
    pub sites: u32,
}

/// Whether a field is one of these words.
pub fn is_one_of(field: &[u8], words: &[&str]) -> bool {
    words.iter().any(|word| is_word(field, word.as_bytes()))
}

// A number of 32 bits; 0 where the field is none.
fn number_or_zero(field: &[u8]) -> u32 {
    match number(field, 0, u64::from(u32::MAX)) {
        Ok(n) => n as u32,
        Err(_) => 0,
    }
}

// The two fields behind the word of a line, where it begins with this word and has as many.
fn behind<'a>(text: &'a [u8], line: u32, word: &[u8]) -> Option<(&'a [u8], &'a [u8])> {
    let (first, rest) = split_part(line_text(text, line)?, b' ')?;
    if is_word(first, word) {
        split_part(rest, b' ')
    } else {
        None
    }
}

// How many items there are between commas; none in `-`.
fn count_of(items: &[u8]) -> u32 {
    if is_word(items, b"-") {
        return 0;
    }
    let mut count = 1u32;
    for byte in items {
        if *byte == b',' {
            count = count.saturating_add(1);
        }
    }
    count
}

impl GivenNames {
    /// What lines 2 and 3 of this text give.
    pub fn of(text: &[u8]) -> Self {
        let nr = match behind(text, 2, b"cpus") {
            Some((nr, _)) => number_or_zero(nr),
            None => 0,
        };
        let (keys, sites) = match behind(text, 3, b"labels") {
            Some((keys, items)) => (number_or_zero(keys), count_of(items)),
            None => (0, 0),
        };
        GivenNames { nr, keys, sites }
    }

    // Whether a CPU that there is has this record.
    fn gives_record(self, id: u32) -> bool {
        if id >= RECORDS || owner_of(id) >= self.nr {
            return false;
        }
        id < FIRST_RECORDS || FIRST_TARGETS + (id - FIRST_RECORDS) % MORE_OF_ONE < self.nr
    }

    /// Whether there is what has this number in a name that begins with this word.
    pub fn gives(self, word: &[u8], number: u32) -> bool {
        if is_word(word, b"key") {
            number < self.keys
        } else if is_one_of(word, &["entry", "site"]) {
            number < self.sites
        } else if is_one_of(word, &["flags", "func", "info", "next", "place"]) {
            self.gives_record(number)
        } else {
            number < self.nr
        }
    }
}
