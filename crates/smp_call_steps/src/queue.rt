//! A chain of records, as the words link them.

ghost use Rattle.std.specs.Prelude.{◌≡◌, ◌==◌, length};
ghost use Rattle.std.specs.List.{list_any};
ghost use Rattle.smp_words.specs.Size.{records, table_size};
ghost use Rattle.smp_words.specs.Layout.{number_in};
ghost use Rattle.smp_call_steps.specs.Words.{nexts_in};
ghost use Rattle.smp_call_steps.specs.Queues.{HasChain, chain_in};

use crate::table::read;
use arrayvec::ArrayVec;
use smp_words::size::{MOST_CALLS, RECORDS};
use smp_words::word::Word;

/// The records that the next words lead through from this link, oldest first.
pub fn chain(words: &[u64], first: u64) -> ArrayVec<u32, MOST_CALLS>
    requires sized { length words.now ≡ table_size }
    requires chained { HasChain (nexts_in (number_in words.now)) first }
    ensures { result.items ≡ chain_in (nexts_in (number_in words.now)) records first }
{
    let mut passed = ArrayVec::new();
    let mut link = first;
    for _round in 0..RECORDS {
        if link == 0 {
            break;
        }
        let id = (link - 1) as u32;
        passed.push(id);
        link = read(words, Word::Next(id));
    }
    passed.as_mut_slice().reverse();
    passed
}

/// Whether they lead through this record.
pub fn is_on_chain(words: &[u64], first: u64, id: u32) -> bool
    requires sized { length words.now ≡ table_size }
    requires chained { HasChain (nexts_in (number_in words.now)) first }
    ensures { result ≡ list_any (λ r. r == id) (chain_in (nexts_in (number_in words.now)) records first) }
{
    let mut link = first;
    for _round in 0..RECORDS {
        if link == 0 {
            return false;
        }
        let here = (link - 1) as u32;
        if here == id {
            return true;
        }
        link = read(words, Word::Next(here));
    }
    false
}
