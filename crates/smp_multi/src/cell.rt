//! Where each word lies in the table. Only this page and its proofs know.
//!
//! Processors take memory from each other by lines of eight words. Words that CPUs use together form a group. **The
//! rule: no line has words of two groups, wherever the table begins** (its memory is only aligned as a word is,
//! `atomic_table`). Two words can lie in one line only where their cells differ by less than eight, so each group
//! begins eight cells or more after the last word of the group before:
//!
//! | Group | Who uses it, and when |
//! |---|---|
//! | the gate | each source that tries to take it |
//! | kind, mask, active, func and arg of a slot | its source before the stop is open; its CPUs as they enter, and at the function |
//! | its state | its CPUs, which poll it |
//! | its count of acknowledgements | its CPUs, once in each phase |
//! | its roll | its CPUs, as they enter |
//! | its count of completions, and its result | its CPUs, as they complete |
//! | done | its source, which polls it |
//! | keys, entries and sites | all CPUs, which read them; the runner of a patch |
//!
//! So a CPU that polls the state takes no line from those that acknowledge, and a source that polls done none from
//! those that complete.

ghost use Rattle.std.specs.Prelude.{◌≡◌, Some};
ghost use Rattle.smp_multi.specs.Cells.{HasCell, cell_of, offset_of};

use smp_words::field::Field;
use smp_words::size::{MOST_KEYS, MOST_SITES, NR_CPUS};
use smp_words::word::Word;

/// The words of one cache line of 64 bytes.
const LINE: usize = 8;

/// Where the groups of a slot begin in it, after the first.
const STATE_AT: usize = 2 * LINE;

const ACK_AT: usize = 3 * LINE;

const ROLL_AT: usize = 4 * LINE;

const TODO_AT: usize = 5 * LINE;

const DONE_AT: usize = 7 * LINE;

/// How far apart two slots begin.
const SLOTS_APART: usize = 8 * LINE;

/// Where the slots begin: the gate is before them.
const FIRST_SLOT: usize = LINE;

/// Where the keys, the entries and the sites begin.
const FIRST_KEY: usize = FIRST_SLOT + SLOTS_APART * NR_CPUS as usize;

pub(crate) const FIRST_ENTRY: usize = FIRST_KEY + MOST_KEYS as usize;

const FIRST_SITE: usize = FIRST_ENTRY + MOST_SITES as usize;

/// The cells of the table.
pub(crate) const CELLS: usize = FIRST_SITE + MOST_SITES as usize;

// The first group of a slot has five words and that of the completions two; each ends eight cells before the next.
const _: () = prove!(STATE_AT >= 4 + LINE);

const _: () = prove!(DONE_AT >= TODO_AT + 1 + LINE);

const _: () = prove!(SLOTS_APART >= DONE_AT + LINE);

/// How far a field lies from the beginning of its slot.
#[inline(always)]
fn offset(field: Field) -> usize
    ensures { result ≡ offset_of field }
{
    match field {
        Field::Kind => 0,
        Field::Mask => 1,
        Field::Active => 2,
        Field::Func => 3,
        Field::Arg => 4,
        Field::State => STATE_AT,
        Field::Ack => ACK_AT,
        Field::Roll => ROLL_AT,
        Field::Todo => TODO_AT,
        Field::Result => TODO_AT + 1,
        Field::Done => DONE_AT,
    }
}

/// The cell of a word, by its kind: no test of its slot, key or site is made, since the caller has shown that there is
/// a cell. Where the kind is known, as at each access, this is a sum.
#[inline(always)]
pub(crate) fn cell(word: Word) -> usize
    requires { HasCell word }
    ensures { cell_of word ≡ Some result }
{
    match word {
        Word::Gate => 0,
        Word::Slot(source, field) => FIRST_SLOT + SLOTS_APART * source as usize + offset(field),
        Word::Key(key) => FIRST_KEY + key as usize,
        Word::Entry(site) => FIRST_ENTRY + site as usize,
        Word::Site(site) => FIRST_SITE + site as usize,
        _ => 0,
    }
}
