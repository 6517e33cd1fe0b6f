//! Where each word lies in the table. Only this page and its proofs know.
//!
//! Processors take memory from each other by lines of eight words. Words that one CPU uses together form a
//! group: one head, one interrupt word, one handling word, all tallies of one CPU, one record. **The rule: no line
//! has words of two groups, wherever the table begins** (its memory is only aligned as a word is, `atomic_table`).
//! So a CPU that polls takes no line from another that polls, one that runs a call none from the target of another
//! call, and one that counts none from anyone.
//!
//! Two words can lie in one line only where their cells differ by less than eight. So each group begins eight cells
//! or more after the last word of the group before:
//!
//! | Words | Groups begin each | From |
//! |---|---|---|
//! | heads, interrupt words, handling words, in the order of their numbers | `LINE` cells | 0 |
//! | the tallies of a CPU: its queued row, then its ran row; it alone writes both | `TALLIES_APART` cells | `TALLIES` |
//! | a record | `RECORDS_APART` cells | `FIRST_RECORD` |
//!
//! Records begin two lines apart, where eleven cells would do, so that all begin at the same word of a line: where
//! the table begins in the first five words of a line, each record lies in one.

ghost use Rattle.std.specs.Prelude.{◌≡◌, ◌≤◌, ◌-◌, ◌+◌, ◌*◌, Some};
ghost use Rattle.smp_queue.specs.Cells.{HasCell, cell_of};

use smp_words::Word;
use smp_words::size::{
    FLAGS, FUNCS, HANDS, HEADS, INFOS, INTRS, NEXTS, NR_CPUS, QUEUED, RECORDS, WORDS, WORDS_OF_ONE,
};

/// The words of one cache line of 64 bytes.
const LINE: usize = 8;

/// Where the tallies begin: all words of lower numbers have a line each.
const TALLIES: usize = LINE * QUEUED;

/// The words of one row of tallies.
const ROW: usize = NR_CPUS as usize;

/// How far apart the tallies of two CPUs begin.
const TALLIES_APART: usize = 2 * ROW + LINE;

/// Where the records begin.
const FIRST_RECORD: usize = TALLIES + TALLIES_APART * NR_CPUS as usize;

/// How far apart two records begin.
const RECORDS_APART: usize = 2 * LINE;

/// The cells of the table.
pub(crate) const CELLS: usize = FIRST_RECORD + RECORDS_APART * RECORDS as usize;

// The tallies of a CPU, and a record, end eight cells or more before the next begin.
const _: () = prove!(TALLIES_APART >= 2 * ROW + LINE - 1);

const _: () = prove!(RECORDS_APART >= WORDS_OF_ONE + LINE - 1);

/// The cell of a word, by its kind: no test of its CPU or record is made, since the caller has shown that there is
/// a cell. Where the kind is known, as at each access, this is a sum.
#[inline(always)]
pub(crate) fn cell(word: Word) -> usize
    requires { HasCell word }
    ensures { cell_of word ≡ Some result }
{
    match word {
        Word::Head(cpu) => of_cpu(HEADS, cpu),
        Word::Intr(cpu) => of_cpu(INTRS, cpu),
        Word::Hand(cpu) => of_cpu(HANDS, cpu),
        Word::Queued(source, to) => of_pair(0, source, to),
        Word::Ran(cpu, source) => of_pair(ROW, cpu, source),
        Word::Flags(id) => of_record(FLAGS, id),
        Word::Func(id) => of_record(FUNCS, id),
        Word::Info(id) => of_record(INFOS, id),
        Word::Next(id) => of_record(NEXTS, id),
        Word::Gate | Word::Slot(_, _) | Word::Key(_) | Word::Entry(_) | Word::Site(_) => 0,
    }
}

/// The cell of a word of a CPU, with a line of its own.
#[inline(always)]
fn of_cpu(base: usize, cpu: u32) -> usize
    requires { base ≤ WORDS }
    ensures { result ≡ LINE * (base + cpu) }
{
    LINE * (base + cpu as usize)
}

/// The cell of a tally in a row of the first of these CPUs, where that row begins so far after the CPU's first.
#[inline(always)]
fn of_pair(row: usize, of: u32, other: u32) -> usize
    requires { row ≤ ROW }
    ensures { result ≡ TALLIES + TALLIES_APART * of + row + other }
{
    TALLIES + TALLIES_APART * of as usize + row + other as usize
}

/// The cell of a word of a record, where the words of its kind begin at this number.
#[inline(always)]
fn of_record(base: usize, id: u32) -> usize
    requires { (FLAGS ≤ base) × (base ≤ NEXTS) }
    ensures { result ≡ FIRST_RECORD + (base - FLAGS) + RECORDS_APART * id }
{
    FIRST_RECORD + (base - FLAGS) + RECORDS_APART * id as usize
}
