//! What is left in a table that is given up, or how many calls were queued and run in it.

ghost use Rattle.std.specs.Prelude.{◌≡◌, ◌<◌};
ghost use Rattle.smp_words.specs.Size.{cpus};
ghost use Rattle.smp_words.specs.declared.word.Word.TheVariants.{Queued, Ran};
ghost use Rattle.smp_queue.specs.Cells.{number_in};
ghost use Rattle.smp_queue.specs.Audit.{left_in, IsRow, IsTally, AuditAnswers};

use crate::closing::ClosedTable;
use smp_words::Word;
use smp_words::size::{NR_CPUS, RECORDS};
use std::alloc::Allocator;

/// The words of a table that are not as they are when all its calls have run.
#[derive(Clone, Copy, Debug, PartialEq, Eq)]
pub struct Left {
    /// CPUs whose queue is not empty.
    pub heads: u32,
    /// Records that are locked.
    pub locked: u32,
    /// CPUs that are inside `handle`.
    pub handling: u32,
}

/// How many calls each CPU has queued for each, and how many from each it has run, modulo 2^64.
#[derive(Clone, Copy, Debug, PartialEq, Eq)]
pub struct Tally {
    /// By the source, then by the target.
    pub queued: [[u64; NR_CPUS as usize]; NR_CPUS as usize],
    /// By the target, then by the source.
    pub ran: [[u64; NR_CPUS as usize]; NR_CPUS as usize],
}

/// What the audit of a table answers.
#[derive(Clone, Copy, Debug, PartialEq, Eq)]
pub enum Audit {
    /// All calls have run, and these are their numbers.
    Drained(Tally),
    /// Some call has not ended.
    Left(Left),
}

/// The answer by these words.
pub(crate) fn answer<A: Allocator>(words: &ClosedTable<A>) -> Audit
    ensures { AuditAnswers (number_in words.now) result }
{
    let left = count_left(words);
    if left.heads == 0 && left.locked == 0 && left.handling == 0 {
        return Audit::Drained(read_tally(words));
    }
    Audit::Left(left)
}

/// What is left.
fn count_left<A: Allocator>(words: &ClosedTable<A>) -> Left
    ensures { result ≡ left_in (number_in words.now) }
{
    let mut left = Left {
        heads: 0,
        locked: 0,
        handling: 0,
    };
    for cpu in 0..NR_CPUS {
        left.heads += u32::from(words.number(Word::Head(cpu)) != 0);
        left.handling += u32::from(words.number(Word::Hand(cpu)) != 0);
    }
    for id in 0..RECORDS {
        left.locked += u32::from(words.number(Word::Flags(id)) % 2 == 1);
    }
    left
}

/// The tally words.
fn read_tally<A: Allocator>(words: &ClosedTable<A>) -> Tally
    ensures { IsTally (number_in words.now) result }
{
    let mut tally = Tally {
        queued: [[0; NR_CPUS as usize]; NR_CPUS as usize],
        ran: [[0; NR_CPUS as usize]; NR_CPUS as usize],
    };
    for cpu in 0..NR_CPUS {
        tally.queued[cpu as usize] = queued_by(words, cpu);
        tally.ran[cpu as usize] = ran_by(words, cpu);
    }
    tally
}

/// How many calls this CPU has queued for each.
fn queued_by<A: Allocator>(words: &ClosedTable<A>, source: u32) -> [u64; NR_CPUS as usize]
    requires { source < cpus }
    ensures { IsRow (λ to. number_in words.now (Queued source to)) result }
{
    let mut row = [0; NR_CPUS as usize];
    for to in 0..NR_CPUS {
        row[to as usize] = words.number(Word::Queued(source, to));
    }
    row
}

/// How many calls from each this CPU has run.
fn ran_by<A: Allocator>(words: &ClosedTable<A>, cpu: u32) -> [u64; NR_CPUS as usize]
    requires { cpu < cpus }
    ensures { IsRow (λ source. number_in words.now (Ran cpu source)) result }
{
    let mut row = [0; NR_CPUS as usize];
    for source in 0..NR_CPUS {
        row[source as usize] = words.number(Word::Ran(cpu, source));
    }
    row
}
