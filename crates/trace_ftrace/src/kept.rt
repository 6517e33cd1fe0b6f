//! What is kept of the lines of a text.

ghost use Rattle.std.specs.Prelude.{◌≡◌, ◌≤◌, map, length, IfOk};
ghost use Rattle.trace_ftrace.specs.Kept.{behind, classed, is_queue_of, is_told, name_place, numbered, on_cpu, sorted, Classed};

use crate::sign::{Sign, Sort};
use std::alloc::{AllocError, Allocator};

/// Where a line is: its number, its CPU, its time, the task that its CPU runs, or 0, and how deep the CPU is in interrupts, where
/// flags show it.
#[derive(Clone, Copy, Debug, PartialEq, Eq)]
pub struct Stamp {
    pub line: u32,
    pub cpu: u32,
    pub time: u128,
    pub task: u64,
    pub context: Option<u32>,
}

/// What a line shows, with the number of the function that it names, or 0.
#[derive(Clone, Copy, Debug, PartialEq, Eq)]
pub struct Mark {
    pub at: Stamp,
    pub func: u64,
    pub sign: Sign,
}

/// What is kept of the lines up to one.
#[derive(Drop)]
pub struct Kept<A: Allocator> {
    /// The functions, by their numbers.
    pub(crate) names: Vec<Vec<u8, A>, A>,
    /// What the lines show, in the order of their times, and else of the lines.
    pub marks: Vec<Mark, A>,
    /// The time of the last line of each CPU.
    pub(crate) times: [u128; 512],
    /// The time of the first line that tells one.
    pub(crate) first: Option<u128>,
    /// The first line that shows that a CPU has gone offline.
    pub offline: Option<u32>,
}

/// The place of a name among these.
fn name_place<A: Allocator>(names: &[Vec<u8, A>], name: &[u8]) -> Option<usize>
    ensures { result ≡ name_place 0 name.now (map (λ n. n.items) names.now) }
{
    let mut place = 0;
    let mut rest = names;
    while let [first, after @ ..] = rest {
        if first.as_slice() == name {
            return Some(place);
        }
        place += 1;
        rest = after;
    }
    None
}

/// The number of a name, which is one of these from here on.
#[tactic(auto, unfolding(crate::specs::Kept::numbered))]
pub(crate) fn numbered<A: Allocator + Copy>(
    alloc: A,
    names: &mut Vec<Vec<u8, A>, A>,
    name: &[u8],
) -> Result<u64, AllocError>
    ensures { IfOk result (λ n. (n, map (λ n. n.items) names.new.items) ≡ numbered name.now (map (λ n. n.items) names.old.items)) }
{
    if let Some(place) = name_place(names.as_slice(), name) {
        return Ok(place as u64);
    }
    let count = names.len() as u64;
    let mut own = Vec::new(alloc);
    own.extend_from_slice(name)?;
    names.push(own)?;
    Ok(count)
}

/// The functions that lines name, by their numbers.
pub fn functions_of<A: Allocator + Copy>(
    alloc: A,
    kept: &Kept<A>,
) -> Result<Vec<&[u8], A>, AllocError>
    ensures { IfOk result (λ v. map (λ n. n.now) v.items ≡ map (λ n. n.items) kept.now.names.items) }
{
    let mut functions = Vec::new(alloc);
    let mut rest = kept.names.as_slice();
    while let [first, after @ ..] = rest {
        functions.push(first.as_slice())?;
        rest = after;
    }
    Ok(functions)
}

/// Whether a mark is that this CPU queues this record.
fn is_queue_of(mark: &Mark, cpu: u32, address: u64) -> bool
    ensures { result ≡ is_queue_of cpu address mark.now }
{
    match mark.sign {
        Sign::Queue(_, queued, _, _) => mark.at.cpu == cpu && queued == address,
        _ => false,
    }
}

/// Whether a line of its own has told the sort of what a mark queues.
fn is_told(mark: &Mark) -> bool
    ensures { result ≡ is_told mark.now.sign }
{
    match mark.sign {
        Sign::Queue(_, _, _, is_told) => is_told,
        _ => false,
    }
}

/// A mark with what is queued being told to be of this sort; wakes remain wakes.
fn sorted(mark: Mark, sort: Sort) -> Mark
    ensures { result ≡ sorted sort mark }
{
    let sign = match mark.sign {
        Sign::Queue(to, address, Sort::Wake, _) => Sign::Queue(to, address, Sort::Wake, true),
        Sign::Queue(to, address, _, _) => Sign::Queue(to, address, sort, true),
        sign => sign,
    };
    Mark {
        at: mark.at,
        func: mark.func,
        sign,
    }
}

/// Says of which sort the record is that this CPU has queued last, where there is such a mark and none has said so before.
#[tactic(auto, using(crate::proofs::ClassLast::classed_at, crate::proofs::ClassLast::told_at, crate::proofs::ClassLast::none_queued))]
pub(crate) fn class_last(marks: &mut [Mark], cpu: u32, address: u64, sort: Sort) -> bool
    ensures { Classed result marks.old marks.new (classed cpu address sort marks.old) }
{
    let mut at = marks.len();
    while at > 0 {
        at -= 1;
        if is_queue_of(&marks[at], cpu, address) {
            if is_told(&marks[at]) {
                return false;
            }
            marks[at] = sorted(marks[at], sort);
            return true;
        }
    }
    false
}

/// Whether a mark is of this CPU.
pub(crate) fn on_cpu(marks: &[Mark], cpu: u32) -> bool
    ensures { result ≡ on_cpu cpu marks.now }
{
    let mut rest = marks;
    while let [first, after @ ..] = rest {
        if first.at.cpu == cpu {
            return true;
        }
        rest = after;
    }
    false
}

/// How many marks there are up to the last that is not later than this time.
#[tactic(auto, using(crate::proofs::Behind::behind_at))]
pub(crate) fn behind(marks: &[Mark], time: u128) -> usize
    ensures count { result ≡ behind time marks.now }
    ensures within { result ≤ length marks.now }
{
    let mut at = marks.len();
    while at > 0 {
        if marks[at - 1].at.time <= time {
            return at;
        }
        at -= 1;
    }
    0
}
