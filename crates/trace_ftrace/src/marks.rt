//! The marks of calls that the lines of a text have.

ghost use Rattle.std.specs.Prelude.{◌≡◌, ◌≤◌, ◌<◌, ◌+◌, Ok, Err, map, length, IfOk, IfErr, MatchResult};
ghost use Rattle.smp_script.specs.Lines.{lines_of};
ghost use Rattle.trace_ftrace.specs.HeadingView.{heading_value};
ghost use Rattle.trace_ftrace.specs.KeptView.{kept_value};
ghost use Rattle.trace_ftrace.specs.Marks.{class_line, event_line, first_time, is_counts, is_cut, is_empty_note, is_note, line_kept};
ghost use Rattle.trace_ftrace.specs.Marks.{line_of_cpu, lines_kept, marked, named, noted, with_mark, no_lines, offline_if, or_line, shown_line, timed, Keeps};
ghost use Rattle.trace_ftrace.specs.Offline.{shows_offline};
ghost use Rattle.trace_ftrace.specs.Pieces.{Fails, GoesOn};

use crate::field::{cpu_below, needed_symbol};
use crate::heading::{Heading, find_heading};
use crate::kept::{Kept, Mark, Stamp, behind, class_last, numbered, on_cpu};
use crate::offline::shows_offline;
use crate::sign::{Sign, Sort, read_sign};
use crate::words::{two_parts, words};
use crate::wrong::{Refusal, Wrong};
use smp_script::line::{is_word, next_line};
use std::alloc::Allocator;

/// Keeps a mark, behind all those that are not later.
fn push_mark<A: Allocator>(kept: &mut Kept<A>, mark: Mark) -> Result<(), Refusal>
    ensures { Keeps result (kept_value kept.new) (Ok (with_mark mark (kept_value kept.old))) }
{
    let place = behind(kept.marks.as_slice(), mark.at.time);
    match kept.marks.insert(place, mark) {
        Ok(()) => Ok(()),
        Err(_) => Err(Refusal::NoMemory),
    }
}

/// Keeps a mark with the function that the fields name.
#[tactic(auto, unfolding(crate::specs::Marks::named))]
fn push_named<A: Allocator + Copy>(
    alloc: A,
    kept: &mut Kept<A>,
    at: Stamp,
    sign: Sign,
    fields: &[&[u8]],
) -> Result<(), Refusal>
    ensures { Keeps result (kept_value kept.new) (named at sign (map (λ f. f.now) fields.now) (kept_value kept.old)) }
{
    let name = match needed_symbol(fields) {
        Ok(name) => name,
        Err(why) => return Err(Refusal::Wrong(at.line, why)),
    };
    match numbered(alloc, &mut kept.names, name) {
        Ok(func) => push_mark(kept, Mark { at, func, sign }),
        Err(_) => Err(Refusal::NoMemory),
    }
}

/// Puts the sort of a record where its CPU has queued it last. The first line of a CPU may come without that.
#[tactic(auto, unfolding(crate::specs::Marks::class_line))]
fn class_line<A: Allocator>(
    kept: &mut Kept<A>,
    at: Stamp,
    address: u64,
    sort: Sort,
) -> Result<(), Refusal>
    ensures { Keeps result (kept_value kept.new) (class_line at address sort (kept_value kept.old)) }
{
    let found = class_last(kept.marks.as_mut_slice(), at.cpu, address, sort);
    if found || !on_cpu(kept.marks.as_slice(), at.cpu) {
        return Ok(());
    }
    Err(Refusal::Wrong(at.line, Wrong::Class))
}

/// Keeps what a line shows.
#[tactic(auto, unfolding(crate::specs::Marks::marked))]
fn keep_mark<A: Allocator + Copy>(
    alloc: A,
    kept: &mut Kept<A>,
    at: Stamp,
    sign: Sign,
    fields: &[&[u8]],
) -> Result<(), Refusal>
    ensures { Keeps result (kept_value kept.new) (marked at sign (map (λ f. f.now) fields.now) (kept_value kept.old)) }
{
    match sign {
        Sign::Queue(..) | Sign::Begin(_) => push_named(alloc, kept, at, sign, fields),
        Sign::Direct
        | Sign::End(_)
        | Sign::EndLast
        | Sign::Stop(_)
        | Sign::Interrupt
        | Sign::Probe
        | Sign::Passed => {
            let func = 0;
            push_mark(kept, Mark { at, func, sign })
        }
        Sign::Class(address, sort) => class_line(kept, at, address, sort),
    }
}

/// Notes the time of a line, and answers that of the first.
fn note_time<A: Allocator>(kept: &mut Kept<A>, cpu: u32, time: u128) -> u128
    requires { cpu < 512 }
    ensures new { kept_value kept.new ≡ timed cpu time (kept_value kept.old) }
    ensures first { result ≡ first_time kept.old.first time }
{
    let first = kept.first.unwrap_or(time);
    kept.times[cpu as usize] = time;
    kept.first = Some(first);
    first
}

/// The first line, or this one where there is none.
fn or_line(first: Option<u32>, line: u32) -> Option<u32>
    ensures { result ≡ or_line first line }
{
    match first {
        Some(first) => Some(first),
        None => Some(line),
    }
}

/// Notes a line where it is the first that shows that a CPU has gone offline.
fn note_offline<A: Allocator>(kept: &mut Kept<A>, line: u32, sign: Sign, fields: &[&[u8]])
    ensures { let shows = shows_offline sign (map (λ f. f.now) fields.now) in
        kept_value kept.new ≡ offline_if shows line (kept_value kept.old) }
{
    if shows_offline(sign, fields) {
        kept.offline = or_line(kept.offline, line);
    }
}

/// Keeps what a line shows, whose time is noted.
#[tactic(auto, unfolding(crate::specs::Marks::shown_line))]
fn shown_line<A: Allocator + Copy>(
    alloc: A,
    kept: &mut Kept<A>,
    at: Stamp,
    heading: &Heading<'_, '_>,
) -> Result<(), Refusal>
    ensures { Keeps result (kept_value kept.new) (shown_line at (heading_value heading.now) (kept_value kept.old)) }
{
    match read_sign(heading.event, heading.fields) {
        Ok(Some(sign)) => {
            note_offline(kept, at.line, sign, heading.fields);
            keep_mark(alloc, kept, at, sign, heading.fields)
        }
        Ok(None) => Ok(()),
        Err(why) => Err(Refusal::Wrong(at.line, why)),
    }
}

/// Keeps what a line of this CPU tells, which is not before the last of its CPU; nothing where it is behind the first line by
/// less than what is skipped.
#[tactic(auto, unfolding(crate::specs::Marks::line_of_cpu))]
fn line_of_cpu<A: Allocator + Copy>(
    alloc: A,
    kept: &mut Kept<A>,
    skip: u64,
    at: Stamp,
    heading: &Heading<'_, '_>,
) -> Result<(), Refusal>
    requires { at.cpu < 512 }
    ensures { Keeps result (kept_value kept.new) (line_of_cpu skip at (heading_value heading.now) (kept_value kept.old)) }
{
    if at.time < kept.times[at.cpu as usize] {
        return Err(Refusal::Wrong(at.line, Wrong::Time));
    }
    let first = note_time(kept, at.cpu, at.time);
    if at.time.saturating_sub(first) < skip as u128 {
        return Ok(());
    }
    shown_line(alloc, kept, at, heading)
}

/// Keeps what a line tells.
#[tactic(auto, unfolding(crate::specs::Marks::event_line))]
fn event_line<A: Allocator + Copy>(
    alloc: A,
    kept: &mut Kept<A>,
    skip: u64,
    line: u32,
    heading: &Heading<'_, '_>,
) -> Result<(), Refusal>
    ensures { Keeps result (kept_value kept.new) (event_line skip line (heading_value heading.now) (kept_value kept.old)) }
{
    let cpu = match cpu_below(heading.cpu) {
        Ok(cpu) => cpu,
        Err(why) => return Err(Refusal::Wrong(line, why)),
    };
    let at = Stamp {
        line,
        cpu,
        time: heading.time,
        task: heading.task,
        context: heading.context,
    };
    line_of_cpu(alloc, kept, skip, at, heading)
}

/// Whether words say that a CPU's buffer is empty.
fn is_empty_note(words: &[&[u8]]) -> bool
    ensures { result ≡ is_empty_note (map (λ w. w.now) words.now) }
{
    match words {
        [cpu, _, is, empty] => is_word(cpu, b"CPU")
            && is_word(is, b"is")
            && is_word(empty, b"empty"),
        _ => false,
    }
}

/// Whether a line tells nothing by its first word: a comment, or what `trace-cmd report` has in front.
fn is_note(first: &[u8]) -> bool
    ensures { result ≡ is_note first.now }
{
    match first {
        [b'#', ..] => true,
        [b'c', b'p', b'u', b's', b'=', ..] => true,
        _ => is_word(first, b"version"),
    }
}

/// Whether a word is in front of how many events the buffers hold, and how many were written.
#[tactic(auto, unfolding(crate::specs::Marks::is_counts))]
fn is_counts(name: &[u8]) -> bool
    ensures { result ≡ is_counts name.now }
{
    is_word(name, b"entries-in-buffer/entries-written:")
}

/// Whether words say that the buffers hold fewer events than were written.
#[tactic(auto, unfolding(crate::specs::Marks::is_cut))]
fn is_cut(words: &[&[u8]]) -> bool
    ensures { result ≡ is_cut (map (λ w. w.now) words.now) }
{
    let [_, name, counts, ..] = words else {
        return false;
    };
    if !is_counts(name) {
        return false;
    }
    match two_parts(counts, b'/') {
        Some((held, written)) => !is_word(held, written),
        None => false,
    }
}

/// What the words of a line that is no event are: nothing, a note, or what they can't be.
fn note(line: u32, words: &[&[u8]]) -> Result<(), Refusal>
    ensures { result ≡ noted line (map (λ w. w.now) words.now) }
{
    let [first, ..] = words else {
        return Ok(());
    };
    if is_cut(words) {
        return Err(Refusal::Wrong(line, Wrong::Lost));
    }
    if is_note(first) || is_empty_note(words) {
        return Ok(());
    }
    Err(Refusal::Wrong(line, Wrong::Form))
}

/// Keeps what a line of this number tells.
#[tactic(auto, unfolding(crate::specs::Marks::line_kept))]
fn line<A: Allocator + Copy>(
    alloc: A,
    kept: &mut Kept<A>,
    skip: u64,
    number: u32,
    text: &[u8],
) -> Result<(), Refusal>
    ensures { Keeps result (kept_value kept.new) (line_kept skip number text.now (kept_value kept.old)) }
{
    let Ok(words) = words(alloc, text) else {
        return Err(Refusal::NoMemory);
    };
    match find_heading(words.as_slice()) {
        Some(heading) => event_line(alloc, kept, skip, number, &heading),
        None => note(number, words.as_slice()),
    }
}

/// Keeps what the lines of a text tell, of which the first has this number.
pub(crate) fn keep_lines<A: Allocator + Copy>(
    alloc: A,
    kept: &mut Kept<A>,
    skip: u64,
    first: u32,
    text: &[u8],
) -> Result<(), Refusal>
    requires { first + length text.now ≤ 536870913 }
    ensures { Keeps result (kept_value kept.new) (lines_kept skip first (lines_of text.now) (kept_value kept.old)) }
{
    let mut number = first;
    let mut rest = text;
    while let Some(next) = next_line(rest) {
        match line(alloc, kept, skip, number, next.text) {
            Ok(()) => {}
            Err(why) => return Err(why),
        }
        number += 1;
        rest = next.rest;
    }
    Ok(())
}

/// Keeps what the lines of a text tell that a line feed ends, of which the first has this number; answers the number of the next
/// line, and what there is of it.
#[tactic(auto, using(crate::proofs::EndedLines::ended_line))]
pub(crate) fn keep_ended<'a, A: Allocator + Copy>(
    alloc: A,
    kept: &mut Kept<A>,
    skip: u64,
    first: u32,
    text: &'a [u8],
) -> Result<(u32, &'a [u8]), Refusal>
    requires { first + length text.now ≤ 536870913 }
    ensures kept { IfOk result (λ r. GoesOn skip first text.now (kept_value kept.old) r.0 r.1.now (kept_value kept.new)) }
    ensures wrong { IfErr result (λ why. Fails why skip first text.now (kept_value kept.old)) }
    ensures within { IfOk result (λ r. r.0 + length r.1.now ≤ first + length text.now) }
{
    let mut number = first;
    let mut rest = text;
    while let Some(next) = next_line(rest) {
        if !next.is_ended {
            break;
        }
        match line(alloc, kept, skip, number, next.text) {
            Ok(()) => {}
            Err(why) => return Err(why),
        }
        number += 1;
        rest = next.rest;
    }
    Ok((number, rest))
}

/// What is kept before the first line.
pub(crate) fn no_lines<A: Allocator + Copy>(alloc: A) -> Kept<A>
    ensures { kept_value result ≡ no_lines }
{
    Kept {
        names: Vec::new(alloc),
        marks: Vec::new(alloc),
        times: [0; 512],
        first: None,
        offline: None,
    }
}

/// What is kept of the lines of a text, without those behind the first by less than `skip` nanoseconds.
pub(crate) fn marks<A: Allocator + Copy>(
    alloc: A,
    skip: u64,
    text: &[u8],
) -> Result<Kept<A>, Refusal>
    requires { length text.now ≤ 536870912 }
    ensures { let made = lines_kept skip 1 (lines_of text.now) no_lines in
        MatchResult result (λ k. made ≡ Ok (kept_value k)) (λ why. Keeps (Err why) no_lines made) }
{
    let mut kept = no_lines(alloc);
    match keep_lines(alloc, &mut kept, skip, 1, text) {
        Ok(()) => Ok(kept),
        Err(why) => Err(why),
    }
}
