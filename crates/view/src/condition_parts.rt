//! The field of a condition that a fault lies in, and what may be there.

use crate::given_names::{GivenNames, is_one_of};
use smp_mask::Cause;
use smp_script::decimal::number;
use smp_script::line::{is_word, parts};
use std::alloc::{AllocError, Allocator};

/// What an atom is about.
#[derive(Clone, Copy)]
pub enum Subject {
    /// A word or a queue, which has a number.
    Word,
    /// A record, which is at a place.
    Record,
    /// What the last step said.
    Said,
}

/// The part of a condition that a field is.
#[derive(Clone, Copy)]
pub enum Part {
    /// An atom begins, with `not` or without it.
    Atom,
    /// It begins behind `not`.
    Negated,
    /// What its subject has to be.
    Value(Subject),
    /// `and`, `or` or the end.
    Joint,
}

const WORDS: [&str; 15] = [
    "gate", "key", "entry", "site", "flags", "func", "info", "next", "head", "intr", "hand",
    "queued", "ran", "slot", "queue",
];

const PLACES: [&str; 5] = ["free", "held", "queued", "batch", "running"];

const NOTES: [&str; 32] = [
    "E1", "E2", "E5", "E7", "E13", "owed", "queued", "sent", "done", "locked", "idle", "call",
    "handled", "gate", "taken", "open", "begun", "entered", "same", "moved", "run", "ran", "left",
    "finished", "pending", "result", "on", "off", "NOP", "JMP", "stop", "lost",
];

// The first part of a field, up to a dot.
fn head<'a, A: Allocator>(alloc: A, field: &'a [u8]) -> Result<&'a [u8], AllocError> {
    let found = parts(alloc, field, b'.')?;
    Ok(found.first().copied().unwrap_or(field))
}

// Whether this is the name of a slot's word.
fn is_name(head: &[u8], part: &[u8]) -> bool {
    is_word(head, b"slot") && part.iter().all(|b| b.is_ascii_lowercase())
}

// Whether each part behind the first is a number. The name of a slot's word may follow.
fn are_numbers<A: Allocator + Copy>(alloc: A, field: &[u8]) -> Result<bool, AllocError> {
    let found = parts(alloc, field, b'.')?;
    let head = head(alloc, field)?;
    Ok(found.iter().skip(1).all(|part| is_name(head, part) || number(part, 0, u64::MAX).is_ok()))
}

// Whether there is what has this number in a name that begins with this word.
fn is_given(given: GivenNames, head: &[u8], part: &[u8]) -> bool {
    match number(part, 0, u64::from(u32::MAX)) {
        Ok(n) => given.gives(head, n as u32),
        Err(_) => false,
    }
}

// Whether there is what each number of a name says.
fn are_given<A: Allocator + Copy>(
    alloc: A,
    given: GivenNames,
    field: &[u8],
) -> Result<bool, AllocError> {
    let found = parts(alloc, field, b'.')?;
    let head = head(alloc, field)?;
    Ok(
        found
            .iter()
            .skip(1)
            .all(|part| is_name(head, part) || is_given(given, head, part)),
    )
}

// What an atom of this word is about, where it has numbers behind it; none where it is none.
fn subject_named(name: &[u8]) -> Option<Subject> {
    if is_word(name, b"place") {
        Some(Subject::Record)
    } else if is_one_of(name, &WORDS) {
        Some(Subject::Word)
    } else {
        None
    }
}

// What an atom is about that begins so; none where none does.
fn subject_of<A: Allocator + Copy>(alloc: A, field: &[u8]) -> Result<Option<Subject>, AllocError> {
    if is_word(field, b"said") {
        return Ok(Some(Subject::Said));
    }
    let subject = subject_named(head(alloc, field)?);
    Ok(if are_numbers(alloc, field)? {
        subject
    } else {
        None
    })
}

// Whether a field is a value of this subject.
fn is_value<A: Allocator + Copy>(
    alloc: A,
    subject: Subject,
    field: &[u8],
) -> Result<bool, AllocError> {
    match subject {
        Subject::Word => Ok(!field.is_empty()),
        Subject::Record => Ok(is_one_of(head(alloc, field)?, &PLACES)),
        Subject::Said => Ok(is_one_of(field, &NOTES)),
    }
}

// The part behind this field, where a condition goes on.
fn part_behind<A: Allocator + Copy>(
    alloc: A,
    part: Part,
    field: &[u8],
) -> Result<Option<Part>, AllocError> {
    match part {
        Part::Atom if is_word(field, b"not") => Ok(Some(Part::Negated)),
        Part::Atom | Part::Negated => Ok(subject_of(alloc, field)?.map(|s| Part::Value(s))),
        Part::Value(subject) => {
            let is_right = is_value(alloc, subject, field)?;
            Ok(if is_right { Some(Part::Joint) } else { None })
        }
        Part::Joint if is_one_of(field, &["and", "or"]) => Ok(Some(Part::Atom)),
        Part::Joint => Ok(None),
    }
}

// Whether a field that is right as a word is refused as a number.
fn is_refused<A: Allocator + Copy>(
    alloc: A,
    given: GivenNames,
    part: Part,
    cause: Cause,
    field: &[u8],
) -> Result<bool, AllocError> {
    if cause == Cause::Word {
        return Ok(false);
    }
    match part {
        Part::Value(Subject::Word) => Ok(number(field, 0, u64::MAX).is_err()),
        _ => Ok(!are_given(alloc, given, field)?),
    }
}

/// The first field at fault of a condition that begins behind the first field of a line, and the part that it is.
pub fn part_at_fault<A: Allocator + Copy>(
    alloc: A,
    given: GivenNames,
    fields: &[&[u8]],
    cause: Cause,
) -> Result<(usize, Part), AllocError> {
    let [_, rest @ ..] = fields else {
        return Ok((0, Part::Atom));
    };
    let mut part = Part::Atom;
    let mut at = 1usize;
    for field in rest {
        if is_refused(alloc, given, part, cause, field)? {
            return Ok((at, part));
        }
        match part_behind(alloc, part, field)? {
            Some(next) => part = next,
            None => return Ok((at, part)),
        }
        at = at.saturating_add(1);
    }
    Ok((at, part))
}

/// The name of a part, as the formats have it.
pub fn part_name(part: Part) -> &'static str {
    match part {
        Part::Atom | Part::Negated => "WORD",
        Part::Value(Subject::Word) => "N",
        Part::Value(Subject::Record) => "PLACE",
        Part::Value(Subject::Said) => "NOTE",
        Part::Joint => "COND",
    }
}

/// What a part may be.
pub fn part_text(part: Part) -> &'static str {
    match part {
        Part::Atom => {
            "not, said, queue.C, place.R, or a word: gate, key.K, entry.I, site.I, flags.R, \
             func.R, info.R, next.R, head.C, intr.C, hand.C, queued.S.D, ran.S.D, slot.S.NAME"
        }
        Part::Negated => {
            "said, queue.C, place.R, or a word: gate, key.K, entry.I, site.I, flags.R, \
             func.R, info.R, next.R, head.C, intr.C, hand.C, queued.S.D, ran.S.D, slot.S.NAME"
        }
        Part::Value(Subject::Word) => "a number from 0 to 18446744073709551615",
        Part::Value(Subject::Record) => "free, held, queued.C, batch.C, running.C",
        Part::Value(Subject::Said) => {
            "E1, E2, E5, E7, E13, owed, queued, sent, done, locked, idle, call, handled, gate, \
             taken, open, begun, entered, same, moved, run, ran, left, finished, pending, result, \
             on, off, NOP, JMP, stop, lost"
        }
        Part::Joint => "and, or, the end of the line",
    }
}
