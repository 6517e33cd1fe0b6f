//! The head of a trace: its title, its CPUs, its labels line and what it leaves out.

ghost use Rattle.std.specs.Prelude.{◌≡◌, ◌+◌, ◌≤◌, map, length, IfOk};
ghost use Rattle.smp_script.specs.Commands.{are_whole};
ghost use Rattle.smp_script.specs.Labels.{whole_labels};
ghost use Rattle.smp_script.specs.Lines.{AreShort, lines_of};
ghost use Rattle.trace_judge.specs.Head.{all_told, early_end_of, groups_of, head_of, is_labels, is_left_out, is_next};
ghost use Rattle.trace_judge.specs.Head.{cpus_at, is_title, labels_at, needed, past, some_groups, titled, version_in, whole_groups};
ghost use Rattle.trace_judge.specs.Head.{without_at, words_of, Sees};
ghost use Rattle.trace_judge.specs.Judged.{at_line, Reads};
ghost use Rattle.trace_judge.specs.HeadView.{cursor_of, head_value};

use crate::body::used_after;
use crate::cpus_line::read_cpus;
use crate::cursor::Cursor;
use crate::early_end::EarlyEnd;
use smp_labels::{LabelMap, LabelWords};
use smp_mask::{Cause, CpuMask, SmpError};
use smp_script::directive::are_all_whole;
use smp_script::line::{fields, is_word, next_line};
use smp_script::script::read_labels_line;
use std::alloc::Allocator;
use trace_model::{Setting, Without};

/// What the head of a trace says, and where its events begin.
#[derive(Clone, Copy)]
pub struct Head<'a> {
    pub setting: Setting,
    pub words: LabelWords,
    pub cursor: Cursor<'a>,
}

/// The line that has to be next.
#[tactic(auto, unfolding(crate::specs::Head::needed))]
fn needed(cursor: Cursor<'_>) -> Result<(&[u8], Cursor<'_>), EarlyEnd>
    requires number { cursor.number ≤ 2 }
    requires used { cursor.used ≤ 16777216 }
    ensures value { Sees (λ p. (p.0.now, cursor_of p.1)) result (needed (cursor_of cursor.entry)) }
    ensures short { IfOk result (λ p. length p.0.now ≤ 1024) }
    ensures within { IfOk result (λ p. (p.1.used ≤ 16777216) × (p.1.number ≡ cursor.entry.number + 1)) }
{
    let Some(line) = next_line(cursor.rest) else {
        return Err(EarlyEnd::Fault(cursor.number, Cause::Cut));
    };
    let used = used_after(cursor.number, cursor.used, &line)?;
    Ok((
        line.text,
        Cursor {
            number: cursor.number + 1,
            used,
            rest: line.rest,
        },
    ))
}

/// Whether these are the fields of line 1 of a version.
fn is_title(version: &[u8], fields: &[&[u8]]) -> bool
    ensures { result ≡ is_title version.now (map (λ f. f.now) fields.now) }
{
    match fields {
        [smp, word, kind] => {
            is_word(smp, b"smp") && is_word(word, version) && is_word(kind, b"trace")
        }
        _ => false,
    }
}

/// Whether line 1 is of version 3, and else of version 2.
fn version_in(fields: &[&[u8]]) -> Result<bool, EarlyEnd>
    ensures { result ≡ version_in (map (λ f. f.now) fields.now) }
{
    if is_title(b"2", fields) {
        return Ok(false);
    }
    if is_title(b"3", fields) {
        return Ok(true);
    }
    Err(EarlyEnd::Fault(1, Cause::Word))
}

/// Line 1 is `smp 2 trace`, or `smp 3 trace`: whether it is of version 3.
#[tactic(auto, unfolding(crate::specs::Head::titled))]
fn titled<A: Allocator>(alloc: A, text: &[u8]) -> Result<(bool, Cursor<'_>), EarlyEnd>
    ensures value { Sees (λ p. (p.0, cursor_of p.1)) result (titled (lines_of text.now)) }
    ensures within { IfOk result (λ p. (p.1.used ≤ 16777216) × (p.1.number ≡ 2)) }
{
    let first = Cursor {
        number: 1,
        used: 0,
        rest: text,
    };
    let (title, second) = needed(first)?;
    let Ok(words) = fields(alloc, title) else {
        return Err(EarlyEnd::NoMemory);
    };
    let is_third = version_in(words.as_slice())?;
    Ok((is_third, second))
}

/// Line 2 is `cpus NR MASK`: how many CPUs there are, and those below 32 that are online.
#[tactic(auto, unfolding(crate::specs::Head::cpus_at))]
fn cpus_at<A: Allocator>(
    alloc: A,
    is_third: bool,
    second: Cursor<'_>,
) -> Result<((u32, CpuMask), Cursor<'_>), EarlyEnd>
    requires number { second.number ≡ 2 }
    requires used { second.used ≤ 16777216 }
    ensures value { Sees (λ p. (p.0, cursor_of p.1)) result (cpus_at is_third (cursor_of second.entry)) }
    ensures within { IfOk result (λ p. (p.1.used ≤ 16777216) × (p.1.number ≡ 3)) }
{
    let (line, third) = needed(second)?;
    let Ok(words) = fields(alloc, line) else {
        return Err(EarlyEnd::NoMemory);
    };
    match read_cpus(is_third, words.as_slice()) {
        Ok(cpus) => Ok((cpus, third)),
        Err(cause) => Err(EarlyEnd::Fault(2, cause)),
    }
}

/// Whether these are fields of a labels line.
fn is_labels(fields: &[&[u8]]) -> bool
    ensures { result ≡ is_labels (map (λ f. f.now) fields.now) }
{
    match fields {
        [word, _, _] => is_word(word, b"labels"),
        _ => false,
    }
}

/// A fault of the reader of scripts, as one of a trace.
fn early_end_of(error: SmpError) -> EarlyEnd
    ensures { result ≡ early_end_of error }
{
    match error {
        SmpError::BadScript { line, cause } => EarlyEnd::Fault(line, cause),
        _ => EarlyEnd::NoMemory,
    }
}

/// The labels of line 3.
#[tactic(auto, using(crate::proofs::Faulted::sees_ok, crate::proofs::Faulted::sees_err))]
fn labels_of<A: Allocator>(alloc: A, fields: &[&[u8]]) -> Result<LabelMap, EarlyEnd>
    ensures { Sees (λ m. m) result (at_line 3 (whole_labels (map (λ f. f.now) fields.now))) }
{
    match read_labels_line(alloc, fields) {
        Ok(labels) => Ok(labels),
        Err(error) => Err(early_end_of(error)),
    }
}

/// The labels, where line 3 has some. There are none of more than 32 CPUs.
#[tactic(auto, unfolding(crate::specs::Head::labels_at))]
fn labels_at<A: Allocator + Copy>(
    alloc: A,
    cpus: u32,
    third: Cursor<'_>,
) -> Result<(LabelMap, Cursor<'_>), EarlyEnd>
    requires number { third.number ≡ 3 }
    requires used { third.used ≤ 16777216 }
    ensures value { Sees (λ p. (p.0, cursor_of p.1)) result (labels_at cpus (cursor_of third.entry)) }
    ensures within { IfOk result (λ p. (p.1.used ≤ 16777216) × (p.1.number ≤ 4)) }
{
    if cpus > 32 {
        return Ok((LabelMap::empty(), third));
    }
    let Some(line) = next_line(third.rest) else {
        return Ok((LabelMap::empty(), third));
    };
    let used = used_after(third.number, third.used, &line)?;
    let Ok(words) = fields(alloc, line.text) else {
        return Err(EarlyEnd::NoMemory);
    };
    if !is_labels(words.as_slice()) {
        return Ok((LabelMap::empty(), third));
    }
    let labels = labels_of(alloc, words.as_slice())?;
    let behind = Cursor {
        number: third.number + 1,
        used,
        rest: line.rest,
    };
    Ok((labels, behind))
}

/// Whether a word is the first of these.
#[tactic(auto, unfolding(crate::specs::Head::is_next))]
fn is_next(word: &[u8], names: &[&[u8]]) -> bool
    ensures { result ≡ is_next word.now (map (λ f. f.now) names.now) }
{
    match names {
        [first, ..] => is_word(first, word),
        [] => false,
    }
}

/// What is left behind a word, where that is the first of these.
#[tactic(auto, unfolding(crate::specs::Head::past))]
fn past<'a>(word: &[u8], names: &'a [&'a [u8]]) -> &'a [&'a [u8]]
    ensures { map (λ f. f.now) result.now ≡ past word.now (map (λ f. f.now) names.now) }
{
    match names {
        [first, rest @ ..] => { if is_word(first, word) { rest } else { names } }
        [] => names,
    }
}

/// Whether no name is left, and the order of queues is left out only with interrupts and unlocks.
fn is_left_out(without: &Without, names: &[&[u8]]) -> bool
    ensures { result ≡ is_left_out without.now (map (λ f. f.now) names.now) }
{
    names.is_empty() && (!without.order || without.interrupts && without.unlocks)
}

/// The groups of these names, in their order, each once.
#[tactic(auto, unfolding(crate::specs::Head::groups_of))]
fn groups_of(names: &[&[u8]]) -> Result<Without, Cause>
    ensures { result ≡ groups_of (map (λ f. f.now) names.now) }
{
    let a = past(b"gate", names);
    let b = past(b"interrupts", a);
    let c = past(b"order", b);
    let d = past(b"raises", c);
    let e = past(b"switches", d);
    let without = Without {
        gate: is_next(b"gate", names),
        interrupts: is_next(b"interrupts", a),
        order: is_next(b"order", b),
        raises: is_next(b"raises", c),
        switches: is_next(b"switches", d),
        unlocks: is_next(b"unlocks", e),
    };
    let rest = past(b"unlocks", e);
    if !is_left_out(&without, rest) {
        return Err(Cause::Word);
    }
    Ok(without)
}

/// One group at least.
fn some_groups(names: &[&[u8]]) -> Result<Without, Cause>
    ensures { result ≡ some_groups (map (λ f. f.now) names.now) }
{
    match names {
        [] => Err(Cause::Word),
        [_, ..] => groups_of(names),
    }
}

/// One group at least, and no empty name.
#[tactic(auto, using(smp_script::proofs::Reader::FieldLists::are_whole_map))]
fn whole_groups(names: &[&[u8]]) -> Result<Without, Cause>
    ensures { result ≡ whole_groups (map (λ f. f.now) names.now) }
{
    if !are_all_whole(names) {
        return Err(Cause::Word);
    }
    some_groups(names)
}

/// Nothing is left out.
fn all_told() -> Without
    ensures { result ≡ all_told }
{
    Without {
        gate: false,
        interrupts: false,
        order: false,
        raises: false,
        switches: false,
        unlocks: false,
    }
}

/// What is left out, where the next line says so.
#[tactic(auto, unfolding(crate::specs::Head::without_at))]
fn without_at<A: Allocator + Copy>(
    alloc: A,
    cursor: Cursor<'_>,
) -> Result<(Without, Cursor<'_>), EarlyEnd>
    requires number { cursor.number ≤ 4 }
    requires used { cursor.used ≤ 16777216 }
    ensures value { Sees (λ p. (p.0, cursor_of p.1)) result (without_at (cursor_of cursor.entry)) }
    ensures within { IfOk result (λ p. (p.1.used ≤ 16777216) × (p.1.number ≤ 5)) }
{
    let Some(line) = next_line(cursor.rest) else {
        return Ok((all_told(), cursor));
    };
    let used = used_after(cursor.number, cursor.used, &line)?;
    let Ok(words) = fields(alloc, line.text) else {
        return Err(EarlyEnd::NoMemory);
    };
    let [word, names @ ..] = words.as_slice() else {
        return Ok((all_told(), cursor));
    };
    if !is_word(word, b"without") {
        return Ok((all_told(), cursor));
    }
    match whole_groups(names) {
        Ok(without) => {
            let behind = Cursor {
                number: cursor.number + 1,
                used,
                rest: line.rest,
            };
            Ok((without, behind))
        }
        Err(cause) => Err(EarlyEnd::Fault(cursor.number, cause)),
    }
}

/// The words of labels while all keys are off.
#[tactic(auto, unfolding(crate::specs::Head::words_of))]
fn words_of(labels: &LabelMap) -> LabelWords
    ensures { result ≡ words_of labels.now }
{
    labels.words()
}

/// The head of a trace.
#[tactic(auto, unfolding(crate::specs::Head::head_of))]
pub(crate) fn read_head<A: Allocator + Copy>(alloc: A, text: &[u8]) -> Result<Head<'_>, EarlyEnd>
    ensures value { Sees (λ h. head_value h) result (head_of (lines_of text.now)) }
    ensures within { IfOk result (λ h. (h.cursor.used ≤ 16777216) × (h.cursor.number ≤ 5)) }
{
    let (is_third, second) = titled(alloc, text)?;
    let ((cpus, online), third) = match cpus_at(alloc, is_third, second) {
        Ok(found) => found,
        Err(why) => return Err(why),
    };
    let (labels, cursor) = match labels_at(alloc, cpus, third) {
        Ok(found) => found,
        Err(why) => return Err(why),
    };
    let (without, cursor) = match without_at(alloc, cursor) {
        Ok(found) => found,
        Err(why) => return Err(why),
    };
    Ok(Head {
        setting: Setting {
            cpus,
            online,
            keys: labels.keys(),
            sites: labels.sites(),
            is_third,
            without,
        },
        words: words_of(&labels),
        cursor,
    })
}
