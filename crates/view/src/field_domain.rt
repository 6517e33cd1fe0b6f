//! What a field may be, by its name in a template.

use crate::given_names::GivenNames;
use crate::text_kind::TextKind;
use smp_mask::CpuMask;
use smp_script::decimal::{number, read_i32, read_u16};
use smp_script::field::{read_mask, read_member};
use smp_script::line::{is_word, split_part};
use std::alloc::{AllocError, Allocator};

/// What the first lines of a text settle.
#[derive(Clone, Copy)]
pub struct TextSetting {
    pub kind: TextKind,
    /// CPUs have numbers below this, but for those of `many`.
    pub limit: u32,
    /// The most CPUs that line 2 may name.
    pub most: u32,
    /// How many CPUs there are, where these are more than 32; else 0.
    pub many: u32,
    /// Whether it is a trace of version 3.
    pub is_third: bool,
    /// Whether the class of a call may be unknown.
    pub has_unknown: bool,
    pub online: CpuMask,
    pub given: GivenNames,
}

/// What a field may be.
#[derive(Clone, Copy)]
pub enum Domain<'a> {
    /// This word.
    Word(&'a str),
    /// One of these, with a comma and a space between each two.
    OneOf(&'static str),
    Number(u64, u64),
    Signed,
    /// A CPU that is online.
    Member,
    /// A key that there is.
    Key,
    /// A site that there is.
    Site,
    Mask,
    MaskOrNone,
    Online,
    Items,
    /// What is told so of it.
    Told(&'static str),
}

const GROUPS: &str = "gate, interrupts, order, raises, switches, unlocks";

// What a CPU may do that is in no stop, and has no keys and sites.
const OUTSIDE_EVENTS: &str =
    "C queue, C free, C send, C accept, C idle, C take, C unlock, C begin, C end, C gate, C ungate, C open, C collect";

const ALL_CPUS: &str = "0-LAST, the list of all NR CPUs";

const CONDITION: &str =
    "atoms as `WORD N`, `queue.C N`, `place.R PLACE` or `said NOTE`, each with `not` in front or without it, joined by and, or";

// Numbers of 16, 32 and 64 bits.
const U16: Domain<'static> = Domain::Number(0, u16::MAX as u64);

const U32: Domain<'static> = Domain::Number(0, u32::MAX as u64);

const U64: Domain<'static> = Domain::Number(0, u64::MAX);

/// Whether a field of a template is a word as it is written.
fn is_literal(field: &str) -> bool {
    match field {
        "NOP" | "JMP" | ".." => true,
        _ => !field.as_bytes().iter().any(|b| b.is_ascii_uppercase()),
    }
}

// A count behind a name of these.
fn count_in(kind: TextKind) -> Domain<'static> {
    match kind {
        TextKind::Replay | TextKind::Run => Domain::Number(1, 10_000),
        TextKind::Exploration => U32,
        TextKind::Trace => U16,
    }
}

// What `FUNC`, `ARG` and `ACTIVE` may be.
fn argument_in(kind: TextKind, name: &str) -> Domain<'static> {
    match (name, kind) {
        ("FUNC", TextKind::Trace) => U64,
        ("FUNC", _) => U16,
        ("ARG", TextKind::Run) => Domain::Number(0, i32::MAX as u64),
        ("ACTIVE", TextKind::Run) => Domain::MaskOrNone,
        ("ACTIVE", _) => Domain::Mask,
        _ => U64,
    }
}

// Whether each CPU may have a line of this template.
fn is_of_each(template: &str) -> bool {
    OUTSIDE_EVENTS
        .split(", ")
        .any(|event| template.starts_with(event))
}

// The highest CPU of a line, where there are more than 32: those below 32 are in stops, and have keys and sites.
fn last_cpu(setting: &TextSetting, template: &str) -> u32 {
    if is_of_each(template) {
        setting.many.saturating_sub(1)
    } else {
        31
    }
}

// What names CPUs.
fn cpus_in(setting: &TextSetting, template: &str, name: &str) -> Domain<'static> {
    match (name, setting.kind) {
        ("NR", _) => Domain::Number(1, u64::from(setting.most)),
        ("MASK", _) if template.starts_with("cpus ") && setting.many > 0 => Domain::Told(ALL_CPUS),
        ("MASK", _) if template.starts_with("cpus ") => Domain::Online,
        ("MASK", _) => Domain::Mask,
        ("C", TextKind::Trace) if setting.many > 0 => Domain::Number(
            0,
            u64::from(last_cpu(setting, template)),
        ),
        ("C", TextKind::Run) => Domain::OneOf("all, even, odd"),
        ("C", _) | ("CPU", TextKind::Run) => Domain::Member,
        _ => U32,
    }
}

// What is one of some words.
fn words_in(setting: &TextSetting, name: &str) -> Domain<'static> {
    match (name, setting.kind) {
        ("VERSION", TextKind::Trace) => Domain::OneOf("2, 3"),
        ("VERSION", _) => Domain::OneOf("1, 2"),
        ("CLASS", TextKind::Trace) if setting.has_unknown => Domain::OneOf("sync, async, unknown"),
        ("CLASS", _) => Domain::OneOf("sync, async"),
        ("NODE", _) => Domain::OneOf("wake, irqwork"),
        ("KIND", _) => Domain::OneOf("one, multi, patch"),
        ("W", _) => Domain::OneOf("wait, nowait"),
        _ => Domain::OneOf(GROUPS),
    }
}

/// What the field of this name may be in a line of this template.
pub fn domain_of<'a>(setting: &TextSetting, template: &str, name: &'a str) -> Domain<'a> {
    if is_literal(name) {
        return Domain::Word(name);
    }
    match name {
        "VERSION" | "CLASS" | "NODE" | "KIND" | "W" | "GROUP" => words_in(setting, name),
        "NR" | "MASK" | "C" | "CPU" => cpus_in(setting, template, name),
        "ACTIVE" if template.contains("stop_machine") => Domain::MaskOrNone,
        "DST" if template.contains("call_single") => Domain::Member,
        "K" if template.contains("set_key") => Domain::Key,
        "K" if matches!(setting.kind, TextKind::Trace) => Domain::Key,
        "I" if matches!(setting.kind, TextKind::Trace) => Domain::Site,
        "FUNC" | "INFO" | "ARG" | "ACTIVE" => argument_in(setting.kind, name),
        "KEYS" => Domain::Number(0, 4),
        "ITEMS" => Domain::Items,
        "N" => count_in(setting.kind),
        "U" => Domain::Number(0, 1),
        "R" => U16,
        "S" if !template.contains("enter") => Domain::Number(0, 63),
        "P" if template.contains("raise") => Domain::Number(2, 5),
        "P" => Domain::Number(1, 4),
        "RET" | "V" => Domain::Signed,
        "COND" => Domain::Told(CONDITION),
        _ => U32,
    }
}

// Whether a field is one of these words.
fn is_among(words: &str, field: &[u8]) -> bool {
    words
        .split(", ")
        .any(|word| is_word(field, word.as_bytes()))
}

// Whether this is `KEY:BRANCH`.
fn is_item(item: &[u8]) -> bool {
    match split_part(item, b':') {
        Some((_, branch)) => is_word(branch, b"0") || is_word(branch, b"1"),
        None => false,
    }
}

// Whether this is `-`, or each of the parts between commas is an item.
fn are_items(field: &[u8]) -> bool {
    let mut rest = field;
    while let Some((item, after)) = split_part(rest, b',') {
        if !is_item(item) {
            return false;
        }
        rest = after;
    }
    is_word(field, b"-") || is_item(rest)
}

/// Whether a field has the right word, where it has to have one; else whether it is not empty.
pub fn has_word(takes: Domain<'_>, field: &[u8]) -> bool {
    match takes {
        Domain::Word("..") => true,
        Domain::Word(word) => is_word(field, word.as_bytes()),
        Domain::OneOf(words) => is_among(words, field),
        Domain::Items => are_items(field),
        _ => !field.is_empty(),
    }
}

/// A list of CPUs has fewer bytes than this: a line has no more.
const MOST_BYTES: usize = 65_536;

// Whether this is a list of CPUs, or `-`.
fn is_mask(limit: u32, field: &[u8]) -> bool {
    field.len() <= MOST_BYTES && read_mask(limit, field).is_ok()
}

// Whether this is a number below this one.
fn is_below(count: u32, field: &[u8]) -> bool {
    match read_u16(field) {
        Ok(number) => u32::from(number) < count,
        Err(_) => false,
    }
}

/// Whether a field that has the right word is refused all the same.
pub fn is_refused(setting: &TextSetting, takes: Domain<'_>, field: &[u8]) -> bool {
    match takes {
        Domain::Word(_) | Domain::OneOf(_) => false,
        Domain::Number(low, high) => number(field, low, high).is_err(),
        Domain::Signed => read_i32(field).is_err(),
        Domain::Member => read_member(setting.online, field).is_err(),
        Domain::Key => !is_below(setting.given.keys, field),
        Domain::Site => !is_below(setting.given.sites, field),
        Domain::Mask => !is_mask(setting.limit, field),
        Domain::MaskOrNone => !is_word(field, b"none") && !is_mask(setting.limit, field),
        Domain::Online | Domain::Items | Domain::Told(_) => true,
    }
}

// What a field may be, where it has no numbers in it; for a list of CPUs, what comes before their limit.
fn text_of<'a>(takes: Domain<'a>) -> &'a str {
    match takes {
        Domain::Word("..") => "the next of them, or the end of the line",
        Domain::Word(word) => word,
        Domain::OneOf(words) => words,
        Domain::Number(..) => "a number from ",
        Domain::Signed => "a number from -2147483648 to 2147483647",
        Domain::Member => "a CPU that is online",
        Domain::Key => "a key below ",
        Domain::Site => "a site of those in ITEMS, here ",
        Domain::Mask => "-, or a list of CPUs below ",
        Domain::MaskOrNone => "none, -, or a list of CPUs below ",
        Domain::Online => "a list of CPUs below ",
        Domain::Items => {
            "-, or up to 16 items KEY:BRANCH joined by commas, KEY below KEYS, BRANCH 0 or 1"
        }
        Domain::Told(text) => text,
    }
}

/// Writes what a field may be.
pub fn write_domain<A: Allocator>(
    out: &mut String<A>,
    setting: &TextSetting,
    takes: Domain<'_>,
) -> Result<(), AllocError> {
    let limit = setting.limit;
    out.push_str(text_of(takes))?;
    match takes {
        Domain::Number(low, high) => write!(out, "{low} to {high}"),
        Domain::Key => {
            let keys = setting.given.keys;
            write!(out, "KEYS, here {keys}")
        }
        Domain::Site => {
            let sites = setting.given.sites;
            write!(out, "{sites}")
        }
        Domain::Mask | Domain::MaskOrNone => write!(out, "{limit}, as 0-2,5"),
        Domain::Online => write!(out, "{limit} and below NR, as 0-2,5, and not empty"),
        _ => Ok(()),
    }
}
