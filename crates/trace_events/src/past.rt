//! What a CPU has done before that its next step's events need.

ghost use Rattle.std.specs.Prelude.{◌≡◌, slice_index_or, slice_set};
ghost use Rattle.trace_events.specs.Past.{after, after_call_entry, after_draft, after_flags, after_other, after_slot};
ghost use Rattle.trace_events.specs.Past.{after_slot_load, after_slot_sub, after_store, fresh, id_of, is_new, past_at};
ghost use Rattle.trace_events.specs.Past.{phase_of};

use smp_words::call::Class;
use smp_words::work::Kind;
use smp_words::{Act, Field, Note, Seen, Word};

/// The call that a CPU posts: what it has last stored to a record.
#[derive(Clone, Copy)]
pub struct Post {
    pub class: Class,
    pub func: u64,
    pub info: u64,
}

/// The stop that a CPU begins: what it has last stored to these words of a slot.
#[derive(Clone, Copy)]
pub struct Draft {
    pub kind: Kind,
    pub mask: u64,
    pub active: u64,
    pub func: u64,
    pub arg: u64,
}

/// What a CPU has done before.
#[derive(Clone, Copy)]
pub struct Past {
    pub post: Post,
    pub draft: Draft,
    /// The record of the call that it last began; 0 before the first.
    pub begun: u16,
    /// The last phase that it loaded anew; 0 before the first.
    pub phase: u32,
    /// The answer that it has stored since it last completed; 0 where it has stored none.
    pub answer: i32,
}

/// A CPU that has done nothing.
pub fn fresh() -> Past
    ensures { result ≡ fresh }
{
    Past {
        post: Post {
            class: Class::Async,
            func: 0,
            info: 0,
        },
        draft: Draft {
            kind: Kind::One,
            mask: 0,
            active: 0,
            func: 0,
            arg: 0,
        },
        begun: 0,
        phase: 0,
        answer: 0,
    }
}

/// What this CPU has done before; nothing from 32 on.
pub fn past_at(pasts: &[Past; 32], cpu: u32) -> Past
    ensures { result ≡ past_at pasts.now cpu }
{
    if cpu < 32 {
        pasts[cpu as usize]
    } else {
        fresh()
    }
}

/// Keeps what this CPU has done, where it is below 32.
pub fn keep(pasts: &mut [Past; 32], cpu: u32, past: Past)
    ensures { pasts.new ≡ slice_set pasts.old cpu past }
{
    if cpu < 32 {
        pasts[cpu as usize] = past;
    }
}

/// The number of a record; a greater one as 65,535.
pub fn id_of(number: u64) -> u16
    ensures { result ≡ id_of number }
{
    number.min(65_535) as u16
}

/// A phase; a greater number as the greatest of 32 bits.
pub fn phase_of(number: u64) -> u32
    ensures { result ≡ phase_of number }
{
    number.min(u32::MAX as u64) as u32
}

/// Whether a load of the phase found a new one.
pub fn is_new(note: Option<Note>) -> bool
    ensures { result ≡ is_new note }
{
    match note {
        Some(Note::Same) => false,
        _ => true,
    }
}

// After a store to a record's flags: the class of a call to come, or the entry of one.
fn after_flags(past: Past, id: u32, put: u64, note: Option<Note>) -> Past
    ensures { result ≡ after_flags past id put note }
{
    if put != 0 {
        let post = Post {
            class: Class::of_flags(put),
            ..past.post
        };
        return Past { post, ..past };
    }
    after_call_entry(past, u64::from(id), note)
}

// After a step that enters this record's call, where its note says so.
fn after_call_entry(past: Past, id: u64, note: Option<Note>) -> Past
    ensures { result ≡ after_call_entry past id note }
{
    match note {
        Some(Note::Call(..)) => Past {
            begun: id_of(id),
            ..past
        },
        _ => past,
    }
}

// After a store to a word of a slot.
fn after_draft(past: Past, field: Field, put: u64) -> Past
    ensures { result ≡ after_draft past field put }
{
    let draft = past.draft;
    let draft = match field {
        Field::Kind => Draft {
            kind: Kind::of_word(put),
            ..draft
        },
        Field::Mask => Draft { mask: put, ..draft },
        Field::Active => Draft {
            active: put,
            ..draft
        },
        Field::Func => Draft { func: put, ..draft },
        Field::Arg => Draft { arg: put, ..draft },
        _ => draft,
    };
    let answer = match field {
        Field::Result => ((put % 0x1_0000_0000) as u32).cast_signed(),
        _ => past.answer,
    };
    Past {
        draft,
        answer,
        ..past
    }
}

// After a load of a word of a slot: the phase, where it is a new one.
fn after_slot_load(past: Past, field: Field, found: u64, note: Option<Note>) -> Past
    ensures { result ≡ after_slot_load past field found note }
{
    match field {
        Field::State if is_new(note) => Past {
            phase: phase_of(found),
            ..past
        },
        _ => past,
    }
}

// After a subtraction from a word of a slot: completing takes the answer.
fn after_slot_sub(past: Past, field: Field) -> Past
    ensures { result ≡ after_slot_sub past field }
{
    match field {
        Field::Todo => Past { answer: 0, ..past },
        _ => past,
    }
}

// After a step on a word of a slot.
fn after_slot(past: Past, field: Field, seen: Seen) -> Past
    ensures { result ≡ after_slot past field seen.act seen }
{
    match seen.act {
        Act::Store => after_draft(past, field, seen.put.unwrap_or(0)),
        Act::Load => after_slot_load(past, field, seen.found.unwrap_or(0), seen.note),
        Act::Sub => after_slot_sub(past, field),
        _ => past,
    }
}

// After a store.
fn after_store(past: Past, word: Word, put: u64, note: Option<Note>) -> Past
    ensures { result ≡ after_store past word put note }
{
    match word {
        Word::Flags(id) => after_flags(past, id, put, note),
        Word::Func(_) => {
            let post = Post {
                func: put,
                ..past.post
            };
            Past { post, ..past }
        }
        Word::Info(_) => {
            let post = Post {
                info: put,
                ..past.post
            };
            Past { post, ..past }
        }
        Word::Hand(_) => after_call_entry(past, put.saturating_sub(2), note),
        _ => past,
    }
}

// After a step on a word of no slot: only stores count.
fn after_other(past: Past, seen: Seen) -> Past
    ensures { result ≡ after_other past seen.act seen }
{
    match seen.act {
        Act::Store => after_store(past, seen.word, seen.put.unwrap_or(0), seen.note),
        _ => past,
    }
}

/// What a CPU has done once it has made this step too.
pub fn after(past: Past, seen: Seen) -> Past
    ensures { result ≡ after past seen }
{
    match seen.word {
        Word::Slot(_, field) => after_slot(past, field, seen),
        _ => after_other(past, seen),
    }
}
