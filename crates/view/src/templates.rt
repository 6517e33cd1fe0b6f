//! The lines that each kind of text may have: words as they are written, and names of fields in capitals.

use crate::field_domain::TextSetting;
use crate::text_kind::TextKind;
use std::alloc::{AllocError, Allocator};

/// What a CPU may begin, as it comes behind `start CPU` in a replay and behind `cpu C` in an exploration.
const COMMANDS: [&str; 16] = [
    "post K DST CLASS FUNC INFO TRIES",
    "send DST",
    "done K",
    "handle",
    "gate",
    "ungate",
    "begin KIND MASK ACTIVE FUNC ARG",
    "enter SLOT",
    "advance RET",
    "runone RET",
    "finish",
    "poll",
    "key K",
    "site I",
    "nudge K up",
    "nudge K down",
];

/// What may be made between two tries of a command that is repeated.
const BETWEEN: [&str; 3] = ["handle", "enter SLOT", "advance RET"];

/// The calls of the library that a line of an exploration may be.
const CALLS: [&str; 5] = [
    "call_single DST FUNC INFO W",
    "call_many MASK FUNC INFO W",
    "stop_machine ACTIVE FUNC ARG",
    "set_key K on",
    "set_key K off",
];

/// What a CPU of a run may call.
const OPERATIONS: [&str; 13] = [
    "sync DST FUNC INFO",
    "async DST FUNC INFO",
    "user U DST FUNC INFO",
    "any W MASK FUNC INFO",
    "many W MASK FUNC INFO",
    "cond C W MASK FUNC INFO",
    "one DST FUNC ARG",
    "two A B FUNC ARG",
    "machine ACTIVE FUNC ARG",
    "set K on",
    "set K off",
    "inc K",
    "dec K",
];

/// What may happen on a CPU of a trace.
const EVENTS: [&str; 27] = [
    "queue R D CLASS FUNC INFO",
    "free R",
    "send D",
    "accept",
    "idle",
    "take",
    "unlock R",
    "begin R FUNC INFO",
    "end R",
    "gate",
    "ungate",
    "enter S",
    "ack P",
    "raise P",
    "off",
    "on",
    "run FUNC ARG",
    "complete V",
    "set K N",
    "turn I NOP",
    "turn I JMP",
    "key K on",
    "key K off",
    "site I NOP",
    "site I JMP",
    "nudge K up",
    "nudge K down",
];

/// How a stop is opened and its result collected.
const STOPS: [&str; 2] = ["open KIND MASK ACTIVE FUNC ARG", "collect V"];

/// Events of version 3 alone. A stop has a number of its own there, and `queue D NODE` tells what is no call.
const THIRD_EVENTS: [&str; 3] = [
    "open S KIND MASK ACTIVE FUNC ARG",
    "collect S V",
    "queue D NODE",
];

/// The lines that a text may have, each as a template.
pub type Templates<A> = Vec<String<A>, A>;

// Each of these behind the same front.
fn push_behind<A: Allocator + Copy>(
    alloc: A,
    found: &mut Templates<A>,
    front: &str,
    tails: &[&str],
) -> Result<(), AllocError> {
    for tail in tails {
        let tail = *tail;
        found.push(format!(in alloc; "{front}{tail}")?)?;
    }
    Ok(())
}

// Each command behind the same front, and what may be made between two tries of it.
fn push_repeated<A: Allocator + Copy>(
    alloc: A,
    found: &mut Templates<A>,
    front: &str,
) -> Result<(), AllocError> {
    push_behind(alloc, found, front, &COMMANDS)?;
    for command in &COMMANDS {
        for between in &BETWEEN {
            let (command, between) = (*command, *between);
            found.push(format!(in alloc; "{front}{command} with {between}")?)?;
        }
    }
    Ok(())
}

// The first line of a text of this kind.
fn push_title<A: Allocator + Copy>(
    alloc: A,
    found: &mut Templates<A>,
    kind: TextKind,
) -> Result<(), AllocError> {
    push_behind(alloc, found, "smp VERSION ", &[kind.word()])
}

// The lines of a kind behind its head.
fn push_body<A: Allocator + Copy>(
    alloc: A,
    found: &mut Templates<A>,
    kind: TextKind,
    is_third: bool,
) -> Result<(), AllocError> {
    match kind {
        TextKind::Replay => {
            push_behind(alloc, found, "start CPU ", &COMMANDS)?;
            push_behind(alloc, found, "", &["step CPU N", "show"])
        }
        TextKind::Run => push_behind(alloc, found, "do CPU N ", &OPERATIONS),
        TextKind::Exploration => {
            push_behind(alloc, found, "cpu C ", &COMMANDS)?;
            push_behind(alloc, found, "cpu C ", &CALLS)?;
            push_repeated(alloc, found, "cpu C repeat ")?;
            push_repeated(alloc, found, "cpu C repeat N ")?;
            push_behind(
                alloc,
                found,
                "",
                &["always COND", "never COND", "finally COND"],
            )
        }
        TextKind::Trace => {
            push_behind(alloc, found, "C ", &EVENTS)?;
            if is_third {
                return push_behind(alloc, found, "C ", &THIRD_EVENTS);
            }
            push_behind(alloc, found, "C ", &STOPS)
        }
    }
}

/// The lines that a text of this kind may have at this number, counted from 1. Where the kind is not known its first line
/// may be that of each. A trace of more than 32 CPUs has no labels.
pub fn templates_at<A: Allocator + Copy>(
    alloc: A,
    kind: Option<TextKind>,
    line: u32,
    setting: &TextSetting,
) -> Result<Templates<A>, AllocError> {
    let mut found = Vec::new(alloc);
    let Some(kind) = kind else {
        for kind in TextKind::ALL {
            push_title(alloc, &mut found, kind)?;
        }
        return Ok(found);
    };
    if line == 1 {
        push_title(alloc, &mut found, kind)?;
        return Ok(found);
    }
    if line == 2 {
        push_behind(alloc, &mut found, "", &["cpus NR MASK"])?;
        return Ok(found);
    }
    if line == 3 && setting.many == 0 {
        push_behind(alloc, &mut found, "", &["labels KEYS ITEMS"])?;
    }
    if line <= 4 && kind == TextKind::Trace {
        push_behind(alloc, &mut found, "", &["without GROUP .."])?;
    }
    push_body(alloc, &mut found, kind, setting.is_third)?;
    Ok(found)
}
