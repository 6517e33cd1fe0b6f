use super::*;
use std::process::Abort;

// A line of a worked case: what a CPU does, and what is to be seen.
#[derive(Copy, Clone)]
pub enum Line {
    // The CPU begins the command.
    Begin(u32, Command),
    // The CPU makes a step, which shows this.
    Sees(Seen),
    // The CPU makes this number of steps.
    Steps(u32, u32),
    // The CPU begins the command, whose step of this number has this note.
    Goes(u32, Command, u32, Note),
    // The CPU begins the command, and is refused.
    Refused(u32, Command, SmpError),
    // The record is here.
    Stands(u32, RecPlace),
    // The CPU's queue holds these records and no others, the older one first.
    Queue(u32, Option<u32>, Option<u32>),
    // How many calls from the first CPU to the second were queued, and how many ran.
    Tally(u32, u32, (u64, u64)),
    // The word holds this number; none where there is no such word.
    Holds(Word, Option<u64>),
    // The slot is at this phase.
    Phase(u32, u32),
}

impl Line {
    // Whether it goes as the line says.
    fn goes<A: Allocator>(&self, core: &mut Core<A>) -> Result<bool, SmpError> {
        match *self {
            Line::Begin(cpu, command) => {
                core.start(cpu, command)?;
                Ok(true)
            }
            Line::Sees(expected) => Ok(core.step(expected.cpu)? == expected),
            Line::Steps(cpu, count) => {
                last_note(core, cpu, count)?;
                Ok(true)
            }
            Line::Goes(cpu, command, count, note) => {
                core.start(cpu, command)?;
                Ok(last_note(core, cpu, count)? == Some(note))
            }
            Line::Refused(cpu, command, error) => Ok(core.start(cpu, command) == Err(error)),
            Line::Stands(id, place) => Ok(core.place(id) == Some(place)),
            Line::Queue(cpu, first, second) => Ok(queue_is(core, cpu, first, second)),
            Line::Tally(src, dst, counts) => Ok(core.tally(src, dst) == counts),
            Line::Holds(word, number) => Ok(core.word(word) == number),
            Line::Phase(slot, phase) => Ok(core.phase(slot) == phase),
        }
    }
}

// Whether the CPU's queue holds these records and no others.
fn queue_is<A: Allocator>(
    core: &Core<A>,
    cpu: u32,
    first: Option<u32>,
    second: Option<u32>,
) -> bool {
    let queue = core.queue(cpu);
    let ids = queue.as_slice();
    (ids.get(0).copied(), ids.get(1).copied(), ids.get(2)) == (first, second, None)
}

// Makes this number of steps: the note of the last.
fn last_note<A: Allocator>(
    core: &mut Core<A>,
    cpu: u32,
    count: u32,
) -> Result<Option<Note>, SmpError> {
    let mut note = None;
    for _step in 0..count {
        note = core.step(cpu)?.note;
    }
    Ok(note)
}

// Plays the parts of a case on the core, one after the other: each line goes as it says.
pub fn play(rt: &impl Abort, parts: &[&[Line]], mut core: Core<Global>) {
    assert_eq!(rt; first_fault(&mut core, parts), Ok(None));
}

// The part and the index there of the first line that goes another way.
fn first_fault<A: Allocator>(
    core: &mut Core<A>,
    parts: &[&[Line]],
) -> Result<Option<(usize, usize)>, SmpError> {
    for (part, lines) in parts.iter().enumerate() {
        for (i, line) in lines.iter().enumerate() {
            if !line.goes(core)? {
                return Ok(Some((part, i)));
            }
        }
    }
    Ok(None)
}

fn sees(cpu: u32, act: Act, word: Word, found: Option<u64>, put: Option<u64>) -> Line {
    Line::Sees(Seen {
        cpu,
        act,
        word,
        found,
        put,
        note: None,
    })
}

pub fn load(cpu: u32, word: Word, found: u64) -> Line {
    sees(cpu, Act::Load, word, Some(found), None)
}

pub fn store(cpu: u32, word: Word, put: u64) -> Line {
    sees(cpu, Act::Store, word, None, Some(put))
}

pub fn swap(cpu: u32, word: Word, found: u64, put: u64) -> Line {
    sees(cpu, Act::Swap, word, Some(found), Some(put))
}

pub fn sub(cpu: u32, word: Word, found: u64) -> Line {
    sees(
        cpu,
        Act::Sub,
        word,
        Some(found),
        Some(found.wrapping_sub(1)),
    )
}

pub fn cas(cpu: u32, word: Word, found: u64, put: Option<u64>) -> Line {
    sees(cpu, Act::Cas, word, Some(found), put)
}

// The step of a line, with this note.
pub fn noted(line: Line, note: Note) -> Line {
    match line {
        Line::Sees(mut seen) => {
            seen.note = Some(note);
            Line::Sees(seen)
        }
        other => other,
    }
}
