//! What is seen of a replay, moment by moment.

ghost use Rattle.std.specs.Prelude.{◌≡◌, ◌+◌, ◌<◌, ◌^◌, IfOk};
ghost use Rattle.trace_events.specs.Rows.{asked_cpu, is_refused, looked_at, rows_of, turned, turns_in, what_seen};

use crate::moments::{Asked, Moment};
use smp_core::{Core, Event, Seen};
use smp_mask::SmpError;
use std::alloc::{AllocError, Allocator};

/// What came of one thing that was asked for.
#[derive(Clone, Copy)]
pub enum What {
    /// The CPU has begun a command.
    Began,
    /// The CPU has made this step.
    Stepped(Seen),
    /// The event was refused.
    Refused(SmpError),
    /// No event: what `show` prints.
    Shown,
}

/// One thing that was asked for, and what came of it.
#[derive(Clone, Copy)]
pub struct Row {
    /// How many events came before.
    pub number: usize,
    /// The line of the script, counted from 1.
    pub line: usize,
    pub cpu: u32,
    pub what: What,
}

// The CPU of an event, or 0.
fn asked_cpu(asked: &Asked) -> u32
    ensures { result ≡ asked_cpu asked.now }
{
    match asked {
        Asked::Turn(Event::Start(cpu, _)) => *cpu,
        Asked::Turn(Event::Step(cpu)) => *cpu,
        Asked::Show => 0,
    }
}

// What came of an event that was not refused.
fn what_seen(seen: Option<Seen>) -> What
    ensures { result ≡ what_seen seen }
{
    match seen {
        Some(seen) => What::Stepped(seen),
        None => What::Began,
    }
}

/// Whether the event was refused.
pub fn is_refused(what: What) -> bool
    ensures { result ≡ is_refused what }
{
    match what {
        What::Refused(_) => true,
        _ => false,
    }
}

// How many events it was.
fn turns_in(asked: Asked) -> usize
    ensures { result ≡ turns_in asked }
{
    match asked {
        Asked::Turn(_) => 1,
        Asked::Show => 0,
    }
}

// What comes of the event of this number, of that CPU and that line.
fn turn<A: Allocator>(core: &mut Core<A>, number: usize, line: usize, cpu: u32, event: Event) -> Row
    ensures row { result ≡ (turned core.old number line cpu event).row }
    ensures core { core.new ≡ (turned core.old number line cpu event).core }
{
    match core.apply(event) {
        Ok(seen) => Row {
            number,
            line,
            cpu,
            what: what_seen(seen),
        },
        Err(error) => Row {
            number,
            line,
            cpu,
            what: What::Refused(error),
        },
    }
}

// What comes of one thing that is asked for of that CPU, with this number of events before it.
fn look<A: Allocator>(core: &mut Core<A>, number: usize, line: usize, cpu: u32, asked: Asked) -> Row
    ensures row { result ≡ (looked_at core.old number line cpu asked).row }
    ensures core { core.new ≡ (looked_at core.old number line cpu asked).core }
{
    match asked {
        Asked::Turn(event) => turn(core, number, line, cpu, event),
        Asked::Show => Row {
            number,
            line,
            cpu,
            what: What::Shown,
        },
    }
}

/// What comes of each of these, one after the other, up to the first event that is refused.
pub fn rows_of<A: Allocator, B: Allocator>(
    alloc: B,
    core: &mut Core<A>,
    moments: &[Moment],
) -> Result<Vec<Row, B>, AllocError>
    ensures { IfOk result (λ rows. rows.items ≡ rows_of core.old 0 moments.now) }
{
    let mut rows = Vec::new(alloc);
    let mut number = 0;
    for moment in moments {
        let cpu = asked_cpu(&moment.asked);
        let row = look(core, number, moment.line, cpu, moment.asked);
        rows.push(row)?;
        if is_refused(row.what) {
            return Ok(rows);
        }
        number += turns_in(moment.asked);
    }
    Ok(rows)
}
