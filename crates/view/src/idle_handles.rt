//! Handles that find no interrupt: they are drawn small.

use smp_core::{Act, Command, Event, Seen, Word};
use std::alloc::{AllocError, Allocator};
use trace_events::moments::{Asked, Moment};
use trace_events::rows::{Row, What};

/// A CPU's handle that finds no interrupt is its start and three steps.
const EVENTS: u8 = 4;

/// There are no more CPUs.
const CPUS: usize = 32;

// What a step has found in the interrupt word that it swaps.
fn taken(seen: Seen) -> Option<u64> {
    match (seen.act, seen.word) {
        (Act::Swap, Word::Intr(_)) => seen.found,
        _ => None,
    }
}

/// Whether a handle that this CPU has begun before these rows finds no interrupt.
pub fn finds_nothing(cpu: u32, rest: &[Row]) -> bool {
    for row in rest {
        match row.what {
            What::Shown => {}
            What::Stepped(seen) if row.cpu == cpu => {
                if let Some(found) = taken(seen) {
                    return found == 0;
                }
            }
            _ if row.cpu == cpu => return false,
            _ => {}
        }
    }
    false
}

/// Whether this begins a handle that finds no interrupt.
pub fn is_idle(moment: &Moment, begun: &Row, rest: &[Row]) -> bool {
    match (moment.asked, begun.what) {
        (Asked::Turn(Event::Start(_, Command::Handle)), What::Began) => {
            finds_nothing(begun.cpu, rest)
        }
        _ => false,
    }
}

// How many of each CPU's next events are of a handle that finds no interrupt.
#[derive(Drop)]
struct Left {
    of: [u8; CPUS],
}

impl Left {
    // Notes that such a handle begins.
    fn begin(&mut self, cpu: u32) {
        if let Some(left) = self.of.get_mut(cpu as usize) {
            *left = EVENTS;
        }
    }

    // Whether a CPU's event is of such a handle.
    fn take(&mut self, row: &Row) -> bool {
        match (self.of.get_mut(row.cpu as usize), row.what) {
            (_, What::Shown) => false,
            (Some(left), _) if *left > 0 => {
                *left -= 1;
                true
            }
            _ => false,
        }
    }
}

/// Those of these rows that are of no handle that finds no interrupt.
pub fn not_idle<A: Allocator>(
    alloc: A,
    moments: &[Moment],
    rows: &[Row],
) -> Result<Vec<Row, A>, AllocError> {
    let mut found = Vec::new(alloc);
    let mut left = Left { of: [0; CPUS] };
    let mut rest = rows;
    let mut asked = moments;
    for row in rows {
        let [_, after @ ..] = rest else {
            return Ok(found);
        };
        rest = after;
        if let [moment, behind @ ..] = asked {
            if is_idle(moment, row, rest) {
                left.begin(row.cpu);
            }
            asked = behind;
        }
        if !left.take(row) {
            found.push(*row)?;
        }
    }
    Ok(found)
}
