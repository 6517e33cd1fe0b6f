//! Where the events of a picture are: rows of 30 columns, and in each row the same lanes.

ghost use Rattle.std.specs.Prelude.{◌≡◌, ◌≤◌, ◌<◌, ◌^◌, ◌+◌, ◌*◌, ◌/◌, length, true, IfOk};
ghost use Rattle.trace_page.specs.Grids.{base_of, first_of, has_event, lanes_below, low_of, x_of, y_of};
ghost use Rattle.view.specs.Frame.{left_of, upper_of};

use std::alloc::{AllocError, Allocator};
use trace_ftrace::names::Names;
use trace_ftrace::told::Told;
use view::frame::{Frame, Lane};

/// How many columns a row has.
pub(crate) const COLUMNS: u32 = 30;

/// The lanes, and the place of the lowest one below the highest.
#[derive(Clone, Copy)]
pub(crate) struct Grid<'a> {
    pub(crate) lanes: &'a [Lane],
    pub(crate) low: u32,
    ghost small: { low ≤ 31682 },
}

/// What a picture is drawn with: memory, the kernel's names, and where things are.
#[derive(Clone, Copy)]
pub(crate) struct Pen<'a, A: Allocator + Copy> {
    pub(crate) alloc: A,
    pub(crate) names: Names<'a>,
    pub(crate) grid: Grid<'a>,
}

/// Whether a CPU has an event.
fn has_event(events: &[Told], cpu: u32) -> bool
    ensures { result ≡ has_event cpu events.now }
{
    events.iter().any(|told| told.cpu == cpu)
}

/// A lane for each CPU that has an event, each below the one before it.
#[tactic(auto, unfolding(crate::specs::Grids::lanes_below))]
pub(crate) fn lanes_of<A: Allocator>(alloc: A, events: &[Told]) -> Result<Vec<Lane, A>, AllocError>
    ensures lanes { IfOk result (λ lanes. lanes.items ≡ lanes_below events.now 512) }
    ensures few { IfOk result (λ lanes. length lanes.items ≤ 512) }
{
    let mut found = Vec::new(alloc);
    for cpu in 0..512u32 {
        if has_event(events, cpu) {
            let top = 62 * found.len() as u32;
            found.push(Lane {
                cpu,
                top,
                busy: true,
            })?;
        }
    }
    Ok(found)
}

impl<'a> Grid<'a> {
    /// The grid of these lanes.
    pub(crate) fn new(lanes: &'a [Lane]) -> Grid<'a>
        requires { length lanes.now ≤ 512 }
        ensures lanes { result.lanes ≡ lanes.entry }
        ensures low { result.low ≡ low_of lanes.now }
    {
        let low = 62 * (lanes.len().saturating_sub(1)) as u32;
        Grid { lanes, low }
    }

    /// The row of an event.
    pub(crate) fn frame(&self, number: u32) -> Frame<'a>
        requires { number ≤ 300 }
        ensures wide { result.wide ≡ true }
        ensures first { result.first ≡ first_of number }
        ensures last { result.last ≡ first_of number + 29 }
        ensures base { result.base ≡ base_of self.now.low number }
        ensures low { result.low ≡ self.now.low }
        ensures lanes { result.lanes ≡ self.now.lanes }
    {
        let row = number / COLUMNS;
        let first = row * COLUMNS;
        Frame {
            wide: true,
            first,
            last: first + (COLUMNS - 1),
            base: 112 + row * (self.low + 96),
            low: self.low,
            lanes: self.lanes,
        }
    }

    /// The middle of an event's column, at the height of the dots in the lane of a CPU.
    pub(crate) fn point(&self, number: u32, cpu: u32) -> (u64, u64)
        requires { number ≤ 300 }
        ensures value { result ≡ (x_of number, y_of self.now.low self.now.lanes.now number cpu) }
        ensures small { (32 ≤ result.1) × (result.1 < 2 ^ 41) }
    {
        let frame = self.frame(number);
        (frame.left(number) + 14, frame.upper(cpu) + 32)
    }
}
