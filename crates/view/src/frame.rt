//! Where things are in a row of a picture: columns of events, lanes of CPUs.

ghost use Rattle.std.specs.Prelude.{◌≡◌, ◌≤◌, ◌<◌, ◌^◌, ◌+◌, ◌*◌, IfOk};
ghost use Rattle.view.specs.Frame.{bottom_of, column_of, is_busy, is_event_of, lane_height, lanes_from, left_of};
ghost use Rattle.view.specs.Frame.{lowest_of, step_of, top_of, upper_of, FitsIn};

use std::alloc::{AllocError, Allocator};
use trace_events::rows::{Row, What};

/// The width of a picture, in pixels, as all lengths here.
pub const WIDTH: u64 = 900;

/// The place left of the columns.
pub const LEFT: u64 = 52;

/// The height of a lane; that of a CPU without an event in the row is lower.
pub const LANE: u64 = 62;

pub const IDLE_LANE: u64 = 20;

const BUSY: u32 = 62;

const IDLE: u32 = 20;

/// How many columns a row has at most, and how many where they are wide.
pub const MOST_COLUMNS: u32 = 60;

pub const MOST_WIDE: u32 = 30;

/// Columns of a picture: a script has no more events.
const MOST: usize = 100_000;

/// The lane of a CPU: its place below the highest lane.
#[derive(Clone, Copy)]
pub struct Lane {
    pub cpu: u32,
    pub top: u32,
    pub busy: bool,
}

/// A row of a picture: its first and its last column and whether they are wide, the place of its highest lane and that of
/// its lowest below it, and its lanes.
#[derive(Clone, Copy)]
pub struct Frame<'a> {
    pub wide: bool,
    pub first: u32,
    pub last: u32,
    pub base: u32,
    pub low: u32,
    pub lanes: &'a [Lane],
    ghost lawful: { FitsIn wide first last },
}

/// The column of an event.
pub fn column(row: &Row) -> u32
    ensures value { result ≡ column_of row.now }
    ensures within { result ≤ 100000 }
{
    row.number.min(MOST) as u32
}

/// The column of the last event; a `show` has the number of the event behind it.
pub fn last_column(rows: &[Row]) -> u32
    ensures { result ≤ 100000 }
{
    let Some(row) = rows.last() else {
        return 0;
    };
    match row.what {
        What::Shown => column(row).saturating_sub(1),
        _ => column(row),
    }
}

// Whether the row is an event of this CPU.
fn is_event_of(row: &Row, cpu: u32) -> bool
    ensures { result ≡ is_event_of cpu row.now }
{
    match row.what {
        What::Shown => false,
        _ => row.cpu == cpu,
    }
}

/// Whether the CPU has an event.
pub fn is_busy(rows: &[Row], cpu: u32) -> bool
    ensures { result ≡ is_busy rows.now cpu }
{
    rows.iter().any(|row| is_event_of(row, cpu))
}

// The height of a lane.
fn height(busy: bool) -> u32
    ensures { result ≡ lane_height busy }
{
    if busy { BUSY } else { IDLE }
}

/// The lanes of these CPUs, from the highest on.
pub fn lanes_of<A: Allocator>(
    alloc: A,
    cpus: &[u32],
    rows: &[Row],
) -> Result<Vec<Lane, A>, AllocError>
    ensures { IfOk result (λ lanes. lanes.items ≡ lanes_from rows.now 0 cpus.now) }
{
    let mut found = Vec::new(alloc);
    let mut top = 0u32;
    for cpu in cpus {
        let cpu = *cpu;
        let busy = is_busy(rows, cpu);
        found.push(Lane { cpu, top, busy })?;
        top = top.saturating_add(height(busy));
    }
    Ok(found)
}

/// The place of the lowest lane.
pub fn lowest(lanes: &[Lane]) -> u32
    ensures { result ≡ lowest_of lanes.now }
{
    match lanes.last() {
        Some(lane) => lane.top,
        None => 0,
    }
}

// The place of a CPU's lane below the highest one; that of the lowest where it has none.
fn top_of(lanes: &[Lane], cpu: u32, low: u32) -> u32
    ensures { result ≡ top_of low cpu lanes.now }
{
    let [lane, lanes @ ..] = lanes else {
        return low;
    };
    if lane.cpu == cpu {
        return lane.top;
    }
    top_of(lanes, cpu, low)
}

impl<'a> Frame<'a> {
    /// The width of a column.
    pub fn step(&self) -> u64
        ensures { result ≡ step_of self.now.wide }
    {
        if self.wide { 28 } else { 14 }
    }

    /// The lane of a CPU, where it has one.
    pub fn lane(&self, cpu: u32) -> Option<&'a Lane> {
        self.lanes.iter().find(|lane| lane.cpu == cpu)
    }

    /// Whether a column is one of the row's.
    pub fn has_column(&self, column: u32) -> bool {
        self.first <= column && column <= self.last
    }

    /// The left edge of a column.
    pub fn left(&self, column: u32) -> u64
        ensures value { result ≡ left_of self.now.wide self.now.first self.now.last column }
        ensures inside { result + step_of self.now.wide ≤ 892 }
    {
        let column = if column < self.last {
            column
        } else {
            self.last
        };
        let place = u64::from(column.saturating_sub(self.first));
        if self.wide {
            LEFT + 28 * place
        } else {
            LEFT + 14 * place
        }
    }

    /// The upper edge of a CPU's lane.
    pub fn upper(&self, cpu: u32) -> u64
        ensures value { result ≡ upper_of self.now.base self.now.low self.now.lanes.now cpu }
        ensures small { result < 2 ^ 40 }
        ensures inside { self.now.base ≤ result }
        ensures within { result ≤ self.now.base + self.now.low }
    {
        let top = top_of(self.lanes, cpu, self.low);
        let top = if top < self.low { top } else { self.low };
        u64::from(self.base) + u64::from(top)
    }

    /// The lower edge of the row.
    pub fn bottom(&self) -> u64
        ensures value { result ≡ bottom_of self.now.base self.now.low }
        ensures small { result < 2 ^ 40 }
    {
        u64::from(self.base) + u64::from(self.low) + LANE
    }

    /// The lower edge of the lowest lane.
    pub fn foot(&self) -> u64
        ensures { result ≤ bottom_of self.now.base self.now.low }
    {
        let bottom = self.bottom();
        match self.lanes.last() {
            Some(lane) if !lane.busy => bottom - (LANE - IDLE_LANE),
            _ => bottom,
        }
    }
}
