//! Which events are shown.

ghost use Rattle.std.specs.Prelude.{◌≡◌, IfOk};
ghost use Rattle.std.specs.List.{filter};
ghost use Rattle.view.specs.Choice.{has_cpu, is_chosen, marked_in};

use smp_mask::CpuMask;
use std::alloc::{AllocError, Allocator};
use trace_events::rows::Row;

/// An event that is marked.
#[derive(Clone, Copy, Debug, PartialEq, Eq)]
pub enum Mark {
    /// The event of this number.
    Event(usize),
    /// The last event: of a script of `smp explore`, the one that breaks the expectation.
    Last,
}

/// Which events are shown, and which of them is marked.
#[derive(Clone, Copy, Debug, PartialEq, Eq)]
pub struct Choice {
    /// The number of the first one, and of the last one.
    pub from: usize,
    pub to: usize,
    /// Those of these CPUs; none for all.
    pub cpus: Option<CpuMask>,
    pub mark: Option<Mark>,
}

impl Choice {
    /// All events, and none is marked.
    pub const ALL: Choice = Choice {
        from: 0,
        to: usize::MAX,
        cpus: None,
        mark: None,
    };

    /// Whether a CPU is shown.
    pub fn has_cpu(&self, cpu: u32) -> bool
        ensures { result ≡ has_cpu self.now.cpus cpu }
    {
        match self.cpus {
            Some(cpus) => cpus.contains(cpu),
            None => true,
        }
    }

    // Whether a row is shown.
    fn has_row(&self, row: &Row) -> bool
        ensures { result ≡ is_chosen self.now row.now }
    {
        self.from <= row.number && row.number <= self.to && self.has_cpu(row.cpu)
    }

    /// Those of these rows that are shown.
    pub fn chosen<A: Allocator>(&self, alloc: A, rows: &[Row]) -> Result<Vec<Row, A>, AllocError>
        ensures { IfOk result (λ chosen. chosen.items ≡ filter (is_chosen self.now) rows.now) }
    {
        let mut found = Vec::new(alloc);
        for row in rows {
            if self.has_row(row) {
                found.push(*row)?;
            }
        }
        Ok(found)
    }

    /// The number of the marked event: the one that the mark names, whether a row has it or not, or the last row's.
    pub fn marked(&self, rows: &[Row]) -> Option<usize>
        ensures { result ≡ marked_in self.now.mark rows.now }
    {
        match self.mark? {
            Mark::Event(number) => Some(number),
            Mark::Last => {
                let last = rows.last()?;
                Some(last.number)
            }
        }
    }
}
