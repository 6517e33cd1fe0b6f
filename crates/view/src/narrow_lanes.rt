//! A replay with one mark for each CPU, where it has too many for columns.

ghost use Rattle.std.specs.Prelude.{◌≡◌, ◌++◌, OnOk, string_bytes};
ghost use Rattle.view.specs.Cells.{cell_of};
ghost use Rattle.view.specs.NarrowLanes.{digits_text, mark_of, marks_text, narrow_head, narrow_row, narrow_told};

use crate::cell::cell;
use crate::lanes::{Layout, write_front};
use crate::pad::write_padded;
use std::alloc::{AllocError, Allocator};
use trace_events::rows::Row;

// The mark in the column of a CPU.
fn mark_of(row_cpu: u32, cpu: u32) -> &'static str
    ensures { result.now ≡ mark_of row_cpu cpu }
{
    if row_cpu == cpu { "*" } else { "." }
}

// The marks of a row, between bars.
fn write_marks<A: Allocator>(
    out: &mut String<A>,
    cpus: &[u32],
    row_cpu: u32,
) -> Result<(), AllocError>
    ensures { OnOk result (string_bytes out.new ≡ string_bytes out.old ++ marks_text cpus.now row_cpu) }
{
    write!(out, " ")?;
    for cpu in cpus {
        out.push_str(mark_of(row_cpu, *cpu))?;
    }
    write!(out, " | ")
}

// What the CPU has done, behind its number; nothing of a `show`.
fn write_narrow_told<A: Allocator>(
    out: &mut String<A>,
    cpu: u32,
    text: &str,
) -> Result<(), AllocError>
    ensures { OnOk result (string_bytes out.new ≡ string_bytes out.old ++ narrow_told cpu text.now) }
{
    if text.is_empty() {
        return write!(out, "");
    }
    write!(out, "CPU {cpu}: {text}")
}

/// One row of the table: marks, of which that of the row's CPU is a star, and what the CPU has done.
pub fn write_narrow<A: Allocator + Copy>(
    alloc: A,
    out: &mut String<A>,
    layout: &Layout<'_>,
    row: &Row,
    script: &str,
) -> Result<(), AllocError>
    ensures { OnOk result (string_bytes out.new ≡ string_bytes out.old
        ++ narrow_row layout.now.script layout.now.cpus.now script.now row.now (cell_of row.now.what)) }
{
    let text = cell(alloc, row.what)?;
    write_front(alloc, out, layout, row, script)?;
    write_marks(out, layout.cpus, row.cpu)?;
    write_narrow_told(out, row.cpu, text.as_str())?;
    writeln!(out, "")
}

// The last digit of each CPU's number, between bars.
fn write_digits<A: Allocator>(out: &mut String<A>, cpus: &[u32]) -> Result<(), AllocError>
    ensures { OnOk result (string_bytes out.new ≡ string_bytes out.old ++ digits_text cpus.now) }
{
    write!(out, " | ")?;
    for cpu in cpus {
        let digit = *cpu % 10;
        write!(out, "{digit}")?;
    }
    write!(out, " |")
}

/// The head of the table: the last digit of each CPU's number above its marks.
pub fn write_narrow_head<A: Allocator>(
    out: &mut String<A>,
    layout: &Layout<'_>,
) -> Result<(), AllocError>
    ensures { OnOk result (string_bytes out.new ≡ string_bytes out.old ++ narrow_head layout.now.script layout.now.cpus.now) }
{
    write!(out, "event  line ")?;
    write_padded(out, "script", layout.script)?;
    write_digits(out, layout.cpus)?;
    writeln!(out, "")
}
