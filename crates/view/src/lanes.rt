//! A replay with one column for each CPU.

ghost use Rattle.std.specs.Prelude.{◌≡◌, ◌++◌, IfOk, OnOk, string_bytes};
ghost use Rattle.std.specs.Fmt.{decimal};
ghost use Rattle.std.specs.List.{flat_map};
ghost use Rattle.smp_mask.specs.Mask.{members};
ghost use Rattle.view.specs.Choice.{chosen_of};
ghost use Rattle.view.specs.Cells.{apart, cell_at, front_text, head_cell, head_text, is_column, padded, row_text, table_cell, told_text};

use crate::cell::cell;
use crate::choice::Choice;
use crate::narrow_lanes::{write_narrow, write_narrow_head};
use crate::pad::write_padded;
use smp_mask::CpuMask;
use std::alloc::{AllocError, Allocator};
use std::str::from_utf8;
use trace_events::rows::Row;

/// The width of an event's number, and of a line's.
const NUMBER: usize = 6;

const LINE: usize = 4;

/// How wide a script's line and a column are, and which CPUs have a column.
#[derive(Clone, Copy)]
pub struct Layout<'a> {
    pub script: usize,
    pub column: usize,
    pub cpus: &'a [u32],
}

/// A table has no more columns of text than this, where it has a narrow form.
const MOST_WIDTH: usize = 160;

/// A line of the script is cut in the narrow form from here on.
const MOST_SCRIPT: usize = 40;

/// The CPUs of a mask, ascending.
pub fn columns<A: Allocator>(alloc: A, online: CpuMask) -> Result<Vec<u32, A>, AllocError>
    ensures { IfOk result (λ cpus. cpus.items ≡ members online) }
{
    let mut cpus = Vec::new(alloc);
    for cpu in online.iter() {
        cpus.push(cpu)?;
    }
    Ok(cpus)
}

/// The CPUs of a mask that are chosen, ascending.
pub fn chosen_columns<A: Allocator + Copy>(
    alloc: A,
    choice: &Choice,
    online: CpuMask,
) -> Result<Vec<u32, A>, AllocError>
    ensures { IfOk result (λ cpus. cpus.items ≡ chosen_of choice.now online) }
{
    match choice.cpus {
        Some(cpus) => columns(alloc, online.and(cpus)),
        None => columns(alloc, online),
    }
}

// A line of the script by its number; nothing where there is no such line, or it is no text.
fn script_line<'a>(lines: &[&'a [u8]], line: usize) -> &'a str {
    match lines.get(line.saturating_sub(1)) {
        Some(bytes) => from_utf8(bytes).unwrap_or(""),
        None => "",
    }
}

// What is in the column of that CPU: nothing where the row is of another.
fn cell_at<'a>(row: &Row, text: &'a str, cpu: u32) -> &'a str
    ensures { result.now ≡ cell_at row.now.cpu text.now cpu }
{
    if row.cpu == cpu { text } else { "" }
}

// One cell of the table, with the bar behind it.
fn write_table_cell<A: Allocator>(
    out: &mut String<A>,
    text: &str,
    width: usize,
) -> Result<(), AllocError>
    ensures { OnOk result (string_bytes out.new ≡ string_bytes out.old ++ table_cell text.now width) }
{
    write!(out, " ")?;
    write_padded(out, text, width)?;
    write!(out, " |")
}

// The columns of a row.
fn write_cells<A: Allocator>(
    out: &mut String<A>,
    layout: &Layout<'_>,
    row: &Row,
    text: &str,
) -> Result<(), AllocError>
    ensures { OnOk result (string_bytes out.new ≡ string_bytes out.old
        ++ flat_map (λ cpu. table_cell (cell_at row.now.cpu text.now cpu) layout.now.column) layout.now.cpus.now) }
{
    for cpu in layout.cpus {
        write_table_cell(out, cell_at(row, text, *cpu), layout.column)?;
    }
    Ok(())
}

/// Whether the CPU has a column.
pub(crate) fn is_column(cpus: &[u32], cpu: u32) -> bool
    ensures { result ≡ is_column cpus.now cpu }
{
    cpus.iter().any(|c| *c == cpu)
}

// What is told of a CPU that has no column, behind the table.
fn write_apart<A: Allocator>(
    out: &mut String<A>,
    layout: &Layout<'_>,
    row: &Row,
    text: &str,
) -> Result<(), AllocError>
    ensures { OnOk result (string_bytes out.new ≡ string_bytes out.old ++ apart layout.now.cpus.now row.now.cpu text.now) }
{
    if is_column(layout.cpus, row.cpu) || text.is_empty() {
        return write!(out, "");
    }
    let cpu = row.cpu;
    write!(out, " CPU {cpu}: {text}")
}

// A number, and spaces behind it up to this width.
fn write_number<A: Allocator + Copy>(
    alloc: A,
    out: &mut String<A>,
    number: usize,
    width: usize,
) -> Result<(), AllocError>
    ensures { OnOk result (string_bytes out.new ≡ string_bytes out.old ++ padded (decimal number) width) }
{
    let text = format!(in alloc; "{number}")?;
    write_padded(out, text.as_str(), width)
}

/// The number of an event, its line's, and the line itself.
pub fn write_front<A: Allocator + Copy>(
    alloc: A,
    out: &mut String<A>,
    layout: &Layout<'_>,
    row: &Row,
    script: &str,
) -> Result<(), AllocError>
    ensures { OnOk result (string_bytes out.new ≡ string_bytes out.old ++ front_text layout.now.script row.now.number row.now.line script.now) }
{
    write_number(alloc, out, row.number, NUMBER)?;
    write!(out, " ")?;
    write_number(alloc, out, row.line, LINE)?;
    write!(out, " ")?;
    write_padded(out, script, layout.script)?;
    write!(out, " |")
}

/// A row, and the line of the script in front of it.
#[derive(Clone, Copy)]
struct ScriptRow<'a> {
    script: &'a str,
    row: &'a Row,
}

// One row of the table, with this text in the column of its CPU.
fn write_told<A: Allocator + Copy>(
    alloc: A,
    out: &mut String<A>,
    layout: &Layout<'_>,
    at: ScriptRow,
    text: &str,
) -> Result<(), AllocError>
    ensures { OnOk result (string_bytes out.new ≡ string_bytes out.old
        ++ told_text layout.now.script layout.now.column layout.now.cpus.now at.entry.script.now at.entry.row.now text.now) }
{
    let ScriptRow { script, row } = at;
    write_front(alloc, out, layout, row, script)?;
    write_cells(out, layout, row, text)?;
    write_apart(out, layout, row, text)?;
    writeln!(out, "")
}

// One row of the table.
fn write_row<A: Allocator + Copy>(
    alloc: A,
    out: &mut String<A>,
    layout: &Layout<'_>,
    row: &Row,
    script: &str,
) -> Result<(), AllocError>
    ensures { OnOk result (string_bytes out.new ≡ string_bytes out.old ++ row_text layout.now.script layout.now.column layout.now.cpus.now script.now row.now) }
{
    let text = cell(alloc, row.what)?;
    write_told(alloc, out, layout, ScriptRow { script, row }, text.as_str())
}

// The names of the columns.
fn write_names<A: Allocator + Copy>(
    alloc: A,
    out: &mut String<A>,
    layout: &Layout<'_>,
) -> Result<(), AllocError>
    ensures { OnOk result (string_bytes out.new ≡ string_bytes out.old ++ flat_map (head_cell layout.now.column) layout.now.cpus.now) }
{
    for cpu in layout.cpus {
        let name = format!(in alloc; "CPU {cpu}")?;
        write_table_cell(out, name.as_str(), layout.column)?;
    }
    Ok(())
}

// The head of the table.
fn write_head<A: Allocator + Copy>(
    alloc: A,
    out: &mut String<A>,
    layout: &Layout<'_>,
) -> Result<(), AllocError>
    ensures { OnOk result (string_bytes out.new ≡ string_bytes out.old ++ head_text layout.now.script layout.now.column layout.now.cpus.now) }
{
    write!(out, "event  line ")?;
    write_padded(out, "script", layout.script)?;
    write!(out, " |")?;
    write_names(alloc, out, layout)?;
    writeln!(out, "")
}

// How wide the widest of these is, and no less than the names of the columns.
fn widths<A: Allocator + Copy>(
    alloc: A,
    rows: &[Row],
    lines: &[&[u8]],
) -> Result<(usize, usize), AllocError> {
    let mut script = 6;
    let mut column = 6;
    for row in rows {
        script = script.max(script_line(lines, row.line).len());
        let text = cell(alloc, row.what)?;
        column = column.max(text.len());
    }
    Ok((script, column))
}

// Whether the table with a column for each CPU is no wider than it may be.
fn fits(script: usize, column: usize, cpus: usize) -> bool {
    let cells = column.saturating_add(3).saturating_mul(cpus);
    cells.saturating_add(script).saturating_add(14) <= MOST_WIDTH
}

// The table with a column for each CPU.
fn wide_table<A: Allocator + Copy>(
    alloc: A,
    layout: &Layout<'_>,
    lines: &[&[u8]],
    rows: &[Row],
) -> Result<String<A>, AllocError> {
    let mut out = String::new(alloc);
    write_head(alloc, &mut out, layout)?;
    for row in rows {
        write_row(alloc, &mut out, layout, row, script_line(lines, row.line))?;
    }
    Ok(out)
}

// The front of a line of the script that finds room in the narrow form.
fn cut(line: &str) -> &str {
    line.get(..MOST_SCRIPT).unwrap_or(line)
}

// The table with a mark for each CPU.
fn narrow_table<A: Allocator + Copy>(
    alloc: A,
    layout: &Layout<'_>,
    lines: &[&[u8]],
    rows: &[Row],
) -> Result<String<A>, AllocError> {
    let mut out = String::new(alloc);
    write_narrow_head(&mut out, layout)?;
    for row in rows {
        let script = cut(script_line(lines, row.line));
        write_narrow(alloc, &mut out, layout, row, script)?;
    }
    Ok(out)
}

/// The table of a replay: its head, and a row for each event and each `show`, with the number of the event, the line of the
/// script, and what the CPU has done in the CPU's own column. Where that is wider than 160 columns, each CPU has a mark in
/// place of a column, and what it has done is behind the marks.
pub fn lanes<A: Allocator + Copy>(
    alloc: A,
    cpus: &[u32],
    lines: &[&[u8]],
    rows: &[Row],
) -> Result<String<A>, AllocError> {
    let (script, column) = widths(alloc, rows, lines)?;
    if fits(script, column, cpus.len()) {
        let layout = Layout {
            script,
            column,
            cpus,
        };
        return wide_table(alloc, &layout, lines, rows);
    }
    let layout = Layout {
        script: script.min(MOST_SCRIPT),
        column,
        cpus,
    };
    narrow_table(alloc, &layout, lines, rows)
}
