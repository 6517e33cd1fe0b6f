//! The first line in which two texts differ.

ghost use Rattle.std.specs.Prelude.{◌≡◌, ◌++◌, IfOk, OnOk, MatchOption, drop};
ghost use Rattle.smp_script.specs.Lines.{lines_of};
ghost use Rattle.smp_replay.specs.Difference.{DiffersFirst, difference_text, number_text, side_text};

use smp_script::line::next_line;
use std::alloc::{AllocError, Allocator};

/// Where two texts differ first.
#[derive(Clone, Copy, Debug, PartialEq, Eq)]
pub struct Difference {
    /// The number of the line, counted from 1.
    pub line: usize,
    /// Where that line starts, in both texts.
    pub start: usize,
    /// The first byte that differs, or that only one of the texts has.
    pub at: usize,
}

/// The first line in which two texts differ; none where they are equal.
pub fn first_difference(one: &[u8], two: &[u8]) -> Option<Difference>
    ensures { MatchOption result (one.now ≡ two.now) (λ d. DiffersFirst one.now two.now d) }
{
    let mut line = 1;
    let mut start = 0;
    let most = one.len().min(two.len());
    for at in 0..most {
        if one[at] != two[at] {
            return Some(Difference { line, start, at });
        }
        if one[at] == b'\n' {
            line += 1;
            start = at + 1;
        }
    }
    if one.len() == two.len() {
        return None;
    }
    Some(Difference {
        line,
        start,
        at: most,
    })
}

/// The line at the front of what a text has left.
fn push_side<A: Allocator>(out: &mut Vec<u8, A>, name: &[u8], rest: &[u8]) -> Result<(), AllocError>
    ensures { OnOk result (out.new.items ≡ out.old.items ++ side_text name.now (lines_of rest.now)) }
{
    out.extend_from_slice(name)?;
    let Some(line) = next_line(rest) else {
        return out.extend_from_slice(b" has ended\n");
    };
    out.extend_from_slice(b": ")?;
    out.extend_from_slice(line.text)?;
    out.extend_from_slice(if line.is_ended { b"\n" } else { b" (cut)\n" })
}

/// What a text has from this place on.
fn rest_from(text: &[u8], start: usize) -> &[u8]
    ensures { result.now ≡ drop start text.now }
{
    &text[start.min(text.len())..]
}

/// Which line differs.
fn push_number<A: Allocator + Copy>(
    alloc: A,
    out: &mut Vec<u8, A>,
    line: usize,
) -> Result<(), AllocError>
    ensures { OnOk result (out.new.items ≡ out.old.items ++ number_text line) }
{
    let mut text = String::new(alloc);
    writeln!(text, "line {line} differs")?;
    out.extend_from_slice(text.as_bytes())
}

/// What is told of a difference between what the machine prints and a trace: the line, and what each has there.
pub fn difference_text<A: Allocator + Copy>(
    alloc: A,
    difference: Difference,
    printed: &[u8],
    trace: &[u8],
) -> Result<Vec<u8, A>, AllocError>
    ensures { IfOk result (λ out. out.items ≡ difference_text difference printed.now trace.now) }
{
    let mut out = Vec::new(alloc);
    push_number(alloc, &mut out, difference.line)?;
    push_side(&mut out, b"machine", rest_from(printed, difference.start))?;
    push_side(&mut out, b"trace", rest_from(trace, difference.start))?;
    Ok(out)
}
