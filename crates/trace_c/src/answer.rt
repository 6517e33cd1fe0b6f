//! How a report is put into the caller's memory.

ghost use Rattle.std.specs.Prelude.{◌≡◌, length, min};
ghost use Rattle.trace_c.specs.Reports.{GivesReport, cause_number, filled};

use crate::report::Report;
use smp_mask::{Cause, SmpError};

/// The numbers beside a status.
#[repr(C)]
#[derive(Clone, Copy)]
pub struct SmpAnswer {
    /// How many bytes there are to print.
    pub length: usize,
    /// How many of them had room.
    pub written: usize,
    /// The line that the answer names, counted from 1; 0 where it names none.
    pub line: usize,
    /// Why it could not be done, by its number in `include/smp.h`; 0 where it was done.
    pub cause: u32,
}

/// Where memory was refused.
const NO_MEMORY: SmpAnswer = SmpAnswer {
    length: 0,
    written: 0,
    line: 0,
    cause: 8,
};

/// The number of a cause.
fn cause_number(cause: Cause) -> u32
    ensures { result ≡ cause_number cause }
{
    match cause {
        Cause::TooLong => 1,
        Cause::Cut => 2,
        Cause::Word => 3,
        Cause::Number => 4,
        Cause::Range => 5,
        Cause::Mask => 6,
        Cause::SharedKey => 7,
    }
}

/// Puts a text into these bytes as far as they have room, and answers how many bytes of it had.
fn fill(text: &[u8], out: &mut [u8]) -> usize
    ensures written { result ≡ min (length text.now) (length out.old) }
    ensures bytes { out.new ≡ filled text.now out.old }
{
    let written = text.len().min(out.len());
    out[..written].copy_from_slice(&text[..written]);
    written
}

/// Puts a report into the caller's memory, or why there is none, and answers the status.
pub fn give(found: Result<Report, SmpError>, out: &mut [u8], answer: &mut SmpAnswer) -> i32
    ensures { GivesReport found result answer.new out.old out.new }
{
    match found {
        Ok(report) => {
            let text = report.text.as_slice();
            *answer = SmpAnswer {
                length: text.len(),
                written: fill(text, out),
                line: report.line,
                cause: 0,
            };
            if report.is_yes { 0 } else { 1 }
        }
        Err(SmpError::BadScript { line, cause }) => {
            *answer = SmpAnswer {
                length: 0,
                written: 0,
                line: line as usize,
                cause: cause_number(cause),
            };
            2
        }
        Err(_) => {
            *answer = NO_MEMORY;
            2
        }
    }
}
