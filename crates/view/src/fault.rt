//! The first fault of a script, and the line of a text that it lies in.

ghost use Rattle.std.specs.Prelude.{◌≡◌, Err, IfErr, IfOk, IfSome, IsOk, None, option_map};
ghost use Rattle.smp_script.specs.FirstFault.{IsFirstFault, setting_in, limit_in};
ghost use Rattle.smp_script.specs.Lines.{lines_of};
ghost use Rattle.smp_script.specs.Script.{script_of};
ghost use Rattle.view.specs.Explains.{text_at};

use smp_mask::{Cause, SmpError};
use smp_script::Mode;
use smp_script::laws::first_faults_are_told;
use smp_script::line::{fields, is_word, next_line};
use smp_script::script::read_script;
use std::alloc::{AllocError, Allocator};

/// A fault of a script: its line, counted from 1, or 0 for the text as a whole, and what is wrong there.
#[derive(Clone, Copy)]
pub struct Fault {
    pub line: u32,
    pub cause: Cause,
}

/// The first fault of a text as a script of this kind, by the order in which its reader looks; nothing where it has none.
pub fn first_fault<A: Allocator + Copy>(
    alloc: A,
    mode: Mode,
    text: &[u8],
) -> Result<Option<Fault>, SmpError>
    ensures none { IfOk result (λ found. found ≡ None → IsOk (script_of mode text.now)) }
    ensures fault { IfOk result (λ found. IfSome found (λ f. script_of mode text.now ≡ Err (f.line, f.cause))) }
    ensures first { IfOk result (λ found. IfSome found (λ f. IsFirstFault (setting_in mode text.now) text.now f.line f.cause)) }
    ensures err { IfErr result (λ e. e ≡ SmpError.NoMemory) }
{
    match read_script(alloc, mode, text) {
        Ok(_) => Ok(None),
        Err(SmpError::BadScript { line, cause }) => {
            first_faults_are_told();
            Ok(Some(Fault { line, cause }))
        }
        Err(error) => Err(error),
    }
}

/// The CPUs of a script have numbers below this, which its first line tells: 32 in version 2, else 8.
pub fn limit<A: Allocator>(alloc: A, text: &[u8]) -> Result<u32, AllocError>
    ensures { IfOk result (λ limit. limit ≡ limit_in text.now) }
{
    let Some(title) = next_line(text) else {
        return Ok(8);
    };
    let words = fields(alloc, title.text)?;
    match words.get(1) {
        Some(version) if is_word(version, b"2") => Ok(32),
        _ => Ok(8),
    }
}

/// The line of this number, counted from 1; nothing where there is none. Number 0 is taken as 1.
pub fn line_text(text: &[u8], line: u32) -> Option<&[u8]>
    ensures { option_map (λ found. found.now) result ≡ text_at (lines_of text.now) line }
{
    let mut rest = text;
    for _line in 1..line {
        rest = next_line(rest)?.rest;
    }
    let found = next_line(rest)?;
    Some(found.text)
}
