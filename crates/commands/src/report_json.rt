//! What was told of an expectation, as a line of JSON.

use crate::expectation_names::Named;
use explore_text::{Ending, Told};
use std::alloc::{AllocError, Global};

// The word for how an expectation ends.
fn ending_word(ending: Ending) -> &'static str {
    match ending {
        Ending::Hold => "holds",
        Ending::Broken => "broken",
        Ending::Limit | Ending::Written(_) => "limit",
    }
}

// A list of the lines of a text, each of which ends with a line feed.
fn put_lines(out: &mut Vec<u8>, text: &[u8]) -> Result<(), AllocError> {
    out.extend_from_slice(b"[\"")?;
    for at in 0..text.len() {
        match text[at] {
            b'\n' if at + 1 == text.len() => {}
            b'\n' => out.extend_from_slice(b"\",\"")?,
            byte => {
                if byte == b'"' || byte == b'\\' {
                    out.push(b'\\')?;
                }
                out.push(byte)?;
            }
        }
    }
    out.extend_from_slice(b"\"]")
}

/// A line with an object: the line of an expectation, its word, how it ends, what was told of it, and the script that breaks it
/// where there is one.
pub fn json_line(alloc: Global, named: Named, told: &Told<Global>) -> Result<Vec<u8>, AllocError> {
    let Named { line, word } = named;
    let ending = ending_word(told.ending);
    let front = format!(in alloc;
        "{{\"line\":{line},\"word\":\"{word}\",\"ending\":\"{ending}\",\"told\":"
    )?;
    let mut out = Vec::from_slice(alloc, front.as_bytes())?;
    put_lines(&mut out, told.verdict.as_bytes())?;
    if let Some(script) = &told.script {
        out.extend_from_slice(b",\"script\":")?;
        put_lines(&mut out, script.as_slice())?;
    }
    out.extend_from_slice(b"}\n")?;
    Ok(out)
}
