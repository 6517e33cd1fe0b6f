//! The lines of a text, and the fields of a line.

ghost use Rattle.std.specs.Prelude.{◌≡◌, ◌<◌, ◌≤◌, [], ◌∷◌, MatchOption, IfSome, IfOk, map, length};
ghost use Rattle.std.specs.Str.{bytes_eq};
ghost use Rattle.smp_script.specs.Lines.{fields_of, lines_of, parts_of};
ghost use Rattle.smp_script.specs.LineOf.{line_of};

use std::alloc::{AllocError, Allocator};

/// A line at the front of a text, and what follows it.
#[derive(Clone, Copy)]
pub struct Line<'a> {
    pub text: &'a [u8],
    pub is_ended: bool,
    pub rest: &'a [u8],
}

/// The line at the front, or nothing at the end of the text.
pub fn next_line(text: &[u8]) -> Option<Line<'_>>
    ensures lines { MatchOption result (lines_of text.now ≡ []) (λ l. lines_of text.now ≡ line_of l ∷ lines_of l.rest.now) }
    ensures within { IfSome result (λ l. length l.text.now ≤ length text.now) }
    ensures shorter { IfSome result (λ l. length l.rest.now < length text.now) }
{
    for (i, byte) in text.iter().enumerate() {
        if *byte == b'\n' {
            return Some(Line {
                text: &text[..i],
                is_ended: true,
                rest: &text[i + 1..],
            });
        }
    }
    if text.is_empty() {
        return None;
    }
    Some(Line {
        text,
        is_ended: false,
        rest: &text[text.len()..],
    })
}

/// The text up to the first of these bytes and what follows it, or nothing where there is none.
pub fn split_part(text: &[u8], mark: u8) -> Option<(&[u8], &[u8])>
    ensures parts { MatchOption result (parts_of mark text.now ≡ text.now ∷ []) (λ p. parts_of mark text.now ≡ p.0.now ∷ parts_of mark p.1.now) }
    ensures shorter { IfSome result (λ p. length p.1.now < length text.now) }
{
    for (i, byte) in text.iter().enumerate() {
        if *byte == mark {
            return Some((&text[..i], &text[i + 1..]));
        }
    }
    None
}

/// The parts of a text, each between two of these bytes or an end.
pub fn parts<A: Allocator>(alloc: A, text: &[u8], mark: u8) -> Result<Vec<&[u8], A>, AllocError>
    ensures { IfOk result (λ v. map (λ s. s.now) v.items ≡ parts_of mark text.now) }
{
    let mut found = Vec::new(alloc);
    let mut rest = text;
    while let Some((part, after)) = split_part(rest, mark) {
        found.push(part)?;
        rest = after;
    }
    found.push(rest)?;
    Ok(found)
}

/// The fields of a line, between its spaces.
pub fn fields<A: Allocator>(alloc: A, line: &[u8]) -> Result<Vec<&[u8], A>, AllocError>
    ensures { IfOk result (λ v. map (λ s. s.now) v.items ≡ fields_of line.now) }
{
    parts(alloc, line, b' ')
}

/// Whether a field is that word.
pub fn is_word(field: &[u8], word: &[u8]) -> bool
    ensures { result ≡ bytes_eq field.now word.now }
{
    field == word
}
