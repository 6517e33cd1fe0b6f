//! The words of a line, and the parts of a word.

ghost use Rattle.std.specs.Prelude.{◌≡◌, ◌++◌, [], ◌∷◌, map, IfOk, MatchOption};
ghost use Rattle.smp_script.specs.Lines.{fields_of, parts_of};
ghost use Rattle.trace_ftrace.specs.Words.{front_of, two_of, words_of};

use smp_script::line::split_part;
use std::alloc::{AllocError, Allocator};

/// Adds a word that is not empty.
fn push_word<'a, A: Allocator>(
    words: &mut Vec<&'a [u8], A>,
    word: &'a [u8],
) -> Result<(), AllocError>
    ensures { IfOk result (λ u. map (λ w. w.now) words.new.items ≡ map (λ w. w.now) words.old.items ++ words_of (word.now ∷ [])) }
{
    if !word.is_empty() {
        words.push(word)?;
    }
    Ok(())
}

/// The words of a line, between its spaces.
pub(crate) fn words<A: Allocator>(alloc: A, line: &[u8]) -> Result<Vec<&[u8], A>, AllocError>
    ensures { IfOk result (λ v. map (λ w. w.now) v.items ≡ words_of (fields_of line.now)) }
{
    let mut found = Vec::new(alloc);
    let mut rest = line;
    while let Some((part, after)) = split_part(rest, b' ') {
        push_word(&mut found, part)?;
        rest = after;
    }
    push_word(&mut found, rest)?;
    Ok(found)
}

/// What is in front of a text's last byte, where that is this mark.
#[tactic(auto, unfolding(crate::specs::Words::front_of))]
pub(crate) fn front(text: &[u8], mark: u8) -> Option<&[u8]>
    ensures { MatchOption result (front_of mark text.now ≡ None) (λ f. front_of mark text.now ≡ Some f.now) }
{
    let size = text.len();
    if size > 0 && text[size - 1] == mark {
        Some(&text[..size - 1])
    } else {
        None
    }
}

/// The first two parts between these marks, where there are two.
pub(crate) fn two_parts(text: &[u8], mark: u8) -> Option<(&[u8], &[u8])>
    ensures { MatchOption result (two_of (parts_of mark text.now) ≡ None) (λ p. two_of (parts_of mark text.now) ≡ Some (p.0.now, p.1.now)) }
{
    let Some((first, behind)) = split_part(text, mark) else {
        return None;
    };
    match split_part(behind, mark) {
        Some((second, _)) => Some((first, second)),
        None => Some((first, behind)),
    }
}
