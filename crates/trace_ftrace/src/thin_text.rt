//! A text of the tracer that comes in pieces, of which the lines are kept that a verdict shows.

ghost use Rattle.std.specs.Prelude.{◌≡◌, ◌∷◌, ◌++◌, List, ℕ, [], Some, IfSome, OnOk};
ghost use Rattle.smp_script.specs.Lines.{lines_of};
ghost use Rattle.trace_ftrace.specs.Text.{line_from};
ghost use Rattle.trace_ftrace.specs.ThinText.{is_shown, lines_shown, HasKept, HaveSame, IsNumbered, ShowSame};

use crate::told::Told;
use crate::verdict_text::{broken_record, line_text, queue_of};
use std::alloc::{AllocError, Allocator};
use trace_judge::Verdict;

/// The lines that are shown of an event that is refused: its own, and the one that has queued the record last.
#[derive(Clone, Copy, Debug, PartialEq, Eq)]
pub struct ShownLines {
    pub refused: u32,
    pub queued: Option<u32>,
}

impl ShownLines {
    /// Whether the line of this number is one of them.
    fn has(self, number: u64) -> bool
        ensures { result ≡ is_shown self number }
    {
        if number == self.refused as u64 {
            return true;
        }
        match self.queued {
            Some(line) => number == line as u64,
            None => false,
        }
    }
}

/// The lines that a verdict on these events shows; none where it is that they are lawful.
pub fn lines_shown<A: Allocator>(told: &[Told], verdict: &Verdict<A>) -> Option<ShownLines>
    ensures { result ≡ lines_shown told.now verdict.now }
{
    match verdict {
        Verdict::Lawful(..) => None,
        Verdict::Broken(line, _, event, why) => Some(ShownLines {
            refused: *line,
            queued: queue_of(told, broken_record(*event, *why), *line),
        }),
    }
}

/// A text in which each other line is empty.
#[derive(Drop)]
pub struct ThinText<A: Allocator> {
    lines: ShownLines,
    text: Vec<u8, A>,
    /// The number of the line that the next byte is in.
    number: u64,
}

impl<A: Allocator + Copy> ThinText<A> {
    /// Before the first piece of a text, of which these lines are kept.
    pub fn new(alloc: A, lines: ShownLines) -> ThinText<A>
        ensures numbered { IsNumbered result }
        ensures kept { HasKept lines [] result }
    {
        ThinText {
            lines,
            text: Vec::new(alloc),
            number: 1,
        }
    }

    /// Takes the next byte, which is kept where it ends a line or its line is shown.
    fn add_byte(&mut self, byte: u8) -> Result<(), AllocError>
        requires { IsNumbered self.old }
        ensures numbered { OnOk result (IsNumbered self.new) }
        ensures lines { self.new.lines ≡ self.old.lines }
        ensures same { OnOk result (HaveSame self.old.lines (self.old.text.items ++ (byte ∷ [])) self.new.text.items) }
    {
        if byte == b'\n' {
            self.text.push(byte)?;
            self.number += 1;
        } else if self.lines.has(self.number) {
            self.text.push(byte)?;
        }
        Ok(())
    }

    /// Takes the next piece.
    #[tactic(auto, using(crate::proofs::ThinLines::next_byte, crate::proofs::ThinLines::whole_piece))]
    pub fn add(&mut self, piece: &[u8]) -> Result<(), AllocError>
        requires { IsNumbered self.old }
        ensures numbered { OnOk result (IsNumbered self.new) }
        ensures kept { (lines : ShownLines) (text : List ℕ) → HasKept lines text self.old
            → OnOk result (HasKept lines (text ++ piece.now) self.new) }
    {
        let mut rest = piece;
        while let [first, after @ ..] = rest {
            self.add_byte(*first)?;
            rest = after;
        }
        Ok(())
    }

    /// What is kept, where the last piece was added. None where a line is not there: a line that is shown is never empty.
    #[tactic(auto, using(crate::proofs::ThinLines::shows_same))]
    pub fn text(&self) -> Option<&[u8]>
        ensures same { (lines : ShownLines) (text : List ℕ) → HasKept lines text self.now → IfSome result (λ t. ShowSame (Some lines) text t.now) }
        ensures refused { IfSome result (λ t. line_from 1 self.now.lines.refused (lines_of t.now) ≡ [] → ⊥) }
        ensures queued { IfSome result (λ t. IfSome self.now.lines.queued (λ line. line_from 1 line (lines_of t.now) ≡ [] → ⊥)) }
    {
        let text = self.text.as_slice();
        if line_text(text, self.lines.refused).is_empty() {
            return None;
        }
        match self.lines.queued {
            Some(line) if line_text(text, line).is_empty() => None,
            _ => Some(text),
        }
    }
}
