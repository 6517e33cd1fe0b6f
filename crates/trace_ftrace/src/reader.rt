//! The verdict on what a reader gives of a kernel's tracer, without holding its text.

ghost use Rattle.std.specs.Prelude.{List, [], ◌++◌, ℕ, Ok, IfSome};
ghost use Rattle.std.specs.Io.KnownBytes.{Consumes, IsAtEnd};
ghost use Rattle.trace_ftrace.specs.Asked.{PrintsAsked};
ghost use Rattle.trace_ftrace.specs.Readers.{GivesLines};
ghost use Rattle.trace_ftrace.specs.Reading.{reading_of, Reads};
ghost use Rattle.trace_ftrace.specs.ThinText.{HasKept};

use crate::pieces::Pieces;
use crate::text::{Asked, print_verdict, verdict_asked};
use crate::thin_text::{ShownLines, ThinText, lines_shown};
use crate::verdict::{MOST_KERNEL_BYTES, Reading};
use std::alloc::Allocator;
use std::io::Read;
use trace_judge::Ruling;

/// How many bytes are read at once.
const PIECE: usize = 16384;

/// What takes the pieces of a text, one after the other.
trait TakesPieces {
    /// What it is after these bytes, where it was the first before them.
    ghost has_taken: { Self → List ℕ → Self → Type 0 };

    /// Takes the next piece, unless memory runs out.
    fn take(&mut self, piece: &[u8]) -> Option<()>
        requires { (first : Self) × (text : List ℕ) × has_taken first text self.old }
        ensures { (first : Self) (text : List ℕ) → has_taken first text self.old → IfSome result (λ _. has_taken first (text ++ piece.now) self.new) };
}

impl<A: Allocator + Copy> TakesPieces for Pieces<A> {
    ghost use Rattle.std.specs.Prelude.{ℕ, []};
    ghost use Rattle.trace_ftrace.specs.Pieces.{AreWithin, HaveRead};
    ghost use Rattle.trace_ftrace.specs.PiecesView.{pieces_value};

    ghost has_taken = { λ first text now. AreWithin (pieces_value now)
        × ((skip : ℕ) → HaveRead skip [] (pieces_value first) → HaveRead skip text (pieces_value now)) };

    fn take(&mut self, piece: &[u8]) -> Option<()> {
        self.add(piece);
        Some(())
    }
}

impl<A: Allocator + Copy> TakesPieces for ThinText<A> {
    ghost use Rattle.std.specs.Prelude.{[]};
    ghost use Rattle.trace_ftrace.specs.ThinText.{HasKept, IsNumbered};
    ghost use Rattle.trace_ftrace.specs.declared.thin_text.ShownLines.{ShownLines};

    ghost has_taken = { λ first text now. IsNumbered now × ((lines : ShownLines) → HasKept lines [] first → HasKept lines text now) };

    fn take(&mut self, piece: &[u8]) -> Option<()> {
        match self.add(piece) {
            Ok(()) => Some(()),
            Err(_) => None,
        }
    }
}

/// Gives all that a reader gives to what takes pieces. None where the reader fails or gives too much, or memory runs out.
fn give_all<R: Read, T: TakesPieces>(reader: &mut R, taker: &mut T) -> Option<()>
    requires { T.has_taken taker.old [] taker.old }
    ensures { IfSome result (λ _. (text : List ℕ) × Consumes (R.remaining reader.old) (R.remaining reader.new) text
        × IsAtEnd (R.remaining reader.new) × T.has_taken taker.old text taker.new) }
{
    let mut piece = [0u8; PIECE];
    let mut left = MOST_KERNEL_BYTES + 1;
    'pieces: while left > 0 {
        let room = (left as usize).min(PIECE);
        match reader.read(&mut piece[..room]) {
            Ok(0) => return Some(()),
            Ok(n) => {
                taker.take(&piece[..n])?;
                left -= n as u32;
            }
            Err(_) => return None,
        }
    }
    None
}

/// What the lines tell that a reader gives; none where it fails, or they are refused.
fn read_pieces<A: Allocator + Copy, R: Read>(
    alloc: A,
    skip: u64,
    reader: &mut R,
) -> Option<Reading<A>>
    ensures { IfSome result (λ r. (text : List ℕ) × Consumes (R.remaining reader.old) (R.remaining reader.new) text
        × IsAtEnd (R.remaining reader.new) × Reads (Ok r) (reading_of skip text)) }
{
    let mut pieces = Pieces::new(alloc, skip);
    give_all(reader, &mut pieces)?;
    match pieces.finish() {
        Ok(reading) => Some(reading),
        Err(_) => None,
    }
}

/// The lines that are shown of what a reader gives, with each other line empty; none where it fails.
fn read_thin<A: Allocator + Copy, R: Read>(
    alloc: A,
    lines: ShownLines,
    reader: &mut R,
) -> Option<ThinText<A>>
    ensures { IfSome result (λ t. (text : List ℕ) × Consumes (R.remaining reader.old) (R.remaining reader.new) text
        × IsAtEnd (R.remaining reader.new) × HasKept lines text t) }
{
    let mut thin = ThinText::new(alloc, lines);
    give_all(reader, &mut thin)?;
    Some(thin)
}

/// What is printed of the text that a reader gives, and whether it is lawful, without holding it. The second reader gives the text
/// again, for the lines that are shown of one that is not lawful. None where it is refused, can't be read, or has no such line.
pub fn judge_twice<A: Allocator + Copy, R: Read, S: Read>(
    alloc: A,
    asked: Asked,
    reader: &mut R,
    again: &mut S,
) -> Option<(Vec<u8, A>, Ruling)>
    ensures { IfSome result (λ r. (text : List ℕ) × Consumes (R.remaining reader.old) (R.remaining reader.new) text
        × IsAtEnd (R.remaining reader.new) × ((shown : List ℕ) × GivesLines text (S.remaining again.old) (S.remaining again.new) shown
        × PrintsAsked (Ok r) asked shown (reading_of asked.skip text))) }
{
    let reading = read_pieces(alloc, asked.skip, reader)?;
    let verdict = verdict_asked(alloc, asked.order, &reading).ok()?;
    match lines_shown(reading.telling.told.as_slice(), &verdict) {
        None => print_verdict(alloc, asked, &reading, &verdict, b"").ok(),
        Some(lines) => {
            let thin = read_thin(alloc, lines, again)?;
            let text = thin.text()?;
            print_verdict(alloc, asked, &reading, &verdict, text).ok()
        }
    }
}
