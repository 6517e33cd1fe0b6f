//! A text of the tracer that comes in pieces: what its lines show is kept, and the text is not.

ghost use Rattle.std.specs.Prelude.{◌≡◌, ◌≤◌, ◌+◌, ◌++◌, ℕ, false, List, [], length, OnOk, IfErr};
ghost use Rattle.trace_ftrace.specs.Pieces.{AreWithin, Fails, GoesOn, HasSame, HaveRead};
ghost use Rattle.trace_ftrace.specs.PiecesView.{pieces_value};
ghost use Rattle.trace_ftrace.specs.Reading.{reading_of, Reads};

use crate::kept::Kept;
use crate::marks::{keep_ended, keep_lines, no_lines};
use crate::verdict::{MOST_KERNEL_BYTES, Reading, tell_kept};
use crate::wrong::Refusal;
use std::alloc::Allocator;

/// What is kept of the pieces of a text up to one.
#[derive(Drop)]
pub struct Pieces<A: Allocator> {
    alloc: A,
    skip: u64,
    /// What is kept of the lines that are ended.
    kept: Kept<A>,
    /// The number of the next line.
    number: u32,
    /// What there is of it.
    part: Vec<u8, A>,
    /// How many bytes there were, where they are not too many.
    bytes: u32,
    is_long: bool,
    /// Why the text is not read, where it is not. Its bytes are counted all the same.
    fault: Option<Refusal>,
}

impl<A: Allocator + Copy> Pieces<A> {
    /// Before the first piece of a text, whose first `skip` nanoseconds are left out.
    pub fn new(alloc: A, skip: u64) -> Pieces<A>
        ensures within { AreWithin (pieces_value result) }
        ensures read { HaveRead skip [] (pieces_value result) }
    {
        Pieces {
            alloc,
            skip,
            kept: no_lines(alloc),
            number: 1,
            part: Vec::new(alloc),
            bytes: 0,
            is_long: false,
            fault: None,
        }
    }

    /// Keeps the lines that are ended by this piece, and what there is of the next.
    fn keep(&mut self, piece: &[u8]) -> Result<(), Refusal>
        requires { self.old.number + length self.old.part.items + length piece.now ≤ 536870913 }
        ensures kept { OnOk result (GoesOn self.old.skip self.old.number (self.old.part.items ++ piece.now) (pieces_value self.old).kept
            self.new.number self.new.part.items (pieces_value self.new).kept) }
        ensures wrong { IfErr result (λ why. Fails why self.old.skip self.old.number (self.old.part.items ++ piece.now) (pieces_value self.old).kept) }
        ensures within { self.new.number + length self.new.part.items
            ≤ self.old.number + length self.old.part.items + length piece.now }
        ensures same { HasSame (pieces_value self.old) (pieces_value self.new) }
    {
        let Ok(()) = self.part.extend_from_slice(piece) else {
            return Err(Refusal::NoMemory);
        };
        let text = self.part.as_slice();
        let kept = keep_ended(self.alloc, &mut self.kept, self.skip, self.number, text);
        let (number, rest) = match kept {
            Ok(left) => left,
            Err(why) => return Err(why),
        };
        let mut part = Vec::new(self.alloc);
        let Ok(()) = part.extend_from_slice(rest) else {
            return Err(Refusal::NoMemory);
        };
        self.number = number;
        self.part = part;
        Ok(())
    }

    /// Takes the next piece of a text that is not too long with it.
    #[tactic(auto, using(crate::proofs::ReadPieces::kept_more, crate::proofs::ReadPieces::fails_now, crate::proofs::ReadPieces::fails_still))]
    fn add_next(&mut self, piece: &[u8])
        requires within { AreWithin (pieces_value self.old) }
        requires short { self.old.is_long ≡ false }
        requires room { self.old.bytes + length piece.now ≤ 536870912 }
        ensures within { AreWithin (pieces_value self.new) }
        ensures read { (skip : ℕ) (text : List ℕ) → HaveRead skip text (pieces_value self.old)
            → HaveRead skip (text ++ piece.now) (pieces_value self.new) }
    {
        self.bytes += piece.len() as u32;
        if self.fault.is_some() {
            return;
        }
        if let Err(why) = self.keep(piece) {
            self.fault = Some(why);
        }
    }

    /// Takes the next piece. Where it can't be read, `finish` says why.
    #[tactic(auto, using(crate::proofs::ReadPieces::is_long_now, crate::proofs::ReadPieces::is_long_still))]
    pub fn add(&mut self, piece: &[u8])
        requires { AreWithin (pieces_value self.old) }
        ensures within { AreWithin (pieces_value self.new) }
        ensures read { (skip : ℕ) (text : List ℕ) → HaveRead skip text (pieces_value self.old)
            → HaveRead skip (text ++ piece.now) (pieces_value self.new) }
    {
        if self.is_long {
            return;
        }
        if piece.len() > (MOST_KERNEL_BYTES - self.bytes) as usize {
            self.is_long = true;
            return;
        }
        self.add_next(piece);
    }

    /// What the text tells whose pieces these were.
    ///
    /// Refusals: `TooLong`; `Wrong` with the first line at fault; `NoMemory`.
    #[tactic(auto, using(crate::proofs::ReadFails::fails, crate::proofs::ReadPieces::reads_long, crate::proofs::ReadPieces::reads_rest))]
    pub fn finish(self) -> Result<Reading<A>, Refusal>
        requires { AreWithin (pieces_value self) }
        ensures { (skip : ℕ) (text : List ℕ) → HaveRead skip text (pieces_value self) → Reads result (reading_of skip text) }
    {
        let Pieces {
            alloc,
            skip,
            mut kept,
            number,
            part,
            bytes: _,
            is_long,
            fault,
        } = self;
        if is_long {
            return Err(Refusal::TooLong);
        }
        if let Some(why) = fault {
            return Err(why);
        }
        match keep_lines(alloc, &mut kept, skip, number, part.as_slice()) {
            Ok(()) => tell_kept(alloc, kept),
            Err(why) => Err(why),
        }
    }
}
