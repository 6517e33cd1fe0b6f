//! The bytes of a reader, and bytes to a writer.

ghost use Rattle.std.specs.Prelude.{◌≡◌, true, false, Err, IfOk, IfErr, OnOk};
ghost use Rattle.std.specs.Io.KnownBytes.{Appends};
ghost use Rattle.smp_mask.specs.declared.error.Side.TheVariants.{Read as ReadSide};
ghost use Rattle.smp_script.specs.Watched.{inner_of, failed_of, flushed_of};
ghost use Rattle.smp_script.specs.Streams.{Gave, GaveUpTo, TookFront, IsReadError, IsWriteError};
ghost use Rattle.smp_script.specs.Transforms.{WritesMade};

use crate::script::MAX_BYTES;
use crate::watched::Watched;
use smp_mask::{Side, SmpError};
use std::alloc::Allocator;
use std::io::{Read, Write};

/// What the reader gives, up to one byte more than `most`. An interrupted read is a failure.
pub fn read_up_to<A: Allocator, R: Read>(
    alloc: A,
    most: usize,
    reader: &mut Watched<R>,
) -> Result<Vec<u8, A>, SmpError>
    requires { failed_of reader.old ≡ false }
    ensures seen { failed_of reader.new ≡ true → result ≡ Err (SmpError.StreamFailed ReadSide) }
    ensures ok { IfOk result (λ text. GaveUpTo most (R.remaining (inner_of reader.old)) (R.remaining (inner_of reader.new)) text.items) }
    ensures err { IfErr result (IsReadError (failed_of reader.new)) }
{
    let mut text = Vec::new(alloc);
    let mut piece = [0u8; 4096];
    'pieces: while text.len() <= most {
        let room = (most - text.len()).min(piece.len() - 1) + 1;
        match reader.read(&mut piece[..room]) {
            Ok(0) => return Ok(text),
            Ok(n) => {
                let Ok(()) = text.extend_from_slice(&piece[..n]) else {
                    return Err(SmpError::NoMemory);
                };
            }
            Err(_) => return Err(SmpError::StreamFailed(Side::Read)),
        }
    }
    Ok(text)
}

/// What the reader gives, up to one byte more than a script may have.
pub fn read_text<A: Allocator, R: Read>(
    alloc: A,
    reader: &mut Watched<R>,
) -> Result<Vec<u8, A>, SmpError>
    requires { failed_of reader.old ≡ false }
    ensures seen { failed_of reader.new ≡ true → result ≡ Err (SmpError.StreamFailed ReadSide) }
    ensures ok { IfOk result (λ text. Gave (R.remaining (inner_of reader.old)) (R.remaining (inner_of reader.new)) text.items) }
    ensures err { IfErr result (IsReadError (failed_of reader.new)) }
{
    read_up_to(alloc, MAX_BYTES, reader)
}

/// Writes all of a text, and flushes it. An interrupted write, and one that takes nothing, is a failure, and leaves what
/// was written until then.
pub fn write_text<W: Write>(writer: &mut Watched<W>, text: &[u8]) -> Result<(), SmpError>
    ensures ok { OnOk result (Appends (W.contents (inner_of writer.old)) (W.contents (inner_of writer.new)) text.now) }
    ensures kept { OnOk result (failed_of writer.new ≡ failed_of writer.old) }
    ensures flushed { OnOk result (flushed_of writer.new ≡ true) }
    ensures err { IfErr result (IsWriteError (failed_of writer.new)) }
    ensures front { IfErr result (λ e. TookFront (W.contents (inner_of writer.old)) (W.contents (inner_of writer.new)) text.now) }
{
    let mut at = 0;
    'pieces: while at < text.len() {
        match writer.write(&text[at..]) {
            Ok(n) if n > 0 => at += n,
            _ => return Err(SmpError::StreamFailed(Side::Write)),
        }
    }
    match writer.flush() {
        Ok(()) => Ok(()),
        Err(_) => Err(SmpError::StreamFailed(Side::Write)),
    }
}

/// Writes what was made of a text and flushes it, and passes on how it ends. A refusal is passed on too, and nothing is written.
pub fn write_made<A: Allocator, W: Write, E: Copy>(
    writer: &mut Watched<W>,
    made: Result<(Vec<u8, A>, E), SmpError>,
) -> Result<E, SmpError>
    ensures writes { WritesMade (W.contents (inner_of writer.old)) (W.contents (inner_of writer.new)) (writer.new ≡ writer.old)
        (failed_of writer.new) made result }
    ensures kept { OnOk result (failed_of writer.new ≡ failed_of writer.old) }
    ensures flushed { OnOk result (flushed_of writer.new ≡ true) }
{
    let (out, ending) = made?;
    write_text(writer, out.as_slice())?;
    Ok(ending)
}
