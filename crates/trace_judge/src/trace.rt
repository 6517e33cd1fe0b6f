//! A trace from a reader, and its verdict to a writer.

ghost use Rattle.std.specs.Prelude.{◌≡◌, true, false, Err, OnOk};
ghost use Rattle.smp_mask.specs.declared.error.Side.TheVariants.{Read as ReadSide};
ghost use Rattle.smp_script.specs.Transforms.{Makes};
ghost use Rattle.smp_script.specs.Watched.{inner_of, failed_of, flushed_of};
ghost use Rattle.trace_judge.specs.Traces.{AtFault, IsRuled, Judged, ruling_of};

use crate::body::MOST_TRACE_BYTES;
use crate::verdict::{Verdict, judge, write_verdict};
use smp_mask::SmpError;
use smp_script::Watched;
use smp_script::stream::{read_up_to, write_made};
use std::alloc::Allocator;
use std::io::{Read, Write};

/// Whether a trace is lawful.
#[derive(Clone, Copy, Debug, PartialEq, Eq)]
pub enum Ruling {
    Lawful,
    Broken,
}

/// Whether a verdict is that the trace is lawful.
fn ruling_of<A: Allocator>(verdict: &Verdict<A>) -> Ruling
    ensures { result ≡ ruling_of verdict.now }
{
    match verdict {
        Verdict::Lawful(..) => Ruling::Lawful,
        Verdict::Broken(..) => Ruling::Broken,
    }
}

// What is printed of the verdict on the trace in this text, and whether it is lawful.
fn ruled<A: Allocator + Copy>(alloc: A, text: &[u8]) -> Result<(Vec<u8, A>, Ruling), SmpError>
    ensures { Makes IsRuled AtFault text.now result }
{
    let verdict = judge(alloc, text)?;
    let mut out = String::new(alloc);
    let Ok(()) = write_verdict(&mut out, &verdict) else {
        return Err(SmpError::NoMemory);
    };
    Ok((out.into_bytes(), ruling_of(&verdict)))
}

/// Reads a trace until a read answers 0 bytes or more are there than a trace may have, judges it, and writes its verdict.
///
/// Refusals, in this order: `StreamFailed(Read)` where the reader failed, `BadScript` with the first fault, `NoMemory` where
/// a growth was refused, `StreamFailed(Write)` where the writer failed. Only at the last has anything been written:
/// a front of the verdict.
pub fn judge_trace<A: Allocator + Copy, R: Read, W: Write>(
    alloc: A,
    reader: &mut Watched<R>,
    writer: &mut Watched<W>,
) -> Result<Ruling, SmpError>
    requires reads { failed_of reader.old ≡ false }
    requires writes { failed_of writer.old ≡ false }
    ensures order { failed_of reader.new ≡ true → result ≡ Err (SmpError.StreamFailed ReadSide) }
    ensures judged { Judged (R.remaining (inner_of reader.old)) (R.remaining (inner_of reader.new))
        (W.contents (inner_of writer.old)) (W.contents (inner_of writer.new)) (writer.new ≡ writer.old)
        (failed_of reader.new) (failed_of writer.new) result }
    ensures kept { OnOk result (failed_of writer.new ≡ false) }
    ensures flushed { OnOk result (flushed_of writer.new ≡ true) }
{
    let text = read_up_to(alloc, MOST_TRACE_BYTES as usize, reader)?;
    write_made(writer, ruled(alloc, text.as_slice()))
}
