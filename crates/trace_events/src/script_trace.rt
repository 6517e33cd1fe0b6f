//! A script from a reader, and the trace of its replay to a writer.

ghost use Rattle.std.specs.Prelude.{◌≡◌, ◌++◌, true, false, Err, IfOk, OnOk};
ghost use Rattle.smp_mask.specs.declared.error.Side.TheVariants.{Read as ReadSide};
ghost use Rattle.smp_script.specs.Transforms.{HasFault, Makes};
ghost use Rattle.smp_script.specs.Watched.{inner_of, failed_of, flushed_of};
ghost use Rattle.trace_events.specs.ScriptTrace.{IsTraced, Traces, step_in, steps_of};

use crate::replay::{ending, rows_of_script};
use crate::rows::{Row, What};
use crate::trace::trace;
use smp_mask::SmpError;
use smp_script::script::read_script;
use smp_script::stream::{read_text, write_made};
use smp_script::{Mode, Outcome, Watched};
use smp_words::Seen;
use std::alloc::{AllocError, Allocator};
use std::io::{Read, Write};

/// One step more, where what was seen is one.
fn add_step<A: Allocator>(steps: &mut Vec<Seen, A>, what: What) -> Result<(), AllocError>
    ensures { OnOk result (steps.new.items ≡ steps.old.items ++ step_in what) }
{
    match what {
        What::Stepped(seen) => steps.push(seen)?,
        What::Began | What::Refused(_) | What::Shown => {}
    }
    Ok(())
}

/// The steps of a replay.
fn steps_of<A: Allocator>(alloc: A, rows: &[Row]) -> Result<Vec<Seen, A>, AllocError>
    ensures { IfOk result (λ steps. steps.items ≡ steps_of rows.now) }
{
    let mut steps = Vec::new(alloc);
    for row in rows {
        add_step(&mut steps, row.what)?;
    }
    Ok(steps)
}

// The trace of the replay of the script in this text, and how the replay ended.
fn traced<A: Allocator + Copy>(alloc: A, text: &[u8]) -> Result<(Vec<u8, A>, Outcome), SmpError>
    ensures { Makes IsTraced (HasFault Mode.Replay) text.now result }
{
    let script = read_script(alloc, Mode::Replay, text)?;
    let rows = rows_of_script(alloc, &script)?;
    let Ok(steps) = steps_of(alloc, rows.as_slice()) else {
        return Err(SmpError::NoMemory);
    };
    let has_labels = script.labels.is_some();
    let Ok(told) = trace(alloc, has_labels, text, steps.as_slice()) else {
        return Err(SmpError::NoMemory);
    };
    Ok((told, ending(rows.as_slice())))
}

/// Reads a script, and writes the events of its replay as a trace: up to a refused event, where one is.
///
/// Refusals, in this order: `StreamFailed(Read)` where the reader failed, `BadScript` with the first fault where
/// the script is not lawful, `NoMemory` where a growth was refused, `StreamFailed(Write)` where the writer failed. Only at
/// the last has anything been written: a front of the trace.
pub fn show_events<A: Allocator + Copy, R: Read, W: Write>(
    alloc: A,
    reader: &mut Watched<R>,
    writer: &mut Watched<W>,
) -> Result<Outcome, SmpError>
    requires reads { failed_of reader.old ≡ false }
    requires writes { failed_of writer.old ≡ false }
    ensures order { failed_of reader.new ≡ true → result ≡ Err (SmpError.StreamFailed ReadSide) }
    ensures traces { Traces (R.remaining (inner_of reader.old)) (R.remaining (inner_of reader.new))
        (W.contents (inner_of writer.old)) (W.contents (inner_of writer.new)) (writer.new ≡ writer.old)
        (failed_of reader.new) (failed_of writer.new) result }
    ensures kept { OnOk result (failed_of writer.new ≡ false) }
    ensures flushed { OnOk result (flushed_of writer.new ≡ true) }
{
    let text = read_text(alloc, reader)?;
    write_made(writer, traced(alloc, text.as_slice()))
}
