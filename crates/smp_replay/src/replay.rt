//! A script from a reader, and its output to a writer.

ghost use Rattle.std.specs.Prelude.{◌≡◌, true, false, Err, OnOk};
ghost use Rattle.smp_mask.specs.declared.error.Side.TheVariants.{Read as ReadSide};
ghost use Rattle.smp_script.specs.Transforms.{HasFault, Makes};
ghost use Rattle.smp_script.specs.Watched.{inner_of, failed_of, flushed_of};
ghost use Rattle.smp_script.specs.declared.mode.Mode.TheVariants.{Replay};
ghost use Rattle.smp_replay.specs.Replays.{IsReplayed, Replays, outcome_of};

use crate::playback::{Printed, print_script};
use smp_mask::SmpError;
use smp_script::stream::{read_text, write_made};
use smp_script::{Outcome, Watched};
use std::alloc::Allocator;
use std::io::{Read, Write};

fn ending(stopped: bool) -> Outcome
    ensures { result ≡ outcome_of stopped }
{
    if stopped {
        Outcome::Stopped
    } else {
        Outcome::Done
    }
}

// What a replay of the script in this text prints, and how it ends.
fn replayed<A: Allocator + Copy>(alloc: A, text: &[u8]) -> Result<(Vec<u8, A>, Outcome), SmpError>
    ensures { Makes IsReplayed (HasFault Replay) text.now result }
{
    let Printed { text: out, stopped } = print_script(alloc, text)?;
    Ok((out.into_bytes(), ending(stopped)))
}

/// Reads a script until a read answers 0 bytes or more are there than a script may have, runs it on a table with
/// no calls, and writes what it prints.
///
/// Refusals, in this order: `StreamFailed(Read)` where the reader failed, `BadScript` with the first fault where
/// the script is not lawful, `NoMemory` where a growth was refused (at once, where that is while the script is read
/// and checked), `StreamFailed(Write)` where the writer failed. Only at the last has anything been written: a front of
/// what the script prints.
pub fn replay_script<A: Allocator + Copy, R: Read, W: Write>(
    alloc: A,
    reader: &mut Watched<R>,
    writer: &mut Watched<W>,
) -> Result<Outcome, SmpError>
    requires reads { failed_of reader.old ≡ false }
    requires writes { failed_of writer.old ≡ false }
    // A reader that fails is told of before all else.
    ensures order { failed_of reader.new ≡ true → result ≡ Err (SmpError.StreamFailed ReadSide) }
    ensures replays { Replays (R.remaining (inner_of reader.old)) (R.remaining (inner_of reader.new))
        (W.contents (inner_of writer.old)) (W.contents (inner_of writer.new)) (writer.new ≡ writer.old)
        (failed_of reader.new) (failed_of writer.new) result }
    ensures kept { OnOk result (failed_of writer.new ≡ false) }
    ensures flushed { OnOk result (flushed_of writer.new ≡ true) }
{
    let text = read_text(alloc, reader)?;
    write_made(writer, replayed(alloc, text.as_slice()))
}
