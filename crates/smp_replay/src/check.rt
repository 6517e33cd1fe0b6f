//! Whether the steps of another implementation are those that the machine makes for a script.

ghost use Rattle.std.specs.Prelude.{◌≡◌, string_bytes};
ghost use Rattle.smp_replay.specs.Checks.{Checks};

use crate::difference::{Difference, first_difference};
use crate::playback::print_script;
use smp_mask::SmpError;
use std::alloc::Allocator;

/// What the machine prints for a script, and the first line in which a trace differs from it; none where it is the same.
#[derive(Drop)]
pub struct Checked<A: Allocator> {
    pub printed: String<A>,
    pub difference: Option<Difference>,
}

/// Holds a trace of steps, as `replay_script` prints them, against what the machine prints for this script.
///
/// Refusals: `BadScript` with the first fault where the script is not lawful, `NoMemory` where a growth was refused.
pub fn check_steps<A: Allocator + Copy>(
    alloc: A,
    script: &[u8],
    trace: &[u8],
) -> Result<Checked<A>, SmpError>
    ensures { Checks script.now trace.now result }
{
    let output = print_script(alloc, script)?;
    let difference = first_difference(output.text.as_bytes(), trace);
    Ok(Checked {
        printed: output.text,
        difference,
    })
}
