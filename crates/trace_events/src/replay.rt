//! What is seen of a script's replay, and how it ended.

ghost use Rattle.std.specs.Prelude.{◌≡◌, IfOk, IfErr};
ghost use Rattle.smp_words.specs.Limits.{AreLimits};
ghost use Rattle.smp_script.specs.MeaningOf.{meaning_of};
ghost use Rattle.trace_events.specs.Replays.{ending_of, has_refused, rows_of_script};

use crate::moments::moments;
use crate::rows::{Row, is_refused, rows_of};
use smp_mask::SmpError;
use smp_replay::new_core;
use smp_script::Outcome;
use smp_script::script::Script;
use std::alloc::Allocator;

/// What is seen of a script's replay, on a table with no calls and no stops.
pub fn rows_of_script<A: Allocator + Copy>(
    alloc: A,
    script: &Script<A>,
) -> Result<Vec<Row, A>, SmpError>
    requires { AreLimits script.now.nr script.now.online }
    ensures rows { IfOk result (λ rows. rows.items ≡ rows_of_script (meaning_of script.now)) }
    ensures err { IfErr result (λ e. e ≡ SmpError.NoMemory) }
{
    let mut core = new_core(alloc, script.nr, script.online, &script.labels)?;
    let first = if script.labels.is_some() { 4 } else { 3 };
    let Ok(moments) = moments(alloc, first, script.directives.as_slice()) else {
        return Err(SmpError::NoMemory);
    };
    let Ok(rows) = rows_of(alloc, &mut core, moments.as_slice()) else {
        return Err(SmpError::NoMemory);
    };
    Ok(rows)
}

// Whether an event was refused.
fn has_refused(rows: &[Row]) -> bool
    ensures { result ≡ has_refused rows.now }
{
    rows.iter().any(|row| is_refused(row.what))
}

/// How a replay ended: whether an event was refused.
pub fn ending(rows: &[Row]) -> Outcome
    ensures { result ≡ ending_of rows.now }
{
    if has_refused(rows) {
        Outcome::Stopped
    } else {
        Outcome::Done
    }
}
