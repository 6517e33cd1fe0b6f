//! The picture of a script's replay.

ghost use Rattle.std.specs.Prelude.{◌≡◌, IfOk};
ghost use Rattle.smp_script.specs.Script.{first_line};
ghost use Rattle.view.specs.Choice.{is_named, lanes_of};
ghost use Rattle.trace_events.specs.Moments.{moments_of};

use crate::choice::Choice;
use crate::lanes::{chosen_columns, is_column};
use crate::picture::{Replayed, picture};
use crate::show::Replay;
use smp_script::line::parts;
use smp_script::script::Script;
use std::alloc::{AllocError, Allocator};
use trace_events::moments::{Moment, moments};
use trace_events::rows::{Row, is_refused};

// Whether a refused event names a CPU that is chosen, and is none of these.
fn is_named(choice: &Choice, cpus: &[u32], row: &Row) -> bool
    ensures { result ≡ is_named choice.now cpus.now row.now }
{
    is_refused(row.what) && choice.has_cpu(row.cpu) && !is_column(cpus, row.cpu)
}

/// The CPUs that have a lane, of those that are chosen: those online, and one that was named in a refused event.
pub fn lane_cpus<A: Allocator + Copy>(
    alloc: A,
    choice: &Choice,
    script: &Script<A>,
    rows: &[Row],
) -> Result<Vec<u32, A>, AllocError>
    ensures { IfOk result (λ cpus. cpus.items ≡ lanes_of choice.now script.now.online rows.now) }
{
    let mut cpus = chosen_columns(alloc, choice, script.online)?;
    let Some(row) = rows.last() else {
        return Ok(cpus);
    };
    if is_named(choice, cpus.as_slice(), row) {
        cpus.push(row.cpu)?;
    }
    Ok(cpus)
}

/// What the lines of a script ask for.
pub fn moments_of<A: Allocator + Copy>(
    alloc: A,
    script: &Script<A>,
) -> Result<Vec<Moment, A>, AllocError>
    ensures { IfOk result (λ found. found.items ≡ moments_of (first_line script.now.labels) script.now.directives.items) }
{
    let first = if script.labels.is_some() { 4 } else { 3 };
    moments(alloc, first, script.directives.as_slice())
}

/// The picture of a script's replay.
pub(crate) fn draw<A: Allocator + Copy>(
    alloc: A,
    choice: &Choice,
    replay: &Replay<'_, A>,
) -> Result<String<A>, AllocError> {
    let rows = replay.rows.as_slice();
    let lines = parts(alloc, replay.text, b'\n')?;
    let cpus = lane_cpus(alloc, choice, &replay.script, rows)?;
    let moments = moments_of(alloc, &replay.script)?;
    let replayed = Replayed {
        lines: lines.as_slice(),
        moments: moments.as_slice(),
        rows,
    };
    picture(alloc, choice, cpus.as_slice(), &replayed)
}
