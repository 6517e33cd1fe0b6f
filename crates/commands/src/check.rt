//! Whether a trace of steps is what the machine prints for a script.

use crate::failure::{Failure, failure_of};
use crate::streams::read_text;
use smp_replay::check_steps;
use smp_replay::difference::difference_text;
use smp_script::stream::write_text;
use smp_script::{Outcome, Watched};
use std::io::Write;
use trace_judge::body::MOST_TRACE_BYTES;

/// Reads the trace of this name and holds it against what the machine prints for a script: prints nothing where it is the
/// same, else the first line that differs.
pub fn check_trace<W: Write>(
    rt: &HostRuntime,
    name: &str,
    script: &[u8],
    writer: &mut Watched<W>,
) -> Result<Outcome, Failure> {
    let file = if name == "-" { None } else { Some(name) };
    let trace = read_text(rt, MOST_TRACE_BYTES, file).map_err(|e| Failure::NoTrace(e))?;
    let checked = check_steps(rt.alloc(), script, trace.as_slice()).map_err(|e| failure_of(e))?;
    let Some(difference) = checked.difference else {
        return Ok(Outcome::Done);
    };
    let printed = checked.printed.as_bytes();
    let Ok(told) = difference_text(rt.alloc(), difference, printed, trace.as_slice()) else {
        return Err(Failure::NoMemory);
    };
    write_text(writer, told.as_slice()).map_err(|e| failure_of(e))?;
    Ok(Outcome::Stopped)
}
