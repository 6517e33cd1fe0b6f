//! The trace of steps.

ghost use Rattle.std.specs.Prelude.{◌≡◌, ◌++◌, IfOk, OnOk, string_bytes};
ghost use Rattle.smp_script.specs.Lines.{lines_of};
ghost use Rattle.trace_events.specs.Front.{front_text};
ghost use Rattle.trace_events.specs.Traces.{all_fresh, events_of, events_of_step, kept, lines_text};

use crate::past::{Past, after, fresh, keep, past_at};
use crate::step_events::tell;
use crate::text::write_told;
use smp_script::front::front_of;
use smp_words::Seen;
use std::alloc::{AllocError, Allocator};

/// The events of a step, by what each CPU has done before; and the step is kept.
fn write_step<A: Allocator>(
    out: &mut String<A>,
    pasts: &mut [Past; 32],
    seen: Seen,
) -> Result<(), AllocError>
    ensures text { OnOk result (string_bytes out.new ≡ string_bytes out.old ++ lines_text (events_of_step pasts.old seen)) }
    ensures kept { OnOk result (pasts.new ≡ kept pasts.old seen) }
{
    let past = past_at(pasts, seen.cpu);
    write_told(out, seen.cpu, tell(&past, seen))?;
    keep(pasts, seen.cpu, after(past, seen));
    Ok(())
}

/// The events of steps.
fn write_steps<A: Allocator>(out: &mut String<A>, steps: &[Seen]) -> Result<(), AllocError>
    ensures { OnOk result (string_bytes out.new ≡ string_bytes out.old ++ lines_text (events_of all_fresh steps.now)) }
{
    let mut pasts = [fresh(); 32];
    for step in steps {
        write_step(out, &mut pasts, *step)?;
    }
    Ok(())
}

/// The trace of the steps that a machine makes for a script: the title of a trace, the script's line of CPUs and its labels
/// line where it has one, and a line for each event that the steps tell.
pub fn trace<A: Allocator + Copy>(
    alloc: A,
    has_labels: bool,
    script: &[u8],
    steps: &[Seen],
) -> Result<Vec<u8, A>, AllocError>
    ensures { IfOk result (λ out. out.items ≡ front_text has_labels (lines_of script.now) ++ lines_text (events_of all_fresh steps.now)) }
{
    let mut out = front_of(alloc, b"smp 2 trace\n", has_labels, script)?;
    let mut lines = String::new(alloc);
    write_steps(&mut lines, steps)?;
    out.extend_from_slice(lines.as_bytes())?;
    Ok(out)
}
