//! The verdict on a trace.

ghost use Rattle.std.specs.Prelude.{◌≡◌, ◌++◌, OnOk, string_bytes};
ghost use Rattle.trace_judge.specs.Head.{Sees};
ghost use Rattle.trace_judge.specs.Verdict.{verdict_of, verdict_text, Answers};

use crate::body::lines;
use crate::early_end::EarlyEnd;
use crate::head::read_head;
use crate::text::{write_broken, write_lawful};
use smp_mask::SmpError;
use std::alloc::{AllocError, Allocator};
use trace_model::{Event, Reason, State};

/// What a trace is found to be.
#[derive(Drop)]
pub enum Verdict<A: Allocator> {
    /// The model has a run with these events: how many there are, and the state at the end.
    Lawful(u32, State<A>),
    /// No run of the model has the event of this line and CPU, and why.
    Broken(u32, u32, Event, Reason),
}

/// How many events a trace has, and the state at its end.
#[tactic(auto, unfolding(crate::specs::Verdict::verdict_of))]
fn judge_lines<A: Allocator + Copy>(alloc: A, text: &[u8]) -> Result<(u32, State<A>), EarlyEnd>
    ensures { Sees (λ v. v) result (verdict_of text.now) }
{
    let head = match read_head(alloc, text) {
        Ok(head) => head,
        Err(why) => return Err(why),
    };
    let Ok(mut state) = State::open_all(alloc, head.setting, head.words) else {
        return Err(EarlyEnd::NoMemory);
    };
    let events = lines(alloc, &head.setting, &mut state, head.cursor)?;
    Ok((events, state))
}

/// Judges a trace: whether some run of the model has its events, and else the first event that none has, and the first of
/// that event's premises that does not hold.
///
/// Refusals: `BadScript` with the first line at fault, where no event before it is broken; `NoMemory`.
pub fn judge<A: Allocator + Copy>(alloc: A, text: &[u8]) -> Result<Verdict<A>, SmpError>
    ensures { Answers result (verdict_of text.now) }
{
    match judge_lines(alloc, text) {
        Ok((events, state)) => Ok(Verdict::Lawful(events, state)),
        Err(EarlyEnd::Broken(line, cpu, event, why)) => Ok(Verdict::Broken(line, cpu, event, why)),
        Err(EarlyEnd::Fault(line, cause)) => Err(SmpError::BadScript { line, cause }),
        Err(EarlyEnd::NoMemory) => Err(SmpError::NoMemory),
    }
}

/// What is printed of a verdict.
pub fn write_verdict<A: Allocator, B: Allocator + Copy>(
    out: &mut String<A>,
    verdict: &Verdict<B>,
) -> Result<(), AllocError>
    ensures { OnOk result (string_bytes out.new ≡ string_bytes out.old ++ verdict_text verdict.now) }
{
    match verdict {
        Verdict::Lawful(events, state) => write_lawful(out, *events, state),
        Verdict::Broken(line, cpu, event, why) => write_broken(out, *line, *cpu, *event, *why),
    }
}
