//! The events that a text tells, and the verdict on them.

ghost use Rattle.std.specs.Prelude.{◌≡◌, Ok, Err, IfOk};
ghost use Rattle.trace_ftrace.specs.KeptView.{kept_value};
ghost use Rattle.trace_ftrace.specs.Reading.{reading_of, told_by, Reads};
ghost use Rattle.trace_ftrace.specs.Verdict.{calls_alone, goes_all, goes_one, ruling_of, start, Rules};
ghost use Rattle.trace_judge.specs.Head.{no_labels, words_of};
ghost use Rattle.trace_judge.specs.Judged.{early_end, Lines};

use crate::kept::Kept;
use crate::marks::marks;
use crate::told::{Telling, Told, tell_marks};
use crate::wrong::{Refusal, Wrong};
use smp_labels::{LabelMap, LabelWords};
use smp_mask::Cause;
use std::alloc::{AllocError, Allocator};
use trace_judge::Verdict;
use trace_judge::cpus_line::every_cpu;
use trace_judge::early_end::EarlyEnd;
use trace_model::{Halt, Setting, State, Without};

/// What is read of a text: what its lines show, and which events these tell.
#[derive(Drop)]
pub struct Reading<A: Allocator> {
    pub kept: Kept<A>,
    pub telling: Telling<A>,
}

/// The most bytes of a text.
pub const MOST_KERNEL_BYTES: u32 = 536_870_912;

/// The most events.
pub const MOST_KERNEL_EVENTS: u32 = 1_000_000;

/// What is left out of a text: all but the calls.
fn without() -> Without
    ensures { result ≡ calls_alone }
{
    Without {
        gate: true,
        interrupts: true,
        order: true,
        raises: true,
        switches: true,
        unlocks: true,
    }
}

/// The words of no labels.
#[tactic(auto, unfolding(trace_judge::specs::Head::words_of))]
pub(crate) fn no_words() -> LabelWords
    ensures { result ≡ words_of no_labels }
{
    LabelMap::empty().words()
}

/// The state before the first event.
#[tactic(auto, unfolding(crate::specs::Verdict::start))]
pub fn open<A: Allocator + Copy>(alloc: A) -> Result<State<A>, AllocError>
    ensures { IfOk result (λ s. s ≡ start) }
{
    let setting = Setting {
        cpus: 512,
        online: every_cpu(),
        keys: 0,
        sites: 0,
        is_third: true,
        without: without(),
    };
    State::open_all(alloc, setting, no_words())
}

/// Why an event is the end of a text, where it was not made.
fn early_end(told: &Told, halt: Halt) -> EarlyEnd
    ensures { result ≡ early_end told.now.line told.now.cpu told.now.event halt }
{
    match halt {
        Halt::Broken(why) => EarlyEnd::Broken(told.line, told.cpu, told.event, why),
        Halt::NoMemory => EarlyEnd::NoMemory,
    }
}

/// The model goes by one event.
#[tactic(auto, unfolding(crate::specs::Verdict::goes_one, trace_judge::specs::Judged::told_goes))]
pub fn goes_one<A: Allocator + Copy>(
    alloc: A,
    state: &mut State<A>,
    told: &Told,
) -> Result<(), EarlyEnd>
    ensures { Lines result state.new (goes_one told.now state.old) }
{
    if told.cpu >= 512 {
        return Err(EarlyEnd::Fault(told.line, Cause::Range));
    }
    match state.event(alloc, told.cpu, told.event) {
        Ok(()) => Ok(()),
        Err(halt) => Err(early_end(told, halt)),
    }
}

/// The model goes by events, up to the first that it has no step for.
fn goes_all<A: Allocator + Copy>(
    alloc: A,
    state: &mut State<A>,
    told: &[Told],
) -> Result<(), EarlyEnd>
    ensures { Lines result state.new (goes_all told.now state.old) }
{
    let mut rest = told;
    while let [first, after @ ..] = rest {
        match goes_one(alloc, state, first) {
            Ok(()) => {}
            Err(why) => return Err(why),
        }
        rest = after;
    }
    Ok(())
}

/// The verdict on events: whether some run of the model has them, and else the first that none has, and the first of its
/// premises that does not hold.
///
/// Refusals: `TooLong`; `Wrong` where an event's CPU is above 511; `NoMemory`.
#[tactic(auto, unfolding(crate::specs::Verdict::ruling_of))]
pub fn judge_told<A: Allocator + Copy>(alloc: A, told: &[Told]) -> Result<Verdict<A>, Refusal>
    ensures { Rules result (ruling_of told.now) }
{
    if told.len() > MOST_KERNEL_EVENTS as usize {
        return Err(Refusal::TooLong);
    }
    let Ok(mut state) = open(alloc) else {
        return Err(Refusal::NoMemory);
    };
    match goes_all(alloc, &mut state, told) {
        Ok(()) => Ok(Verdict::Lawful(told.len() as u32, state)),
        Err(EarlyEnd::Broken(line, cpu, event, why)) => Ok(Verdict::Broken(line, cpu, event, why)),
        Err(EarlyEnd::Fault(line, _)) => Err(Refusal::Wrong(line, Wrong::Cpu)),
        Err(EarlyEnd::NoMemory) => Err(Refusal::NoMemory),
    }
}

/// What is read of a text, of whose lines this is kept.
#[tactic(auto, unfolding(crate::specs::Reading::told_by), using(crate::proofs::ReadFails::fails))]
pub(crate) fn tell_kept<A: Allocator + Copy>(alloc: A, kept: Kept<A>) -> Result<Reading<A>, Refusal>
    ensures { Reads result (told_by (kept_value kept)) }
{
    match tell_marks(alloc, kept.marks.as_slice()) {
        Ok(telling) => Ok(Reading { kept, telling }),
        Err(why) => Err(why),
    }
}

/// What a text tells, without its first `skip` nanoseconds.
///
/// Refusals: `TooLong`; `Wrong` with the first line at fault; `NoMemory`.
#[tactic(auto, unfolding(crate::specs::Reading::reading_of), using(crate::proofs::ReadFails::fails))]
pub fn read_told<A: Allocator + Copy>(
    alloc: A,
    skip: u64,
    text: &[u8],
) -> Result<Reading<A>, Refusal>
    ensures { Reads result (reading_of skip text.now) }
{
    if text.len() > MOST_KERNEL_BYTES as usize {
        return Err(Refusal::TooLong);
    }
    let kept = match marks(alloc, skip, text) {
        Ok(kept) => kept,
        Err(why) => return Err(why),
    };
    tell_kept(alloc, kept)
}
