//! The verdict on the events of a text, with the order of its appends.

ghost use Rattle.std.specs.Prelude.{◌≡◌, map, IfOk, MatchResult};
ghost use Rattle.trace_ftrace.specs.Ordered.{calls_in_order, start_in_order, FailsInOrder, IsLawful, IsOrder, RulesInOrder};
ghost use Rattle.trace_ftrace.specs.Verdict.{goes_all};
ghost use Rattle.trace_judge.specs.Judged.{Lines};

use crate::bounds::bounds_of;
use crate::choosing::choose;
use crate::kept::Mark;
use crate::placing::{Misplaced, Step, place_all};
use crate::told::Told;
use crate::verdict::{MOST_KERNEL_EVENTS, goes_one, no_words};
use crate::wrong::{Refusal, Wrong};
use std::alloc::{AllocError, Allocator};
use trace_judge::Verdict;
use trace_judge::cpus_line::every_cpu;
use trace_judge::early_end::EarlyEnd;
use trace_model::{Setting, State, Without};

/// What is left out of a text whose order is judged: all but the calls and the takes.
fn without() -> Without
    ensures { result ≡ calls_in_order }
{
    Without {
        gate: true,
        interrupts: true,
        order: false,
        raises: true,
        switches: true,
        unlocks: true,
    }
}

/// The state before the first event.
#[tactic(auto, unfolding(crate::specs::Ordered::start_in_order))]
fn open_in_order<A: Allocator + Copy>(alloc: A) -> Result<State<A>, AllocError>
    ensures { IfOk result (λ s. s ≡ start_in_order) }
{
    let setting = Setting {
        cpus: 512,
        online: every_cpu(),
        keys: 0,
        sites: 0,
        is_third: true,
        without: without(),
    };
    State::open_all(alloc, setting, no_words())
}

/// The model goes by the events of steps, up to the first that it has no step for.
fn goes_steps<A: Allocator + Copy>(
    alloc: A,
    state: &mut State<A>,
    steps: &[Step],
) -> Result<(), EarlyEnd>
    ensures { Lines result state.new (goes_all (map (λ s. s.told) steps.now) state.old) }
{
    let mut rest = steps;
    while let [first, after @ ..] = rest {
        match goes_one(alloc, state, &first.told) {
            Ok(()) => {}
            Err(why) => return Err(why),
        }
        rest = after;
    }
    Ok(())
}

/// The events that lines tell, in an order in which each append is where it can be.
#[tactic(auto, using(crate::proofs::Orders::in_order))]
fn order_of<A: Allocator + Copy>(
    alloc: A,
    marks: &[Mark],
    told: &[Told],
) -> Result<Vec<Step, A>, Refusal>
    ensures { MatchResult result (λ v. IsOrder marks.now told.now v.items) (λ why. FailsInOrder why marks.now told.now) }
{
    let Ok(bounds) = bounds_of(alloc, marks) else {
        return Err(Refusal::NoMemory);
    };
    let Ok(choices) = choose(alloc, marks, told, bounds.as_slice()) else {
        return Err(Refusal::NoMemory);
    };
    match place_all(alloc, choices.as_slice(), told, bounds.as_slice()) {
        Ok(steps) => Ok(steps),
        Err(Misplaced::Bounds) => Err(Refusal::Unplaced),
        Err(Misplaced::NoMemory) => Err(Refusal::NoMemory),
    }
}

/// The verdict that this number of events is lawful, with the state behind them.
fn lawful<A: Allocator>(count: usize, state: State<A>) -> Result<Verdict<A>, Refusal>
    ensures { IsLawful result count state }
{
    match u32::try_from(count) {
        Ok(events) => Ok(Verdict::Lawful(events, state)),
        Err(_) => Err(Refusal::Unplaced),
    }
}

/// The verdict on events in an order in which each append is where it can be: whether some run of the model has them so, and else
/// the first that none has, and the first of its premises that does not hold.
///
/// Refusals: `TooLong`; `Wrong` where an event's CPU is above 511; `Unplaced`, which was never seen; `NoMemory`.
pub fn judge_in_order<A: Allocator + Copy>(
    alloc: A,
    marks: &[Mark],
    told: &[Told],
) -> Result<Verdict<A>, Refusal>
    ensures { RulesInOrder result marks.now told.now }
{
    if told.len() > MOST_KERNEL_EVENTS as usize {
        return Err(Refusal::TooLong);
    }
    let steps = match order_of(alloc, marks, told) {
        Ok(steps) => steps,
        Err(why) => return Err(why),
    };
    let Ok(mut state) = open_in_order(alloc) else {
        return Err(Refusal::NoMemory);
    };
    let slice = steps.as_slice();
    match goes_steps(alloc, &mut state, slice) {
        Ok(()) => lawful(slice.len(), state),
        Err(EarlyEnd::Broken(line, cpu, event, why)) => Ok(Verdict::Broken(line, cpu, event, why)),
        Err(EarlyEnd::Fault(line, _)) => Err(Refusal::Wrong(line, Wrong::Cpu)),
        Err(EarlyEnd::NoMemory) => Err(Refusal::NoMemory),
    }
}
