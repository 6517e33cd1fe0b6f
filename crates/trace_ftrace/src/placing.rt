//! The events of a text in an order of its appends, with the takes between them.

ghost use Rattle.std.specs.Prelude.{◌≡◌, ◌≤◌, [], Some, Err, length, MatchResult};
ghost use Rattle.trace_ftrace.specs.PlacingView.{placing_value};
ghost use Rattle.trace_ftrace.specs.Placing.{behind_step, free_of, is_within, placed, placed_line, placed_one, queued_record, take_of};
ghost use Rattle.trace_ftrace.specs.Placing.{with_event_at, with_queue, Places};

use crate::bounds::Bound;
use crate::moment::{Moment, is_before, own_moment};
use crate::told::Told;
use std::alloc::Allocator;
use trace_model::{CallEvent, Event};

/// A CPU takes its queue at a moment; by which line, and at which time, it is told.
#[derive(Clone, Copy, Debug, PartialEq, Eq)]
pub struct Taken {
    pub cpu: u32,
    pub at: Moment,
    pub line: u32,
    pub time: u128,
}

/// What comes next.
#[derive(Clone, Copy, Debug, PartialEq, Eq)]
pub enum Choice {
    /// The next event that a line tells. Where that is an append, it is at this moment.
    Next(Moment),
    Take(Taken),
}

/// An event at a moment.
#[derive(Clone, Copy, Debug, PartialEq, Eq)]
pub struct Step {
    pub at: Moment,
    pub told: Told,
}

/// Why no order is made.
#[derive(Clone, Copy, Debug, PartialEq, Eq)]
pub enum Misplaced {
    /// An append is not where it can be, or not all events have been chosen.
    Bounds,
    NoMemory,
}

/// What is placed, and the events that are left, with where their appends can be.
#[derive(Drop)]
pub(crate) struct Placing<'a, A: Allocator> {
    rest: &'a [Told],
    bounds: &'a [Bound],
    steps: Vec<Step, A>,
}

/// How many steps there are up to the last that is not later than this moment.
#[tactic(auto, using(crate::proofs::Steps::behind_at))]
fn behind_step(steps: &[Step], at: Moment) -> usize
    ensures count { result ≡ behind_step at steps.now }
    ensures within { result ≤ length steps.now }
{
    let mut place = steps.len();
    while place > 0 {
        if !is_before(at, steps[place - 1].at) {
            return place;
        }
        place -= 1;
    }
    0
}

/// Puts an event at a moment, behind all that are not later.
fn put_at<A: Allocator>(steps: &mut Vec<Step, A>, at: Moment, told: Told) -> Result<(), Misplaced>
    ensures { Places result steps.new.items (Some (with_event_at at told steps.old.items)) }
{
    let place = behind_step(steps.as_slice(), at);
    match steps.insert(place, Step { at, told }) {
        Ok(()) => Ok(()),
        Err(_) => Err(Misplaced::NoMemory),
    }
}

/// The record of an event by which a call is queued.
fn queued_record(told: &Told) -> Option<u16>
    ensures { result ≡ queued_record told.now.event }
{
    match told.event {
        Event::Call(CallEvent::Queue(id, _, _, _, _)) => Some(id),
        _ => None,
    }
}

/// That a record is seen free, at the line that tells an event.
fn free_of(told: &Told, id: u16) -> Told
    ensures { result ≡ free_of told.now id }
{
    Told {
        line: told.line,
        cpu: told.cpu,
        time: told.time,
        event: Event::Call(CallEvent::Free(id)),
    }
}

/// That a CPU takes its queue.
fn take_of(taken: &Taken) -> Told
    ensures { result ≡ take_of taken.now }
{
    Told {
        line: taken.line,
        cpu: taken.cpu,
        time: taken.time,
        event: Event::Call(CallEvent::Take),
    }
}

/// Whether an append can be at a moment.
fn is_within(told: &Told, bound: &Bound, at: Moment) -> bool
    ensures { result ≡ is_within told.now bound.now at }
{
    if bound.line != told.line || is_before(at, own_moment(told)) {
        return false;
    }
    match bound.until {
        Some(until) => is_before(at, until),
        None => true,
    }
}

/// Puts an append at a moment. Where that is behind its line, its record is seen free at the line.
fn put_queue<A: Allocator>(
    steps: &mut Vec<Step, A>,
    at: Moment,
    told: &Told,
    id: u16,
) -> Result<(), Misplaced>
    ensures { Places result steps.new.items (Some (with_queue at told.now id steps.old.items)) }
{
    let own = own_moment(told);
    if is_before(own, at) {
        match put_at(steps, own, free_of(told, id)) {
            Ok(()) => {}
            Err(why) => return Err(why),
        }
    }
    put_at(steps, at, *told)
}

/// Places the next event that a line tells.
fn place_next<A: Allocator>(placing: &mut Placing<'_, A>, at: Moment) -> Result<(), Misplaced>
    ensures { Places result (placing_value placing.new) (placed_line at (placing_value placing.old)) }
{
    let [told, rest @ ..] = placing.rest else {
        return Err(Misplaced::Bounds);
    };
    let Some(id) = queued_record(told) else {
        placing.rest = rest;
        return put_at(&mut placing.steps, own_moment(told), *told);
    };
    let [bound, bounds @ ..] = placing.bounds else {
        return Err(Misplaced::Bounds);
    };
    if !is_within(told, bound, at) {
        return Err(Misplaced::Bounds);
    }
    placing.rest = rest;
    placing.bounds = bounds;
    put_queue(&mut placing.steps, at, told, id)
}

/// Places what comes next.
fn place_one<A: Allocator>(placing: &mut Placing<'_, A>, choice: &Choice) -> Result<(), Misplaced>
    ensures { Places result (placing_value placing.new) (placed_one choice.now (placing_value placing.old)) }
{
    match choice {
        Choice::Next(at) => place_next(placing, *at),
        Choice::Take(taken) => put_at(&mut placing.steps, taken.at, take_of(taken)),
    }
}

/// The events that lines tell in the order that was chosen, where each append is where it can be. Each event comes once.
pub(crate) fn place_all<A: Allocator + Copy>(
    alloc: A,
    choices: &[Choice],
    told: &[Told],
    bounds: &[Bound],
) -> Result<Vec<Step, A>, Misplaced>
    ensures { let made = placed choices.now told.now bounds.now in
        MatchResult result (λ v. made ≡ Some v.items) (λ why. Places (Err why) [] made) }
{
    let mut placing = Placing {
        rest: told,
        bounds,
        steps: Vec::new(alloc),
    };
    let mut left = choices;
    while let [choice, after @ ..] = left {
        match place_one(&mut placing, choice) {
            Ok(()) => {}
            Err(why) => return Err(why),
        }
        left = after;
    }
    if !placing.rest.is_empty() {
        return Err(Misplaced::Bounds);
    }
    Ok(placing.steps)
}
