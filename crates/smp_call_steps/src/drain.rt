//! What follows each step of `handle`.

ghost use Rattle.std.specs.Prelude.{◌≡◌, ◌↔◌, ◌≤◌, ◌^◌, true};
ghost use Rattle.smp_call_steps.specs.Drains.{no_drain, handle_outcome, drain_after, handle_goes, calling, record_at};
ghost use Rattle.smp_call_steps.specs.Drains.{second_on as second, first_on as first, reverse_on as reverse};
ghost use Rattle.smp_call_steps.specs.Drains.{by_class as of_class, unlink_after as unlinks, FitsFound, RoomAt};

use crate::handle::{HandleStage, Walk};
use crate::stage::{CallOutcome, Stage};
use smp_words::call::{Call, Class};
use smp_words::seen::Note;
use smp_words::size::owner_of;
use std::marker::Model;

/// How many calls a drain has reversed of its batch.
#[derive(Drop)]
pub struct Drain {
    calls: u32,
}

impl Model for Drain {
    ghost use Rattle.smp_call_steps.specs.Drains.{DrainValue};

    ghost Value = { DrainValue };

    ghost view = { λ d. record { calls = d.calls } };
}

impl Drain {
    /// None reversed.
    pub fn new() -> Self
        ensures { result ≡ no_drain }
    {
        Drain { calls: 0 }
    }

    /// A duplicate of this count.
    pub fn copy(&self) -> Self
        ensures { result ≡ self.now }
    {
        Drain { calls: self.calls }
    }

    /// Whether both have reversed as many.
    pub fn is_same(&self, other: &Self) -> bool
        ensures { result ≡ true ↔ self.now ≡ other.now }
    {
        self.calls == other.calls
    }

    /// What follows when a step of `handle` found this number.
    pub fn advance(&mut self, stage: HandleStage, found: u64) -> CallOutcome
        requires fits { FitsFound stage found }
        requires room { RoomAt self.old stage }
        ensures outcome { result ≡ handle_outcome self.old stage found }
        ensures drain { self.new ≡ drain_after self.old stage found }
    {
        match stage {
            HandleStage::Enter => go_on(HandleStage::Accept),
            HandleStage::Accept => go_on(if found == 0 {
                HandleStage::LeaveIdle
            } else {
                HandleStage::Take
            }),
            HandleStage::LeaveIdle => {
                self.calls = 0;
                CallOutcome::end(Note::Idle)
            }
            HandleStage::Take => {
                self.calls = 0;
                go_on(reverse_on(None, linked(found)))
            }
            HandleStage::ReverseLoad { newer, id } => go_on(HandleStage::ReverseStore {
                newer,
                id,
                older: linked(found),
            }),
            HandleStage::ReverseStore {
                newer: _,
                id,
                older,
            } => {
                self.calls += 1;
                go_on(reverse_on(Some(id), older))
            }
            HandleStage::LoadNext { walk, id } => go_on(HandleStage::LoadFlags {
                walk,
                id,
                next: linked(found),
            }),
            HandleStage::LoadFlags { walk, id, next } => {
                go_on(by_class(Class::of_flags(found), walk, id, next))
            }
            HandleStage::LoadFunc { walk, id, next } => go_on(HandleStage::LoadInfo {
                walk,
                id,
                next,
                func: found as u16,
            }),
            HandleStage::LoadInfo {
                walk,
                id,
                next,
                func,
            } => go_on(unlink_after(
                walk.last,
                walk,
                Call {
                    id,
                    class: Class::Sync,
                    func,
                    info: found,
                },
                next,
            )),
            HandleStage::Unlink {
                walk,
                last: _,
                call,
                next,
            } => { go_on(HandleStage::BeginSync { walk, call, next }) }
            HandleStage::BeginSync { walk, call, next } => {
                calls(HandleStage::CountSync { walk, call, next }, call)
            }
            HandleStage::CountSync { walk, call, next } => {
                go_on(HandleStage::EndSync { walk, call, next })
            }
            HandleStage::EndSync {
                walk,
                call: _,
                next,
            } => go_on(first_on(walk, next)),
            HandleStage::AsyncNext { id } => go_on(HandleStage::AsyncFunc {
                id,
                next: linked(found),
            }),
            HandleStage::AsyncFunc { id, next } => go_on(HandleStage::AsyncInfo {
                id,
                next,
                func: found as u16,
            }),
            HandleStage::AsyncInfo { id, next, func } => go_on(HandleStage::BeginAsync {
                call: Call {
                    id,
                    class: Class::Async,
                    func,
                    info: found,
                },
                next,
            }),
            HandleStage::BeginAsync { call, next } => {
                calls(HandleStage::CountAsync { call, next }, call)
            }
            HandleStage::CountAsync { call: _, next } => go_on(second_on(next)),
            HandleStage::Leave => {
                let calls = self.calls;
                self.calls = 0;
                CallOutcome::end(Note::Handled(calls))
            }
        }
    }
}

/// The record to which a link leads; none where it is 0.
pub fn linked(link: u64) -> Option<u32>
    requires { link ≤ 2 ^ 32 }
    ensures { result ≡ record_at link }
{
    if link == 0 {
        None
    } else {
        Some((link - 1) as u32)
    }
}

/// The second pass goes on with this record, or all has run.
pub fn second_on(next: Option<u32>) -> HandleStage
    ensures { result ≡ second next }
{
    match next {
        None => HandleStage::Leave,
        Some(id) => HandleStage::AsyncNext { id },
    }
}

/// The first pass goes on with this record, or the second begins.
pub fn first_on(walk: Walk, next: Option<u32>) -> HandleStage
    ensures { result ≡ first walk next }
{
    match next {
        None => second_on(walk.first),
        Some(id) => HandleStage::LoadNext { walk, id },
    }
}

/// The reversal goes on with the record before this one, or the first pass begins here.
pub fn reverse_on(here: Option<u32>, older: Option<u32>) -> HandleStage
    ensures { result ≡ reverse here older }
{
    match older {
        None => first_on(
            Walk {
                first: here,
                last: None,
            },
            here,
        ),
        Some(id) => HandleStage::ReverseLoad { newer: here, id },
    }
}

/// An ASYNC record stays in the chain.
fn by_class(class: Class, walk: Walk, id: u32, next: Option<u32>) -> HandleStage
    ensures { result ≡ of_class class walk id next }
{
    match class {
        Class::Sync => HandleStage::LoadFunc { walk, id, next },
        Class::Async => first_on(
            Walk {
                first: walk.first,
                last: Some(id),
            },
            next,
        ),
    }
}

/// A SYNC record leaves the chain: at the last ASYNC record before it, or at the front.
fn unlink_after(last: Option<u32>, walk: Walk, call: Call, next: Option<u32>) -> HandleStage
    ensures { result ≡ unlinks last walk call next }
{
    match last {
        None => HandleStage::BeginSync {
            walk: Walk {
                first: next,
                last: None,
            },
            call,
            next,
        },
        Some(last) => HandleStage::Unlink {
            walk,
            last,
            call,
            next,
        },
    }
}

fn go_on(stage: HandleStage) -> CallOutcome
    ensures { result ≡ handle_goes stage }
{
    CallOutcome::go_on(Stage::Handle(stage))
}

/// After this step the function of the call runs.
fn calls(next: HandleStage, call: Call) -> CallOutcome
    ensures { result ≡ calling next call }
{
    CallOutcome {
        next: Some(Stage::Handle(next)),
        note: Some(Note::Call(owner_of(call.id), call.func, call.info)),
    }
}
