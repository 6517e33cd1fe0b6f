//! How a CPU goes along the chain of its batch, from one call to the next: SYNC calls first, whose records it takes out of
//! the chain, then the ASYNC calls that are left (`kernel/smp.c: __flush_smp_call_function_queue`).

ghost use Rattle.std.specs.Prelude.{◌≡◌, Some, None};
ghost use Rattle.smp_call_steps.specs.Drains.{first_on};
ghost use Rattle.smp_call_steps.specs.declared.handle.HandleStage.TheVariants as handle;
ghost use Rattle.smp_queue.specs.Seat.{InHandle};
ghost use Rattle.smp_queue.specs.Serving.{PassesOn, on, begins_at};
ghost use Rattle.smp_queue.specs.declared.run.Pass.TheVariants.{Second};
ghost use Rattle.smp_queue.specs.declared.run.Passed.TheVariants.{Over};

use crate::seat::{CallSeat, SharedCallWords, load, store};
use smp_call_steps::drain::linked;
use smp_call_steps::handle::{Walk, link_of};
use smp_words::call::Class;
use smp_words::{Call, Word};

/// A pass over a batch.
#[derive(Clone, Copy)]
pub(crate) enum Pass {
    /// The first, over the SYNC calls.
    First(Walk),
    /// The second, over the ASYNC calls.
    Second,
}

impl Pass {
    /// Whether it is the pass over the SYNC calls.
    #[inline(always)]
    pub(crate) fn is_first(self) -> bool {
        match self {
            Pass::First(_) => true,
            Pass::Second => false,
        }
    }
}

/// A call of a batch, and where its CPU goes on after it.
#[derive(Clone, Copy)]
pub(crate) struct Place {
    pub(crate) pass: Pass,
    pub(crate) call: Call,
    pub(crate) next: Option<u32>,
}

/// How far a CPU has come in the first pass.
#[derive(Clone, Copy)]
pub(crate) enum Passed {
    /// It is at a SYNC call.
    At(Place),
    /// The pass is over, and the second one begins here.
    Over(Option<u32>),
}

/// Loads a SYNC call, and takes its record out of the chain.
#[inline(always)]
fn unlink(
    words: SharedCallWords,
    seat: &mut CallSeat,
    walk: Walk,
    id: u32,
    next: Option<u32>,
) -> (Walk, Call)
    requires at { InHandle words.shared.now.table_id seat.old (handle.LoadFunc walk id next) }
    ensures at { InHandle words.entry.shared.now.table_id seat.new (handle.BeginSync result.0 result.1 next) }
    ensures known { seat.new.known ≡ record (seat.old.known) { stage = seat.new.known.stage } }
{
    let func = load(words, seat, Word::Func(id));
    let info = load(words, seat, Word::Info(id));
    let call = Call {
        id,
        class: Class::Sync,
        func: func as u16,
        info,
    };
    match walk.last {
        None => (
            Walk {
                first: next,
                last: None,
            },
            call,
        ),
        Some(last) => {
            store(words, seat, Word::Next(last), link_of(next));
            (walk, call)
        }
    }
}

/// Goes along the chain to the next SYNC call.
#[inline(always)]
fn next_sync(words: SharedCallWords, seat: &mut CallSeat, first: Walk, from: Option<u32>) -> Passed
    requires at { InHandle words.shared.now.table_id seat.old (first_on first from) }
    ensures { PassesOn words.entry.shared.now.table_id seat.old seat.new result }
{
    let mut walk = first;
    let mut link = link_of(from);
    while let Some(id) = linked(link) {
        link = load(words, seat, Word::Next(id));
        let flags = load(words, seat, Word::Flags(id));
        match Class::of_flags(flags) {
            Class::Sync => {
                let next = linked(link);
                let (left, call) = unlink(words, seat, walk, id, next);
                return Passed::At(Place {
                    pass: Pass::First(left),
                    call,
                    next,
                });
            }
            Class::Async => {
                walk = Walk {
                    first: walk.first,
                    last: Some(id),
                };
            }
        }
    }
    Passed::Over(walk.first)
}

/// Goes on with the first pass, where the CPU is in it.
#[inline(always)]
pub(crate) fn pass_on(
    words: SharedCallWords,
    seat: &mut CallSeat,
    pass: Pass,
    here: Option<u32>,
) -> Passed
    requires at { InHandle words.shared.now.table_id seat.old (on pass here) }
    ensures on { PassesOn words.entry.shared.now.table_id seat.old seat.new result }
    ensures second { pass ≡ Second → result ≡ Over here }
{
    match pass {
        Pass::First(walk) => next_sync(words, seat, walk, here),
        Pass::Second => Passed::Over(here),
    }
}

/// Loads an ASYNC call.
#[inline(always)]
pub(crate) fn next_async(words: SharedCallWords, seat: &mut CallSeat, id: u32) -> Place
    requires at { InHandle words.shared.now.table_id seat.old (handle.AsyncNext id) }
    ensures at { InHandle words.entry.shared.now.table_id seat.new (begins_at result) }
    ensures known { seat.new.known ≡ record (seat.old.known) { stage = seat.new.known.stage } }
    ensures pass { result.pass ≡ Second }
{
    let link = load(words, seat, Word::Next(id));
    let next = linked(link);
    let func = load(words, seat, Word::Func(id));
    let info = load(words, seat, Word::Info(id));
    let call = Call {
        id,
        class: Class::Async,
        func: func as u16,
        info,
    };
    Place {
        pass: Pass::Second,
        call,
        next,
    }
}
