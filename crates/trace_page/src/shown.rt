//! How many events a page shows.

ghost use Rattle.std.specs.Prelude.{◌≡◌, ◌≤◌, length, IfOk};
ghost use Rattle.trace_ftrace.specs.Verdict.{goes_one, start};
ghost use Rattle.trace_page.specs.Shown.{shown_count, Goes};

use std::alloc::{AllocError, Allocator};
use trace_ftrace::told::Told;
use trace_ftrace::verdict::{goes_one, open};
use trace_judge::early_end::EarlyEnd;
use trace_model::State;

/// Whether the model has a step for an event, which it goes by.
fn goes<A: Allocator + Copy>(
    alloc: A,
    state: &mut State<A>,
    told: &Told,
) -> Result<bool, AllocError>
    ensures { Goes result state.new (goes_one told.now state.old) }
{
    match goes_one(alloc, state, told) {
        Ok(()) => Ok(true),
        Err(EarlyEnd::NoMemory) => Err(AllocError),
        Err(_) => Ok(false),
    }
}

/// How many events there are up to the first one that the model has no step for from here on, with it.
fn count_from<A: Allocator + Copy>(
    alloc: A,
    state: &mut State<A>,
    told: &[Told],
) -> Result<usize, AllocError>
    ensures count { IfOk result (λ count. count ≡ shown_count told.now state.old) }
    ensures within { IfOk result (λ count. count ≤ length told.now) }
{
    let mut count = 0;
    let mut rest = told;
    while let [first, after @ ..] = rest {
        count += 1;
        match goes(alloc, state, first) {
            Ok(true) => rest = after,
            Ok(false) => return Ok(count),
            Err(error) => return Err(error),
        }
    }
    Ok(count)
}

/// How many events there are up to the first one that the model has no step for, with it.
pub(crate) fn shown_count<A: Allocator + Copy>(alloc: A, told: &[Told]) -> Result<usize, AllocError>
    ensures count { IfOk result (λ count. count ≡ shown_count told.now start) }
    ensures within { IfOk result (λ count. count ≤ length told.now) }
{
    let mut state = open(alloc)?;
    count_from(alloc, &mut state, told)
}
