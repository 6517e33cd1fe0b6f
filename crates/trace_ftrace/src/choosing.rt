//! An order of the appends of a text that lets its calls begin, where one is found.

use crate::batches::{Batches, Run, best_batches, run_at};
use crate::bounds::Bound;
use crate::kept::Mark;
use crate::matching::{Append, append_at, appends_of, runs_of};
use crate::moment::{Moment, is_before, own_moment};
use crate::placing::{Choice, Taken};
use crate::told::Told;
use smp_words::call::Class;
use std::alloc::{AllocError, Allocator};
use trace_model::{CallEvent, Event};

/// Before all lines.
pub(crate) const START: Moment = Moment {
    time: 0,
    line: 0,
    nth: 0,
};

/// The later of two moments.
pub(crate) fn later(first: Moment, second: Moment) -> Moment {
    if is_before(first, second) {
        second
    } else {
        first
    }
}

/// The next moment at the same line.
fn next_moment(at: Moment) -> Moment {
    Moment {
        time: at.time,
        line: at.line,
        nth: at.nth.saturating_add(1),
    }
}

/// The appends of a text, the moment that is chosen for each, and the takes.
#[derive(Drop)]
struct Chosen<A: Allocator> {
    appends: Vec<Append, A>,
    moments: Vec<Moment, A>,
    takes: Vec<Taken, A>,
}

/// The last moments of the SYNC and ASYNC appends of a batch.
#[derive(Clone, Copy)]
struct Tops {
    sync: Moment,
    asyncs: Moment,
}

/// Puts an append behind a moment, or at its line where that is too late for it, and answers where it is.
fn put_behind<A: Allocator>(chosen: &mut Chosen<A>, place: usize, after: Moment) -> Moment {
    let append = append_at(chosen.appends.as_slice(), place);
    let wanted = if is_before(after, append.low) {
        append.low
    } else {
        next_moment(after)
    };
    let at = if is_before(wanted, append.until) {
        wanted
    } else {
        append.low
    };
    if place < chosen.moments.len() {
        chosen.moments[place] = at;
    }
    at
}

/// Puts an append behind the last of its class.
fn put_in_class<A: Allocator>(chosen: &mut Chosen<A>, place: usize, tops: Tops) -> Tops {
    let append = append_at(chosen.appends.as_slice(), place);
    match append.class {
        Class::Sync => Tops {
            sync: put_behind(chosen, place, tops.sync),
            asyncs: tops.asyncs,
        },
        Class::Async => Tops {
            sync: tops.sync,
            asyncs: put_behind(chosen, place, tops.asyncs),
        },
    }
}

/// Puts an append behind a moment, where it can be there, or else at its line.
fn put_rest<A: Allocator>(chosen: &mut Chosen<A>, place: usize, after: Moment) {
    let append = append_at(chosen.appends.as_slice(), place);
    let from = if is_before(after, append.until) {
        after
    } else {
        START
    };
    put_behind(chosen, place, from);
}

/// Takes the calls of a CPU from one place to another, at this moment or later, behind the take before; answers when.
fn take_batch<A: Allocator>(
    chosen: &mut Chosen<A>,
    runs: &[Run],
    batch: Batch,
    before: Moment,
    left: &[usize],
) -> Result<Moment, AllocError> {
    let mut tops = Tops {
        sync: before,
        asyncs: before,
    };
    for i in batch.from..batch.to {
        tops = put_in_class(chosen, run_at(runs, i).append, tops);
    }
    if batch.to == runs.len() {
        for place in left {
            let append = append_at(chosen.appends.as_slice(), *place);
            if !is_before(batch.at, append.until) {
                tops = put_in_class(chosen, *place, tops);
            }
        }
    }
    let at = next_moment(later(batch.at, later(tops.sync, tops.asyncs)));
    let first = run_at(runs, batch.from);
    let taken = Taken {
        cpu: first.cpu,
        at,
        line: first.begin.line,
        time: first.begin.time,
    };
    chosen.takes.push(taken)?;
    Ok(at)
}

/// A batch: the calls from one place to another, and the least moment of its take.
#[derive(Clone, Copy)]
struct Batch {
    from: usize,
    to: usize,
    at: Moment,
}

/// The batches, from the last to the first.
fn cuts<A: Allocator + Copy>(alloc: A, batches: &Batches<A>) -> Result<Vec<Batch, A>, AllocError> {
    let mut cuts = Vec::new(alloc);
    let mut to = batches.reach;
    for _ in 0..batches.reach {
        if to == 0 {
            break;
        }
        let from = batches.start_of(to);
        let at = batches.at(to).unwrap_or(START);
        cuts.push(Batch { from, to, at })?;
        to = from;
    }
    Ok(cuts)
}

/// Puts the calls of a CPU that no batch lets begin, with one take before the first: the model then names its law.
fn leave_rest<A: Allocator>(
    chosen: &mut Chosen<A>,
    runs: &[Run],
    reach: usize,
    before: Moment,
) -> Result<(), AllocError> {
    let first = run_at(runs, reach);
    for i in reach..runs.len() {
        let run = run_at(runs, i);
        let from = if is_before(run.low, first.begin) {
            before
        } else {
            START
        };
        put_rest(chosen, run.append, from);
    }
    let at = Moment {
        time: first.begin.time,
        line: first.begin.line,
        nth: 0,
    };
    let taken = Taken {
        cpu: first.cpu,
        at,
        line: first.begin.line,
        time: first.begin.time,
    };
    chosen.takes.push(taken)?;
    Ok(())
}

/// The appends for a CPU whose calls are not begun.
fn left_for<A: Allocator + Copy>(
    alloc: A,
    cpu: u32,
    appends: &[Append],
) -> Result<Vec<usize, A>, AllocError> {
    let mut left = Vec::new(alloc);
    for place in 0..appends.len() {
        let append = append_at(appends, place);
        if append.to == cpu && !append.is_begun {
            left.push(place)?;
        }
    }
    Ok(left)
}

/// The calls that a CPU runs.
fn runs_on<A: Allocator + Copy>(
    alloc: A,
    cpu: u32,
    runs: &[Run],
) -> Result<Vec<Run, A>, AllocError> {
    let mut mine = Vec::new(alloc);
    for run in runs {
        if run.cpu == cpu {
            mine.push(*run)?;
        }
    }
    Ok(mine)
}

/// Chooses the moments of the appends for a CPU, and its takes.
fn choose_cpu<A: Allocator + Copy>(
    alloc: A,
    chosen: &mut Chosen<A>,
    cpu: u32,
    all: &[Run],
) -> Result<(), AllocError> {
    let runs = runs_on(alloc, cpu, all)?;
    let left = left_for(alloc, cpu, chosen.appends.as_slice())?;
    let batches = best_batches(
        alloc,
        runs.as_slice(),
        chosen.appends.as_slice(),
        left.as_slice(),
    )?;
    let cuts = cuts(alloc, &batches)?;
    let mut before = START;
    for i in 0..cuts.len() {
        let batch = cuts[cuts.len() - 1 - i];
        before = take_batch(chosen, runs.as_slice(), batch, before, left.as_slice())?;
    }
    if batches.reach < runs.len() {
        leave_rest(chosen, runs.as_slice(), batches.reach, before)?;
    }
    for place in left.as_slice() {
        put_rest(chosen, *place, before);
    }
    Ok(())
}

/// The takes before a moment, from this place on, and the place behind them.
fn push_takes<A: Allocator>(
    choices: &mut Vec<Choice, A>,
    takes: &[Taken],
    from: usize,
    until: Moment,
) -> Result<usize, AllocError> {
    for i in from..takes.len() {
        if !is_before(takes[i].at, until) {
            return Ok(i);
        }
        choices.push(Choice::Take(takes[i]))?;
    }
    Ok(takes.len())
}

/// The takes and the moments of the appends, as choices.
fn choices_of<A: Allocator + Copy>(
    alloc: A,
    told: &[Told],
    chosen: &Chosen<A>,
) -> Result<Vec<Choice, A>, AllocError> {
    let mut choices = Vec::new(alloc);
    let mut taken = 0;
    let mut queued = 0usize;
    for x in told {
        let own = own_moment(x);
        taken = push_takes(&mut choices, chosen.takes.as_slice(), taken, own)?;
        let mut at = own;
        if matches!(x.event, Event::Call(CallEvent::Queue(..))) {
            if queued < chosen.moments.len() {
                at = chosen.moments[queued];
            }
            queued = queued.saturating_add(1);
        }
        choices.push(Choice::Next(at))?;
    }
    for i in taken..chosen.takes.len() {
        choices.push(Choice::Take(chosen.takes[i]))?;
    }
    Ok(choices)
}

/// One more than the highest CPU for which there is an append.
fn cpus_called(appends: &[Append]) -> u32 {
    let mut cpus = 0;
    for append in appends {
        cpus = cpus.max(append.to.saturating_add(1));
    }
    cpus
}

/// An order of the appends that lets the calls begin, where one is found, with the takes. A take is made as early as it can be, of
/// as few calls as it has to be.
pub(crate) fn choose<A: Allocator + Copy>(
    alloc: A,
    marks: &[Mark],
    told: &[Told],
    bounds: &[Bound],
) -> Result<Vec<Choice, A>, AllocError> {
    let mut appends = appends_of(alloc, told, bounds)?;
    let runs = runs_of(alloc, marks, told, appends.as_mut_slice())?;
    let mut moments = Vec::new(alloc);
    for append in appends.as_slice() {
        moments.push(append.low)?;
    }
    let mut chosen = Chosen {
        appends,
        moments,
        takes: Vec::new(alloc),
    };
    for cpu in 0..cpus_called(chosen.appends.as_slice()) {
        choose_cpu(alloc, &mut chosen, cpu, runs.as_slice())?;
    }
    chosen
        .takes
        .sort_by_key(|taken| (taken.at.time, taken.at.line, taken.at.nth))?;
    choices_of(alloc, told, &chosen)
}
