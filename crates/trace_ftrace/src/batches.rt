//! Which calls of a CPU one take has taken.

use crate::choosing::{START, later};
use crate::matching::{Append, END, append_at};
use crate::moment::{Moment, is_before};
use smp_words::call::Class;
use std::alloc::{AllocError, Allocator};

/// A call that a CPU runs: its append, when that can be, when the call begins and ends, and the moments before which it is not taken,
/// and before which it is.
#[derive(Clone, Copy)]
pub(crate) struct Run {
    pub(crate) cpu: u32,
    pub(crate) append: usize,
    pub(crate) class: Class,
    pub(crate) low: Moment,
    pub(crate) until: Moment,
    pub(crate) begin: Moment,
    pub(crate) end: Moment,
    pub(crate) floor: Moment,
    pub(crate) again: Moment,
}

/// The run of a place; one of nothing where there is none.
pub(crate) fn run_at(runs: &[Run], place: usize) -> Run {
    if place < runs.len() {
        return runs[place];
    }
    Run {
        cpu: 0,
        append: usize::MAX,
        class: Class::Async,
        low: START,
        until: END,
        begin: END,
        end: END,
        floor: START,
        again: END,
    }
}

/// For each number of calls the least moment of the last take of these, and where its batch begins.
#[derive(Drop)]
pub(crate) struct Batches<A: Allocator> {
    bests: Vec<Option<Moment>, A>,
    starts: Vec<usize, A>,
    /// The most calls that takes let begin as they did.
    pub(crate) reach: usize,
}

impl<A: Allocator> Batches<A> {
    /// The least moment of the last take of the first `place` calls; none where no takes let these begin.
    pub(crate) fn at(&self, place: usize) -> Option<Moment> {
        if place < self.bests.len() {
            self.bests[place]
        } else {
            None
        }
    }

    /// Where the batch of that take begins.
    pub(crate) fn start_of(&self, place: usize) -> usize {
        if place < self.starts.len() {
            self.starts[place]
        } else {
            0
        }
    }

    /// Keeps the moment of a take, where it is less than what was found before.
    fn keep(&mut self, from: usize, to: usize, at: Moment) {
        let is_less = match self.at(to) {
            Some(best) => is_before(at, best),
            None => true,
        };
        if is_less && to < self.bests.len() && to < self.starts.len() {
            self.bests[to] = Some(at);
            self.starts[to] = from;
        }
        if to > self.reach {
            self.reach = to;
        }
    }
}

/// The earlier of two moments.
fn earlier(first: Moment, second: Moment) -> Moment {
    if is_before(second, first) {
        second
    } else {
        first
    }
}

/// The least moment before which an append has to be, of the calls from each place on.
fn overs<A: Allocator + Copy>(alloc: A, runs: &[Run]) -> Result<Vec<Moment, A>, AllocError> {
    let mut overs = Vec::new(alloc);
    for _ in 0..runs.len() {
        overs.push(END)?;
    }
    overs.push(END)?;
    let mut least = END;
    for i in 0..runs.len() {
        let place = runs.len() - 1 - i;
        least = earlier(least, run_at(runs, place).until);
        if place < overs.len() {
            overs[place] = least;
        }
    }
    Ok(overs)
}

/// The moment of a place; that behind all lines where there is none.
fn moment_at(moments: &[Moment], place: usize) -> Moment {
    if place < moments.len() {
        moments[place]
    } else {
        END
    }
}

/// The least moment before which an append has to be, of those whose calls are not begun.
fn least_left(appends: &[Append], left: &[usize]) -> Moment {
    let mut least = END;
    for place in left {
        least = earlier(least, append_at(appends, *place).until);
    }
    least
}

/// A batch up to a call: the moment of its take, that before which it is taken, and the last moments of its SYNC and ASYNC appends.
#[derive(Clone, Copy)]
struct Growing {
    at: Moment,
    again: Moment,
    sync: Moment,
    asyncs: Moment,
    has_async: bool,
}

/// A batch with one call more; none where that can't be in it.
fn grown(growing: Growing, first: &Run, run: &Run) -> Option<Growing> {
    let is_sync = run.class == Class::Sync;
    let top = if is_sync {
        growing.sync
    } else {
        growing.asyncs
    };
    let append = later(run.low, top);
    let at = later(growing.at, run.low);
    let again = earlier(growing.again, run.again);
    if !is_before(run.low, first.begin)
        || (is_sync && growing.has_async)
        || !is_before(append, run.until)
        || !is_before(at, again)
    {
        return None;
    }
    Some(Growing {
        at,
        again,
        sync: if is_sync { append } else { growing.sync },
        asyncs: if is_sync { growing.asyncs } else { append },
        has_async: growing.has_async || !is_sync,
    })
}

/// The moments that the calls behind a batch, and those that are not begun, leave to its take.
#[derive(Clone, Copy)]
struct Limits<'a> {
    overs: &'a [Moment],
    left: Moment,
}

/// Goes through the batches that begin at a call.
fn batches_from<A: Allocator>(
    batches: &mut Batches<A>,
    runs: &[Run],
    limits: &Limits<'_>,
    from: usize,
) {
    let Some(before) = batches.at(from) else {
        return;
    };
    let first = run_at(runs, from);
    let mut at = later(before, first.floor);
    if from > 0 {
        at = later(at, run_at(runs, from - 1).end);
    }
    let mut growing = Growing {
        at,
        again: END,
        sync: before,
        asyncs: before,
        has_async: false,
    };
    for i in from..runs.len() {
        match grown(growing, &first, &run_at(runs, i)) {
            Some(more) => growing = more,
            None => break,
        }
        let to = i + 1;
        let is_last = to == runs.len();
        let is_free = is_last || is_before(growing.at, limits.left);
        if is_free && is_before(growing.at, moment_at(limits.overs, to)) {
            batches.keep(from, to, growing.at);
        }
    }
}

/// The batches of a CPU's calls: the fewest calls at a time that let all begin as they did.
pub(crate) fn best_batches<A: Allocator + Copy>(
    alloc: A,
    runs: &[Run],
    appends: &[Append],
    left: &[usize],
) -> Result<Batches<A>, AllocError> {
    let overs = overs(alloc, runs)?;
    let mut batches = Batches {
        bests: Vec::new(alloc),
        starts: Vec::new(alloc),
        reach: 0,
    };
    batches.bests.push(Some(START))?;
    batches.starts.push(0)?;
    for _ in 0..runs.len() {
        batches.bests.push(None)?;
        batches.starts.push(0)?;
    }
    let limits = Limits {
        overs: overs.as_slice(),
        left: least_left(appends, left),
    };
    for from in 0..runs.len() {
        batches_from(&mut batches, runs, &limits, from);
    }
    Ok(batches)
}
