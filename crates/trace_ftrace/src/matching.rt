//! The appends of a text, and the calls that begin.

use crate::batches::Run;
use crate::bounds::Bound;
use crate::choosing::{START, later};
use crate::kept::Mark;
use crate::moment::{Moment, is_before, own_moment, stamp_moment};
use crate::per_cpu::{at, put};
use crate::sign::Sign;
use crate::stop_sign::StopSign;
use crate::told::Told;
use smp_words::call::Class;
use std::alloc::{AllocError, Allocator};
use trace_model::{CallEvent, Event};

/// Behind all lines.
pub(crate) const END: Moment = Moment {
    time: u128::MAX,
    line: u32::MAX,
    nth: u32::MAX,
};

/// How many records there can be.
const RECORDS: usize = 65536;

/// An append: for which CPU, its record and class, from when on and before when it can be, when its record is queued again, and
/// whether its call begins.
#[derive(Clone, Copy)]
pub(crate) struct Append {
    pub(crate) to: u32,
    id: u16,
    pub(crate) class: Class,
    pub(crate) low: Moment,
    pub(crate) until: Moment,
    again: Moment,
    pub(crate) is_begun: bool,
}

/// The append of a place; one of nothing where there is none.
pub(crate) fn append_at(appends: &[Append], place: usize) -> Append {
    if place < appends.len() {
        return appends[place];
    }
    Append {
        to: 0,
        id: 0,
        class: Class::Async,
        low: START,
        until: END,
        again: END,
        is_begun: true,
    }
}

/// Before when the append of a place has to be.
fn until_at(bounds: &[Bound], place: usize) -> Moment {
    if place < bounds.len() {
        bounds[place].until.unwrap_or(END)
    } else {
        END
    }
}

/// Notes for each append when its record is queued again.
fn note_again<A: Allocator + Copy>(alloc: A, appends: &mut [Append]) -> Result<(), AllocError> {
    let mut behind = Vec::new(alloc);
    for _ in 0..RECORDS {
        behind.push(END)?;
    }
    for i in 0..appends.len() {
        let place = appends.len() - 1 - i;
        let id = appends[place].id as usize;
        if id < behind.len() {
            appends[place].again = behind[id];
            behind[id] = appends[place].low;
        }
    }
    Ok(())
}

/// The appends that these events tell, in their order.
pub(crate) fn appends_of<A: Allocator + Copy>(
    alloc: A,
    told: &[Told],
    bounds: &[Bound],
) -> Result<Vec<Append, A>, AllocError> {
    let mut appends = Vec::new(alloc);
    for x in told {
        if let Event::Call(CallEvent::Queue(id, to, class, _, _)) = x.event {
            let until = until_at(bounds, appends.len());
            appends.push(Append {
                to,
                id,
                class,
                low: own_moment(x),
                until,
                again: END,
                is_begun: false,
            })?;
        }
    }
    note_again(alloc, appends.as_mut_slice())?;
    Ok(appends)
}

/// What is known of the calls up to an event.
#[derive(Drop)]
struct Matching<A: Allocator> {
    /// The appends whose calls are not begun.
    waiting: Vec<usize, A>,
    /// The calls that have begun.
    runs: Vec<Run, A>,
    /// Which of these each CPU runs.
    open: [Option<usize>; 512],
    /// The last line of each CPU behind which its take has to be.
    floors: [Moment; 512],
    /// How many lines have been passed.
    passed: usize,
}

/// Whether a line is one behind which a take of its CPU has to be: the interrupt is entered, or a phase of a stop acknowledged.
fn is_floor(mark: &Mark) -> bool {
    matches!(mark.sign, Sign::Interrupt | Sign::Stop(StopSign::Ack(_)))
}

/// Passes the lines before a moment.
fn pass_lines<A: Allocator>(matching: &mut Matching<A>, marks: &[Mark], until: Moment) {
    for i in matching.passed..marks.len() {
        let own = stamp_moment(&marks[i].at);
        if !is_before(own, until) {
            break;
        }
        if is_floor(&marks[i]) {
            put(&mut matching.floors, marks[i].at.cpu, own);
        }
        matching.passed = i + 1;
    }
}

/// The place of the first append that waits of this record and CPU; the number of those where there is none.
fn waiting_place(waiting: &[usize], appends: &[Append], id: u16, cpu: u32) -> usize {
    for i in 0..waiting.len() {
        let append = append_at(appends, waiting[i]);
        if append.id == id && append.to == cpu {
            return i;
        }
    }
    waiting.len()
}

/// A call begins whose append is at this place.
fn begin_of<A: Allocator>(
    matching: &mut Matching<A>,
    appends: &mut [Append],
    told: &Told,
    place: usize,
) -> Result<(), AllocError> {
    let begin = own_moment(told);
    let mut append = append_at(appends, place);
    append.is_begun = true;
    if is_before(begin, append.until) {
        append.until = begin;
    }
    if place < appends.len() {
        appends[place] = append;
    }
    put(&mut matching.open, told.cpu, Some(matching.runs.len()));
    matching.runs.push(Run {
        cpu: told.cpu,
        append: place,
        class: append.class,
        low: append.low,
        until: append.until,
        begin,
        end: END,
        floor: at(&matching.floors, told.cpu, START),
        again: append.again,
    })?;
    Ok(())
}

/// A call begins.
fn begin<A: Allocator>(
    matching: &mut Matching<A>,
    appends: &mut [Append],
    told: &Told,
    id: u16,
) -> Result<(), AllocError> {
    let place = waiting_place(matching.waiting.as_slice(), appends, id, told.cpu);
    if place < matching.waiting.len() {
        let append = matching.waiting.remove(place);
        return begin_of(matching, appends, told, append);
    }
    put(&mut matching.open, told.cpu, None);
    Ok(())
}

/// A call is over.
fn end<A: Allocator>(matching: &mut Matching<A>, told: &Told) {
    if let Some(place) = at(&matching.open, told.cpu, None) {
        if place < matching.runs.len() {
            matching.runs[place].end = own_moment(told);
        }
    }
}

/// The calls that begin, in their order, each with its append.
pub(crate) fn runs_of<A: Allocator + Copy>(
    alloc: A,
    marks: &[Mark],
    told: &[Told],
    appends: &mut [Append],
) -> Result<Vec<Run, A>, AllocError> {
    let mut matching = Matching {
        waiting: Vec::new(alloc),
        runs: Vec::new(alloc),
        open: [None; 512],
        floors: [START; 512],
        passed: 0,
    };
    let mut queued = 0usize;
    for x in told {
        pass_lines(&mut matching, marks, own_moment(x));
        match x.event {
            Event::Call(CallEvent::Queue(..)) => {
                matching.waiting.push(queued)?;
                queued = queued.saturating_add(1);
            }
            Event::Call(CallEvent::Begin(id, _, _)) => begin(&mut matching, appends, x, id)?,
            Event::Call(CallEvent::End(_)) => end(&mut matching, x),
            _ => {}
        }
    }
    Ok(matching.runs)
}
