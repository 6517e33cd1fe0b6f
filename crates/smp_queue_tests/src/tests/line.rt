//! Worked cases on one thread, as lines: which CPU does what, and what it is answered.

use super::handling::Recorder;
use super::*;

/// The place of a CPU among those of the case, what it does, and what is to be seen.
pub type Line = (usize, Act);

#[derive(Copy, Clone)]
pub enum Act {
    /// It posts a call by this record to this CPU, of this class, with this number of tries.
    Post(u32, u32, Class, u32, Result<bool, SmpError>),
    /// It posts a call of this function by one try.
    Call(u32, u32, Class, u16, Result<bool, SmpError>),
    /// It posts a call, and tries until it is queued.
    Queue(u32, u32, Result<bool, SmpError>),
    /// It asks whether the record is confirmed.
    Done(u32, Result<bool, SmpError>),
    Send(u32, Result<(), SmpError>),
    Handle(Handled),
    /// The number of calls that it has queued for this CPU, and the number from this CPU that it has run.
    Tally(u32, (u64, u64)),
}

impl Act {
    /// Whether it goes so.
    fn goes<R: Wait>(&self, rt: &R, cpu: &mut Driver, heard: &mut Recorder) -> bool {
        match *self {
            Act::Post(k, to, class, tries, answer) => {
                cpu.try_call(k, to, class, tries) == answer
            }
            Act::Call(k, to, class, func, answer) => cpu.call(k, to, class, func) == answer,
            Act::Queue(k, to, answer) => cpu.post_at_any_time(rt, k, to) == answer,
            Act::Done(k, answer) => cpu.is_done(k) == answer,
            Act::Send(to, answer) => cpu.send(to) == answer,
            Act::Handle(handled) => cpu.handle(heard) == handled,
            Act::Tally(other, counts) => cpu.tally(other) == counts,
        }
    }
}

/// The part and the index there of the first line that goes another way.
fn first_fault<R: Wait>(
    rt: &R,
    drivers: &mut [Driver],
    heard: &mut Recorder,
    parts: &[&[Line]],
) -> Option<(usize, usize)> {
    for (part, lines) in parts.iter().enumerate() {
        for (i, (cpu, act)) in lines.iter().enumerate() {
            let is_so = match drivers.get_mut(*cpu) {
                Some(driver) => act.goes(rt, driver, heard),
                None => false,
            };
            if !is_so {
                return Some((part, i));
            }
        }
    }
    None
}

/// The first line that goes another way; where there is none, whether these calls were heard and no others.
fn first_fault_or_call<R: Wait>(
    rt: &R,
    alloc: Global,
    mut drivers: Vec<Driver, Global>,
    parts: &[&[Line]],
    calls: &[(u32, u16, u64)],
) -> Option<(usize, usize)> {
    let mut heard = Recorder::new(alloc);
    let fault = first_fault(rt, drivers.as_mut_slice(), &mut heard, parts);
    if fault.is_none() && !heard.has_heard(calls) {
        return Some((parts.len(), 0));
    }
    fault
}

/// The table of a case, and those of its CPUs that play.
#[derive(Copy, Clone)]
pub struct Case<'a> {
    pub nr: u32,
    pub online: &'a str,
    pub cpus: &'a [u32],
}

/// Plays the parts of a case, one after the other, on a new table, on which these calls are heard and no others. It answers the
/// part and the index there of the first line that goes another way, or the number of parts where other calls are heard.
pub fn play<R: Wait>(
    rt: &R,
    alloc: Global,
    case: Case<'_>,
    parts: &[&[Line]],
    calls: &[(u32, u16, u64)],
) -> Result<Option<(usize, usize)>, SmpError> {
    let (table, boot) = CallTable::new(alloc, case.nr, case.online.parse()?)?;
    let drivers = Room::new(&table, boot).drive_all(alloc, case.cpus)?;
    Ok(first_fault_or_call(rt, alloc, drivers, parts, calls))
}

/// As `play`, where no call runs: what an audit with this CPU, which is none of those that play, then says.
pub fn audit_after<R: Wait>(
    rt: &R,
    alloc: Global,
    case: Case<'_>,
    last: u32,
    lines: &[Line],
) -> Result<(Option<(usize, usize)>, Audit), SmpError> {
    let (table, mut boot) = CallTable::new(alloc, case.nr, case.online.parse()?)?;
    let last = seat(&table, &mut boot, last)?;
    let drivers = Room::new(&table, boot).drive_all(alloc, case.cpus)?;
    let fault = first_fault_or_call(rt, alloc, drivers, &[lines], &[]);
    Ok((fault, audit_by(table, last)))
}
