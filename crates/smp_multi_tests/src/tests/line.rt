//! Worked cases on one thread, as lines: which CPU does what, and what it is answered.

use super::*;

/// The number of a CPU, what it does, and what is to be seen.
pub type Line = (usize, Act);

#[derive(Copy, Clone)]
pub enum Act {
    /// It tries to take the gate.
    Gate(bool),
    Open(Result<(), SmpError>),
    Begin(Work, Result<(), SmpError>),
    /// It enters the stop of this slot.
    Enter(u32, Result<Kind, SmpError>),
    /// It runs the function of a stop of one CPU.
    Run(Result<i32, SmpError>),
    Advance(Result<Turn, SmpError>),
    Finish(Result<(), SmpError>),
    /// It looks whether its stop is over.
    Poll(Result<Option<i32>, SmpError>),
    ReadKey(u32, Result<bool, SmpError>),
    ReadSite(u32, Result<SiteKind, SmpError>),
    /// It raises or lowers the count of this key.
    Nudge(u32, bool, Result<Nudge, SmpError>),
    /// Its interrupts are on, or not.
    Interrupts(bool),
    /// It is in a stop, or not.
    InStop(bool),
    /// This is the count of key 0, as its lowering and raising shows.
    Count(u64),
    /// From here on functions answer this.
    Answer(i32),
    /// The number of calls of functions since then, and the last of them.
    Called(u32, (u32, u16, u64)),
}

impl Act {
    /// Whether it goes so.
    fn goes(&self, cpu: &mut Driver, func: &mut Answerer) -> bool {
        match *self {
            Act::Gate(is_taken) => cpu.try_gate() == is_taken,
            Act::Open(answer) => cpu.open_gate() == answer,
            Act::Begin(work, answer) => cpu.begin(work) == answer,
            Act::Enter(slot, answer) => cpu.enter(slot) == answer,
            Act::Run(answer) => cpu.run_one(func) == answer,
            Act::Advance(turn) => cpu.advance(func) == turn,
            Act::Finish(answer) => cpu.finish() == answer,
            Act::Poll(answer) => cpu.poll_done() == answer,
            _ => self.is_seen(cpu, func),
        }
    }

    /// Whether what the CPU reads is as the line says.
    fn is_seen(&self, cpu: &mut Driver, func: &mut Answerer) -> bool {
        match *self {
            Act::ReadKey(k, answer) => cpu.read_key(k) == answer,
            Act::ReadSite(i, answer) => cpu.read_site(i) == answer,
            Act::Nudge(k, up, answer) => cpu.try_key(k, up) == answer,
            Act::Interrupts(are_on) => cpu.cpu.interrupts_on() == are_on,
            Act::InStop(is_in) => cpu.cpu.in_stop() == is_in,
            Act::Count(count) => cpu.count_of_key() == Ok(count),
            Act::Answer(answer) => {
                *func = Answerer::new(answer);
                true
            }
            Act::Called(calls, last) => (func.calls, func.last) == (calls, last),
            _ => false,
        }
    }
}

/// The part and the index there of the first line that goes another way.
fn first_fault(drivers: &mut [Driver], parts: &[&[Line]]) -> Option<(usize, usize)> {
    let mut func = Answerer::new(9);
    for (part, lines) in parts.iter().enumerate() {
        for (i, (cpu, act)) in lines.iter().enumerate() {
            let is_so = match drivers.get_mut(*cpu) {
                Some(driver) => act.goes(driver, &mut func),
                None => false,
            };
            if !is_so {
                return Some((part, i));
            }
        }
    }
    None
}

/// Plays the parts of a case on this number of CPUs of a table, and shows each of them to a law: the first fault.
fn play_on(
    alloc: Global,
    room: &mut Room,
    cpus: u32,
    parts: &[&[Line]],
) -> Result<Option<(usize, usize)>, SmpError> {
    let mut drivers = room.drive_all(alloc, cpus)?;
    let fault = first_fault(drivers.as_mut_slice(), parts);
    for driver in drivers.iter() {
        laws::is_shown(driver.table, &driver.cpu);
    }
    Ok(fault)
}

/// The table of a case, and how many of its CPUs play.
#[derive(Copy, Clone)]
pub struct Case<'a> {
    pub nr: u32,
    pub online: &'a str,
    pub labels: &'a LabelMap,
    pub cpus: u32,
}

/// Plays the parts of a case, one after the other, on a new table: the part and the index there of the first line that goes
/// another way. Functions answer 9.
pub fn play(
    alloc: Global,
    case: Case<'_>,
    parts: &[&[Line]],
) -> Result<Option<(usize, usize)>, SmpError> {
    let online = case.online.parse()?;
    let (table, boot) = StopTable::new(alloc, case.nr, online, case.labels)?;
    play_on(alloc, &mut Room::new(&table, boot), case.cpus, parts)
}

/// Plays a case on the CPUs of a table with no labels, which are all online: the first fault.
pub fn play_stops(
    alloc: Global,
    cpus: u32,
    parts: &[&[Line]],
) -> Result<Option<(usize, usize)>, SmpError> {
    let case = Case {
        nr: cpus,
        online: if cpus == 1 { "0" } else { "0-1" },
        labels: &LabelMap::empty(),
        cpus,
    };
    play(alloc, case, parts)
}
