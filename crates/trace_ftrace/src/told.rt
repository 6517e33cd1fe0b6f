//! The events that marks tell.

ghost use Rattle.std.specs.Prelude.{◌≡◌, ◌≤◌, ◌<◌, Ok, Err, length, MatchResult, IfSome};
ghost use Rattle.trace_ftrace.specs.Marks.{Keeps};
ghost use Rattle.trace_ftrace.specs.Told.{above, begun, cpus_of, ended, known, mark_told, marks_told, more_cpus, no_records};
ghost use Rattle.trace_ftrace.specs.Told.{queued, recorded, with_told, Numbers};
ghost use Rattle.trace_ftrace.specs.Telling.{with_event};
ghost use Rattle.trace_ftrace.specs.ToldView.{telling_value};

use crate::kept::{Mark, Stamp};
use crate::per_cpu::{at, put};
use crate::records::Records;
use crate::sign::{Sign, class_of};
use crate::stop_told::tell_stop_mark;
use crate::stops::OpenStop;
use crate::wrong::{Refusal, Wrong};
use smp_words::call::Class;
use std::alloc::Allocator;
use trace_model::{CallEvent, Event};

/// An event, with its CPU, and the number and the time of the line that tells it.
#[derive(Clone, Copy, Debug, PartialEq, Eq)]
pub struct Told {
    pub line: u32,
    pub cpu: u32,
    /// In nanoseconds, or in whatever unit the clock counts.
    pub time: u128,
    pub event: Event,
}

/// What marks tell up to one.
#[derive(Drop)]
pub struct Telling<A: Allocator> {
    /// The addresses of the records, by their numbers.
    pub addresses: Records<A>,
    /// The events, in the order of their lines.
    pub told: Vec<Told, A>,
    /// The record whose call each CPU runs.
    pub(crate) running: [Option<u16>; 512],
    /// How many CPUs there are, and so how many stops can be open.
    pub(crate) cpus: u32,
    /// The stops that are open, as they were opened.
    pub(crate) stops: Vec<OpenStop, A>,
    /// The number of the rendezvous in which each CPU is.
    pub(crate) inside: [Option<u32>; 512],
    /// The number of the stop of each CPU alone that it runs.
    pub(crate) alone: [Option<u32>; 512],
}

/// The number of the record at this address, which has one from here on.
#[tactic(auto, unfolding(crate::specs::Told::recorded))]
fn recorded<A: Allocator + Copy>(
    telling: &mut Telling<A>,
    line: u32,
    address: u64,
) -> Result<u16, Refusal>
    requires { length telling.old.addresses ≤ 65536 }
    ensures made { Numbers result (telling_value telling.new) (recorded line address (telling_value telling.old)) }
    ensures few { length telling.new.addresses ≤ 65536 }
{
    if let Some(place) = telling.addresses.place(address) {
        return Ok(place as u16);
    }
    let count = telling.addresses.as_slice().len();
    if count >= 65536 {
        return Err(Refusal::Wrong(line, Wrong::Records));
    }
    match telling.addresses.push(address) {
        Ok(()) => Ok(count as u16),
        Err(_) => Err(Refusal::NoMemory),
    }
}

/// Tells an event behind the others.
pub(crate) fn tell<A: Allocator>(
    telling: &mut Telling<A>,
    stamp: Stamp,
    event: Event,
) -> Result<(), Refusal>
    ensures made { Keeps result (telling_value telling.new) (Ok (with_event stamp event (telling_value telling.old))) }
    ensures same { telling.new.addresses ≡ telling.old.addresses }
{
    let Stamp {
        line,
        cpu,
        time,
        ..
    } = stamp;
    let told = Told {
        line,
        cpu,
        time,
        event,
    };
    match telling.told.push(told) {
        Ok(()) => Ok(()),
        Err(_) => Err(Refusal::NoMemory),
    }
}

/// Tells an event of calls behind the others.
fn tell_call<A: Allocator>(
    telling: &mut Telling<A>,
    mark: &Mark,
    event: CallEvent,
) -> Result<(), Refusal>
    ensures made { Keeps result (telling_value telling.new) (Ok (with_told mark.now event (telling_value telling.old))) }
    ensures same { telling.new.addresses ≡ telling.old.addresses }
{
    tell(telling, mark.at, Event::Call(event))
}

/// Tells that a call joins a queue.
#[tactic(auto, unfolding(crate::specs::Told::queued))]
fn tell_queue<A: Allocator + Copy>(
    telling: &mut Telling<A>,
    mark: &Mark,
    to: u32,
    address: u64,
    class: Class,
) -> Result<(), Refusal>
    requires { length telling.old.addresses ≤ 65536 }
    ensures made { Keeps result (telling_value telling.new) (queued mark.now to address class (telling_value telling.old)) }
    ensures few { length telling.new.addresses ≤ 65536 }
{
    let id = match recorded(telling, mark.at.line, address) {
        Ok(id) => id,
        Err(why) => return Err(why),
    };
    tell_call(telling, mark, CallEvent::Queue(id, to, class, mark.func, 0))
}

/// The number of the record at this address, where it has been queued before.
#[tactic(auto, unfolding(crate::specs::Told::known))]
fn known<A: Allocator>(telling: &Telling<A>, address: u64) -> Option<u16>
    requires { length telling.now.addresses ≤ 65536 }
    ensures { result ≡ known address (telling_value telling.now) }
{
    match telling.addresses.place(address) {
        Some(place) => Some(place as u16),
        None => None,
    }
}

/// Tells that the function of a record's call is entered; nothing of a record that was queued before the first line.
#[tactic(auto, unfolding(crate::specs::Told::begun))]
fn tell_begin<A: Allocator>(
    telling: &mut Telling<A>,
    mark: &Mark,
    address: u64,
) -> Result<(), Refusal>
    requires { length telling.old.addresses ≤ 65536 }
    ensures made { Keeps result (telling_value telling.new) (Ok (begun mark.now address (telling_value telling.old))) }
    ensures same { telling.new.addresses ≡ telling.old.addresses }
{
    let Some(id) = known(telling, address) else {
        return Ok(());
    };
    put(&mut telling.running, mark.at.cpu, Some(id));
    tell_call(telling, mark, CallEvent::Begin(id, mark.func, 0))
}

/// Tells that the function of this record's call has returned; nothing of none.
#[tactic(auto, unfolding(crate::specs::Told::ended))]
fn tell_end<A: Allocator>(
    telling: &mut Telling<A>,
    mark: &Mark,
    ran: Option<u16>,
) -> Result<(), Refusal>
    ensures made { Keeps result (telling_value telling.new) (Ok (ended mark.now ran (telling_value telling.old))) }
    ensures same { telling.new.addresses ≡ telling.old.addresses }
{
    put(&mut telling.running, mark.at.cpu, None);
    match ran {
        Some(id) => tell_call(telling, mark, CallEvent::End(id)),
        None => Ok(()),
    }
}

/// Tells the events of a mark, with the marks behind it; none of a direct call, of what is no call, and of a record that was
/// queued before the first line.
#[tactic(auto, unfolding(crate::specs::Told::mark_told))]
fn tell_mark<A: Allocator + Copy>(
    telling: &mut Telling<A>,
    mark: &Mark,
    behind: &[Mark],
) -> Result<(), Refusal>
    requires { length telling.old.addresses ≤ 65536 }
    ensures made { Keeps result (telling_value telling.new) (mark_told mark.now behind.now (telling_value telling.old)) }
    ensures few { length telling.new.addresses ≤ 65536 }
{
    match mark.sign {
        Sign::Queue(to, address, sort, _) => match class_of(sort) {
            Some(class) => tell_queue(telling, mark, to, address, class),
            None => Ok(()),
        },
        Sign::Class(..) | Sign::Direct | Sign::Interrupt | Sign::Probe | Sign::Passed => Ok(()),
        Sign::Begin(address) => tell_begin(telling, mark, address),
        Sign::End(address) => {
            let ran = known(telling, address);
            tell_end(telling, mark, ran)
        }
        Sign::EndLast => {
            let ran = at(&telling.running, mark.at.cpu, None);
            tell_end(telling, mark, ran)
        }
        Sign::Stop(sign) if mark.at.cpu < 32 => tell_stop_mark(telling, mark.at, sign, behind),
        Sign::Stop(_) => Err(Refusal::Wrong(mark.at.line, Wrong::Cpu)),
    }
}

/// One more than a CPU, or this number where that is more.
fn above(cpus: u32, cpu: u32) -> u32
    ensures { result ≡ above cpus cpu }
{
    if cpu < cpus {
        cpus
    } else {
        cpu.saturating_add(1)
    }
}

/// The number of CPUs with those that a mark names.
fn more_cpus(cpus: u32, mark: &Mark) -> u32
    ensures { result ≡ more_cpus cpus mark.now }
{
    let cpus = above(cpus, mark.at.cpu);
    match mark.sign {
        Sign::Queue(to, _, _, _) => above(cpus, to),
        _ => cpus,
    }
}

/// One more than the highest CPU that these marks name.
fn cpus_of(marks: &[Mark]) -> u32
    ensures { result ≡ cpus_of 0 marks.now }
{
    let mut cpus = 0;
    let mut rest = marks;
    while let [mark, after @ ..] = rest {
        cpus = more_cpus(cpus, mark);
        rest = after;
    }
    cpus
}

/// The events that marks tell.
#[tactic(auto, unfolding(crate::specs::Told::no_records))]
pub(crate) fn tell_marks<A: Allocator + Copy>(
    alloc: A,
    marks: &[Mark],
) -> Result<Telling<A>, Refusal>
    ensures { let made = marks_told marks.now (no_records (cpus_of 0 marks.now)) in
        MatchResult result (λ t. made ≡ Ok (telling_value t)) (λ why. Keeps (Err why) (no_records 0) made) }
{
    let mut telling = Telling {
        addresses: Records::new(alloc),
        told: Vec::new(alloc),
        running: [None; 512],
        cpus: cpus_of(marks),
        stops: Vec::new(alloc),
        inside: [None; 512],
        alone: [None; 512],
    };
    let mut rest = marks;
    while let [mark, after @ ..] = rest {
        match tell_mark(&mut telling, mark, after) {
            Ok(()) => {}
            Err(why) => return Err(why),
        }
        rest = after;
    }
    Ok(telling)
}
