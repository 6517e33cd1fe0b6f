//! The steps of a seat for stops, keys and sites.

ghost use Rattle.std.specs.Prelude.{◌≡◌, pos};
ghost use Rattle.smp_words.specs.Kinds.{kind_word};
ghost use Rattle.smp_multi.specs.Cpu.{IsAt};
ghost use Rattle.smp_tables_c.specs.Stops.{AnswersStop, Begins, EntersStop, Finishes, HandsOut, IsTurnedAt, OpensGate, Polls};
ghost use Rattle.smp_tables_c.specs.Stops.{BeginBy, EnterBy, FinishBy, GateBy, GiveBy, KeyBy, NudgeBy, PollBy, SiteBy};
ghost use Rattle.smp_tables_c.specs.Stops.{ReadsKey, ReadsSite, TriesGate, TriesKey, Turns, TurnsOn, nudge_or, site_or};

use crate::place::CpuPlace;
use crate::record::SmpCall;
use crate::seat::OwnedSeat;
use crate::status::{CLOSED, INSIDE, OUTSIDE, number, status, yes};
use smp_labels::SiteKind;
use smp_mask::SmpError;
use smp_multi::{Answering, Nudge, StopCpu, StopTable, Turned};
use smp_queue::CallCpu;
use smp_words::work::{Kind, Work};
use std::alloc::Global;
use std::mem;

/// The number of a kind.
fn kind_number(kind: Kind) -> i32
    ensures { result ≡ pos (kind_word kind) }
{
    match kind {
        Kind::One => 0,
        Kind::Multi => 1,
        Kind::Patch => 2,
    }
}

/// 1 for a jump, 0 for a NOP, or the number of a refusal.
fn site_number(answer: Result<SiteKind, SmpError>) -> i32
    ensures { result ≡ site_or answer }
{
    match answer {
        Ok(SiteKind::Nop) => 0,
        Ok(SiteKind::Jmp) => 1,
        Err(error) => number(error),
    }
}

/// The number of what a try has done, or of a refusal.
fn nudge_number(answer: Result<Nudge, SmpError>) -> i32
    ensures { result ≡ nudge_or answer }
{
    match answer {
        Ok(Nudge::Done) => 0,
        Ok(Nudge::Lost) => 1,
        Ok(Nudge::Stop) => 2,
        Err(error) => number(error),
    }
}

/// Tries the gate, and tells it by a number.
fn gate_by(stops: &StopTable<Global>, stop: &mut StopCpu) -> i32
    requires { IsAt stops.now stop.old }
    ensures by { GateBy stop.old stop.new result }
    ensures at { IsAt stops.now stop.new }
{
    i32::from(stops.try_gate(stop))
}

/// Gives the gate up, and tells it by a number.
fn give_by(stops: &StopTable<Global>, stop: &mut StopCpu) -> i32
    requires { IsAt stops.now stop.old }
    ensures by { GiveBy stop.old stop.new result }
    ensures at { IsAt stops.now stop.new }
{
    status(stops.open_gate(stop))
}

/// Begins a stop, and tells it by a number.
fn begin_by(stops: &StopTable<Global>, stop: &mut StopCpu, work: Work) -> i32
    requires { IsAt stops.now stop.old }
    ensures by { BeginBy stops.now work stop.old stop.new result }
    ensures at { IsAt stops.now stop.new }
{
    status(stops.begin(stop, work))
}

/// Enters the stop of a slot, keeps the slot, and tells it by a number.
fn enter_by(stops: &StopTable<Global>, stop: &mut StopCpu, slot: u32, kept: &mut u32) -> i32
    requires { IsAt stops.now stop.old }
    ensures by { EnterBy stops.now slot stop.old stop.new kept.old kept.new result }
    ensures at { IsAt stops.now stop.new }
{
    match stops.enter(stop, slot) {
        Ok(kind) => {
            *kept = slot;
            kind_number(kind)
        }
        Err(error) => number(error),
    }
}

/// Completes a stop, and tells it by a number.
fn finish_by(stops: &StopTable<Global>, stop: &mut StopCpu) -> i32
    requires { IsAt stops.now stop.old }
    ensures by { FinishBy stop.old stop.new result }
    ensures at { IsAt stops.now stop.new }
{
    status(stops.finish(stop))
}

/// Polls for the own stop, and tells it by a number.
fn poll_by(stops: &StopTable<Global>, stop: &mut StopCpu, answer: &mut i32) -> i32
    requires { IsAt stops.now stop.old }
    ensures by { PollBy answer.old answer.new stop.old stop.new result }
    ensures at { IsAt stops.now stop.new }
{
    match stops.poll_done(stop) {
        Ok(Some(found)) => {
            *answer = found;
            1
        }
        Ok(None) => 0,
        Err(error) => number(error),
    }
}

/// Reads a key, and tells it by a number.
fn key_by(stops: &StopTable<Global>, stop: &mut StopCpu, k: u32) -> i32
    requires { IsAt stops.now stop.old }
    ensures by { KeyBy k stop.old stop.new result }
    ensures at { IsAt stops.now stop.new }
{
    yes(stops.read_key(stop, k))
}

/// Reads a site, and tells it by a number.
fn site_by(stops: &StopTable<Global>, stop: &mut StopCpu, i: u32) -> i32
    requires { IsAt stops.now stop.old }
    ensures by { SiteBy i stop.old stop.new result }
    ensures at { IsAt stops.now stop.new }
{
    site_number(stops.read_site(stop, i))
}

/// Tries to move the count of a key, and tells it by a number.
fn nudge_by(stops: &StopTable<Global>, stop: &mut StopCpu, k: u32, up: bool) -> i32
    requires { IsAt stops.now stop.old }
    ensures by { NudgeBy k up stop.old stop.new result }
    ensures at { IsAt stops.now stop.new }
{
    nudge_number(stops.try_key(stop, k, up))
}

impl OwnedSeat {
    /// Takes the gate: 1 where it has, 0 where a CPU holds it.
    pub fn try_gate(&mut self) -> i32
        ensures { TriesGate result self.old self.new }
    {
        match &mut self.place {
            CpuPlace::Out(_, stop) => gate_by(&self.stops, stop),
            CpuPlace::InCall(..) | CpuPlace::InStop(..) => INSIDE,
            CpuPlace::Moving => CLOSED,
        }
    }

    /// Gives the gate up: 0, or the number of a refusal.
    pub fn open_gate(&mut self) -> i32
        ensures { OpensGate result self.old self.new }
    {
        match &mut self.place {
            CpuPlace::Out(_, stop) => give_by(&self.stops, stop),
            CpuPlace::InCall(..) | CpuPlace::InStop(..) => INSIDE,
            CpuPlace::Moving => CLOSED,
        }
    }

    /// Opens the slot of its CPU for a stop: 0, or the number of a refusal.
    pub fn begin(&mut self, work: Work) -> i32
        ensures { Begins work result self.old self.new }
    {
        match &mut self.place {
            CpuPlace::Out(_, stop) => begin_by(&self.stops, stop, work),
            CpuPlace::InCall(..) | CpuPlace::InStop(..) => INSIDE,
            CpuPlace::Moving => CLOSED,
        }
    }

    /// Enters the stop of a slot: its kind, or the number of a refusal.
    pub fn enter(&mut self, slot: u32) -> i32
        ensures { EntersStop slot result self.old self.new }
    {
        match &mut self.place {
            CpuPlace::Out(_, stop) => enter_by(&self.stops, stop, slot, &mut self.slot),
            CpuPlace::InCall(..) | CpuPlace::InStop(..) => INSIDE,
            CpuPlace::Moving => CLOSED,
        }
    }

    /// The function of a stop is out.
    fn hand_out(&mut self, me: CallCpu, answering: Answering, call: &mut SmpCall) -> i32
        requires me { me.table ≡ self.old.calls.table }
        requires stop { IsAt self.old.stops answering.cpu }
        ensures { HandsOut self.old self.new call.old call.new result me answering }
    {
        *call = SmpCall {
            info: answering.arg(),
            src: self.slot,
            func: u32::from(answering.func()),
        };
        self.place = CpuPlace::InStop(me, answering);
        1
    }

    /// Goes on after a turn.
    fn turn_on(&mut self, me: CallCpu, turned: Result<Turned, StopCpu>, call: &mut SmpCall) -> i32
        requires me { me.table ≡ self.old.calls.table }
        requires stop { IsTurnedAt self.old.stops turned }
        ensures { TurnsOn self.old self.new call.old call.new result me turned }
    {
        let (stop, told) = match turned {
            Ok(Turned::Same(stop)) => (stop, 0),
            Ok(Turned::Moved(stop, _)) => (stop, 2),
            Ok(Turned::Left(stop)) => (stop, 3),
            Ok(Turned::Ran(stop)) => (stop, 4),
            Ok(Turned::Call(answering)) => return self.hand_out(me, answering, call),
            Err(stop) => (stop, number(SmpError::BadArgument)),
        };
        self.place = CpuPlace::Out(me, stop);
        told
    }

    /// A turn of the stop that it is in: 0 nothing new, 1 with the function that is out, 2 a phase, 3 the last phase,
    /// 4 its patch, or the number of a refusal.
    pub fn turn(&mut self, call: &mut SmpCall) -> i32
        ensures { Turns call.old call.new result self.old self.new }
    {
        match mem::replace(&mut self.place, CpuPlace::Moving) {
            CpuPlace::Out(me, stop) => match self.stops.begin_one(stop) {
                Ok(answering) => self.hand_out(me, answering, call),
                Err(stop) => {
                    let turned = self.stops.turn(stop);
                    self.turn_on(me, turned, call)
                }
            },
            CpuPlace::Moving => CLOSED,
            place => {
                self.place = place;
                INSIDE
            }
        }
    }

    /// The function of the stop that is out has given this answer: 0, or the number of a refusal.
    pub fn answer(&mut self, answer: i32) -> i32
        ensures { AnswersStop answer result self.old self.new }
    {
        match mem::replace(&mut self.place, CpuPlace::Moving) {
            CpuPlace::InStop(me, answering) => {
                let stop = self.stops.answer(answering, answer);
                self.place = CpuPlace::Out(me, stop);
                0
            }
            CpuPlace::Out(me, stop) => {
                self.place = CpuPlace::Out(me, stop);
                OUTSIDE
            }
            CpuPlace::Moving => CLOSED,
            place => {
                self.place = place;
                INSIDE
            }
        }
    }

    /// Completes the stop that it has left: 0, or the number of a refusal.
    pub fn finish(&mut self) -> i32
        ensures { Finishes result self.old self.new }
    {
        match &mut self.place {
            CpuPlace::Out(_, stop) => finish_by(&self.stops, stop),
            CpuPlace::InCall(..) | CpuPlace::InStop(..) => INSIDE,
            CpuPlace::Moving => CLOSED,
        }
    }

    /// Whether its own stop is complete: 1 with its result, 0 not yet, or the number of a refusal.
    pub fn poll_done(&mut self, answer: &mut i32) -> i32
        ensures { Polls answer.old answer.new result self.old self.new }
    {
        match &mut self.place {
            CpuPlace::Out(_, stop) => poll_by(&self.stops, stop, answer),
            CpuPlace::InCall(..) | CpuPlace::InStop(..) => INSIDE,
            CpuPlace::Moving => CLOSED,
        }
    }

    /// Whether a key is on: 1 or 0, or the number of a refusal.
    pub fn read_key(&mut self, k: u32) -> i32
        ensures { ReadsKey k result self.old self.new }
    {
        match &mut self.place {
            CpuPlace::Out(_, stop) => key_by(&self.stops, stop, k),
            CpuPlace::InCall(..) | CpuPlace::InStop(..) => INSIDE,
            CpuPlace::Moving => CLOSED,
        }
    }

    /// What a site is: 1 a jump, 0 a NOP, or the number of a refusal.
    pub fn read_site(&mut self, i: u32) -> i32
        ensures { ReadsSite i result self.old self.new }
    {
        match &mut self.place {
            CpuPlace::Out(_, stop) => site_by(&self.stops, stop, i),
            CpuPlace::InCall(..) | CpuPlace::InStop(..) => INSIDE,
            CpuPlace::Moving => CLOSED,
        }
    }

    /// Moves the count of a key by one: 0 done, 1 lost, 2 it takes a stop, or the number of a refusal.
    pub fn try_key(&mut self, k: u32, up: bool) -> i32
        ensures { TriesKey k up result self.old self.new }
    {
        match &mut self.place {
            CpuPlace::Out(_, stop) => nudge_by(&self.stops, stop, k, up),
            CpuPlace::InCall(..) | CpuPlace::InStop(..) => INSIDE,
            CpuPlace::Moving => CLOSED,
        }
    }
}
