//! The steps of a seat for cross-CPU calls.

ghost use Rattle.std.specs.Prelude.{◌≡◌};
ghost use Rattle.smp_multi.specs.Cpu.{IsAt};
ghost use Rattle.smp_tables_c.specs.Calls.{AsksDone, DoneBy, GoesOn, Handles, IsNextAt, PostBy, Posts, Resumes, SendBy, Sends};

use crate::place::CpuPlace;
use crate::record::SmpCall;
use crate::seat::OwnedSeat;
use crate::status::{CLOSED, INSIDE, OUTSIDE, status, yes};
use smp_multi::StopCpu;
use smp_queue::{CallCpu, CallTable, Next};
use smp_words::call::Class;
use std::alloc::Global;
use std::mem;

/// A call that is to be queued.
#[derive(Clone, Copy)]
pub struct Posting {
    /// The own record that carries it.
    pub k: u32,
    /// The CPU that is to run it.
    pub to: u32,
    pub class: Class,
    pub func: u16,
    pub info: u64,
    /// How many compare-exchanges may be tried.
    pub tries: u32,
}

/// Queues a call, and tells it by a number.
fn post_by(calls: &CallTable<Global>, me: &mut CallCpu, call: Posting) -> i32
    requires { me.old.table ≡ calls.now.table }
    ensures by { PostBy calls.now call.k call.to call.class call.func call.info call.tries me.old me.new result }
    ensures table { me.new.table ≡ calls.now.table }
{
    let Posting {
        k,
        to,
        class,
        func,
        info,
        tries,
    } = call;
    yes(calls.post_within(me, k, to, class, func, info, tries))
}

/// Sends an interrupt, and tells it by a number.
fn send_by(calls: &CallTable<Global>, me: &mut CallCpu, to: u32) -> i32
    requires { me.old.table ≡ calls.now.table }
    ensures by { SendBy calls.now to me.old me.new result }
    ensures table { me.new.table ≡ calls.now.table }
{
    status(calls.interrupt(me, to))
}

/// Looks whether a record is free, and tells it by a number.
fn done_by(calls: &CallTable<Global>, me: &mut CallCpu, k: u32) -> i32
    requires { me.old.table ≡ calls.now.table }
    ensures by { DoneBy calls.now k me.old me.new result }
    ensures table { me.new.table ≡ calls.now.table }
{
    yes(calls.is_done(me, k))
}

impl OwnedSeat {
    /// Queues a call: 1 where an interrupt is owed, 0 where none is, or the number of a refusal.
    pub fn post(&mut self, call: Posting) -> i32
        ensures { Posts call.k call.to call.class call.func call.info call.tries result self.old self.new }
    {
        match &mut self.place {
            CpuPlace::Out(me, _) => post_by(&self.calls, me, call),
            CpuPlace::InCall(..) | CpuPlace::InStop(..) => INSIDE,
            CpuPlace::Moving => CLOSED,
        }
    }

    /// Sends an interrupt: 0, or the number of a refusal.
    pub fn send(&mut self, to: u32) -> i32
        ensures { Sends to result self.old self.new }
    {
        match &mut self.place {
            CpuPlace::Out(me, _) => send_by(&self.calls, me, to),
            CpuPlace::InCall(..) | CpuPlace::InStop(..) => INSIDE,
            CpuPlace::Moving => CLOSED,
        }
    }

    /// Whether a record is free: 1 or 0, or the number of a refusal.
    pub fn is_done(&mut self, k: u32) -> i32
        ensures { AsksDone k result self.old self.new }
    {
        match &mut self.place {
            CpuPlace::Out(me, _) => done_by(&self.calls, me, k),
            CpuPlace::InCall(..) | CpuPlace::InStop(..) => INSIDE,
            CpuPlace::Moving => CLOSED,
        }
    }

    /// Goes on with what has come next of its calls.
    fn go_on(&mut self, next: Next, stop: StopCpu, call: &mut SmpCall) -> i32
        requires next { IsNextAt self.old.calls next }
        requires stop { IsAt self.old.stops stop }
        ensures { GoesOn self.old self.new call.old call.new result stop next }
    {
        match next {
            Next::Idle(me) => {
                self.place = CpuPlace::Out(me, stop);
                0
            }
            Next::Run(serving) => {
                *call = SmpCall::of(serving.call());
                self.place = CpuPlace::InCall(serving, stop);
                1
            }
            Next::Done(me) => {
                self.place = CpuPlace::Out(me, stop);
                2
            }
        }
    }

    /// Takes the interrupt and the queue, and hands out the first call: 0 where there was no interrupt, 1 with the call that
    /// is out, 2 where the queue was empty, or the number of a refusal.
    pub fn handle(&mut self, call: &mut SmpCall) -> i32
        ensures { Handles call.old call.new result self.old self.new }
    {
        match mem::replace(&mut self.place, CpuPlace::Moving) {
            CpuPlace::Out(me, stop) => {
                let next = self.calls.begin_handle(me);
                self.go_on(next, stop, call)
            }
            CpuPlace::Moving => CLOSED,
            place => {
                self.place = place;
                INSIDE
            }
        }
    }

    /// The call that is out has run, and the next one is handed out: 1 with that call, 2 where none is left, or the number
    /// of a refusal.
    pub fn resume(&mut self, call: &mut SmpCall) -> i32
        ensures { Resumes call.old call.new result self.old self.new }
    {
        match mem::replace(&mut self.place, CpuPlace::Moving) {
            CpuPlace::InCall(serving, stop) => {
                let next = self.calls.resume(serving);
                self.go_on(next, stop, call)
            }
            CpuPlace::Out(me, stop) => {
                self.place = CpuPlace::Out(me, stop);
                OUTSIDE
            }
            CpuPlace::Moving => CLOSED,
            place => {
                self.place = place;
                INSIDE
            }
        }
    }
}
