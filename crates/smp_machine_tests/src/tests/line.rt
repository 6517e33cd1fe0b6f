//! Worked cases as lines: what a CPU does, and what it is answered.

ghost use Rattle.smp_machine.specs.Seats.{IsSameSeat};

use super::hall::Hall;
use super::member::{Member, Room, SLOW};
use super::*;
use crossbeam_utils::Backoff;
use smp_labels::SiteKind;
use smp_labels::SiteKind::{Jmp, Nop};
use smp_multi::Turn;

#[derive(Copy, Clone)]
pub enum Act {
    /// It stops this CPU for this function.
    One(u32, u16, Result<i32, SmpError>),
    Two(u32, u32, u16, Result<i32, SmpError>),
    /// It stops the CPU after it, the first after the last, for a function that answers 9: alone, or with itself.
    OneNext,
    TwoNext,
    /// It stops the machine for this function with this argument, on these CPUs.
    All(u16, u64, Option<CpuMask>, Result<i32, SmpError>),
    Set(u32, bool, Result<bool, SmpError>),
    /// It sets the key, with a stop or without one, and reads it so.
    SetTo(u32, bool),
    Inc(u32, Result<bool, SmpError>),
    Dec(u32, Result<bool, SmpError>),
    /// It raises or lowers the count of this key, with a stop or without one.
    Count(u32, bool),
    /// It calls this CPU, and waits for the end of the call or does not.
    Single(u32, bool, Result<(), SmpError>),
    /// It calls CPU 0 for this user.
    ByUser(u32, Result<(), SmpError>),
    Any(CpuMask, Result<u32, SmpError>),
    Many(CpuMask, Result<CpuMask, SmpError>),
    /// It calls those of these CPUs for which this is said.
    Each(CpuMask, bool, Result<CpuMask, SmpError>),
    /// It calls a slow function on this CPU, or on these, and waits: all have run it to its end then.
    SlowSingle(u32),
    SlowMany(CpuMask),
    SlowEach(CpuMask),
    /// It calls a slow function on this CPU, and does not wait.
    SlowLater(u32),
    TakeWork(bool),
    /// It tries to take a work until there is one.
    AwaitWork,
    Turn(Turn),
    Poll,
    /// It polls, and sleeps where there was nothing.
    Rest,
    /// It makes turns in which nothing goes on, until it has heard this number of calls.
    Hears(u32),
    Key(u32, Result<bool, SmpError>),
    Site(u32, Result<SiteKind, SmpError>),
    /// The key and its two sites are read as those of a key that is on or off.
    Reads(u32, bool),
    /// The key and its two sites, read twice, are those of one lawful table.
    Agrees(u32),
    /// The number of calls that it has heard, and the last of them.
    Heard(u32, (u32, u16, u64)),
    /// The number of times that its stop function was called.
    Calls(u32),
    /// Stop functions have run so since the last question: see [`Hall::runs`].
    Runs(u64),
    /// It raises the flag by one.
    Raise,
    /// It raises the flag by one, and waits until two CPUs are here.
    Meet,
    /// It takes some time.
    Linger,
}

impl Act {
    /// Whether it goes so.
    fn goes<R: Wait>(&self, me: &mut Member<'_, '_, R>) -> bool
        ensures { IsSameSeat me.old me.new }
    {
        match *self {
            Act::One(dst, func, answer) => me.stop_one(dst, func, 4) == answer,
            Act::Two(a, b, func, answer) => me.stop_two(a, b, func, 4) == answer,
            Act::OneNext => me.stop_one(next(me), 9, 4) == Ok(9),
            Act::TwoNext => me.stop_two(next(me), me.number(), 9, 4) == Ok(9),
            Act::All(func, arg, active, answer) => me.stop_machine(func, arg, active) == answer,
            Act::Set(k, on, answer) => me.set_key(k, on) == answer,
            Act::SetTo(k, on) => me.set_key(k, on).is_ok() && reads_as(me, k, on),
            Act::Inc(k, answer) => me.key_inc(k) == answer,
            Act::Dec(k, answer) => me.key_dec(k) == answer,
            Act::Count(k, true) => me.key_inc(k).is_ok(),
            Act::Count(k, false) => me.key_dec(k).is_ok(),
            _ => self.calls(me),
        }
    }

    /// Whether a call is answered as the line says.
    fn calls<R: Wait>(&self, me: &mut Member<'_, '_, R>) -> bool
        ensures { IsSameSeat me.old me.new }
    {
        match *self {
            Act::Single(dst, wait, answer) => me.call_single(dst, 5, 6, wait) == answer,
            Act::ByUser(u, answer) => me.call_async(u, 0, 7, 8) == answer,
            Act::Any(mask, answer) => me.call_any(mask, 9, 10, false) == answer,
            Act::Many(mask, answer) => me.call_many(mask, 11, 12, true) == answer,
            Act::Each(mask, yes, answer) => {
                let says = |_: u32, _: u64| yes;
                me.each_cpu_cond(mask, 13, 14, &says, true) == answer
            }
            Act::SlowSingle(dst) => slow_single(me, dst),
            Act::SlowMany(mask) => slow_many(me, mask),
            Act::SlowEach(mask) => slow_each(me, mask),
            Act::SlowLater(dst) => me.call_single(dst, SLOW, 0, false).is_ok(),
            _ => self.serves(me),
        }
    }

    /// Whether the CPU takes part in stops as the line says.
    fn serves<R: Wait>(&self, me: &mut Member<'_, '_, R>) -> bool
        ensures { IsSameSeat me.old me.new }
    {
        match *self {
            Act::TakeWork(has_one) => me.take_work() == has_one,
            Act::AwaitWork => await_work(me),
            Act::Turn(turn) => me.turn() == turn,
            Act::Poll => {
                me.poll();
                true
            }
            Act::Rest => {
                me.rest();
                true
            }
            Act::Hears(calls) => hears(me, calls),
            _ => self.is_seen(me),
        }
    }

    /// Whether what the CPU reads is as the line says.
    fn is_seen<R: Wait>(&self, me: &mut Member<'_, '_, R>) -> bool
        ensures { IsSameSeat me.old me.new }
    {
        match *self {
            Act::Key(k, answer) => me.read_key(k) == answer,
            Act::Site(i, answer) => me.read_site(i) == answer,
            Act::Reads(k, on) => reads_as(me, k, on),
            Act::Agrees(k) => agrees(me, k),
            Act::Heard(calls, last) => (me.handler.calls, me.handler.last) == (calls, last),
            Act::Calls(calls) => me.functions.calls == calls,
            Act::Runs(runs) => me.handler.hall.runs() == runs,
            Act::Raise => {
                me.handler.hall.raise();
                true
            }
            Act::Meet => me.handler.hall.meet(),
            Act::Linger => {
                me.handler.hall.linger();
                true
            }
            _ => false,
        }
    }
}

/// The CPU after this one, of those that are online from 0 on; the first after the last.
fn next<R: Wait>(me: &Member<'_, '_, R>) -> u32 {
    let after = me.number().wrapping_add(1);
    if after < me.online().weight() {
        after
    } else {
        0
    }
}

/// Whether a slow function, called with wait, has come to its end on the CPU by the time that the call returns.
fn slow_single<R: Wait>(me: &mut Member<'_, '_, R>, dst: u32) -> bool
    ensures { IsSameSeat me.old me.new }
{
    let before = me.handler.hall.flag();
    let made = me.call_single(dst, SLOW, 0, true);
    made.is_ok() && me.handler.hall.was_raised(before, 1)
}

/// Whether a slow function, called with wait on all CPUs of a mask, has come to its end on each by the time that the call
/// returns.
fn slow_many<R: Wait>(me: &mut Member<'_, '_, R>, mask: CpuMask) -> bool
    ensures { IsSameSeat me.old me.new }
{
    let before = me.handler.hall.flag();
    let made = me.call_many(mask, SLOW, 0, true);
    made == Ok(mask) && me.handler.hall.was_raised(before, mask.weight())
}

/// Whether a slow function, called with wait by a condition that holds of every CPU, has come to its end on each CPU of a mask
/// by the time that the call returns.
fn slow_each<R: Wait>(me: &mut Member<'_, '_, R>, mask: CpuMask) -> bool
    ensures { IsSameSeat me.old me.new }
{
    let before = me.handler.hall.flag();
    let says = |_: u32, _: u64| true;
    let made = me.each_cpu_cond(mask, SLOW, 0, &says, true);
    made == Ok(mask) && me.handler.hall.was_raised(before, mask.weight())
}

fn await_work<R: Wait>(me: &mut Member<'_, '_, R>) -> bool
    ensures { IsSameSeat me.old me.new }
{
    let backoff = Backoff::new();
    for _ in 0..TURNS {
        if me.take_work() {
            return true;
        }
        backoff.snooze();
    }
    false
}

fn hears<R: Wait>(me: &mut Member<'_, '_, R>, calls: u32) -> bool
    ensures { IsSameSeat me.old me.new }
{
    let backoff = Backoff::new();
    for _ in 0..TURNS {
        let turn = me.turn();
        if me.handler.calls == calls {
            return true;
        }
        if turn != Turn::Same {
            return false;
        }
        backoff.snooze();
    }
    false
}

/// Whether key and sites are read as the key is on or off.
fn reads_as<R: Wait>(me: &mut Member<'_, '_, R>, k: u32, on: bool) -> bool
    ensures { IsSameSeat me.old me.new }
{
    let first = k.wrapping_mul(2);
    let (off_branch, on_branch) = if on { (Jmp, Nop) } else { (Nop, Jmp) };
    me.read_key(k) == Ok(on)
        && me.read_site(first) == Ok(off_branch)
        && me.read_site(first.wrapping_add(1)) == Ok(on_branch)
}

fn agrees<R: Wait>(me: &mut Member<'_, '_, R>, k: u32) -> bool
    ensures { IsSameSeat me.old me.new }
{
    match me.read_key(k) {
        Ok(on) => reads_as(me, k, on) && reads_as(me, k, on),
        Err(_) => false,
    }
}

/// Whether all of these go so.
fn all_go<R: Wait>(me: &mut Member<'_, '_, R>, acts: &[Act]) -> bool
    ensures { IsSameSeat me.old me.new }
{
    let mut right = true;
    for act in acts {
        right = act.goes(me) && right;
    }
    right
}

/// How often a CPU does what a part of a case says.
#[derive(Copy, Clone)]
pub enum Often {
    Times(u32),
    /// Until the flag was raised this number of times.
    Until(u64),
}

/// Plays a part until the flag was raised this number of times. Whether all goes so.
fn play_until<R: Wait>(me: &mut Member<'_, '_, R>, flag: u64, acts: &[Act]) -> bool
    ensures { IsSameSeat me.old me.new }
{
    let backoff = Backoff::new();
    for _ in 0..TURNS {
        if me.handler.hall.flag() == flag {
            return true;
        }
        if !all_go(me, acts) {
            return false;
        }
        backoff.snooze();
    }
    false
}

fn play_often<R: Wait>(me: &mut Member<'_, '_, R>, often: Often, acts: &[Act]) -> bool
    ensures { IsSameSeat me.old me.new }
{
    match often {
        Often::Until(flag) => play_until(me, flag, acts),
        Often::Times(times) => {
            let mut right = true;
            for _ in 0..times {
                right = all_go(me, acts) && right;
            }
            right
        }
    }
}

/// A part of a case: how often, and what.
pub type Part<'a> = (Often, &'a [Act]);

/// Plays a CPU's parts, one after the other: whether all goes as they say.
pub fn play_parts<R: Wait>(me: &mut Member<'_, '_, R>, parts: &[Part]) -> bool
    ensures { IsSameSeat me.old me.new }
{
    let mut right = true;
    for (often, acts) in parts {
        right = play_often(me, *often, acts) && right;
    }
    right
}

/// The first line that goes another way.
fn first_fault<R: Wait>(
    members: &mut [Member<'_, '_, R>],
    lines: &[(usize, Act)],
) -> Option<usize> {
    for (i, (cpu, act)) in lines.iter().enumerate() {
        let is_so = match members.get_mut(*cpu) {
            Some(member) => act.goes(member),
            None => false,
        };
        if !is_so {
            return Some(i);
        }
    }
    None
}

/// Plays lines, each with the number of its CPU, on the CPUs of a new machine, on one thread: the first that goes another
/// way.
pub fn play<R: Wait>(
    rt: &R,
    alloc: Global,
    online: CpuMask,
    labels: &LabelMap,
    lines: &[(usize, Act)],
) -> Result<Option<usize>, SmpError> {
    let cpus = online.weight();
    let hall = Hall::new();
    let (machine, boot) = Machine::new(alloc, cpus, online, labels)?;
    let mut members = Room::new(rt, &machine, boot, &hall).members(alloc, cpus)?;
    Ok(first_fault(members.as_mut_slice(), lines))
}
