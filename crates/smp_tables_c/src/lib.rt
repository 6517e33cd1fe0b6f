//! The shared tables for C and Rust: a static library with the exports of `include/smp_tables.h`.
//!
//! A handle stands for one CPU of a call table and of a stop table, which its fellows share. Each export makes one call of
//! these tables and answers a number. It waits for nobody, wakes nobody and calls nobody back: a function is handed out, and
//! its caller runs it between two exports. No export asks for anything, beyond what the types of C say.
//!
//! What the exports have in common (`Places`): a closed handle is answered by -20, and changes nothing. While a function
//! that was handed out is with its caller, the other exports answer -21, and change nothing; where none is, `smp_next` and
//! `smp_reply` answer -22. A refusal of the tables is answered by the number of its name, below 0.
//!
//! - `handle`, `held`, `parts`: what C holds of a CPU, and the memory behind it.
//! - `seat`, `place`: the seat of a CPU at its two tables, and where the CPU is.
//! - `calls`, `stops`: the steps of a seat.
//! - `open`: the tables, and the seats of their CPUs.
//! - `record`, `labels`, `masks`, `status`: the records and numbers that C passes.
#![tactic(auto)]

mod calls;
mod handle;
mod held;
mod labels;
mod masks;
mod open;
mod parts;
mod place;
mod record;
mod seat;
mod status;
mod stops;

ghost use Rattle.std.specs.Prelude.{◌≡◌, ◌==◌, not, None};
ghost use Rattle.smp_tables_c.specs.Calls.{AsksDone, Handles, PostsNamed, Resumes, Sends, named as named_so};
ghost use Rattle.smp_tables_c.specs.Opens.{Closes, Opens};
ghost use Rattle.smp_tables_c.specs.Places.{IfOpen};
ghost use Rattle.smp_tables_c.specs.Sites.{labels_of as labels_so};
ghost use Rattle.smp_tables_c.specs.Stops.{AnswersStop, EntersStop, Finishes, OpensGate, Polls};
ghost use Rattle.smp_tables_c.specs.Stops.{ReadsKey, ReadsSite, TriesGate, TriesKey, Turns};
ghost use Rattle.smp_tables_c.specs.Works.{BeginsNamed, work_named};

use crate::calls::Posting;
use crate::handle::SmpCpu;
use crate::labels::labels_of;
use crate::masks::mask_of;
use crate::open::open_all;
use crate::record::{SmpCall, SmpSite, SmpWork, named};
use crate::status::{BAD_ARGUMENT, CLOSED, status};
use std::alloc::Global;

/// The version of these exports, that of the header.
#[unsafe(no_mangle)]
pub extern "C" fn smp_tables_version() -> u32
    ensures { result ≡ 2 }
{
    2
}

/// Makes a call table and a stop table of `nr` CPUs, as by `new` of both, with this many keys, all off, and a site for each of
/// `sites`. Opens the handles of those online, each with its CPU that has done nothing. 0, or the number of a refusal, E4 also
/// where `LabelMap::new` refuses the keys and sites, or there are fewer than `nr` handles. All are opened, or none is changed.
#[unsafe(no_mangle)]
pub extern "C" fn smp_open(
    alloc: Global,
    nr: u32,
    online: u32,
    keys: u32,
    sites: &[SmpSite],
    cpus: &mut [SmpCpu],
) -> i32
    ensures { Opens nr online (labels_so keys sites.now) result cpus.old cpus.new }
{
    match labels_of(keys, sites) {
        Some(labels) => status(open_all(alloc, nr, mask_of(online), &labels, cpus)),
        None => BAD_ARGUMENT,
    }
}

/// Closes a handle and lets its CPU go; the last of its tables frees them. 0, or -20 where it was closed.
#[unsafe(no_mangle)]
pub extern "C" fn smp_close(cpu: &mut SmpCpu) -> i32
    ensures { Closes result cpu.old.held.seat cpu.new.held.seat }
{
    match cpu.take() {
        Some(seat) => {
            drop(seat);
            0
        }
        None => CLOSED,
    }
}

/// Queues a call by its record `k`, as `post_within` of the call table: 1 where an interrupt is owed, 0 where none is, or the
/// number of a refusal, E4 also where there is no such class (0 SYNC, 1 ASYNC) or function (below 65,536).
#[unsafe(no_mangle)]
pub extern "C" fn smp_post(
    cpu: &mut SmpCpu,
    k: u32,
    to: u32,
    class: u32,
    func: u32,
    info: u64,
    tries: u32,
) -> i32
    ensures { PostsNamed (named_so class func) k to info tries result cpu.old.held.seat cpu.new.held.seat }
{
    let Some((class, func)) = named(class, func) else {
        return BAD_ARGUMENT;
    };
    let Some(mut seat) = cpu.take() else {
        return CLOSED;
    };
    let status = seat.post(Posting {
        k,
        to,
        class,
        func,
        info,
        tries,
    });
    cpu.put(seat);
    status
}

/// Sends an interrupt to a CPU, as `interrupt` of the call table: 0, or the number of a refusal.
#[unsafe(no_mangle)]
pub extern "C" fn smp_send(cpu: &mut SmpCpu, to: u32) -> i32
    ensures { IfOpen (Sends to result) result cpu.old.held.seat cpu.new.held.seat }
{
    let Some(mut seat) = cpu.take() else {
        return CLOSED;
    };
    let status = seat.send(to);
    cpu.put(seat);
    status
}

/// Whether a record is free, as `is_done` of the call table: 1 or 0, or the number of a refusal.
#[unsafe(no_mangle)]
pub extern "C" fn smp_is_done(cpu: &mut SmpCpu, k: u32) -> i32
    ensures { IfOpen (AsksDone k result) result cpu.old.held.seat cpu.new.held.seat }
{
    let Some(mut seat) = cpu.take() else {
        return CLOSED;
    };
    let status = seat.is_done(k);
    cpu.put(seat);
    status
}

/// Takes the interrupt and the queue, as `begin_handle` of the call table: 1 with the call that is to run, 0 where there was
/// no interrupt, 2 where the queue was empty, or the number of a refusal.
#[unsafe(no_mangle)]
pub extern "C" fn smp_handle(cpu: &mut SmpCpu, call: &mut SmpCall) -> i32
    ensures { IfOpen (Handles call.old call.new result) result cpu.old.held.seat cpu.new.held.seat }
{
    let Some(mut seat) = cpu.take() else {
        return CLOSED;
    };
    let status = seat.handle(call);
    cpu.put(seat);
    status
}

/// The call that was handed out has run; the next one is handed out, as by `resume` of the call table: 1 with that call, 2
/// where none is left, or the number of a refusal.
#[unsafe(no_mangle)]
pub extern "C" fn smp_next(cpu: &mut SmpCpu, call: &mut SmpCall) -> i32
    ensures { IfOpen (Resumes call.old call.new result) result cpu.old.held.seat cpu.new.held.seat }
{
    let Some(mut seat) = cpu.take() else {
        return CLOSED;
    };
    let status = seat.resume(call);
    cpu.put(seat);
    status
}

/// Takes the gate, as `try_gate` of the stop table: 1 where it has, 0 where a CPU holds it, or the number of a refusal.
#[unsafe(no_mangle)]
pub extern "C" fn smp_try_gate(cpu: &mut SmpCpu) -> i32
    ensures { IfOpen (TriesGate result) result cpu.old.held.seat cpu.new.held.seat }
{
    let Some(mut seat) = cpu.take() else {
        return CLOSED;
    };
    let status = seat.try_gate();
    cpu.put(seat);
    status
}

/// Gives the gate up, as `open_gate` of the stop table: 0, or the number of a refusal.
#[unsafe(no_mangle)]
pub extern "C" fn smp_open_gate(cpu: &mut SmpCpu) -> i32
    ensures { IfOpen (OpensGate result) result cpu.old.held.seat cpu.new.held.seat }
{
    let Some(mut seat) = cpu.take() else {
        return CLOSED;
    };
    let status = seat.open_gate();
    cpu.put(seat);
    status
}

/// Opens the slot of this CPU for a stop, as `begin` of the stop table: 0, or the number of a refusal, E4 also where there is no
/// such kind (0 One, 1 Multi, 2 Patch) or function (below 65,536).
#[unsafe(no_mangle)]
pub extern "C" fn smp_begin(cpu: &mut SmpCpu, work: &SmpWork) -> i32
    ensures { BeginsNamed (work_named work.now) result cpu.old.held.seat cpu.new.held.seat }
{
    let Some(work) = work.work() else {
        return BAD_ARGUMENT;
    };
    let Some(mut seat) = cpu.take() else {
        return CLOSED;
    };
    let status = seat.begin(work);
    cpu.put(seat);
    status
}

/// Enters the stop of a slot, as `enter` of the stop table: its kind, or the number of a refusal.
#[unsafe(no_mangle)]
pub extern "C" fn smp_enter(cpu: &mut SmpCpu, slot: u32) -> i32
    ensures { IfOpen (EntersStop slot result) result cpu.old.held.seat cpu.new.held.seat }
{
    let Some(mut seat) = cpu.take() else {
        return CLOSED;
    };
    let status = seat.enter(slot);
    cpu.put(seat);
    status
}

/// A turn of the stop that the CPU is in, as `begin_one` or `turn` of the stop table: 0 nothing new, 1 with the function that
/// is to run, 2 a phase, 3 the last phase, 4 its patch, or the number of a refusal.
#[unsafe(no_mangle)]
pub extern "C" fn smp_turn(cpu: &mut SmpCpu, call: &mut SmpCall) -> i32
    ensures { IfOpen (Turns call.old call.new result) result cpu.old.held.seat cpu.new.held.seat }
{
    let Some(mut seat) = cpu.take() else {
        return CLOSED;
    };
    let status = seat.turn(call);
    cpu.put(seat);
    status
}

/// The function of the stop has given this answer, as `answer` of the stop table: 0, or the number of a refusal.
#[unsafe(no_mangle)]
pub extern "C" fn smp_reply(cpu: &mut SmpCpu, answer: i32) -> i32
    ensures { IfOpen (AnswersStop answer result) result cpu.old.held.seat cpu.new.held.seat }
{
    let Some(mut seat) = cpu.take() else {
        return CLOSED;
    };
    let status = seat.answer(answer);
    cpu.put(seat);
    status
}

/// Completes the stop that the CPU has left, as `finish` of the stop table: 0, or the number of a refusal.
#[unsafe(no_mangle)]
pub extern "C" fn smp_finish(cpu: &mut SmpCpu) -> i32
    ensures { IfOpen (Finishes result) result cpu.old.held.seat cpu.new.held.seat }
{
    let Some(mut seat) = cpu.take() else {
        return CLOSED;
    };
    let status = seat.finish();
    cpu.put(seat);
    status
}

/// Whether this CPU's own stop is complete, as `poll_done` of the stop table: 1 with its result, 0 not yet, or the number of a
/// refusal.
#[unsafe(no_mangle)]
pub extern "C" fn smp_poll_done(cpu: &mut SmpCpu, answer: &mut i32) -> i32
    ensures { IfOpen (Polls answer.old answer.new result) result cpu.old.held.seat cpu.new.held.seat }
{
    let Some(mut seat) = cpu.take() else {
        return CLOSED;
    };
    let status = seat.poll_done(answer);
    cpu.put(seat);
    status
}

/// Whether a key is on, as `read_key` of the stop table: 1 or 0, or the number of a refusal.
#[unsafe(no_mangle)]
pub extern "C" fn smp_read_key(cpu: &mut SmpCpu, k: u32) -> i32
    ensures { IfOpen (ReadsKey k result) result cpu.old.held.seat cpu.new.held.seat }
{
    let Some(mut seat) = cpu.take() else {
        return CLOSED;
    };
    let status = seat.read_key(k);
    cpu.put(seat);
    status
}

/// What a site is, as `read_site` of the stop table: 1 a jump, 0 a NOP, or the number of a refusal.
#[unsafe(no_mangle)]
pub extern "C" fn smp_read_site(cpu: &mut SmpCpu, i: u32) -> i32
    ensures { IfOpen (ReadsSite i result) result cpu.old.held.seat cpu.new.held.seat }
{
    let Some(mut seat) = cpu.take() else {
        return CLOSED;
    };
    let status = seat.read_site(i);
    cpu.put(seat);
    status
}

/// Moves the count of a key by one, up where `up` is not 0, as `try_key` of the stop table: 0 done, 1 lost, 2 it takes a stop,
/// or the number of a refusal.
#[unsafe(no_mangle)]
pub extern "C" fn smp_try_key(cpu: &mut SmpCpu, k: u32, up: u32) -> i32
    ensures { IfOpen (TriesKey k (not (up == 0)) result) result cpu.old.held.seat cpu.new.held.seat }
{
    let Some(mut seat) = cpu.take() else {
        return CLOSED;
    };
    let status = seat.try_key(k, up != 0);
    cpu.put(seat);
    status
}
