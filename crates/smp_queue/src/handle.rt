//! Handling: a CPU takes its interrupt and, where there was one, its whole queue, and runs it
//! (`kernel/smp.c: generic_smp_call_function_single_interrupt`).
//!
//! The interrupt is taken before the queue: a call that is queued later finds either its queue not yet taken or
//! an interrupt word that may be set again.

ghost use Rattle.std.specs.Prelude.{◌≡◌, ◌<◌, true, false, None, List, [], if◌then◌else◌, length, IfSome};
ghost use Rattle.smp_words.specs.Size.{cpus};
ghost use Rattle.smp_call_steps.specs.Order.{order};
ghost use Rattle.smp_call_steps.specs.Drains.{reverse_on};
ghost use Rattle.smp_call_steps.specs.Threads.Known.{Lives};
ghost use Rattle.smp_call_steps.specs.Threads.Handling.{handling, accepted_known, taken_known, left_known, IsLeaving};
ghost use Rattle.smp_words.specs.declared.call.Call.{Call};
ghost use Rattle.smp_call_steps.specs.declared.handle.HandleStage.{HandleStage};
ghost use Rattle.smp_call_steps.specs.declared.handle.HandleStage.TheVariants as handle;
ghost use Rattle.smp_call_steps.specs.declared.known.Running.TheVariants.{Nothing};
ghost use Rattle.smp_queue.specs.Seat.{InHandle, IsOutside};
ghost use Rattle.smp_queue.specs.declared.run.Pass.TheVariants.{Second};
ghost use Rattle.smp_queue.specs.Cpu.{cpu_of};
ghost use Rattle.smp_queue.specs.Handling.{AreRan, Grows, asks, drains};
ghost use Rattle.smp_queue.specs.Serving.{TakesInterrupt, TakesBatch, Begins, IsAt, HasRunCall, HasRunAll, RunsQueue, on, begins_at};

use crate::alarms::Alarms;
use crate::handler::Handler;
use crate::reverse::reverse;
use crate::run::{Pass, Passed, Place, next_async, pass_on};
use crate::seat::call_steps::{Returned, begin_call, end_call};
use crate::seat::{CallSeat, SharedCallWords, store, swap};
use crate::table::CallTable;
use smp_call_steps::drain::linked;
use smp_call_steps::handle::Walk;
use smp_words::Word;
use smp_words::size::owner_of;
use std::alloc::Allocator;

/// What `handle` has done.
#[derive(Clone, Copy, Debug, PartialEq, Eq)]
pub struct Handled {
    /// How many calls it has run.
    pub ran: u32,
    /// Whether an interrupt was pending.
    pub interrupted: bool,
}

/// What `handle` reads beside the seat of its CPU: the words and the alarms of the table, and the CPU's number.
#[derive(Clone, Copy)]
struct HandleContext<'a> {
    words: SharedCallWords<'a>,
    alarms: &'a Alarms,
    number: u32,
}

/// Begins to handle, and takes the interrupt: whether one was pending.
#[inline(always)]
fn enter(words: SharedCallWords, seat: &mut CallSeat, number: u32) -> bool
    requires { IsOutside words.shared.now.table_id seat.old number }
    ensures at { InHandle words.entry.shared.now.table_id seat.new (if result then handle.Take else handle.LeaveIdle) }
    ensures known { seat.new.known ≡ accepted_known result (handling handle.Accept seat.old.known.drain seat.old.known) }
{
    store(words, seat, Word::Hand(number), 1);
    swap(words, seat, Word::Intr(number), 0) != 0
}

/// Takes the whole queue: the record of its newest call, none where it is empty.
#[inline(always)]
fn take(words: SharedCallWords, seat: &mut CallSeat, number: u32) -> Option<u32>
    requires me { seat.old.known.number ≡ number }
    requires at { InHandle words.shared.now.table_id seat.old handle.Take }
    ensures at { InHandle words.entry.shared.now.table_id seat.new (reverse_on None result) }
    ensures known { (queue : List Call) × (seat.new.known ≡ taken_known queue result seat.old.known) }
{
    let link = swap(words, seat, Word::Head(number), 0);
    linked(link)
}

/// Has handled.
#[inline(always)]
fn leave(words: SharedCallWords, seat: &mut CallSeat, number: u32)
    requires me { seat.old.known.number ≡ number }
    requires at { (stage : HandleStage) × InHandle words.shared.now.table_id seat.old stage × IsLeaving stage }
    ensures table { seat.new.table ≡ words.entry.shared.now.table_id }
    ensures lives { Lives seat.new.known }
    ensures known { seat.new.known ≡ left_known seat.old.known }
{
    store(words, seat, Word::Hand(number), 0);
}

/// Goes on to the next call of the batch; where none is left, the CPU leaves.
#[inline(always)]
pub(crate) fn go_on(
    words: SharedCallWords,
    seat: &mut CallSeat,
    number: u32,
    pass: Pass,
    here: Option<u32>,
) -> Option<Place>
    requires me { seat.old.known.number ≡ number }
    requires at { InHandle words.shared.now.table_id seat.old (on pass here) }
    ensures at { IsAt words.entry.shared.now.table_id (cpu_of seat.old) seat.new result }
    ensures second { pass ≡ Second → IfSome result (λ p. p.pass ≡ Second) }
{
    match pass_on(words, seat, pass, here) {
        Passed::At(place) => Some(place),
        Passed::Over(Some(id)) => Some(next_async(words, seat, id)),
        Passed::Over(None) => {
            leave(words, seat, number);
            None
        }
    }
}

/// A batch that was taken: its first call, and how many it has.
#[derive(Clone, Copy)]
pub(crate) struct Batch {
    pub(crate) first: Option<Place>,
    pub(crate) calls: u32,
}

/// Takes the interrupt of a CPU, which leaves where none was pending: whether one was.
#[inline(always)]
fn takes_interrupt(words: SharedCallWords, seat: &mut CallSeat, number: u32) -> bool
    requires { IsOutside words.shared.now.table_id seat.old number }
    ensures { TakesInterrupt words.entry.shared.now.table_id seat.old seat.new result }
{
    let pending = enter(words, seat, number);
    if !pending {
        leave(words, seat, number);
    }
    pending
}

/// Takes the queue of a CPU whose interrupt was pending, and goes to its first call.
#[inline(always)]
fn take_batch(words: SharedCallWords, seat: &mut CallSeat, number: u32) -> Batch
    requires me { seat.old.known.number ≡ number }
    requires at { InHandle words.shared.now.table_id seat.old handle.Take }
    ensures { TakesBatch words.entry.shared.now.table_id (cpu_of seat.old) seat.new result }
{
    let newest = take(words, seat, number);
    let (oldest, calls) = reverse(words, seat, newest);
    let walk = Walk {
        first: oldest,
        last: None,
    };
    let first = go_on(words, seat, number, Pass::First(walk), oldest);
    Batch { first, calls }
}

/// Takes the interrupt and, where there was one, the queue.
#[inline(always)]
pub(crate) fn begin(words: SharedCallWords, seat: &mut CallSeat, number: u32) -> Option<Batch>
    requires { IsOutside words.shared.now.table_id seat.old number }
    ensures { Begins words.entry.shared.now.table_id seat.old seat.new result }
{
    if takes_interrupt(words, seat, number) {
        Some(take_batch(words, seat, number))
    } else {
        None
    }
}

/// Wakes the CPUs that wait asleep, where a record is unlocked by now: one of them may wait for it.
#[inline(always)]
fn wake_if(alarms: &Alarms, unlocked: bool) {
    if unlocked {
        alarms.ring_waiting();
    }
}

/// Runs one call, between the step that begins it and those that count and end it, and goes on to the next. The CPUs that wait
/// asleep are woken behind the step that unlocks its record, so before the function of an ASYNC call, and behind that of a SYNC call.
#[inline(always)]
fn run_one<H: Handler>(
    context: HandleContext,
    seat: &mut CallSeat,
    counts: &mut [u64],
    place: Place,
    handler: &mut H,
) -> Option<Place>
    requires me { seat.old.known.number ≡ context.number }
    requires at { InHandle context.words.shared.now.table_id seat.old (begins_at place) }
    requires counts { AreRan counts.old seat.old.known }
    ensures run { HasRunCall H.leads context.entry.words.shared.now.table_id seat.old seat.new place.call result counts.new handler.old handler.new }
    ensures second { place.pass ≡ Second → IfSome result (λ p. p.pass ≡ Second) }
{
    let HandleContext {
        words,
        alarms,
        number,
    } = context;
    let begun = begin_call(words, seat, number, place, handler);
    let call = place.call;
    let is_sync = place.pass.is_first();
    wake_if(alarms, !is_sync);
    handler.call(owner_of(call.id), call.func, call.info);
    let ran = Returned {
        place,
        begun,
        handler,
    };
    end_call(words, seat, number, counts, ran);
    wake_if(alarms, is_sync);
    go_on(words, seat, number, place.pass, place.next)
}

/// Runs the calls of a batch: its SYNC calls one after another, and then its ASYNC calls.
#[inline(always)]
fn run_batch<H: Handler>(
    context: HandleContext,
    seat: &mut CallSeat,
    counts: &mut [u64],
    first: Option<Place>,
    handler: &mut H,
)
    requires me { seat.old.known.number ≡ context.number }
    requires at { IsAt context.words.shared.now.table_id (cpu_of seat.old) seat.old first }
    requires idle { seat.old.known.part.running ≡ Nothing }
    requires counts { AreRan counts.old seat.old.known }
    ensures { HasRunAll H.leads context.entry.words.shared.now.table_id seat.old seat.new counts.new handler.old handler.new }
{
    let mut here = first;
    while let Some(
        Place {
            pass: Pass::First(walk),
            call,
            next,
        },
    ) = here
    {
        let pass = Pass::First(walk);
        here = run_one(context, seat, counts, Place { pass, call, next }, handler);
    }
    while let Some(
        Place {
            pass: Pass::Second,
            call,
            next,
        },
    ) = here
    {
        let pass = Pass::Second;
        here = run_one(context, seat, counts, Place { pass, call, next }, handler);
    }
}

/// Takes the queue of a CPU whose interrupt was pending, and runs it: how many calls it has. It is a function of its own, so that a
/// CPU that finds no interrupt pays for none of this.
#[inline(never)]
fn run_queue<H: Handler>(
    context: HandleContext,
    seat: &mut CallSeat,
    counts: &mut [u64],
    handler: &mut H,
) -> u32
    requires me { seat.old.known.number ≡ context.number }
    requires at { InHandle context.words.shared.now.table_id seat.old handle.Take }
    requires counts { AreRan counts.old seat.old.known }
    ensures { RunsQueue H.leads context.entry.words.shared.now.table_id seat.old seat.new counts.new handler.old handler.new result }
{
    let batch = take_batch(context.words, seat, context.number);
    run_batch(context, seat, counts, batch.first, handler);
    batch.calls
}

/// Takes the interrupt and, where there was one, the queue, and runs that.
#[inline(always)]
pub(crate) fn handle<A: Allocator, H: Handler>(
    table: &CallTable<A>,
    seat: &mut CallSeat,
    number: u32,
    counts: &mut [u64],
    handler: &mut H,
) -> Handled
    requires outside { IsOutside table.now.table seat.old number }
    requires counts { AreRan counts.old seat.old.known }
    ensures outside { IsOutside table.now.table seat.new number }
    ensures counts { AreRan counts.new seat.new.known }
    ensures lives { Lives seat.new.known }
    ensures asked { result.interrupted ≡ true → (batch : List Call) × (cpu_of seat.new ≡ drains batch (asks true (cpu_of seat.old)))
        × (Grows H.leads handler.old (order batch) handler.new) × (result.ran ≡ length batch) }
    ensures idle { result.interrupted ≡ false → (cpu_of seat.new ≡ asks false (cpu_of seat.old)) × (handler.new ≡ handler.old) × (result.ran ≡ 0) }
{
    let context = HandleContext {
        words: table.words(),
        alarms: table.alarms(),
        number,
    };
    if !takes_interrupt(context.words, seat, number) {
        return Handled {
            ran: 0,
            interrupted: false,
        };
    }
    let ran = run_queue(context, seat, counts, handler);
    Handled {
        ran,
        interrupted: true,
    }
}
