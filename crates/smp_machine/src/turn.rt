//! Turns: a CPU handles its own interrupt and goes on with the work in hand.

ghost use Rattle.std.specs.Prelude.{◌≡◌, ◌≢◌, ◌∷◌, ◌++◌, true, false, None, []};
ghost use Rattle.smp_multi.specs.Advance.{IsInRound};
ghost use Rattle.smp_multi.specs.Cpu.{IsAt as IsAtStops};
ghost use Rattle.smp_machine.specs.Own.{own_of};
ghost use Rattle.smp_machine.specs.MachineCpu.{IsAt, HasNotLeft, on_there};
ghost use Rattle.smp_machine.specs.Works.{Works, LooksIfOn, LooksOnceMore, GoesRound, TurnsStop, ReadsAnew};

use crate::cpu::Cpu;
use crate::hearing::{hear, wake};
use crate::machine::Machine;
use crate::machine_cpu::MachineCpu;
use crate::stalls::note_late;
use crossbeam_utils::Backoff;
use smp_multi::{StopCpu, StopFunc, StopTable, Turn};
use smp_queue::Handler;
use std::alloc::Allocator;
use std::sync::Wait;

/// Handles the CPU's own interrupt where interrupts are on; where they are off, nothing. Whether one was taken.
pub(crate) fn handle_if_on<A: Allocator, H: Handler>(
    machine: &Machine<A>,
    me: &mut MachineCpu<A>,
    handler: &mut H,
) -> bool
    requires at { IsAt machine.now me.old }
    ensures looks { LooksIfOn H.leads me.old handler.old me.new handler.new }
    ensures told { me.old.stops.irq ≡ true → me.new.calls.part.asked ≡ me.old.calls.part.asked ++ result ∷ [] }
{
    me.stops.interrupts_on() && hear(machine, me, handler)
}

/// One turn of a stop of several CPUs; it completes where the CPU has left.
fn go_round<A: Allocator, F: StopFunc>(table: &StopTable<A>, me: &mut StopCpu, run: &mut F) -> Turn
    requires at { IsAtStops table.now me.old }
    requires round { IsInRound me.old }
    ensures { GoesRound F.leads me.old run.old me.new run.new result }
{
    match table.advance(me, run) {
        Ok(Turn::Left) => match table.finish(me) {
            Ok(()) => Turn::Left,
            Err(_) => unreachable!(),
        },
        Ok(turn) => turn,
        Err(_) => unreachable!(),
    }
}

/// One turn of the stop that the CPU is in: a stop of one CPU runs and is completed.
#[inline(never)]
fn go_on<A: Allocator, F: StopFunc>(table: &StopTable<A>, me: &mut StopCpu, run: &mut F) -> Turn
    requires at { IsAtStops table.now me.old }
    requires inside { me.old.inside ≢ None }
    requires not_left { HasNotLeft me.old.inside }
    requires irq { me.old.irq ≡ on_there me.old.inside }
    ensures stops { TurnsStop F.leads me.old run.old me.new run.new result }
    ensures not_left { HasNotLeft me.new.inside }
    ensures irq { me.new.irq ≡ on_there me.new.inside }
{
    match table.run_one(me, run) {
        Ok(_) => Turn::Left,
        Err(_) => go_round(table, me, run),
    }
}

/// One turn of the work in hand, if any.
#[inline(always)]
pub(crate) fn step<A: Allocator, F: StopFunc>(
    machine: &Machine<A>,
    me: &mut MachineCpu<A>,
    run: &mut F,
) -> Turn
    requires at { IsAt machine.now me.old }
    ensures calls { me.new.calls ≡ me.old.calls }
    ensures passes { me.new.passes ≡ me.old.passes }
    ensures heard { me.new.heard_at ≡ me.old.heard_at }
    ensures stops { TurnsStop F.leads me.old.stops run.old me.new.stops run.new result }
{
    if !me.stops.in_stop() {
        return Turn::Same;
    }
    let turn = go_on(&machine.stops, &mut me.stops, run);
    if let Turn::Left = turn {
        wake(machine, me.source);
    }
    turn
}

/// Handles the own interrupt where interrupts are on, and then makes one turn of the work in hand, if any: the turn, and
/// whether an interrupt was taken. It does not wait.
#[inline(always)]
pub(crate) fn turn_and_tell<A: Allocator, H: Handler, F: StopFunc>(
    machine: &Machine<A>,
    me: &mut MachineCpu<A>,
    handler: &mut H,
    run: &mut F,
) -> (Turn, bool)
    requires at { IsAt machine.now me.old }
    ensures works { Works H.leads F.leads me.old handler.old run.old me.new handler.new run.new (own_of me.old) }
    ensures stops { TurnsStop F.leads me.old.stops run.old me.new.stops run.new result.0 }
    ensures once { me.old.stops.irq ≡ true → LooksOnceMore me.old.calls me.new.calls }
    ensures told { me.old.stops.irq ≡ true → me.new.calls.part.asked ≡ me.old.calls.part.asked ++ result.1 ∷ [] }
    ensures off { me.old.stops.irq ≡ false → (me.new.calls ≡ me.old.calls) × (handler.new ≡ handler.old) }
    ensures passes { me.new.passes ≡ me.old.passes }
{
    let interrupted = handle_if_on(machine, me, handler);
    me.is_shown(&machine.stops);
    (step(machine, me, run), interrupted)
}

/// Handles the own interrupt where interrupts are on, and then makes one turn of the work in hand, if any: the turn. It does
/// not wait.
pub(crate) fn turn<A: Allocator, H: Handler, F: StopFunc>(
    machine: &Machine<A>,
    me: &mut MachineCpu<A>,
    handler: &mut H,
    run: &mut F,
) -> Turn
    requires at { IsAt machine.now me.old }
    ensures works { Works H.leads F.leads me.old handler.old run.old me.new handler.new run.new (own_of me.old) }
    ensures stops { TurnsStop F.leads me.old.stops run.old me.new.stops run.new result }
    ensures once { me.old.stops.irq ≡ true → LooksOnceMore me.old.calls me.new.calls }
    ensures off { me.old.stops.irq ≡ false → (me.new.calls ≡ me.old.calls) × (handler.new ≡ handler.old) }
    ensures passes { me.new.passes ≡ me.old.passes }
{
    turn_and_tell(machine, me, handler, run).0
}

/// Turns until the work in hand is completed. It may wait; the CPUs of the work's mask must poll. It spins whatever
/// [`Machine::sleep_after`] says, as Linux's part in a stop does (`multi_cpu_stop`): the others wait for each of its phases, and an
/// acknowledgement wakes nobody.
pub(crate) fn finish_work<A: Allocator, R: Wait, H: Handler, F: StopFunc>(
    machine: &Machine<A>,
    rt: &R,
    me: &mut MachineCpu<A>,
    handler: &mut H,
    run: &mut F,
)
    requires at { IsAt machine.now me.old }
    requires inside { me.old.stops.inside ≢ None }
    ensures works { Works H.leads F.leads me.old handler.old run.old me.new handler.new run.new (own_of me.old) }
    ensures outside { me.new.stops.inside ≡ None }
    ensures read { ReadsAnew me.old.stops me.new.stops }
    ensures passes { me.new.passes ≡ me.old.passes }
{
    let backoff = Backoff::new();
    let mut turns = 0u32;
    for _ in rt.forever() {
        match turn(machine, me, handler, run) {
            Turn::Left => return,
            _ => backoff.snooze(),
        }
        turns = turns.wrapping_add(1);
        note_late(machine, me, turns, false);
    }
    unreachable!()
}

impl<A: Allocator> Machine<A> {
    /// One turn: where interrupts are on, one look at the own interrupt word, whose calls the handler hears
    /// ([`smp_queue::CallTable::handle`]); then, where a work is in hand, one turn of its stop
    /// (`kernel/stop_machine.c: multi_cpu_stop`), with its completion at the end. `Left` exactly where the work is completed,
    /// which is so at once with a stop of one CPU; `Same` where none is in hand, or its stop shows no new phase.
    ///
    /// No handler runs while interrupts are off. It takes effect at the steps of `handle`, and of
    /// [`smp_multi::StopTable::run_one`], or of `advance` and `finish`. It does not wait; with a stop of several CPUs each
    /// CPU of the mask must go on too.
    pub fn turn<H: Handler, F: StopFunc>(
        &self,
        me: &mut Cpu<A>,
        handler: &mut H,
        run: &mut F,
    ) -> Turn
        requires at { IsAt self.now me.old }
        ensures works { Works H.leads F.leads me.old handler.old run.old me.new handler.new run.new (own_of me.old) }
        ensures stops { TurnsStop F.leads me.old.stops run.old me.new.stops run.new result }
        ensures once { me.old.stops.irq ≡ true → LooksOnceMore me.old.calls me.new.calls }
        ensures off { me.old.stops.irq ≡ false → (me.new.calls ≡ me.old.calls) × (handler.new ≡ handler.old) }
        ensures passes { me.new.passes ≡ me.old.passes }
    {
        turn(self, &mut me.place, handler, run)
    }
}
