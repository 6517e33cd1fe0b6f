//! A stop, step by step: a CPU takes the gate, begins its stop, puts the work into the queue of each CPU of the mask, and
//! waits for the result.

ghost use Rattle.std.specs.Prelude.{◌≡◌, ◌≢◌, ◌⊎◌, ◌<◌, ℕ, true, false, if◌then◌else◌, None, Some, MatchOption, [], ◌∷◌, slice_index_or};
ghost use Rattle.smp_mask.specs.Mask.{members};
ghost use Rattle.smp_words.specs.Size.{cpus};
ghost use Rattle.smp_multi.specs.Answers.{IsWholeWord, answer_in};
ghost use Rattle.smp_multi.specs.Cpu.{begins, collects};
ghost use Rattle.smp_multi.specs.Cpu.{takes_gate, gives_gate, misses_gate, looks_in_vain};
ghost use Rattle.smp_stop_steps.specs.declared.known.OwnMove.TheVariants.{Took};
ghost use Rattle.smp_machine.specs.Moves.{stop_moves};
ghost use Rattle.smp_multi.specs.Polls.{IsLastResult};
ghost use Rattle.smp_machine.specs.Passes.{puts, note_of, PutIsShown};
ghost use Rattle.smp_machine.specs.MachineCpu.{IsAt};
ghost use Rattle.smp_machine.specs.Own.{own_of, with_gate, with_moves, with_put};
ghost use Rattle.smp_machine.specs.OwnAnswers.{RunsItself};
ghost use Rattle.smp_machine.specs.Stops.{MayBegin, item, AreShown, HasCollected, HasStopped};
ghost use Rattle.smp_machine.specs.Works.{Works};

use crate::context::MachineContext;
use crate::hearing::{line, pause, wake, wake_next};
use crate::machine::Machine;
use crate::machine_cpu::MachineCpu;
use crate::poll::poll;
use crate::stalls::note_late;
use crate::stoppers::CpuItem;
use crate::turn::turn;
use crate::work_queue::Item;
use crossbeam_utils::Backoff;
use smp_multi::StopFunc;
use smp_queue::{Handler, LineWait};
use smp_words::work::Work;
use std::alloc::Allocator;
use std::sync::Wait;

/// Takes the gate, if it is free.
fn try_gate<A: Allocator>(machine: &Machine<A>, me: &mut MachineCpu<A>) -> bool
    requires at { IsAt machine.now me.old }
    ensures taken { result ≡ true → me.new ≡ record me.old { stops = takes_gate me.old.stops } }
    ensures held { result ≡ false → me.new ≡ record me.old { stops = misses_gate me.old.stops } }
{
    machine.stops.try_gate(&mut me.stops)
}

/// Takes the gate, if it is free and it is the turn of no other CPU.
fn try_in_turn<A: Allocator>(
    machine: &Machine<A>,
    me: &mut MachineCpu<A>,
    line: &LineWait<'_>,
) -> bool
    requires at { IsAt machine.now me.old }
    ensures taken { result ≡ true → me.new ≡ record me.old { stops = takes_gate me.old.stops } }
    ensures held { result ≡ false → (me.new ≡ me.old) ⊎ (me.new ≡ record me.old { stops = misses_gate me.old.stops }) }
{
    line.may_try() && try_gate(machine, me)
}

/// Lines up, where the wait says so after this look; then takes the gate, as [`try_in_turn`].
fn try_in_line<A: Allocator>(
    machine: &Machine<A>,
    me: &mut MachineCpu<A>,
    line: &mut LineWait<'_>,
    found: bool,
) -> bool
    requires at { IsAt machine.now me.old }
    ensures taken { result ≡ true → me.new ≡ record me.old { stops = takes_gate me.old.stops } }
    ensures held { result ≡ false → (me.new ≡ me.old) ⊎ (me.new ≡ record me.old { stops = misses_gate me.old.stops }) }
{
    line.lines_up(found) && try_in_turn(machine, me, line)
}

/// Takes the gate (`stop_cpus_mutex`), and polls until it is free. A CPU that may sleep by then lines up, and tries once more before
/// it sleeps and behind it. So it runs nothing between the two, and the one that is woken takes the gate.
pub(crate) fn take_gate<A: Allocator, R: Wait, H: Handler, F: StopFunc>(
    machine: &Machine<A>,
    rt: &R,
    me: &mut MachineCpu<A>,
    handler: &mut H,
    run: &mut F,
)
    requires at { IsAt machine.now me.old }
    requires outside { me.old.stops.inside ≡ None }
    ensures works { Works H.leads F.leads me.old handler.old run.old me.new handler.new run.new
        (with_moves (Took ∷ []) (with_gate true (own_of me.old))) }
    ensures outside { me.new.stops.inside ≡ None }
{
    let mut waits = line(machine, me);
    for _ in rt.forever() {
        if try_in_turn(machine, me, &waits) {
            return;
        }
        waits.before_look();
        let found = poll(machine, rt, me, handler, run);
        if try_in_line(machine, me, &mut waits, found) {
            return;
        }
        waits.pause(rt);
    }
    unreachable!()
}

/// Gives the gate up, and wakes the next CPU that waits for it asleep.
pub(crate) fn give_gate<A: Allocator>(machine: &Machine<A>, me: &mut MachineCpu<A>)
    requires at { IsAt machine.now me.old }
    requires gate { me.old.stops.part.holds ≡ true }
    ensures { me.new ≡ record me.old { stops = gives_gate me.old.stops } }
{
    match machine.stops.open_gate(&mut me.stops) {
        Ok(()) => wake_next(machine),
        Err(_) => unreachable!(),
    }
}

/// Opens the own slot for a stop of this work.
pub(crate) fn begin<A: Allocator>(machine: &Machine<A>, me: &mut MachineCpu<A>, work: &Work)
    requires at { IsAt machine.now me.old }
    requires gate { me.old.stops.part.holds ≡ true }
    requires collected { me.old.stops.pending ≡ None }
    requires work { MayBegin machine.now.stops work.now }
    ensures { me.new ≡ record me.old { stops = begins work.now me.old.stops } }
{
    match machine.stops.begin(&mut me.stops, *work) {
        Ok(()) => {}
        Err(_) => unreachable!(),
    }
}

/// Puts the work of the own stop into this CPU's queue, and notes how the CPU stands with the gate and that stop; false where the
/// queue was full.
fn try_put<A: Allocator, R: Wait>(
    machine: &Machine<A>,
    rt: &R,
    me: &mut MachineCpu<A>,
    cpu: u32,
    work: &Work,
) -> bool
    requires at { IsAt machine.now me.old }
    requires within { cpu < cpus }
    ensures put { result ≡ true → me.new ≡ record me.old {
      passes = puts cpu (item me.old.stops.number work.now) (note_of me.old.stops me.old.passes) me.old.passes;
    } }
    ensures shown { result ≡ true → PutIsShown me.new.passes cpu }
    ensures full { result ≡ false → me.new ≡ me.old }
{
    let slot = me.number();
    let item = Item { slot, work: *work };
    let to = CpuItem { cpu, item };
    machine.queues.put(rt, &mut me.passes, &me.stops, to)
}

/// A work, and the CPU whose queue it goes into.
#[derive(Clone, Copy)]
struct CpuWork<'a> {
    cpu: u32,
    work: &'a Work,
}

/// Puts the work into this CPU's queue, and wakes it (`cpu_stop_queue_work`). Where that is full, takes a turn and tries again. It
/// spins meanwhile, since a work that is taken wakes nobody; a queue has room for a work of each CPU.
fn put<A: Allocator, R: Wait, H: Handler, F: StopFunc>(
    context: MachineContext<A, R>,
    me: &mut MachineCpu<A>,
    handler: &mut H,
    run: &mut F,
    to: CpuWork,
)
    requires at { IsAt context.machine.now me.old }
    requires outside { me.old.stops.inside ≡ None }
    requires within { to.cpu < cpus }
    ensures works { Works H.leads F.leads me.old handler.old run.old me.new handler.new run.new
        (with_put (item me.old.stops.number to.entry.work.now) (to.entry.cpu ∷ []) (own_of me.old)) }
    ensures stops { me.new.stops ≡ me.old.stops }
    ensures shown { PutIsShown me.new.passes to.entry.cpu }
{
    let MachineContext { machine, rt } = context;
    let CpuWork { cpu, work } = to;
    let backoff = Backoff::new();
    for _ in rt.forever() {
        if try_put(machine, rt, me, cpu, work) {
            wake(machine, cpu);
            return;
        }
        turn(machine, me, handler, run);
        backoff.snooze();
    }
    unreachable!()
}

/// Puts the work into the queue of each CPU of its mask, ascending (`queue_stop_cpus_work`).
pub(crate) fn put_to_all<A: Allocator, R: Wait, H: Handler, F: StopFunc>(
    context: MachineContext<A, R>,
    me: &mut MachineCpu<A>,
    handler: &mut H,
    run: &mut F,
    work: &Work,
)
    requires at { IsAt context.machine.now me.old }
    requires outside { me.old.stops.inside ≡ None }
    ensures works { Works H.leads F.leads me.old handler.old run.old me.new handler.new run.new
        (with_put (item me.old.stops.number work.now) (members work.now.mask) (own_of me.old)) }
    ensures stops { me.new.stops ≡ me.old.stops }
    ensures shown { AreShown (members work.now.mask) me.new.passes }
{
    let mask = work.mask;
    for cpu in mask.iter() {
        put(context, me, handler, run, CpuWork { cpu, work });
    }
}

/// The result of the own stop, once all its CPUs have completed.
pub(crate) fn look_done<A: Allocator>(machine: &Machine<A>, me: &mut MachineCpu<A>) -> Option<i32>
    requires at { IsAt machine.now me.old }
    requires begun { me.old.stops.pending ≢ None }
    ensures { MatchOption result (me.new ≡ record me.old { stops = looks_in_vain me.old.stops }) (λ v. (word : ℕ) × (v ≡ answer_in word)
        × (me.new ≡ record me.old { stops = collects word me.old.stops }) × IsLastResult me.new.stops word × IsWholeWord v word) }
{
    match machine.stops.poll_done(&mut me.stops) {
        Ok(done) => done,
        Err(_) => unreachable!(),
    }
}

/// Polls until the own stop is complete (`wait_for_completion`): its result.
pub(crate) fn collect<A: Allocator, R: Wait, H: Handler, F: StopFunc>(
    machine: &Machine<A>,
    rt: &R,
    me: &mut MachineCpu<A>,
    handler: &mut H,
    run: &mut F,
) -> i32
    requires at { IsAt machine.now me.old }
    requires outside { me.old.stops.inside ≡ None }
    requires begun { me.old.stops.pending ≢ None }
    ensures { HasCollected H.leads F.leads me.old handler.old run.old me.new handler.new run.new result }
{
    let mut waits = pause(machine, me);
    let mut polls = 0u32;
    for _ in rt.forever() {
        waits.before_look();
        let found = match look_done(machine, me) {
            Some(answer) => return answer,
            None => poll(machine, rt, me, handler, run),
        };
        polls = polls.wrapping_add(1);
        note_late(machine, me, polls, waits.may_sleep());
        waits.after_look(rt, found);
    }
    unreachable!()
}

/// How long the source of a stop holds the gate.
#[derive(Clone, Copy)]
pub(crate) enum Holds {
    /// Until the works of the stop are queued.
    UntilQueued,
    /// Until the stop is complete.
    UntilDone,
}

/// A stop: what is done in it, and how long its source holds the gate.
#[derive(Clone, Copy)]
pub(crate) struct StopJob<'a> {
    pub(crate) work: &'a Work,
    pub(crate) holds: Holds,
}

/// A stop of this work: its result.
pub(crate) fn stop<A: Allocator, R: Wait, H: Handler, F: StopFunc>(
    context: MachineContext<A, R>,
    me: &mut MachineCpu<A>,
    handler: &mut H,
    run: &mut F,
    job: StopJob,
) -> i32
    requires at { IsAt context.machine.now me.old }
    requires outside { me.old.stops.inside ≡ None }
    requires collected { me.old.stops.pending ≡ None }
    requires work { MayBegin context.machine.now.stops job.work.now }
    ensures stopped { HasStopped H.leads F.leads (stop_moves job.entry.holds) job.entry.work.now me.old handler.old run.old me.new handler.new run.new result }
    ensures own { RunsItself job.entry.work.now me.old.stops me.new.stops result }
{
    let MachineContext { machine, rt } = context;
    let StopJob { work, holds } = job;
    me.is_shown(&machine.stops);
    take_gate(machine, rt, me, handler, run);
    begin(machine, me, work);
    put_to_all(context, me, handler, run, work);
    match holds {
        Holds::UntilDone => {
            let answer = collect(machine, rt, me, handler, run);
            give_gate(machine, me);
            me.is_shown(&machine.stops);
            answer
        }
        Holds::UntilQueued => {
            give_gate(machine, me);
            let answer = collect(machine, rt, me, handler, run);
            me.is_shown(&machine.stops);
            answer
        }
    }
}
