//! A key is changed: by a patch of this CPU, for whose end it waits without taking part in any other stop.

ghost use Rattle.std.specs.Prelude.{◌≡◌, ◌≢◌, ◌<◌, ℕ, true, false, None, Some, []};
ghost use Rattle.smp_labels.specs.Keys.{is_on};
ghost use Rattle.smp_stop_steps.specs.Tells.{first_readings};
ghost use Rattle.smp_multi.specs.Cpu.{gives_gate};
ghost use Rattle.smp_machine.specs.Moves.{patch_after};
ghost use Rattle.smp_multi.specs.Names.{ReadKey};
ghost use Rattle.smp_multi.specs.Nudges.{loads_count};
ghost use Rattle.smp_machine.specs.Keys.{IsPatchOf, Reads, Sets, state_of};
ghost use Rattle.smp_machine.specs.Own.{own_of};
ghost use Rattle.smp_machine.specs.Passes.{LastIsOwn};
ghost use Rattle.smp_machine.specs.MachineCpu.{IsAt};
ghost use Rattle.smp_machine.specs.Stops.{MayBegin, HasCollected, HasStopped};
ghost use Rattle.smp_machine.specs.Works.{Works};

use crate::context::MachineContext;
use crate::hearing::pause;
use crate::machine::Machine;
use crate::machine_cpu::MachineCpu;
use crate::stop::{begin, give_gate, look_done, put_to_all, take_gate};
use crate::take::take_next;
use crate::turn::{finish_work, turn, turn_and_tell};
use crossbeam_utils::Backoff;
use smp_multi::StopFunc;
use smp_queue::Handler;
use smp_words::work::{Kind, Work};
use std::alloc::Allocator;
use std::sync::Wait;

/// A turn, and then the next work up to its completion: whether it was the own patch.
fn run_next<A: Allocator, R: Wait, H: Handler, F: StopFunc>(
    context: MachineContext<A, R>,
    me: &mut MachineCpu<A>,
    handler: &mut H,
    run: &mut F,
    work: &Work,
) -> bool
    requires at { IsAt context.machine.now me.old }
    requires outside { me.old.stops.inside ≡ None }
    requires begun { me.old.stops.pending ≡ Some work.now }
    requires several { work.now.kind ≢ Kind.One }
    ensures works { Works H.leads F.leads me.old handler.old run.old me.new handler.new run.new (own_of me.old) }
    ensures outside { me.new.stops.inside ≡ None }
    ensures read { result ≡ true → me.new.stops.part.readings ≡ first_readings me.old.stops.number me.old.stops.number work.now }
    ensures last { result ≡ true → LastIsOwn me.old.passes me.new.passes }
{
    let MachineContext { machine, rt } = context;
    let number = me.number();
    turn(machine, me, handler, run);
    match take_next(machine, rt, me) {
        None => false,
        Some(slot) => {
            finish_work(machine, rt, me, handler, run);
            slot == number
        }
    }
}

/// Runs works until the own patch has run here. It spins, since that is in this CPU's queue by then.
fn run_own_patch<A: Allocator, R: Wait, H: Handler, F: StopFunc>(
    context: MachineContext<A, R>,
    me: &mut MachineCpu<A>,
    handler: &mut H,
    run: &mut F,
    work: &Work,
)
    requires at { IsAt context.machine.now me.old }
    requires outside { me.old.stops.inside ≡ None }
    requires begun { me.old.stops.pending ≡ Some work.now }
    requires several { work.now.kind ≢ Kind.One }
    ensures works { Works H.leads F.leads me.old handler.old run.old me.new handler.new run.new (own_of me.old) }
    ensures outside { me.new.stops.inside ≡ None }
    ensures read { me.new.stops.part.readings ≡ first_readings me.old.stops.number me.old.stops.number work.now }
    ensures last { LastIsOwn me.old.passes me.new.passes }
{
    let backoff = Backoff::new();
    for _ in context.rt.forever() {
        if run_next(context, me, handler, run, work) {
            return;
        }
        backoff.snooze();
    }
    unreachable!()
}

/// Waits for the own stop, and takes no work meanwhile: its result.
fn collect_quietly<A: Allocator, R: Wait, H: Handler, F: StopFunc>(
    machine: &Machine<A>,
    rt: &R,
    me: &mut MachineCpu<A>,
    handler: &mut H,
    run: &mut F,
) -> i32
    requires at { IsAt machine.now me.old }
    requires outside { me.old.stops.inside ≡ None }
    requires begun { me.old.stops.pending ≢ None }
    ensures collected { HasCollected H.leads F.leads me.old handler.old run.old me.new handler.new run.new result }
    ensures read { me.new.stops.part.readings ≡ me.old.stops.part.readings }
    ensures passes { me.new.passes ≡ me.old.passes }
{
    let mut waits = pause(machine, me);
    for _ in rt.forever() {
        waits.before_look();
        match look_done(machine, me) {
            Some(answer) => return answer,
            None => {
                let (_, interrupted) = turn_and_tell(machine, me, handler, run);
                waits.after_look(rt, interrupted);
            }
        }
    }
    unreachable!()
}

/// Makes the patch on a CPU that holds the gate, and gives the gate up: the patch's answer.
pub(crate) fn patch<A: Allocator, R: Wait, H: Handler, F: StopFunc>(
    context: MachineContext<A, R>,
    me: &mut MachineCpu<A>,
    handler: &mut H,
    run: &mut F,
    work: &Work,
) -> i32
    requires at { IsAt context.machine.now me.old }
    requires outside { me.old.stops.inside ≡ None }
    requires gate { me.old.stops.part.holds ≡ true }
    requires collected { me.old.stops.pending ≡ None }
    requires several { work.now.kind ≢ Kind.One }
    requires work { MayBegin context.machine.now.stops work.now }
    ensures stopped { HasStopped H.leads F.leads (patch_after []) work.now me.old handler.old run.old me.new handler.new run.new result }
    ensures read { me.new.stops.part.readings ≡ first_readings me.old.stops.number me.old.stops.number work.now }
    ensures last { LastIsOwn me.old.passes me.new.passes }
{
    let MachineContext { machine, rt } = context;
    begin(machine, me, work);
    put_to_all(context, me, handler, run, work);
    run_own_patch(context, me, handler, run, work);
    let answer = collect_quietly(machine, rt, me, handler, run);
    give_gate(machine, me);
    answer
}

/// Whether the key is on.
fn read<A: Allocator>(machine: &Machine<A>, me: &mut MachineCpu<A>, k: u32) -> bool
    requires at { IsAt machine.now me.old }
    requires outside { me.old.stops.inside ≡ None }
    requires key { k < machine.now.stops.setting.labels.keys }
    ensures { (count : ℕ) × (is_on count ≡ result) × (me.new ≡ record me.old { stops = loads_count k count me.old.stops }) }
{
    // Interrupts are on outside a stop.
    let _on = me.stops.interrupts_on();
    match machine.stops.read_key(&mut me.stops, k) {
        Ok(on) => on,
        Err(_) => unreachable!(),
    }
}

/// Whether the key is so already; then the gate is given up.
fn stands<A: Allocator>(machine: &Machine<A>, me: &mut MachineCpu<A>, k: u32, on: bool) -> bool
    requires at { IsAt machine.now me.old }
    requires outside { me.old.stops.inside ≡ None }
    requires gate { me.old.stops.part.holds ≡ true }
    requires key { k < machine.now.stops.setting.labels.keys }
    ensures yes { result ≡ true → (count : ℕ) × (is_on count ≡ on)
        × (me.new ≡ record me.old { stops = gives_gate (loads_count k count me.old.stops) }) }
    ensures no { result ≡ false → (count : ℕ) × (is_on count ≢ on) × (me.new ≡ record me.old { stops = loads_count k count me.old.stops }) }
{
    if read(machine, me, k) != on {
        return false;
    }
    give_gate(machine, me);
    true
}

/// A change of a key: which one, whether it is on then, and the work of the patch.
#[derive(Clone, Copy)]
pub(crate) struct KeyChange<'a> {
    pub(crate) k: u32,
    pub(crate) on: bool,
    pub(crate) work: &'a Work,
}

/// Turns a key on or off by this patch, unless it is so already: whether there was a patch.
pub(crate) fn set<A: Allocator, R: Wait, H: Handler, F: StopFunc>(
    context: MachineContext<A, R>,
    me: &mut MachineCpu<A>,
    handler: &mut H,
    run: &mut F,
    key: KeyChange,
) -> bool
    requires at { IsAt context.machine.now me.old }
    requires outside { me.old.stops.inside ≡ None }
    requires collected { me.old.stops.pending ≡ None }
    requires key { key.k < context.machine.now.stops.setting.labels.keys }
    requires patch { IsPatchOf context.machine.now.stops key.k (state_of key.on) key.work.now }
    requires work { MayBegin context.machine.now.stops key.work.now }
    ensures sets { Sets H.leads F.leads context.entry.machine.now.stops key.entry.k key.entry.on me.old handler.old run.old me.new handler.new run.new result }
    ensures read { Reads me.new.stops (ReadKey key.entry.k key.entry.on) }
    ensures last { result ≡ true → LastIsOwn me.old.passes me.new.passes }
    ensures outside { me.new.stops.inside ≡ None }
{
    let MachineContext { machine, rt } = context;
    let KeyChange { k, on, work } = key;
    take_gate(machine, rt, me, handler, run);
    if stands(machine, me, k, on) {
        return false;
    }
    patch(context, me, handler, run, work);
    true
}
