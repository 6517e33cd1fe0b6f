//! A key's count goes up or down by one: by a nudge where the key stays on, else by a patch.

ghost use Rattle.std.specs.Prelude.{◌≡◌, ◌<◌, None, true, false, [], ◌∷◌};
ghost use Rattle.smp_multi.specs.Nudges.{NudgeAnswers};
ghost use Rattle.smp_machine.specs.Counts.{step_of, Nudges, Patches, Counts, CountsFrom};
ghost use Rattle.smp_stop_steps.specs.declared.known.OwnMove.TheVariants.{Took};
ghost use Rattle.smp_machine.specs.MachineCpu.{IsAt};

use crate::context::MachineContext;
use crate::key::patch;
use crate::key_work::patch_work;
use crate::machine::Machine;
use crate::machine_cpu::MachineCpu;
use crate::stop::{give_gate, take_gate};
use crossbeam_utils::Backoff;
use smp_labels::Change;
use smp_mask::SmpError;
use smp_multi::{Nudge, StopFunc};
use smp_queue::Handler;
use std::alloc::Allocator;
use std::sync::Wait;

/// The change by one.
fn step(up: bool) -> Change
    ensures { result ≡ step_of up }
{
    if up { Change::Up } else { Change::Down }
}

/// Tries once to nudge the count.
#[inline(always)]
fn try_key<A: Allocator>(
    machine: &Machine<A>,
    me: &mut MachineCpu<A>,
    k: u32,
    up: bool,
) -> Result<Nudge, SmpError>
    requires at { IsAt machine.now me.old }
    ensures answers { NudgeAnswers k up me.old.stops me.new.stops result }
    ensures rest { me.new ≡ record me.old { stops = me.new.stops } }
{
    machine.stops.try_key(&mut me.stops, k, up)
}

/// Nudges the count, which another CPU has just changed: tries again as long as that is so.
#[cold]
#[inline(never)]
fn nudge_again<A: Allocator, R: Wait>(
    machine: &Machine<A>,
    rt: &R,
    me: &mut MachineCpu<A>,
    k: u32,
    up: bool,
) -> Result<bool, SmpError>
    requires at { IsAt machine.now me.old }
    requires outside { me.old.stops.inside ≡ None }
    requires key { k < machine.now.stops.setting.labels.keys }
    ensures nudges { Nudges k up me.old.stops me.new.stops result }
    ensures rest { me.new ≡ record me.old { stops = me.new.stops } }
{
    // Interrupts are on outside a stop.
    let _on = me.stops.interrupts_on();
    let backoff = Backoff::new();
    backoff.snooze();
    for _ in rt.forever() {
        match try_key(machine, me, k, up) {
            Ok(Nudge::Done) => return Ok(true),
            Ok(Nudge::Stop) => return Ok(false),
            Ok(Nudge::Lost) => backoff.snooze(),
            Err(error) => return Err(error),
        }
    }
    unreachable!()
}

/// Nudges the count where the key stays on, and tries again as long as another CPU has changed it meanwhile: false where
/// the key would turn.
#[inline(always)]
fn nudge<A: Allocator, R: Wait>(
    machine: &Machine<A>,
    rt: &R,
    me: &mut MachineCpu<A>,
    k: u32,
    up: bool,
) -> Result<bool, SmpError>
    requires at { IsAt machine.now me.old }
    requires outside { me.old.stops.inside ≡ None }
    requires key { k < machine.now.stops.setting.labels.keys }
    ensures nudges { Nudges k up me.old.stops me.new.stops result }
    ensures rest { me.new ≡ record me.old { stops = me.new.stops } }
{
    // Interrupts are on outside a stop.
    let _on = me.stops.interrupts_on();
    match try_key(machine, me, k, up) {
        Ok(Nudge::Done) => Ok(true),
        Ok(Nudge::Stop) => Ok(false),
        Ok(Nudge::Lost) => nudge_again(machine, rt, me, k, up),
        Err(error) => Err(error),
    }
}

/// A change of a key's count by one: which key, and whether up or down.
#[derive(Clone, Copy)]
pub(crate) struct KeyStep {
    pub(crate) k: u32,
    pub(crate) up: bool,
}

/// A patch of the count by one, on a CPU that holds the gate, which it gives up.
fn patch_by_one<A: Allocator, R: Wait, H: Handler, F: StopFunc>(
    context: MachineContext<A, R>,
    me: &mut MachineCpu<A>,
    handler: &mut H,
    run: &mut F,
    key: KeyStep,
) -> Result<bool, SmpError>
    requires at { IsAt context.machine.now me.old }
    requires outside { me.old.stops.inside ≡ None }
    requires gate { me.old.stops.part.holds ≡ true }
    requires collected { me.old.stops.pending ≡ None }
    requires key { key.k < context.machine.now.stops.setting.labels.keys }
    ensures { Patches H.leads F.leads context.entry.machine.now.stops key.k key.up me.old handler.old run.old me.new handler.new run.new result }
{
    let machine = context.machine;
    let change = step(key.up);
    let work = patch_work(&machine.stops, key.k, change);
    let answer = patch(context, me, handler, run, &work);
    if answer == 0 {
        Ok(true)
    } else {
        Err(SmpError::KeyRange(change.edge()))
    }
}

/// Changes the count by one, on a CPU that holds the gate, which it gives up: whether there was a patch.
fn count_at_gate<A: Allocator, R: Wait, H: Handler, F: StopFunc>(
    context: MachineContext<A, R>,
    me: &mut MachineCpu<A>,
    handler: &mut H,
    run: &mut F,
    key: KeyStep,
) -> Result<bool, SmpError>
    requires at { IsAt context.machine.now me.old }
    requires outside { me.old.stops.inside ≡ None }
    requires gate { me.old.stops.part.holds ≡ true }
    requires collected { me.old.stops.pending ≡ None }
    requires key { key.k < context.machine.now.stops.setting.labels.keys }
    ensures { CountsFrom H.leads F.leads [] context.entry.machine.now.stops key.k key.up me.old handler.old run.old me.new handler.new run.new result }
{
    let MachineContext { machine, rt } = context;
    match nudge(machine, rt, me, key.k, key.up) {
        Ok(true) => {
            give_gate(machine, me);
            Ok(false)
        }
        Ok(false) => patch_by_one(context, me, handler, run, key),
        Err(error) => {
            give_gate(machine, me);
            Err(error)
        }
    }
}

/// Takes the gate and changes the count by one: whether there was a patch.
#[cold]
#[inline(never)]
fn count_by_gate<A: Allocator, R: Wait, H: Handler, F: StopFunc>(
    context: MachineContext<A, R>,
    me: &mut MachineCpu<A>,
    handler: &mut H,
    run: &mut F,
    key: KeyStep,
) -> Result<bool, SmpError>
    requires at { IsAt context.machine.now me.old }
    requires outside { me.old.stops.inside ≡ None }
    requires collected { me.old.stops.pending ≡ None }
    requires key { key.k < context.machine.now.stops.setting.labels.keys }
    ensures { CountsFrom H.leads F.leads (Took ∷ []) context.entry.machine.now.stops key.k key.up
        me.old handler.old run.old me.new handler.new run.new result }
{
    take_gate(context.machine, context.rt, me, handler, run);
    count_at_gate(context, me, handler, run, key)
}

/// Changes the count by one: whether there was a patch.
#[inline(always)]
pub(crate) fn count<A: Allocator, R: Wait, H: Handler, F: StopFunc>(
    context: MachineContext<A, R>,
    me: &mut MachineCpu<A>,
    handler: &mut H,
    run: &mut F,
    key: KeyStep,
) -> Result<bool, SmpError>
    requires at { IsAt context.machine.now me.old }
    requires outside { me.old.stops.inside ≡ None }
    requires gate { me.old.stops.part.holds ≡ false }
    requires collected { me.old.stops.pending ≡ None }
    requires key { key.k < context.machine.now.stops.setting.labels.keys }
    ensures { Counts H.leads F.leads context.entry.machine.now.stops key.k key.up me.old handler.old run.old me.new handler.new run.new result }
{
    let MachineContext { machine, rt } = context;
    match nudge(machine, rt, me, key.k, key.up) {
        Ok(true) => Ok(false),
        Ok(false) => count_by_gate(context, me, handler, run, key),
        Err(error) => Err(error),
    }
}
