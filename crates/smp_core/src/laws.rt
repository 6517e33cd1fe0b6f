//! What every order of steps leaves of a core. All but `lawful_replay` do nothing.

ghost use Rattle.std.specs.Prelude.{◌≡◌, ◌↔◌, ℕ, Some, None, IfOk, IsErrOf};
ghost use Rattle.smp_words.specs.Commands.{FitsCommand};
ghost use Rattle.smp_words.specs.Layout.{number_in};
ghost use Rattle.smp_words.specs.Limits.{AreLimits};
ghost use Rattle.smp_words.specs.declared.command.Command.{Command};
ghost use Rattle.smp_call_steps.specs.Headline.{InOnePlace, RunOnce, RunInOrder, RunEqualQueued};
ghost use Rattle.smp_stop_steps.specs.Headline.{RunDisabled, IsLawfulElse};
ghost use Rattle.smp_stop_steps.specs.Table.{stop_number};
ghost use Rattle.smp_core.specs.Broken.{all_ones};
ghost use Rattle.smp_core.specs.Headline.{HasState, OfCalls, OfStops, calls_after, stops_after};
ghost use Rattle.smp_core.specs.Machine.{Stepped, step_of};
ghost use Rattle.smp_core.specs.New.{new_core};
ghost use Rattle.smp_core.specs.Runs.{IsReplay};
ghost use Rattle.smp_core.specs.Start.{refusal_of, started};
ghost use Rattle.smp_core.specs.Value.{CoreValue};
ghost use Rattle.smp_core.specs.Whole.{IsWhole, KeepsLaws};

use crate::events::{Replayed, replay};
use crate::machine::Core;
use smp_labels::LabelMap;
use smp_mask::{CpuMask, SmpError};
use smp_words::command::Event;
use std::alloc::Allocator;

/// A step of a core that is whole leaves one that is, and so does the beginning of a command that may start, with numbers
/// of its types.
pub fn cores_stay_whole()
    ensures step { (core : CoreValue) (cpu : ℕ) (s : Stepped) → IsWhole core → step_of core cpu ≡ Some s → IsWhole s.core }
    ensures start { (core : CoreValue) (cpu : ℕ) (c : Command) → IsWhole core → FitsCommand c → refusal_of core cpu c ≡ None → IsWhole (started core cpu c) }
{}

/// A core that is whole keeps all laws, between any two steps: its words and stages show calls that keep the place law, the
/// queue history, the interrupt law and the tally law, and stops that keep the phase law, the function law, the label law
/// and the count law. CPUs that are not online have no part in them, and inside `handle` interrupts are on.
pub fn whole_cores_keep_laws()
    ensures { (core : CoreValue) → IsWhole core → KeepsLaws core }
{}

/// The headline, of every core: whatever it shows of calls and stops, and it shows some.
/// - `place`: each record is free, held by its source, or locked in exactly one queue, batch or SYNC call that runs.
/// - `once`: what a source has sent to a CPU is what has begun and what waits there of it, each call once.
/// - `order`: of each class, calls begin in the order in which they joined the queue.
/// - `function`: the function of a rendezvous runs only while its whole mask has acknowledged disabled interrupts.
/// - `lawful`: while no CPU makes a patch, the label table is lawful.
/// - `drained`: on a drained machine calls run equal calls queued.
pub fn headline<A: Allocator>(core: &Core<A>)
    ensures state { HasState core.now }
    ensures place { OfCalls core.now InOnePlace }
    ensures once { OfCalls core.now (λ a at. RunOnce a) }
    ensures order { OfCalls core.now (λ a at. RunInOrder a) }
    ensures function { OfStops core.now (λ p at. RunDisabled p) }
    ensures lawful { OfStops core.now IsLawfulElse }
    ensures drained { OfCalls core.now RunEqualQueued }
{
    core.is_whole();
}

/// Not every value is a core's: here all words are 1, and no CPU is inside a command. The laws of the headline rule out what
/// `headline_can_be_broken` of `smp_call_steps` and of `smp_stop_steps` has.
pub fn headline_can_be_broken()
    ensures state { ¬ (HasState all_ones) }
{}

/// The headline, of any list of events on a new machine: the calls and the stops are those that the steps tell, one after the
/// other, and the words are the core's.
pub fn lawful_replay<A: Allocator + Copy>(
    alloc: A,
    nr: u32,
    online: CpuMask,
    labels: &LabelMap,
    events: &[Event],
) -> Result<Replayed<A>, SmpError>
    ensures run { IfOk result (λ r. IsReplay (new_core nr online labels.now) events.now r.core r.seen.items r.stopped) }
    ensures place { IfOk result (λ r. InOnePlace (calls_after r.seen.items) (number_in r.core.words)) }
    ensures once { IfOk result (λ r. RunOnce (calls_after r.seen.items)) }
    ensures order { IfOk result (λ r. RunInOrder (calls_after r.seen.items)) }
    ensures function { IfOk result (λ r. RunDisabled (stops_after (new_core nr online labels.now) events.now r.seen.items)) }
    ensures lawful { IfOk result (λ r. IsLawfulElse (stops_after (new_core nr online labels.now) events.now r.seen.items)
        (stop_number r.core.stops.table)) }
    ensures drained { IfOk result (λ r. RunEqualQueued (calls_after r.seen.items) (number_in r.core.words)) }
    ensures refused { IsErrOf result SmpError.BadArgument ↔ (¬ (AreLimits nr online)) }
{
    let core = Core::with_labels(alloc, nr, online, labels)?;
    replay(alloc, core, events)
}
