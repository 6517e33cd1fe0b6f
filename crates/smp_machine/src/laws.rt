//! What holds of running threads, at any time, of each CPU's value.

ghost use Rattle.std.specs.Prelude.{◌≡◌, ◌+◌, true, false, None, All, List, length, [], ◌∷◌, ◌++◌};
ghost use Rattle.smp_words.specs.Size.{cpus};
ghost use Rattle.smp_call_steps.specs.Threads.Parts.{part_of};
ghost use Rattle.smp_call_steps.specs.Headline.{InOnePlace, RunOnce, RunInOrder, RunEqualQueued};
ghost use Rattle.smp_stop_steps.specs.Headline.{RunDisabled, IsLawfulElse};
ghost use Rattle.smp_queue.specs.Laws.{CallsAreShown};
ghost use Rattle.smp_multi.specs.Laws.{IsInside, StopsAreShown};
ghost use Rattle.smp_queue.specs.Together.{AreAllTogether as CallsAllTogether, AllRunWhatIsSent};
ghost use Rattle.smp_multi.specs.Together.{AreAllTogether as StopsAllTogether, AllAreInStep, AllWaitFor};
ghost use Rattle.smp_machine.specs.Crowds.{AreAt, calls_of, stops_of};
ghost use Rattle.smp_machine.specs.GateLaws.{GateIsHeld};
ghost use Rattle.smp_machine.specs.Headline.{AllHaveCalls, HasCalls, HasStops};
ghost use Rattle.smp_machine.specs.Looks.{AreHeardOn, AtPhase, AtWord, HearsOn, Look, heard_after, on_after, phases};
ghost use Rattle.smp_machine.specs.MachineCpu.{MachineCpuValue};
ghost use Rattle.smp_machine.specs.Own.{Own};
ghost use Rattle.smp_machine.specs.StopLaws.{WorksAreOfTheirCpus, StopsAgreeWithOwn, StopsAreMadeOnce, PollsSendNothing};
ghost use Rattle.smp_machine.specs.StopLaws.{QueuesKeepOrder, WorksAreTaken, RefusalsAreInOrder};
ghost use Rattle.smp_machine.specs.ReadLaws.{KindsFollowKeys};
ghost use Rattle.smp_machine.specs.Works.{Works};

use crate::cpu::Cpu;
use crate::crowds::meet;
use crate::machine::Machine;
use smp_multi::StopFunc;
use smp_queue::Handler;
use std::alloc::Allocator;

/// Whatever the threads of other CPUs do: this CPU's value is its part of calls that words of the call table show, and of
/// stops that words of the stop table show, which keep all laws of the two halves. Steps that the CPUs may make lead to those
/// calls from nothing called. Steps of CPUs that are online lead to those stops from no stop begun, but for this CPU's calls of
/// stop functions and the answer that it carries, which no step tells. It has a list of what it has put for each queue that
/// there can be, and one of what is noted with it. It makes no step.
pub fn is_shown<A: Allocator>(machine: &Machine<A>, cpu: &Cpu<A>)
    ensures calls { CallsAreShown cpu.now.calls }
    ensures stops { StopsAreShown cpu.now.stops }
    ensures queues { length cpu.now.passes.put ≡ cpus }
    ensures noted { length cpu.now.passes.noted ≡ cpus }
{
    cpu.place.passes.has_all_queues();
    cpu.place.calls.is_shown();
    smp_multi::laws::is_shown(&machine.stops, &cpu.place.stops);
}

/// Outside a stop a CPU has its interrupts on. It makes no step.
pub fn interrupts_are_on<A: Allocator>(cpu: &Cpu<A>)
    ensures { cpu.now.stops.inside ≡ None → cpu.now.stops.irq ≡ true }
{
    cpu.place.stops.interrupts_on();
}

/// Whatever keys other CPUs change meanwhile: what a CPU has read of a key and of that key's sites, since its interrupts last
/// went on, agrees. A site jumps exactly where its key and its branch differ (`kernel/jump_label.c: jump_label_type`).
pub fn kinds_follow_keys()
    ensures { KindsFollowKeys }
{}

/// Which CPUs the stops stop, which of these are active, and which stops are a rendezvous: that of one CPU is none
/// (`kernel/stop_machine.c: stop_one_cpu`, `stop_two_cpus`, `stop_machine`).
pub fn works_are_of_their_cpus()
    ensures { WorksAreOfTheirCpus }
{}

/// A stop begins one work, and answers its result; it puts the work once into the queue of each CPU that it stops, and
/// nothing else anywhere.
pub fn stops_are_made_once<H: Handler, F: StopFunc>()
    ensures { StopsAreMadeOnce H.leads F.leads }
{}

/// What a stop answers agrees with what its caller has answered there itself, where it stops that too: a result of 0 says
/// that this was 0. `stop_one` of the calling CPU answers just that (`kernel/stop_machine.c: stop_one_cpu`).
pub fn stops_agree_with_own<H: Handler, F: StopFunc>()
    ensures { StopsAgreeWithOwn H.leads F.leads }
{}

/// When the gate is taken and given up, read off the list of the CPU's own moves (`kernel/stop_machine.c: stop_cpus_mutex`).
/// `stop_one` and `stop_two` give it up once their works are queued, and collect after; `stop_machine` and each patch hold it from
/// before they begin until their result is collected. Each stop queues its works once it has begun, with the gate held, in
/// ascending order of CPUs, as it notes with each of them (`kernel/stop_machine.c: queue_stop_cpus_work`). `set_key` reads the key
/// while it holds the gate. `key_inc` and `key_dec` take it only after a look that has found the key about to turn, and look again
/// before they patch.
pub fn gate_is_held<H: Handler, F: StopFunc>()
    ensures { GateIsHeld H.leads F.leads }
{}

/// A CPU that polls, or waits for the gate or for a stop, sends no call.
pub fn polls_send_nothing<H: Handler, F: StopFunc>()
    ensures { PollsSendNothing H.leads F.leads }
{}

/// Whatever threads put into a stopper queue and take from it, each source finds its works in order. What was taken of
/// them, and then what is still there, is what that source has put.
pub fn queues_keep_order()
    ensures { QueuesKeepOrder }
{}

/// A CPU takes the works of its queue one behind the other, from a queue that keeps its rule, and enters the stop of the source
/// that put the work (`kernel/stop_machine.c: cpu_stopper_thread`). It drops a work of a source that is online only after one look at
/// its roll, which has not found the CPU there.
pub fn works_are_taken()
    ensures { WorksAreTaken }
{}

/// Stops and changes of keys are refused with E4 first, where a work is in hand or the argument is not taken. Only else a stop is
/// refused with E3, where a CPU of it is not online.
pub fn refusals_are_in_order()
    ensures { RefusalsAreInOrder }
{}

/// The theorem over threads: the six statements of `smp_core::laws::headline`, of each CPU's value, at any time, whatever other
/// threads do. This value is the CPU's part of calls and of stops that are reached (`calls`, `stops`): steps that the CPUs may make,
/// of any of them in any order, lead to them and to their words, from nothing called and from no stop begun. Words show the stops
/// too. All such calls and stops have of this CPU what the value has (`own`, `inside`, `irq`). The six hold of all of them, so of
/// those of the two tables, which are among them by the tables' rules, and of those of which other CPUs are parts too
/// ([`Machine::together`]).
/// - `place`: Each record is free, held by its source, or locked in exactly one queue, batch or SYNC call that runs.
/// - `once`: What a source has sent to a CPU is what has begun there and what waits there, each call once.
/// - `order`: In each class, calls begin in the order in which they joined the queue, and join it in the order in which they were sent.
/// - `function`: The function of a rendezvous runs only while each CPU of its mask has acknowledged disabled interrupts.
/// - `lawful`: While no CPU makes a patch, the label table is lawful.
/// - `drained`: On a drained machine all that was sent has run. [`Machine::shutdown`] says so of the last words.
///
/// It makes no step.
pub fn headline<A: Allocator>(machine: &Machine<A>, cpu: &Cpu<A>)
    ensures calls { HasCalls cpu.now.calls }
    ensures stops { HasStops cpu.now.stops }
    ensures own { (s : HasCalls cpu.now.calls) → part_of s.now.calls cpu.now.calls.number ≡ cpu.now.calls.part }
    ensures inside { (s : HasStops cpu.now.stops) → IsInside s.now.stops.now cpu.now.stops.number cpu.now.stops.inside }
    ensures irq { (s : HasStops cpu.now.stops) → s.now.stops.now.irq cpu.now.stops.number ≡ cpu.now.stops.irq }
    ensures place { (s : HasCalls cpu.now.calls) → InOnePlace s.now.calls s.now.at }
    ensures once { (s : HasCalls cpu.now.calls) → RunOnce s.now.calls }
    ensures order { (s : HasCalls cpu.now.calls) → RunInOrder s.now.calls }
    ensures function { (s : HasStops cpu.now.stops) → RunDisabled s.now.stops }
    ensures lawful { (s : HasStops cpu.now.stops) → IsLawfulElse s.now.stops s.now.at }
    ensures drained { (s : HasCalls cpu.now.calls) → RunEqualQueued s.now.calls s.now.at }
{
    is_shown(machine, cpu);
}

/// The theorem over threads of all these CPUs at once, whatever the threads of other CPUs do. Their values are their parts of one
/// state of the calls (`calls`) and of one state of the stops (`stops`), which have of each of them what its value has (`own`,
/// `inside`, `irq`), and of which the six statements of [`headline`] hold. Both states are reached, as there. Of the calls there is one
/// that words and stages show (`shown`).
///
/// Three clauses are about the values alone. In each class, the calls of any of these CPUs that have begun on another one are the
/// first of those that it has sent there (`runs`). In the stop of one source any two of them have the same work, and neither has
/// acknowledged more than one phase more than the other (`step`). While one is in the stop of another one, that one has this work
/// pending (`waits`).
///
/// It makes no step.
pub fn headline_of_all<A: Allocator>(machine: &Machine<A>, cpus: &mut [Cpu<A>])
    requires { AreAt machine.now cpus.old }
    ensures kept { cpus.new ≡ cpus.old }
    ensures calls { AllHaveCalls (calls_of cpus.old) }
    ensures shown { CallsAllTogether (calls_of cpus.old) }
    ensures stops { StopsAllTogether (stops_of cpus.old) }
    ensures own { (s : AllHaveCalls (calls_of cpus.old)) → All (λ c. part_of s.now.calls c.number ≡ c.part) (calls_of cpus.old) }
    ensures inside { (s : StopsAllTogether (stops_of cpus.old)) → All (λ c. IsInside s.now.stops.now c.number c.inside) (stops_of cpus.old) }
    ensures irq { (s : StopsAllTogether (stops_of cpus.old)) → All (λ c. s.now.stops.now.irq c.number ≡ c.irq) (stops_of cpus.old) }
    ensures runs { AllRunWhatIsSent (calls_of cpus.old) }
    ensures step { AllAreInStep (stops_of cpus.old) }
    ensures waits { AllWaitFor (stops_of cpus.old) }
    ensures place { (s : AllHaveCalls (calls_of cpus.old)) → InOnePlace s.now.calls s.now.at }
    ensures once { (s : AllHaveCalls (calls_of cpus.old)) → RunOnce s.now.calls }
    ensures order { (s : AllHaveCalls (calls_of cpus.old)) → RunInOrder s.now.calls }
    ensures function { (s : StopsAllTogether (stops_of cpus.old)) → RunDisabled s.now.stops }
    ensures lawful { (s : StopsAllTogether (stops_of cpus.old)) → IsLawfulElse s.now.stops s.now.at }
    ensures drained { (s : AllHaveCalls (calls_of cpus.old)) → RunEqualQueued s.now.calls s.now.at }
{
    let mut calls = machine.calls.crowd();
    let mut stops = machine.stops.crowd();
    meet(machine, &mut calls, &mut stops, cpus);
}

/// Whatever works a CPU has done, it has looked at its interrupt word with interrupts on alone: never between a look at the phase
/// DISABLE_IRQ (2) or RUN (3) and the one at EXIT (4). Each look at the word is noted by the number of looks at phases before it.
pub fn looks_are_made_with_interrupts_on<H: Handler, F: StopFunc>()
    ensures works { (old new : MachineCpuValue) (h h' : H) (f f' : F) (own : Own) → Works H.leads F.leads old h f new h' f' own → HearsOn old new }
    ensures held { (old new : MachineCpuValue) → HearsOn old new → (looks : List Look) × AreHeardOn old.stops.irq looks
        × (new.stops.part.looks ≡ old.stops.part.looks ++ phases looks)
        × (new.heard_at ≡ old.heard_at ++ heard_after (length old.stops.part.looks) looks)
        × (length new.calls.part.asked ≡ length old.calls.part.asked + length (heard_after (length old.stops.part.looks) looks)) }
    ensures on { AreHeardOn true (AtWord ∷ AtPhase 1 ∷ AtWord ∷ []) × AreHeardOn true (AtPhase 2 ∷ AtPhase 3 ∷ AtPhase 4 ∷ AtWord ∷ []) }
    ensures off { (¬ (AreHeardOn true (AtPhase 2 ∷ AtWord ∷ []))) × (¬ (AreHeardOn true (AtPhase 3 ∷ AtWord ∷ [])))
        × (¬ (AreHeardOn false (AtWord ∷ []))) }
    ensures noted { heard_after 5 (AtWord ∷ AtPhase 2 ∷ AtPhase 4 ∷ AtWord ∷ AtWord ∷ []) ≡ 5 ∷ 7 ∷ 7 ∷ [] }
    ensures phases { phases (AtWord ∷ AtPhase 2 ∷ AtWord ∷ AtPhase 4 ∷ []) ≡ 2 ∷ 4 ∷ [] }
    ensures after { (on_after true (AtPhase 2 ∷ AtWord ∷ []) ≡ false) × (on_after true (AtPhase 2 ∷ AtPhase 4 ∷ []) ≡ true)
        × (on_after false (AtWord ∷ []) ≡ false) }
{}
