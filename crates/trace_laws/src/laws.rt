//! The laws of calls, of stops and of labels. They hold of every trace that the model accepts: of events that lead from a state
//! in which nothing has happened to another. Each law is said over what the events show. These functions do nothing.

ghost use Rattle.trace_laws.specs.Drained.{DrainedEquals};
ghost use Rattle.trace_laws.specs.LawfulLabels.{LabelsAreLawful, ReadsAreLawful};
ghost use Rattle.trace_laws.specs.HandledCalls.{CallActs, CallsAreDone};
ghost use Rattle.trace_laws.specs.Interrupts.{InterruptsTakeTurns, SendsHaveTargets, SwitchesTakeTurns};
ghost use Rattle.trace_laws.specs.LostQueues.{InterruptIsOwed, InterruptIsTold, QueuesAreNotLost};
ghost use Rattle.trace_laws.specs.Places.{InOnePlace};
ghost use Rattle.trace_laws.specs.OpenStops.{GateIsOfOne, StopsOpenOnce};
ghost use Rattle.trace_laws.specs.StopEvents.{FunctionsRunAtRun, PatchesStoreAtRun};
ghost use Rattle.trace_laws.specs.StopResults.{EntersAreCalled, ResultsAreOfAll};
ghost use Rattle.trace_laws.specs.Phases.{AcksAreInTurn, CompletesAreThrough, RaisesAreInTurn, SwitchesAreAtPhases, WorksAreOfOnline};
ghost use Rattle.trace_laws.specs.AcceptedTexts.{AcceptedAreTraces};
ghost use Rattle.trace_laws.specs.Traces.{BeginInOrder, BeginOnce, CountsAre, EndOnce, OfEachTrace, IsTrace};
ghost use Rattle.trace_laws.specs.ReadVersions.{OthersAreThird, StopsAreNumbered, UnknownIsAsync};
ghost use Rattle.trace_laws.specs.RecordTurns.{RecordsTakeTurns};
ghost use Rattle.trace_laws.specs.Targets.{CallsHaveTargets, OthersHaveTargets, StopsAreLow, StopsAreThere};
ghost use Rattle.trace_model.specs.declared.event.Event.{Event};
ghost use Rattle.trace_model.specs.declared.without.Setting.{Setting};
ghost use Rattle.trace_model.specs.State.{StateValue};
ghost use Rattle.smp_labels.specs.declared.words.LabelWords.{LabelWords};
ghost use Rattle.std.specs.Prelude.{ℕ, List};

/// A text that the judge accepts is a trace, to which the laws below apply: the lines behind its head tell events, each of a CPU below
/// 512, that lead to the state of the verdict, and its labels are lawful at first.
pub fn accepted_texts_are_traces()
    ensures { AcceptedAreTraces }
{}

/// A call begins at most once, on the CPU that it was queued for, with its record, function and argument: what a CPU's `begin`
/// events tell, with the calls that it still holds, are the calls that were queued for it, in some order. And it ends at most
/// once: the records of a CPU's `begin` events are those of its `end` events, in that order, and that of the call that runs.
pub fn calls_run_once()
    ensures begin { OfEachTrace BeginOnce }
    ensures end { OfEachTrace EndOnce }
{}

/// A call, or what shares its queue, is queued for another CPU that is online. What a CPU does in a stop is of the CPUs below 32, and the
/// stop that is opened, entered or collected is one of the 64.
pub fn calls_have_targets()
    ensures targets { CallsHaveTargets }
    ensures others { OthersHaveTargets }
    ensures stops { StopsAreLow }
    ensures numbers { StopsAreThere }
{}

/// Where the order of queues is told, a CPU's queue is not empty exactly where something, a call or what shares its queue, has
/// joined it since the CPU's last `take`. Wherever it is not empty, the CPU has accepted an interrupt, one is pending for it, or a
/// CPU owes it one. The events are of CPUs below 512. An interrupt is pending for a CPU from a `send` to it until its `accept`, and is
/// accepted until its `take`. Where the order is told, a CPU owes an interrupt from when it adds to an empty queue until its `send` there.
pub fn queues_are_not_lost()
    ensures queues { QueuesAreNotLost }
    ensures interrupts { OfEachTrace InterruptIsTold }
    ensures owed { OfEachTrace InterruptIsOwed }
{}

/// A CPU below 512 accepts an interrupt that is pending, finds none where none is, and where interrupts are told it takes its queue once
/// it has accepted one. An interrupt is sent to a CPU that is online. Where switches are told, a CPU turns its interrupts off and on in
/// turn. It accepts one, finds none, takes its queue and begins a call with its interrupts on.
pub fn interrupts_are_taken_in_turn()
    ensures turns { InterruptsTakeTurns }
    ensures targets { SendsHaveTargets }
    ensures switches { SwitchesTakeTurns }
{}

/// Where the order of queues and the unlocks are told, a CPU handles the calls that it takes one after the other: a SYNC call's function
/// begins and ends before its record is unlocked, an ASYNC call's record is unlocked before its function begins. A CPU below 512 accepts
/// an interrupt, finds none, takes its queue or turns its interrupts off only once each call that began there has ended, and where the
/// order is told, each call that it took. But for a `take` it has then accepted no interrupt.
pub fn calls_are_handled_in_turn()
    ensures acts { OfEachTrace CallActs }
    ensures quiet { CallsAreDone }
{}

/// Calls begin in the order of the queues that a CPU takes: at each `take` the calls that were queued since the one before,
/// SYNC ones first, each class as it was queued.
pub fn calls_begin_in_order()
    ensures { OfEachTrace BeginInOrder }
{}

/// A CPU's counts are those of the events, modulo 2^64. Once all is drained, each call has ended, and for each pair of CPUs the
/// calls that ran are as many as those that were queued.
pub fn drained_runs_equal_queued()
    ensures counts { OfEachTrace CountsAre }
    ensures drained { OfEachTrace DrainedEquals }
{}

/// Each record is in one place: it is free, or it is once in one queue, in one batch, or of one call that runs. Where the order and
/// the unlocks are told, it is queued and unlocked in turn, and seen free only between an unlock and the next call.
pub fn records_are_in_one_place()
    ensures turns { RecordsTakeTurns }
    ensures place { (u : Setting) (words : LabelWords) (es : List (ℕ × Event)) (t : StateValue) → IsTrace u words es t → InOnePlace t }
{}

/// In version 3 the class of a call may be unknown where neither the order nor unlocks are told, and is read as ASYNC. A wake and irq
/// work may join a queue. Before version 3 a stop has the number of the CPU that opens or collects it.
pub fn versions_differ()
    ensures unknown { UnknownIsAsync }
    ensures others { OthersAreThird }
    ensures numbers { StopsAreNumbered }
{}

/// A stop is opened only while it is not open, and entered and collected only while it is. One CPU at a time holds the gate; it
/// alone releases it, and opens stops where the gate is told.
pub fn stops_open_once()
    ensures opens { StopsOpenOnce }
    ensures gate { GateIsOfOne }
{}

/// A CPU enters a stop that is open and calls it, once, while it is in none. A result is collected once each CPU of the mask has
/// completed: it is 0 where all answered 0, and else one of their answers that are not 0.
pub fn stops_give_results()
    ensures called { EntersAreCalled }
    ensures results { ResultsAreOfAll }
{}

/// A stop is opened with a work of CPUs that are online: one alone, one at least, or of a patch all. A CPU acknowledges the phases of its
/// rendezvous one after the other, each once all CPUs of the mask have acknowledged the one before, DISABLE_IRQ with its interrupts off
/// where switches are told, and RUN, if it is active and makes no patch, once its function has run. A phase is raised once all have
/// acknowledged the one before, by the last of them, and once; where raises are told, it is acknowledged only then. A CPU turns its
/// interrupts off between PREPARE and DISABLE_IRQ, and on once it has acknowledged EXIT. It completes once its function has run, or once
/// it has acknowledged EXIT, with its interrupts on where switches are told.
pub fn stops_go_by_phases()
    ensures works { WorksAreOfOnline }
    ensures acks { AcksAreInTurn }
    ensures raises { RaisesAreInTurn }
    ensures completes { CompletesAreThrough }
    ensures switches { SwitchesAreAtPhases }
{}

/// A function runs once, in the stop that its CPU is in, with the argument that was opened. That of a rendezvous runs only at RUN,
/// and so a patch stores: the CPU is active and has not acknowledged RUN, and each CPU of the mask is in this stop, has
/// acknowledged DISABLE_IRQ and not EXIT, has its interrupts off, and runs no call.
pub fn functions_run_at_run()
    ensures run { FunctionsRunAtRun }
    ensures store { PatchesStoreAtRun }
{}

/// Each site has the kind of its key's state and its branch, but while a patch is at RUN; then all CPUs online are held in its stop.
/// So a CPU that is online and reads a key or a site finds all of them so, and what it reads is what the events have stored.
pub fn labels_are_lawful()
    ensures outside { LabelsAreLawful }
    ensures read { ReadsAreLawful }
{}
