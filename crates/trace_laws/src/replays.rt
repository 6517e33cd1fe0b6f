//! What the pure machine does is accepted by the model of events. These functions do nothing.

ghost use Rattle.trace_laws.specs.AcceptedReplays.{CallsOfReplaysAreAccepted, ReplaysAreAccepted};
ghost use Rattle.trace_laws.specs.AgreeingPatches.{PatchesStoreThePlan};
ghost use Rattle.trace_laws.specs.ReplayTexts.{TextsOfReplaysAreLawful, TextsReadBack, TracesAreLawful};

/// Each replay of a machine in which nothing was begun is accepted: the model of events has a run of the events that its steps tell,
/// in any order of steps, whatever commands are refused on the way. So `smp judge` refuses nothing that the machine does. The trace
/// is of the machine's keys and sites, and the masks of the stops are of CPUs.
///
/// The state to which the run leads is that of the machine. It has the same queues, batches, calls that run, interrupts and places of
/// records, the same gate, open stops, phases and answers, the same keys and sites, and the same stores left of a patch. So no step of
/// the machine is left untold.
pub fn replays_are_accepted()
    ensures { ReplaysAreAccepted }
{}

/// The events of calls of each replay are accepted, where the events of stops, keys and sites are left out: no queue, send, interrupt,
/// take, begin, end or unlock that the machine makes is refused.
pub fn calls_of_replays_are_accepted()
    ensures { CallsOfReplaysAreAccepted }
{}

/// The stores that the model takes of a patch are those that the machine plans, in their order: for each key, each count that the
/// patch finds, and each that it leaves.
pub fn patches_store_the_plan()
    ensures { PatchesStoreThePlan }
{}

/// What `smp events` writes of a script is judged lawful by `smp judge`, within the judge's limits. It is the trace of the replay of
/// the script's commands and steps, up to the first that is refused. The judge counts just the events of that replay, and the state at
/// its end is that of the machine.
pub fn traces_of_scripts_are_lawful()
    ensures { TracesAreLawful }
{}

/// The trace of each replay on the machine of a script is judged lawful in the same way, whatever its commands are. The numbers of
/// the commands are of their types, and the text is within the judge's limits.
pub fn texts_of_replays_are_lawful()
    ensures { TextsOfReplaysAreLawful }
{}

/// The trace of any events reads back: the judge reads its head as the script's CPUs and labels, and from its lines just these events,
/// in their order. The numbers of the events fit their fields, the stop that a CPU opens or collects has the CPU's number, and the text is
/// within the judge's limits.
pub fn texts_of_events_read_back()
    ensures { TextsReadBack }
{}
