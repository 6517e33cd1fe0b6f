//! The laws of the stop half, each as a function that does nothing and whose contract is the law.
//!
//! They speak of any number of CPUs and of any words that show stops, so that they hold of the pure machine and of
//! words that threads share alike.

ghost use Rattle.std.specs.Prelude.{◌≡◌};
ghost use Rattle.smp_stop_steps.specs.Promises.{NothingBegun, StepsAreTold, KeepThePhaseLaw, KeepTheCountLaw};
ghost use Rattle.smp_stop_steps.specs.Promises.{KeepTheFunctionLaw, KeepTheLabelLaw, PatchesAlone};
ghost use Rattle.smp_stop_steps.specs.Promises.{KeysStandOutsidePatches, NudgesStand, EdgesAreRead, PatchesAnswer};
ghost use Rattle.smp_stop_steps.specs.Promises.{OwnPatchesAreRead};

/// Words with a free gate, free slots and a lawful label table with all keys off show that no stop was begun.
pub fn nothing_is_begun()
    ensures { NothingBegun }
{}

/// Each step of a CPU, at any stage of any command, is the step of the state of all stops that it tells, and keeps
/// all laws: the words show the stops, the phase law, the label law and the results of stops.
pub fn steps_are_told()
    ensures { StepsAreTold }
{}

ghost use Rattle.smp_stop_steps.specs.StopLaws.{KeepTheStopLaws};

/// Words that show stops keep all laws that follow, between any two steps of any CPUs.
pub fn stop_laws()
    ensures { KeepTheStopLaws }
{}

/// In an open stop of several CPUs each CPU of the mask has acknowledged the phase or the one before it, and the
/// count of acknowledgements says how many have not (`kernel/stop_machine.c: multi_cpu_stop`).
pub fn phase_law()
    ensures { KeepThePhaseLaw }
{}

/// The function of such a stop runs only while every CPU of the mask has acknowledged disabled interrupts, and has
/// them off.
pub fn function_law()
    ensures { KeepTheFunctionLaw }
{}

ghost use Rattle.smp_stop_steps.specs.Functions.{FunctionsRun, FunctionsRunOnce, AnswersMayBeReplaced};

/// A stop function runs only on a CPU that is in a stop whose work has it and its argument. The stop is of kind One, or the
/// CPU is active in a Multi stop, has looked at `RUN` and has not acknowledged it. In a Multi stop every CPU of the mask has
/// then acknowledged disabled interrupts. The function runs from the step that says so to the acknowledgement, or the
/// completion, that carries its answer.
pub fn functions_run()
    ensures { FunctionsRun }
{}

/// Each step of a CPU does one of these of its function. It calls it, and says `run F A`, where it had called none. It
/// acknowledges `RUN`: an active CPU of a Multi stop has called it, the call is in its list, and it carries the answer.
/// It completes: that answer, or 0 where it was not active, is added to its answers, and in a stop of kind One the call to
/// its list. Or nothing.
pub fn functions_run_once()
    ensures { FunctionsRunOnce }
{}

/// Until a CPU completes, no word and no step tells what its function has answered: any answer may be put for it. For words
/// that threads share, where no step of an acknowledgement can be told an answer.
pub fn answers_may_be_replaced()
    ensures { AnswersMayBeReplaced }
{}

ghost use Rattle.smp_stop_steps.specs.Notes.{NotesFit};

/// What the note of each step says of the state, and that no other step changes it so:
/// - `gate` and `open`: which CPU holds the gate.
/// - `begun`: the stop that is open, and its work. `entered`: the stop that the CPU is in.
/// - `same`: the CPU has acknowledged the phase that it looks at.
/// - `moved P`, `ran` and `left`: the phase that it has acknowledged, whether it is active there, and that its interrupts
///   go on.
/// - `run F A`: the function that it has called. `finished`: it is in no stop.
/// - `result V`: what it has collected, as an `i32`.
/// - `on`, `off`, `NOP` and `JMP`: what it has read. `done`: it has moved a count by one.
///
/// A step with no note acknowledges no phase and leaves no stop. The last CPU to do so is the exception: it says so once
/// the next phase, or done, is stored.
pub fn notes_fit()
    ensures { NotesFit }
{}

ghost use Rattle.smp_stop_steps.specs.AnswerWords.{AnswersAreI32s, AnswersAreTaken};

/// Where each result word, and each answer that a CPU has where it is, is the word of an `i32`, each step keeps that.
/// What the function of a command is to answer stays what the command says, until it is called, and `run F A` tells that
/// answer. `result V` is the `i32` of the whole word that is collected: nothing of an answer is cut, and none spills.
pub fn answers_are_i32s()
    ensures steps { AnswersAreI32s }
    ensures commands { AnswersAreTaken }
{}

ghost use Rattle.smp_stop_steps.specs.Closings.{LastStoresDone};

/// Where a stop is open with nothing left to do and done still 0, exactly one CPU is before its store of done: the last to
/// complete, and it has completed.
pub fn last_stores_done()
    ensures { LastStoresDone }
{}

ghost use Rattle.smp_stop_steps.specs.StepLaws.{StepsArePremised};

/// What holds before each step:
/// - A stop is opened by its source, with the gate, while none of its own is open.
/// - A CPU of the mask enters once, from no stop. It acknowledges a phase that it has looked at and that is new to it.
/// - The phase is raised by one, once all have acknowledged it, by the CPU that has refilled the count.
/// - A CPU completes when it is through all phases. The last one stores done. The source collects once all have completed.
/// - So the slot of an open stop is stored to by CPUs in it and by the last to complete alone. That of a stop that is not
///   open is stored to by its source. Only the fetch_and of a roll may be any CPU's.
/// - A key or a site is loaded with interrupts on, or in the function of a patch. An entry is loaded in such a function
///   alone, and so is each store to a key or a site. A count is exchanged with interrupts on.
pub fn steps_are_premised()
    ensures { StepsArePremised }
{}

ghost use Rattle.smp_stop_steps.specs.Interrupts.{KeepTheInterruptLaw};

/// A CPU that has acknowledged `DISABLE_IRQ` and has not left has its interrupts off, and from its look at it on; in no
/// stop it has them on.
pub fn interrupt_law()
    ensures { KeepTheInterruptLaw }
{}

ghost use Rattle.smp_stop_steps.specs.Patchers.{TableIsLawful, PatchersRun, LabelStoresPatch};

/// The label table is lawful whenever no patch is between its first and its last store, whatever CPUs have their
/// interrupts on.
pub fn table_is_lawful()
    ensures { TableIsLawful }
{}

/// Whoever patches is the first online CPU, active in its patch stop, which is at `RUN`, and is alone: every CPU of the
/// mask has acknowledged disabled interrupts.
pub fn patchers_run()
    ensures { PatchersRun }
{}

/// A CPU whose next step is a store to a key or a site patches, and that is the next store of its patch.
pub fn label_stores_patch()
    ensures { LabelStoresPatch }
{}

/// A CPU that is online and has its interrupts on finds a lawful label table, which says all that it has read since
/// they went on.
pub fn label_law()
    ensures { KeepTheLabelLaw }
{}

/// A key's word is what the nudges and the patches of all CPUs have moved it.
pub fn count_law()
    ensures { KeepTheCountLaw }
{}

/// While a patch runs, every online CPU has interrupts off, so that none nudges a count.
pub fn patches_alone()
    ensures { PatchesAlone }
{}

/// While nobody patches, no step of any CPU turns a key on or off or changes a site: a nudge keeps both.
pub fn keys_stand()
    ensures { KeysStandOutsidePatches }
{}

/// A CPU that nudges is online and has its interrupts on, so that nobody patches; it moves a count that is above 0 up or
/// down by one, to one that is above 0.
pub fn nudges_stand()
    ensures { NudgesStand }
{}

/// A nudge is refused at the end of the range only where its load has found the count there, which is a reading: up at
/// 65,535, and the key is on; down at 0, and it is off.
pub fn edges_are_read()
    ensures { EdgesAreRead }
{}

/// A patch acknowledges when it has made all stores that lead from the count that it found. Its answer is 1 where that
/// count is at the end of its range, where it stores nothing, else 0.
pub fn patches_answer()
    ensures { PatchesAnswer }
{}

/// A CPU that leaves its own patch has read the key: off after change 0, on after 1 and 2, and nothing after 3.
pub fn own_patches_are_read()
    ensures { OwnPatchesAreRead }
{}

ghost use Rattle.smp_stop_steps.specs.Refusals.{RefusalsAreOfTheState};

/// Each refusal of a command by a CPU outside a command is that of the stops that the half shows:
/// - An enter is refused by E7 exactly where the CPU is in a stop, or there is no such slot.
/// - A handle, a reading and a nudge are refused by E4 exactly where its interrupts are off, or there is no such key or site.
/// - A turn, a run and a finish go by the stop that it is in, and whether it has left it. A poll goes by its own stop, and
///   giving up the gate by the gate's holder.
/// - A begin is refused by E8 where its own stop is open. Else it is E4 where it does not hold the gate or the work is none,
///   and else E3 where some CPU of the mask is not online.
pub fn refusals_are_of_the_state()
    ensures { RefusalsAreOfTheState }
{}

ghost use Rattle.smp_stop_steps.specs.Members.{BeginsByMembers};

/// A begin is refused by the members of its masks and by its numbers. E8 where the CPU's own stop is open. Then E4 where the
/// gate is not held, the mask is empty, a stop of kind One has another number of CPUs than one, or a patch is none. A patch
/// has the mask of all CPUs online, an active mask of the least of them alone, a key as its `func`, and an `arg` below 4.
/// Then E3 where a CPU of the mask is not online. Else it is not refused.
pub fn begins_by_members()
    ensures { BeginsByMembers }
{}

ghost use Rattle.smp_stop_steps.specs.Numbers.{WordsHaveNumbers};

/// A stop table has just the words that have a number in it ([`smp_words::stop_index`]).
pub fn words_have_numbers()
    ensures { WordsHaveNumbers }
{}

ghost use Rattle.smp_stop_steps.specs.Threads.Moves.{NothingIsKnown, MovesAreKnown};

/// A CPU that has done nothing knows its part of the state in which nothing was begun.
pub fn nothing_is_known()
    ensures { NothingIsKnown }
{}

/// For words that threads share: each kind of step that a CPU may make, by what it knows of the stops, goes on to stops that
/// the words show. The CPU knows its part of these as the step has told it, and every other CPU what it knew. These stops
/// are just those that the step tells, of the stops before it. The store of an answer puts that answer for the function's.
pub fn moves_are_known()
    ensures { MovesAreKnown }
{}

ghost use Rattle.smp_stop_steps.specs.KnownLaws.{KnownMovesKeepLaws, KnownStepsCount};

/// Where threads share the words, what holds before each step that a CPU may make by what it knows is what holds before the
/// steps of commands (`steps_are_premised`). A store to a key or a site is the next one of its own patch. While nobody
/// patches, no such step turns a key on or off or changes a site.
pub fn known_moves_keep_laws()
    ensures { KnownMovesKeepLaws }
{}

ghost use Rattle.smp_stop_steps.specs.Reached.{MovesReach};

/// Where threads share the words, each step that an online CPU may make by what it knows leads from stops and words that are
/// reached to such. Stops and words are reached where some steps lead to them from words that show no stop begun. Each of these
/// steps is one of a CPU that is online, of any of them in any order. It finds what is in its word, and what holds before the
/// steps of commands (`steps_are_premised`) holds before it. Its stops are those that it tells, as in `moves_are_known`.
pub fn moves_reach()
    ensures { MovesReach }
{}

/// Where threads share the words, each step that a CPU may make by what it knows is counted once in its number of steps. Not
/// counted are three stores: the count again, the next phase, and done. The last CPU alone makes each, at a seat of its own.
pub fn known_steps_count()
    ensures { KnownStepsCount }
{}

ghost use Rattle.smp_stop_steps.specs.Commands.{CommandsBeginSo, BeginsStoreTheWork, WorksAreBegun, NudgesGoSo, NotesEndCommands};
ghost use Rattle.smp_stop_steps.specs.Commands.{InterruptsGoOffAtDisable};

/// The first step of a command is its own, and to the word that the command names: the gate, the own slot, the slot of the
/// stop that the CPU is in, the key or the site.
pub fn commands_begin_so()
    ensures { CommandsBeginSo }
{}

/// A begin stores its own work, field by field, and opens the stop of just that work.
pub fn works_are_begun()
    ensures stores { BeginsStoreTheWork }
    ensures begun { WorksAreBegun }
{}

/// A nudge exchanges the count that it has found for one more or one less, as its command says. It says `stop` just where
/// the key would turn on or off.
pub fn nudges_go_so()
    ensures { NudgesGoSo }
{}

/// The step that ends a command has a note. No other step has one, but that after which a function runs.
pub fn notes_end_commands()
    ensures { NotesEndCommands }
{}

ghost use Rattle.smp_stop_steps.specs.Endings.{CommandsEndSo, NotesAreOfTheFound, PhasesAreAckedOnce};
ghost use Rattle.smp_stop_steps.specs.Touches.{WordsInOrder, PatchesInOrder};

/// A command ends at these stages, by what was found there, and at no other; everywhere else a step of the same command
/// follows. So a gate that is taken ends its command, and so does a poll that finds nothing.
pub fn commands_end_so()
    ensures { CommandsEndSo }
{}

/// The note of a step says what the step has found. A turn says `same` just where it finds again the phase that it has
/// acknowledged, and `moved` with the phase that it acknowledges now; it acknowledges one phase by its subtraction alone.
pub fn notes_are_of_the_found()
    ensures says { NotesAreOfTheFound }
    ensures phases { PhasesAreAckedOnce }
{}

/// The steps of a command touch their words in one order. A patch loads its entries before its first store, and stores the
/// key's word before its sites, which ascend.
pub fn words_are_touched_in_order()
    ensures words { WordsInOrder }
    ensures patches { PatchesInOrder }
{}

/// A CPU's interrupts go off only by a load that finds `DISABLE_IRQ` in the state word of its stop.
pub fn interrupts_go_off_at_disable()
    ensures { InterruptsGoOffAtDisable }
{}

ghost use Rattle.std.specs.Prelude.{ℕ, ◌<◌, ◌≤◌, true};
ghost use Rattle.smp_mask.specs.Mask.{has};
ghost use Rattle.smp_stop_steps.specs.Value.{setup_of};
ghost use Rattle.smp_labels.specs.Labels.{Labels};

/// The first CPU online, which alone makes patches, is the one with the least number.
pub fn first_is_least()
    ensures { (online : ℕ) (labels : Labels) (c : ℕ) → c < 32 → has online c ≡ true → (setup_of online labels).first ≤ c }
{}

ghost use Rattle.smp_stop_steps.specs.State.{no_stops};
ghost use Rattle.smp_stop_steps.specs.Headline.{RunDisabled, IsLawfulElse};
ghost use Rattle.smp_stop_steps.specs.Broken.{runs_outside, runs_inactive, runs_early, runs_interrupted, patches_interrupted, turned_site};

/// The headline of stops rules something out: each of these states, with these words, breaks one of its laws.
/// - `function`: it runs on a CPU that is not of the mask, or not active; or before another CPU has acknowledged, or while
///   its interrupts are on, also in a patch.
/// - `lawful`: a site jumps although its key and its branch agree.
pub fn headline_can_be_broken()
    ensures function { (¬ (RunDisabled runs_outside)) × (¬ (RunDisabled runs_inactive)) × (¬ (RunDisabled runs_early))
        × (¬ (RunDisabled runs_interrupted)) × (¬ (RunDisabled patches_interrupted)) }
    ensures lawful { ¬ (IsLawfulElse no_stops turned_site) }
{}
