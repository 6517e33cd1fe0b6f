//! Laws of the call half, each as a function that does nothing and whose contract is the law.
//!
//! They speak of any number of CPUs and of any words that show calls, so that they hold of the pure machine and of
//! words that threads share alike.

ghost use Rattle.std.specs.Prelude.{List};
ghost use Rattle.smp_call_steps.specs.BatchLinks.{KeepBatchLinks};
ghost use Rattle.smp_call_steps.specs.Classes.{RunByClass};
ghost use Rattle.smp_call_steps.specs.HaveRun.{ConfirmedRun, ConfirmedSyncEnd};
ghost use Rattle.smp_call_steps.specs.Threads.Logs.{LogsTell, HeadsTell, StepsCount};
ghost use Rattle.smp_call_steps.specs.Promises.{NothingCalled, StepsAreTold, KeepThePlaceLaw, KeepTheInterruptLaw};
ghost use Rattle.smp_call_steps.specs.Promises.{KeepTheQueueHistory, KeepTheTallyLaw, RunAtMostOnce};
ghost use Rattle.smp_call_steps.specs.QueueOrder.{KeepsClasses, AsyncsLast, RunInQueueOrder};
ghost use Rattle.smp_words.specs.declared.call.Call.{Call};

/// Words that are all 0, with each CPU outside a command, show that nothing was called.
pub fn nothing_is_called()
    ensures { NothingCalled }
{}

/// Each step of a CPU, at any stage of any command, is the step of the state of all calls that it tells, keeps all laws,
/// and changes no other CPU's part.
pub fn steps_are_told()
    ensures { StepsAreTold }
{}

/// By each step of a CPU its log grows by what the step has sent, a call that joins a queue or an interrupt that is pending
/// then, and by nothing else.
pub fn logs_tell()
    ensures { LogsTell }
{}

/// By each step of a CPU what it has seen of heads grows by what the step finds in a head, by a load or by a
/// compare-exchange with the number that this expects, and by nothing else.
pub fn heads_tell()
    ensures { HeadsTell }
{}

/// Each step of a CPU outside `handle` is counted once in its number of steps, and no step inside `handle` is. Each take of its
/// interrupt word is listed with the number of steps before it.
pub fn steps_count()
    ensures { StepsCount }
{}

/// Each record is in exactly one place: free, held by its source, or locked in one queue, one batch or one SYNC call that
/// runs.
pub fn place_law()
    ensures { KeepThePlaceLaw }
{}

/// Where a CPU's queue is not empty, it has an interrupt pending, has accepted one, or is owed one.
pub fn interrupt_law()
    ensures { KeepTheInterruptLaw }
{}

/// What a source has sent to a CPU is what was queued there from it, in order and with the same marks; and what ran
/// there is the drain order of the batches that it has taken.
pub fn queue_history()
    ensures { KeepTheQueueHistory }
{}

/// The tally words are the numbers of calls queued and run, modulo 2^64.
pub fn tally_law()
    ensures { KeepTheTallyLaw }
{}

/// Each call that was sent runs at most once, on its target, in queue order per class.
pub fn runs_at_most_once()
    ensures { RunAtMostOnce }
{}

/// At any time the next words link all that is left of a batch: a record that is not reversed yet to the one before it,
/// another to the one after it that is left; and a link that a CPU has loaded and not yet used is still there.
pub fn batch_links()
    ensures { KeepBatchLinks }
{}

/// In the drain order of a batch the calls of each class keep the order of the batch, and after an ASYNC call come only
/// ASYNC calls.
pub fn drain_order()
    ensures classes { (batch : List Call) → KeepsClasses batch }
    ensures asyncs_last { (batch : List Call) → AsyncsLast batch }
{}

/// For each class, the calls that have begun on a CPU are the first of those that were ever queued for it, in that order, and
/// those of a source were queued as it has sent them.
pub fn runs_in_queue_order()
    ensures { RunInQueueOrder }
{}

/// What a class means for the call that runs: while the record of a SYNC call is locked, and while the record of an ASYNC
/// call is free.
pub fn runs_by_class()
    ensures { RunByClass }
{}

/// The calls by a record whose last call its source has seen confirmed: of the SYNC calls among them, as many have ended
/// at a CPU as were ever queued for it.
pub fn confirmed_sync_calls_ended()
    ensures { ConfirmedSyncEnd }
{}

/// Each call that a source has sent, by a record whose last call it has seen confirmed, is among the calls that have
/// ended at its target; an ASYNC call may be the one that runs there.
pub fn confirmed_calls_have_run()
    ensures { ConfirmedRun }
{}

ghost use Rattle.smp_call_steps.specs.StepLaws.{OfEachStep, IsPremised, KeepsRecords, KeepsFunctions, KeepsQueues, NoteHolds, TriesGoOn, ReachesOn};
ghost use Rattle.smp_call_steps.specs.StepLaws.{KnownStepsKeepLaws};
ghost use Rattle.smp_call_steps.specs.Begins.{CommandsBeginSo, PostsStay, PostsQueueTheirCalls, PostsTryAsOften, NotesEndCommands};
ghost use Rattle.smp_call_steps.specs.Endings.{CommandsBeginUncounted, CommandsEndSo, CountsEndWithHandlings, NotesAreOfTheFound, IdleWithoutInterrupt};
ghost use Rattle.smp_call_steps.specs.Touches.{WordsInOrder};
ghost use Rattle.smp_call_steps.specs.Refusals.{RefusalsAreOfTheNumbers};
ghost use Rattle.smp_call_steps.specs.Drained.{DrainedRunsAll, QueuesAreShort};

/// What holds before each step. A free record is locked by its own source, which holds none; a head is exchanged for the
/// record that is held, whose call is counted for that CPU. A source loads the flags of its own record while it holds none and
/// handles nothing. A load finds flags 0 where their record is free, and locked everywhere else. A CPU swaps its own interrupt
/// word while it holds none and has nothing left to run, and finds whether an interrupt is pending for it. It swaps its own head
/// only once it has accepted an interrupt. It loads and links the records of its own batch. It begins the call at the front of
/// what is left of it, while no other runs: by its handling word where that is SYNC, and by the unlock of its record where it is
/// ASYNC; it counts the call that runs, once, and unlocks the record of a SYNC call only then. While it holds a record, it unlocks
/// no other. It stores its handling word as it enters, with nothing to handle, as it leaves, with nothing left, and as a SYNC call
/// begins. Its tallies go on from the numbers that they have, by one. It accepts an interrupt only where its handling word is not 0.
/// What it stores fits: a record and a CPU that there are, a 16-bit function and a 64-bit info. A load puts nothing, and a store
/// finds nothing.
pub fn steps_are_premised()
    ensures { OfEachStep IsPremised }
{}

/// So the words of a record stay as they are but where its source stores to it while it is free or held, or the CPU that
/// has taken it; while it is in a queue nobody does.
pub fn records_stay()
    ensures { OfEachStep KeepsRecords }
{}

/// Each step of a CPU does at most one of these to a function, and no other step says so:
/// - It begins the call at the front of its batch, where none runs. It says `call S F I`, with the call's source, function
///   and info. The record is then locked where the call is SYNC, and free where it is ASYNC.
/// - It counts a SYNC call that has run.
/// - It ends its call, a SYNC one only once that is counted.
pub fn functions_run_once()
    ensures { OfEachStep KeepsFunctions }
{}

/// A step that queues a call says whether that queue was empty, by `owed` or `queued`. No other step says either.
///
/// What the other notes say holds. `busy`, `locked`, `done`, `nocpu` and `contended` say where the record is. `sent` says
/// that the interrupt is pending and no longer owed. `idle` and `handled` say that nothing is left to run, and `handled`
/// how many calls the batch had.
pub fn notes_hold()
    ensures queues { OfEachStep KeepsQueues }
    ensures says { OfEachStep NoteHolds }
{}

/// A CPU that has found a number in a head, by its load or by a lost exchange, links its record to that number next. Then
/// it exchanges the head, where that is still this number. After a lost exchange it may count its call back instead.
/// So an exchange is lost only where another CPU has changed the head since.
pub fn tries_go_on()
    ensures { OfEachStep TriesGoOn }
{}

/// All of this holds of a CPU at words that threads share, at each stage that what it knows leaves open.
pub fn known_steps_keep_laws()
    ensures { KnownStepsKeepLaws }
{}

/// A command of the call half is refused for just these reasons. A post is refused with E4 where its record may not carry
/// such a call, it may not try, or its destination is the own CPU. A send is refused with E1 where its destination is not
/// online. A `done` is refused with E4 where the CPU has no such record.
pub fn refusals_are_of_the_numbers()
    ensures { RefusalsAreOfTheNumbers }
{}

/// The first step of a command is to the word that the command names. A post begins with the load of its record's flags, and
/// its posting has just the numbers of the command.
pub fn commands_begin_so()
    ensures { CommandsBeginSo }
{}

/// A post keeps its numbers from its first step to its last, and the call that it queues has them.
pub fn posts_queue_their_calls()
    ensures stay { PostsStay }
    ensures queue { PostsQueueTheirCalls }
{}

/// A post may make as many exchanges as its command says, and gives up only once it has lost all of them.
pub fn posts_try_as_often()
    ensures { PostsTryAsOften }
{}

/// The step that ends a command has a note. No other step has one, but that with which a call begins to run.
pub fn notes_end_commands()
    ensures { NotesEndCommands }
{}

/// A command ends at these stages, by what was found there, and at no other; everywhere else a step of the same command
/// follows. So a post that finds its record locked ends, and so does one whose tries are used up.
pub fn commands_end_so()
    ensures { CommandsEndSo }
{}

/// The count of a batch is kept only while it is handled: none outside a command, and none in another command than `handle`. So
/// where a CPU is outside a command tells nothing of the calls that it has run.
pub fn counts_end_with_handlings()
    ensures begin { CommandsBeginUncounted }
    ensures step { CountsEndWithHandlings }
{}

/// The note of a step says what the step has found: `busy` and `locked` a locked record, `nocpu` a CPU that is not online,
/// `owed` an empty queue. `idle` is said only by a handling that found no interrupt.
pub fn notes_are_of_the_found()
    ensures says { NotesAreOfTheFound }
    ensures idle { IdleWithoutInterrupt }
{}

/// The steps of a command touch their words in one order, whatever these hold.
pub fn words_are_touched_in_order()
    ensures { WordsInOrder }
{}

/// On a drained machine the calls that have run are the calls that were queued, each once, for each source and CPU.
pub fn drained_machines_ran_all()
    ensures { DrainedRunsAll }
{}

ghost use Rattle.smp_call_steps.specs.State.{CallState, no_calls};
ghost use Rattle.smp_call_steps.specs.Headline.{InOnePlace, RunOnce, RunInOrder, RunEqualQueued};
ghost use Rattle.smp_call_steps.specs.Reached.{IsReached, IsNever, OfReached, ArePlaced, HoldTheirOwn, AreTallied, AreNoticed};
ghost use Rattle.smp_call_steps.specs.Broken.{no_words, one_locked, one_counted, in_a_queue, in_two_queues, twice_in_a_queue};
ghost use Rattle.smp_call_steps.specs.Broken.{held_by_another, lost, ran_twice, ran_unsent, second_begins, second_joins};

/// Nothing called is reached, with words that are all 0. Each step of a CPU leads from calls and words that are reached to such.
pub fn reached_calls_go_on()
    ensures nothing { IsReached no_calls no_words }
    ensures step { OfEachStep ReachesOn }
{}

/// These laws hold of every state of the calls that is reached with its words: to which steps that the CPUs may make lead, of any of
/// them in any order, from nothing called. They follow from the premises of these steps ([`steps_are_premised`]), and from no stage.
/// - `place`: Each record is where the state says, and nowhere else, and it is locked unless it is free.
/// - `lists`: Each call of a queue, a batch or that runs is by a record which is there.
/// - `held`: A CPU holds only records of its own.
/// - `once`: What a source has sent to a CPU is what has begun there and what waits there, each call once.
/// - `order`: In each class, calls begin in the order in which they joined the queue, and join it in the order in which they were sent.
/// - `drained`: Where no head, no flags and no handling word is set, all that was sent has run, and the counts are equal.
/// - `tally`: The tally words count the calls that were sent and those that ran.
/// - `interrupt`: Where a CPU's queue is not empty, it has an interrupt pending, has accepted one, or is owed one.
pub fn reached_calls_keep_laws()
    ensures place { OfReached InOnePlace }
    ensures lists { OfReached (λ a at. ArePlaced a) }
    ensures held { OfReached (λ a at. HoldTheirOwn a) }
    ensures once { OfReached (λ a at. RunOnce a) }
    ensures order { OfReached (λ a at. RunInOrder a) }
    ensures drained { OfReached RunEqualQueued }
    ensures tally { OfReached AreTallied }
    ensures interrupt { OfReached (λ a at. AreNoticed a) }
{}

/// The headline of calls rules something out: each of these states, with these words, breaks one of its laws.
/// - `place`: a record in two queues, twice in one, unlocked in one, or held by a CPU that does not own it.
/// - `once`: a call that is lost, one that ran twice, or one that was not sent.
/// - `order`: of two SYNC calls the second begins first, or joins the queue first.
/// - `drained`: a call that has not run, or a count of one that was not queued.
pub fn headline_can_be_broken()
    ensures place { (¬ (InOnePlace in_two_queues one_locked)) × (¬ (InOnePlace twice_in_a_queue one_locked))
        × (¬ (InOnePlace in_a_queue no_words)) × (¬ (InOnePlace held_by_another one_locked)) }
    ensures once { (¬ (RunOnce lost)) × (¬ (RunOnce ran_twice)) × (¬ (RunOnce ran_unsent)) }
    ensures order { (¬ (RunInOrder second_begins)) × (¬ (RunInOrder second_joins)) }
    ensures drained { (¬ (RunEqualQueued lost no_words)) × (¬ (RunEqualQueued no_calls one_counted)) }
{}

/// No steps that the CPUs may make lead to these states, whatever the words are; nor to an unlocked record in a queue, or to a count
/// of a call that was not queued.
pub fn broken_calls_are_not_reached()
    ensures place { IsNever in_two_queues × IsNever twice_in_a_queue × IsNever held_by_another × (¬ (IsReached in_a_queue no_words)) }
    ensures once { IsNever lost × IsNever ran_twice × IsNever ran_unsent }
    ensures order { IsNever second_begins × IsNever second_joins }
    ensures drained { ¬ (IsReached no_calls one_counted) }
{}

/// A queue has at most as many calls as there are records, so a walk along its links ends.
pub fn queues_are_short()
    ensures { QueuesAreShort }
{}
