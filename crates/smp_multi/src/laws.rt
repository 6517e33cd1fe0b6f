//! What holds of running threads, at any time, of each CPU's value.

ghost use Rattle.std.specs.Prelude.{◌≡◌, true, false};
ghost use Rattle.smp_labels.specs.declared.kinds.SiteKind.TheVariants.{Nop, Jmp};
ghost use Rattle.smp_multi.specs.AnswerLaws.{KeepsAnswers, TakesAnswers};
ghost use Rattle.smp_multi.specs.Reads.{jumps};
ghost use Rattle.smp_multi.specs.Cpu.{CpuValue};
ghost use Rattle.smp_multi.specs.CallLaws.{CallsAlone, CallsAreListed, StepsAreCalls};
ghost use Rattle.smp_multi.specs.LabelLaws.{LabelsAreLawful, CountsAreSums};
ghost use Rattle.smp_multi.specs.Laws.{StopsAreShown, FunctionsRunAlone};
ghost use Rattle.smp_multi.specs.PatchLaws.{PatchesMoveCounts};
ghost use Rattle.smp_multi.specs.Polls.{OwnAnswersAgree};
ghost use Rattle.smp_multi.specs.Together.{AreTogether, AreInStep, WaitsFor};

use crate::answering::Answering;
use crate::cpu::StopCpu;
use crate::rule::StopRule;
use crate::seat_view::StopSeatView;
use crate::table::StopTable;
use smp_start::Tells;
use std::alloc::Allocator;

/// Whatever the threads of other CPUs do: this CPU's value is its part of stops that words of its table show, which
/// keep all laws of the stop half. Steps that online CPUs may make, of any of them in any order, lead to those stops from no
/// stop begun, but for this CPU's calls of stop functions and the answer that it carries, which no step tells.
pub fn is_shown<A: Allocator>(table: &StopTable<A>, cpu: &StopCpu)
    ensures { StopsAreShown cpu.now }
{
    let _ = table;
    let _number = cpu.number;
}

/// The function law: from its look at `RUN` to its acknowledgement, as long as that is what a CPU knows, whatever steps
/// other threads make, the phase is `RUN`, and every CPU of the mask has acknowledged `DISABLE_IRQ` and has its interrupts
/// off. A CPU calls the function of a Multi stop, and makes a patch, only there (`turn.rt`).
pub fn functions_run_alone()
    ensures { FunctionsRunAlone }
{}

/// The function law of a CPU whose function is to be called ([`Answering`]): its value is its part of stops that words of its
/// table show, and the call is that of the stop that it is in. In a Multi stop it is active, and has not acknowledged `RUN`.
/// As long as it has not answered, whatever steps other threads make, every CPU of the mask has acknowledged `DISABLE_IRQ`
/// and has its interrupts off.
pub fn calls_are_alone(answering: &Answering)
    ensures { CallsAlone answering.now }
{
    let _number = answering.number;
}

/// A site that is read as a jump jumps, and one that is read as a NOP does not.
pub fn sites_read()
    ensures { (jumps Nop ≡ false) × (jumps Jmp ≡ true) }
{}

/// The answer of a stop function or of a patch is fixed by one step, the acknowledgement of `RUN`, by an active CPU or by the one that
/// has made the patch. Loads, stores, exchanges, masks and all other counts leave the answer that a CPU carries. With the step that
/// completes a stop its CPU carries none, which is 0.
pub fn answers_are_fixed_at_run()
    ensures kept { KeepsAnswers ⟦<StopRule as Tells<StopSeatView>>⟧.loaded × KeepsAnswers ⟦<StopRule as Tells<StopSeatView>>⟧.stored
        × KeepsAnswers ⟦<StopRule as Tells<StopSeatView>>⟧.exchanged × KeepsAnswers ⟦<StopRule as Tells<StopSeatView>>⟧.swapped
        × KeepsAnswers ⟦<StopRule as Tells<StopSeatView>>⟧.subtracted × KeepsAnswers ⟦<StopRule as Tells<StopSeatView>>⟧.masked }
    ensures taken { TakesAnswers ⟦<StopRule as Tells<StopSeatView>>⟧.answered }
{}

/// Each call of a stop function is listed once, with the function and the argument of its work, and the answer: by `advance`
/// at `Ran` of a Multi stop, by `run_one`, and by `answer`.
pub fn calls_are_listed()
    ensures { CallsAreListed }
{}

/// Steps by value leave what calls leave: `turn` to a call and `answer` what `advance` leaves at `Ran`, and `begin_one` and
/// `answer` what `run_one` leaves.
pub fn steps_are_calls()
    ensures { StepsAreCalls }
{}

/// The label law: while no CPU is between the first and the last store of a patch, the label table is lawful, whatever CPUs
/// have their interrupts on. The CPU that patches is the first online one, active in its patch stop at `RUN`. Meanwhile
/// every online CPU has its interrupts off.
pub fn labels_are_lawful<A: Allocator>(table: &StopTable<A>, cpu: &StopCpu)
    ensures { LabelsAreLawful cpu.now }
{
    let _ = table;
    let _number = cpu.number;
}

/// The count law: each key's word is the sum of what all CPUs have moved it, by nudges (`StopTable::try_key`) and as runners
/// of patches; a CPU's value has its own moves of each key.
pub fn counts_are_sums<A: Allocator>(table: &StopTable<A>, cpu: &StopCpu)
    ensures { CountsAreSums cpu.now }
{
    let _ = table;
    let _number = cpu.number;
}

/// What a CPU has collected of a stop that has called it too (`StopTable::poll_done`) agrees with what it has answered there
/// itself: a result of 0 says that this was 0; and where the stop was of that CPU alone, the result is its answer.
pub fn own_answers_agree()
    ensures { OwnAnswersAgree }
{}

/// By how much the patch of a stop moves its key, by the number of its change and the count that it finds, and what it
/// answers: 0 takes the count to 0, 1 makes it 1 where it is 0, 2 adds 1 and 3 takes 1 away. The answer is 1 where the count
/// is at that end of its range, 65,535 or 0, and then nothing moves; else it is 0.
pub fn patches_move_counts()
    ensures { PatchesMoveCounts }
{}

/// Two CPUs whose values are parts of the same stops: in the stop of one source they have the same work and are at most one phase
/// apart, and while one is in the stop of the other, the other has it pending.
pub fn parts_agree()
    ensures step { (one other : CpuValue) → AreTogether one other → AreInStep one other }
    ensures waits { (one other : CpuValue) → AreTogether one other → WaitsFor one other × WaitsFor other one }
{}
