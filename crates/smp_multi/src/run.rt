//! Where stop functions are called, and nowhere else: between the steps that come to a call and those that answer it
//! (`cpu_stopper_thread`, `multi_cpu_stop`).

ghost use Rattle.std.specs.Prelude.{◌≡◌, ◌≢◌, ◌+◌, ◌<◌};
ghost use Rattle.smp_stop_steps.specs.Threads.Known.{carrying, stepped};
ghost use Rattle.smp_multi.specs.Lives.{Lives};
ghost use Rattle.smp_stop_steps.specs.Threads.KnownAfter.{completed_with};
ghost use Rattle.smp_stop_steps.specs.Start.{answer_word};
ghost use Rattle.smp_multi.specs.Names.{One, Rests};
ghost use Rattle.smp_multi.specs.Places.{work_in};
ghost use Rattle.smp_multi.specs.Rounds.{AtTurn};
ghost use Rattle.smp_multi.specs.Running.{AtOne, called_by};
ghost use Rattle.smp_multi.specs.StepCounts.{completing};
ghost use Rattle.smp_multi.specs.Turns.{TurnAnswers};

use crate::answer::{answer_one, answer_run};
use crate::func::StopFunc;
use crate::seat::run_steps::begin_one;
use crate::seat::{SharedStopWords, StopSeat};
use crate::turn::{Go, Turn, begin_turn};
use smp_stop_steps::stage::Visit;
use smp_words::phase::EXIT;

/// Calls the function of the stop of this slot, and completes with its answer.
pub(crate) fn run_one<F: StopFunc>(
    words: SharedStopWords<'_>,
    seat: &mut StopSeat,
    number: u32,
    slot: u32,
    func: &mut F,
) -> i32
    requires at { AtOne words.shared.now.table_id seat.old slot }
    requires number { seat.old.known.number ≡ number }
    ensures table { seat.new.table ≡ words.entry.shared.now.table_id }
    ensures lives { Lives seat.new.known }
    ensures known { seat.new.known ≡ stepped (2 + completing (answer_word result))
        (completed_with 0 slot (work_in seat.old.known.seat) (answer_word result) (carrying 0 seat.old.known)) }
    ensures heard { F.leads func.old (called_by seat.old.known result) func.new }
{
    let (number_of_func, arg) = begin_one(words, seat, slot);
    let answer = func.run(number, number_of_func, arg);
    answer_one(words, seat, slot, answer);
    answer
}

/// One turn. Where it comes to the call of a function, calls it, and acknowledges `RUN` with its answer.
pub(crate) fn take_turn<F: StopFunc>(
    words: SharedStopWords<'_>,
    seat: &mut StopSeat,
    number: u32,
    visit: Visit,
    func: &mut F,
) -> (Visit, Turn)
    requires at { AtTurn words.shared.now.table_id seat.old visit visit.acked Rests }
    requires more { visit.acked ≢ EXIT }
    requires several { visit.kind ≢ One }
    requires number { seat.old.known.number ≡ number }
    requires below { number < 64 }
    ensures at { AtTurn words.entry.shared.now.table_id seat.new result.0 result.0.acked Rests }
    ensures lives { Lives seat.new.known }
    ensures answers { TurnAnswers F.leads seat.old.known seat.new.known visit result.0 func.old func.new result.1 }
{
    match begin_turn(words, seat, number, visit) {
        Go::Over(after, turn) => (after, turn),
        Go::Call(function, arg) => {
            let answer = func.run(number, function, arg);
            let after = answer_run(words, seat, visit, answer);
            (after, Turn::Ran)
        }
    }
}
