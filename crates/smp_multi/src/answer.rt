//! The function of a stop has given its answer: the CPU acknowledges `RUN` with it (`multi_cpu_stop`), or completes its stop
//! of one CPU with it (`cpu_stopper_thread`).

ghost use Rattle.std.specs.Prelude.{◌≡◌, ◌≢◌, false};
ghost use Rattle.smp_stop_steps.specs.Threads.Known.{carrying, stepped};
ghost use Rattle.smp_multi.specs.Lives.{Lives};
ghost use Rattle.smp_stop_steps.specs.Threads.KnownAfter.{completed_with};
ghost use Rattle.smp_stop_steps.specs.Stages.{visit_acked};
ghost use Rattle.smp_stop_steps.specs.Start.{answer_word};
ghost use Rattle.smp_multi.specs.Names.{Idle, Multi, Rests};
ghost use Rattle.smp_multi.specs.Places.{work_in};
ghost use Rattle.smp_multi.specs.Rounds.{AloneWhile, AtRun, AtTurn, passed_by};
ghost use Rattle.smp_multi.specs.Running.{AtOne};
ghost use Rattle.smp_multi.specs.StepCounts.{completing};

use crate::complete::close_if_last;
use crate::round::pass;
use crate::seat::run_steps::{end_one, end_run};
use crate::seat::{SharedStopWords, StopSeat};
use smp_stop_steps::stage::Visit;

/// Completes a stop of one CPU with the answer of its function.
pub(crate) fn answer_one(words: SharedStopWords<'_>, seat: &mut StopSeat, slot: u32, answer: i32)
    requires at { AtOne words.shared.now.table_id seat.old slot }
    requires calls { seat.old.known.part.calling ≢ Idle }
    ensures table { seat.new.table ≡ words.entry.shared.now.table_id }
    ensures lives { Lives seat.new.known }
    ensures known { seat.new.known ≡ stepped (completing (answer_word answer))
        (completed_with 0 slot (work_in seat.old.known.seat) (answer_word answer) (carrying 0 seat.old.known)) }
{
    let found = end_one(words, seat, slot, answer);
    close_if_last(words, seat, slot, found);
}

/// Acknowledges `RUN` with the answer of the function of a Multi stop, and stores the next phase as the last.
pub(crate) fn answer_run(
    words: SharedStopWords<'_>,
    seat: &mut StopSeat,
    visit: Visit,
    answer: i32,
) -> Visit
    requires at { AtRun words.shared.now.table_id seat.old visit Multi }
    requires calls { seat.old.known.part.calling ≢ Idle }
    requires alone { AloneWhile seat.old.known visit.slot }
    ensures at { AtTurn words.entry.shared.now.table_id seat.new result result.acked Rests }
    ensures lives { Lives seat.new.known }
    ensures known { seat.new.known ≡ stepped 1 (passed_by seat.old.known.seat (carrying (answer_word answer) seat.old.known)) }
    ensures visit { result ≡ visit_acked visit 0 false }
{
    let found = end_run(words, seat, visit, answer);
    let visit = visit.acknowledged(0, false);
    pass(words, seat, visit, found);
    visit
}
