//! The steps round the function of a stop. `begin_one` and `begin_run` load the function and its argument; `end_one`
//! completes a stop of one CPU with its answer, and `end_run` acknowledges `RUN` with it. No function is called here.
//!
//! With the acknowledgement of `RUN` the answer is fixed: the CPU carries it, and `complete_round` completes with what it
//! carries. No other page can make these steps: the accesses that make them are private to the pages of the seat.

ghost use Rattle.std.specs.Prelude.{◌≡◌, ◌≢◌, ◌+◌, Some};
ghost use Rattle.smp_words.specs.Access.{one_less};
ghost use Rattle.smp_words.specs.declared.access.Access.TheVariants as access;
ghost use Rattle.smp_words.specs.declared.seen.Act.TheVariants as act;
ghost use Rattle.smp_stop_steps.specs.Threads.Known.{carrying, stepped};
ghost use Rattle.smp_multi.specs.Lives.{Lives};
ghost use Rattle.smp_stop_steps.specs.Threads.KnownAfter.{known_told, acked_by, completed_with};
ghost use Rattle.smp_stop_steps.specs.Start.{answer_word as word_of_answer};
ghost use Rattle.smp_stop_steps.specs.AnswerWords.{IsI32Word};
ghost use Rattle.smp_multi.specs.Completes.{AtClose, AtEnd, AtGiven, given};
ghost use Rattle.smp_multi.specs.Names.{Idle, Multi, One};
ghost use Rattle.smp_multi.specs.Places.{work_in};
ghost use Rattle.smp_multi.specs.Rounds.{AloneWhile, AtRun};
ghost use Rattle.smp_multi.specs.Running.{AtOne, IsItsCall, calls_now};
ghost use Rattle.smp_multi.specs.Seat.{EndsWith};
ghost use Rattle.smp_multi.specs.StepCounts.{giving};

use super::access::{SharedStopWords, StopSeat, end_with, load, store_any};
use smp_stop_steps::stage::Visit;
use smp_stop_steps::start::answer_word;
use smp_words::field::Field;
use smp_words::phase::EXIT;
use smp_words::word::Word;
use std::marker::Brand;

/// Takes 1 from a word, by a step that ends a stop function, a patch or a stop, and answers what was found. From this step on the
/// CPU carries this answer.
#[inline(always)]
pub(super) fn subtract_with(
    words: SharedStopWords<'_>,
    seat: &mut StopSeat,
    word: Word,
    answer: u64,
) -> u64
    requires ends { EndsWith words.shared.now.table_id seat.old word answer }
    requires fits { IsI32Word answer }
    ensures table { seat.new.table ≡ words.entry.shared.now.table_id }
    ensures lives { Lives seat.new.known }
    ensures known { seat.new.known ≡ known_told (carrying answer seat.old.known) act.Sub word (Some result) (Some (one_less result)) }
{
    end_with::<Brand>(words, seat, word, answer)
}

/// The word of an answer.
fn word_of(answer: i32) -> u64
    ensures value { result ≡ word_of_answer answer }
    ensures fits { IsI32Word result }
{
    answer_word(answer)
}

/// A CPU has entered a stop of one CPU: loads the function and its argument.
pub(crate) fn begin_one(words: SharedStopWords<'_>, seat: &mut StopSeat, slot: u32) -> (u16, u64)
    requires { AtOne words.shared.now.table_id seat.old slot }
    ensures at { AtOne words.entry.shared.now.table_id seat.new slot }
    ensures lives { Lives seat.new.known }
    ensures known { seat.new.known ≡ stepped 2 (calls_now seat.old.known) }
    ensures call { IsItsCall seat.new.known result.0 result.1 }
{
    let number = load(words, seat, Word::Slot(slot, Field::Func));
    let arg = load(words, seat, Word::Slot(slot, Field::Arg));
    (number as u16, arg)
}

/// Stores an answer; 0 is not stored. `acked` is the last phase that the CPU has acknowledged.
fn give(words: SharedStopWords<'_>, seat: &mut StopSeat, slot: u32, acked: u32, answer: u64)
    requires at { AtEnd words.shared.now.table_id seat.old slot acked }
    requires fits { IsI32Word answer }
    requires calls { answer ≢ 0 → seat.old.known.part.calling ≢ Idle }
    requires one { (work_in seat.old.known.seat).kind ≡ One → seat.old.known.part.calling ≢ Idle }
    ensures at { AtGiven words.entry.shared.now.table_id seat.new slot acked answer (work_in seat.old.known.seat) }
    ensures known { seat.new.known ≡ given slot acked answer seat.old.known }
{
    let _ = acked;
    if answer != 0 {
        store_any(words, seat, Word::Slot(slot, Field::Result), answer);
    }
}

/// Completes a stop with this answer: stores it, counts the CPU, which carries none from then on, and answers what was
/// found in the count.
fn complete(
    words: SharedStopWords<'_>,
    seat: &mut StopSeat,
    slot: u32,
    acked: u32,
    answer: u64,
) -> u64
    requires at { AtEnd words.shared.now.table_id seat.old slot acked }
    requires fits { IsI32Word answer }
    requires calls { answer ≢ 0 → seat.old.known.part.calling ≢ Idle }
    requires one { (work_in seat.old.known.seat).kind ≡ One → seat.old.known.part.calling ≢ Idle }
    ensures at { AtClose words.entry.shared.now.table_id seat.new slot result }
    ensures lives { Lives seat.new.known }
    ensures known { seat.new.known ≡ stepped (giving answer + 1) (completed_with result slot (work_in seat.old.known.seat) answer
        (carrying 0 seat.old.known)) }
{
    give(words, seat, slot, acked, answer);
    subtract_with(words, seat, Word::Slot(slot, Field::Todo), 0)
}

/// The function of a stop of one CPU has run: completes with its answer, and answers what was found in the count.
pub(crate) fn end_one(
    words: SharedStopWords<'_>,
    seat: &mut StopSeat,
    slot: u32,
    answer: i32,
) -> u64
    requires at { AtOne words.shared.now.table_id seat.old slot }
    requires calls { seat.old.known.part.calling ≢ Idle }
    ensures at { AtClose words.entry.shared.now.table_id seat.new slot result }
    ensures lives { Lives seat.new.known }
    ensures known { seat.new.known ≡ stepped (giving (word_of_answer answer) + 1)
        (completed_with result slot (work_in seat.old.known.seat) (word_of_answer answer) (carrying 0 seat.old.known)) }
{
    complete(words, seat, slot, 0, word_of(answer))
}

/// A Multi stop has come to `RUN`, and the CPU is active: loads the function and its argument. From here until the CPU
/// acknowledges the phase, whatever others do, every CPU of the mask has acknowledged disabled interrupts, and has them
/// off.
pub(crate) fn begin_run(words: SharedStopWords<'_>, seat: &mut StopSeat, visit: Visit) -> (u16, u64)
    requires { AtRun words.shared.now.table_id seat.old visit Multi }
    ensures at { AtRun words.entry.shared.now.table_id seat.new visit Multi }
    ensures lives { Lives seat.new.known }
    ensures known { seat.new.known ≡ stepped 2 (calls_now seat.old.known) }
    ensures alone { AloneWhile seat.new.known visit.slot }
    ensures call { IsItsCall seat.new.known result.0 result.1 }
{
    let number = load(words, seat, Word::Slot(visit.slot, Field::Func));
    let arg = load(words, seat, Word::Slot(visit.slot, Field::Arg));
    (number as u16, arg)
}

/// The function of a Multi stop has run: acknowledges `RUN` with its answer, which the CPU carries from then on, and
/// answers what was found in the count.
pub(crate) fn end_run(
    words: SharedStopWords<'_>,
    seat: &mut StopSeat,
    visit: Visit,
    answer: i32,
) -> u64
    requires at { AtRun words.shared.now.table_id seat.old visit Multi }
    requires calls { seat.old.known.part.calling ≢ Idle }
    requires alone { AloneWhile seat.old.known visit.slot }
    ensures table { seat.new.table ≡ words.entry.shared.now.table_id }
    ensures lives { Lives seat.new.known }
    ensures known { seat.new.known ≡ stepped 1 (acked_by result seat.old.known.seat (carrying (word_of_answer answer) seat.old.known)) }
{
    subtract_with(
        words,
        seat,
        Word::Slot(visit.slot, Field::Ack),
        word_of(answer),
    )
}

/// Completes a stop of several CPUs, which the CPU has left, with the answer that it carries. Answers what was found in
/// the count.
pub(crate) fn complete_round(words: SharedStopWords<'_>, seat: &mut StopSeat, slot: u32) -> u64
    requires at { AtEnd words.shared.now.table_id seat.old slot EXIT }
    requires several { (work_in seat.old.known.seat).kind ≢ One }
    requires carries { seat.old.known.carried ≢ 0 → seat.old.known.part.calling ≢ Idle }
    ensures at { AtClose words.entry.shared.now.table_id seat.new slot result }
    ensures lives { Lives seat.new.known }
    ensures known { seat.new.known ≡ stepped (giving seat.old.known.carried + 1)
        (completed_with result slot (work_in seat.old.known.seat) seat.old.known.carried (carrying 0 seat.old.known)) }
{
    let answer = seat.carried();
    complete(words, seat, slot, EXIT, answer)
}
