//! A stop step by step, with the CPU by value: a CPU that comes to call the function of its stop is handed out as an
//! [`Answering`], and is a [`StopCpu`] again for the function's answer.

ghost use Rattle.std.specs.Prelude.{◌≡◌};
ghost use Rattle.smp_multi.specs.ByValue.{Answered, OneAnswers, TurnedAnswers, turned_so};
ghost use Rattle.smp_multi.specs.Cells.{cells};

use crate::answer::{answer_one, answer_run};
use crate::cpu::StopCpu;
use crate::seat::run_steps::begin_one;
use crate::seat::{SharedStopWords, StopSeat};
use crate::turn::{Go, Turn, begin_turn};
use smp_stop_steps::stage::Visit;
use smp_words::phase::EXIT;
use smp_words::work::Kind;
use std::marker::Model;

/// A CPU that has come to call the function of its stop, seen as the CPU and that call. In a Multi stop it is active, and
/// has looked at `RUN` and not acknowledged it. As long as it is so, every CPU of the mask has acknowledged `DISABLE_IRQ`,
/// and has its interrupts off (`laws::calls_are_alone`). It may move to another thread.
#[derive(Drop)]
pub struct Answering {
    seat: StopSeat,
    pub(crate) number: u32,
    visit: Visit,
    holds: bool,
    is_open: bool,
    func: u16,
    arg: u64,
}

impl Model for Answering {
    ghost use Rattle.smp_multi.specs.AtCall.{IsAnswering};
    ghost use Rattle.smp_multi.specs.Cpu.{AnsweringValue, cpu_of};

    ghost Value = { AnsweringValue };

    ghost view = { λ a. record { cpu = cpu_of a.seat; func = a.func; arg = a.arg } };

    ghost invariant = { λ a. IsAnswering a.seat.known a.number a.visit a.holds a.is_open a.func a.arg };
}

impl Answering {
    /// The number of its CPU. No step of the table.
    pub fn number(&self) -> u32
        ensures { result ≡ self.now.cpu.number }
    {
        self.number
    }

    /// The function that is to be called. No step of the table.
    pub fn func(&self) -> u16
        ensures { result ≡ self.now.func }
    {
        self.func
    }

    /// The argument that it is to be called with. No step of the table.
    pub fn arg(&self) -> u64
        ensures { result ≡ self.now.arg }
    {
        self.arg
    }
}

/// What a turn has done, with its CPU.
#[derive(Drop)]
pub enum Turned {
    /// There was no new phase.
    Same(StopCpu),
    /// It has acknowledged this phase, in which it calls no function.
    Moved(StopCpu, u32),
    /// It has made its patch, and acknowledged `RUN`.
    Ran(StopCpu),
    /// It has acknowledged `EXIT`, the last phase.
    Left(StopCpu),
    /// It has looked at `RUN`, and the function of its Multi stop is to be called.
    Call(Answering),
}

/// The CPU, with what its turn has done.
fn with_turn(me: StopCpu, turn: Turn) -> Turned
    ensures { result ≡ turned_so me turn }
{
    match turn {
        Turn::Same => Turned::Same(me),
        Turn::Moved(phase) => Turned::Moved(me, phase),
        Turn::Ran => Turned::Ran(me),
        Turn::Left => Turned::Left(me),
    }
}

/// A CPU in a stop of one CPU comes to call its function.
pub(crate) fn come_to_one(words: SharedStopWords<'_>, me: StopCpu) -> Result<Answering, StopCpu>
    requires table { me.table ≡ words.shared.now.table_id }
    requires sized { words.shared.now.table_id.words ≡ cells }
    ensures { OneAnswers me result }
{
    let Some(visit) = me.visit else {
        return Err(me);
    };
    if visit.kind != Kind::One {
        return Err(me);
    }
    let StopCpu {
        mut seat,
        number,
        holds,
        is_open,
        ..
    } = me;
    let (func, arg) = begin_one(words, &mut seat, visit.slot);
    Ok(Answering {
        seat,
        number,
        visit,
        holds,
        is_open,
        func,
        arg,
    })
}

/// One turn of a CPU in a stop of several CPUs, or its call of the function.
pub(crate) fn turn_once(words: SharedStopWords<'_>, me: StopCpu) -> Result<Turned, StopCpu>
    requires table { me.table ≡ words.shared.now.table_id }
    requires sized { words.shared.now.table_id.words ≡ cells }
    ensures { TurnedAnswers me result }
{
    let Some(visit) = me.visit else {
        return Err(me);
    };
    if visit.kind == Kind::One || visit.acked == EXIT {
        return Err(me);
    }
    let StopCpu {
        mut seat,
        number,
        holds,
        is_open,
        ..
    } = me;
    match begin_turn(words, &mut seat, number, visit) {
        Go::Over(visit, turn) => {
            let visit = Some(visit);
            let me = StopCpu {
                seat,
                number,
                visit,
                holds,
                is_open,
            };
            Ok(with_turn(me, turn))
        }
        Go::Call(func, arg) => Ok(Turned::Call(Answering {
            seat,
            number,
            visit,
            holds,
            is_open,
            func,
            arg,
        })),
    }
}

/// The function has given this answer.
pub(crate) fn give_answer(words: SharedStopWords<'_>, answering: Answering, answer: i32) -> StopCpu
    requires table { answering.cpu.table ≡ words.shared.now.table_id }
    requires sized { words.shared.now.table_id.words ≡ cells }
    ensures { Answered answering answer result }
{
    let Answering {
        mut seat,
        number,
        visit,
        holds,
        is_open,
        ..
    } = answering;
    if visit.kind == Kind::One {
        answer_one(words, &mut seat, visit.slot, answer);
        return StopCpu {
            seat,
            number,
            visit: None,
            holds,
            is_open,
        };
    }
    let visit = answer_run(words, &mut seat, visit, answer);
    StopCpu {
        seat,
        number,
        visit: Some(visit),
        holds,
        is_open,
    }
}
