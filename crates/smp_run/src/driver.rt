//! What the thread of one CPU does.

ghost use Rattle.std.specs.Prelude.{◌≡◌, ◌≤◌, ◌*◌, List, length, vec_len};
ghost use Rattle.smp_machine.specs.Seats.{IsSameSeat};
ghost use Rattle.smp_script.specs.Spelling.{RequestFits};
ghost use Rattle.smp_run.specs.Answers.{Answered, IsAnswer, IsLineAnswer, cpu_of};
ghost use Rattle.smp_run.specs.Driven.{IsReady, MakesLines};
ghost use Rattle.smp_run.specs.Made.{AreMakings, HasMade, HasPlayed, IsLineMade, Making, stops_of};
ghost use Rattle.smp_run.specs.Seats.{AreLines, IsRunLine, IsSeated, keys_at};
ghost use Rattle.smp_run.specs.Sent.{HasCalled, HasWaited, line_calls, line_direct, repeated, request_calls, request_direct, script_calls, script_direct};
ghost use Rattle.smp_run.specs.Stays.{IsAtRest, Stays};

use crate::answer::Answer;
use crate::calls::make;
use crate::pace::{Echo, Pace, Paced, RunSeat};
use smp_machine::{Cpu, Crew, Machine};
use smp_queue::Handler;
use smp_script::directive::Directive;
use smp_script::request::Request;
use std::alloc::{AllocError, Allocator};
use std::mem;
use std::sync::Wait;

/// What the thread of a CPU has: the CPU, and room for the answer of each line of the script.
#[derive(Drop)]
pub struct DrivenSeat<A: Allocator, B: Allocator> {
    pub cpu: Cpu<A>,
    pub answers: Vec<Answer, B>,
}

/// Makes what a request asks for, this number of times. Returns the last answer.
fn repeat<A: Allocator, R: Wait, H: Handler + Drop>(
    seat: &mut RunSeat<'_, A, R, H>,
    count: u32,
    request: &Request,
) -> Answer
    requires rest { IsAtRest seat.old }
    requires count { 1 ≤ count }
    requires fits { RequestFits request.now }
    ensures stays { Stays seat.old seat.new }
    ensures answer { IsAnswer seat.old.machine.calls.online (keys_at seat.old.machine) seat.old.cpu.calls.number request.now result }
    ensures sent { HasCalled (repeated count (request_calls seat.old.machine.calls.online seat.old.cpu.calls.number request.now))
        (count * request_direct seat.old.cpu.calls.number request.now) seat.old.cpu seat.new.cpu }
    ensures made { (makings : List Making) × AreMakings seat.old.machine seat.old.cpu.calls.number request.now count result makings
        × HasMade (stops_of makings) seat.old.cpu seat.new.cpu }
{
    for _made in 1..count {
        make(seat, *request);
    }
    make(seat, *request)
}

/// Answers a line, where it is the CPU's own.
#[tactic(auto, using(crate::proofs::Stays::stays_first))]
fn answer_if<A: Allocator, R: Wait, H: Handler + Drop>(
    seat: &mut RunSeat<'_, A, R, H>,
    line: &Directive,
    answer: &mut Answer,
)
    requires rest { IsAtRest seat.old }
    requires lawful { IsRunLine seat.old.machine.calls.online line.now }
    ensures stays { Stays seat.old seat.new }
    ensures answered { cpu_of line.now ≡ seat.old.cpu.calls.number →
        IsLineAnswer seat.old.machine.calls.online (keys_at seat.old.machine) line.now answer.new }
    ensures sent { HasCalled (line_calls seat.old.machine.calls.online seat.old.cpu.calls.number line.now)
        (line_direct seat.old.cpu.calls.number line.now) seat.old.cpu seat.new.cpu }
    ensures made { (makings : List Making) × IsLineMade seat.old.machine seat.old.cpu.calls.number line.now answer.new makings
        × HasMade (stops_of makings) seat.old.cpu seat.new.cpu }
{
    match line {
        Directive::Do(cpu, count, request) if *cpu == seat.number() => {
            *answer = repeat(seat, *count, request);
        }
        _ => {}
    }
}

/// Answers the CPU's own lines, in order.
#[tactic(auto, using(crate::proofs::Lines::line_at))]
fn answer_all<A: Allocator, R: Wait, H: Handler + Drop>(
    seat: &mut RunSeat<'_, A, R, H>,
    lines: &[Directive],
    answers: &mut [Answer],
)
    requires rest { IsAtRest seat.old }
    requires lawful { AreLines seat.old.machine.calls.online lines.now }
    requires sized { length answers.old ≡ length lines.now }
    ensures stays { Stays seat.old seat.new }
    ensures answered { Answered seat.old.machine.calls.online (keys_at seat.old.machine)
        (λ c. c ≡ seat.old.cpu.calls.number) lines.now answers.new }
    ensures sent { HasCalled (script_calls seat.old.machine.calls.online seat.old.cpu.calls.number lines.now)
        (script_direct seat.old.cpu.calls.number lines.now) seat.old.cpu seat.new.cpu }
    ensures played { HasPlayed seat.old.machine lines.now answers.new seat.old.cpu seat.new.cpu }
{
    for at in 0..lines.len() {
        answer_if(seat, &lines[at], &mut answers[at]);
    }
}

/// Takes the answers from the CPU's handler, and leaves none there.
fn take_answers<A: Allocator, B: Allocator + Copy, R: Wait, P: Pace>(
    seat: &mut RunSeat<'_, A, R, Paced<'_, P, B>>,
) -> Vec<Answer, B>
    ensures taken { result ≡ seat.old.handler.answers }
    ensures machine { seat.new.machine ≡ seat.old.machine }
    ensures cpu { seat.new.cpu ≡ seat.old.cpu }
{
    let none = Vec::new(*seat.handler.answers.allocator());
    mem::replace(&mut seat.handler.answers, none)
}

/// Leaves answers with the CPU's handler.
fn leave_answers<A: Allocator, B: Allocator, R: Wait, P: Pace>(
    seat: &mut RunSeat<'_, A, R, Paced<'_, P, B>>,
    answers: Vec<Answer, B>,
)
    ensures left { seat.new.handler.answers ≡ answers }
    ensures machine { seat.new.machine ≡ seat.old.machine }
    ensures cpu { seat.new.cpu ≡ seat.old.cpu }
{
    seat.handler.answers = answers;
}

/// Makes the CPU's own lines, and leaves their answers with its handler.
fn make_lines<A: Allocator, B: Allocator + Copy, R: Wait, P: Pace>(
    seat: &mut RunSeat<'_, A, R, Paced<'_, P, B>>,
    lines: &[Directive],
)
    requires seated { IsSeated seat.old.machine seat.old.cpu }
    requires waited { HasWaited seat.old.cpu }
    requires lawful { AreLines seat.old.machine.calls.online lines.now }
    requires sized { vec_len seat.old.handler.answers ≡ length lines.now }
    ensures makes { MakesLines seat.old.machine lines.now seat.new.handler.answers.items seat.old.cpu seat.new.cpu }
    ensures same { IsSameSeat seat.old seat.new }
{
    let mut answers = take_answers(seat);
    answer_all(seat, lines, answers.as_mut_slice());
    leave_answers(seat, answers);
}

/// Makes the lines of a script that are of this CPU: in the order of the script, each as often as it says. It puts the answer
/// of the last repetition at the line's place.
///
/// It may wait for other CPUs, which have to poll. A call by a record of the user that finds its record busy is made once that
/// is free again.
pub fn play<A: Allocator, B: Allocator + Copy, R: Wait, P: Pace>(
    rt: &R,
    machine: &Machine<A>,
    lines: &[Directive],
    pace: &P,
    seat: DrivenSeat<A, B>,
) -> DrivenSeat<A, B>
    requires lawful { AreLines machine.now.calls.online lines.now }
    requires ready { IsReady machine.now lines.now seat }
    // It is ready for other lines: each of its calls that waits has ended.
    ensures ready { IsReady machine.now lines.now result }
    ensures number { result.cpu.calls.number ≡ seat.cpu.calls.number }
    ensures answered { Answered machine.now.calls.online (keys_at machine.now) (λ c. c ≡ seat.cpu.calls.number) lines.now result.answers.items }
    // It has sent what its lines ask for, and nothing else. It has made as many direct calls as they ask for.
    ensures sent { HasCalled (script_calls machine.now.calls.online seat.cpu.calls.number lines.now)
        (script_direct seat.cpu.calls.number lines.now) seat.cpu result.cpu }
    // It has made the stops of each repetition, and no others; the last repetition's answer is told.
    ensures played { HasPlayed machine.now lines.now result.answers.items seat.cpu result.cpu }
{
    let DrivenSeat { cpu, answers } = seat;
    let handler = Paced {
        pace,
        cpu: cpu.number(),
        answers,
    };
    let mut at = smp_machine::Seat::new(machine, rt, cpu, handler, Echo);
    make_lines(&mut at, lines);
    let (cpu, handler, _) = at.into_parts();
    let Paced { answers, .. } = handler;
    DrivenSeat { cpu, answers }
}

/// What the CPUs of a run do: each makes its own lines of the script. The answers have their own memory, whatever that of the
/// machine is.
#[derive(Drop)]
pub(crate) struct Lines<'a, P, B: Allocator> {
    pub(crate) alloc: B,
    pub(crate) lines: &'a [Directive],
    pub(crate) pace: &'a P,
}

impl<'a, P: Pace, A: Allocator, B: Allocator + Copy> Crew<Paced<'a, P, B>, Echo, A>
    for Lines<'a, P, B> {
    ghost use Rattle.std.specs.Prelude.{◌≡◌, length, vec_len};
    ghost use Rattle.smp_run.specs.Driven.{MakesLines};
    ghost use Rattle.smp_run.specs.Seats.{AreLines};

    ghost runs_on = { λ crew m. AreLines m.calls.online crew.lines.now };

    // It has room for the answer of each line.
    ghost begins = { λ crew _ handler _. vec_len handler.answers ≡ length crew.lines.now };

    ghost plays = { λ crew old new. MakesLines old.machine crew.lines.now new.handler.answers.items old.cpu new.cpu };

    // The pace says so.
    ghost leaves = { λ _ _. Unit {0} };

    fn make(&self, cpu: u32) -> Result<(Paced<'a, P, B>, Echo), AllocError> {
        let answers = Vec::from_elem(self.alloc, Answer::Done, self.lines.len())?;
        let handler = Paced {
            pace: self.pace,
            cpu,
            answers,
        };
        Ok((handler, Echo))
    }

    fn play<R: Wait>(&self, seat: &mut RunSeat<'_, A, R, Paced<'a, P, B>>) {
        make_lines(seat, self.lines);
    }

    fn polls(&self, cpu: u32) -> bool {
        self.pace.polls(cpu)
    }
}
