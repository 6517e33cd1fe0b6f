//! What a CPU calls, and what is answered.

ghost use Rattle.std.specs.Prelude.{◌≡◌, ◌<◌, ◌≤◌, ◌^◌, ◌&&◌, true, false, [], IfSome, MatchOption};
ghost use Rattle.smp_mask.specs.declared.error.Edge.TheVariants.{Full, Zero};
ghost use Rattle.smp_calls.specs.Targets.{is_target};
ghost use Rattle.smp_machine.specs.Stops.{IsActiveAlone};
ghost use Rattle.smp_script.specs.Spelling.{RequestFits};
ghost use Rattle.smp_run.specs.Answers.{IsAnswer, IsAnyAnswer, IsCount, IsCpus, IsDone, IsRefusedOr, IsStopAnswer, IsTruth};
ghost use Rattle.smp_run.specs.Answers.{answer_of, call_refusal, key_refusal, one_refusal, two_refusal, says as says_of};
ghost use Rattle.smp_run.specs.Made.{HasMade, Makes};
ghost use Rattle.smp_run.specs.Seats.{keys_at};
ghost use Rattle.smp_run.specs.Sent.{HasCalled, HasRequested};
ghost use Rattle.smp_run.specs.Stays.{IsAtRest, Stays};

use crate::answer::Answer;
use crate::pace::RunSeat;
use crossbeam_utils::Backoff;
use smp_mask::{CpuMask, SmpError};
use smp_queue::Handler;
use smp_script::request::{Request, Which};
use std::alloc::Allocator;
use std::sync::Wait;

fn says(which: Which, cpu: u32) -> bool
    ensures { result ≡ says_of which cpu }
{
    match which {
        Which::All => true,
        Which::Even => cpu % 2 == 0,
        Which::Odd => cpu % 2 == 1,
    }
}

/// What was made, told as an answer, or why it was refused.
fn answer_or<T, F: FnOnce(T) -> Answer>(made: Result<T, SmpError>, told: F) -> Answer
    requires { F.IsAlwaysCallable told }
    ensures { (make : T → Answer) → ((x : T) (answer : Answer) → F.post told x answer → answer ≡ make x) → result ≡ answer_of make made }
{
    match made {
        Ok(x) => told(x),
        Err(error) => Answer::Refused(error),
    }
}

/// The number of a seat's CPU, which is the same in both halves of the machine.
fn number_of<A: Allocator, R: Wait, H: Handler + Drop>(seat: &RunSeat<'_, A, R, H>) -> u32
    ensures calls { result ≡ seat.now.cpu.calls.number }
    ensures stops { result ≡ seat.now.cpu.stops.number }
{
    seat.cpu.number()
}

/// A poll of the machine: the CPU handles its own interrupt, and takes part in a stop that calls it.
#[tactic(auto, using(crate::proofs::Staying::called_worked, crate::proofs::Making::made_polled))]
pub(crate) fn poll<A: Allocator, R: Wait, H: Handler + Drop>(seat: &mut RunSeat<'_, A, R, H>)
    requires rest { IsAtRest seat.old }
    ensures stays { Stays seat.old seat.new }
    ensures sent { HasCalled [] 0 seat.old.cpu seat.new.cpu }
    ensures stops { HasMade [] seat.old.cpu seat.new.cpu }
{
    seat.poll();
}

#[tactic(auto, using(crate::proofs::Making::made_called))]
fn single<A: Allocator, R: Wait, H: Handler + Drop>(
    seat: &mut RunSeat<'_, A, R, H>,
    wait: bool,
    dst: u32,
    func: u16,
    info: u64,
) -> Answer
    requires rest { IsAtRest seat.old }
    ensures stays { Stays seat.old seat.new }
    ensures answer { IsRefusedOr (call_refusal seat.old.machine.calls.online dst) IsDone result }
    ensures sent { HasRequested seat.old.machine.calls.online (Request.Single wait dst func info) seat.old.cpu seat.new.cpu }
    ensures stops { HasMade [] seat.old.cpu seat.new.cpu }
{
    let made = seat.call_single(dst, func, info, wait);
    answer_or(made, |_| Answer::Done)
}

/// One call by a record of the user; none where the record is busy.
#[tactic(auto, using(crate::proofs::Calling::user_refused, crate::proofs::Sending::called_none, crate::proofs::Making::made_called))]
fn try_user<A: Allocator, R: Wait, H: Handler + Drop>(
    seat: &mut RunSeat<'_, A, R, H>,
    u: u32,
    dst: u32,
    func: u16,
    info: u64,
) -> Option<Answer>
    requires rest { IsAtRest seat.old }
    requires which { u ≤ 1 }
    ensures stays { Stays seat.old seat.new }
    ensures answer { IfSome result (IsRefusedOr (call_refusal seat.old.machine.calls.online dst) IsDone) }
    ensures sent { MatchOption result (HasCalled [] 0 seat.old.cpu seat.new.cpu)
        (λ _. HasRequested seat.old.machine.calls.online (Request.User u dst func info) seat.old.cpu seat.new.cpu) }
    ensures stops { HasMade [] seat.old.cpu seat.new.cpu }
{
    match seat.call_async(u, dst, func, info) {
        Ok(()) => Some(Answer::Done),
        Err(SmpError::Busy) => None,
        Err(error) => Some(Answer::Refused(error)),
    }
}

/// A call by record `u` of the user, tried again after a poll while the record is busy.
#[tactic(auto, using(crate::proofs::Stays::stays_first, crate::proofs::Stays::stays_on))]
fn user<A: Allocator, R: Wait, H: Handler + Drop>(
    seat: &mut RunSeat<'_, A, R, H>,
    u: u32,
    dst: u32,
    func: u16,
    info: u64,
) -> Answer
    requires rest { IsAtRest seat.old }
    requires which { u ≤ 1 }
    ensures stays { Stays seat.old seat.new }
    ensures answer { IsRefusedOr (call_refusal seat.old.machine.calls.online dst) IsDone result }
    ensures sent { HasRequested seat.old.machine.calls.online (Request.User u dst func info) seat.old.cpu seat.new.cpu }
    ensures stops { HasMade [] seat.old.cpu seat.new.cpu }
{
    let backoff = Backoff::new();
    for _ in seat.rt.forever() {
        if let Some(answer) = try_user(seat, u, dst, func, info) {
            return answer;
        }
        poll(seat);
        backoff.snooze();
    }
    unreachable!()
}

#[tactic(auto, using(crate::proofs::Making::made_called))]
fn any<A: Allocator, R: Wait, H: Handler + Drop>(
    seat: &mut RunSeat<'_, A, R, H>,
    wait: bool,
    mask: CpuMask,
    func: u16,
    info: u64,
) -> Answer
    requires rest { IsAtRest seat.old }
    ensures stays { Stays seat.old seat.new }
    ensures answer { IsAnyAnswer mask seat.old.machine.calls.online seat.old.cpu.calls.number result }
    ensures sent { HasRequested seat.old.machine.calls.online (Request.Any wait mask func info) seat.old.cpu seat.new.cpu }
    ensures stops { HasMade [] seat.old.cpu seat.new.cpu }
{
    let _online = seat.online();
    let made = seat.call_any(mask, func, info, wait);
    answer_or(made, |cpu| Answer::Cpu(cpu))
}

#[tactic(auto, using(crate::proofs::Making::made_called))]
fn many<A: Allocator, R: Wait, H: Handler + Drop>(
    seat: &mut RunSeat<'_, A, R, H>,
    wait: bool,
    mask: CpuMask,
    func: u16,
    info: u64,
) -> Answer
    requires rest { IsAtRest seat.old }
    ensures stays { Stays seat.old seat.new }
    ensures answer { IsCpus (is_target mask seat.old.machine.calls.online seat.old.cpu.calls.number false) result }
    ensures sent { HasRequested seat.old.machine.calls.online (Request.Many wait mask func info) seat.old.cpu seat.new.cpu }
    ensures stops { HasMade [] seat.old.cpu seat.new.cpu }
{
    let made = seat.call_many(mask, func, info, wait);
    answer_or(made, |cpus| Answer::Cpus(cpus))
}

/// The CPUs of a mask for which a predicate holds.
#[derive(Clone, Copy)]
struct Chosen {
    which: Which,
    mask: CpuMask,
}

#[tactic(auto, using(crate::proofs::Making::made_called))]
fn cond<A: Allocator, R: Wait, H: Handler + Drop>(
    seat: &mut RunSeat<'_, A, R, H>,
    wait: bool,
    chosen: Chosen,
    func: u16,
    info: u64,
) -> Answer
    requires rest { IsAtRest seat.old }
    ensures stays { Stays seat.old seat.new }
    ensures answer { IsCpus (λ c. is_target chosen.mask seat.old.machine.calls.online seat.old.cpu.calls.number true c && says_of chosen.which c) result }
    ensures sent { HasRequested seat.old.machine.calls.online (Request.Cond chosen.which wait chosen.mask func info) seat.old.cpu seat.new.cpu }
    ensures stops { HasMade [] seat.old.cpu seat.new.cpu }
{
    let Chosen { which, mask } = chosen;
    let _this = seat.number();
    let asked = |cpu: u32, _info: u64| -> bool
        ensures { result ≡ says_of which cpu }
    { says(which, cpu) };
    let made = seat.each_cpu_cond(mask, func, info, &asked, wait);
    answer_or(made, |cpus| Answer::Cpus(cpus))
}

fn one<A: Allocator, R: Wait, H: Handler + Drop>(
    seat: &mut RunSeat<'_, A, R, H>,
    dst: u32,
    func: u16,
    arg: u64,
) -> Answer
    requires rest { IsAtRest seat.old }
    requires small { arg < 2 ^ 31 }
    ensures stays { Stays seat.old seat.new }
    ensures answer { IsRefusedOr (one_refusal seat.old.machine.calls.online dst) (IsStopAnswer (dst ≡ seat.old.cpu.calls.number) arg) result }
    ensures sent { HasCalled [] 0 seat.old.cpu seat.new.cpu }
    ensures made { Makes seat.old.machine.stops (Request.One dst func arg) result seat.old.cpu seat.new.cpu }
{
    let _online = seat.online();
    let _this = number_of(seat);
    let made = seat.stop_one(dst, func, arg);
    answer_or(made, |answer| Answer::Number(answer))
}

fn two<A: Allocator, R: Wait, H: Handler + Drop>(
    seat: &mut RunSeat<'_, A, R, H>,
    a: u32,
    b: u32,
    func: u16,
    arg: u64,
) -> Answer
    requires rest { IsAtRest seat.old }
    requires small { arg < 2 ^ 31 }
    ensures stays { Stays seat.old seat.new }
    ensures answer { IsRefusedOr (two_refusal seat.old.machine.calls.online a b) (IsStopAnswer (a ≡ seat.old.cpu.calls.number) arg) result }
    ensures sent { HasCalled [] 0 seat.old.cpu seat.new.cpu }
    ensures made { Makes seat.old.machine.stops (Request.Two a b func arg) result seat.old.cpu seat.new.cpu }
{
    let _online = seat.online();
    let _this = number_of(seat);
    let made = seat.stop_two(a, b, func, arg);
    answer_or(made, |answer| Answer::Number(answer))
}

fn stop_all<A: Allocator, R: Wait, H: Handler + Drop>(
    seat: &mut RunSeat<'_, A, R, H>,
    active: Option<CpuMask>,
    func: u16,
    arg: u64,
) -> Answer
    requires rest { IsAtRest seat.old }
    requires small { arg < 2 ^ 31 }
    ensures stays { Stays seat.old seat.new }
    ensures answer { IsStopAnswer (IsActiveAlone seat.old.machine.calls.online active seat.old.cpu.calls.number) arg result }
    ensures sent { HasCalled [] 0 seat.old.cpu seat.new.cpu }
    ensures made { Makes seat.old.machine.stops (Request.Machine active func arg) result seat.old.cpu seat.new.cpu }
{
    let _online = seat.online();
    let _this = number_of(seat);
    let made = seat.stop_machine(func, arg, active);
    answer_or(made, |answer| Answer::Number(answer))
}

fn set<A: Allocator, R: Wait, H: Handler + Drop>(
    seat: &mut RunSeat<'_, A, R, H>,
    k: u32,
    on: bool,
) -> Answer
    requires rest { IsAtRest seat.old }
    ensures stays { Stays seat.old seat.new }
    ensures answer { IsRefusedOr (key_refusal (keys_at seat.old.machine) k) IsTruth result }
    ensures sent { HasCalled [] 0 seat.old.cpu seat.new.cpu }
    ensures made { Makes seat.old.machine.stops (Request.Set k on) result seat.old.cpu seat.new.cpu }
{
    let made = seat.set_key(k, on);
    answer_or(made, |turned| Answer::Turned(turned))
}

fn inc<A: Allocator, R: Wait, H: Handler + Drop>(seat: &mut RunSeat<'_, A, R, H>, k: u32) -> Answer
    requires rest { IsAtRest seat.old }
    ensures stays { Stays seat.old seat.new }
    ensures answer { IsRefusedOr (key_refusal (keys_at seat.old.machine) k) (IsCount Full) result }
    ensures sent { HasCalled [] 0 seat.old.cpu seat.new.cpu }
    ensures made { Makes seat.old.machine.stops (Request.Inc k) result seat.old.cpu seat.new.cpu }
{
    let made = seat.key_inc(k);
    answer_or(made, |turned| Answer::Turned(turned))
}

fn dec<A: Allocator, R: Wait, H: Handler + Drop>(seat: &mut RunSeat<'_, A, R, H>, k: u32) -> Answer
    requires rest { IsAtRest seat.old }
    ensures stays { Stays seat.old seat.new }
    ensures answer { IsRefusedOr (key_refusal (keys_at seat.old.machine) k) (IsCount Zero) result }
    ensures sent { HasCalled [] 0 seat.old.cpu seat.new.cpu }
    ensures made { Makes seat.old.machine.stops (Request.Dec k) result seat.old.cpu seat.new.cpu }
{
    let made = seat.key_dec(k);
    answer_or(made, |turned| Answer::Turned(turned))
}

/// What a request asks for, once, and its answer.
pub(crate) fn make<A: Allocator, R: Wait, H: Handler + Drop>(
    seat: &mut RunSeat<'_, A, R, H>,
    request: Request,
) -> Answer
    requires rest { IsAtRest seat.old }
    requires fits { RequestFits request }
    ensures stays { Stays seat.old seat.new }
    ensures answer { IsAnswer seat.old.machine.calls.online (keys_at seat.old.machine) seat.old.cpu.calls.number request result }
    ensures sent { HasRequested seat.old.machine.calls.online request seat.old.cpu seat.new.cpu }
    ensures made { Makes seat.old.machine.stops request result seat.old.cpu seat.new.cpu }
{
    match request {
        Request::Single(wait, dst, func, info) => single(seat, wait, dst, func, info),
        Request::User(u, dst, func, info) => user(seat, u, dst, func, info),
        Request::Any(wait, mask, func, info) => any(seat, wait, mask, func, info),
        Request::Many(wait, mask, func, info) => many(seat, wait, mask, func, info),
        Request::Cond(which, wait, mask, func, info) => {
            cond(seat, wait, Chosen { which, mask }, func, info)
        }
        Request::One(dst, func, arg) => one(seat, dst, func, u64::from(arg)),
        Request::Two(a, b, func, arg) => two(seat, a, b, func, u64::from(arg)),
        Request::Machine(active, func, arg) => { stop_all(seat, active, func, u64::from(arg)) }
        Request::Set(k, on) => set(seat, k, on),
        Request::Inc(k) => inc(seat, k),
        Request::Dec(k) => dec(seat, k),
    }
}
