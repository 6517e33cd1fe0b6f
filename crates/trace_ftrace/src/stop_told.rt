//! The events of stops that marks tell.

ghost use Rattle.std.specs.Prelude.{◌≡◌, ◌<◌, Ok, length, slice_set};
ghost use Rattle.trace_ftrace.specs.Marks.{Keeps};
ghost use Rattle.trace_ftrace.specs.StopTold.{begun, closed, collected, done, entered, inside_told, is_again, left};
ghost use Rattle.trace_ftrace.specs.StopTold.{opened, started, stop_told, task_of, unwaited};
ghost use Rattle.trace_ftrace.specs.Telling.{with_event};
ghost use Rattle.trace_ftrace.specs.ToldView.{telling_value};

use crate::kept::{Mark, Stamp};
use crate::per_cpu::{at, put};
use crate::stop_sign::{Opening, StopSign, Work};
use crate::stops::{Found, OpenStop, Plan, Wanted, find, free_number, plan_of};
use crate::told::{Telling, tell};
use crate::wrong::{Refusal, Wrong};
use std::alloc::Allocator;
use trace_model::{Event, StopEvent, Task};

/// Tells an event of stops.
fn tell_stop<A: Allocator>(
    telling: &mut Telling<A>,
    stamp: Stamp,
    event: StopEvent,
) -> Result<(), Refusal>
    ensures made { Keeps result (telling_value telling.new) (Ok (with_event stamp (Event.Stop event) (telling_value telling.old))) }
    ensures same { telling.new.addresses ≡ telling.old.addresses }
{
    tell(telling, stamp, Event::Stop(event))
}

/// What a stop is to do, as its event has it.
fn task_of(plan: &Plan) -> Task
    ensures { result ≡ task_of plan.now }
{
    Task {
        kind: plan.kind,
        mask: plan.mask,
        active: plan.active,
        func: plan.work.func,
        arg: plan.work.arg,
    }
}

/// Puts an open stop in the place of another.
fn replace(stops: &mut [OpenStop], place: usize, stop: OpenStop)
    requires { place < length stops.old }
    ensures { stops.new ≡ slice_set stops.old place stop }
{
    stops[place] = stop;
}

/// Tells that a stop is opened, with the least number that none has.
#[tactic(auto, unfolding(crate::specs::StopTold::opened))]
fn open_stop<A: Allocator>(
    telling: &mut Telling<A>,
    stamp: Stamp,
    plan: Plan,
) -> Result<(), Refusal>
    ensures made { Keeps result (telling_value telling.new) (opened stamp plan (telling_value telling.old)) }
    ensures same { telling.new.addresses ≡ telling.old.addresses }
{
    let Some(number) = free_number(telling.stops.as_slice()) else {
        return Err(Refusal::Wrong(stamp.line, Wrong::Stops));
    };
    let stop = OpenStop {
        number,
        plan,
        has_begun: false,
    };
    match telling.stops.push(stop) {
        Ok(()) => tell_stop(telling, stamp, StopEvent::Open(number, task_of(&plan))),
        Err(_) => Err(Refusal::NoMemory),
    }
}

/// Whether a task opens a rendezvous of many CPUs while it waits for a stop.
fn is_again(opening: Opening, task: u64, stops: &[OpenStop]) -> bool
    ensures { result ≡ is_again opening task stops.now }
{
    match opening {
        Opening::Machine(_) | Opening::Inactive(_) => find(Wanted::OfTask(task), stops).is_some(),
        Opening::Two(..) | Opening::One(_) | Opening::NoWait(_) => false,
    }
}

/// Tells that a stop is opened, where it is begun behind.
#[tactic(auto, unfolding(crate::specs::StopTold::begun))]
fn tell_open<A: Allocator>(
    telling: &mut Telling<A>,
    stamp: Stamp,
    opening: Opening,
    work: Work,
    behind: &[Mark],
) -> Result<(), Refusal>
    ensures made { Keeps result (telling_value telling.new) (begun stamp opening work behind.now (telling_value telling.old)) }
    ensures same { telling.new.addresses ≡ telling.old.addresses }
{
    if is_again(opening, stamp.task, telling.stops.as_slice()) {
        return Ok(());
    }
    match plan_of(opening, work, stamp, behind) {
        Some(plan) => open_stop(telling, stamp, plan),
        None => Ok(()),
    }
}

/// Tells that a CPU enters a rendezvous; nothing where that is not open, as before the first line.
#[tactic(auto, unfolding(crate::specs::StopTold::entered))]
fn tell_enter<A: Allocator>(
    telling: &mut Telling<A>,
    stamp: Stamp,
    ident: u64,
    func: u64,
) -> Result<(), Refusal>
    ensures made { Keeps result (telling_value telling.new) (entered stamp ident func (telling_value telling.old)) }
    ensures same { telling.new.addresses ≡ telling.old.addresses }
{
    let cpu = stamp.cpu;
    let wanted = Wanted::Entered(cpu, ident, func);
    let Some(Found { place, mut stop }) = find(wanted, telling.stops.as_slice()) else {
        return Ok(());
    };
    let number = stop.number;
    stop.plan.ident = Some(ident);
    replace(telling.stops.as_mut_slice(), place, stop);
    put(&mut telling.inside, cpu, Some(number));
    tell_stop(telling, stamp, StopEvent::Enter(number))
}

/// Tells an event of a CPU that is in a rendezvous; nothing of another.
#[tactic(auto, unfolding(crate::specs::StopTold::inside_told))]
fn tell_inside<A: Allocator>(
    telling: &mut Telling<A>,
    stamp: Stamp,
    event: StopEvent,
) -> Result<(), Refusal>
    ensures made { Keeps result (telling_value telling.new) (inside_told stamp event (telling_value telling.old)) }
    ensures same { telling.new.addresses ≡ telling.old.addresses }
{
    match at(&telling.inside, stamp.cpu, None) {
        Some(_) => tell_stop(telling, stamp, event),
        None => Ok(()),
    }
}

/// Tells that a CPU leaves a rendezvous.
#[tactic(auto, unfolding(crate::specs::StopTold::left))]
fn tell_leave<A: Allocator>(
    telling: &mut Telling<A>,
    stamp: Stamp,
    answer: i32,
) -> Result<(), Refusal>
    ensures made { Keeps result (telling_value telling.new) (left stamp answer (telling_value telling.old)) }
    ensures same { telling.new.addresses ≡ telling.old.addresses }
{
    let Some(_) = at(&telling.inside, stamp.cpu, None) else {
        return Ok(());
    };
    put(&mut telling.inside, stamp.cpu, None);
    tell_stop(telling, stamp, StopEvent::Complete(answer))
}

/// Tells that a CPU begins the work of a stop of its own; nothing where that is not open, as of a rendezvous.
#[tactic(auto, unfolding(crate::specs::StopTold::started))]
fn tell_start<A: Allocator>(
    telling: &mut Telling<A>,
    stamp: Stamp,
    work: Work,
) -> Result<(), Refusal>
    ensures made { Keeps result (telling_value telling.new) (started stamp work (telling_value telling.old)) }
    ensures same { telling.new.addresses ≡ telling.old.addresses }
{
    let cpu = stamp.cpu;
    let Some(Found { place, mut stop }) = find(Wanted::Begun(cpu, work), telling.stops.as_slice())
    else {
        return Ok(());
    };
    let number = stop.number;
    stop.has_begun = true;
    replace(telling.stops.as_mut_slice(), place, stop);
    put(&mut telling.alone, cpu, Some(number));
    match tell_stop(telling, stamp, StopEvent::Enter(number)) {
        Ok(()) => tell_stop(telling, stamp, StopEvent::Run(work.func, work.arg)),
        Err(why) => Err(why),
    }
}

/// Tells that a stop has its answer, and is no longer open.
#[tactic(auto, unfolding(crate::specs::StopTold::collected))]
fn collect<A: Allocator>(
    telling: &mut Telling<A>,
    stamp: Stamp,
    found: &Found,
    answer: i32,
) -> Result<(), Refusal>
    requires { found.now.place < length telling.old.stops.items }
    ensures made { Keeps result (telling_value telling.new) (Ok (collected stamp found.now answer (telling_value telling.old))) }
    ensures same { telling.new.addresses ≡ telling.old.addresses }
{
    let number = found.stop.number;
    telling.stops.remove(found.place);
    tell_stop(telling, stamp, StopEvent::Collect(number, answer))
}

/// Tells that the stop of a number has its answer, where nobody waits for it.
#[tactic(auto, unfolding(crate::specs::StopTold::unwaited))]
fn end_unwaited<A: Allocator>(
    telling: &mut Telling<A>,
    stamp: Stamp,
    number: u32,
    answer: i32,
) -> Result<(), Refusal>
    ensures made { Keeps result (telling_value telling.new) (Ok (unwaited stamp number answer (telling_value telling.old))) }
    ensures same { telling.new.addresses ≡ telling.old.addresses }
{
    let Some(found) = find(Wanted::Of(number), telling.stops.as_slice()) else {
        return Ok(());
    };
    match found.stop.plan.task {
        Some(_) => Ok(()),
        None => collect(telling, stamp, &found, answer),
    }
}

/// Tells that the work that a CPU began is done.
#[tactic(auto, unfolding(crate::specs::StopTold::done))]
fn tell_done<A: Allocator>(
    telling: &mut Telling<A>,
    stamp: Stamp,
    answer: i32,
) -> Result<(), Refusal>
    ensures made { Keeps result (telling_value telling.new) (Ok (done stamp answer (telling_value telling.old))) }
    ensures same { telling.new.addresses ≡ telling.old.addresses }
{
    let Some(number) = at(&telling.alone, stamp.cpu, None) else {
        return Ok(());
    };
    put(&mut telling.alone, stamp.cpu, None);
    match tell_stop(telling, stamp, StopEvent::Complete(answer)) {
        Ok(()) => end_unwaited(telling, stamp, number, answer),
        Err(why) => Err(why),
    }
}

/// Tells that a task has the answer for which it waits.
#[tactic(auto, unfolding(crate::specs::StopTold::closed))]
fn tell_close<A: Allocator>(
    telling: &mut Telling<A>,
    stamp: Stamp,
    answer: i32,
) -> Result<(), Refusal>
    ensures made { Keeps result (telling_value telling.new) (Ok (closed stamp answer (telling_value telling.old))) }
    ensures same { telling.new.addresses ≡ telling.old.addresses }
{
    match find(Wanted::OfTask(stamp.task), telling.stops.as_slice()) {
        Some(found) => collect(telling, stamp, &found, answer),
        None => Ok(()),
    }
}

/// Tells the events of stops that a mark tells, with the marks behind it.
#[tactic(auto, unfolding(crate::specs::StopTold::stop_told))]
pub(crate) fn tell_stop_mark<A: Allocator>(
    telling: &mut Telling<A>,
    stamp: Stamp,
    sign: StopSign,
    behind: &[Mark],
) -> Result<(), Refusal>
    ensures made { Keeps result (telling_value telling.new) (stop_told stamp sign behind.now (telling_value telling.old)) }
    ensures same { telling.new.addresses ≡ telling.old.addresses }
{
    match sign {
        StopSign::Open(opening, work) => tell_open(telling, stamp, opening, work, behind),
        StopSign::Queue(..) => Ok(()),
        StopSign::Enter(ident, func) => tell_enter(telling, stamp, ident, func),
        StopSign::Ack(phase) => tell_inside(telling, stamp, StopEvent::Ack(phase)),
        StopSign::Run(work) => { tell_inside(telling, stamp, StopEvent::Run(work.func, work.arg)) }
        StopSign::Leave(answer) => tell_leave(telling, stamp, answer),
        StopSign::Start(work) => tell_start(telling, stamp, work),
        StopSign::Done(answer) => tell_done(telling, stamp, answer),
        StopSign::Close(answer) => tell_close(telling, stamp, answer),
    }
}
