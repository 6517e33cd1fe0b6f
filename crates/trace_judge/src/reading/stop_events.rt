//! Events of stops, as lines tell them.

ghost use Rattle.std.specs.Prelude.{◌≡◌, ◌<◌, ◌^◌, map, length};
ghost use Rattle.smp_script.specs.Lines.{AreShort};
ghost use Rattle.trace_judge.specs.Reading.{ack_of, collect_numbered, collect_of, complete_of, enter_of, numbered, numbered_open, open_as, open_line};
ghost use Rattle.trace_judge.specs.Reading.{own_stop, raise_of, run_of, task_line, task_of};

use super::read_below;
use smp_mask::Cause;
use smp_script::decimal::{read_from_to, read_i32, read_u32, read_u64};
use smp_script::field::{read_kind, read_mask};
use smp_words::work::Kind;
use trace_model::{Event, StopEvent, Task};

pub(super) fn read_enter(source: &[u8]) -> Result<Event, Cause>
    ensures { result ≡ enter_of source.now }
{
    let source = read_u32(source)?;
    Ok(Event::Stop(StopEvent::Enter(source)))
}

pub(super) fn read_ack(phase: &[u8]) -> Result<Event, Cause>
    ensures { result ≡ ack_of phase.now }
{
    let phase = read_from_to(phase, 1, 4)?;
    Ok(Event::Stop(StopEvent::Ack(phase)))
}

pub(super) fn read_raise(phase: &[u8]) -> Result<Event, Cause>
    ensures { result ≡ raise_of phase.now }
{
    let phase = read_from_to(phase, 2, 5)?;
    Ok(Event::Stop(StopEvent::Raise(phase)))
}

pub(super) fn read_complete(answer: &[u8]) -> Result<Event, Cause>
    ensures { result ≡ complete_of answer.now }
{
    let answer = read_i32(answer)?;
    Ok(Event::Stop(StopEvent::Complete(answer)))
}

pub(super) fn read_collect(answer: &[u8]) -> Result<Event, Cause>
    ensures { result ≡ collect_of answer.now }
{
    let answer = read_i32(answer)?;
    Ok(Event::Stop(StopEvent::Collect(0, answer)))
}

/// In version 3, the number of a stop and its result.
pub(super) fn read_collect_numbered(number: &[u8], answer: &[u8]) -> Result<Event, Cause>
    ensures { result ≡ collect_numbered number.now answer.now }
{
    let number = read_below(64, number)?;
    let answer = read_i32(answer)?;
    Ok(Event::Stop(StopEvent::Collect(number, answer)))
}

pub(super) fn read_run(func: &[u8], arg: &[u8]) -> Result<Event, Cause>
    ensures { result ≡ run_of func.now arg.now }
{
    let func = read_u64(func)?;
    let arg = read_u64(arg)?;
    Ok(Event::Stop(StopEvent::Run(func, arg)))
}

fn read_task(kind: Kind, mask: &[u8], active: &[u8], func: &[u8], arg: &[u8]) -> Result<Task, Cause>
    requires mask { length mask.now < 2 ^ 32 }
    requires active { length active.now < 2 ^ 32 }
    ensures { result ≡ task_of kind mask.now active.now func.now arg.now }
{
    let mask = read_mask(32, mask)?;
    let active = read_mask(32, active)?;
    let func = read_u64(func)?;
    let arg = read_u64(arg)?;
    Ok(Task {
        kind,
        mask,
        active,
        func,
        arg,
    })
}

/// KIND MASK ACTIVE FUNC ARG
fn read_task_line(arguments: &[&[u8]]) -> Result<Result<Task, Cause>, Cause>
    requires { AreShort (map (λ f. f.now) arguments.now) }
    ensures { result ≡ task_line (map (λ f. f.now) arguments.now) }
{
    let [kind, mask, active, func, arg] = arguments else {
        return Err(Cause::Word);
    };
    let kind = read_kind(kind)?;
    Ok(read_task(kind, mask, active, func, arg))
}

/// The opening of the stop of a number.
fn open_as(number: u32, task: Result<Task, Cause>) -> Result<Event, Cause>
    ensures { result ≡ open_as number task }
{
    let task = task?;
    Ok(Event::Stop(StopEvent::Open(number, task)))
}

/// In version 3, the opening of the stop of a number that is told, or what is wrong with it.
fn open_numbered(number: &[u8], task: Result<Task, Cause>) -> Result<Event, Cause>
    ensures { result ≡ numbered_open number.now task }
{
    let number = read_below(64, number)?;
    open_as(number, task)
}

/// `open`, and then these; in version 3 the number of the stop comes first.
pub(super) fn read_open_line(
    is_third: bool,
    arguments: &[&[u8]],
) -> Result<Result<Event, Cause>, Cause>
    requires { AreShort (map (λ f. f.now) arguments.now) }
    ensures { result ≡ open_line is_third (map (λ f. f.now) arguments.now) }
{
    if !is_third {
        let task = read_task_line(arguments)?;
        return Ok(open_as(0, task));
    }
    let [number, rest @ ..] = arguments else {
        return Err(Cause::Word);
    };
    let task = read_task_line(rest)?;
    Ok(open_numbered(number, task))
}

/// An event of a CPU that has opened a stop, where stops have no numbers of their own: it is the CPU's.
fn own_stop(cpu: u32, event: Event) -> Event
    ensures { result ≡ own_stop cpu event }
{
    match event {
        Event::Stop(StopEvent::Open(_, task)) => Event::Stop(StopEvent::Open(cpu, task)),
        Event::Stop(StopEvent::Collect(_, answer)) => Event::Stop(StopEvent::Collect(cpu, answer)),
        event => event,
    }
}

/// An event with the number of its stop.
pub(super) fn numbered(is_third: bool, cpu: u32, event: Event) -> Event
    ensures { result ≡ numbered is_third cpu event }
{
    if is_third {
        event
    } else {
        own_stop(cpu, event)
    }
}
