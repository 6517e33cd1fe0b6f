//! The events of a text in the trace-event format, which Perfetto and chrome://tracing read.

ghost use Rattle.std.specs.Prelude.{◌≡◌, ◌++◌, [], IfOk, OnOk};
ghost use Rattle.trace_ftrace.specs.Json.{ack_text, begin_text, call_text, called_text, collect_text, cpus_end, enter_text, entry_text, event_text};
ghost use Rattle.trace_ftrace.specs.Json.{events_text, flow_end, json_front, json_of, json_text, kind_text, open_text, queue_text, run_text};
ghost use Rattle.trace_ftrace.specs.Json.{opening_text, stop_text, task_text, track_text, tracks_text};
ghost use Rattle.trace_ftrace.specs.NamesView.{names_value};
ghost use Rattle.trace_ftrace.specs.Print.{IsTrace};
ghost use Rattle.trace_ftrace.specs.Reading.{reading_of};

mod pieces;

use crate::kept::functions_of;
use crate::names::{Names, name_of, write_record};
use crate::told::Told;
use crate::verdict::read_told;
use crate::waits::{FoundCall, go_on};
use crate::wrong::Refusal;
use pieces::{write_between, write_hex, write_quoted, write_time};
use smp_mask::CpuMask;
use smp_script::spelling::write_mask;
use std::alloc::{AllocError, Allocator};
use trace_model::{CallEvent, Event, StopEvent, Task};

/// What an entry is.
#[derive(Clone, Copy)]
enum Kind {
    /// A call is queued.
    Queue,
    /// A flow from there.
    Flow,
    /// Where it ends.
    FlowEnd,
    /// The function of a call is entered.
    Begin,
    /// The slice that was begun last on a CPU ends.
    End,
    /// A stop is open.
    Open,
    /// Its result is collected.
    Collect,
    /// A CPU is in it.
    Enter,
    Ack,
    Run,
}

/// What an entry is, up to its own numbers and names.
#[tactic(auto, unfolding(crate::specs::Json::kind_text))]
fn kind_text(kind: Kind) -> &'static str
    ensures { result.now ≡ kind_text kind }
{
    match kind {
        Kind::Queue => ",\"ph\":\"X\",\"dur\":0,\"name\":\"queue ",
        Kind::Flow => ",\"ph\":\"s\",\"cat\":\"call\",\"name\":\"call\",\"id\":",
        Kind::FlowEnd => ",\"ph\":\"f\",\"bp\":\"e\",\"cat\":\"call\",\"name\":\"call\",\"id\":",
        Kind::Begin => ",\"ph\":\"B\",\"name\":\"",
        Kind::End => ",\"ph\":\"E\"}",
        Kind::Open => ",\"ph\":\"b\",\"cat\":\"stop\",\"name\":\"stop ",
        Kind::Collect => ",\"ph\":\"e\",\"cat\":\"stop\",\"name\":\"stop ",
        Kind::Enter => ",\"ph\":\"B\",\"name\":\"stop ",
        Kind::Ack => ",\"ph\":\"i\",\"s\":\"t\",\"name\":\"ack ",
        Kind::Run => ",\"ph\":\"i\",\"s\":\"t\",\"name\":\"run ",
    }
}

/// Writes the front of an entry of this kind.
#[tactic(auto, unfolding(crate::specs::Json::entry_text))]
fn write_entry<A: Allocator + Copy>(
    alloc: A,
    out: &mut Vec<u8, A>,
    kind: Kind,
    told: &Told,
) -> Result<(), AllocError>
    ensures { OnOk result (out.new.items ≡ out.old.items ++ entry_text kind told.now) }
{
    write_between(alloc, out, ",\n{\"pid\":0,\"tid\":", told.cpu, ",\"ts\":")?;
    write_time(alloc, out, told.time)?;
    out.extend_from_slice(kind_text(kind).as_bytes())
}

/// Writes the function of a call, the line that tells the event, and the call's record.
#[tactic(auto, unfolding(crate::specs::Json::called_text))]
fn write_called<A: Allocator + Copy>(
    alloc: A,
    out: &mut Vec<u8, A>,
    names: &Names<'_>,
    line: u32,
    call: (u16, u64),
) -> Result<(), AllocError>
    ensures { OnOk result (out.new.items ≡ out.old.items ++ called_text (names_value names.now) line call.0 call.1) }
{
    write_quoted(out, name_of(names.functions, call.1))?;
    write_between(alloc, out, "\",\"args\":{\"line\":", line, ",\"record\":\"")?;
    write_record(alloc, out, names, call.0, "\"}}")
}

/// Writes a call that is queued, with the flow that begins there.
#[tactic(auto, unfolding(crate::specs::Json::queue_text))]
fn write_queue<A: Allocator + Copy>(
    alloc: A,
    out: &mut Vec<u8, A>,
    names: &Names<'_>,
    told: &Told,
    call: (u16, u64),
) -> Result<(), AllocError>
    ensures { OnOk result (out.new.items ≡ out.old.items ++ queue_text (names_value names.now) told.now call.0 call.1) }
{
    write_entry(alloc, out, Kind::Queue, told)?;
    write_called(alloc, out, names, told.line, call)?;
    write_entry(alloc, out, Kind::Flow, told)?;
    write_between(alloc, out, "", told.line, "}")
}

/// Writes a call whose function is entered.
#[tactic(auto, unfolding(crate::specs::Json::begin_text))]
fn write_begin<A: Allocator + Copy>(
    alloc: A,
    out: &mut Vec<u8, A>,
    names: &Names<'_>,
    told: &Told,
    call: (u16, u64),
) -> Result<(), AllocError>
    ensures { OnOk result (out.new.items ≡ out.old.items ++ begin_text (names_value names.now) told.now call.0 call.1) }
{
    write_entry(alloc, out, Kind::Begin, told)?;
    write_called(alloc, out, names, told.line, call)
}

/// Writes the end of a flow where the call is begun that was found; nothing of none.
fn write_flow_end<A: Allocator + Copy>(
    alloc: A,
    out: &mut Vec<u8, A>,
    told: &Told,
    found: Option<FoundCall>,
) -> Result<(), AllocError>
    ensures { OnOk result (out.new.items ≡ out.old.items ++ flow_end told.now found) }
{
    match found {
        Some(found) => {
            write_entry(alloc, out, Kind::FlowEnd, told)?;
            write_between(alloc, out, "", found.call.line, "}")
        }
        None => Ok(()),
    }
}

/// Writes the CPUs of a stop at the end of an entry.
#[tactic(auto, unfolding(crate::specs::Json::cpus_end))]
fn write_cpus_end<A: Allocator + Copy>(
    alloc: A,
    out: &mut Vec<u8, A>,
    cpus: CpuMask,
) -> Result<(), AllocError>
    ensures { OnOk result (out.new.items ≡ out.old.items ++ cpus_end cpus) }
{
    let mut text = String::new(alloc);
    write_mask(&mut text, cpus)?;
    out.extend_from_slice(text.as_bytes())?;
    out.extend_from_slice(b"\"}}")
}

/// Writes the number of a stop, and the line that tells it.
#[tactic(auto, unfolding(crate::specs::Json::opening_text))]
fn write_opening<A: Allocator + Copy>(
    alloc: A,
    out: &mut Vec<u8, A>,
    told: &Told,
    number: u32,
) -> Result<(), AllocError>
    ensures { OnOk result (out.new.items ≡ out.old.items ++ opening_text told.now number) }
{
    write_between(alloc, out, "", number, ",\"args\":")?;
    write_between(alloc, out, "{\"line\":", told.line, ",\"fn\":\"")
}

/// Writes what a stop is to do.
#[tactic(auto, unfolding(crate::specs::Json::task_text))]
fn write_task<A: Allocator + Copy>(
    alloc: A,
    out: &mut Vec<u8, A>,
    told: &Told,
    number: u32,
    task: &Task,
) -> Result<(), AllocError>
    ensures { OnOk result (out.new.items ≡ out.old.items ++ task_text told.now number task.now) }
{
    write_opening(alloc, out, told, number)?;
    write_hex(alloc, out, task.func, "\",\"cpus\":\"")?;
    write_cpus_end(alloc, out, task.mask)
}

/// Writes a stop that is opened.
#[tactic(auto, unfolding(crate::specs::Json::open_text))]
fn write_open<A: Allocator + Copy>(
    alloc: A,
    out: &mut Vec<u8, A>,
    told: &Told,
    number: u32,
    task: &Task,
) -> Result<(), AllocError>
    ensures { OnOk result (out.new.items ≡ out.old.items ++ open_text told.now number task.now) }
{
    write_entry(alloc, out, Kind::Open, told)?;
    write_between(alloc, out, "", number, "\",\"id\":")?;
    write_task(alloc, out, told, number, task)
}

/// Writes a stop whose result is collected.
#[tactic(auto, unfolding(crate::specs::Json::collect_text))]
fn write_collect<A: Allocator + Copy>(
    alloc: A,
    out: &mut Vec<u8, A>,
    told: &Told,
    number: u32,
) -> Result<(), AllocError>
    ensures { OnOk result (out.new.items ≡ out.old.items ++ collect_text told.now number) }
{
    write_entry(alloc, out, Kind::Collect, told)?;
    write_between(alloc, out, "", number, "\",\"id\":")?;
    write_between(alloc, out, "", number, "}")
}

/// Writes a stop that is entered.
#[tactic(auto, unfolding(crate::specs::Json::enter_text))]
fn write_enter<A: Allocator + Copy>(
    alloc: A,
    out: &mut Vec<u8, A>,
    told: &Told,
    number: u32,
) -> Result<(), AllocError>
    ensures { OnOk result (out.new.items ≡ out.old.items ++ enter_text told.now number) }
{
    write_entry(alloc, out, Kind::Enter, told)?;
    write_between(alloc, out, "", number, "\",\"args\":{\"line\":")?;
    write_between(alloc, out, "", told.line, "}}")
}

/// Writes a phase that is acknowledged.
fn write_ack<A: Allocator + Copy>(
    alloc: A,
    out: &mut Vec<u8, A>,
    told: &Told,
    phase: u32,
) -> Result<(), AllocError>
    ensures { OnOk result (out.new.items ≡ out.old.items ++ ack_text told.now phase) }
{
    write_entry(alloc, out, Kind::Ack, told)?;
    write_between(alloc, out, "", phase, "\"}")
}

/// Writes that the function of a stop is entered.
fn write_run<A: Allocator + Copy>(
    alloc: A,
    out: &mut Vec<u8, A>,
    told: &Told,
    func: u64,
) -> Result<(), AllocError>
    ensures { OnOk result (out.new.items ≡ out.old.items ++ run_text told.now func) }
{
    write_entry(alloc, out, Kind::Run, told)?;
    write_hex(alloc, out, func, "\"}")
}

/// Writes an event of calls.
fn write_call<A: Allocator + Copy>(
    alloc: A,
    out: &mut Vec<u8, A>,
    names: &Names<'_>,
    told: &Told,
    event: CallEvent,
) -> Result<(), AllocError>
    ensures { OnOk result (out.new.items ≡ out.old.items ++ call_text (names_value names.now) told.now event) }
{
    match event {
        CallEvent::Queue(id, _, _, func, _) => write_queue(alloc, out, names, told, (id, func)),
        CallEvent::Begin(id, func, _) => write_begin(alloc, out, names, told, (id, func)),
        CallEvent::End(_) => write_entry(alloc, out, Kind::End, told),
        _ => Ok(()),
    }
}

/// Writes an event of stops.
fn write_stop<A: Allocator + Copy>(
    alloc: A,
    out: &mut Vec<u8, A>,
    told: &Told,
    event: StopEvent,
) -> Result<(), AllocError>
    ensures { OnOk result (out.new.items ≡ out.old.items ++ stop_text told.now event) }
{
    match event {
        StopEvent::Open(number, task) => write_open(alloc, out, told, number, &task),
        StopEvent::Enter(number) => write_enter(alloc, out, told, number),
        StopEvent::Ack(phase) => write_ack(alloc, out, told, phase),
        StopEvent::Run(func, _) => write_run(alloc, out, told, func),
        StopEvent::Complete(_) => write_entry(alloc, out, Kind::End, told),
        StopEvent::Collect(number, _) => write_collect(alloc, out, told, number),
        _ => Ok(()),
    }
}

/// Writes an event.
fn write_event<A: Allocator + Copy>(
    alloc: A,
    out: &mut Vec<u8, A>,
    names: &Names<'_>,
    told: &Told,
) -> Result<(), AllocError>
    ensures { OnOk result (out.new.items ≡ out.old.items ++ event_text (names_value names.now) told.now told.now.event) }
{
    match told.event {
        Event::Call(event) => write_call(alloc, out, names, told, event),
        Event::Stop(event) => write_stop(alloc, out, told, event),
        Event::Label(_) => Ok(()),
    }
}

/// Writes events, behind each the end of the flow of the call that it begins.
fn write_events<A: Allocator + Copy>(
    alloc: A,
    out: &mut Vec<u8, A>,
    names: &Names<'_>,
    told: &[Told],
) -> Result<(), AllocError>
    ensures { OnOk result (out.new.items ≡ out.old.items ++ events_text (names_value names.now) told.now []) }
{
    let mut left = Vec::new(alloc);
    let mut rest = told;
    while let [first, after @ ..] = rest {
        write_event(alloc, out, names, first)?;
        let found = go_on(&mut left, first)?;
        write_flow_end(alloc, out, first, found)?;
        rest = after;
    }
    Ok(())
}

/// Writes a CPU's track with its name.
#[tactic(auto, unfolding(crate::specs::Json::track_text))]
fn write_track<A: Allocator + Copy>(
    alloc: A,
    out: &mut Vec<u8, A>,
    cpu: u32,
) -> Result<(), AllocError>
    ensures { OnOk result (out.new.items ≡ out.old.items ++ track_text cpu) }
{
    let back = ",\"ph\":\"M\",\"name\":\"thread_name\",\"args\":{\"name\":\"CPU ";
    write_between(alloc, out, ",\n{\"pid\":0,\"tid\":", cpu, back)?;
    write_between(alloc, out, "", cpu, "\"}}")
}

/// Writes the names of the tracks of this number of CPUs.
fn write_tracks<A: Allocator + Copy>(
    alloc: A,
    out: &mut Vec<u8, A>,
    cpus: u32,
) -> Result<(), AllocError>
    ensures { OnOk result (out.new.items ≡ out.old.items ++ tracks_text cpus) }
{
    for cpu in 0..cpus {
        write_track(alloc, out, cpu)?;
    }
    Ok(())
}

/// Writes what is in front of the tracks.
#[tactic(auto, unfolding(crate::specs::Json::json_front))]
fn write_front<A: Allocator>(out: &mut Vec<u8, A>) -> Result<(), AllocError>
    ensures { OnOk result (out.new.items ≡ out.old.items ++ json_front) }
{
    out.extend_from_slice(b"{\"displayTimeUnit\":\"ns\",\"traceEvents\":[\n")?;
    out.extend_from_slice(
        b"{\"name\":\"process_name\",\"ph\":\"M\",\"pid\":0,\"args\":{\"name\":\"ftrace\"}}",
    )
}

/// These events of this number of CPUs, with these names.
#[tactic(auto, unfolding(crate::specs::Json::json_text))]
fn json_text<A: Allocator + Copy>(
    alloc: A,
    names: &Names<'_>,
    cpus: u32,
    told: &[Told],
) -> Result<Vec<u8, A>, AllocError>
    ensures { IfOk result (λ v. v.items ≡ json_text (names_value names.now) cpus told.now) }
{
    let mut out = Vec::new(alloc);
    write_front(&mut out)?;
    write_tracks(alloc, &mut out, cpus)?;
    write_events(alloc, &mut out, names, told)?;
    out.extend_from_slice(b"\n]}\n")?;
    Ok(out)
}

/// The events that a text of a kernel's tracer tells, without the text's first `skip` nanoseconds, in the trace-event format. A call
/// is a slice of its CPU from its begin to its end, with a flow from where it is queued. So is a stop of each CPU that is in it.
///
/// Refusals: `TooLong`; `Wrong` with the first line at fault; `NoMemory`.
pub fn json_of_kernel<A: Allocator + Copy>(
    alloc: A,
    skip: u64,
    text: &[u8],
) -> Result<Vec<u8, A>, Refusal>
    ensures { IsTrace result (json_of (reading_of skip text.now)) }
{
    let reading = match read_told(alloc, skip, text) {
        Ok(reading) => reading,
        Err(why) => return Err(why),
    };
    let Ok(functions) = functions_of(alloc, &reading.kept) else {
        return Err(Refusal::NoMemory);
    };
    let names = Names {
        addresses: reading.telling.addresses.as_slice(),
        functions: functions.as_slice(),
    };
    let told = reading.telling.told.as_slice();
    match json_text(alloc, &names, reading.telling.cpus, told) {
        Ok(out) => Ok(out),
        Err(_) => Err(Refusal::NoMemory),
    }
}
