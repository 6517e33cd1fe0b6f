//! The calls that wait for long.

ghost use Rattle.std.specs.Prelude.{◌≡◌, ◌<◌, ◌++◌, [], length, IfOk, IfSome, OnOk};
ghost use Rattle.trace_ftrace.specs.NamesView.{names_value};
ghost use Rattle.trace_ftrace.specs.Waits.{begun, call_text, found_from, is_queue, late, late_at, left_after, left_text, queued};
ghost use Rattle.trace_ftrace.specs.Waits.{waited_text, waiting_text, waits_text, with_queued};

use crate::names::{Names, name_of, write_record};
use crate::told::Told;
use std::alloc::{AllocError, Allocator};
use trace_model::{CallEvent, Event};

/// A call that is queued: by which line, when, its record, the CPU that is to run it, and its function.
#[derive(Clone, Copy)]
pub(crate) struct QueuedCall {
    pub(crate) line: u32,
    time: u128,
    id: u16,
    to: u32,
    func: u64,
}

/// A queued call that was found, and its place among the others.
#[derive(Clone, Copy)]
pub(crate) struct FoundCall {
    place: usize,
    pub(crate) call: QueuedCall,
}

/// A call that waits, and how long it has waited until it was begun; none where it is not begun.
#[derive(Clone, Copy)]
struct WaitingCall {
    call: QueuedCall,
    waited: Option<u128>,
}

/// Whether an event is that this record is queued.
pub(crate) fn is_queue(told: &Told, id: u16) -> bool
    ensures { result ≡ is_queue id told.now.event }
{
    match told.event {
        Event::Call(CallEvent::Queue(queued, _, _, _, _)) => queued == id,
        _ => false,
    }
}

/// The first of these calls that is of this record and CPU.
fn find(id: u16, cpu: u32, calls: &[QueuedCall]) -> Option<FoundCall>
    ensures first { result ≡ found_from 0 id cpu calls.now }
    ensures within { IfSome result (λ f. f.place < length calls.now) }
{
    let mut place = 0;
    let mut rest = calls;
    while let [first, after @ ..] = rest {
        if first.id == id && first.to == cpu {
            return Some(FoundCall {
                place,
                call: *first,
            });
        }
        place += 1;
        rest = after;
    }
    None
}

/// The call that an event queues; none where it queues none.
#[tactic(auto, unfolding(crate::specs::Waits::queued))]
fn queued(told: &Told) -> Option<QueuedCall>
    ensures { result ≡ queued told.now }
{
    let Event::Call(CallEvent::Queue(id, to, _, func, _)) = told.event else {
        return None;
    };
    Some(QueuedCall {
        line: told.line,
        time: told.time,
        id,
        to,
        func,
    })
}

/// The call that an event begins, of these: the first of its record and CPU; none where it begins none.
#[tactic(auto, unfolding(crate::specs::Waits::begun))]
fn begun(told: &Told, left: &[QueuedCall]) -> Option<FoundCall>
    ensures first { result ≡ begun told.now left.now }
    ensures within { IfSome result (λ f. f.place < length left.now) }
{
    match told.event {
        Event::Call(CallEvent::Begin(id, _, _)) => find(id, told.cpu, left),
        _ => None,
    }
}

/// A call that is begun at this time, where it has waited for more than that.
#[tactic(auto, unfolding(crate::specs::Waits::late))]
fn late(slow: u64, time: u128, call: QueuedCall) -> Option<WaitingCall>
    ensures { result ≡ late slow time call }
{
    let waited = time.saturating_sub(call.time);
    if waited > slow as u128 {
        Some(WaitingCall {
            call,
            waited: Some(waited),
        })
    } else {
        None
    }
}

/// Keeps a call that is queued; nothing of none.
#[tactic(auto, unfolding(crate::specs::Waits::with_queued))]
fn keep_queued<A: Allocator>(
    left: &mut Vec<QueuedCall, A>,
    call: Option<QueuedCall>,
) -> Result<(), AllocError>
    ensures { OnOk result (left.new.items ≡ with_queued call left.old.items) }
{
    if let Some(call) = call {
        left.push(call)?;
    }
    Ok(())
}

/// Keeps the calls that are queued and not begun behind an event, and answers the call that it begins.
#[tactic(auto, unfolding(crate::specs::Waits::left_after))]
pub(crate) fn go_on<A: Allocator>(
    left: &mut Vec<QueuedCall, A>,
    told: &Told,
) -> Result<Option<FoundCall>, AllocError>
    ensures begun { IfOk result (λ f. f ≡ begun told.now left.old.items) }
    ensures left { OnOk result (left.new.items ≡ left_after told.now left.old.items) }
{
    if let Some(found) = begun(told, left.as_slice()) {
        left.remove(found.place);
        return Ok(Some(found));
    }
    keep_queued(left, queued(told))?;
    Ok(None)
}

/// Goes on so, and answers the call that the event begins, where that has waited for more than this time.
#[tactic(auto, unfolding(crate::specs::Waits::late_at))]
fn step<A: Allocator>(
    left: &mut Vec<QueuedCall, A>,
    slow: u64,
    told: &Told,
) -> Result<Option<WaitingCall>, AllocError>
    ensures late { IfOk result (λ c. c ≡ late_at slow told.now left.old.items) }
    ensures left { OnOk result (left.new.items ≡ left_after told.now left.old.items) }
{
    match go_on(left, told)? {
        Some(found) => Ok(late(slow, told.time, found.call)),
        None => Ok(None),
    }
}

/// Writes how long a call has waited.
#[tactic(auto, unfolding(crate::specs::Waits::waited_text))]
fn write_waited<A: Allocator + Copy>(
    alloc: A,
    out: &mut Vec<u8, A>,
    waited: Option<u128>,
) -> Result<(), AllocError>
    ensures { OnOk result (out.new.items ≡ out.old.items ++ waited_text waited) }
{
    match waited {
        Some(time) => {
            let front = format!(in alloc; "waited {time}: ")?;
            out.extend_from_slice(front.as_bytes())
        }
        None => out.extend_from_slice(b"not begun: "),
    }
}

/// Writes a call by its line, the address of its record and its function.
#[tactic(auto, unfolding(crate::specs::Waits::call_text))]
fn write_call<A: Allocator + Copy>(
    alloc: A,
    out: &mut Vec<u8, A>,
    names: &Names<'_>,
    call: &QueuedCall,
) -> Result<(), AllocError>
    ensures { OnOk result (out.new.items ≡ out.old.items ++ call_text (names_value names.now) call.now) }
{
    let line = call.line;
    let front = format!(in alloc; "line {line}: ")?;
    out.extend_from_slice(front.as_bytes())?;
    write_record(alloc, out, names, call.id, ", ")?;
    out.extend_from_slice(name_of(names.functions, call.func))?;
    out.push(b'\n')?;
    Ok(())
}

/// Writes a call that waits; nothing of none.
fn write_waiting<A: Allocator + Copy>(
    alloc: A,
    out: &mut Vec<u8, A>,
    names: &Names<'_>,
    waiting: Option<WaitingCall>,
) -> Result<(), AllocError>
    ensures { OnOk result (out.new.items ≡ out.old.items ++ waiting_text (names_value names.now) waiting) }
{
    let Some(WaitingCall { call, waited }) = waiting else {
        return Ok(());
    };
    write_waited(alloc, out, waited)?;
    write_call(alloc, out, names, &call)
}

/// Writes calls that are not begun.
fn write_left<A: Allocator + Copy>(
    alloc: A,
    out: &mut Vec<u8, A>,
    names: &Names<'_>,
    left: &[QueuedCall],
) -> Result<(), AllocError>
    ensures { OnOk result (out.new.items ≡ out.old.items ++ left_text (names_value names.now) left.now) }
{
    let mut rest = left;
    while let [call, after @ ..] = rest {
        let waiting = WaitingCall {
            call: *call,
            waited: None,
        };
        write_waiting(alloc, out, names, Some(waiting))?;
        rest = after;
    }
    Ok(())
}

/// Writes the calls of these events that waited for more than this time, as they are begun, and then those that are not begun.
pub(crate) fn write_waits<A: Allocator + Copy>(
    alloc: A,
    out: &mut Vec<u8, A>,
    names: &Names<'_>,
    slow: u64,
    told: &[Told],
) -> Result<(), AllocError>
    ensures { OnOk result (out.new.items ≡ out.old.items ++ waits_text (names_value names.now) slow told.now []) }
{
    let mut left = Vec::new(alloc);
    let mut rest = told;
    while let [first, after @ ..] = rest {
        let late = step(&mut left, slow, first)?;
        write_waiting(alloc, out, names, late)?;
        rest = after;
    }
    write_left(alloc, out, names, left.as_slice())
}
