//! Why an event is none, by the kernel's names.

ghost use Rattle.std.specs.Prelude.{◌≡◌, ◌++◌, [], map, slice_index_or, OnOk, IfOk, MatchOption};
ghost use Rattle.std.specs.Fmt.{decimal};
ghost use Rattle.trace_ftrace.specs.Names.{address_text, broken_line, call_front, call_word, csd_text, named_line, named_text, IsNamedText};
ghost use Rattle.trace_ftrace.specs.NamesView.{names_value};

use std::alloc::{AllocError, Allocator};
use trace_judge::text::write_broken;
use trace_model::{CallEvent, Event, Reason};

/// The addresses of the records and the names of the functions, by their numbers.
#[derive(Clone, Copy)]
pub struct Names<'a> {
    pub addresses: &'a [u64],
    pub functions: &'a [&'a [u8]],
}

/// Where an event is none, and why.
#[derive(Clone, Copy)]
pub(crate) struct BrokenEvent {
    pub(crate) line: u32,
    pub(crate) cpu: u32,
    pub(crate) event: Event,
    pub(crate) why: Reason,
}

/// What a reason says of a record or of a function.
#[derive(Clone, Copy)]
enum Named {
    /// The record is this.
    Plain(u16, &'static str),
    /// The record is this on a CPU.
    On(u16, &'static str, u32),
    /// The record's call is this.
    Call(u16, &'static str),
    /// The call is of this function.
    Function(u64),
}

/// The address of a record; 0 where it has none.
pub fn address_of(addresses: &[u64], id: u16) -> u64
    ensures { result ≡ slice_index_or addresses.now id 0 }
{
    if (id as usize) < addresses.len() {
        addresses[id as usize]
    } else {
        0
    }
}

/// The name of a function; empty where it has none.
pub fn name_of<'a>(functions: &[&'a [u8]], func: u64) -> &'a [u8]
    ensures { result.now ≡ slice_index_or (map (λ f. f.now) functions.now) func [] }
{
    if func < functions.len() as u64 {
        functions[func as usize]
    } else {
        b""
    }
}

/// What a reason says by numbers that stand for names; none where it says nothing by them.
fn names_in(why: Reason) -> Option<Named>
    ensures { IsNamedText result why }
{
    match why {
        Reason::RecordFree(id) => Some(Named::Plain(id, " is free")),
        Reason::RecordQueued(id, cpu) => Some(Named::On(id, " is queued for CPU ", cpu)),
        Reason::RecordInBatch(id, cpu) => Some(Named::On(id, " is in the batch of CPU ", cpu)),
        Reason::RecordRuns(id, cpu) => Some(Named::On(id, " runs on CPU ", cpu)),
        Reason::ComesFirst(id) => Some(Named::Plain(id, " comes first")),
        Reason::IsLocked(id) => Some(Named::Plain(id, " is locked")),
        Reason::NotBegun(id) => Some(Named::Call(id, " has not begun")),
        Reason::NotOver(id) => Some(Named::Call(id, " is not over")),
        Reason::CallIs(func, _) => Some(Named::Function(func)),
        _ => None,
    }
}

/// The name of an event of calls that a text tells.
fn call_word(event: Event) -> Option<&'static str>
    ensures { MatchOption result (call_word event ≡ None) (λ w. call_word event ≡ Some w.now) }
{
    match event {
        Event::Call(CallEvent::Queue(..)) => Some("queue"),
        Event::Call(CallEvent::Begin(..)) => Some("begin"),
        Event::Call(CallEvent::Free(_)) => Some("free"),
        Event::Call(CallEvent::Take) => Some("take"),
        Event::Call(CallEvent::End(_)) => Some("end"),
        _ => None,
    }
}

/// Writes the address of a record, and what is behind it.
#[tactic(auto, unfolding(crate::specs::Names::address_text))]
pub(crate) fn write_record<A: Allocator + Copy>(
    alloc: A,
    out: &mut Vec<u8, A>,
    names: &Names<'_>,
    id: u16,
    back: &'static str,
) -> Result<(), AllocError>
    ensures { OnOk result (out.new.items ≡ out.old.items ++ csd_text (names_value names.now) id ++ back.now) }
{
    let csd = address_of(names.addresses, id);
    let text = format!(in alloc; "csd {csd:x}{back}")?;
    out.extend_from_slice(text.as_bytes())
}

/// Writes the address of a record, and what is behind it with a CPU its end.
#[tactic(auto, unfolding(crate::specs::Names::address_text))]
fn write_record_on<A: Allocator + Copy>(
    alloc: A,
    out: &mut Vec<u8, A>,
    csd: u64,
    back: &'static str,
    cpu: u32,
) -> Result<(), AllocError>
    ensures { OnOk result (out.new.items ≡ out.old.items ++ address_text csd ++ back.now ++ decimal cpu) }
{
    let text = format!(in alloc; "csd {csd:x}{back}{cpu}")?;
    out.extend_from_slice(text.as_bytes())
}

/// Writes what is in front of a record whose call is named.
#[tactic(auto, unfolding(crate::specs::Names::call_front))]
fn write_call_front<A: Allocator>(out: &mut Vec<u8, A>) -> Result<(), AllocError>
    ensures { OnOk result (out.new.items ≡ out.old.items ++ call_front) }
{
    out.extend_from_slice(b"the call of ")
}

/// Writes what a reason says, by the kernel's names.
fn write_named<A: Allocator + Copy>(
    alloc: A,
    out: &mut Vec<u8, A>,
    names: &Names<'_>,
    what: Named,
) -> Result<(), AllocError>
    ensures { OnOk result (out.new.items ≡ out.old.items ++ named_text (names_value names.now) what) }
{
    match what {
        Named::Plain(id, back) => write_record(alloc, out, names, id, back),
        Named::On(id, back, cpu) => {
            let csd = address_of(names.addresses, id);
            write_record_on(alloc, out, csd, back, cpu)
        }
        Named::Call(id, back) => {
            write_call_front(out)?;
            write_record(alloc, out, names, id, back)
        }
        Named::Function(func) => {
            out.extend_from_slice(b"its call is ")?;
            out.extend_from_slice(name_of(names.functions, func))
        }
    }
}

/// The line of an event of calls with this name, which no run has for this reason.
#[tactic(auto, unfolding(crate::specs::Names::named_line))]
fn named_line<A: Allocator + Copy>(
    alloc: A,
    names: &Names<'_>,
    broken: &BrokenEvent,
    word: &'static str,
    what: Named,
) -> Result<Vec<u8, A>, AllocError>
    ensures { IfOk result (λ v. v.items ≡ named_line (names_value names.now) broken.now word.now what) }
{
    let BrokenEvent { line, cpu, .. } = *broken;
    let front = format!(in alloc; "line {line}: CPU {cpu} {word}: ")?;
    let mut out = Vec::new(alloc);
    out.extend_from_slice(front.as_bytes())?;
    write_named(alloc, &mut out, names, what)?;
    out.push(b'\n')?;
    Ok(out)
}

/// The line of an event that no run has, by the kernel's names where it is of calls.
#[tactic(auto, unfolding(crate::specs::Names::broken_line, crate::specs::Names::named_line))]
pub(crate) fn broken_line<A: Allocator + Copy>(
    alloc: A,
    names: &Names<'_>,
    broken: &BrokenEvent,
) -> Result<Vec<u8, A>, AllocError>
    ensures { IfOk result (λ v. v.items ≡ broken_line (names_value names.now) broken.now) }
{
    if let (Some(word), Some(what)) = (call_word(broken.event), names_in(broken.why)) {
        return named_line(alloc, names, broken, word, what);
    }
    let mut out = String::new(alloc);
    write_broken(&mut out, broken.line, broken.cpu, broken.event, broken.why)?;
    Ok(out.into_bytes())
}
