//! What a picture says of a kernel's event, by the kernel's names.

ghost use Rattle.std.specs.Prelude.{◌≡◌, ◌≤◌, ◌<◌, ◌++◌, IfOk, OnOk, string_bytes};
ghost use Rattle.trace_ftrace.specs.Names.{csd_text, function_text};
ghost use Rattle.trace_ftrace.specs.NamesView.{names_value};
ghost use Rattle.trace_page.specs.Escapes.{byte_text, escaped};
ghost use Rattle.trace_page.specs.Titles.{call_text, event_text, label_of, time_text, title_of};

use crate::escape::is_plain;
use std::alloc::{AllocError, Allocator};
use trace_events::text::write_numbered;
use trace_ftrace::names::{Names, address_of, name_of};
use trace_ftrace::told::Told;
use trace_model::{CallEvent, Event};

/// Writes a byte of a name.
#[tactic(auto, using(std::proofs::lemmas::Str::encode_ascii))]
fn write_byte<A: Allocator>(out: &mut String<A>, byte: u8) -> Result<(), AllocError>
    ensures { OnOk result (string_bytes out.new ≡ string_bytes out.old ++ byte_text byte) }
{
    if is_plain(byte) {
        return out.push(byte as char);
    }
    out.push('\\')?;
    out.push((48 + byte / 100) as char)?;
    out.push((48 + byte / 10 % 10) as char)?;
    out.push((48 + byte % 10) as char)
}

/// Writes a name.
fn write_name<A: Allocator>(out: &mut String<A>, name: &[u8]) -> Result<(), AllocError>
    ensures { OnOk result (string_bytes out.new ≡ string_bytes out.old ++ escaped name.now) }
{
    for byte in name {
        write_byte(out, *byte)?;
    }
    Ok(())
}

/// Writes a time in microseconds.
#[tactic(auto, unfolding(crate::specs::Titles::time_text))]
pub(crate) fn write_time<A: Allocator>(out: &mut String<A>, time: u128) -> Result<(), AllocError>
    ensures { OnOk result (string_bytes out.new ≡ string_bytes out.old ++ time_text time) }
{
    let micros = time / 1000;
    let (tenths, hundredths, thousandths) = (time / 100 % 10, time / 10 % 10, time % 10);
    write!(out, "{micros}.{tenths}{hundredths}{thousandths}")
}

/// Writes a record by its address.
#[tactic(auto, unfolding(trace_ftrace::specs::Names::address_text))]
fn write_csd<A: Allocator>(
    out: &mut String<A>,
    names: &Names<'_>,
    id: u16,
) -> Result<(), AllocError>
    ensures { OnOk result (string_bytes out.new ≡ string_bytes out.old ++ csd_text (names_value names.now) id) }
{
    let csd = address_of(names.addresses, id);
    write!(out, "csd {csd:x}")
}

/// Writes an event of calls.
fn write_call<A: Allocator>(
    out: &mut String<A>,
    names: &Names<'_>,
    event: CallEvent,
) -> Result<(), AllocError>
    ensures { OnOk result (string_bytes out.new ≡ string_bytes out.old ++ call_text (names_value names.now) event) }
{
    match event {
        CallEvent::Queue(id, to, _, func, _) => {
            out.push_str("queue ")?;
            write_name(out, name_of(names.functions, func))?;
            write!(out, " for CPU {to}, ")?;
            write_csd(out, names, id)
        }
        CallEvent::Begin(id, func, _) => {
            out.push_str("begin ")?;
            write_name(out, name_of(names.functions, func))?;
            out.push_str(", ")?;
            write_csd(out, names, id)
        }
        CallEvent::End(id) => {
            out.push_str("end, ")?;
            write_csd(out, names, id)
        }
        _ => write_numbered(out, Event::Call(event)),
    }
}

/// Writes an event.
fn write_told<A: Allocator>(
    out: &mut String<A>,
    names: &Names<'_>,
    event: Event,
) -> Result<(), AllocError>
    ensures { OnOk result (string_bytes out.new ≡ string_bytes out.old ++ event_text (names_value names.now) event) }
{
    match event {
        Event::Call(call) => write_call(out, names, call),
        _ => write_numbered(out, event),
    }
}

/// The line that tells an event, its time in microseconds, its CPU, and what it is.
#[tactic(auto, unfolding(crate::specs::Titles::title_of))]
pub(crate) fn title<A: Allocator + Copy>(
    alloc: A,
    names: &Names<'_>,
    told: &Told,
) -> Result<String<A>, AllocError>
    ensures { IfOk result (λ s. string_bytes s ≡ title_of (names_value names.now) told.now) }
{
    let (line, cpu) = (told.line, told.cpu);
    let mut out = String::new(alloc);
    write!(out, "line {line}, ")?;
    write_time(&mut out, told.time)?;
    write!(out, ": CPU {cpu} ")?;
    write_told(&mut out, names, told.event)?;
    Ok(out)
}

/// The front of the name of an event's function that finds room in such a width; nothing of an event that has none.
#[tactic(auto, unfolding(crate::specs::Titles::label_of))]
pub(crate) fn label<A: Allocator + Copy>(
    alloc: A,
    names: &Names<'_>,
    told: &Told,
    room: usize,
) -> Result<String<A>, AllocError>
    ensures { IfOk result (λ s. string_bytes s ≡ label_of (names_value names.now) told.now.event room) }
{
    let mut out = String::new(alloc);
    if let Event::Call(CallEvent::Begin(_, func, _)) = told.event {
        let name = name_of(names.functions, func);
        write_name(&mut out, &name[..name.len().min(room)])?;
    }
    Ok(out)
}
