//! The lines of a replay's output.

ghost use Rattle.std.specs.Prelude.{◌≡◌, ◌++◌, OnOk, string_bytes};
ghost use Rattle.smp_replay.specs.Text.{act_text, after_step, cas_text, list_text, seen_text, step_text, stopped_text, value_text};
ghost use Rattle.smp_script.specs.Printed.{field_text, note_text, word_text};

use smp_core::{Act, Field, Note, Seen, Word};
use smp_mask::SmpError;
use smp_script::errors::number_of;
use std::alloc::{AllocError, Allocator};

// The name of a word.
fn write_word<A: Allocator>(out: &mut String<A>, word: Word) -> Result<(), AllocError>
    ensures { OnOk result (string_bytes out.new ≡ string_bytes out.old ++ word_text word) }
{
    match word {
        Word::Head(cpu) => write!(out, "head.{cpu}"),
        Word::Intr(cpu) => write!(out, "intr.{cpu}"),
        Word::Hand(cpu) => write!(out, "hand.{cpu}"),
        Word::Queued(from, to) => write!(out, "queued.{from}.{to}"),
        Word::Ran(by, from) => write!(out, "ran.{by}.{from}"),
        Word::Flags(id) => write!(out, "flags.{id}"),
        Word::Func(id) => write!(out, "func.{id}"),
        Word::Info(id) => write!(out, "info.{id}"),
        Word::Next(id) => write!(out, "next.{id}"),
        Word::Gate => write!(out, "gate"),
        Word::Slot(slot, field) => {
            let name = field_name(field);
            write!(out, "slot.{slot}.{name}")
        }
        Word::Key(key) => write!(out, "key.{key}"),
        Word::Entry(site) => write!(out, "entry.{site}"),
        Word::Site(site) => write!(out, "site.{site}"),
    }
}

fn field_name(field: Field) -> &'static str
    ensures { result.now ≡ field_text field }
{
    match field {
        Field::Kind => "kind",
        Field::Mask => "mask",
        Field::Active => "active",
        Field::Func => "func",
        Field::Arg => "arg",
        Field::State => "state",
        Field::Ack => "ack",
        Field::Roll => "roll",
        Field::Todo => "todo",
        Field::Result => "result",
        Field::Done => "done",
    }
}

fn act_name(act: Act) -> &'static str
    ensures { result.now ≡ act_text act }
{
    match act {
        Act::Load => "load",
        Act::Store => "store",
        Act::Swap => "swap",
        Act::Sub => "sub",
        Act::And => "and",
        Act::Cas => "cas",
    }
}

// A compare-exchange puts a number where it won.
fn write_cas<A: Allocator>(
    out: &mut String<A>,
    found: u64,
    put: Option<u64>,
) -> Result<(), AllocError>
    ensures { OnOk result (string_bytes out.new ≡ string_bytes out.old ++ cas_text found put) }
{
    match put {
        Some(put) => write!(out, "{found} > {put}"),
        None => write!(out, "{found} kept"),
    }
}

// The number put, for a store; the number found, for all else.
fn write_value<A: Allocator>(
    out: &mut String<A>,
    act: Act,
    found: Option<u64>,
    put: Option<u64>,
) -> Result<(), AllocError>
    ensures { OnOk result (string_bytes out.new ≡ string_bytes out.old ++ value_text act found put) }
{
    let found = found.unwrap_or(0);
    match act {
        Act::Cas => write_cas(out, found, put),
        Act::Store => {
            let put = put.unwrap_or(0);
            write!(out, "{put}")
        }
        Act::Load | Act::Swap | Act::Sub | Act::And => write!(out, "{found}"),
    }
}

fn write_note<A: Allocator>(out: &mut String<A>, note: Note) -> Result<(), AllocError>
    ensures { OnOk result (string_bytes out.new ≡ string_bytes out.old ++ note_text note) }
{
    match note {
        Note::Busy => write!(out, "E2"),
        Note::NoCpu => write!(out, "E1"),
        Note::Owed => write!(out, "owed"),
        Note::Queued => write!(out, "queued"),
        Note::Contended => write!(out, "E5"),
        Note::Sent => write!(out, "sent"),
        Note::Done => write!(out, "done"),
        Note::Locked => write!(out, "locked"),
        Note::Idle => write!(out, "idle"),
        Note::Call(source, func, info) => write!(out, "call {source} {func} {info}"),
        Note::Handled(count) => write!(out, "handled {count}"),
        Note::Gate => write!(out, "gate"),
        Note::Taken => write!(out, "taken"),
        Note::Open => write!(out, "open"),
        Note::Begun => write!(out, "begun"),
        Note::Stale => write!(out, "E7"),
        Note::Entered => write!(out, "entered"),
        Note::Same => write!(out, "same"),
        Note::Moved(phase) => write!(out, "moved {phase}"),
        Note::Run(func, arg) => write!(out, "run {func} {arg}"),
        Note::Ran => write!(out, "ran"),
        Note::Left => write!(out, "left"),
        Note::Finished => write!(out, "finished"),
        Note::Pending => write!(out, "pending"),
        Note::Result(result) => write!(out, "result {result}"),
        Note::On => write!(out, "on"),
        Note::Off => write!(out, "off"),
        Note::Nop => write!(out, "NOP"),
        Note::Jmp => write!(out, "JMP"),
        Note::KeyRange => write!(out, "E13"),
        Note::Stop => write!(out, "stop"),
        Note::Lost => write!(out, "lost"),
    }
}

// A note comes behind a semicolon.
fn write_after<A: Allocator>(out: &mut String<A>, note: Option<Note>) -> Result<(), AllocError>
    ensures { OnOk result (string_bytes out.new ≡ string_bytes out.old ++ after_step note) }
{
    let Some(note) = note else {
        return write!(out, "");
    };
    write!(out, " ; ")?;
    write_note(out, note)
}

/// A step without its CPU: ACT WORD VALUE, and its note.
pub fn write_step<A: Allocator>(out: &mut String<A>, seen: Seen) -> Result<(), AllocError>
    ensures { OnOk result (string_bytes out.new ≡ string_bytes out.old ++ step_text seen) }
{
    let act = act_name(seen.act);
    write!(out, "{act} ")?;
    write_word(out, seen.word)?;
    write!(out, " ")?;
    write_value(out, seen.act, seen.found, seen.put)?;
    write_after(out, seen.note)
}

/// The line of a step: CPU ACT WORD VALUE, and its note.
pub fn write_seen<A: Allocator>(out: &mut String<A>, seen: Seen) -> Result<(), AllocError>
    ensures { OnOk result (string_bytes out.new ≡ string_bytes out.old ++ seen_text seen) }
{
    let cpu = seen.cpu;
    write!(out, "{cpu} ")?;
    write_step(out, seen)?;
    writeln!(out, "")
}

/// The line of a refused event, by its position and why it was refused.
pub fn write_stopped<A: Allocator>(
    out: &mut String<A>,
    position: u32,
    error: SmpError,
) -> Result<(), AllocError>
    ensures { OnOk result (string_bytes out.new ≡ string_bytes out.old ++ stopped_text position error) }
{
    let number = number_of(error);
    writeln!(out, "stopped {position} E{number}")
}

/// Numbers, each behind a space.
pub fn write_list<A: Allocator>(out: &mut String<A>, numbers: &[u32]) -> Result<(), AllocError>
    ensures { OnOk result (string_bytes out.new ≡ string_bytes out.old ++ list_text numbers.now) }
{
    for number in numbers {
        write!(out, " {number}")?;
    }
    Ok(())
}
