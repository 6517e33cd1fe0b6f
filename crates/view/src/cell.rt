//! What is in the column of a CPU.

ghost use Rattle.std.specs.Prelude.{◌≡◌, ◌++◌, IfOk, OnOk, string_bytes};
ghost use Rattle.view.specs.Cells.{cell_of, error_text, meaning_of, refused_text, step_cell};

use smp_core::{Note, Seen};
use smp_mask::SmpError;
use smp_replay::text::write_step;
use smp_script::errors::number_of;
use std::alloc::{AllocError, Allocator};
use trace_events::rows::What;

/// What an error means, where it refuses an event or is part of a note.
pub fn error_text(error: SmpError) -> &'static str
    ensures { result.now ≡ error_text error }
{
    match error {
        SmpError::NoCpu => "no such CPU, or it is not online",
        SmpError::Busy => "busy",
        SmpError::NoStopper => "a CPU of the stop is not online",
        SmpError::BadArgument => "an argument that is not taken here",
        SmpError::Contended => "the tries are used up",
        SmpError::NoMemory => "no memory",
        SmpError::Stale => "this CPU may not enter that slot now",
        SmpError::SlotBusy => "the own stop is not collected yet",
        SmpError::BadScript { .. } => "the script is not lawful",
        SmpError::IdleStep => "the CPU is inside no command",
        SmpError::BadMask { .. } => "no CPU list",
        SmpError::StreamFailed(_) => "a device failed",
        SmpError::KeyRange(_) => "the key's count stands at an end of its range",
    }
}

// What a note that is an error means.
fn meaning_of(note: Option<Note>) -> &'static str
    ensures { result.now ≡ meaning_of note }
{
    match note {
        Some(Note::NoCpu) => " (no such CPU, or it is not online)",
        Some(Note::Busy) => " (busy: the record is locked)",
        Some(Note::Contended) => " (the tries are used up)",
        Some(Note::Stale) => " (this CPU may not enter that slot now)",
        Some(Note::KeyRange) => " (the key's count stands at an end of its range)",
        _ => "",
    }
}

// A step, and what its note means where it is an error.
fn write_seen<A: Allocator>(out: &mut String<A>, seen: Seen) -> Result<(), AllocError>
    ensures { OnOk result (string_bytes out.new ≡ string_bytes out.old ++ step_cell seen) }
{
    write_step(out, seen)?;
    out.push_str(meaning_of(seen.note))
}

// A refused event.
fn write_refused<A: Allocator>(out: &mut String<A>, error: SmpError) -> Result<(), AllocError>
    ensures { OnOk result (string_bytes out.new ≡ string_bytes out.old ++ refused_text error) }
{
    let number = number_of(error);
    let meaning = error_text(error);
    write!(out, "refused: E{number}, {meaning}")
}

// What is in the column of its CPU.
fn write_cell<A: Allocator>(out: &mut String<A>, what: What) -> Result<(), AllocError>
    ensures { OnOk result (string_bytes out.new ≡ string_bytes out.old ++ cell_of what) }
{
    match what {
        What::Began => write!(out, "starts"),
        What::Stepped(seen) => write_seen(out, seen),
        What::Refused(error) => write_refused(out, error),
        What::Shown => write!(out, ""),
    }
}

/// What is in the column of its CPU.
pub fn cell<A: Allocator>(alloc: A, what: What) -> Result<String<A>, AllocError>
    ensures { IfOk result (λ text. string_bytes text ≡ cell_of what) }
{
    let mut text = String::new(alloc);
    write_cell(&mut text, what)?;
    Ok(text)
}
