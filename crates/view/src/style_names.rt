//! How commands and steps are drawn: the names of the styles, as the head of a picture has them.

use smp_core::{Act, Command, Note, Seen};
use trace_events::rows::What;

/// The style of a command's box.
pub fn box_style(command: Command) -> &'static str {
    match command {
        Command::Post(_, _, _, _, _, _) => "post",
        Command::Send(_) => "send",
        Command::Handle => "handle",
        Command::Done(_) | Command::Poll | Command::Key(_) | Command::Site(_) => "ask",
        Command::Nudge(_, _) => "nudge",
        _ => "stop",
    }
}

// Whether the note is an error.
fn is_error(note: Note) -> bool {
    match note {
        Note::Busy | Note::NoCpu | Note::Contended | Note::Stale | Note::KeyRange => true,
        _ => false,
    }
}

// Whether a function runs after the step.
fn is_run(note: Note) -> bool {
    match note {
        Note::Call(_, _, _) | Note::Run(_, _) => true,
        _ => false,
    }
}

// The dot of a step that no function follows and that is no error.
fn plain_dot(seen: Seen) -> &'static str {
    match (seen.act, seen.put) {
        (Act::Load, _) => "load",
        (Act::Store, _) => "store",
        (Act::Cas, None) => "lost",
        _ => "swap",
    }
}

// The dot of a step.
fn step_dot(seen: Seen) -> &'static str {
    match seen.note {
        Some(note) if is_error(note) => "error",
        Some(note) if is_run(note) => "run",
        _ => plain_dot(seen),
    }
}

/// The dot of an event: of a step, of one that was refused, or of the start of a command.
pub fn dot(what: What) -> Option<&'static str> {
    match what {
        What::Began => Some("start"),
        What::Stepped(seen) => Some(step_dot(seen)),
        What::Refused(_) => Some("error"),
        What::Shown => None,
    }
}

/// The name of a stop's phase.
pub fn phase_name(phase: u64) -> &'static str {
    match phase {
        1 => "PREPARE",
        2 => "DISABLE_IRQ",
        3 => "RUN",
        _ => "EXIT",
    }
}
