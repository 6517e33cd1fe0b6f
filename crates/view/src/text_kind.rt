//! The kinds of texts, which their first lines tell.

ghost use Rattle.std.specs.Prelude.{◌≡◌};
ghost use Rattle.view.specs.Kinds.{kind_named, kind_of, kind_text, trimmed};

use smp_script::line::{is_word, next_line, split_part};

/// The kind of a text.
#[derive(Clone, Copy, PartialEq, Eq)]
pub enum TextKind {
    Replay,
    Run,
    Exploration,
    Trace,
}

impl TextKind {
    pub const ALL: [TextKind; 4] = [
        TextKind::Replay,
        TextKind::Run,
        TextKind::Exploration,
        TextKind::Trace,
    ];

    /// Its word in the first line.
    pub fn word(self) -> &'static str
        ensures { result.now ≡ kind_text self }
    {
        match self {
            TextKind::Replay => "replay",
            TextKind::Run => "run",
            TextKind::Exploration => "explore",
            TextKind::Trace => "trace",
        }
    }

    /// Its name, as a text is spoken of.
    pub fn name(self) -> &'static str {
        match self {
            TextKind::Replay => "a replay",
            TextKind::Run => "a run",
            TextKind::Exploration => "an exploration",
            TextKind::Trace => "a trace",
        }
    }

    /// The commands that take such a text.
    pub fn takers(self) -> &'static str {
        match self {
            TextKind::Replay =>
                "smp_runner replay, smp lanes, smp svg, smp json, smp events and smp check take it",
            TextKind::Run => "smp_runner run takes it",
            TextKind::Exploration => "smp explore, smp sample, smp outcomes and smp script take it",
            TextKind::Trace => "smp judge takes it",
        }
    }
}

// A word without the carriage return behind it, if there is one.
fn trimmed(word: &[u8]) -> &[u8]
    ensures { result.now ≡ trimmed word.now }
{
    match word {
        [front @ .., b'\r'] => front,
        _ => word,
    }
}

// The kind of this word.
fn kind_named(word: &[u8]) -> Option<TextKind>
    ensures { result ≡ kind_named word.now }
{
    if is_word(word, TextKind::Replay.word().as_bytes()) {
        Some(TextKind::Replay)
    } else if is_word(word, TextKind::Run.word().as_bytes()) {
        Some(TextKind::Run)
    } else if is_word(word, TextKind::Exploration.word().as_bytes()) {
        Some(TextKind::Exploration)
    } else if is_word(word, TextKind::Trace.word().as_bytes()) {
        Some(TextKind::Trace)
    } else {
        None
    }
}

/// The kind that the first line of a text names, whatever its version is; none where it names no kind.
#[tactic(auto, using(crate::proofs::Titles::other_word, crate::proofs::Titles::too_many))]
pub fn kind_of(text: &[u8]) -> Option<TextKind>
    ensures { result ≡ kind_of text.now }
{
    let title = next_line(text)?.text;
    let (smp, rest) = split_part(title, b' ')?;
    let (_, kind) = split_part(rest, b' ')?;
    if !is_word(smp, b"smp") {
        return None;
    }
    match split_part(kind, b' ') {
        // a field too many
        Some(_) => None,
        None => kind_named(trimmed(kind)),
    }
}
