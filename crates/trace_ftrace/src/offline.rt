//! A CPU that goes offline, which the model has not.

ghost use Rattle.std.specs.Prelude.{◌≡◌, map};
ghost use Rattle.trace_ftrace.specs.Offline.{closes_offline, hidden_at, hidden_by, is_hidden, is_in_takedown, is_takedown, is_untold, shows_offline};

use crate::field::symbol;
use crate::sign::{Sign, is_symbol};
use crate::stop_sign::StopSign;
use smp_script::line::is_word;
use std::alloc::Allocator;
use trace_judge::Verdict;
use trace_model::Reason;

/// Whether a word is the place in the function that has taken a CPU down.
#[tactic(auto, unfolding(crate::specs::Offline::is_in_takedown))]
fn is_in_takedown(word: &[u8]) -> bool
    ensures { result ≡ is_in_takedown word.now }
{
    is_word(symbol(word), b"(takedown_cpu")
}

/// Whether fields begin with that place.
fn is_takedown(fields: &[&[u8]]) -> bool
    ensures { result ≡ is_takedown (map (λ f. f.now) fields.now) }
{
    match fields {
        [first, ..] => is_in_takedown(first),
        _ => false,
    }
}

/// Whether what a line shows of stops is that the one that took a CPU down has its answer.
fn closes_offline(sign: StopSign, fields: &[&[u8]]) -> bool
    ensures { result ≡ closes_offline sign (map (λ f. f.now) fields.now) }
{
    match sign {
        StopSign::Close(_) => is_takedown(fields),
        _ => false,
    }
}

/// Whether a line shows that a CPU has gone offline: the call by which it says so begins, or the stop that took it down has its
/// answer.
pub(crate) fn shows_offline(sign: Sign, fields: &[&[u8]]) -> bool
    ensures { result ≡ shows_offline sign (map (λ f. f.now) fields.now) }
{
    match sign {
        Sign::Begin(_) => is_symbol(b"func", b"cpuhp_complete_idle_dead", fields),
        Sign::Stop(sign) => closes_offline(sign, fields),
        _ => false,
    }
}

/// Whether a CPU that goes offline can cause this before a line shows it.
fn is_untold(why: Reason) -> bool
    ensures { result ≡ is_untold why }
{
    match why {
        Reason::RecordFree(_) => true,
        Reason::RecordQueued(_, _) => true,
        Reason::InterruptsOff => true,
        _ => false,
    }
}

/// Whether an event of this line that is refused is not judged, where another line shows that a CPU has gone offline.
fn is_hidden(offline: u32, line: u32, why: Reason) -> bool
    ensures { result ≡ is_hidden offline line why }
{
    offline <= line || is_untold(why)
}

/// The line that shows that a CPU has gone offline, where an event of this line that is refused is not judged for it.
fn hidden_at(offline: u32, line: u32, why: Reason) -> Option<u32>
    ensures { result ≡ hidden_at offline line why }
{
    if is_hidden(offline, line, why) {
        Some(offline)
    } else {
        None
    }
}

/// The line that shows that a CPU has gone offline, where a verdict is of an event that is not judged for it.
pub(crate) fn hidden_by<A: Allocator>(offline: Option<u32>, verdict: &Verdict<A>) -> Option<u32>
    ensures { result ≡ hidden_by offline verdict.now }
{
    let Some(offline) = offline else {
        return None;
    };
    match verdict {
        Verdict::Lawful(..) => None,
        Verdict::Broken(line, _, _, why) => hidden_at(offline, *line, *why),
    }
}
