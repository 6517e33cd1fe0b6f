//! Why an event is none, in words.

ghost use Rattle.std.specs.Prelude.{◌≡◌, ◌++◌, OnOk, string_bytes};
ghost use Rattle.trace_judge.specs.Phrases.{phrase_text};
ghost use Rattle.trace_judge.specs.Text.{reason_text};

use smp_script::spelling::{kind_name, site_name, switch_name};
use std::alloc::{AllocError, Allocator};
use trace_model::Reason;

/// A phrase with at most two numbers in it.
#[derive(Clone, Copy)]
pub(crate) enum Phrase {
    Plain(&'static str),
    /// A number is its end.
    Last(&'static str, u64),
    /// A number, and what is behind it.
    One(&'static str, u64, &'static str),
    /// Two numbers, the second its end.
    Two(&'static str, u64, &'static str, u64),
    /// A number, and a name its end.
    Named(&'static str, u64, &'static str, &'static str),
    /// A number with a sign is its end.
    Signed(&'static str, i32),
}

/// Why an event is none.
pub(crate) fn phrase_of(why: Reason) -> Phrase
    ensures { phrase_text result ≡ reason_text why }
{
    match why {
        Reason::RecordFree(id) => Phrase::One("record ", id as u64, " is free"),
        Reason::RecordQueued(id, cpu) => {
            Phrase::Two("record ", id as u64, " is queued for CPU ", cpu as u64)
        }
        Reason::RecordInBatch(id, cpu) => {
            Phrase::Two("record ", id as u64, " is in the batch of CPU ", cpu as u64)
        }
        Reason::RecordRuns(id, cpu) => {
            Phrase::Two("record ", id as u64, " runs on CPU ", cpu as u64)
        }
        Reason::NotOnline(cpu) => Phrase::One("CPU ", cpu as u64, " is not online"),
        Reason::IsCaller(cpu) => Phrase::One("CPU ", cpu as u64, " is the caller"),
        Reason::ComesFirst(id) => Phrase::One("record ", id as u64, " comes first"),
        Reason::IsLocked(id) => Phrase::One("record ", id as u64, " is locked"),
        Reason::NotBegun(id) => Phrase::One("the call of record ", id as u64, " has not begun"),
        Reason::NotOver(id) => Phrase::One("the call of record ", id as u64, " is not over"),
        Reason::NoCallRuns => Phrase::Plain("no call runs"),
        Reason::CallIs(func, info) => Phrase::Two("its call is ", func, " ", info),
        Reason::NoInterruptPending => Phrase::Plain("no interrupt is pending"),
        Reason::InterruptPending => Phrase::Plain("an interrupt is pending"),
        Reason::NoInterruptAccepted => Phrase::Plain("no interrupt is accepted"),
        Reason::InterruptAccepted => Phrase::Plain("an interrupt is accepted"),
        Reason::InterruptsOff => Phrase::Plain("interrupts are off"),
        Reason::InterruptsOn => Phrase::Plain("interrupts are on"),
        Reason::GateOf(cpu) => Phrase::Last("the gate is of CPU ", cpu as u64),
        Reason::GateOfNone => Phrase::Plain("the gate is of no CPU"),
        Reason::NoSuchWork => Phrase::Plain("there is no such work"),
        Reason::StopOpen(source) => Phrase::One("stop ", source as u64, " is open"),
        Reason::StopNotOpen(source) => Phrase::One("stop ", source as u64, " is not open"),
        Reason::IsInStop(cpu, source) => {
            Phrase::Two("CPU ", cpu as u64, " is in stop ", source as u64)
        }
        Reason::NotCalled(cpu) => Phrase::One("CPU ", cpu as u64, " is not called"),
        Reason::InNoStop(cpu) => Phrase::One("CPU ", cpu as u64, " is in no stop"),
        Reason::StopIsOf(source, kind) => {
            Phrase::Named("stop ", source as u64, " is of kind ", kind_name(kind))
        }
        Reason::NotAcknowledged(cpu, phase) => {
            Phrase::Two("CPU ", cpu as u64, " has not acknowledged ", phase as u64)
        }
        Reason::Acknowledged(cpu, phase) => {
            Phrase::Two("CPU ", cpu as u64, " has acknowledged ", phase as u64)
        }
        Reason::PhaseIs(phase) => Phrase::Last("the phase is ", phase as u64),
        Reason::AcknowledgedLast(cpu) => Phrase::One("CPU ", cpu as u64, " acknowledged last"),
        Reason::NotActive(cpu) => Phrase::One("CPU ", cpu as u64, " is not active"),
        Reason::FunctionHasRun => Phrase::Plain("the function has run"),
        Reason::FunctionHasNotRun => Phrase::Plain("the function has not run"),
        Reason::AnswerIs(answer) => Phrase::Signed("its answer is ", answer),
        Reason::NotCompleted(cpu) => Phrase::One("CPU ", cpu as u64, " has not completed"),
        Reason::AnswersDoNotGive(answer) => Phrase::Signed("the answers do not give ", answer),
        Reason::KeyToBe(key, count) => Phrase::Two("key ", key as u64, " is to be ", count),
        Reason::SiteToBe(site, jumps) => {
            Phrase::Named("site ", site as u64, " is to be ", site_name(jumps))
        }
        Reason::PatchOver => Phrase::Plain("the patch is over"),
        Reason::KeyIs(key, on) => Phrase::Named("key ", key as u64, " is ", switch_name(on)),
        Reason::SiteIs(site, jumps) => {
            Phrase::Named("site ", site as u64, " is ", site_name(jumps))
        }
        Reason::CountIs(key, count) => {
            Phrase::Two("the count of key ", key as u64, " is ", count)
        }
    }
}

/// Writes a phrase.
pub(crate) fn write_phrase<A: Allocator>(
    out: &mut String<A>,
    phrase: Phrase,
) -> Result<(), AllocError>
    ensures { OnOk result (string_bytes out.new ≡ string_bytes out.old ++ phrase_text phrase) }
{
    match phrase {
        Phrase::Plain(text) => write!(out, "{text}"),
        Phrase::Last(front, n) => write!(out, "{front}{n}"),
        Phrase::One(front, n, back) => write!(out, "{front}{n}{back}"),
        Phrase::Two(front, n, middle, m) => write!(out, "{front}{n}{middle}{m}"),
        Phrase::Named(front, n, middle, name) => write!(out, "{front}{n}{middle}{name}"),
        Phrase::Signed(front, n) => write!(out, "{front}{n}"),
    }
}
