//! The fields of an event, by their names.

ghost use Rattle.std.specs.Prelude.{◌≡◌, ◌<◌, map, MatchOption, MatchResult, IfOk};
ghost use Rattle.trace_ftrace.specs.Fields.{address_of, cpu_below, field_of, low_cpu, needed_address, needed_cpu, needed_low_cpu, needed_symbol};
ghost use Rattle.trace_ftrace.specs.Fields.{past_prefix, symbol_of, value_of, without_comma};

use crate::number::number;
use crate::words::{front, two_parts};
use crate::wrong::Wrong;
use smp_script::line::is_word;

/// A value without the comma behind it.
fn without_comma(value: &[u8]) -> &[u8]
    ensures { result.now ≡ without_comma value.now }
{
    match front(value, b',') {
        Some(text) => text,
        None => value,
    }
}

/// The value in a word, where that is the field of this name.
#[tactic(auto, unfolding(crate::specs::Fields::value_of))]
fn value_of<'a>(name: &[u8], word: &'a [u8]) -> Option<&'a [u8]>
    ensures { let found = value_of name.now word.now in MatchOption result (found ≡ None) (λ v. found ≡ Some v.now) }
{
    match two_parts(word, b'=') {
        Some((found, value)) => {
            if is_word(found, name) {
                Some(without_comma(value))
            } else {
                None
            }
        }
        None => None,
    }
}

/// The value of the first field of this name.
pub(crate) fn field<'a>(name: &[u8], fields: &[&'a [u8]]) -> Option<&'a [u8]>
    ensures { let found = field_of name.now (map (λ f. f.now) fields.now) in MatchOption result (found ≡ None) (λ v. found ≡ Some v.now) }
{
    let mut rest = fields;
    while let [word, after @ ..] = rest {
        if let Some(value) = value_of(name, word) {
            return Some(value);
        }
        rest = after;
    }
    None
}

/// What is behind `0x` at the front of a text.
fn past_prefix(text: &[u8]) -> &[u8]
    ensures { result.now ≡ past_prefix text.now }
{
    match text {
        [b'0', b'x', digits @ ..] => digits,
        _ => text,
    }
}

/// An address, or another number in hexadecimal.
#[tactic(auto, unfolding(crate::specs::Fields::address_of))]
pub(crate) fn address(text: &[u8]) -> Option<u64>
    ensures { result ≡ address_of text.now }
{
    if is_word(text, b"(nil)") || is_word(text, b"(null)") {
        return Some(0);
    }
    number(16, past_prefix(text))
}

/// The name of a function, without an offset behind it.
#[tactic(auto, unfolding(crate::specs::Fields::symbol_of))]
pub(crate) fn symbol(text: &[u8]) -> &[u8]
    ensures { result.now ≡ symbol_of text.now }
{
    match two_parts(text, b'+') {
        Some((name, _)) => name,
        None => text,
    }
}

/// The address in the field of this name.
#[tactic(auto, unfolding(crate::specs::Fields::needed_address))]
pub(crate) fn needed_address(name: &[u8], fields: &[&[u8]]) -> Result<u64, Wrong>
    ensures { result ≡ needed_address name.now (map (λ f. f.now) fields.now) }
{
    let Some(text) = field(name, fields) else {
        return Err(Wrong::Field);
    };
    match address(text) {
        Some(number) => Ok(number),
        None => Err(Wrong::Field),
    }
}

/// A CPU that there can be.
pub(crate) fn cpu_below(cpu: u64) -> Result<u32, Wrong>
    ensures { result ≡ cpu_below cpu }
{
    if cpu < 512 {
        Ok(cpu as u32)
    } else {
        Err(Wrong::Cpu)
    }
}

/// The CPU in the field of this name.
#[tactic(auto, unfolding(crate::specs::Fields::needed_cpu))]
pub(crate) fn needed_cpu(name: &[u8], fields: &[&[u8]]) -> Result<u32, Wrong>
    ensures { result ≡ needed_cpu name.now (map (λ f. f.now) fields.now) }
{
    let Some(text) = field(name, fields) else {
        return Err(Wrong::Field);
    };
    match number(10, text) {
        Some(cpu) => cpu_below(cpu),
        None => Err(Wrong::Field),
    }
}

/// A CPU that stops can have.
pub(crate) fn low_cpu(cpu: u32) -> Result<u32, Wrong>
    ensures { result ≡ low_cpu cpu }
{
    if cpu < 32 { Ok(cpu) } else { Err(Wrong::Cpu) }
}

/// The CPU of a stop, in the field of this name.
#[tactic(auto, unfolding(crate::specs::Fields::needed_low_cpu))]
pub(crate) fn needed_low_cpu(name: &[u8], fields: &[&[u8]]) -> Result<u32, Wrong>
    ensures { result ≡ needed_low_cpu name.now (map (λ f. f.now) fields.now) }
{
    let cpu = needed_cpu(name, fields)?;
    low_cpu(cpu)
}

/// The function in the field `func`.
#[tactic(auto, unfolding(crate::specs::Fields::needed_symbol))]
pub(crate) fn needed_symbol<'a>(fields: &[&'a [u8]]) -> Result<&'a [u8], Wrong>
    ensures { let needed = needed_symbol (map (λ f. f.now) fields.now) in
        MatchResult result (λ s. needed ≡ Ok s.now) (λ e. needed ≡ Err e) }
{
    match field(b"func", fields) {
        Some(text) => Ok(symbol(text)),
        None => Err(Wrong::Field),
    }
}
