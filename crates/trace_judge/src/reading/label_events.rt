//! Events of keys and sites, as lines tell them.

ghost use Rattle.std.specs.Prelude.{◌≡◌};
ghost use Rattle.trace_judge.specs.Reading.{jump_of, key_of, nudge_of, set_of, site_of, turn_of};

use super::read_below;
use smp_mask::Cause;
use smp_script::decimal::read_from_to;
use smp_script::line::is_word;
use trace_model::{Event, LabelEvent};

/// `NOP` or `JMP`: whether it is a jump.
pub(super) fn read_jump(text: &[u8]) -> Result<bool, Cause>
    ensures { result ≡ jump_of text.now }
{
    if is_word(text, b"NOP") {
        return Ok(false);
    }
    if is_word(text, b"JMP") {
        return Ok(true);
    }
    Err(Cause::Word)
}

pub(super) fn read_set(keys: u32, key: &[u8], count: &[u8]) -> Result<Event, Cause>
    ensures { result ≡ set_of keys key.now count.now }
{
    let key = read_below(keys, key)?;
    let count = read_from_to(count, 0, 65_535)?;
    Ok(Event::Label(LabelEvent::Set(key, count as u64)))
}

pub(super) fn read_turn(sites: u32, site: &[u8], jumps: bool) -> Result<Event, Cause>
    ensures { result ≡ turn_of sites site.now jumps }
{
    let site = read_below(sites, site)?;
    Ok(Event::Label(LabelEvent::Turn(site, jumps)))
}

pub(super) fn read_site(sites: u32, site: &[u8], jumps: bool) -> Result<Event, Cause>
    ensures { result ≡ site_of sites site.now jumps }
{
    let site = read_below(sites, site)?;
    Ok(Event::Label(LabelEvent::Site(site, jumps)))
}

pub(super) fn read_key(keys: u32, key: &[u8], on: bool) -> Result<Event, Cause>
    ensures { result ≡ key_of keys key.now on }
{
    let key = read_below(keys, key)?;
    Ok(Event::Label(LabelEvent::Key(key, on)))
}

pub(super) fn read_nudge(keys: u32, key: &[u8], up: bool) -> Result<Event, Cause>
    ensures { result ≡ nudge_of keys key.now up }
{
    let key = read_below(keys, key)?;
    Ok(Event::Label(LabelEvent::Nudge(key, up)))
}
