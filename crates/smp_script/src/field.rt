//! Fields that are no numbers.

ghost use Rattle.std.specs.Prelude.{◌≡◌, ◌<◌, ◌^◌, length};
ghost use Rattle.smp_script.specs.Fields.{class_of, stays_below, kind_of, mask_of, way_of};
ghost use Rattle.smp_script.specs.Requests.{active_of, member_of, switch_of, wait_of, which_of};

use crate::decimal::read_u32;
use crate::line::is_word;
use crate::request::Which;
use smp_mask::{Cause, CpuMask};
use smp_words::{Class, Kind};

/// `sync` or `async`.
pub fn read_class(text: &[u8]) -> Result<Class, Cause>
    ensures { result ≡ class_of text.now }
{
    if is_word(text, b"sync") {
        return Ok(Class::Sync);
    }
    if is_word(text, b"async") {
        return Ok(Class::Async);
    }
    Err(Cause::Word)
}

/// `one`, `multi` or `patch`.
pub fn read_kind(text: &[u8]) -> Result<Kind, Cause>
    ensures { result ≡ kind_of text.now }
{
    if is_word(text, b"one") {
        return Ok(Kind::One);
    }
    if is_word(text, b"multi") {
        return Ok(Kind::Multi);
    }
    if is_word(text, b"patch") {
        return Ok(Kind::Patch);
    }
    Err(Cause::Word)
}

/// `up` or `down`: whether it is `up`.
pub fn read_way(text: &[u8]) -> Result<bool, Cause>
    ensures { result ≡ way_of text.now }
{
    if is_word(text, b"up") {
        return Ok(true);
    }
    if is_word(text, b"down") {
        return Ok(false);
    }
    Err(Cause::Word)
}

/// Whether all CPUs of a mask are below `limit`.
pub fn stays_below(limit: u32, mask: CpuMask) -> bool
    ensures { result ≡ stays_below limit mask }
{
    mask.iter().all(|cpu| cpu < limit)
}

/// A CPU list of CPUs below `limit`, where `-` is the empty mask.
pub fn read_mask(limit: u32, text: &[u8]) -> Result<CpuMask, Cause>
    requires { length text.now < 2 ^ 32 }
    ensures { result ≡ mask_of limit text.now }
{
    if is_word(text, b"-") {
        return Ok(CpuMask::empty());
    }
    match CpuMask::parse(text) {
        Ok(mask) if stays_below(limit, mask) => Ok(mask),
        _ => Err(Cause::Mask),
    }
}

/// `wait` or `nowait`: whether it is `wait`.
pub fn read_wait(text: &[u8]) -> Result<bool, Cause>
    ensures { result ≡ wait_of text.now }
{
    if is_word(text, b"wait") {
        return Ok(true);
    }
    if is_word(text, b"nowait") {
        return Ok(false);
    }
    Err(Cause::Word)
}

/// `all`, `even` or `odd`
pub fn read_which(text: &[u8]) -> Result<Which, Cause>
    ensures { result ≡ which_of text.now }
{
    if is_word(text, b"all") {
        return Ok(Which::All);
    }
    if is_word(text, b"even") {
        return Ok(Which::Even);
    }
    if is_word(text, b"odd") {
        return Ok(Which::Odd);
    }
    Err(Cause::Word)
}

/// `on` or `off`: whether it is `on`.
pub fn read_switch(text: &[u8]) -> Result<bool, Cause>
    ensures { result ≡ switch_of text.now }
{
    if is_word(text, b"on") {
        return Ok(true);
    }
    if is_word(text, b"off") {
        return Ok(false);
    }
    Err(Cause::Word)
}

/// The number of one of these CPUs.
pub fn read_member(online: CpuMask, text: &[u8]) -> Result<u32, Cause>
    ensures { result ≡ member_of online text.now }
{
    let cpu = read_u32(text)?;
    if !online.contains(cpu) {
        return Err(Cause::Range);
    }
    Ok(cpu)
}

/// A mask, or `none`.
pub fn read_active(limit: u32, text: &[u8]) -> Result<Option<CpuMask>, Cause>
    requires { length text.now < 2 ^ 32 }
    ensures { result ≡ active_of limit text.now }
{
    if is_word(text, b"none") {
        return Ok(None);
    }
    let mask = read_mask(limit, text)?;
    Ok(Some(mask))
}
