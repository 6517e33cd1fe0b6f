//! Operations of a `do` line that are calls.

ghost use Rattle.std.specs.Prelude.{◌≡◌, ◌<◌, ◌^◌, map, length};
ghost use Rattle.smp_script.specs.Lines.{AreShort};
ghost use Rattle.smp_script.specs.Requests.{among, among_of, cond_of, single, single_of, user, user_of};

use crate::decimal::{read_from_to, read_u16, read_u32, read_u64};
use crate::field::{read_mask, read_wait, read_which};
use crate::request::{Request, Which};
use smp_mask::Cause;

// DST FUNC INFO
fn read_single(wait: bool, dst: &[u8], func: &[u8], info: &[u8]) -> Result<Request, Cause>
    ensures { result ≡ single wait dst.now func.now info.now }
{
    let dst = read_u32(dst)?;
    let func = read_u16(func)?;
    let info = read_u64(info)?;
    Ok(Request::Single(wait, dst, func, info))
}

/// `sync` or `async`, and then DST FUNC INFO
pub fn single_operation(wait: bool, arguments: &[&[u8]]) -> Result<Result<Request, Cause>, Cause>
    ensures { result ≡ single_of wait (map (λ f. f.now) arguments.now) }
{
    let [dst, func, info] = arguments else {
        return Err(Cause::Word);
    };
    Ok(read_single(wait, dst, func, info))
}

// U DST FUNC INFO
fn read_user(number: &[u8], dst: &[u8], func: &[u8], info: &[u8]) -> Result<Request, Cause>
    ensures { result ≡ user number.now dst.now func.now info.now }
{
    let number = read_from_to(number, 0, 1)?;
    let dst = read_u32(dst)?;
    let func = read_u16(func)?;
    let info = read_u64(info)?;
    Ok(Request::User(number, dst, func, info))
}

/// `user`, and then U DST FUNC INFO
pub fn user_operation(arguments: &[&[u8]]) -> Result<Result<Request, Cause>, Cause>
    ensures { result ≡ user_of (map (λ f. f.now) arguments.now) }
{
    let [number, dst, func, info] = arguments else {
        return Err(Cause::Word);
    };
    Ok(read_user(number, dst, func, info))
}

/// MASK FUNC INFO, as they are written.
#[derive(Clone, Copy)]
struct MaskedCall<'a> {
    mask: &'a [u8],
    func: &'a [u8],
    info: &'a [u8],
}

// MASK FUNC INFO
fn read_any(limit: u32, wait: bool, call: MaskedCall) -> Result<Request, Cause>
    requires { length call.mask.now < 2 ^ 32 }
    ensures { result ≡ among (Request.Any wait) limit call.entry.mask.now call.entry.func.now call.entry.info.now }
{
    let mask = read_mask(limit, call.mask)?;
    let func = read_u16(call.func)?;
    let info = read_u64(call.info)?;
    Ok(Request::Any(wait, mask, func, info))
}

/// `any`, and then W MASK FUNC INFO
pub fn any_operation(limit: u32, arguments: &[&[u8]]) -> Result<Result<Request, Cause>, Cause>
    requires { AreShort (map (λ f. f.now) arguments.now) }
    ensures { result ≡ among_of Request.Any limit (map (λ f. f.now) arguments.now) }
{
    let [wait, mask, func, info] = arguments else {
        return Err(Cause::Word);
    };
    let wait = read_wait(wait)?;
    Ok(read_any(limit, wait, MaskedCall { mask, func, info }))
}

// MASK FUNC INFO
fn read_many(limit: u32, wait: bool, call: MaskedCall) -> Result<Request, Cause>
    requires { length call.mask.now < 2 ^ 32 }
    ensures { result ≡ among (Request.Many wait) limit call.entry.mask.now call.entry.func.now call.entry.info.now }
{
    let mask = read_mask(limit, call.mask)?;
    let func = read_u16(call.func)?;
    let info = read_u64(call.info)?;
    Ok(Request::Many(wait, mask, func, info))
}

/// `many`, and then W MASK FUNC INFO
pub fn many_operation(limit: u32, arguments: &[&[u8]]) -> Result<Result<Request, Cause>, Cause>
    requires { AreShort (map (λ f. f.now) arguments.now) }
    ensures { result ≡ among_of Request.Many limit (map (λ f. f.now) arguments.now) }
{
    let [wait, mask, func, info] = arguments else {
        return Err(Cause::Word);
    };
    let wait = read_wait(wait)?;
    Ok(read_many(limit, wait, MaskedCall { mask, func, info }))
}

// MASK FUNC INFO
fn read_cond(limit: u32, which: Which, wait: bool, call: MaskedCall) -> Result<Request, Cause>
    requires { length call.mask.now < 2 ^ 32 }
    ensures { result ≡ among (Request.Cond which wait) limit call.entry.mask.now call.entry.func.now call.entry.info.now }
{
    let mask = read_mask(limit, call.mask)?;
    let func = read_u16(call.func)?;
    let info = read_u64(call.info)?;
    Ok(Request::Cond(which, wait, mask, func, info))
}

/// `cond`, and then C W MASK FUNC INFO
pub fn cond_operation(limit: u32, arguments: &[&[u8]]) -> Result<Result<Request, Cause>, Cause>
    requires { AreShort (map (λ f. f.now) arguments.now) }
    ensures { result ≡ cond_of limit (map (λ f. f.now) arguments.now) }
{
    let [which, wait, mask, func, info] = arguments else {
        return Err(Cause::Word);
    };
    let which = read_which(which)?;
    let wait = read_wait(wait)?;
    Ok(read_cond(limit, which, wait, MaskedCall { mask, func, info }))
}
