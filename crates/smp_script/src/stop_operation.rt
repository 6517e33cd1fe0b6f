//! Operations of a `do` line that are stops or changes of keys.

ghost use Rattle.std.specs.Prelude.{◌≡◌, ◌<◌, ◌^◌, map, length};
ghost use Rattle.smp_script.specs.Lines.{AreShort};
ghost use Rattle.smp_script.specs.Requests.{counted_of, keyed, machine, machine_of, one, one_of, set_of, stop_of, two, two_of};

use crate::decimal::{read_from_to, read_u16, read_u32};
use crate::field::{read_active, read_switch};
use crate::line::is_word;
use crate::request::Request;
use smp_mask::Cause;

/// The largest number that a stop function can answer.
const MAX_ARG: u32 = i32::MAX as u32;

// DST FUNC ARG
fn read_one(dst: &[u8], func: &[u8], arg: &[u8]) -> Result<Request, Cause>
    ensures { result ≡ one dst.now func.now arg.now }
{
    let dst = read_u32(dst)?;
    let func = read_u16(func)?;
    let arg = read_from_to(arg, 0, MAX_ARG)?;
    Ok(Request::One(dst, func, arg))
}

// `one`, and then DST FUNC ARG
fn one_operation(arguments: &[&[u8]]) -> Result<Result<Request, Cause>, Cause>
    ensures { result ≡ one_of (map (λ f. f.now) arguments.now) }
{
    let [dst, func, arg] = arguments else {
        return Err(Cause::Word);
    };
    Ok(read_one(dst, func, arg))
}

// A B FUNC ARG
fn read_two(a: &[u8], b: &[u8], func: &[u8], arg: &[u8]) -> Result<Request, Cause>
    ensures { result ≡ two a.now b.now func.now arg.now }
{
    let a = read_u32(a)?;
    let b = read_u32(b)?;
    let func = read_u16(func)?;
    let arg = read_from_to(arg, 0, MAX_ARG)?;
    Ok(Request::Two(a, b, func, arg))
}

// `two`, and then A B FUNC ARG
fn two_operation(arguments: &[&[u8]]) -> Result<Result<Request, Cause>, Cause>
    ensures { result ≡ two_of (map (λ f. f.now) arguments.now) }
{
    let [a, b, func, arg] = arguments else {
        return Err(Cause::Word);
    };
    Ok(read_two(a, b, func, arg))
}

// ACTIVE FUNC ARG
fn read_machine(limit: u32, active: &[u8], func: &[u8], arg: &[u8]) -> Result<Request, Cause>
    requires { length active.now < 2 ^ 32 }
    ensures { result ≡ machine limit active.now func.now arg.now }
{
    let active = read_active(limit, active)?;
    let func = read_u16(func)?;
    let arg = read_from_to(arg, 0, MAX_ARG)?;
    Ok(Request::Machine(active, func, arg))
}

// `machine`, and then ACTIVE FUNC ARG
fn machine_operation(limit: u32, arguments: &[&[u8]]) -> Result<Result<Request, Cause>, Cause>
    requires { AreShort (map (λ f. f.now) arguments.now) }
    ensures { result ≡ machine_of limit (map (λ f. f.now) arguments.now) }
{
    let [active, func, arg] = arguments else {
        return Err(Cause::Word);
    };
    Ok(read_machine(limit, active, func, arg))
}

// K
fn read_set(key: &[u8], on: bool) -> Result<Request, Cause>
    ensures { result ≡ keyed (λ k. Request.Set k on) key.now }
{
    let key = read_u32(key)?;
    Ok(Request::Set(key, on))
}

// `set`, and then K and `on` or `off`
fn set_operation(arguments: &[&[u8]]) -> Result<Result<Request, Cause>, Cause>
    ensures { result ≡ set_of (map (λ f. f.now) arguments.now) }
{
    let [key, switch] = arguments else {
        return Err(Cause::Word);
    };
    let on = read_switch(switch)?;
    Ok(read_set(key, on))
}

// K
fn read_inc(key: &[u8]) -> Result<Request, Cause>
    ensures { result ≡ keyed Request.Inc key.now }
{
    let key = read_u32(key)?;
    Ok(Request::Inc(key))
}

// `inc`, and then K
fn inc_operation(arguments: &[&[u8]]) -> Result<Result<Request, Cause>, Cause>
    ensures { result ≡ counted_of Request.Inc (map (λ f. f.now) arguments.now) }
{
    let [key] = arguments else {
        return Err(Cause::Word);
    };
    Ok(read_inc(key))
}

// K
fn read_dec(key: &[u8]) -> Result<Request, Cause>
    ensures { result ≡ keyed Request.Dec key.now }
{
    let key = read_u32(key)?;
    Ok(Request::Dec(key))
}

// `dec`, and then K
fn dec_operation(arguments: &[&[u8]]) -> Result<Result<Request, Cause>, Cause>
    ensures { result ≡ counted_of Request.Dec (map (λ f. f.now) arguments.now) }
{
    let [key] = arguments else {
        return Err(Cause::Word);
    };
    Ok(read_dec(key))
}

/// A stop or a change of a key, by its name.
pub fn read_stop(
    limit: u32,
    name: &[u8],
    arguments: &[&[u8]],
) -> Result<Result<Request, Cause>, Cause>
    requires { AreShort (map (λ f. f.now) arguments.now) }
    ensures { result ≡ stop_of limit name.now (map (λ f. f.now) arguments.now) }
{
    if is_word(name, b"one") {
        return one_operation(arguments);
    }
    if is_word(name, b"two") {
        return two_operation(arguments);
    }
    if is_word(name, b"machine") {
        return machine_operation(limit, arguments);
    }
    if is_word(name, b"set") {
        return set_operation(arguments);
    }
    if is_word(name, b"inc") {
        return inc_operation(arguments);
    }
    if is_word(name, b"dec") {
        return dec_operation(arguments);
    }
    Err(Cause::Word)
}
