//! What entries of the trace-event format are made of: times, names, and numbers between texts.

ghost use Rattle.std.specs.Prelude.{◌≡◌, ◌<◌, ◌+◌, ◌++◌, OnOk};
ghost use Rattle.trace_ftrace.specs.JsonPieces.{between, byte_text, hex_digit, hex_text, is_plain, quoted, time_text};

use std::alloc::{AllocError, Allocator};

/// The byte of a digit.
fn digit(number: u128) -> u8
    requires { number < 10 }
    ensures { result ≡ 48 + number }
{
    48 + number as u8
}

/// Writes a time in microseconds.
#[tactic(auto, unfolding(crate::specs::JsonPieces::time_text))]
pub(super) fn write_time<A: Allocator + Copy>(
    alloc: A,
    out: &mut Vec<u8, A>,
    time: u128,
) -> Result<(), AllocError>
    ensures { OnOk result (out.new.items ≡ out.old.items ++ time_text time) }
{
    let micros = time / 1000;
    let front = format!(in alloc; "{micros}.")?;
    out.extend_from_slice(front.as_bytes())?;
    out.push(digit(time / 100 % 10))?;
    out.push(digit(time / 10 % 10))?;
    out.push(digit(time % 10))?;
    Ok(())
}

/// Whether a byte can be between quotes as it is.
fn is_plain(byte: u8) -> bool
    ensures { result ≡ is_plain byte }
{
    32 <= byte && byte <= 126 && !(byte == b'"' || byte == b'\\')
}

/// The hexadecimal digit of a number.
fn hex_digit(number: u8) -> u8
    requires { number < 16 }
    ensures { result ≡ hex_digit number }
{
    if number < 10 {
        48 + number
    } else {
        87 + number
    }
}

/// Writes a byte of a name.
fn write_byte<A: Allocator>(out: &mut Vec<u8, A>, byte: u8) -> Result<(), AllocError>
    ensures { OnOk result (out.new.items ≡ out.old.items ++ byte_text byte) }
{
    if is_plain(byte) {
        out.push(byte)?;
        return Ok(());
    }
    out.extend_from_slice(b"\\u00")?;
    out.push(hex_digit(byte / 16))?;
    out.push(hex_digit(byte % 16))?;
    Ok(())
}

/// Writes a name that is between quotes.
pub(super) fn write_quoted<A: Allocator>(
    out: &mut Vec<u8, A>,
    name: &[u8],
) -> Result<(), AllocError>
    ensures { OnOk result (out.new.items ≡ out.old.items ++ quoted name.now) }
{
    for byte in name {
        write_byte(out, *byte)?;
    }
    Ok(())
}

/// Writes a number between two texts.
#[tactic(auto, unfolding(crate::specs::JsonPieces::between))]
pub(super) fn write_between<A: Allocator + Copy>(
    alloc: A,
    out: &mut Vec<u8, A>,
    front: &'static str,
    number: u32,
    back: &'static str,
) -> Result<(), AllocError>
    ensures { OnOk result (out.new.items ≡ out.old.items ++ between front.now number back.now) }
{
    let text = format!(in alloc; "{front}{number}{back}")?;
    out.extend_from_slice(text.as_bytes())
}

/// Writes a number of the kernel, and what is behind it.
#[tactic(auto, unfolding(crate::specs::JsonPieces::hex_text))]
pub(super) fn write_hex<A: Allocator + Copy>(
    alloc: A,
    out: &mut Vec<u8, A>,
    number: u64,
    back: &'static str,
) -> Result<(), AllocError>
    ensures { OnOk result (out.new.items ≡ out.old.items ++ hex_text number back.now) }
{
    let text = format!(in alloc; "{number:x}{back}")?;
    out.extend_from_slice(text.as_bytes())
}
