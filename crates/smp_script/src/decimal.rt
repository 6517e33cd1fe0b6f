//! Decimal numbers.

ghost use Rattle.std.specs.Prelude.{◌≡◌, ◌≤◌, IfOk};
ghost use Rattle.smp_script.specs.Numbers.{is_decimal, number_in, negative_of, signed_of};
ghost use Rattle.smp_script.specs.Fields.{word16, word32, word64};

use smp_mask::Cause;

/// A number in decimal, with no leading zero, from `low` to `high`.
pub fn number(text: &[u8], low: u64, high: u64) -> Result<u64, Cause>
    ensures value { result ≡ number_in low high text.now }
    ensures within { IfOk result (λ n. n ≤ high) }
{
    if text.is_empty() || (text.len() > 1 && text[0] == b'0') {
        return Err(Cause::Number);
    }
    // the value, or 2 ^ 64 where it is no less
    let mut value = 0u128;
    for byte in text {
        if *byte < b'0' || *byte > b'9' {
            return Err(Cause::Number);
        }
        value = (value * 10 + (*byte - b'0') as u128).min(1 << 64);
    }
    if value < low as u128 || value > high as u128 {
        return Err(Cause::Range);
    }
    Ok(value as u64)
}

/// A number of 16 bits.
pub fn read_u16(text: &[u8]) -> Result<u16, Cause>
    ensures { result ≡ word16 text.now }
{
    let n = number(text, 0, u16::MAX as u64)?;
    Ok(n as u16)
}

/// A number of 32 bits, from `low` to `high`.
pub fn read_from_to(text: &[u8], low: u32, high: u32) -> Result<u32, Cause>
    ensures { result ≡ number_in low high text.now }
{
    let n = number(text, low as u64, high as u64)?;
    Ok(n as u32)
}

/// A number of 32 bits.
pub fn read_u32(text: &[u8]) -> Result<u32, Cause>
    ensures { result ≡ word32 text.now }
{
    read_from_to(text, 0, u32::MAX)
}

/// A number of 64 bits.
pub fn read_u64(text: &[u8]) -> Result<u64, Cause>
    ensures { result ≡ word64 text.now }
{
    number(text, 0, u64::MAX)
}

/// Whether a text is a number in decimal, with no leading zero, of whatever size.
pub fn is_number(text: &[u8]) -> bool
    ensures { result ≡ is_decimal text.now }
{
    number(text, 0, u64::MAX) != Err(Cause::Number)
}

// What follows a minus sign: a number that is not 0.
fn read_negative(digits: &[u8]) -> Result<i32, Cause>
    ensures { result ≡ negative_of digits.now }
{
    let n = number(digits, 0, 1 << 31)?;
    if n == 0 {
        return Err(Cause::Number);
    }
    Ok((-(n as i64)) as i32)
}

/// A number of 32 bits that may have a minus sign, but not before 0.
pub fn read_i32(text: &[u8]) -> Result<i32, Cause>
    ensures { result ≡ signed_of text.now }
{
    match text {
        [b'-', digits @ ..] => read_negative(digits),
        _ => {
            let n = number(text, 0, i32::MAX as u64)?;
            Ok(n as i32)
        }
    }
}
