//! Numbers of digits.

ghost use Rattle.std.specs.Prelude.{◌≡◌, ◌≤◌};
ghost use Rattle.trace_ftrace.specs.Numbers.{digit_of, number_of, with_digit};

/// The digit that a byte is, up to 15.
fn digit(byte: u8) -> Option<u64>
    ensures { result ≡ digit_of byte }
{
    match byte {
        b'0'..=b'9' => Some((byte - b'0') as u64),
        b'a'..=b'f' => Some((byte - b'a') as u64 + 10),
        _ => None,
    }
}

/// A number with one more digit, of at most 64 bits.
#[tactic(auto, unfolding(crate::specs::Numbers::with_digit))]
fn with_digit(base: u64, number: u64, byte: u8) -> Option<u64>
    requires { base ≤ 16 }
    ensures { result ≡ with_digit base number byte }
{
    let Some(digit) = digit(byte) else {
        return None;
    };
    let more = number as u128 * base as u128 + digit as u128;
    if digit < base && more <= u64::MAX as u128 {
        Some(more as u64)
    } else {
        None
    }
}

/// The number that a text of digits is in this base.
pub(crate) fn number(base: u64, text: &[u8]) -> Option<u64>
    requires { base ≤ 16 }
    ensures { result ≡ number_of base text.now }
{
    if text.is_empty() {
        return None;
    }
    let mut value = 0;
    let mut rest = text;
    while let [byte, after @ ..] = rest {
        match with_digit(base, value, *byte) {
            Some(more) => value = more,
            None => return None,
        }
        rest = after;
    }
    Some(value)
}
