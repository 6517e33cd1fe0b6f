//! What a page has of a text.

ghost use Rattle.std.specs.Prelude.{◌≡◌, ◌++◌, OnOk};
ghost use Rattle.trace_page.specs.Escapes.{byte_text, escaped, is_plain};

use std::alloc::{AllocError, Allocator};

/// Whether a page has a byte as it is: a line feed, or one that can be printed and is neither `<` nor a backslash.
pub(crate) fn is_plain(byte: u8) -> bool
    ensures { result ≡ is_plain byte }
{
    byte == b'\n' || 32 <= byte && byte <= 126 && !(byte == b'<' || byte == b'\\')
}

/// A byte, or a backslash and the three digits of its number.
fn push_byte<A: Allocator>(out: &mut Vec<u8, A>, byte: u8) -> Result<(), AllocError>
    ensures { OnOk result (out.new.items ≡ out.old.items ++ byte_text byte) }
{
    if is_plain(byte) {
        out.push(byte)?;
        return Ok(());
    }
    out.push(b'\\')?;
    out.push(48 + byte / 100)?;
    out.push(48 + byte / 10 % 10)?;
    out.push(48 + byte % 10)?;
    Ok(())
}

/// Bytes without one that could end a page's data, or that can't be printed.
pub(crate) fn push_escaped<A: Allocator>(
    out: &mut Vec<u8, A>,
    bytes: &[u8],
) -> Result<(), AllocError>
    ensures { OnOk result (out.new.items ≡ out.old.items ++ escaped bytes.now) }
{
    for byte in bytes {
        push_byte(out, *byte)?;
    }
    Ok(())
}
