//! Texts of a width.

ghost use Rattle.std.specs.Prelude.{◌≡◌, ◌++◌, OnOk, string_bytes, replicate};
ghost use Rattle.view.specs.Cells.{blanks, padded};

use std::alloc::{AllocError, Allocator};

// This number of spaces.
fn write_blanks<A: Allocator>(out: &mut String<A>, count: usize) -> Result<(), AllocError>
    ensures { OnOk result (string_bytes out.new ≡ string_bytes out.old ++ blanks count) }
{
    for _blank in 0..count {
        out.push(' ')?;
    }
    Ok(())
}

/// A text, and spaces behind it up to this width. A longer text is left whole.
pub fn write_padded<A: Allocator>(
    out: &mut String<A>,
    text: &str,
    width: usize,
) -> Result<(), AllocError>
    ensures { OnOk result (string_bytes out.new ≡ string_bytes out.old ++ padded text.now width) }
{
    out.push_str(text)?;
    write_blanks(out, width.saturating_sub(text.len()))
}
