//! What is in a line or a field, with bytes that can't be printed by their names.

use std::alloc::{AllocError, Allocator};

/// More bytes of a line are not shown.
const MOST_SHOWN: usize = 200;

// A byte: one that can't be printed by its number.
fn write_byte<A: Allocator>(out: &mut String<A>, byte: u8) -> Result<(), AllocError> {
    match byte {
        b'\r' => write!(out, "\\r"),
        b'\t' => write!(out, "\\t"),
        32..=126 => out.push(byte as char),
        _ => write!(out, "\\{byte}"),
    }
}

/// The bytes of a line or a field; of a long one the front.
pub fn write_bytes<A: Allocator>(out: &mut String<A>, bytes: &[u8]) -> Result<(), AllocError> {
    for byte in bytes.iter().take(MOST_SHOWN) {
        write_byte(out, *byte)?;
    }
    if bytes.len() > MOST_SHOWN {
        write!(out, "..")?;
    }
    Ok(())
}

// What is to be said of a byte that is easily overlooked, where a field has one.
fn hint(field: &[u8]) -> &'static str {
    match field {
        [.., b'\r'] =>
            ": a carriage return is its end; a line ends in a line feed alone, not in CR LF",
        [0xEF, 0xBB, 0xBF, ..] => ": a byte-order mark is in front",
        _ if field.contains(&b'\t') => ": there is a tab, and only a space separates two fields",
        [b'#', ..] => ": only explorations and traces have comments, from line 3 on",
        _ => "",
    }
}

/// What is in the field at this place: its bytes, that it is empty, or that the line ends before it.
pub fn write_content<A: Allocator>(
    out: &mut String<A>,
    fields: &[&[u8]],
    place: usize,
) -> Result<(), AllocError> {
    match fields.get(place) {
        Some(field) if field.is_empty() && fields.len() == 1 => {
            writeln!(out, "the line is empty")
        }
        Some(field) if field.is_empty() => {
            writeln!(out, "here is nothing: one space separates two fields")
        }
        Some(field) => {
            write!(out, "here is `")?;
            write_bytes(out, field)?;
            let hint = hint(field);
            writeln!(out, "`{hint}")
        }
        None => writeln!(out, "here the line ends"),
    }
}
