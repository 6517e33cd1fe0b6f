//! Where a trace is read to.

/// The number of the next line, how many bytes were used, and what is left.
#[derive(Clone, Copy)]
pub struct Cursor<'a> {
    pub number: u32,
    pub used: u32,
    pub rest: &'a [u8],
}
