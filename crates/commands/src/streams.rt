//! The bytes of a file or of standard input, and a writer that remembers why it failed.

use std::fs::File;
use std::io;
use std::io::{Read, Write};

/// All bytes of a reader, but no more than one over what the longest text may have.
fn read_all<R: Read + Drop>(rt: &HostRuntime, most: u32, reader: R) -> io::Result<Vec<u8>> {
    let mut bytes = Vec::new(rt.alloc());
    reader.take(u64::from(most) + 1).read_to_end(&mut bytes)?;
    Ok(bytes)
}

/// The text of the file of this name, of standard input where there is none: of one byte more than the most at most.
pub fn read_text(rt: &HostRuntime, most: u32, file: Option<&str>) -> io::Result<Vec<u8>> {
    match file {
        Some(path) => read_all(rt, most, File::open(rt, path)?),
        None => read_all(rt, most, rt.stdin()),
    }
}

/// A writer that remembers why it last failed.
#[derive(Drop)]
pub struct Remembering<W> {
    inner: W,
    reason: Option<io::Error>,
}

impl<W> Remembering<W> {
    pub fn new(inner: W) -> Remembering<W> {
        Remembering {
            inner,
            reason: None,
        }
    }

    /// Why it last failed, where it did.
    pub fn reason(&self) -> Option<io::Error> {
        self.reason
    }

    /// Notes why a call failed, if it did.
    fn note<T>(&mut self, done: &io::Result<T>) {
        if let Err(error) = done {
            self.reason = Some(*error);
        }
    }
}

impl<W: Write> Write for Remembering<W> {
    fn write(&mut self, buf: &[u8]) -> io::Result<usize> {
        let result = self.inner.write(buf);
        self.note(&result);
        result
    }

    fn flush(&mut self) -> io::Result<()> {
        let result = self.inner.flush();
        self.note(&result);
        result
    }
}
