use super::*;
use std::io::{Error, ErrorKind, Read, Write};

/// Gives one byte a read, and fails at read `fails_at`, counted from 0.
#[derive(Drop)]
pub struct Slow<'a> {
    pub left: &'a [u8],
    pub reads: u32,
    pub fails_at: u32,
}

impl<'a> Read for Slow<'a> {
    fn read(&mut self, buf: &mut [u8]) -> io::Result<usize> {
        self.reads = self.reads.wrapping_add(1);
        if self.reads > self.fails_at {
            return Err(Error::from(ErrorKind::Interrupted));
        }
        if self.left.is_empty() || buf.is_empty() {
            return Ok(0);
        }
        buf[0] = self.left[0];
        self.left = &self.left[1..];
        Ok(1)
    }
}

/// Takes one byte a write, and fails at the write or flush `fails_at`, counted from 0.
#[derive(Drop)]
pub struct Narrow {
    pub taken: Vec<u8>,
    pub writes: usize,
    pub fails_at: usize,
}

impl Write for Narrow {
    fn write(&mut self, buf: &[u8]) -> io::Result<usize> {
        self.writes = self.writes.wrapping_add(1);
        if self.writes > self.fails_at || buf.is_empty() {
            return Ok(0);
        }
        match self.taken.push(buf[0]) {
            Ok(()) => Ok(1),
            Err(_) => Err(Error::from(ErrorKind::OutOfMemory)),
        }
    }

    fn flush(&mut self) -> io::Result<()> {
        self.writes = self.writes.wrapping_add(1);
        if self.writes > self.fails_at {
            return Err(Error::from(ErrorKind::Other));
        }
        Ok(())
    }
}

/// Gives one byte a read of a text in which a piece comes again and again.
#[derive(Drop)]
pub struct Again<'a> {
    /// What comes before the pieces; later what is left of the piece in hand.
    pub left: &'a [u8],
    pub piece: &'a [u8],
    pub times: u32,
    pub tail: &'a [u8],
}

impl<'a> Again<'a> {
    fn next_piece(&mut self) {
        if self.times > 0 {
            self.times -= 1;
            self.left = self.piece;
        } else {
            self.left = self.tail;
            self.tail = b"";
        }
    }
}

impl<'a> Read for Again<'a> {
    fn read(&mut self, buf: &mut [u8]) -> io::Result<usize> {
        if self.left.is_empty() {
            self.next_piece();
        }
        if self.left.is_empty() || buf.is_empty() {
            return Ok(0);
        }
        buf[0] = self.left[0];
        self.left = &self.left[1..];
        Ok(1)
    }
}
