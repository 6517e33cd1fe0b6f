//! A reader or a writer that remembers whether it ever failed.

ghost use Rattle.std.specs.Prelude.{◌≡◌, ◌||◌, ◌&&◌, ◌==◌, nat_lt, false, true, Ok, is_ok, is_err, length};
ghost use Rattle.std.specs.Io.{ReadsAtMost, WritesAtMost};
ghost use Rattle.std.specs.Io.KnownBytes.{Keeps, ReadConsumes, WriteAppends};
ghost use Rattle.smp_script.specs.Watched.{inner_of, failed_of, flushed_of, took_none};

use std::io;
use std::io::{Read, Write};

/// A reader or a writer that remembers whether it ever failed.
#[derive(Drop)]
pub struct Watched<T> {
    inner: T,
    has_failed: bool,
    is_flushed: bool,
}

impl<T> Watched<T> {
    /// What has not failed yet.
    pub fn new(inner: T) -> Watched<T>
        ensures inner { inner_of result ≡ inner }
        ensures fresh { failed_of result ≡ false }
        ensures unflushed { flushed_of result ≡ false }
    {
        Watched {
            inner,
            has_failed: false,
            is_flushed: false,
        }
    }

    /// The reader or the writer itself.
    pub fn into_inner(self) -> T
        ensures { result ≡ inner_of self }
    {
        let Watched {
            inner,
            has_failed: _,
            is_flushed: _,
        } = self;
        inner
    }

    /// Whether a call of it answered an `Err`, or a write of one byte or more took none.
    pub fn failed(&self) -> bool
        ensures { result ≡ failed_of self.now }
    {
        self.has_failed
    }

    /// Whether what was written is flushed: a flush was passed on and answered `Ok`, and no write came after it.
    pub fn flushed(&self) -> bool
        ensures { result ≡ flushed_of self.now }
    {
        self.is_flushed
    }
}

impl<R: Read> Read for Watched<R> {
    ghost remaining = { λ w. R.remaining (inner_of w) };

    fn read(&mut self, buf: &mut [u8]) -> io::Result<usize>
        ensures bound { ReadsAtMost result buf.new }
        ensures bytes { ReadConsumes (R.remaining (inner_of self.old)) (R.remaining (inner_of self.new)) result buf.new }
        ensures failed { failed_of self.new ≡ (failed_of self.old || is_err result) }
    {
        let result = self.inner.read(buf);
        self.has_failed = self.has_failed || result.is_err();
        result
    }
}

impl<W: Write> Write for Watched<W> {
    ghost contents = { λ w. W.contents (inner_of w) };

    fn write(&mut self, buf: &[u8]) -> io::Result<usize>
        ensures bound { WritesAtMost result buf.now }
        ensures bytes { WriteAppends (W.contents (inner_of self.old)) (W.contents (inner_of self.new)) result buf.now }
        ensures failed { failed_of self.new ≡ (failed_of self.old || took_none result (length buf.now)) }
        ensures unflushed { flushed_of self.new ≡ false }
    {
        let result = self.inner.write(buf);
        let took_none = match &result {
            Ok(n) => *n == 0 && !buf.is_empty(),
            Err(_) => true,
        };
        self.has_failed = self.has_failed || took_none;
        self.is_flushed = false;
        result
    }

    fn flush(&mut self) -> io::Result<()>
        ensures bytes { Keeps (W.contents (inner_of self.old)) (W.contents (inner_of self.new)) }
        ensures failed { failed_of self.new ≡ (failed_of self.old || is_err result) }
        ensures flushed { flushed_of self.new ≡ is_ok result }
    {
        let result = self.inner.flush();
        self.has_failed = self.has_failed || result.is_err();
        self.is_flushed = result.is_ok();
        result
    }
}
