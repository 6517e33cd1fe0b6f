ghost use Rattle.std.specs.Prelude.{IfOk, ◌≤◌};

use smp_script::Watched;
use std::io;
use std::io::{Error, ErrorKind, Read, Write};
use std::test::*;

/// A device that counts its calls and keeps the size of the last buffer. A call moves at most `most` bytes, or fails.
#[derive(Drop)]
struct Probe {
    reads: u32,
    writes: u32,
    flushes: u32,
    size: usize,
    most: usize,
    fails: bool,
}

impl Probe {
    fn moved(&self) -> io::Result<usize>
        ensures { IfOk result (λ n. n ≤ self.now.size) }
    {
        if self.fails {
            Err(Error::from(ErrorKind::TimedOut))
        } else if self.most < self.size {
            Ok(self.most)
        } else {
            Ok(self.size)
        }
    }
}

impl Read for Probe {
    fn read(&mut self, buf: &mut [u8]) -> io::Result<usize> {
        self.reads = self.reads.wrapping_add(1);
        self.size = buf.len();
        self.moved()
    }
}

impl Write for Probe {
    fn write(&mut self, buf: &[u8]) -> io::Result<usize> {
        self.writes = self.writes.wrapping_add(1);
        self.size = buf.len();
        self.moved()
    }

    fn flush(&mut self) -> io::Result<()> {
        self.flushes = self.flushes.wrapping_add(1);
        match self.moved() {
            Ok(_) => Ok(()),
            Err(error) => Err(error),
        }
    }
}

fn watched(most: usize, fails: bool) -> Watched<Probe> {
    Watched::new(Probe {
        reads: 0,
        writes: 0,
        flushes: 0,
        size: 0,
        most,
        fails,
    })
}

/// The reads, writes and flushes of the device, and the size of its last buffer.
fn seen(device: Watched<Probe>) -> (u32, u32, u32, usize) {
    let probe = device.into_inner();
    (probe.reads, probe.writes, probe.flushes, probe.size)
}

fn kind<T: Drop>(answer: io::Result<T>) -> Result<T, ErrorKind> {
    answer.map_err(|e| e.kind())
}

// The device has each buffer as a whole, once, and its answer is the answer.
#[test]
fn each_call_is_one_of_the_device_inside(rt: HostRuntime) {
    let mut page = [0u8; 4];
    for size in 0..5usize {
        for most in 0..6usize {
            let moves = if most < size { most } else { size };
            let mut device = watched(most, false);
            assert_eq!(rt; kind(device.read(&mut page[..size])), Ok(moves));
            assert_eq!(rt; seen(device), (1, 0, 0, size));
            let mut device = watched(most, false);
            assert_eq!(rt; kind(device.write(&page[..size])), Ok(moves));
            assert_eq!(rt; seen(device), (0, 1, 0, size));
        }
    }
    let mut device = watched(0, false);
    assert_eq!(rt; kind(device.flush()), Ok(()));
    assert_eq!(rt; seen(device), (0, 0, 1, 0));
}

#[test]
fn each_failure_is_that_of_the_device_inside(rt: HostRuntime) {
    let mut page = [0u8; 4];
    let late = ErrorKind::TimedOut;
    let mut device = watched(4, true);
    assert_eq!(rt; kind(device.read(&mut page)), Err(late));
    assert_eq!(rt; seen(device), (1, 0, 0, 4));
    let mut device = watched(4, true);
    assert_eq!(rt; kind(device.write(&page)), Err(late));
    assert_eq!(rt; seen(device), (0, 1, 0, 4));
    let mut device = watched(4, true);
    assert_eq!(rt; kind(device.flush()), Err(late));
    assert_eq!(rt; seen(device), (0, 0, 1, 0));
}
