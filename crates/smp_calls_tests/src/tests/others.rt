//! CPUs of which one thread polls, or that the test itself lets poll.

use super::*;
use crossbeam_utils::Backoff;
use std::sync::Mutex;

/// CPUs that one thread polls, once they are to go on.
#[derive(Drop)]
pub struct Others<'a> {
    cpus: Vec<Mutex<Driver<'a>>, Global>,
    go_on: AtomicU64,
    pub over: AtomicU64,
}

impl<'a> Others<'a> {
    /// These CPUs, each with its handler.
    pub fn of(room: &mut Room<'a>, numbers: &[u32]) -> Result<Others<'a>, SmpError> {
        let mut cpus = Vec::new(room.alloc);
        for number in numbers {
            let driver = room.drive(*number)?;
            if cpus.push(Mutex::new(driver)).is_err() {
                return Err(SmpError::NoMemory);
            }
        }
        Ok(Others {
            cpus,
            go_on: AtomicU64::new(0),
            over: AtomicU64::new(0),
        })
    }

    pub fn let_go_on(&self) {
        self.go_on.store(1, Ordering::SeqCst);
    }

    /// Polls each of them from when they are to go on, until all is over.
    pub fn poll_to_the_end(&self) {
        let backoff = Backoff::new();
        for _ in 0..TURNS {
            if self.over.load(Ordering::SeqCst) == 1 {
                return;
            }
            if self.go_on.load(Ordering::SeqCst) == 1 {
                self.poll_each();
            }
            backoff.snooze();
        }
    }

    fn poll_each(&self) {
        for cpu in self.cpus.iter() {
            if let Some(mut cpu) = cpu.try_lock() {
                cpu.poll();
            }
        }
    }

    /// How often the CPU of this place, once it has polled now, has heard function 1 from this CPU.
    pub fn hears(&self, place: usize, src: u32) -> Option<usize> {
        let mut cpu = self.cpus.get(place)?.try_lock()?;
        cpu.poll();
        Some(cpu.times(src, 1))
    }

    /// The CPU of this place sends an interrupt.
    pub fn interrupt(&self, place: usize, to: u32) {
        if let Some(cpu) = self.cpus.get(place)
            && let Some(mut cpu) = cpu.try_lock()
        {
            let _ = cpu.interrupt(to);
        }
    }
}
