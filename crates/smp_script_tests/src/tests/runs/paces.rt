//! Paces of tests.

use super::*;
use std::sync::atomic::{AtomicU64, Ordering};

/// How often a handler looks for the other one.
const TURNS: u32 = 100_000_000;

/// The handlers of CPUs 0 and 1 wait for each other.
#[derive(Drop)]
pub struct Meets {
    zero: AtomicU64,
    one: AtomicU64,
    /// How often a handler gave up.
    late: AtomicU64,
}

impl Meets {
    pub fn new() -> Meets {
        Meets {
            zero: AtomicU64::new(0),
            one: AtomicU64::new(0),
            late: AtomicU64::new(0),
        }
    }

    /// Whether both handlers were entered, and neither gave up.
    pub fn have_met(&self) -> bool {
        let zero = self.zero.load(Ordering::SeqCst);
        let one = self.one.load(Ordering::SeqCst);
        zero == 1 && one == 1 && self.late.load(Ordering::SeqCst) == 0
    }

    fn meet(&self, mine: &AtomicU64, other: &AtomicU64) {
        mine.store(1, Ordering::SeqCst);
        for _ in 0..TURNS {
            if other.load(Ordering::SeqCst) == 1 {
                return;
            }
        }
        self.late.fetch_add(1, Ordering::SeqCst);
    }
}

impl Pace for Meets {
    fn entered(&self, cpu: u32, _src: u32, _func: u16, _info: u64) {
        if cpu == 0 {
            self.meet(&self.zero, &self.one);
        }
        if cpu == 1 {
            self.meet(&self.one, &self.zero);
        }
    }

    fn polls(&self, _cpu: u32) -> bool {
        true
    }
}

/// How long a slow function takes.
const SLOW: u32 = 1_000_000;

/// Function 1 is slow on CPUs other than 0, and leaves a mark there; function 2 looks for the marks.
#[derive(Drop)]
pub struct Finds {
    marks: AtomicU64,
    found: AtomicU64,
}

impl Finds {
    pub fn new() -> Finds {
        Finds {
            marks: AtomicU64::new(0),
            found: AtomicU64::new(0),
        }
    }

    /// How many marks function 2 has found.
    pub fn found(&self) -> u64 {
        self.found.load(Ordering::SeqCst)
    }
}

impl Pace for Finds {
    fn entered(&self, cpu: u32, _src: u32, func: u16, _info: u64) {
        if func == 1 && cpu != 0 {
            for _ in 0..SLOW {
                self.found.load(Ordering::SeqCst);
            }
            self.marks.fetch_add(1, Ordering::SeqCst);
        }
        if func == 2 {
            self.found
                .store(self.marks.load(Ordering::SeqCst), Ordering::SeqCst);
        }
    }

    fn polls(&self, _cpu: u32) -> bool {
        true
    }
}

/// Function 1 waits until function 2 has run.
#[derive(Drop)]
pub struct Lets {
    ran: AtomicU64,
    /// How often function 1 gave up.
    late: AtomicU64,
}

impl Lets {
    pub fn new() -> Lets {
        Lets {
            ran: AtomicU64::new(0),
            late: AtomicU64::new(0),
        }
    }

    /// Whether function 2 has run, and function 1 has not given up.
    pub fn was_let(&self) -> bool {
        self.ran.load(Ordering::SeqCst) == 1 && self.late.load(Ordering::SeqCst) == 0
    }

    fn wait(&self) {
        for _ in 0..TURNS {
            if self.ran.load(Ordering::SeqCst) == 1 {
                return;
            }
        }
        self.late.fetch_add(1, Ordering::SeqCst);
    }
}

impl Pace for Lets {
    fn entered(&self, _cpu: u32, _src: u32, func: u16, _info: u64) {
        if func == 1 {
            self.wait();
        }
        if func == 2 {
            self.ran.store(1, Ordering::SeqCst);
        }
    }

    fn polls(&self, _cpu: u32) -> bool {
        true
    }
}

/// One CPU does not poll at the end.
#[derive(Clone, Copy)]
pub struct Stays(pub u32);

impl Pace for Stays {
    fn entered(&self, _cpu: u32, _src: u32, _func: u16, _info: u64) {}

    fn polls(&self, cpu: u32) -> bool {
        cpu != self.0
    }
}

/// CPU 1 begins to poll once CPU 0 is done.
#[derive(Drop)]
pub struct Follows {
    done: AtomicU64,
    /// How often CPU 1 gave up.
    late: AtomicU64,
}

impl Follows {
    pub fn new() -> Follows {
        Follows {
            done: AtomicU64::new(0),
            late: AtomicU64::new(0),
        }
    }

    /// Whether CPU 1 has not given up.
    pub fn has_followed(&self) -> bool {
        self.late.load(Ordering::SeqCst) == 0
    }

    fn wait(&self) {
        for _ in 0..TURNS {
            if self.done.load(Ordering::SeqCst) == 1 {
                return;
            }
        }
        self.late.fetch_add(1, Ordering::SeqCst);
    }
}

impl Pace for Follows {
    fn entered(&self, _cpu: u32, _src: u32, _func: u16, _info: u64) {}

    fn polls(&self, cpu: u32) -> bool {
        if cpu == 0 {
            self.done.store(1, Ordering::SeqCst);
        } else {
            self.wait();
        }
        true
    }
}

/// Counts how often each of two CPUs is asked whether it polls; both do.
#[derive(Drop)]
pub struct Asks {
    zero: AtomicU64,
    one: AtomicU64,
}

impl Asks {
    pub fn new() -> Asks {
        Asks {
            zero: AtomicU64::new(0),
            one: AtomicU64::new(0),
        }
    }

    pub fn asked(&self) -> (u64, u64) {
        (
            self.zero.load(Ordering::SeqCst),
            self.one.load(Ordering::SeqCst),
        )
    }
}

impl Pace for Asks {
    fn entered(&self, _cpu: u32, _src: u32, _func: u16, _info: u64) {}

    fn polls(&self, cpu: u32) -> bool {
        let asked = if cpu == 0 { &self.zero } else { &self.one };
        asked.fetch_add(1, Ordering::SeqCst);
        true
    }
}

/// Counts the calls that run, modulo 2^64, and adds up what they were given.
#[derive(Drop)]
pub struct Counts {
    calls: AtomicU64,
    sum: AtomicU64,
}

impl Counts {
    pub fn new() -> Counts {
        Counts {
            calls: AtomicU64::new(0),
            sum: AtomicU64::new(0),
        }
    }

    pub fn calls(&self) -> u64 {
        self.calls.load(Ordering::SeqCst)
    }

    pub fn sum(&self) -> u64 {
        self.sum.load(Ordering::SeqCst)
    }
}

impl Pace for Counts {
    fn entered(&self, cpu: u32, src: u32, func: u16, info: u64) {
        self.calls.fetch_add(1, Ordering::SeqCst);
        let given = info
            .wrapping_add(u64::from(func).wrapping_mul(1000))
            .wrapping_add(u64::from(src).wrapping_mul(100_000))
            .wrapping_add(u64::from(cpu).wrapping_mul(1_000_000));
        self.sum.fetch_add(given, Ordering::SeqCst);
    }

    fn polls(&self, _cpu: u32) -> bool {
        true
    }
}

/// How often a function looks in vain before it gives up on purpose.
const PATIENCE: u32 = 100_000;

/// Function 1 waits for function 2, and gives up soon. Function 3 waits until function 1 has begun, and function 4 for function 3.
#[derive(Drop)]
pub struct Holds {
    one: AtomicU64,
    two: AtomicU64,
    three: AtomicU64,
    /// How often function 1 gave up.
    late: AtomicU64,
}

impl Holds {
    pub fn new() -> Holds {
        Holds {
            one: AtomicU64::new(0),
            two: AtomicU64::new(0),
            three: AtomicU64::new(0),
            late: AtomicU64::new(0),
        }
    }

    pub fn late(&self) -> u64 {
        self.late.load(Ordering::SeqCst)
    }
}

/// Looks this number of times whether a function has begun.
fn wait_for(begun: &AtomicU64, turns: u32) -> bool {
    for _ in 0..turns {
        if begun.load(Ordering::SeqCst) == 1 {
            return true;
        }
    }
    false
}

impl Pace for Holds {
    fn entered(&self, _cpu: u32, _src: u32, func: u16, _info: u64) {
        match func {
            1 => {
                self.one.store(1, Ordering::SeqCst);
                if !wait_for(&self.two, PATIENCE) {
                    self.late.fetch_add(1, Ordering::SeqCst);
                }
            }
            2 => self.two.store(1, Ordering::SeqCst),
            3 => {
                self.three.store(1, Ordering::SeqCst);
                wait_for(&self.one, TURNS);
            }
            _ => {
                wait_for(&self.three, TURNS);
            }
        }
    }

    fn polls(&self, _cpu: u32) -> bool {
        true
    }
}
