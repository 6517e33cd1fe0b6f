//! A start line for threads: all begin together once each was started, or none begins.
//!
//! One thread starts the others, and then opens the line or cancels it ([`StartLine::settle`]). Each of them waits at the
//! line ([`StartLine::wait`]) before it begins. The line also counts the threads that are done, so that a CPU can poll until
//! no other makes a call any more.
//!
//! - `sign`: What the line shows to those that wait at it.
//! - `seats`: Seats of the kit's table at one moment, with no step: what they tell, and what one comes to know.
//! - `told`: A table whose rule also says what each kind of step tells.
#![tactic(auto)]

mod seats;
mod sign;
mod told;

use crate::sign::Sign;
use crossbeam_utils::Backoff;
pub use seats::Retold;
use std::sync::Wait;
use std::sync::atomic::{AtomicU64, Ordering};
pub use told::{Answer, Tells, ToldCrowd, ToldSeat, ToldTable, ToldWords};

/// A start line, and how many threads are done.
#[derive(Drop)]
pub struct StartLine {
    /// The number of the sign, or 0 while there is none.
    sign: AtomicU64,
    done: AtomicU64,
}

impl StartLine {
    /// A line that no thread may pass yet, and of which none is done.
    pub fn new() -> StartLine {
        StartLine {
            sign: AtomicU64::new(0),
            done: AtomicU64::new(0),
        }
    }

    fn show(&self, sign: Sign) {
        self.sign.store(sign.number(), Ordering::SeqCst);
    }

    /// Lets all threads begin.
    pub fn open(&self) {
        self.show(Sign::Open);
    }

    /// Lets no thread begin, for instance where one of them could not be started.
    pub fn cancel(&self) {
        self.show(Sign::Cancelled);
    }

    /// Opens the line where all threads were started, and cancels it where one was not.
    pub fn settle(&self, started: bool) {
        if started {
            self.open();
        } else {
            self.cancel();
        }
    }

    /// Whether a thread may begin: `None` while the line is neither open nor cancelled.
    pub fn look(&self) -> Option<bool> {
        match Sign::of_number(self.sign.load(Ordering::SeqCst)) {
            Some(sign) => Some(sign == Sign::Open),
            None => None,
        }
    }

    /// Waits until the line is open or cancelled: whether it is open. It polls, and gives its processor up between two looks.
    /// It can't sleep: a start line has no alarm, and the thread that starts the others settles it soon.
    pub fn wait<R: Wait>(&self, rt: &R) -> bool {
        let backoff = Backoff::new();
        for _ in rt.forever() {
            match self.look() {
                Some(open) => return open,
                None => backoff.snooze(),
            }
        }
        unreachable!()
    }

    /// Counts one thread more that is done.
    pub fn note_done(&self) {
        self.done.fetch_add(1, Ordering::SeqCst);
    }

    /// How many threads are done, modulo 2^64.
    pub fn done(&self) -> u64 {
        self.done.load(Ordering::SeqCst)
    }
}
