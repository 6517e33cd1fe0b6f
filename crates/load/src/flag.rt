//! A flag that one thread sets for the others.

use std::sync::atomic::{AtomicBool, Ordering};

/// A flag that one thread sets for the others, once.
#[derive(Drop)]
pub struct Flag {
    set: AtomicBool,
}

impl Flag {
    /// A flag that is not set.
    pub fn new() -> Flag {
        Flag {
            set: AtomicBool::new(false),
        }
    }

    /// Sets it.
    pub fn set(&self) {
        self.set.store(true, Ordering::SeqCst);
    }

    /// Whether it is set.
    pub fn is_set(&self) -> bool {
        self.set.load(Ordering::SeqCst)
    }
}
