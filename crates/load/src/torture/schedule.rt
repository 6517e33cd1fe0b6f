//! What all threads of a torture are told.

use crate::request::Torture;
use std::time::Instant;

/// What is asked for, and since when.
#[derive(Clone, Copy)]
pub struct Schedule {
    pub request: Torture,
    pub began: Instant,
}
