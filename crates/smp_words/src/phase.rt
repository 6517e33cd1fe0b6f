//! The phases of a stop of several CPUs (`kernel/stop_machine.c: enum multi_stop_state`). 0 is that of a stop of one CPU,
//! and is acknowledged by who has acknowledged none.

/// All of the mask come to the stop.
pub const PREPARE: u32 = 1;

/// Each turns its interrupts off.
pub const DISABLE_IRQ: u32 = 2;

/// The active CPUs call the function.
pub const RUN: u32 = 3;

/// Each turns its interrupts on, and leaves.
pub const EXIT: u32 = 4;

/// All have acknowledged the last phase.
pub const OVER: u32 = 5;
