//! What a seat at the table knows.

use smp_stop_steps::known::{KnownStops, StopSetting};

/// What a seat knows: the first seat how many CPUs have one and what the table is made with, each other its CPU's part
/// of the stops.
pub enum StopSeatView {
    /// The CPUs below this number have a seat.
    Maker(u32, StopSetting),
    Cpu(KnownStops),
}
