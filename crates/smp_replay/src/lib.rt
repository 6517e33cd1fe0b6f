//! Replays: a script gives the order of the atomic steps of several CPUs, and each step is printed.
//!
//! - `replay`: A script from a reader, and its output to a writer.
//! - `playback`: Runs what a script asks for, and keeps what it prints.
//! - `show`: What `show` prints.
//! - `text`: The lines of a replay's output.
//! - `laws`: What the lines of a replay say.
//! - `check`: Whether the steps of another implementation are those of a script.
//! - `difference`: The first line in which two texts differ.
#![tactic(auto)]

pub mod check;
pub mod difference;
pub mod laws;
mod playback;
mod replay;
pub mod show;
pub mod text;

pub use check::check_steps;
pub use difference::first_difference;
pub use playback::{Printed, new_core, print_script};
pub use replay::replay_script;
