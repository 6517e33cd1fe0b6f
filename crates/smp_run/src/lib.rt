//! Runs: each CPU of a script on a thread of its own. And what the program `smp_runner` does, which replays or runs a script.
//!
//! - `script`: A script from a reader, and what its run prints to a writer.
//! - `run`: A script, from its lines to the text of its answers.
//! - `launch`: A thread for each CPU, and what all have answered.
//! - `driver`: What the thread of one CPU does.
//! - `calls`: What a CPU calls, and what is answered.
//! - `reading`: What a CPU reads of the labels at the end.
//! - `pace`: What a caller may do inside handlers, and where a CPU ends.
//! - `text`: The lines of a run's output.
//! - `command_line`, `runner`, `status`: What the words of `smp_runner` ask for, how that is done, and how the program ends.
#![tactic(auto)]

pub mod answer;
mod calls;
pub mod command_line;
mod driver;
mod launch;
mod pace;
mod reading;
mod run;
pub mod runner;
mod script;
pub mod status;
mod text;

pub use answer::Answer;
pub use driver::{DrivenSeat, play};
pub use pace::{FreePace, Pace};
pub use run::{Ran, run_lines};
pub use script::run_script;
