//! The command line of `smp`: what its words ask for, and how that is done. Replays of scripts are shown, steps checked
//! against them, programs of CPUs explored, and traces judged. `smp --help` has the subcommands.
//!
//! - `grammar`, `arguments`: The words of the command line, what help says of them, and what they ask for.
//! - `requests`: Does what they ask for.
//! - `streams`: A text that is read, and what is written.
//! - `kernel_file`: The verdict on a file of a kernel's tracer, whose text is not held.
//! - `explain`: What is wrong with a text.
//! - `check`: Whether a trace of steps is what the machine prints for a script.
//! - `searches`, `outcomes`: What an exploration expects, and how it may end.
//! - `expectation_names`, `report_json`: Expectations by their names, and what is told of them as JSON.
//! - `failure`, `failure_text`: Why a text was not shown, explored or judged to its end, and how that is told.
//! - `progress`: How far a search is, told on standard error.
//! - `status`: How the program ends.
#![tactic(auto)]

pub mod arguments;
mod check;
mod expectation_names;
pub mod explain;
pub mod failure;
mod failure_text;
mod grammar;
mod kernel_file;
pub mod outcomes;
mod progress;
mod report_json;
pub mod requests;
pub mod searches;
pub mod status;
mod streams;

pub use arguments::read_words;
pub use requests::do_words;
