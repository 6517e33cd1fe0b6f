//! The events that steps tell, as a trace that `smp judge` takes.
//!
//! - `script_trace`: A script from a reader, and the trace of its replay to a writer.
//! - `replay`: What is seen of a script's replay, and how it ended.
//! - `moments`, `rows`: What a script asks for, moment by moment, and a row for what is seen of each.
//! - `trace`: The trace of steps.
//! - `step_events`, `calls`, `stops`: The events that a step tells.
//! - `past`: What a CPU has done before that its next step's events need.
//! - `mask`: The mask that a word has.
//! - `text`: The lines of events.
#![tactic(auto)]

mod calls;
mod mask;
pub mod moments;
mod past;
pub mod replay;
pub mod rows;
mod script_trace;
mod step_events;
mod stops;
pub mod text;
pub mod trace;

pub use script_trace::show_events;
