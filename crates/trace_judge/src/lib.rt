//! A judge of events: whether some run of the model has the events that a trace tells, and else the first that none has and
//! which law it breaks.
//!
//! - `trace`: A trace from a reader, and its verdict to a writer.
//! - `verdict`: The verdict on a text; `text`, `phrase`: what is printed of it.
//! - `head`, `cpus_line`, `cursor`: The head of a trace, its line 2, and where it is read to.
//! - `body`, `reading`: The lines behind it, and the event that each tells: of calls, stops, or keys and sites.
//! - `laws`: What the verdict means.
//! - `early_end`: Why a trace was not judged to its end.
#![tactic(auto)]

pub mod body;
pub mod cpus_line;
mod cursor;
pub mod early_end;
mod head;
pub mod laws;
mod phrase;
mod reading;
pub mod text;
pub mod trace;
pub mod verdict;

pub use trace::{Ruling, judge_trace};
pub use verdict::{Verdict, judge};
