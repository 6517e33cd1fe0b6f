//! Scripts: what a text asks for, or its first fault, and the devices that it comes from and goes to.
//!
//! - `script`: Scripts, and the first fault of one that is not lawful.
//! - `directive`: What a line of a script asks for.
//! - `request`: What a `do` line asks a CPU to call.
//! - `command`: What a `start` line asks for.
//! - `mode`, `version`: Kinds of scripts, and their versions.
//! - `laws`: How each script is written, what the first fault of any other text is, and the names and numbers that are printed.
//! - `line`, `decimal`, `field`: Lines, their fields, and what fields say.
//! - `watched`: A reader or a writer that remembers whether it ever failed.
//! - `stream`: The bytes of a reader, and bytes to a writer.
//! - `outcome`: How a script ended.
//! - `errors`: The numbers of errors.
//! - `spelling`: The names that scripts, traces and reports share.
//! - `front`: The front lines of a text that goes with a script or an exploration.
#![tactic(auto)]

mod call_operation;
pub mod command;
pub mod decimal;
pub mod directive;
pub mod errors;
pub mod field;
pub mod front;
mod key;
mod labels;
pub mod laws;
pub mod line;
pub mod mode;
mod operation;
pub mod outcome;
pub mod request;
pub mod script;
mod setting;
pub mod spelling;
mod stop_operation;
pub mod stream;
pub mod version;
pub mod watched;

pub use mode::Mode;
pub use outcome::Outcome;
pub use watched::Watched;
