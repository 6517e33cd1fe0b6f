//! The model of a judge of events: what each event of a trace makes of the CPUs, the records, the stops and the labels, or
//! which of its premises does not hold.
//!
//! - `event`: What a line of a trace tells; `without`: what a trace leaves out.
//! - `state`, `open`: The state of the model, and how it begins.
//! - `step`: One event; `calls`, `stops`: events of calls and of stops.
//! - `cpu`, `cpu::handling`: One CPU, and how it handles an interrupt; `cpus`: each CPU of the state.
//! - `stop`, `each_stop`: One stop, and each stop of the state.
//! - `labels`: Keys, sites, and what a patch is to store.
//! - `ending`: What is told of the state at the end.
//! - `reason`, `halt`: Why an event is none.
#![tactic(auto)]

pub mod call;
mod calls;
mod cpu;
mod cpus;
mod each_stop;
mod ending;
pub mod event;
pub mod halt;
mod labels;
pub mod open;
pub mod reason;
pub mod state;
pub mod step;
pub mod stop;
mod stops;
mod table;
pub mod without;

pub use event::{CallEvent, Event, LabelEvent, OtherNode, StopEvent};
pub use halt::Halt;
pub use reason::Reason;
pub use state::State;
pub use stop::{Stop, Task};
pub use without::{Setting, Without};
