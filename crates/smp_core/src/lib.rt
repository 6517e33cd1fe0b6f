//! A pure machine that makes one atomic step at a time: the call half and the stop half, and all that they offer,
//! by name.
//!
//! - `machine`: A pure machine that makes one atomic step at a time. `machine::kept` keeps it in little, for a search
//!   that keeps many states.
//! - `events`: A list of events, one after the other.
//! - `laws`: What every order of steps leaves of a core.
//!
//! One thread owns a core, so no call waits and nobody polls: the caller of `step` chooses which CPU is next.
//!
//! | Call of a [`Core`] | What it does | What it answers |
//! |---|---|---|
//! | `start` | puts a CPU at the beginning of a command, by no step | E1, E2, or the command's own refusal |
//! | `step` | makes one atomic step of a CPU's command | what was seen of it, or E10 |
//! | `apply`, `replay` | makes one event, or a list of them | what was seen, up to the first refusal |
//! | `word`, `queue`, `place`, `tally`, `phase` | nothing | a word, a queue, the place of a record, two counts, a phase |
//! | `is_inside`, `stage`, `stop_stage` | nothing | whether a CPU is inside a command, and where in it, by half |
//! | `copy`, `is_same` | nothing | the same core once more, or whether two are the same |
//! | `leaves_offline`, `leaves_offline_stops`, `keeps_stop_laws`, .. (`machine/laws.rt`) | nothing | nothing: each clause is a law of every core |
#![tactic(auto)]

pub mod events;
pub mod laws;
pub mod machine;

pub use events::{Replayed, replay};
pub use machine::Core;
pub use machine::kept::{CoreChange, KeptCore, Shares};
pub use smp_call_steps::RecPlace;
pub use smp_words::{
    Access, Act, Call, Class, Command, Event, Field, Kind, Note, Seen, Word, Work, call_index,
    stop_index,
};
