//! What each trace shows that the model of events accepts, and that it accepts each replay of the pure machine.
//!
//! - `laws`: Calls, their order and their counts, where records are, when stops are open, when
//!   functions run, and when labels are lawful.
//! - `replays`: Each replay is accepted by the model, and each trace of it is judged lawful.
//! - `machine`: A replay, and the run of the model that it is.
#![tactic(auto)]

pub mod laws;
pub mod machine;
pub mod replays;
