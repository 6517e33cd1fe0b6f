//! The calls of functions on other CPUs that kernel authors write (`kernel/smp.c`).
//!
//! | Call | Calls | By the record | With wait | Without wait |
//! |---|---|---|---|---|
//! | [`call_single`] | one CPU | sync, or async without wait | returns once the function has run there | first waits for the record's last call |
//! | [`call_async`] | one CPU | one of the user's | | refused where the record's last call is not done |
//! | [`call_any`] | this CPU, else the lowest of a mask | as `call_single` | as `call_single` | as `call_single` |
//! | [`call_many`] | each of a mask but this CPU | that of the destination | returns once it has run on each | first waits for each record's last call |
//! | [`each_cpu_cond`] | each of a mask of which a condition holds | as `call_many` | as `call_many` | as `call_many` |
//! | [`call_many_within`] | as `call_many` | as `call_many` | returns after some polls at the latest | |
//!
//! On the calling CPU itself a function runs at once, and nothing is queued. A CPU that waits handles its own
//! interrupts meanwhile, so that two CPUs that call each other both go on.
//!
//! A [`Caller`] holds the table, the CPU, its handler and the runtime, and has each call as a method.
#![tactic(auto)]

mod any;
mod caller;
mod caller_within;
mod context;
mod each;
pub mod laws;
mod linux_names;
mod many;
mod many_within;
mod queue;
mod records;
mod single;
mod single_async;
mod target;
mod wait;
mod wait_within;

pub use any::call_any;
pub use caller::Caller;
pub use many::{call_many, each_cpu_cond};
pub use many_within::{Within, call_many_within};
pub use records::{ASYNC_RECORD, SYNC_RECORD, USER_RECORDS, many_record, user_record};
pub use single::call_single;
pub use single_async::call_async;
pub use target::targets;
