//! The call half: calls of one CPU to another, one atomic step at a time.
//!
//! It has the behaviour of Linux 6.1's `kernel/smp.c` and `lib/llist.c`: a CPU queues a call by appending its
//! record to the target's lock-less list and, where that list was empty, sends an interrupt; the target takes the
//! whole list at once and runs it, SYNC calls first. Its laws are of any words that show calls, so that they hold
//! of the pure machine and of words that threads share alike.
//!
//! - `stage`: Where a CPU is inside its command.
//! - `post`: Posting: a CPU queues one call by a record of its own (`kernel/smp.c: generic_exec_single`,
//!   `lib/llist.c: llist_add_batch`).
//! - `handle`: Handling: a CPU takes its interrupt and, where there was one, its whole queue, and runs it
//!   (`kernel/smp.c: __flush_smp_call_function_queue`).
//! - `drain`: What follows each step of `handle`.
//! - `control`: Where a CPU is: its stage, and how many calls it has reversed of its batch.
//! - `kept`: How a CPU's place is kept in a list of which most CPUs are outside a command.
//! - `start`: When a command of the call half may start, and where it begins.
//! - `table`: The words of a call table as a list, and what an access does to them.
//! - `queue`: A chain of records, as the words link them.
//! - `place`: Where a record is, as the words and the stages tell it.
//! - `known`: What one CPU knows of the calls.
//! - `laws`: Laws of the call half, each as a function that does nothing and whose contract is the law.
#![tactic(auto)]

pub mod control;
pub mod drain;
pub mod handle;
pub mod kept;
pub mod known;
pub mod laws;
pub mod place;
pub mod post;
pub mod queue;
pub mod stage;
pub mod start;
pub mod table;

pub use place::RecPlace;
