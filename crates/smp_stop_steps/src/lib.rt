//! The stop half: rendezvous of CPUs and label words, one atomic step at a time.
//!
//! It has the behaviour of Linux 6.1's `kernel/stop_machine.c` and of the sites of `kernel/jump_label.c`: CPUs meet
//! in a rendezvous whose function runs only while all of them have their interrupts off. Its laws are of any number
//! of CPUs and of any words that show stops, so that they hold of the pure machine and of words that threads share
//! alike.
//!
//! - `mask`: Masks as the words of a slot have them: bit c for CPU c.
//! - `stage`: Where a CPU is inside a command of the stop half.
//! - `accesses`: What a CPU does to which word, at each stage of the stop half.
//! - `control`: Where a CPU is in the stop half: which step it makes next, and what it knows of the stop that
//!   it is in; `control::turn`: its turn in a stop.
//! - `start`: When a command of the stop half may start, and where it begins.
//! - `table`: The words of a stop table, and what an access does to them.
//! - `machine`: The stop half of a pure machine: its words, and where each CPU is, one atomic step at a time.
//! - `control::kept`, `table::kept`, `machine::kept`: The same kept in little, for a search that keeps many states.
//! - `known`: Where a CPU is with the stops, and what it knows of them.
//! - `laws`: The laws of the stop half, each as a function that does nothing and whose contract is the law.
#![tactic(auto)]

pub mod accesses;
pub mod control;
pub mod known;
pub mod laws;
pub mod machine;
pub mod mask;
pub mod stage;
pub mod start;
pub mod table;
