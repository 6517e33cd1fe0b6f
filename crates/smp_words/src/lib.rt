//! The words of both tables: their names and numbers, the accesses that a step makes to them, and what is seen of
//! it.
//!
//! A call table and a stop table share no word, but have one set of names. Nothing here moves: the steps of the
//! call half are in `smp_call_steps`, those of the stop half in `smp_stop_steps`, and `smp_core` is the machine
//! over both.
//!
//! - `size`: How many CPUs, records and words there are, and to whom a record belongs.
//! - `limits`: How many CPUs a table may have, and which may be online.
//! - `laws`: The numbers of CPUs, records and words, as numbers.
//! - `field`: The words of one rendezvous slot.
//! - `word`: The words of both tables, by name and by number.
//! - `seen`: A step, as it was seen.
//! - `access`: What a step does to one word.
//! - `call`: A call, as its record has it.
//! - `work`: What a stop is to do.
//! - `phase`: The phases of a stop of several CPUs.
//! - `command`: What a CPU may be told to do.
//! - `same`: Values that can be made once more, and of which two can be the same.
#![tactic(auto)]

pub mod access;
pub mod call;
pub mod command;
pub mod field;
pub mod laws;
pub mod limits;
pub mod phase;
pub mod same;
pub mod seen;
pub mod size;
pub mod word;
pub mod work;

pub use access::Access;
pub use call::{Call, Class};
pub use command::{Command, Event};
pub use field::Field;
pub use same::Same;
pub use seen::{Act, Note, Seen};
pub use word::{Word, call_index, stop_index};
pub use work::{Kind, Work};
