//! The label words: static keys, the sites that branch on them, and the plan of a patch.
//!
//! The words follow Linux's `kernel/jump_label.c`: a site is a NOP or a jump, and which of them is a
//! function of its key and of the branch that it was declared with. That all sites of a key are
//! patched in one stop of the machine is this project's own choice: Linux on x86 puts breakpoints
//! on the sites first (`arch/x86/kernel/alternative.c: text_poke_bp_batch`).
#![tactic(auto)]

mod entries;
mod keys;
mod kinds;
pub mod laws;
mod map;
mod patch;
mod words;

pub use entries::Entry;
pub use keys::{Change, MOST_COUNT, is_on};
pub use kinds::{SiteKind, kind_of};
pub use map::LabelMap;
pub use map::kept::KeptLabels;
pub use patch::{MOST_CHANGES, Place, plan};
pub use words::{LabelWords, MOST_KEYS, MOST_SITES, is_lawful};
