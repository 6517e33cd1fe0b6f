//! Sets of CPUs, their text as CPU lists, and the errors of every call of the workspace.
#![tactic(auto)]

mod display;
mod error;
mod item;
mod iter;
pub mod laws;
mod mask;
mod parse;

pub use error::{Cause, Edge, Side, SmpError};
pub use iter::MaskIter;
pub use mask::{CpuMask, NR_CPUS};
