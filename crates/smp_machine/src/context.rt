//! What the parts of a call, a stop or a change of a key share.

use crate::machine::Machine;
use std::alloc::{AllocError, Allocator};
use std::sync::Wait;

/// The machine, and the runtime by which its CPU waits.
pub(crate) struct MachineContext<'a, A: Allocator, R: Wait> {
    pub(crate) machine: &'a Machine<A>,
    pub(crate) rt: &'a R,
}

impl<'a, A: Allocator, R: Wait> Clone for MachineContext<'a, A, R> {
    fn clone(&self) -> Result<MachineContext<'a, A, R>, AllocError> {
        Ok(*self)
    }
}

impl<'a, A: Allocator, R: Wait> Copy for MachineContext<'a, A, R> {}
