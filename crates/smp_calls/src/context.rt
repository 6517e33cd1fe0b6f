//! What the parts of a call share.

use smp_queue::CallTable;
use std::alloc::{AllocError, Allocator};
use std::sync::Wait;

/// The table of a call, and the runtime by which the call waits.
pub(crate) struct CallContext<'a, A: Allocator, R: Wait> {
    pub(crate) table: &'a CallTable<A>,
    pub(crate) rt: &'a R,
}

impl<'a, A: Allocator, R: Wait> Clone for CallContext<'a, A, R> {
    fn clone(&self) -> Result<CallContext<'a, A, R>, AllocError> {
        Ok(*self)
    }
}

impl<'a, A: Allocator, R: Wait> Copy for CallContext<'a, A, R> {}
