//! Memory that refuses one growth.

ghost use Rattle.std.specs.Prelude.{◌≡◌, IfSome};

use std::alloc::{AllocError, Allocator};
use std::sync::atomic::{AtomicU64, Ordering};

/// Memory that refuses one growth: the first has the number 0. Threads share it by reference, and its counts are of all of them.
#[derive(Drop)]
pub struct Refusing<B> {
    inner: B,
    refused: u64,
    growths: AtomicU64,
    returned: AtomicU64,
}

impl<B> Refusing<B> {
    pub fn new(inner: B, refused: u64) -> Refusing<B> {
        Refusing {
            inner,
            refused,
            growths: AtomicU64::new(0),
            returned: AtomicU64::new(0),
        }
    }

    /// Whether the growth was asked for, and refused.
    pub fn has_refused(&self) -> bool {
        self.growths.load(Ordering::SeqCst) > self.refused
    }

    /// Whether each block that was given out is back.
    pub fn is_whole(&self) -> bool {
        let given = self.growths.load(Ordering::SeqCst);
        let returned = self.returned.load(Ordering::SeqCst);
        given == returned.wrapping_add(u64::from(self.has_refused()))
    }

    /// The memory for the next growth, which is counted. `None` where it is refused.
    fn lend(&self) -> Option<&B>
        ensures { IfSome result (λ inner. inner.now ≡ self.now.inner) }
    {
        if self.growths.fetch_add(1, Ordering::SeqCst) == self.refused {
            None
        } else {
            Some(&self.inner)
        }
    }

    /// The memory that a block goes back to, which is counted.
    fn take_back(&self) -> &B
        ensures { result.now ≡ self.now.inner }
    {
        self.returned.fetch_add(1, Ordering::SeqCst);
        &self.inner
    }
}

unsafe impl<B: Allocator> Allocator for Refusing<B> {
    ghost dealloc_token = { λ heap ty ptr. B.dealloc_token heap.inner ty ptr };

    fn allocate(&self, size: usize, align: usize) -> Result<*mut u8, AllocError> {
        match self.lend() {
            Some(inner) => inner.allocate(size, align),
            None => Err(AllocError),
        }
    }

    unsafe fn deallocate(&self, ptr: *mut u8, size: usize, align: usize) {
        self.take_back().deallocate(ptr, size, align);
    }
}
