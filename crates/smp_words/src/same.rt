//! Values that can be made once more, and of which two can be the same in all of it: so that states of a machine can be
//! kept and found again.

ghost use Rattle.std.specs.Prelude.{◌≡◌, ◌↔◌, true, IfOk};

use std::alloc::{AllocError, Allocator};

/// What can be made once more, and compared in all of it.
pub trait Same {
    /// A duplicate of this value.
    fn copy(&self) -> Self
        ensures { result ≡ self.now };

    /// Whether the two are the same, in all of it.
    fn is_same(&self, other: &Self) -> bool
        ensures { result ≡ true ↔ self.now ≡ other.now };
}

/// All of them once more.
pub fn copy_all<T: Same + Drop, A: Allocator>(
    alloc: A,
    values: &[T],
) -> Result<Vec<T, A>, AllocError>
    ensures { IfOk result (λ copies. copies.items ≡ values.now) }
{
    let mut copies = Vec::with_capacity(alloc, values.len())?;
    for value in values {
        copies.push(value.copy())?;
    }
    Ok(copies)
}

/// Whether they are the same, one by one.
pub fn are_same<T: Same>(one: &[T], other: &[T]) -> bool
    ensures { result ≡ true ↔ one.now ≡ other.now }
{
    if one.len() != other.len() {
        return false;
    }
    for i in 0..one.len() {
        if !one[i].is_same(&other[i]) {
            return false;
        }
    }
    true
}
