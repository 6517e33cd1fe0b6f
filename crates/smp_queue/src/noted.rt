//! A value that only clauses read, and that may go to another thread.

ghost use Rattle.std.specs.Prelude.{◌≡◌};
ghost use Rattle.std.specs.Borrow.{ftrue};

use std::marker::{Model, PhantomData};

/// A `T` as clauses see it. It has no bytes and owns nothing.
#[derive(Drop)]
pub struct Noted<T> {
    of: PhantomData<T>,
    pub ghost value: { T },
}

impl<T> Model for Noted<T> {
    ghost also_owns = { λ _. ftrue };
}

// It owns nothing.
unsafe impl<T> Send for Noted<T> {}

impl<T> Noted<T> {
    /// What the reference shows.
    pub fn of(x: &T) -> Noted<T>
        ensures { result.value ≡ x.now }
    {
        let _ = x;
        Noted { of: PhantomData }
    }
}
