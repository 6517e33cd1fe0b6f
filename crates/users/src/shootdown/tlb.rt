//! What a CPU has cached of the address spaces that it uses.

ghost use Rattle.std.specs.Prelude.{◌≡◌, ◌==◌, ◌++◌, ◌∷◌, [], not, filter, IfOk};
ghost use Rattle.users.specs.Tlb.{without};

use crate::shootdown::space::Gone;
use smp_queue::Handler;
use std::alloc::{AllocError, Global};

/// The function that drops an address space from a TLB. Its info is the space.
pub const FLUSH: u16 = 1;

/// A page of an address space that a TLB holds.
#[derive(Clone, Copy)]
pub struct Entry {
    pub space: u64,
    pub page: u64,
}

/// The entries of one CPU, and where it counts those that it drops.
#[derive(Drop)]
pub struct Tlb<'a> {
    pub entries: Vec<Entry, Global>,
    pub gone: &'a Gone,
}

impl<'a> Tlb<'a> {
    /// A TLB that holds nothing.
    pub fn new(alloc: Global, gone: &'a Gone) -> Tlb<'a>
        ensures { result.entries.items ≡ [] }
    {
        Tlb {
            entries: Vec::new(alloc),
            gone,
        }
    }

    /// Holds one entry more.
    pub fn load(&mut self, entry: Entry) -> Result<(), AllocError>
        ensures { IfOk result (λ _. self.new.entries.items ≡ self.old.entries.items ++ entry ∷ []) }
    {
        self.entries.push(entry)?;
        Ok(())
    }

    /// Drops all entries of an address space, and no others.
    pub fn flush(&mut self, space: u64)
        ensures { self.new.entries.items ≡ without space self.old.entries.items }
    {
        let before = self.entries.len();
        self.entries.retain(|entry| entry.space != space);
        self.gone.add(space, before - self.entries.len());
    }
}

/// Function `FLUSH` drops the address space that its info names. Any other function does nothing.
impl<'a> Handler for Tlb<'a> {
    ghost use Rattle.std.specs.Prelude.{◌≡◌};
    ghost use Rattle.users.specs.Tlb.{left_by};

    ghost leads = { λ before call after. after.entries.items ≡ left_by call before.entries.items };

    fn call(&mut self, _src: u32, func: u16, info: u64) {
        if func == FLUSH {
            self.flush(info);
        }
    }
}
