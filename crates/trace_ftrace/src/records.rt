//! The addresses of records, by their numbers, and the number of each address.

ghost use Rattle.std.specs.Prelude.{◌≡◌, ◌<◌, ◌++◌, ◌∷◌, [], length, None, IfErr, IfSome, OnOk};
ghost use Rattle.trace_ftrace.specs.Records.{record_place};

use std::alloc::{AllocError, Allocator};
use std::collections::HashMap;
use std::hash::{BuildHasherDefault, FoldHasher};
use std::marker::Model;

/// The addresses of records, in the order of their numbers. Each address is there once, and its number is found at once.
#[derive(Drop)]
pub struct Records<A: Allocator> {
    list: Vec<u64, A>,
    numbers: HashMap<u64, usize, BuildHasherDefault<FoldHasher>, A>,
}

impl<A: Allocator> Model for Records<A> {
    ghost use Rattle.std.specs.HashMap.{get};
    ghost use Rattle.std.specs.Prelude.{List, ℕ, nat_eq};
    ghost use Rattle.trace_ftrace.specs.Records.{AreNumbered};

    ghost Value = { List ℕ };

    ghost view = { λ r. r.list.items };

    ghost invariant = { λ r. AreNumbered (get nat_eq r.numbers) r.list.items };
}

impl<A: Allocator> Records<A> {
    /// The number of the record at this address, where it has one.
    pub(crate) fn place(&self, address: u64) -> Option<usize>
        ensures place { result ≡ record_place 0 address self.now }
        ensures within { IfSome result (λ i. i < length self.now) }
    {
        self.numbers.get(&address).copied()
    }

    /// The addresses, by their numbers.
    pub fn as_slice(&self) -> &[u64]
        ensures { result.now ≡ self.now }
    {
        self.list.as_slice()
    }
}

impl<A: Allocator + Copy> Records<A> {
    /// No record.
    pub(crate) fn new(alloc: A) -> Records<A>
        ensures { result ≡ [] }
    {
        Records {
            list: Vec::new(alloc),
            numbers: HashMap::new(alloc),
        }
    }

    /// The record at an address that has no number gets the next one. The error says that memory for it was refused: nothing is changed.
    pub(crate) fn push(&mut self, address: u64) -> Result<(), AllocError>
        requires { record_place 0 address self.old ≡ None }
        ensures joined { OnOk result (self.new ≡ self.old ++ address ∷ []) }
        ensures same { IfErr result (λ _. self.new ≡ self.old) }
    {
        let number = self.list.as_slice().len();
        if self.list.push(address).is_err() {
            return Err(AllocError);
        }
        if self.numbers.insert(address, number).is_err() {
            self.list.pop();
            return Err(AllocError);
        }
        Ok(())
    }
}
