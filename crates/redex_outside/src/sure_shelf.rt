//! A shelf in memory that never fails.

ghost use Rattle.std.specs.Prelude.{◌≡◌, ◌<◌, ◌≤◌, ◌+◌, ℕ, List, [], true, Some, OnOk, OnErr, IfOk, IsErrOf, length, vec_len};
ghost use Rattle.std.specs.Option.{option_copied};
ghost use Rattle.redex_outside.specs.Held.{AllSame, OthersSame};
ghost use Rattle.redex_outside.specs.Names.{held_surely};

use crate::names::Names;
use crate::shelf::{FetchFault, PutFault, Shelf};
use std::alloc::{AllocError, Global};

/// A shelf in memory where every name holds bytes, the empty list until something is put. It never fails, and its
/// counts are 0.
#[derive(Drop)]
pub struct SureShelf {
    names: Names,
}

impl SureShelf {
    /// Every name holds the empty list.
    pub fn new(alloc: Global) -> SureShelf
        ensures { (name : List ℕ) → held_surely result.names name ≡ Some [] }
    {
        SureShelf {
            names: Names::new(alloc),
        }
    }

    /// Makes the name hold the bytes.
    pub fn add(&mut self, alloc: Global, name: &str, bytes: &[u8]) -> Result<(), AllocError>
        ensures bytes { OnOk result (held_surely self.new.names name.now ≡ Some bytes.now) }
        ensures others { OnOk result (OthersSame name.now (held_surely self.old.names) (held_surely self.new.names)) }
        ensures err { OnErr result (AllSame (held_surely self.old.names) (held_surely self.new.names)) }
    {
        self.names.set(alloc, name, bytes)
    }

    /// The bytes that the name holds.
    pub fn bytes(&self, name: &str) -> Option<&[u8]>
        ensures { option_copied result ≡ held_surely self.now.names name.now }
    {
        Some(self.names.get(name).unwrap_or(&[]))
    }
}

impl Shelf for SureShelf {
    ghost tells = { λ _. true };

    ghost held = { λ shelf. held_surely shelf.names };

    ghost fetch_faults = { λ _ _. 0 };

    ghost put_faults = { λ _ _. 0 };

    fn fetch(&mut self, alloc: Global, name: &str, limit: usize) -> Result<Vec<u8>, FetchFault>
        ensures bytes { IfOk result (λ bytes. held_surely self.old.names name.now ≡ Some bytes.items) }
        ensures limit { IfOk result (λ bytes. vec_len bytes ≤ limit) }
        ensures taken { (taken : ℕ) → IsErrOf result (FetchFault.TooLong taken) → taken ≡ limit + 1 }
        ensures too_long { (taken : ℕ) → IsErrOf result (FetchFault.TooLong taken) → (bytes : List ℕ) × (held_surely self.old.names name.now ≡ Some bytes) × (limit < length bytes) }
        ensures sure { IsErrOf result FetchFault.Failed → ⊥ }
        ensures unchanged { self.new.names ≡ self.old.names }
    {
        match self.names.get(name) {
            None => Ok(Vec::new(alloc)),
            Some(bytes) if bytes.len() > limit => Err(FetchFault::TooLong { taken: limit + 1 }),
            Some(bytes) => Ok(Vec::from_slice(alloc, bytes)?),
        }
    }

    fn put(&mut self, alloc: Global, name: &str, bytes: &[u8]) -> Result<(), PutFault>
        ensures bytes { OnOk result (held_surely self.new.names name.now ≡ Some bytes.now) }
        ensures no_memory { IsErrOf result PutFault.NoMemory → held_surely self.new.names name.now ≡ held_surely self.old.names name.now }
        ensures others { OthersSame name.now (held_surely self.old.names) (held_surely self.new.names) }
        ensures sure { IsErrOf result PutFault.Failed → ⊥ }
    {
        Ok(self.names.set(alloc, name, bytes)?)
    }
}
