//! A shelf in memory whose calls can be made to fail.

ghost use Rattle.std.specs.Prelude.{◌≡◌, ◌⊎◌, ◌<◌, ◌≤◌, ◌+◌, ◌^◌, ℕ, List, true, Option, None, Some, IsSome, IsSomeAnd, OnOk, OnErr, IfOk, IsErrOf, length, vec_len};
ghost use Rattle.std.specs.Option.{option_copied};
ghost use Rattle.redex_outside.specs.Counts.{raised, Rose, NeverFell};
ghost use Rattle.redex_outside.specs.Fails.{fail_of, held_after};
ghost use Rattle.redex_outside.specs.Held.{AllSame, OthersSame};
ghost use Rattle.redex_outside.specs.Names.{held_in};

use crate::fail::{Fail, fail_at};
use crate::names::Names;
use crate::shelf::{FetchFault, PutFault, Shelf};
use std::alloc::{AllocError, Global};

/// A shelf that holds its bytes in memory. Fetches and puts are numbered from 0, together, and those that the list
/// names fail. So does a fetch of a name that is not held. Each count is the number of all failed calls.
#[derive(Drop)]
pub struct MemoryShelf {
    names: Names,
    fails: Vec<Fail>,
    calls: u64,
    faults: u64,
    ghost in_range: { faults < 2 ^ 64 },
}

impl MemoryShelf {
    /// An empty shelf.
    pub fn new(alloc: Global, fails: Vec<Fail>) -> MemoryShelf
        ensures empty { (name : List ℕ) → held_in result.names name ≡ None }
        ensures fails { result.fails.items ≡ fails.items }
        ensures calls { result.calls ≡ 0 }
        ensures faults { result.faults ≡ 0 }
    {
        MemoryShelf {
            names: Names::new(alloc),
            fails,
            calls: 0,
            faults: 0,
        }
    }

    /// Makes the name hold the bytes. This is no call of the shelf.
    pub fn add(&mut self, alloc: Global, name: &str, bytes: &[u8]) -> Result<(), AllocError>
        ensures bytes { OnOk result (held_in self.new.names name.now ≡ Some bytes.now) }
        ensures others { OnOk result (OthersSame name.now (held_in self.old.names) (held_in self.new.names)) }
        ensures err { OnErr result (AllSame (held_in self.old.names) (held_in self.new.names)) }
        ensures rest { self.new ≡ record self.old { names = self.new.names } }
    {
        self.names.set(alloc, name, bytes)
    }

    /// The bytes that the name holds.
    pub fn bytes(&self, name: &str) -> Option<&[u8]>
        ensures { option_copied result ≡ held_in self.now.names name.now }
    {
        self.names.get(name)
    }

    /// Counts a call, and answers what the list says of it.
    fn begin(&mut self) -> Option<Fail>
        ensures found { result ≡ fail_of self.old.fails.items self.old.calls }
        ensures rest { self.new ≡ record self.old { calls = raised self.old.calls } }
    {
        let number = self.calls;
        self.calls = number.saturating_add(1);
        fail_at(self.fails.as_slice(), number)
    }

    /// Counts a failure.
    fn raise(&mut self)
        ensures faults { self.new.faults ≡ raised self.old.faults }
        ensures names { self.new.names ≡ self.old.names }
        ensures calls { self.new.calls ≡ self.old.calls }
        ensures fails { self.new.fails ≡ self.old.fails }
    {
        self.faults = self.faults.saturating_add(1);
    }
}

impl Shelf for MemoryShelf {
    ghost tells = { λ _. true };

    ghost held = { λ shelf. held_in shelf.names };

    ghost fetch_faults = { λ shelf _. shelf.faults };

    ghost put_faults = { λ shelf _. shelf.faults };

    fn fetch(&mut self, alloc: Global, name: &str, limit: usize) -> Result<Vec<u8>, FetchFault>
        ensures bytes { IfOk result (λ bytes. held_in self.old.names name.now ≡ Some bytes.items) }
        ensures limit { IfOk result (λ bytes. vec_len bytes ≤ limit) }
        ensures taken { (taken : ℕ) → IsErrOf result (FetchFault.TooLong taken) → taken ≡ limit + 1 }
        ensures too_long { (taken : ℕ) → IsErrOf result (FetchFault.TooLong taken) → (bytes : List ℕ) × (held_in self.old.names name.now ≡ Some bytes) × (limit < length bytes) }

        // It fails exactly where the list says so or the name is not held, and counts that.
        ensures listed { IsSome (fail_of self.old.fails.items self.old.calls) → IsErrOf result FetchFault.Failed }
        ensures unheld { held_in self.old.names name.now ≡ None → IsErrOf result FetchFault.Failed }
        ensures only { IsErrOf result FetchFault.Failed → IsSome (fail_of self.old.fails.items self.old.calls) ⊎ (held_in self.old.names name.now ≡ None) }
        ensures counted { IsErrOf result FetchFault.Failed → self.new.faults ≡ raised self.old.faults }
        ensures uncounted { (IsErrOf result FetchFault.Failed → ⊥) → self.new.faults ≡ self.old.faults }
        ensures in_range { self.new.faults < 2 ^ 64 }

        // Nothing else changes.
        ensures names { self.new.names ≡ self.old.names }
        ensures fails { self.new.fails ≡ self.old.fails }
        ensures calls { self.new.calls ≡ raised self.old.calls }
    {
        if self.begin().is_some() {
            self.raise();
            return Err(FetchFault::Failed);
        }
        match self.names.get(name) {
            None => {
                self.raise();
                Err(FetchFault::Failed)
            }
            Some(bytes) if bytes.len() > limit => Err(FetchFault::TooLong { taken: limit + 1 }),
            Some(bytes) => Ok(Vec::from_slice(alloc, bytes)?),
        }
    }

    fn put(&mut self, alloc: Global, name: &str, bytes: &[u8]) -> Result<(), PutFault>
        ensures bytes { OnOk result (held_in self.new.names name.now ≡ Some bytes.now) }
        ensures no_memory { IsErrOf result PutFault.NoMemory → held_in self.new.names name.now ≡ held_in self.old.names name.now }
        ensures others { OthersSame name.now (held_in self.old.names) (held_in self.new.names) }

        // It fails where the list says so, leaves what is said there, and counts that.
        ensures listed { OnOk result (fail_of self.old.fails.items self.old.calls ≡ None) }
        ensures kept { IsErrOf result PutFault.Failed → IsSomeAnd (fail_of self.old.fails.items self.old.calls) (λ fail. held_in self.new.names name.now ≡ held_after fail.kept (held_in self.old.names name.now) bytes.now) }
        ensures counted { IsErrOf result PutFault.Failed → self.new.faults ≡ raised self.old.faults }
        ensures uncounted { (IsErrOf result PutFault.Failed → ⊥) → self.new.faults ≡ self.old.faults }
        ensures in_range { self.new.faults < 2 ^ 64 }

        // Nothing else changes.
        ensures fails { self.new.fails ≡ self.old.fails }
        ensures calls { self.new.calls ≡ raised self.old.calls }
    {
        match self.begin() {
            None => Ok(self.names.set(alloc, name, bytes)?),
            Some(fail) => {
                if let Some(kept) = fail.kept {
                    self.names
                        .set(alloc, name, &bytes[..kept.min(bytes.len())])?;
                }
                self.raise();
                Err(PutFault::Failed)
            }
        }
    }
}
