//! Notes in memory whose calls can be made to fail.

ghost use Rattle.std.specs.Prelude.{◌≡◌, ◌++◌, ◌<◌, ◌^◌, [], true, None, OnOk, IsErrOf, IsSomeAnd};
ghost use Rattle.redex_outside.specs.Counts.{raised};
ghost use Rattle.redex_outside.specs.Fails.{fail_of, said_after};

use crate::fail::{Fail, fail_at};
use crate::notes::{NoteFault, Notes};
use std::alloc::Global;

/// Notes that keep what is said in memory. The sayings are numbered from 0, and those that the list names fail. A
/// failing one appends the first `kept` bytes of its piece, or with None nothing. The count is the number of all
/// failed sayings.
#[derive(Drop)]
pub struct MemoryNotes {
    bytes: Vec<u8>,
    fails: Vec<Fail>,
    calls: u64,
    faults: u64,
    ghost in_range: { faults < 2 ^ 64 },
}

impl MemoryNotes {
    /// Notes in which nothing is said.
    pub fn new(alloc: Global, fails: Vec<Fail>) -> MemoryNotes
        ensures bytes { result.bytes.items ≡ [] }
        ensures fails { result.fails.items ≡ fails.items }
        ensures calls { result.calls ≡ 0 }
        ensures faults { result.faults ≡ 0 }
    {
        MemoryNotes {
            bytes: Vec::new(alloc),
            fails,
            calls: 0,
            faults: 0,
        }
    }

    /// The bytes said so far.
    pub fn bytes(&self) -> &[u8]
        ensures { result.now ≡ self.now.bytes.items }
    {
        self.bytes.as_slice()
    }

    /// Counts a call, and answers what the list says of it.
    fn begin(&mut self) -> Option<Fail>
        ensures found { result ≡ fail_of self.old.fails.items self.old.calls }
        ensures rest { self.new ≡ record self.old { calls = raised self.old.calls } }
    {
        let number = self.calls;
        self.calls = number.saturating_add(1);
        fail_at(self.fails.as_slice(), number)
    }

    /// Counts a failure.
    fn raise(&mut self)
        ensures faults { self.new.faults ≡ raised self.old.faults }
        ensures bytes { self.new.bytes ≡ self.old.bytes }
        ensures calls { self.new.calls ≡ self.old.calls }
        ensures fails { self.new.fails ≡ self.old.fails }
    {
        self.faults = self.faults.saturating_add(1);
    }
}

impl Notes for MemoryNotes {
    ghost tells = { λ _. true };

    ghost said = { λ notes. notes.bytes.items };

    ghost faults = { λ notes. notes.faults };

    fn say(&mut self, _alloc: Global, bytes: &[u8]) -> Result<(), NoteFault>
        ensures said { OnOk result (self.new.bytes.items ≡ self.old.bytes.items ++ bytes.now) }
        ensures no_memory { IsErrOf result NoteFault.NoMemory → self.new.bytes.items ≡ self.old.bytes.items }

        // It fails where the list says so, keeps what is said there, and counts that.
        ensures listed { OnOk result (fail_of self.old.fails.items self.old.calls ≡ None) }
        ensures kept { IsErrOf result NoteFault.Failed → IsSomeAnd (fail_of self.old.fails.items self.old.calls) (λ fail. self.new.bytes.items ≡ said_after fail.kept self.old.bytes.items bytes.now) }
        ensures counted { IsErrOf result NoteFault.Failed → self.new.faults ≡ raised self.old.faults }
        ensures uncounted { (IsErrOf result NoteFault.Failed → ⊥) → self.new.faults ≡ self.old.faults }
        ensures in_range { self.new.faults < 2 ^ 64 }

        // Nothing else changes.
        ensures fails { self.new.fails ≡ self.old.fails }
        ensures calls { self.new.calls ≡ raised self.old.calls }
    {
        match self.begin() {
            None => Ok(self.bytes.extend_from_slice(bytes)?),
            Some(fail) => {
                if let Some(kept) = fail.kept {
                    self.bytes
                        .extend_from_slice(&bytes[..kept.min(bytes.len())])?;
                }
                self.raise();
                Err(NoteFault::Failed)
            }
        }
    }
}
