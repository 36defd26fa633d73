//! Where files are fetched from and put.

ghost use Rattle.std.specs.Prelude.{◌≡◌, ◌+◌, ◌<◌, ◌≤◌, ℕ, List, Bool, Option, Some, length, vec_len, IsTrue, IsErrOf, IfOk, OnOk};
ghost use Rattle.redex_outside.specs.Counts.{Rose, NoneFell};
ghost use Rattle.redex_outside.specs.Held.{AllSame, OthersSame, OldOrPrefix};
ghost use Rattle.redex_outside.specs.declared.shelf.FetchFault.TheVariants.{NoMemory as no_room_to_fetch};
ghost use Rattle.redex_outside.specs.declared.shelf.PutFault.TheVariants.{NoMemory as no_room_to_put};

use std::alloc::{AllocError, AllocFailed, Global};
use thiserror::Error;

/// Why a name could not be fetched.
#[derive(Debug, Drop, Error)]
pub enum FetchFault {
    /// Memory ran out.
    #[error("out of memory")]
    NoMemory,
    /// The name's count of failed fetches rose.
    #[error("the fetch failed")]
    Failed,
    /// One byte more than the limit was taken, `taken` in all.
    #[error("too long: {taken} bytes were taken")]
    TooLong { taken: usize },
}

/// Why bytes could not be put under a name.
#[derive(Debug, Drop, Error)]
pub enum PutFault {
    /// Memory ran out.
    #[error("out of memory")]
    NoMemory,
    /// The name's count of failed puts rose.
    #[error("the put failed")]
    Failed,
}

impl From<AllocError> for FetchFault {
    ghost from_gives = { λ _ e. e ≡ no_room_to_fetch };

    fn from(_e: AllocError) -> FetchFault {
        FetchFault::NoMemory
    }
}

impl<T: Drop> From<AllocFailed<T>> for FetchFault {
    ghost from_gives = { λ _ e. e ≡ no_room_to_fetch };

    fn from(_e: AllocFailed<T>) -> FetchFault {
        FetchFault::NoMemory
    }
}

impl From<AllocError> for PutFault {
    ghost from_gives = { λ _ e. e ≡ no_room_to_put };

    fn from(_e: AllocError) -> PutFault {
        PutFault::NoMemory
    }
}

impl<T: Drop> From<AllocFailed<T>> for PutFault {
    ghost from_gives = { λ _ e. e ≡ no_room_to_put };

    fn from(_e: AllocFailed<T>) -> PutFault {
        PutFault::NoMemory
    }
}

/// Bytes by name. A name is text.
pub trait Shelf {
    /// Whether it tells what its names hold. This never changes.
    ghost tells: { Self → Bool };

    /// Where it tells: the bytes under a name, or none.
    ghost held: { Self → List ℕ → Option (List ℕ) };

    /// How often the fetches of a name have failed.
    ghost fetch_faults: { Self → List ℕ → ℕ };

    /// How often the puts of a name have failed.
    ghost put_faults: { Self → List ℕ → ℕ };

    /// All bytes that the name holds, at most `limit` of them.
    fn fetch(&mut self, alloc: Global, name: &str, limit: usize) -> Result<Vec<u8>, FetchFault>
        ensures bytes { IfOk result (λ bytes. IsTrue (tells self.old) → held self.old name.now ≡ Some bytes.items) }
        ensures limit { IfOk result (λ bytes. vec_len bytes ≤ limit) }

        // Each fault has its cause.
        ensures failed { IsErrOf result FetchFault.Failed → Rose (fetch_faults self.old name.now) (fetch_faults self.new name.now) }
        ensures taken { (taken : ℕ) → IsErrOf result (FetchFault.TooLong taken) → taken ≡ limit + 1 }
        ensures too_long { (taken : ℕ) → IsErrOf result (FetchFault.TooLong taken) → IsTrue (tells self.old) → (bytes : List ℕ) × (held self.old name.now ≡ Some bytes) × (limit < length bytes) }

        // Whatever comes, the names hold what they held, and no count falls.
        ensures tells { tells self.new ≡ tells self.old }
        ensures held { IsTrue (tells self.old) → AllSame (held self.old) (held self.new) }
        ensures fetch_faults { NoneFell (fetch_faults self.old) (fetch_faults self.new) }
        ensures put_faults { NoneFell (put_faults self.old) (put_faults self.new) };

    /// Makes the name hold the bytes.
    fn put(&mut self, alloc: Global, name: &str, bytes: &[u8]) -> Result<(), PutFault>
        ensures bytes { OnOk result (IsTrue (tells self.old) → held self.new name.now ≡ Some bytes.now) }
        ensures no_memory { IsErrOf result PutFault.NoMemory → IsTrue (tells self.old) → held self.new name.now ≡ held self.old name.now }

        // A failure has its cause, and leaves the old bytes or a prefix of the new ones.
        ensures failed { IsErrOf result PutFault.Failed → Rose (put_faults self.old name.now) (put_faults self.new name.now) }
        ensures prefix { IsErrOf result PutFault.Failed → IsTrue (tells self.old) → OldOrPrefix (held self.old name.now) (held self.new name.now) bytes.now }

        // Whatever comes, the other names hold what they held, and no count falls.
        ensures tells { tells self.new ≡ tells self.old }
        ensures others { IsTrue (tells self.old) → OthersSame name.now (held self.old) (held self.new) }
        ensures fetch_faults { NoneFell (fetch_faults self.old) (fetch_faults self.new) }
        ensures put_faults { NoneFell (put_faults self.old) (put_faults self.new) };
}
