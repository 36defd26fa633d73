//! Where a run says what it found.

ghost use Rattle.std.specs.Prelude.{◌≡◌, ◌++◌, ℕ, List, Bool, take, IsTrue, IsErrOf, OnOk};
ghost use Rattle.redex_outside.specs.Counts.{Rose, NeverFell};
ghost use Rattle.redex_outside.specs.declared.notes.NoteFault.TheVariants.{NoMemory as no_room};

use std::alloc::{AllocError, AllocFailed, Global};
use thiserror::Error;

/// Why a piece could not be said.
#[derive(Debug, Drop, Error)]
pub enum NoteFault {
    /// Memory ran out.
    #[error("out of memory")]
    NoMemory,
    /// The count of failures rose.
    #[error("the saying failed")]
    Failed,
}

impl From<AllocError> for NoteFault {
    ghost from_gives = { λ _ e. e ≡ no_room };

    fn from(_e: AllocError) -> NoteFault {
        NoteFault::NoMemory
    }
}

impl<T: Drop> From<AllocFailed<T>> for NoteFault {
    ghost from_gives = { λ _ e. e ≡ no_room };

    fn from(_e: AllocFailed<T>) -> NoteFault {
        NoteFault::NoMemory
    }
}

/// Bytes that are said one piece after another.
pub trait Notes {
    /// Whether it tells what was said. This never changes.
    ghost tells: { Self → Bool };

    /// Where it tells: the bytes said so far.
    ghost said: { Self → List ℕ };

    /// How often a saying has failed.
    ghost faults: { Self → ℕ };

    /// Appends the piece.
    fn say(&mut self, alloc: Global, bytes: &[u8]) -> Result<(), NoteFault>
        ensures said { OnOk result (IsTrue (tells self.old) → said self.new ≡ said self.old ++ bytes.now) }
        ensures no_memory { IsErrOf result NoteFault.NoMemory → IsTrue (tells self.old) → said self.new ≡ said self.old }

        // A failure has its cause, and leaves a prefix of the piece behind what was said.
        ensures failed { IsErrOf result NoteFault.Failed → Rose (faults self.old) (faults self.new) }
        ensures prefix { IsErrOf result NoteFault.Failed → IsTrue (tells self.old) → (kept : ℕ) × (said self.new ≡ said self.old ++ take kept bytes.now) }

        // Whatever comes, the count does not fall.
        ensures tells { tells self.new ≡ tells self.old }
        ensures faults { NeverFell (faults self.old) (faults self.new) };
}
