//! Why bytes could not be read.

ghost use Rattle.std.specs.Prelude.{◌≡◌};
ghost use Rattle.dex_base.specs.declared.fault.BaseFault.TheVariants.{NoMemory};

use std::alloc::{AllocError, AllocFailed};
use thiserror::Error;

/// What is wrong with the bytes of a number, a text or a descriptor. `at` is an index into them.
#[derive(Debug, Drop, Error)]
pub enum BaseFault {
    /// Memory ran out.
    #[error("out of memory")]
    NoMemory,
    /// The bytes end inside what begins at `at`.
    #[error("the bytes end inside what begins at {at}")]
    Short { at: usize },
    /// The byte at `at` is the fifth of a number and has its top bit set.
    #[error("the number goes on behind its fifth byte, at {at}")]
    LongLeb { at: usize },
    /// The byte at `at` does not continue a text.
    #[error("the byte at {at} does not continue a text")]
    BadText { at: usize },
    /// The unit at `at` does not continue a descriptor.
    #[error("the unit at {at} does not continue a descriptor")]
    BadDescriptor { at: usize },
}

impl From<AllocError> for BaseFault {
    ghost from_gives = { λ _ e. e ≡ NoMemory };

    fn from(_e: AllocError) -> BaseFault {
        BaseFault::NoMemory
    }
}

impl<T: Drop> From<AllocFailed<T>> for BaseFault {
    ghost from_gives = { λ _ e. e ≡ NoMemory };

    fn from(_e: AllocFailed<T>) -> BaseFault {
        BaseFault::NoMemory
    }
}
