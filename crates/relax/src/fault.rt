//! Why a body has no layout.

ghost use Rattle.std.specs.Prelude.{◌≡◌};
ghost use Rattle.relax.specs.declared.fault.LayFault.TheVariants.{NoMemory};

use std::alloc::{AllocError, AllocFailed};
use thiserror::Error;

/// Why a body could not be laid out.
#[derive(Debug, Drop, PartialEq, Eq, Error)]
pub enum LayFault {
    /// Memory ran out.
    #[error("out of memory")]
    NoMemory,
    /// The conditional branch at this position goes more than 32,767 units forwards or 32,768 backwards.
    #[error("the branch at position {position} goes too far")]
    FarBranch { position: u32 },
}

impl From<AllocError> for LayFault {
    ghost from_gives = { λ _ e. e ≡ NoMemory };

    fn from(_e: AllocError) -> LayFault {
        LayFault::NoMemory
    }
}

impl<T: Drop> From<AllocFailed<T>> for LayFault {
    ghost from_gives = { λ _ e. e ≡ NoMemory };

    fn from(_e: AllocFailed<T>) -> LayFault {
        LayFault::NoMemory
    }
}
