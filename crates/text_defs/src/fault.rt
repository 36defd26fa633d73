//! Why a text is no script.

ghost use Rattle.std.specs.Prelude.{◌≡◌};
ghost use Rattle.text_defs.specs.declared.fault.ScriptFault.TheVariants.{NoMemory};

use std::alloc::{AllocError, AllocFailed};
use thiserror::Error;

/// What is wrong with a script.
#[derive(Clone, Copy, PartialEq, Eq, Debug, Drop, Error)]
pub enum ScriptFault {
    /// Memory ran out.
    #[error("out of memory")]
    NoMemory,
    /// The first line outside the grammar, counted from 1.
    #[error("line {number}")]
    Line { number: u32 },
}

impl From<AllocError> for ScriptFault {
    ghost from_gives = { λ _ e. e ≡ NoMemory };

    fn from(_e: AllocError) -> ScriptFault {
        ScriptFault::NoMemory
    }
}

impl<T: Drop> From<AllocFailed<T>> for ScriptFault {
    ghost from_gives = { λ _ e. e ≡ NoMemory };

    fn from(_e: AllocFailed<T>) -> ScriptFault {
        ScriptFault::NoMemory
    }
}
