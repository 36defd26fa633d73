//! Why a body is ill typed.

ghost use Rattle.std.specs.Prelude.{◌≡◌};
ghost use Rattle.verify.specs.declared.fault.TypeFault.TheVariants.{NoMemory};

use std::alloc::{AllocError, AllocFailed};
use thiserror::Error;

/// What is wrong with the code of a method.
#[derive(Debug, PartialEq, Eq, Drop, Error)]
pub enum TypeFault {
    /// Memory ran out.
    #[error("out of memory")]
    NoMemory,
    /// No typing of the method exists. `method` is a method number, `position` the first position at which the least
    /// flow breaks, and `register` the lowest register whose read isn't allowed there, or 0 where the position is wrong
    /// whatever the registers hold.
    #[error("method {method} is ill typed at {position}, register {register}")]
    IllTyped {
        method: u32,
        position: u32,
        register: u32,
    },
}

impl From<AllocError> for TypeFault {
    ghost from_gives = { λ _ e. e ≡ NoMemory };

    fn from(_e: AllocError) -> TypeFault {
        TypeFault::NoMemory
    }
}

impl<T: Drop> From<AllocFailed<T>> for TypeFault {
    ghost from_gives = { λ _ e. e ≡ NoMemory };

    fn from(_e: AllocFailed<T>) -> TypeFault {
        TypeFault::NoMemory
    }
}
