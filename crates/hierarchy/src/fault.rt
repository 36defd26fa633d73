//! Why the classes of a program make no hierarchy.

ghost use Rattle.std.specs.Prelude.{◌≡◌};
ghost use Rattle.hierarchy.specs.declared.fault.HierarchyFault.TheVariants.{NoMemory};

use std::alloc::{AllocError, AllocFailed};
use thiserror::Error;

/// What is wrong with the classes of a program. `class` is a place in `classes`, `method` a method number.
#[derive(Debug, PartialEq, Eq, Drop, Error)]
pub enum HierarchyFault {
    /// Memory ran out.
    #[error("out of memory")]
    NoMemory,
    /// The first class in file order that is its own ancestor.
    #[error("class {class} is its own ancestor")]
    Cycle { class: u32 },
    /// The first class in file order that has the descriptor of an earlier one.
    #[error("class {class} is defined before")]
    Twice { class: u32 },
    /// The first virtual method, in class and method order, that repeats the name and proto of a package-private
    /// virtual method of a superclass in another package.
    #[error("method {method} of class {class} repeats a package-private method of another package")]
    SplitOverride { class: u32, method: u32 },
}

impl From<AllocError> for HierarchyFault {
    ghost from_gives = { λ _ e. e ≡ NoMemory };

    fn from(_e: AllocError) -> HierarchyFault {
        HierarchyFault::NoMemory
    }
}

impl<T: Drop> From<AllocFailed<T>> for HierarchyFault {
    ghost from_gives = { λ _ e. e ≡ NoMemory };

    fn from(_e: AllocFailed<T>) -> HierarchyFault {
        HierarchyFault::NoMemory
    }
}
