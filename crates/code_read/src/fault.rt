//! Why a body could not be read.

ghost use Rattle.std.specs.Prelude.{◌≡◌};
ghost use Rattle.code_read.specs.declared.fault.CodeFault.TheVariants.{NoMemory};

use program_model::LimitFault;
use std::alloc::{AllocError, AllocFailed};
use thiserror::Error;

/// What is wrong with the code of a method. `unit` is an index into its units, the first of the instruction or
/// payload; `place` is an index into its try items.
#[derive(Debug, Drop, Error)]
pub enum CodeFault {
    /// Memory ran out.
    #[error("out of memory")]
    NoMemory,
    /// No instruction has the opcode of the unit.
    #[error("no instruction has the opcode at {unit}")]
    Opcode { unit: u32 },
    /// The instruction or payload that begins at the unit passes the end.
    #[error("what begins at {unit} passes the end")]
    Cut { unit: u32 },
    /// The branch at the unit goes to no position, or to itself where it may not.
    #[error("the branch at {unit} goes to no position")]
    Target { unit: u32 },
    /// The payload that the instruction at the unit names is missing, of another kind, at an odd unit, has another
    /// item width than 1, 2, 4 and 8, or has keys that do not ascend.
    #[error("the instruction at {unit} has no right payload")]
    Payload { unit: u32 },
    /// A register or a pool number of the instruction is out of range, or it counts too many registers.
    #[error("an operand of the instruction at {unit} is out of range")]
    Operand { unit: u32 },
    /// The region begins at no instruction, ends past the units, or is not behind the one before it.
    #[error("the region {place} does not lie right")]
    Region { place: u32 },
    /// The region's handler list is not there, or not whole, or it has a type or an address out of range.
    #[error("the region {place} has no right handlers")]
    Handler { place: u32 },
    /// The instruction at the unit continues, and no instruction follows it.
    #[error("the instruction at {unit} continues into none")]
    FallsOff { unit: u32 },
    /// A move-result or a move-exception stands where it may not.
    #[error("the instruction at {unit} may not stand there")]
    Misplaced { unit: u32 },
    /// There are more handlers or table entries than a file may have.
    #[error("a limit is passed")]
    Limit(LimitFault),
}

impl From<AllocError> for CodeFault {
    ghost from_gives = { λ _ e. e ≡ NoMemory };

    fn from(_e: AllocError) -> CodeFault {
        CodeFault::NoMemory
    }
}

impl<T: Drop> From<AllocFailed<T>> for CodeFault {
    ghost from_gives = { λ _ e. e ≡ NoMemory };

    fn from(_e: AllocFailed<T>) -> CodeFault {
        CodeFault::NoMemory
    }
}
