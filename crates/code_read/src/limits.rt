//! The limits that a body can pass.

ghost use Rattle.std.specs.Prelude.{◌≡◌};
ghost use Rattle.code_read.specs.Fault.{passed};

use crate::fault::CodeFault;
use program_model::{Counted, LimitFault};

/// The fault of a passed limit. What is counted goes up one by one, so the number is the limit and 1.
pub(crate) fn passed(counted: Counted) -> CodeFault
    ensures { result ≡ passed counted }
{
    CodeFault::Limit(LimitFault {
        counted,
        number: counted.limit() + 1,
    })
}
