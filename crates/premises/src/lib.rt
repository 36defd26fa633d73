//! What the law of coverage asks of a program beside a closed table of facts, asked of the program itself:
//! [`numbers_have_bits`], that its numbers have the bits of their types, which is so in every program,
//! [`makers_are_own`], that kept constructors are those of their classes, and [`lists_plainly`], that lists of interfaces
//! name interfaces alone. `specs/Numbers.antt`, `specs/Makers.antt` and `specs/Plain.antt` say so by number. Each goes
//! once over what it asks about and takes no memory.
#![tactic(auto)]

mod makers;
mod numbers;
mod plain;

pub use makers::makers_are_own;
pub use numbers::numbers_have_bits;
pub use plain::lists_plainly;
