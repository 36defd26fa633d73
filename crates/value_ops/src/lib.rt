//! What instructions make of values.
//!
//! A value of `domains` says what a register may hold. The operations here say what is known of the answer where the
//! operands are known so far: known numbers are computed exactly, as the machine does, sums, differences and masks of
//! words keep a range, and all else is any number. A test, a switch or a use of an object narrows its operands. Where
//! nothing goes on, as behind a division by what is surely 0, a test that can't pass or a use of null, the answer is
//! none.
//!
//! Each contract says that its function answers exactly what the definition in `specs/` gives. An operation on words is
//! asked of registers that hold words, as the types of a program make sure; so what an operand may be besides, a wide
//! number or an object, isn't looked at.
#![tactic(auto)]

mod laws;
mod left;
mod made;
mod numbers;
mod ranges;
mod switches;
mod tests_of;
mod unaries;

pub use laws::{answers_hold, others_hold, switches_keep, tests_keep, uses_keep};
pub use left::{held, null, settled};
pub use made::{any_number, any_object, of_class, words_between};
pub use numbers::{binary, literal};
pub use switches::{keyed, unkeyed, unpacked};
pub use tests_of::refine;
pub use unaries::{compare, stored, unary};
