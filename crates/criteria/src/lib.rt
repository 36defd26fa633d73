//! The tests by which passes choose, on numbers and forms alone.
//!
//! Each is one sentence of a pass's definition: whether a method may be rewritten or is live ([`is_admitted`], [`is_live`]),
//! whether a form does nothing but write a register ([`is_pure`]), and whether a copy is kept to a position ([`is_kept`]).
//! They stand here, and not in their passes, so that an edit of one is tried over a proof of seconds: each answers exactly
//! what the pass's own definition says.
#![tactic(auto)]

mod marks;
mod pure;

pub use marks::{is_admitted, is_kept, is_live, is_on};
pub use pure::is_pure;
