//! A pass that takes positions out of the admitted bodies of a program, in place.
//!
//! A pass says which positions of a body it wishes to go, and which to become nops ([`Thinning`]). [`fates_where`] gives the
//! fates under which these do and no branch comes to lead to itself, and [`thin_program`] thins each admitted body by them
//! (`body_edit`); lines and origins follow. All is linear in the number of positions, targets and handlers.
//! `specs/Wishing.antt` says what fates come of the wishes, and `specs/Plans.antt` what becomes of the program. Where nothing
//! is counted the program is the same, and else it weighs less (`specs/Weights.antt`).
#![tactic(auto)]

mod fates;
mod method;
mod notes;
mod program;

pub use fates::fates_where;
pub use program::{Thinning, thin_program};
