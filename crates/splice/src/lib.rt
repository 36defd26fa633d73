//! The body of a caller with the bodies of methods in place of some of its calls.
//!
//! A [`Plan`] says which method is copied at which position of a caller, and [`Plan::spliced`] gives the new body. In place of
//! a call stand a move for each argument and a copy of the method's instructions, in registers of their own below the caller's,
//! with a goto behind the call in place of each return, and a move before it where a move-result takes the result, which goes.
//! All registers of the caller are as many higher as the method with the most registers has. Targets and regions follow, and
//! each new instruction has a line and an origin. `specs/Pieces.antt` says what the new body is, and each function here what
//! part of it it gives. All is linear in the caller and the copies.
#![tactic(auto)]

mod callee;
mod copying;
mod moves;
mod pieces;
mod places;
mod spliced;

pub use callee::{Callee, taken_behind};
pub use spliced::{Plan, Spliced};
