//! A pass that writes instructions over others in the admitted bodies of a program, position by position.
//!
//! A pass says which instructions of a body it writes and where ([`Rewriting`]). [`plan_program`] asks it about each admitted
//! body while the program stands as it is, so that a pass may look at all of it, and [`write_plan`] then writes in place. No
//! position moves, so targets, regions and lines stay. All is linear in the number of methods and of what is written.
//! `specs/Plans.antt` says what a plan has and what becomes of the program.
#![tactic(auto)]

mod edit;
mod plan;
mod write;

pub use edit::Edit;
pub use plan::{Rewriting, plan_program};
pub use write::write_plan;
