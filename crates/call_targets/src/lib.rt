//! What the calls of a program may find on the objects that a run can make, and what the framework may enter.
//!
//! A virtual or interface call is named by a method number: all calls that name the same method in the same way may find
//! the same. [`targets`] goes over the made classes once, and over the types above each of them, and notes for each
//! call on such a type what the class finds. [`bound_target`] answers what a static, direct or super call finds.
//!
//! What a call finds by its name is stated in `specs/Bound.antt`, and just what calls on objects find, which may leave, and
//! what the framework may enter and need, in `specs/Targeted.antt`. What each function adds to an answer is a list of notes
//! (`Adds` of `specs/Adding.antt`), and `proofs/Ending.antt` shows that the notes of all made classes are just these.
#![tactic(auto)]

mod above;
mod bound;
mod entered;
mod kept;
mod leaving;
mod looks;
mod made;
mod marks;
mod named;
mod table;

pub use bound::{Target, bound_target};
pub use made::targets;
pub use table::{Link, Targets, call_number};
