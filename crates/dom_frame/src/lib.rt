//! The values of a method's registers, and what each instruction makes of them.
//!
//! Registers are kept in a [`PatMap`](pat_map::PatMap), so that frames before and behind an instruction share all values
//! but those that it changes. [`step`] answers the registers behind an instruction, and none where nothing goes on: behind
//! a use of what is surely null, a division by what is surely 0, a return or a throw. [`branch`], [`switch_at`] and
//! [`switch_past`] answer what the way that a branch goes says of its operands, and none where it can't go so. [`Frame`]
//! is the registers as an environment, of which an empty one stands for what isn't reached.
//!
//! Each contract says that its function answers exactly what the definitions in `specs/` give, form by form. Those
//! definitions name, by number, what the law of coverage asks of an analysis.
#![tactic(auto)]

mod branches;
mod classes;
mod frames;
mod laws;
mod registers;
mod steps;
mod uses;

pub use branches::{branch, switch_at, switch_past};
pub use classes::Classes;
pub use frames::{Frame, after, after_throw, refine_branch};
pub use laws::registers_are_values;
pub use steps::step;
