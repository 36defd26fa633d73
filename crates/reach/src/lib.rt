//! The removal of what nothing reaches, and the closing of what the framework may reach.
//!
//! [`apply`] takes the classes and members that aren't live out of a program, in place: what is left is the program with
//! just those lists filtered, and the count is 0 exactly where it is the same program. [`close`] answers an outside
//! without conditions.
#![tactic(auto)]

mod closing;
mod remove;

pub use closing::close;
pub use remove::apply;
