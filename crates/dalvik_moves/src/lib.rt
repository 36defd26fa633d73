//! The moves of the framework: what it does when its frame is on top of the stack.
//!
//! It answers the innermost open call or read, enters methods, makes objects, and touches fields and arrays. A move that
//! isn't legal, or the want of one, ends the run. Where there is no memory for a move, nothing has happened.
#![tactic(auto)]

mod answering;
mod entering;
mod finishing;
mod framework;
mod touching;

pub use framework::moves;
