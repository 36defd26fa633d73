//! What the texts of scripts and events mean. `specs/` has the grammar of scripts, with the play that a text spells or
//! the first line outside it, and the lines of events; docs/DEFINITIONS.md has a line for each definition. This crate
//! declares the types that the definitions share with code. Its functions have an empty body, and their contracts are
//! examples.
#![tactic(auto)]

pub mod examples;
mod fault;
mod play;

pub use fault::ScriptFault;
pub use play::{Play, ScriptLine};
