//! What analysis and passes are judged by. `specs/` has the walks through a body, the kinds of registers and typings,
//! what a program and its rules keep live, the constants of a program, and what each pass looks for and writes;
//! docs/DEFINITIONS.md has a line for each definition. This crate declares no types of its own: all stands on the named
//! programs of `dalvik_defs`. Its functions have an empty body, and their contracts are examples and laws.
#![tactic(auto)]

pub mod examples;
pub mod kept_examples;
pub mod laws;
pub mod passes;
pub mod typed_examples;
