//! What a DEX file is. `specs/` says which program the bytes of a file spell, when a file is valid, which fault stands
//! in it, and what a program has to be that a file can spell; docs/DEFINITIONS.md has a line for each definition. The
//! functions of this crate have an empty body, and their contracts are examples.
#![tactic(auto)]

pub mod examples;
