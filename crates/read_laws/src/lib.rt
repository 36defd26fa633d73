//! What is read of a file is well-formed: laws of the readers' functions on bytes (dex_read, code_read, dex_pools) and the
//! rules of program_model. [`programs::well_formed_law`] says it of the whole program, and
//! [`programs::reads_well_formed`] of bytes in memory; each other law says one of the rules of what is read. This crate
//! declares no types of its own. Its functions do nothing, and their contracts are the laws.
#![tactic(auto)]

pub mod bodies;
pub mod cells;
pub mod members;
pub mod programs;
pub mod tables;
