//! The programs of the workload: N classes, each with a static method that nothing calls and one that adds two
//! constants and calls that of the next class. [`generate`] answers the program of one N.
#![tactic(auto)]

mod bodies;
mod names;

pub use bodies::generate;
