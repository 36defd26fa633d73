//! The law of arrays: at each state of each run of a typed program, an instruction that comes next and makes an array
//! names an array type (`specs/Making.antt`). This crate declares no types of its own. Its functions have an empty body,
//! and their contracts are the laws.
#![tactic(auto)]

pub mod laws;
