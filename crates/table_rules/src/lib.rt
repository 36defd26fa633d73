//! What a well-formed program has to be depends on its tables and on each class for itself. This crate declares no types of
//! its own. Its function has an empty body, and its contract is the law.
#![tactic(auto)]

pub mod laws;
