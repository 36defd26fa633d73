//! A fault that is answered stands in the file, also one of code: laws alone, above those of all else that is read.
//! `specs/` says when a file has none, and what is answered then.
#![tactic(auto)]

pub mod laws;
