//! A limit that is answered is passed: laws alone, above those of faults. Of each quantity that a file counts one thing more
//! than the limit stands in the bytes, each told apart from all others by the numbers that name it.
//! `specs/` says what a list of such things is.
#![tactic(auto)]

pub mod laws;
