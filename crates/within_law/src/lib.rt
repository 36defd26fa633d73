//! A file that is read passes no limit: laws alone, above those of passed limits, whose converse this is. What a file has of a
//! quantity, told apart by the numbers that name it, is no more than what the reader counted there.
#![tactic(auto)]

pub mod laws;
