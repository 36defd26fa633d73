//! The numbers of a program are values of their types.
//!
//! A number behind a reference is known to fit its type once it is read, so [`read_numbers`] reads each one and answers
//! nothing. Its contract is what laws about the writer ask of numbers, which are plain ones there. This crate declares no
//! types of its own.
#![tactic(auto)]

mod code;
mod read;
mod values;

pub use read::read_numbers;
