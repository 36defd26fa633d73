//! The written program of a well-formed one, in which entries have new numbers, is kept: it is well-formed (written_formed), and it
//! shows the same and stays typed (written_shown). It declares no types of its own; its functions have an empty body, and their
//! contracts are the laws.
#![tactic(auto)]

pub mod written_formed;
pub mod written_shown;
