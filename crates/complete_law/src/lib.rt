//! What `run` says of faults and limits, from end to end: a run whose inputs have no fault is done, what a refused run tells stands in
//! what it fetched, and nothing is wrong with what a run has fetched that has a result. Laws alone, above `run` of redex_cli and what
//! refused_code, past_law and clean_files say of files. The functions of this crate have an empty body, and their contracts are the laws.
//!
//! `specs/Complete.antt` says when what a run has fetched is good, and how a run of good inputs ends, and `specs/Standing.antt` what
//! stands in what is refused, and in what is not.
#![tactic(auto)]

pub mod laws;
