//! Facts about truth values, options, lists and numbers that the proofs of many crates need and that the standard library
//! doesn't state. This crate has proofs alone: `proofs/Bools.antt`, `Options`, `Lists` and `Numbers`.
#![tactic(auto)]
