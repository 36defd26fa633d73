//! When a table of facts is closed (`specs/Closed.antt`), and what facts say of the states of a run, as an invariant
//! (`Invariant` of `invariant_law`): `specs/Covered.antt` that a closed table holds of a run, and `ValueAnalysis` how the
//! product domain is an analysis. (That the kinds of a
//! typing hold of a run is said by stuck_law.) This crate declares no types of its own, and has definitions alone.
#![tactic(auto)]

pub mod examples;
