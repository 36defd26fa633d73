//! Laws of runs: what an invariant has to keep, so that it holds in every state that a run reaches (invariant_law), and that a
//! typed program is never stuck, since the kinds of a typing are such an invariant (stuck_law). It declares no types of its own;
//! its functions have an empty body, and their contracts are the laws.
#![tactic(auto)]

pub mod examples;
pub mod invariant_law;
pub mod stuck_law;
