//! Laws of facts: a closed table of facts holds of every run, for any analysis of values that is sound (cover_law), and the product
//! domain is one (value_law). It declares no types of its own; its functions have an empty body, and their contracts are the laws.
#![tactic(auto)]

pub mod cover_law;
pub mod value_law;
