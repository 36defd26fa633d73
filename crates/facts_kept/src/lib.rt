//! What facts by number say holds by name: a table that is closed by number is closed by names (closed_bridge), and a well-formed
//! and typed program has what the law of coverage asks beside it (tabled_law). So what folding by certified facts leaves is kept
//! (fold_bridge, fold_kept). It declares no types of its own; its functions have an empty body, and their contracts are the laws.
#![tactic(auto)]

pub mod closed_bridge;
pub mod fold_bridge;
pub mod fold_kept;
pub mod tabled_law;
