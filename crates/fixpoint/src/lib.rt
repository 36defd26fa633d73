//! The least table of a flow, or one that is at or above it.
//!
//! A [`Flow`] has nodes and edges. Each node begins in a state, and each edge makes of the state of its source what it
//! brings to its target. A solver answers a table with a state for each node that is at or above the node's entry and
//! above what every edge into the node brings. [`solve`] visits nodes by a plain worklist, [`solve_along`] along an
//! order in which the parts that are loops are nested.
#![tactic(auto)]

mod agenda;
mod along;
mod flows;
mod rising;
mod worklist;

pub use along::solve_along;
pub use flows::{Flow, Solution};
pub use worklist::solve;
