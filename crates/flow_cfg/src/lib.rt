//! How control flows: the edges and blocks of a body, and orders in which a solver visits a graph.
//!
//! [`successors`] says where a walk through the code goes in one step, and [`blocks`] where its blocks begin (Dalvik
//! bytecode, "Summary of bytecode set"; Dalvik executable format, "try_item"). [`weak_order`] lists the nodes of a graph
//! in a weak topological order (F. Bourdoncle, "Efficient chaotic iteration strategies with widenings", 1993).
#![tactic(auto)]

mod ends;
mod firsts;
mod listing;
mod starts;
mod visit;
mod walks;
mod weak;

pub use firsts::Blocks;
pub use starts::blocks;
pub use walks::successors;
pub use weak::{Part, weak_order};
