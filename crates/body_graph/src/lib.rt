//! The graph of the code of a method, and what is reached in it.
//!
//! Its nodes are the positions and, behind them, the regions. An edge leads from a position to each one to which a walk
//! goes from there without a throw, from a position that may throw to the region that covers it, and from a region to its
//! handlers. So there are no more edges than the body has positions, targets and handlers, however many positions share
//! a handler. [`rows`] gives them, [`covers_of`] the region of each position, and [`reached`] the positions to which some
//! walk from the entry comes. A walk is what `specs/Walks.antt` says (Dalvik bytecode, "Summary of bytecode set"; Dalvik
//! executable format, "try_item").
#![tactic(auto)]

mod cover;
mod edges;
mod walks;

pub use cover::covers_of;
pub use edges::rows;
pub use walks::reached;
