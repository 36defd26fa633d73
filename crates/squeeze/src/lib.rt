//! Positions that do nothing are taken out of the bodies of admitted methods.
//!
//! What goes is what no walk from the entry comes to, nops, and gotos to the next position. Where the branch behind a run of
//! nops goes back into the run, its last position stays as a nop, so that no branch comes to go to itself. Everything else
//! stays, so no walk loses anything that it does. [`wishes`] says of a body what is to go (`specs/Skipping.antt`), and [`apply`]
//! takes it out of a program in place (`thin_pass`). Where nothing is counted, nothing of the three kinds is left in any body of
//! an admitted method, but the nops to which the branch behind them goes (`specs/Needed.antt`). That a squeezed program keeps
//! the rules, is typed and shows the same is the law of `squeeze_bridge`.
#![tactic(auto)]

mod program;
mod wishing;

pub use program::apply;
pub use wishing::wishes;
