//! Which registers are live before each position: those that some walk from there reads before it writes them.
//!
//! Where a body has no more than 64 registers, [`live`] keeps for each position a word with a bit for each register, and
//! sweeps over the positions, from the last one to the first, until no word changes. Where that takes many sweeps, or there
//! are more registers, it looks at one register after the other: it marks backwards from the positions that read the
//! register, along the edges of the body's graph (`body_graph`), and stops where the register is written; where a position
//! throws into a handler it has written nothing. So its work is that of the marks that are set and of the edges into them,
//! and a register that nothing reads takes no memory. Where the words are at hand, a caller can take what is live before a
//! position at once (`Live::word`).
#![tactic(auto)]

mod gate;
mod readers;
mod sight;
mod sweeps;
mod table;
mod words;

pub use sight::live;
pub use table::Live;
pub use words::{has, write_word};
