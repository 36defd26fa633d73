//! Facts that say nothing, for where an analysis has nothing better to say.
//!
//! By the facts of [`vague`] a run may come to each position of each body with anything in its registers, and parameters,
//! results and fields may be anything. They are closed, as `closed_facts` says, where all is live: [`all_live`] makes such
//! marks of others. `proofs/Closing.antt` shows it of each well-formed program (`vague_closed`), and that marks by which all
//! is live are closed (`whole_closed`).
#![tactic(auto)]

mod counts;
mod frames;
mod live;

pub use frames::vague;
pub use live::all_live;
