//! Checks that a table of facts is closed, as `closed_facts` says, and fills in its frames on the way.
//!
//! [`fill`] goes once over the positions of each body whose frames are known where its blocks begin. It steps from one
//! position to the next, and compares what comes to the beginning of a block with what is known there. So the frames
//! inside a block need no comparison. [`Known`] has all that is known beside the frames, with a pool for each number
//! of virtual or interface calls: what such calls pass, and what they give. A call is compared with its pool, and the pool
//! with each method that the call may enter, so that no call is compared with each of its targets.
//!
//! A check that fails says nothing of the program: the facts are too low then, and nobody may use them.
#![tactic(auto)]

mod body;
mod calls;
mod classes;
mod entries;
mod fields;
mod jumps;
mod known;
mod looks;
mod methods;
mod order;
mod positions;
mod results;
mod starts;

pub use known::{Known, Marks, Pools};
pub use methods::{fill, holds};
pub use starts::Start;
