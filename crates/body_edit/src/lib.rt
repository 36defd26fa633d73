//! Bodies from which positions are removed, in place.
//!
//! A [`Fate`] says of a position whether it stays, becomes a nop or goes. [`thin`] makes it so: all other positions move up,
//! and targets, regions and handlers follow. [`keep_left`] does the same to a list with an entry for each position, as the
//! source lines, and [`origins`] says where each position that is left comes from. Each is linear in the body.
//!
//! `spans` has the small steps of moving by a table, as bodies are spliced ([`place_in`], [`move_span`], [`copied_line`]). They
//! stand here so that an edit of one is tried over a short proof.
#![tactic(auto)]

mod fate;
mod keeping;
mod places;
mod spans;
mod targets;
mod thinning;
mod traces;

pub use fate::Fate;
pub use keeping::keep_left;
pub use places::{Places, places_of};
pub use spans::{copied_line, move_span, place_in};
pub use thinning::thin;
pub use traces::origins;
