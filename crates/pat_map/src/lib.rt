//! A finite map from words to values, which shares what two maps have in common.
//!
//! [`PatMap`] is a big-endian Patricia tree over `Rc`: a branch stands at the highest bit in which its keys differ, so a
//! tree is at most 32 branches deep, and a map with one more key has as many new nodes as the way to the key. Its contract
//! is that of a finite map, and says nothing of the tree. A map of the values of a domain is itself a domain, where the
//! values are a [`MapValue`].
#![tactic(auto)]

mod maps;
mod nodes;
mod orders;
mod pours;

pub use maps::PatMap;
pub use pours::MapValue;
