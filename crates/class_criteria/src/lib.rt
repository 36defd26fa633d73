//! The tests by which passes choose, on classes.
//!
//! Each is one sentence of a definition: whether a class defines a method itself in place of the one that its receivers would
//! find ([`overrides`]), and whether initialising a class runs no code ([`starts_quietly`]). They stand here, and not in the
//! crates that ask them, so that an edit of one is tried over a short proof: each answers exactly what the definition says.
#![tactic(auto)]

mod overriding;
mod starting;

pub use overriding::overrides;
pub use starting::starts_quietly;
