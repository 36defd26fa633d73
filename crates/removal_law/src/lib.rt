//! The law of removal: what is left of a program when all that is outside of a closed family of live sets is removed
//! (`specs/Left.antt`) shows the same. `specs/Agree.antt` says what two machines have to agree on to take equal steps,
//! `specs/Reach.antt` at what, and what the law asks of the program. This crate declares no types of its own. Its
//! functions have an empty body, and their contracts are the laws.
#![tactic(auto)]

pub mod laws;
