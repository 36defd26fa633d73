//! The verifier's answers by names: what it says by numbers is what `pass_defs` says of the named program. The functions
//! of this crate have an empty body, and their contracts are the laws.
//!
//! A kind by numbers has a kind by names (`specs/Views.antt`). The laws say that this is so for the kinds of types, that
//! the order of kinds is kept, that kinds which stand for one name alone (`specs/Numbered.antt`) join and lie below one
//! another by names as by numbers, that a program of whose methods the verifier has typings is typed by names, that a
//! method which the verifier finds ill typed has no typing by names, so that a program with such a method is not typed,
//! that the verifier's typing of a method is by names the least one, and that the place at which it finds a method ill typed
//! is one at which the least flow by names breaks.
#![tactic(auto)]

pub mod laws;
