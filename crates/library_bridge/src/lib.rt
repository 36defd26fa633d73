//! The list of shut methods by number: for a well-formed program it is that of the definition of shut methods by names, for
//! the named program and the library's types (`specs/Libraries.antt`). The functions of this crate have an empty body, and
//! their contracts are laws.
#![tactic(auto)]

mod laws;

pub use laws::narrowed_by_number_law;
