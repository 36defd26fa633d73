//! The places of the classes that define types, as a table by type number.
//!
//! `dom_frame` asks for such a table at each new object and each cast. [`places_of`] makes it of a hierarchy, and
//! [`classes_of`] says that with it the hierarchy's classes are those of the program (`specs/Known.antt`).
#![tactic(auto)]

mod known;
mod numbers;

pub use known::{classes_of, places_of};
pub use numbers::{NONE, word};
