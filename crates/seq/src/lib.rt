//! Lists that contracts see as plain lists.
//!
//! [`Seq`] is a `Vec` whose value in a contract is the list of its items, so that `≡` on a type that is made of
//! `Seq`s is equality of lists, however deep they are nested. [`Words`] is the same for the few registers of a
//! call, which stand in place up to five. [`Exact`] says of a type that a clone equals its source.
#![tactic(auto)]

mod exact;
mod list;
mod words;

pub use exact::Exact;
pub use list::Seq;
pub use words::Words;

#[cfg(test)]
mod tests;
