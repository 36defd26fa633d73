//! The classes of a program by their type: which class is under which, which member a name resolves to, what a call
//! finds, and what overrides what.
//!
//! [`Hierarchy::build`] goes over a program once and makes tables; it refuses a program with a class that is defined
//! twice, a class that is its own ancestor or a split override. Every query is safe and ends, whatever numbers and
//! whatever program it is asked about: what a table doesn't hold has the answer none.
//!
//! A class is named by its place in `classes`, a method's name and proto by a number of their own, the key.
#![tactic(auto)]

mod build;
mod components;
mod cycle;
mod fault;
mod find;
mod keys;
mod links;
mod members;
mod names;
mod order;
mod queries;
mod quiet;
mod ranges;
mod resolve;
mod split;
mod table;
mod tour;
mod walk;

pub use build::Hierarchy;
pub use fault::HierarchyFault;
pub use find::Given;
pub use walk::Walk;
