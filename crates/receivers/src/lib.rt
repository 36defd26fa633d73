//! Which one method all receivers of a virtual or interface call find.
//!
//! A receiver finds a method where its class stands under the type that the call names, by the program's own lists: the first
//! virtual method of that name and proto along its class and the superclasses, else what the candidates of their interfaces
//! give (`class_defs`' `Finding`). [`Finder::found_by_all`] answers for objects of some classes, and [`Finder::found_under`]
//! for those of all classes under one. `specs/Receiving.antt` says what they answer, by number.
//!
//! Of a class that is no interface each class under it has it among its superclasses, unless the program lists classes as
//! interfaces. Then they all find what it finds, unless one of them defines such a method itself, and only the definers of that
//! name are looked at. Else the classes under it are gone over one by one.
#![tactic(auto)]

mod finding;
mod listed;
mod straight;

pub use finding::{Finder, Named};
