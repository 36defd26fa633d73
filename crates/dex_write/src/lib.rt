//! Writes a program as a DEX file: the tables of what it uses in their order, each item once in the order of its kind,
//! the map, the signature and the checksum.
//!
//! [`write_dex`] answers the bytes that `file_for` of `specs/Places.antt` gives for the program, the used entries in order,
//! and the classes in the order of `specs/Order.antt`, each with its members and code as `specs/Plans.antt` and
//! `specs/Codes.antt` say. Type lists that are equal are written once; no other item is shared.
#![tactic(auto)]

mod class_order;
mod classes;
mod codes;
mod file;
mod lists;
mod marks;
mod numbers;
mod ordered;
mod run;
mod sets;
mod strings;
mod tables;
mod texts;
mod writer;

pub use writer::write_dex;
