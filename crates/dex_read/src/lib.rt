//! Reads a DEX file: the header, the tables, the classes with their members, values and annotations, and the bodies.
//!
//! [`read_dex`] answers the program that the bytes spell, or a fault that stands in them, or the limit that they pass.
#![tactic(auto)]

mod below;
mod class_data;
mod class_defs;
mod code;
mod directory;
mod fault;
mod first_values;
mod header;
mod members;
mod reader;
mod standing;

pub use fault::DexFault;
pub use reader::read_dex;
