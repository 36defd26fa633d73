//! Laws of programs in which methods are made static, with their class in front of their parameters: what is asked of such methods
//! and what names find then (static_names), that the same is shown (static_law), that the program stays typed (static_types) and
//! keeps what a table of shut methods owes (static_shut); and the same by number, of tables in which entries of method names get
//! other protos (loosened_bridge, static_bridge). It declares no types of its own; its functions have an empty body, and their
//! contracts are the laws.
#![tactic(auto)]

pub mod examples;
pub mod loosened_bridge;
pub mod static_bridge;
pub mod static_law;
pub mod static_names;
pub mod static_shut;
pub mod static_types;
