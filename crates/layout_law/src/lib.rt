//! Laws of what lays out: bodies whose instructions get no longer and whose positions move nearer do still (layout_law), so does a
//! program with its numbers as written (layout_written), and a program that was read does (read_lays). It declares no types of its
//! own; its functions have an empty body, and their contracts are the laws.
#![tactic(auto)]

pub mod layout_law;
pub mod layout_written;
pub mod read_lays;
