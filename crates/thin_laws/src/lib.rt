//! Laws of programs with thinned bodies, from which positions go: they show the same (thin_law), keep the rules of bodies
//! (thin_rules) and stay typed (thin_types); and so do programs without calls that do nothing (quiet_law). What stays well-formed
//! with other bodies is said of any (formed_law), and of bodies that are rewritten in place (place_rules). It declares no types of
//! its own; its functions have an empty body, and their contracts are the laws.
#![tactic(auto)]

pub mod examples;
pub mod formed_law;
pub mod place_rules;
pub mod quiet_law;
pub mod thin_law;
pub mod thin_rules;
pub mod thin_types;
