//! Programs lay out still behind passes: behind each one that rewrites or thins bodies (layout_bridge), and behind each step of the
//! rounds, with calls inlined before them and without silent calls (layout_steps). It declares no types of its own; its functions
//! have an empty body, and their contracts are the laws.
#![tactic(auto)]

pub mod layout_bridge;
pub mod layout_steps;
