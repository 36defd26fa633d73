//! What holds by number holds by name: a well-formed program is, by names, what the laws of removal ask (removal_bridge) and what
//! the laws of typed runs ask (stuck_bridge), and walks over its instructions are walks over its forms (walk_bridge). It declares
//! no types of its own; its functions have an empty body, and their contracts are the laws.
#![tactic(auto)]

pub mod removal_bridge;
pub mod stuck_bridge;
pub mod walk_bridge;
