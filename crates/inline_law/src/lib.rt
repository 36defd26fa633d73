//! The law of inlining: a program in which copies of called bodies stand at calls shows the same (inline_law), and the copies are
//! what it asks of them (callee_law). It declares no types of its own; its functions have an empty body, and their contracts are
//! the laws.
#![tactic(auto)]

pub mod callee_law;
pub mod examples;
pub mod inline_law;
