//! Laws of calls that name other methods: a program shows the same where each call names what it finds (rebind_law), and what facts
//! or kinds know of receivers says what that is (receiver_law). It declares no types of its own; its functions have an empty body,
//! and their contracts are the laws.
#![tactic(auto)]

pub mod rebind_law;
pub mod receiver_law;
