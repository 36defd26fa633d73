//! What rounds of passes go down by: how much of a program passes leave, by members, registers and numbers (numbers_law), by what
//! may still be folded (open_law), by how far calls are from what they find (calls_law), by methods with a receiver
//! (receiver_counts), and by the Moves that what is read went through, along a path (copy_histories) and in all (moves_law). So
//! rounds end. It declares no types of its own; its functions have an empty body, and their contracts are the laws.
#![tactic(auto)]

pub mod calls_law;
pub mod copy_histories;
pub mod moves_law;
pub mod numbers_law;
pub mod open_law;
pub mod receiver_counts;
