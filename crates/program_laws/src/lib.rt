//! Laws of programs that differ in one respect: in bodies (bodies_law), in silent calls (silence_law), in the methods of a class or
//! their order (remade_law), in the names of methods (rename_law), and in what a table of shut methods says (shut_law, outer_law,
//! alike_law). Beneath them stand the laws of frames that hold the same where forms read (frame_laws), and of the order of kinds
//! (kind_law). It declares no types of its own; its functions have an empty body, and their contracts are the laws.
#![tactic(auto)]

pub mod alike_law;
pub mod bodies_law;
pub mod frame_laws;
pub mod kind_law;
pub mod outer_law;
pub mod remade_law;
pub mod rename_law;
pub mod shut_law;
pub mod silence_law;
