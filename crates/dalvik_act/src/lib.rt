//! What each form of an instruction does in one frame (Dalvik bytecode, "Summary of bytecode set"). Reads come before
//! writes, and a form that throws writes no register. [`act`] goes on in the frame where the form does no more, and
//! answers as an effect what concerns the stack, the program or the framework. Its functions take about four forms each.
#![tactic(auto, using(dalvik_state::proofs::Kept::leaves_same, dalvik_state::proofs::Kept::same, dalvik_state::proofs::Kept::same_world, dalvik_state::proofs::Kept::leaves_world, dalvik_state::proofs::Kept::goes_world))]

mod acting;
mod arrays;
mod going;
mod numbers;
mod plain;

pub use acting::act;
