//! Constant propagation: an instruction whose result is known becomes a constant, and a branch whose outcome is known a goto
//! or a nop.
//!
//! Facts of the whole program say what each register can be at each position ([`facts::Facts`]). An instruction that does
//! nothing but write a register becomes the constant of the number that it writes, where that is one number alone and the
//! constant is encodable and no longer; a division is such an instruction where its divisor is known other than 0, and a get
//! of a static field where initialising the field's class runs no code (Dalvik bytecode, "Summary of bytecode set"). A
//! conditional branch or a switch becomes a goto to the only position at which it goes on, or a nop where that is the next
//! one. Where no run comes, 0 and the next position are as good as any.
//!
//! The meaning stays, since in each run the new form does what the old one did. The kinds of registers stay or become
//! narrower: among references a constant is null, of a wide value it is wide, and an object that no constructor was called on
//! stays what it is.
//!
//! [`apply`] ensures which forms become which others, and that all else stays (`specs/Folded.antt`); that just those positions
//! change, and become just that, which the facts and the typing of a method allow, and that none of these is left where
//! nothing changed (`specs/Folds.antt`, over `Known`, `Given` and `Kinds`); and that fewer instructions are left other than
//! constants, gotos and nops where something did (`specs/Measure.antt`). Whether the facts are right is not said here.
#![tactic(auto)]

mod asking;
mod choices;
mod defaults;
mod folding;
mod kinds;
mod numbers;
mod results;

pub use choices::Way;
pub use folding::apply;
pub use numbers::Number;
