//! The passes over a program: each live method with code is asked about, silent calls become nops in those that may be
//! rewritten, calls of small methods are inlined where that is wished, and then rounds of passes run until one changes
//! nothing.
#![tactic(auto)]

mod asks;
mod counts;
mod graph;
mod inlined;
mod marks;
mod passes;
mod prints;
mod rounds;
mod silent;
mod texts;
mod traces;

pub use counts::{count_instructions, count_members};
pub use rounds::{Outcome, optimise, optimise_inlined};
pub use silent::silence;
pub use texts::proto_text;
