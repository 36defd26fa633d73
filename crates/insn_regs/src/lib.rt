//! The registers of instructions: which ones stand for which, and how wide they are.
#![tactic(auto)]

mod renaming;
mod wides;

pub use renaming::{Renaming, operands, rename_reads, rename_writes};
pub use wides::{reads_as, wides_read, widths_of};
