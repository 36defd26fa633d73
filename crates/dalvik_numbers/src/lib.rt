//! What operations on numbers answer (Dalvik bytecode, "Summary of bytecode set"): arithmetic on int and long, which
//! wraps, comparisons and tests, conversions, what a small item keeps of a word, and the table that answers operations
//! on floats. Contracts say that each call answers what the definitions of `dalvik_defs` give.
#![tactic(auto, using(crate::proofs::Signs::signed_word, crate::proofs::Signs::signed_wide))]

mod arith;
mod floats;
mod operators;
mod tests_of;
mod words;

pub use arith::{Arith, on_wides, on_words};
pub use floats::FloatTable;
pub use operators::{Number, Sort, binary, compare, literal, sort_of, unary};
pub use tests_of::{is_before, is_not_behind};
pub use words::{cut_byte, cut_char, cut_short};
