//! What the words behind the program's name spell: a command with its operands and options, or none.
//!
//! [`read_words`] answers a command exactly where the words spell it, by the definition `Spells` of
//! `specs/Spelling.antt`, and so there is at most one. The crate opens no file and says nothing: [`USAGE`] is the
//! text for words that spell no command.
#![tactic(auto)]

mod asked;
mod command;
mod number;
mod parse;
mod sorted;
mod told;
mod verb;
mod word;

pub use command::{CommandWords, OptimiseWords, Tell, read_words};
pub use word::Word;

/// The usage text: five lines, each with a newline.
pub const USAGE: &str =
    "usage: redex optimise RULES IN OUT [--spare PREFIX].. [--at-most N] [--inline] [--library FILE]
       redex check IN
       redex live RULES IN [--library FILE]
       redex trace RULES IN SCRIPT STEPS [--library FILE]
       redex workload N
";
