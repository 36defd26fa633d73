//! Line tables: which line of the source each position of a method has, as a debug item of the file says it.
//!
//! [`read_lines`] gives exactly what the definition of a debug item in `specs/Item.antt` gives, and [`write_lines`] adds
//! exactly the text of `specs/Text.antt`; the laws of `laws` say that what was written is read again.
#![tactic(auto)]

mod laws;
mod opcode;
mod read;
mod write;

pub use read::{LinesRead, read_lines};
pub use write::write_lines;
