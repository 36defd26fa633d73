//! The code of a method, from its units: which units begin instructions, what each instruction is, and the regions
//! with their handlers.
//!
//! What is read is a body whose registers, table numbers, targets, regions and handlers are in range, and whose last
//! instruction does not continue. The formats, the fields and the forms of the opcodes are exactly those of `specs/`.
#![tactic(auto)]

mod checks;
mod decode;
mod fault;
mod fields;
mod forms;
mod handlers;
mod laws;
mod limits;
mod marks;
mod opcodes;
mod order;
mod payload;
mod places;
mod positions;
mod read;
mod regions;
mod sizes;
mod sweep;
mod try_items;

pub use fault::CodeFault;
pub use fields::{Fields, fields_of};
pub use forms::plain_of;
pub use laws::marks_law;
pub use opcodes::format_of;
pub use read::{read_body, read_code};
pub use sizes::Sizes;
