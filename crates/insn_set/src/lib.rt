//! The instructions of Dalvik bytecode: every form, the registers that it reads and writes, where it can go on, and
//! how many units its shortest spelling has.
#![tactic(auto)]

mod copy;
mod flow;
mod form;
mod format;
mod ops;
mod registers;
mod spelling;
mod widths;

pub use form::Insn;
pub use format::Format;
pub use ops::{BinaryOp, CmpOp, InvokeKind, Item, LiteralOp, Slot, Test, UnaryOp};
