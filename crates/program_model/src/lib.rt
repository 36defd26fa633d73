//! A program as a DEX file spells it: the tables of strings, types, protos, fields and methods, and the classes with
//! their members, values and bodies, each naming the others by number. Contracts see a program as nested lists, and a
//! clone equals its source. `well_formed` says whether a file can spell a program, which `specs/ProgramRules.antt`
//! defines from one module for each part: tables, values, operands, regions, bodies, lines, members, interfaces and items.
#![tactic(auto)]

mod body;
mod body_rules;
mod cells;
mod distinct;
mod flags;
mod interface_rules;
mod items;
mod limits;
mod line_rules;
mod lookups;
mod member_rules;
mod operand_rules;
mod pass;
mod pools;
mod program;
mod program_rules;
mod region_rules;
mod table_rules;
mod texts;
mod value;
mod value_copy;
mod value_rules;

pub use body::{Body, Handler, Region};
pub use cells::{count_body_cells, count_cells};
pub use flags::Flags;
pub use insn_set::{BinaryOp, CmpOp, Insn, InvokeKind, Item, LiteralOp, Slot, Test, UnaryOp};
pub use limits::{Counted, LimitFault};
pub use lookups::{class_at, instruction, method_named};
pub use pass::{Admitted, Changed, ClassIf, Origin, Outside, Renumber};
pub use pools::{FieldName, MethodName, Proto};
pub use program::{Class, Field, Method, MethodAt, Program, Version};
pub use program_rules::well_formed;
pub use value::{Element, EncValue, Mark, Note};
