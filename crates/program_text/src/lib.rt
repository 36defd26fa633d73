//! Programs as text, and rows that ask about them: `program_of` reads a text as a program whose tables are numbered in
//! order, and `print` writes the classes of a program as such a text. A row is a line that asks something, maybe about a
//! program that stands above it as text: a `Page` tells which, and writes it again with its `Answer` behind it. All this is
//! read by tests alone, so that its contract is no more than that every text, every program and every line is answered: what
//! can't be read refuses the answer, and want of memory is told at the end.
//!
//! A program's text has an item a line, and words between blanks; empty lines and those that begin with `#` are passed over.
//!
//! ```text
//! version 037
//! class LA; public extends LB; implements LI; LJ; source A.java
//!   field x I static = 5
//!   method m (I)V static public @La/Mark;
//!     registers 3
//!     line 12
//!     const v0 7
//!     :top
//!     if-eq v0 v1 :end
//!     invoke-static v0 LA;->m(I)V
//!     sget v0 LA;->x:I
//!     :end
//!     return-void
//!     try :top :end LE; :end :end
//! ```
//!
//! - The mnemonics are those of Dalvik bytecode without the sizes of their spellings: `const`, `goto`, `invoke-static`, and
//!   `add-int/lit`. Operands may stand in any order but that of their kind: `vN` is a register, `:name` a label, a number
//!   is in decimals, and one other word names a string, a type, a field or a method. A switch has its first key or its keys
//!   and its targets, and `fill-array-data` the bytes of an item and the items' bits.
//! - `try` names the first position, the end, the type and the handler of each handler, and the catch-all.
//! - `registers` gives a method code, whose arguments are counted by its types unless `ins` counts them; `line` says the
//!   line of the source for what follows it. A method without flags, say, is virtual.
//! - Where no superclass is said it is `Ljava/lang/Object;`. A first value is a number, an `int`, or `kind:value`, as
//!   `long:5`, `string:a` and `class:LA;`, or `null`; arrays and annotations have no text. `@TYPE` is an annotation of a
//!   class, a field or a method without elements.
//! - `names` puts types, fields and methods into the tables that no class names.
//! - A unit that is blank or no printed ASCII, and the backslash, is `\` and four hexadecimal digits.
#![tactic(auto)]

mod answer;
mod finds;
mod forms;
mod names;
mod operands;
mod page;
mod parts;
mod printer;
mod reader;
mod values;

pub use answer::Answer;
pub use finds::{find_class, find_field, find_method, find_type, first_body};
pub use page::Page;
pub use printer::{print, say_body, say_field, say_method, say_type};
pub use reader::program_of;
