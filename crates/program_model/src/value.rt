//! Values and annotations (Dalvik executable format, "encoded_value", "encoded_annotation").

use seq::{Exact, Seq};

/// A value of a field, an annotation or an array. Floats are bit patterns. `Str`, `Class`, `Field`, `Method` and `Enum`
/// hold a number of the string, type, field, method and field table.
#[derive(PartialEq, Eq, Debug, Drop)]
#[cycle(value)]
pub enum EncValue {
    Byte(i8),
    Short(i16),
    Char(u16),
    Int(i32),
    Long(i64),
    Float(u32),
    Double(u64),
    Str(u32),
    Class(u32),
    Field(u32),
    Method(u32),
    Enum(u32),
    Array(Seq<EncValue>),
    Annotation(Note),
    Null,
    Bool(bool),
}

/// An annotation's type, a type number, and its elements.
#[derive(PartialEq, Eq, Debug, Drop)]
#[cycle(value)]
pub struct Note {
    pub class: u32,
    pub elements: Seq<Element>,
}

/// An element of an annotation. `name` is a string number.
#[derive(PartialEq, Eq, Debug, Drop)]
#[cycle(value)]
pub struct Element {
    pub name: u32,
    pub value: EncValue,
}

/// An annotation on a class, a field, a method or a parameter, and who may see it.
#[derive(Clone, PartialEq, Eq, Drop)]
pub struct Mark {
    pub visibility: u8,
    pub note: Note,
}

impl Exact for Mark {
    ghost use Rattle.std.proofs.Common.{rules};

    ghost exact = { Prim.search rules };
}
