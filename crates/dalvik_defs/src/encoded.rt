//! Values and annotations (Dalvik executable format, "encoded_value", "encoded_annotation") with names in place of
//! pool numbers.

use crate::names::{FieldKey, MethodKey};
use dex_base::Text;
use seq::Seq;

/// A value of a field, an annotation or an array. Floats are bit patterns.
#[derive(Drop)]
#[cycle(value)]
pub enum NamedValue {
    Byte(i8),
    Short(i16),
    Char(u16),
    Int(i32),
    Long(i64),
    Float(u32),
    Double(u64),
    Str(Text),
    Class(Text),
    Field(FieldKey),
    Method(MethodKey),
    Enum(FieldKey),
    Array(Seq<NamedValue>),
    Annotation(NamedNote),
    Null,
    Bool(bool),
}

/// An annotation's type and its elements.
#[derive(Drop)]
#[cycle(value)]
pub struct NamedNote {
    pub class: Text,
    pub elements: Seq<NamedElement>,
}

/// An element of an annotation.
#[derive(Drop)]
#[cycle(value)]
pub struct NamedElement {
    pub name: Text,
    pub value: NamedValue,
}

/// An annotation on a class, a field, a method or a parameter, and who may see it.
#[derive(Drop)]
pub struct NamedMark {
    pub visibility: u8,
    pub note: NamedNote,
}
