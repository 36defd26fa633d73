//! A program by its names (Dalvik executable format, "class_def_item", "code_item"): no number of a table is left in it.

use crate::encoded::{NamedMark, NamedValue};
use crate::forms::Form;
use crate::names::Signature;
use dex_base::Text;
use program_model::Version;
use seq::Seq;

/// The handler for the objects of a type.
#[derive(Drop)]
pub struct NamedHandler {
    pub kind: Text,
    pub position: u32,
}

/// The positions from `first` up to and without `end`, the handlers for what they throw, tried in order, and the
/// position of the catch-all.
#[derive(Drop)]
pub struct NamedRegion {
    pub first: u32,
    pub end: u32,
    pub handlers: Seq<NamedHandler>,
    pub rest: Option<u32>,
}

/// The code of a method. The last `ins` of the registers are the arguments. A position is an index into `forms`.
#[derive(Drop)]
pub struct NamedBody {
    pub registers: u16,
    pub ins: u16,
    pub forms: Seq<Form>,
    pub regions: Seq<NamedRegion>,
}

/// A field that a class defines, and the first value of a static one, none where it is zero, false or null.
#[derive(Drop)]
pub struct NamedField {
    pub name: Text,
    pub kind: Text,
    pub flags: u32,
    pub first: Option<NamedValue>,
    pub marks: Seq<NamedMark>,
}

/// A method that a class defines.
#[derive(Drop)]
pub struct NamedMethod {
    pub name: Text,
    pub signature: Signature,
    pub flags: u32,
    pub marks: Seq<NamedMark>,
    pub parameter_marks: Seq<Seq<NamedMark>>,
    pub body: Option<NamedBody>,
    pub lines: Seq<u32>,
}

/// A class.
#[derive(Drop)]
pub struct NamedClass {
    pub name: Text,
    pub flags: u32,
    pub superclass: Text,
    pub interfaces: Seq<Text>,
    pub source: Option<Text>,
    pub marks: Seq<NamedMark>,
    pub fields: Seq<NamedField>,
    pub methods: Seq<NamedMethod>,
}

/// A program. `classes` stand in the order of the file.
#[derive(Drop)]
pub struct NamedProgram {
    pub version: Version,
    pub classes: Seq<NamedClass>,
}
