//! Programs, their classes and their members (Dalvik executable format, "class_def_item", "class_data_item").

use crate::body::Body;
use crate::flags::Flags;
use crate::pools::{FieldName, MethodName, Proto};
use crate::value::{EncValue, Mark};
use dex_base::Text;
use seq::{Exact, Seq};

/// The version of the format, 035 or 037. From 037 on an interface may have methods with code that its classes find.
#[derive(Clone, Copy, PartialEq, Eq, Drop)]
pub enum Version {
    V035,
    V037,
}

/// A field that a class defines. `name` is a field number. `first` is the first value of a static field, none where it
/// is zero, false or null.
#[derive(Clone, PartialEq, Eq, Drop)]
pub struct Field {
    pub name: u32,
    pub flags: Flags,
    pub first: Option<EncValue>,
    pub marks: Seq<Mark>,
}

/// A method that a class defines. `name` is a method number. `parameter_marks` has a list of annotations for each of
/// the first parameters, or none. `lines` is empty, or has the source line of each position, 0 where it has none.
#[derive(Clone, PartialEq, Eq, Drop)]
pub struct Method {
    pub name: u32,
    pub flags: Flags,
    pub marks: Seq<Mark>,
    pub parameter_marks: Seq<Seq<Mark>>,
    pub body: Option<Body>,
    pub lines: Seq<u32>,
}

/// A class. `name`, `superclass` and `interfaces` are type numbers, `source` is a string number. Static fields stand
/// before instance fields, direct methods before virtual ones, and each group by number.
#[derive(Clone, PartialEq, Eq, Drop)]
pub struct Class {
    pub name: u32,
    pub flags: Flags,
    pub superclass: u32,
    pub interfaces: Seq<u32>,
    pub source: Option<u32>,
    pub marks: Seq<Mark>,
    pub fields: Seq<Field>,
    pub methods: Seq<Method>,
}

/// A program. A type is the number of its descriptor in `strings`. `classes` stand in the order of the file.
#[derive(Clone, PartialEq, Eq, Drop)]
pub struct Program {
    pub strings: Seq<Text>,
    pub types: Seq<u32>,
    pub protos: Seq<Proto>,
    pub fields: Seq<FieldName>,
    pub methods: Seq<MethodName>,
    pub classes: Seq<Class>,
    pub version: Version,
}

/// A defined method by the place of its class in `classes` and its own place in the class's `methods`.
#[derive(Clone, Copy, PartialEq, Eq, Debug, Drop)]
pub struct MethodAt {
    pub class: u32,
    pub place: u32,
}

impl Exact for Field {
    ghost use Rattle.std.proofs.Common.{rules};

    ghost exact = { Prim.search rules };
}

impl Exact for Method {
    ghost use Rattle.std.proofs.Common.{rules};

    ghost exact = { Prim.search rules };
}

impl Exact for Class {
    ghost use Rattle.std.proofs.Common.{rules};

    ghost exact = { Prim.search rules };
}

impl Exact for Program {
    ghost use Rattle.std.proofs.Common.{rules};

    ghost exact = { Prim.search rules };
}
