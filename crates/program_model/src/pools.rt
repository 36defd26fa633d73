//! The entries of the id tables (Dalvik executable format, "proto_id_item", "field_id_item", "method_id_item").

use seq::{Exact, Seq};

/// The result and the parameters of a method. `shorty` is a string number, `result` and `parameters` are type numbers.
#[derive(Clone, PartialEq, Eq, Debug, Drop)]
pub struct Proto {
    pub shorty: u32,
    pub result: u32,
    pub parameters: Seq<u32>,
}

/// A field by its class and its type, both type numbers, and its name, a string number.
#[derive(Clone, PartialEq, Eq, Debug, Drop)]
pub struct FieldName {
    pub class: u32,
    pub kind: u32,
    pub name: u32,
}

/// A method by its class, a type number, its proto and its name, a string number.
#[derive(Clone, PartialEq, Eq, Debug, Drop)]
pub struct MethodName {
    pub class: u32,
    pub proto: u32,
    pub name: u32,
}

impl Exact for Proto {
    ghost use Rattle.std.proofs.Common.{rules};

    ghost exact = { Prim.search rules };
}

impl Exact for FieldName {
    ghost use Rattle.std.proofs.Common.{rules};

    ghost exact = { Prim.search rules };
}

impl Exact for MethodName {
    ghost use Rattle.std.proofs.Common.{rules};

    ghost exact = { Prim.search rules };
}
