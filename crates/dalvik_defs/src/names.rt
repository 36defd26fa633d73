//! The names of members: a member is named by its class, its name, and its type or its signature.

use dex_base::Text;
use seq::{Exact, Seq};

/// The types of a method's parameters and of its result.
#[derive(Clone, PartialEq, Eq, Debug, Drop)]
pub struct Signature {
    pub parameters: Seq<Text>,
    pub result: Text,
}

/// A method by its class, its name and its signature.
#[derive(Clone, PartialEq, Eq, Debug, Drop)]
pub struct MethodKey {
    pub class: Text,
    pub name: Text,
    pub signature: Signature,
}

/// A field by its class, its name and its type.
#[derive(Clone, PartialEq, Eq, Debug, Drop)]
pub struct FieldKey {
    pub class: Text,
    pub name: Text,
    pub kind: Text,
}

impl Exact for Signature {
    ghost use Rattle.std.proofs.Common.{rules};

    ghost exact = { Prim.search rules };
}

impl Exact for MethodKey {
    ghost use Rattle.std.proofs.Common.{rules};

    ghost exact = { Prim.search rules };
}

impl Exact for FieldKey {
    ghost use Rattle.std.proofs.Common.{rules};

    ghost exact = { Prim.search rules };
}
