//! What passes are given and what they answer.

use crate::program::Program;
use seq::{Exact, Seq};

/// New numbers of the entries of the five tables, 4,294,967,295 for an entry that is gone.
#[derive(Debug, Drop)]
pub struct Renumber {
    pub strings: Vec<u32>,
    pub types: Vec<u32>,
    pub protos: Vec<u32>,
    pub fields: Vec<u32>,
    pub methods: Vec<u32>,
}

/// For each method number, whether the method's body may be rewritten.
#[derive(Drop)]
pub struct Admitted {
    pub methods: Vec<bool>,
}

/// Where an instruction comes from: a position of the body that a method, given by its number, had before.
#[derive(Clone, PartialEq, Eq, Drop)]
pub struct Origin {
    pub method: u32,
    pub position: u32,
}

impl Exact for Origin {
    ghost use Rattle.std.proofs.Common.{rules};

    ghost exact = { Prim.search rules };
}

/// What a pass answers: the program after it, how much it changed (0 exactly where it left the program the same), and
/// for each method number where each instruction comes from, or the empty list where no positions moved.
#[derive(Drop)]
pub struct Changed {
    pub program: Program,
    pub count: u64,
    pub origins: Seq<Seq<Origin>>,
}

/// A class that is kept where its owner is live, both type numbers.
#[derive(Clone, Drop)]
pub struct ClassIf {
    pub class: u32,
    pub owner: u32,
}

impl Exact for ClassIf {
    ghost use Rattle.std.proofs.Common.{rules};

    ghost exact = { Prim.search rules };
}

/// What the framework may reach: kept classes, methods and fields by type, method and field number; the same with the
/// condition that the member's class, or the class's owner, is live; whether to remove and to rewrite at all; and the
/// methods whose calls do nothing and those that no framework type declares, by method number. It is closed where the
/// three conditional lists are empty.
#[derive(Clone, Drop)]
pub struct Outside {
    pub classes: Seq<u32>,
    pub methods: Seq<u32>,
    pub fields: Seq<u32>,
    pub methods_if: Seq<u32>,
    pub fields_if: Seq<u32>,
    pub classes_if: Seq<ClassIf>,
    pub shrink: bool,
    pub optimise: bool,
    pub silent: Seq<u32>,
    pub shut: Seq<u32>,
}

impl Exact for Outside {
    ghost use Rattle.std.proofs.Common.{rules};

    ghost exact = { Prim.search rules };
}
