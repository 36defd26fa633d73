//! The code of a method (Dalvik executable format, "code_item").

use insn_set::Insn;
use seq::{Exact, Seq};

/// The handler for the objects of a type: `kind` is a type number, `position` that of its first instruction.
#[derive(Clone, PartialEq, Eq, Drop)]
pub struct Handler {
    pub kind: u32,
    pub position: u32,
}

/// The positions from `first` up to and without `end`, the handlers for what they throw, tried in order, and the
/// position of the catch-all.
#[derive(Clone, PartialEq, Eq, Drop)]
pub struct Region {
    pub first: u32,
    pub end: u32,
    pub handlers: Seq<Handler>,
    pub rest: Option<u32>,
}

/// The instructions of a method. `registers` counts all registers, and the last `ins` of them are the arguments. A
/// position is an index into `insns`.
#[derive(Clone, PartialEq, Eq, Drop)]
pub struct Body {
    pub registers: u16,
    pub ins: u16,
    pub insns: Seq<Insn>,
    pub regions: Seq<Region>,
}

impl Exact for Handler {
    ghost use Rattle.std.proofs.Common.{rules};

    ghost exact = { Prim.search rules };
}

impl Exact for Region {
    ghost use Rattle.std.proofs.Common.{rules};

    ghost exact = { Prim.search rules };
}

impl Exact for Body {
    ghost use Rattle.std.proofs.Common.{rules};

    ghost exact = { Prim.search rules };
}
