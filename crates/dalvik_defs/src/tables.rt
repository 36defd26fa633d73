//! What the framework is: its types, and what its float arithmetic answers.

use dex_base::Text;
use seq::Seq;

/// A type of the framework, whether it is an interface, and the types directly above it.
#[derive(Clone, PartialEq, Eq, Debug, Drop)]
pub struct FrameworkType {
    pub name: Text,
    pub interface: bool,
    pub superclass: Text,
    pub interfaces: Seq<Text>,
}

/// The types of the framework; the first row of a type counts.
#[derive(Drop)]
pub struct Framework {
    pub rows: Seq<FrameworkType>,
}

/// The operations on floats and doubles, one for each opcode name of Dalvik bytecode without `/2addr`.
#[derive(Clone, Copy, PartialEq, Eq, Debug, Drop)]
pub enum FloatOp {
    CmplFloat,
    CmpgFloat,
    CmplDouble,
    CmpgDouble,
    NegFloat,
    NegDouble,
    IntToFloat,
    IntToDouble,
    LongToFloat,
    LongToDouble,
    FloatToInt,
    FloatToLong,
    FloatToDouble,
    DoubleToInt,
    DoubleToLong,
    DoubleToFloat,
    AddFloat,
    SubFloat,
    MulFloat,
    DivFloat,
    RemFloat,
    AddDouble,
    SubDouble,
    MulDouble,
    DivDouble,
    RemDouble,
}

/// What an operation answers on operands, all as bits. `b` is 0 where there is one operand.
#[derive(Clone, PartialEq, Eq, Debug, Drop)]
pub struct FloatRow {
    pub op: FloatOp,
    pub a: u64,
    pub b: u64,
    pub result: u64,
}

/// What float arithmetic answers: the first fitting row counts, and a missing row answers 0.
#[derive(Drop)]
pub struct Floats {
    pub rows: Seq<FloatRow>,
}
