//! The small enums of the forms: what differs between the opcodes of one form.

/// What a register or a pair of registers holds: a word, a pair of words, or a reference.
#[derive(Clone, Copy, PartialEq, Eq, Drop)]
pub enum Slot {
    Word,
    Wide,
    Object,
}

/// How an item of an array or a field is read and written.
#[derive(Clone, Copy, PartialEq, Eq, Drop)]
pub enum Item {
    Plain,
    Wide,
    Object,
    Boolean,
    Byte,
    Char,
    Short,
}

/// The comparisons that answer -1, 0 or 1.
#[derive(Clone, Copy, PartialEq, Eq, Drop)]
pub enum CmpOp {
    CmplFloat,
    CmpgFloat,
    CmplDouble,
    CmpgDouble,
    CmpLong,
}

/// The tests of the conditional branches.
#[derive(Clone, Copy, PartialEq, Eq, Drop)]
pub enum Test {
    Eq,
    Ne,
    Lt,
    Ge,
    Gt,
    Le,
}

/// How a call finds its method.
#[derive(Clone, Copy, PartialEq, Eq, Debug, Drop)]
pub enum InvokeKind {
    Virtual,
    Super,
    Direct,
    Static,
    Interface,
}

/// The operations on one register.
#[derive(Clone, Copy, PartialEq, Eq, Drop)]
pub enum UnaryOp {
    NegInt,
    NotInt,
    NegLong,
    NotLong,
    NegFloat,
    NegDouble,
    IntToLong,
    IntToFloat,
    IntToDouble,
    LongToInt,
    LongToFloat,
    LongToDouble,
    FloatToInt,
    FloatToLong,
    FloatToDouble,
    DoubleToInt,
    DoubleToLong,
    DoubleToFloat,
    IntToByte,
    IntToChar,
    IntToShort,
}

/// The operations on two registers.
#[derive(Clone, Copy, PartialEq, Eq, Drop)]
pub enum BinaryOp {
    AddInt,
    SubInt,
    MulInt,
    DivInt,
    RemInt,
    AndInt,
    OrInt,
    XorInt,
    ShlInt,
    ShrInt,
    UshrInt,
    AddLong,
    SubLong,
    MulLong,
    DivLong,
    RemLong,
    AndLong,
    OrLong,
    XorLong,
    ShlLong,
    ShrLong,
    UshrLong,
    AddFloat,
    SubFloat,
    MulFloat,
    DivFloat,
    RemFloat,
    AddDouble,
    SubDouble,
    MulDouble,
    DivDouble,
    RemDouble,
}

/// The operations on a register and a literal. `RsubInt` subtracts the register from the literal.
#[derive(Clone, Copy, PartialEq, Eq, Drop)]
pub enum LiteralOp {
    AddInt,
    RsubInt,
    MulInt,
    DivInt,
    RemInt,
    AndInt,
    OrInt,
    XorInt,
    ShlInt,
    ShrInt,
    UshrInt,
}
