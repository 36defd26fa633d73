//! Which operands are wide: a wide value stands in a register and the next one.

ghost use Rattle.std.specs.Prelude.{◌≡◌};
ghost use Rattle.insn_set.specs.Widths.{is_wide_slot, is_wide_item, compares_wide, unary_reads_wide, unary_writes_wide, binary_is_wide, second_is_wide};

use crate::ops::{BinaryOp, CmpOp, Item, Slot, UnaryOp};

impl Slot {
    /// Whether it is a pair of registers.
    pub fn is_wide(self) -> bool
        ensures { result ≡ is_wide_slot self }
    {
        matches!(self, Slot::Wide)
    }
}

impl Item {
    /// Whether such an item stands in a pair of registers.
    pub fn is_wide(self) -> bool
        ensures { result ≡ is_wide_item self }
    {
        matches!(self, Item::Wide)
    }
}

impl CmpOp {
    /// Whether the operands are pairs of registers. The result is a word.
    pub fn compares_wide(self) -> bool
        ensures { result ≡ compares_wide self }
    {
        !matches!(self, CmpOp::CmplFloat | CmpOp::CmpgFloat)
    }
}

impl UnaryOp {
    /// Whether the operand is a pair of registers.
    pub fn reads_wide(self) -> bool
        ensures { result ≡ unary_reads_wide self }
    {
        matches!(
            self,
            UnaryOp::NegLong
                | UnaryOp::NotLong
                | UnaryOp::NegDouble
                | UnaryOp::LongToInt
                | UnaryOp::LongToFloat
                | UnaryOp::LongToDouble
                | UnaryOp::DoubleToInt
                | UnaryOp::DoubleToLong
                | UnaryOp::DoubleToFloat
        )
    }

    /// Whether the result is a pair of registers.
    pub fn writes_wide(self) -> bool
        ensures { result ≡ unary_writes_wide self }
    {
        matches!(
            self,
            UnaryOp::NegLong
                | UnaryOp::NotLong
                | UnaryOp::NegDouble
                | UnaryOp::IntToLong
                | UnaryOp::IntToDouble
                | UnaryOp::LongToDouble
                | UnaryOp::FloatToLong
                | UnaryOp::FloatToDouble
                | UnaryOp::DoubleToLong
        )
    }
}

impl BinaryOp {
    /// Whether the first operand and the result are pairs of registers.
    pub fn is_wide(self) -> bool
        ensures { result ≡ binary_is_wide self }
    {
        matches!(
            self,
            BinaryOp::AddLong
                | BinaryOp::SubLong
                | BinaryOp::MulLong
                | BinaryOp::DivLong
                | BinaryOp::RemLong
                | BinaryOp::AndLong
                | BinaryOp::OrLong
                | BinaryOp::XorLong
                | BinaryOp::ShlLong
                | BinaryOp::ShrLong
                | BinaryOp::UshrLong
                | BinaryOp::AddDouble
                | BinaryOp::SubDouble
                | BinaryOp::MulDouble
                | BinaryOp::DivDouble
                | BinaryOp::RemDouble
        )
    }

    /// Whether the second operand is a pair of registers. The distance of a shift is a word.
    pub fn second_is_wide(self) -> bool
        ensures { result ≡ second_is_wide self }
    {
        match self {
            BinaryOp::ShlLong | BinaryOp::ShrLong | BinaryOp::UshrLong => false,
            _ => self.is_wide(),
        }
    }
}
