//! The opcodes (Dalvik bytecode, "Summary of bytecode set").

ghost use Rattle.std.specs.Prelude.{◌≡◌};
ghost use Rattle.code_read.specs.Opcodes.{low_format, middle_format, branch_format, high_format, format_at, unary_at, binary_at, slot_at, item_at, test_at, compare_at, kind_at, literal_at, negation_at, whole_at, other_at, int_at, long_at, float_at, double_at};

use insn_set::{BinaryOp, CmpOp, Format, InvokeKind, Item, LiteralOp, Slot, Test, UnaryOp};

/// The format of the moves, returns and constants, which are the opcodes below 20.
fn low_format_of(op: u16) -> Option<Format>
    ensures { result ≡ low_format op }
{
    match op {
        0x00 | 0x0e => Some(Format::F10x),
        0x01 | 0x04 | 0x07 => Some(Format::F12x),
        0x02 | 0x05 | 0x08 => Some(Format::F22x),
        0x03 | 0x06 | 0x09 => Some(Format::F32x),
        0x12 => Some(Format::F11n),
        0x13 | 0x16 => Some(Format::F21s),
        0x14 | 0x17 => Some(Format::F31i),
        0x15 | 0x19 => Some(Format::F21h),
        0x18 => Some(Format::F51l),
        0x1a | 0x1c | 0x1f => Some(Format::F21c),
        0x1b => Some(Format::F31c),
        _ => Some(Format::F11x),
    }
}

/// The format of the opcodes from 20 on and below 3e: objects, arrays and branches.
fn middle_format_of(op: u16) -> Option<Format>
    ensures { result ≡ middle_format op }
{
    match op {
        0x20 | 0x23 => Some(Format::F22c),
        0x21 => Some(Format::F12x),
        0x22 => Some(Format::F21c),
        0x24 => Some(Format::F35c),
        0x25 => Some(Format::F3rc),
        0x26 | 0x2b | 0x2c => Some(Format::F31t),
        0x27 => Some(Format::F11x),
        0x28 => Some(Format::F10t),
        0x29 => Some(Format::F20t),
        0x2a => Some(Format::F30t),
        _ => branch_format_of(op),
    }
}

/// The format of the comparisons and the conditional branches.
fn branch_format_of(op: u16) -> Option<Format>
    ensures { result ≡ branch_format op }
{
    match op {
        0x2d..=0x31 => Some(Format::F23x),
        0x32..=0x37 => Some(Format::F22t),
        _ => Some(Format::F21t),
    }
}

/// The format of the opcodes from 3e on: accesses, calls and operations.
fn high_format_of(op: u16) -> Option<Format>
    ensures { result ≡ high_format op }
{
    match op {
        0x44..=0x51 | 0x90..=0xaf => Some(Format::F23x),
        0x52..=0x5f => Some(Format::F22c),
        0x60..=0x6d => Some(Format::F21c),
        0x6e..=0x72 => Some(Format::F35c),
        0x74..=0x78 => Some(Format::F3rc),
        0x7b..=0x8f | 0xb0..=0xcf => Some(Format::F12x),
        0xd0..=0xd7 => Some(Format::F22s),
        0xd8..=0xe2 => Some(Format::F22b),
        _ => None,
    }
}

#[tactic(auto, unfolding(crate::specs::Opcodes::format_at))]
/// The format of the instructions with this opcode, none where no instruction has it.
pub fn format_of(op: u16) -> Option<Format>
    ensures { result ≡ format_at op }
{
    if op < 0x20 {
        low_format_of(op)
    } else if op < 0x3e {
        middle_format_of(op)
    } else {
        high_format_of(op)
    }
}

/// What the move with this number holds.
pub(crate) fn slot_of(number: u16) -> Slot
    ensures { result ≡ slot_at number }
{
    match number {
        0 => Slot::Word,
        1 => Slot::Wide,
        _ => Slot::Object,
    }
}

/// The item of this number.
pub(crate) fn item_of(number: u16) -> Item
    ensures { result ≡ item_at number }
{
    match number {
        0 => Item::Plain,
        1 => Item::Wide,
        2 => Item::Object,
        3 => Item::Boolean,
        4 => Item::Byte,
        5 => Item::Char,
        _ => Item::Short,
    }
}

/// The test of this number.
pub(crate) fn test_of(number: u16) -> Test
    ensures { result ≡ test_at number }
{
    match number {
        0 => Test::Eq,
        1 => Test::Ne,
        2 => Test::Lt,
        3 => Test::Ge,
        4 => Test::Gt,
        _ => Test::Le,
    }
}

/// The comparison of this number.
pub(crate) fn compare_of(number: u16) -> CmpOp
    ensures { result ≡ compare_at number }
{
    match number {
        0 => CmpOp::CmplFloat,
        1 => CmpOp::CmpgFloat,
        2 => CmpOp::CmplDouble,
        3 => CmpOp::CmpgDouble,
        _ => CmpOp::CmpLong,
    }
}

/// The kind of call of this number.
pub(crate) fn kind_of(number: u16) -> InvokeKind
    ensures { result ≡ kind_at number }
{
    match number {
        0 => InvokeKind::Virtual,
        1 => InvokeKind::Super,
        2 => InvokeKind::Direct,
        3 => InvokeKind::Static,
        _ => InvokeKind::Interface,
    }
}

/// The operation with a literal of this number.
pub(crate) fn literal_of(number: u16) -> LiteralOp
    ensures { result ≡ literal_at number }
{
    match number {
        0 => LiteralOp::AddInt,
        1 => LiteralOp::RsubInt,
        2 => LiteralOp::MulInt,
        3 => LiteralOp::DivInt,
        4 => LiteralOp::RemInt,
        5 => LiteralOp::AndInt,
        6 => LiteralOp::OrInt,
        7 => LiteralOp::XorInt,
        8 => LiteralOp::ShlInt,
        9 => LiteralOp::ShrInt,
        _ => LiteralOp::UshrInt,
    }
}

/// The negation of this number.
fn negation_of(number: u16) -> UnaryOp
    ensures { result ≡ negation_at number }
{
    match number {
        0 => UnaryOp::NegInt,
        1 => UnaryOp::NotInt,
        2 => UnaryOp::NegLong,
        3 => UnaryOp::NotLong,
        4 => UnaryOp::NegFloat,
        _ => UnaryOp::NegDouble,
    }
}

/// The conversion from int or long of this number.
fn conversion_of_whole(number: u16) -> UnaryOp
    ensures { result ≡ whole_at number }
{
    match number {
        0 => UnaryOp::IntToLong,
        1 => UnaryOp::IntToFloat,
        2 => UnaryOp::IntToDouble,
        3 => UnaryOp::LongToInt,
        4 => UnaryOp::LongToFloat,
        _ => UnaryOp::LongToDouble,
    }
}

/// The conversion from float or double, or to a narrow int, of this number.
fn conversion_of_other(number: u16) -> UnaryOp
    ensures { result ≡ other_at number }
{
    match number {
        0 => UnaryOp::FloatToInt,
        1 => UnaryOp::FloatToLong,
        2 => UnaryOp::FloatToDouble,
        3 => UnaryOp::DoubleToInt,
        4 => UnaryOp::DoubleToLong,
        5 => UnaryOp::DoubleToFloat,
        6 => UnaryOp::IntToByte,
        7 => UnaryOp::IntToChar,
        _ => UnaryOp::IntToShort,
    }
}

/// The operation on ints of this number.
fn int_of(number: u16) -> BinaryOp
    ensures { result ≡ int_at number }
{
    match number {
        0 => BinaryOp::AddInt,
        1 => BinaryOp::SubInt,
        2 => BinaryOp::MulInt,
        3 => BinaryOp::DivInt,
        4 => BinaryOp::RemInt,
        5 => BinaryOp::AndInt,
        6 => BinaryOp::OrInt,
        7 => BinaryOp::XorInt,
        8 => BinaryOp::ShlInt,
        9 => BinaryOp::ShrInt,
        _ => BinaryOp::UshrInt,
    }
}

/// The operation on longs of this number.
fn long_of(number: u16) -> BinaryOp
    ensures { result ≡ long_at number }
{
    match number {
        0 => BinaryOp::AddLong,
        1 => BinaryOp::SubLong,
        2 => BinaryOp::MulLong,
        3 => BinaryOp::DivLong,
        4 => BinaryOp::RemLong,
        5 => BinaryOp::AndLong,
        6 => BinaryOp::OrLong,
        7 => BinaryOp::XorLong,
        8 => BinaryOp::ShlLong,
        9 => BinaryOp::ShrLong,
        _ => BinaryOp::UshrLong,
    }
}

/// The operation on floats of this number.
fn float_of(number: u16) -> BinaryOp
    ensures { result ≡ float_at number }
{
    match number {
        0 => BinaryOp::AddFloat,
        1 => BinaryOp::SubFloat,
        2 => BinaryOp::MulFloat,
        3 => BinaryOp::DivFloat,
        _ => BinaryOp::RemFloat,
    }
}

/// The operation on doubles of this number.
fn double_of(number: u16) -> BinaryOp
    ensures { result ≡ double_at number }
{
    match number {
        0 => BinaryOp::AddDouble,
        1 => BinaryOp::SubDouble,
        2 => BinaryOp::MulDouble,
        3 => BinaryOp::DivDouble,
        _ => BinaryOp::RemDouble,
    }
}

#[tactic(auto, unfolding(crate::specs::Opcodes::unary_at))]
/// The operation on one register of this number.
pub(crate) fn unary_of(number: u16) -> UnaryOp
    ensures { result ≡ unary_at number }
{
    if number < 6 {
        negation_of(number)
    } else if number < 12 {
        conversion_of_whole(number - 6)
    } else {
        conversion_of_other(number - 12)
    }
}

#[tactic(auto, unfolding(crate::specs::Opcodes::binary_at))]
/// The operation on two registers of this number.
pub(crate) fn binary_of(number: u16) -> BinaryOp
    ensures { result ≡ binary_at number }
{
    if number < 11 {
        int_of(number)
    } else if number < 22 {
        long_of(number - 11)
    } else if number < 27 {
        float_of(number - 22)
    } else {
        double_of(number - 27)
    }
}
