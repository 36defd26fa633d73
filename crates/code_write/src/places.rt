//! The place of an operation among those of one form: opcodes of a form stand one behind another (Dalvik bytecode,
//! "Summary of bytecode set").

ghost use Rattle.std.specs.Prelude.{◌≡◌, ◌<◌, ◌≤◌};
ghost use Rattle.code_write.specs.Places.{slot_place, item_place, cmp_place, test_place, kind_place, unary_place, binary_place, literal_place};

use program_model::{BinaryOp, CmpOp, InvokeKind, Item, LiteralOp, Slot, Test, UnaryOp};

/// Words, wides and references.
pub(crate) fn slot_place(slot: Slot) -> u8
    ensures value { result ≡ slot_place slot }
    ensures bound { result < 3 }
{
    match slot {
        Slot::Word => 0,
        Slot::Wide => 1,
        Slot::Object => 2,
    }
}

/// The seven items of arrays and fields.
pub(crate) fn item_place(item: Item) -> u8
    ensures value { result ≡ item_place item }
    ensures bound { result < 7 }
{
    match item {
        Item::Plain => 0,
        Item::Wide => 1,
        Item::Object => 2,
        Item::Boolean => 3,
        Item::Byte => 4,
        Item::Char => 5,
        Item::Short => 6,
    }
}

/// The five comparisons.
pub(crate) fn cmp_place(op: CmpOp) -> u8
    ensures value { result ≡ cmp_place op }
    ensures bound { result < 5 }
{
    match op {
        CmpOp::CmplFloat => 0,
        CmpOp::CmpgFloat => 1,
        CmpOp::CmplDouble => 2,
        CmpOp::CmpgDouble => 3,
        CmpOp::CmpLong => 4,
    }
}

/// The six tests.
pub(crate) fn test_place(test: Test) -> u8
    ensures value { result ≡ test_place test }
    ensures bound { result < 6 }
{
    match test {
        Test::Eq => 0,
        Test::Ne => 1,
        Test::Lt => 2,
        Test::Ge => 3,
        Test::Gt => 4,
        Test::Le => 5,
    }
}

/// The five calls.
pub(crate) fn kind_place(kind: InvokeKind) -> u8
    ensures value { result ≡ kind_place kind }
    ensures bound { result < 5 }
{
    match kind {
        InvokeKind::Virtual => 0,
        InvokeKind::Super => 1,
        InvokeKind::Direct => 2,
        InvokeKind::Static => 3,
        InvokeKind::Interface => 4,
    }
}

/// The operations on one register.
pub(crate) fn unary_place(op: UnaryOp) -> u8
    ensures value { result ≡ unary_place op }
    ensures bound { result < 21 }
{
    match op {
        UnaryOp::NegInt => 0,
        UnaryOp::NotInt => 1,
        UnaryOp::NegLong => 2,
        UnaryOp::NotLong => 3,
        UnaryOp::NegFloat => 4,
        UnaryOp::NegDouble => 5,
        UnaryOp::IntToLong => 6,
        UnaryOp::IntToFloat => 7,
        UnaryOp::IntToDouble => 8,
        UnaryOp::LongToInt => 9,
        UnaryOp::LongToFloat => 10,
        UnaryOp::LongToDouble => 11,
        UnaryOp::FloatToInt => 12,
        UnaryOp::FloatToLong => 13,
        UnaryOp::FloatToDouble => 14,
        UnaryOp::DoubleToInt => 15,
        UnaryOp::DoubleToLong => 16,
        UnaryOp::DoubleToFloat => 17,
        UnaryOp::IntToByte => 18,
        UnaryOp::IntToChar => 19,
        UnaryOp::IntToShort => 20,
    }
}

/// The operations on two registers.
pub(crate) fn binary_place(op: BinaryOp) -> u8
    ensures value { result ≡ binary_place op }
    ensures bound { result < 32 }
{
    match op {
        BinaryOp::AddInt => 0,
        BinaryOp::SubInt => 1,
        BinaryOp::MulInt => 2,
        BinaryOp::DivInt => 3,
        BinaryOp::RemInt => 4,
        BinaryOp::AndInt => 5,
        BinaryOp::OrInt => 6,
        BinaryOp::XorInt => 7,
        BinaryOp::ShlInt => 8,
        BinaryOp::ShrInt => 9,
        BinaryOp::UshrInt => 10,
        BinaryOp::AddLong => 11,
        BinaryOp::SubLong => 12,
        BinaryOp::MulLong => 13,
        BinaryOp::DivLong => 14,
        BinaryOp::RemLong => 15,
        BinaryOp::AndLong => 16,
        BinaryOp::OrLong => 17,
        BinaryOp::XorLong => 18,
        BinaryOp::ShlLong => 19,
        BinaryOp::ShrLong => 20,
        BinaryOp::UshrLong => 21,
        BinaryOp::AddFloat => 22,
        BinaryOp::SubFloat => 23,
        BinaryOp::MulFloat => 24,
        BinaryOp::DivFloat => 25,
        BinaryOp::RemFloat => 26,
        BinaryOp::AddDouble => 27,
        BinaryOp::SubDouble => 28,
        BinaryOp::MulDouble => 29,
        BinaryOp::DivDouble => 30,
        BinaryOp::RemDouble => 31,
    }
}

/// The operations on a register and a literal.
pub(crate) fn literal_place(op: LiteralOp) -> u8
    ensures value { result ≡ literal_place op }
    ensures bound { result < 11 }
{
    match op {
        LiteralOp::AddInt => 0,
        LiteralOp::RsubInt => 1,
        LiteralOp::MulInt => 2,
        LiteralOp::DivInt => 3,
        LiteralOp::RemInt => 4,
        LiteralOp::AndInt => 5,
        LiteralOp::OrInt => 6,
        LiteralOp::XorInt => 7,
        LiteralOp::ShlInt => 8,
        LiteralOp::ShrInt => 9,
        LiteralOp::UshrInt => 10,
    }
}
