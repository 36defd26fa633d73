//! The opcodes (Dalvik bytecode, "Summary of bytecode set").

ghost use Rattle.std.specs.Prelude.{◌≡◌, ◌≤◌};
ghost use Rattle.code_write.specs.Opcodes.{move_base, const_opcode, wide_opcode, string_opcode, goto_opcode, fill_opcode, invoke_base, binary_base, literal_base, opcode_of};

use crate::places::{
    binary_place, cmp_place, item_place, kind_place, literal_place, slot_place, test_place,
    unary_place,
};
use insn_set::Format;
use program_model::Insn;

/// The first move of a format.
fn move_base(format: Format) -> u8
    ensures value { result ≡ move_base format }
    ensures bound { result ≤ 3 }
{
    match format {
        Format::F12x => 1,
        Format::F22x => 2,
        _ => 3,
    }
}

/// The constant word of a format.
fn const_opcode(format: Format) -> u8
    ensures { result ≡ const_opcode format }
{
    match format {
        Format::F11n => 0x12,
        Format::F21s => 0x13,
        Format::F31i => 0x14,
        _ => 0x15,
    }
}

/// The constant wide of a format.
fn wide_opcode(format: Format) -> u8
    ensures { result ≡ wide_opcode format }
{
    match format {
        Format::F21s => 0x16,
        Format::F31i => 0x17,
        Format::F51l => 0x18,
        _ => 0x19,
    }
}

/// The constant string of a format.
fn string_opcode(format: Format) -> u8
    ensures { result ≡ string_opcode format }
{
    match format {
        Format::F21c => 0x1a,
        _ => 0x1b,
    }
}

/// The goto of a format.
fn goto_opcode(format: Format) -> u8
    ensures { result ≡ goto_opcode format }
{
    match format {
        Format::F10t => 0x28,
        Format::F20t => 0x29,
        _ => 0x2a,
    }
}

/// The filled array of a format.
fn fill_opcode(format: Format) -> u8
    ensures { result ≡ fill_opcode format }
{
    match format {
        Format::F35c => 0x24,
        _ => 0x25,
    }
}

/// The first call of a format.
fn invoke_base(format: Format) -> u8
    ensures value { result ≡ invoke_base format }
    ensures bound { result ≤ 0x74 }
{
    match format {
        Format::F35c => 0x6e,
        _ => 0x74,
    }
}

/// The first operation on two registers of a format.
fn binary_base(format: Format) -> u8
    ensures value { result ≡ binary_base format }
    ensures bound { result ≤ 0xb0 }
{
    match format {
        Format::F23x => 0x90,
        _ => 0xb0,
    }
}

/// The first operation with a literal of a format.
fn literal_base(format: Format) -> u8
    ensures value { result ≡ literal_base format }
    ensures bound { result ≤ 0xd8 }
{
    match format {
        Format::F22s => 0xd0,
        _ => 0xd8,
    }
}

/// The opcode of the instruction in a format that spells it.
pub(crate) fn opcode_of(insn: &Insn, format: Format) -> u8
    ensures { result ≡ opcode_of insn.now format }
{
    match insn {
        Insn::Nop => 0,
        Insn::Move { slot, .. } => move_base(format) + 3 * slot_place(*slot),
        Insn::MoveResult { slot, .. } => 0x0a + slot_place(*slot),
        Insn::MoveException { .. } => 0x0d,
        Insn::ReturnVoid => 0x0e,
        Insn::Return { slot, .. } => 0x0f + slot_place(*slot),
        Insn::Const { .. } => const_opcode(format),
        Insn::ConstWide { .. } => wide_opcode(format),
        Insn::ConstString { .. } => string_opcode(format),
        Insn::ConstClass { .. } => 0x1c,
        Insn::MonitorEnter { .. } => 0x1d,
        Insn::MonitorExit { .. } => 0x1e,
        Insn::CheckCast { .. } => 0x1f,
        Insn::InstanceOf { .. } => 0x20,
        Insn::ArrayLength { .. } => 0x21,
        Insn::NewInstance { .. } => 0x22,
        Insn::NewArray { .. } => 0x23,
        Insn::FilledNewArray { .. } => fill_opcode(format),
        Insn::FillArray { .. } => 0x26,
        Insn::Throw { .. } => 0x27,
        Insn::Goto { .. } => goto_opcode(format),
        Insn::PackedSwitch { .. } => 0x2b,
        Insn::SparseSwitch { .. } => 0x2c,
        Insn::Cmp { op, .. } => 0x2d + cmp_place(*op),
        Insn::If { test, .. } => 0x32 + test_place(*test),
        Insn::IfZero { test, .. } => 0x38 + test_place(*test),
        Insn::ArrayGet { item, .. } => 0x44 + item_place(*item),
        Insn::ArrayPut { item, .. } => 0x4b + item_place(*item),
        Insn::InstanceGet { item, .. } => 0x52 + item_place(*item),
        Insn::InstancePut { item, .. } => 0x59 + item_place(*item),
        Insn::StaticGet { item, .. } => 0x60 + item_place(*item),
        Insn::StaticPut { item, .. } => 0x67 + item_place(*item),
        Insn::Invoke { kind, .. } => invoke_base(format) + kind_place(*kind),
        Insn::Unary { op, .. } => 0x7b + unary_place(*op),
        Insn::Binary { op, .. } => binary_base(format) + binary_place(*op),
        Insn::Literal { op, .. } => literal_base(format) + literal_place(*op),
    }
}
