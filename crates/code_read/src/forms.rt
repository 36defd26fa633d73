//! The forms of the instructions that need nothing beside their fields (Dalvik bytecode, "Summary of bytecode set").

ghost use Rattle.std.specs.Prelude.{◌≡◌};
ghost use Rattle.code_read.specs.Forms.{nibble, byte, short, word, number, move_form, const_form, wide_form, object_form, array_form, field_form, operation_form, plain};

use crate::fields::Fields;
use crate::opcodes::{binary_of, compare_of, item_of, literal_of, slot_of, unary_of};
use insn_set::Insn;

/// A signed number of four bits.
#[tactic(auto, unfolding(crate::specs::Forms::nibble))]
fn nibble_of(bits: u16) -> i32
    ensures { result ≡ nibble bits }
{
    let bits = i32::from(bits % 16);
    if bits < 8 { bits } else { bits - 16 }
}

/// A signed number of eight bits.
pub(crate) fn byte_of(bits: u16) -> i16
    ensures { result ≡ byte bits }
{
    i16::from(((bits % 256) as u8).cast_signed())
}

/// A signed number of 16 bits.
pub(crate) fn short_of(bits: u16) -> i16
    ensures { result ≡ short bits }
{
    bits.cast_signed()
}

/// A signed number of 32 bits.
pub(crate) fn word_of(bits: u64) -> i32
    ensures { result ≡ word bits }
{
    ((bits % 0x1_0000_0000) as u32).cast_signed()
}

/// The low 32 bits.
fn number_of(bits: u64) -> u32
    ensures { result ≡ number bits }
{
    (bits % 0x1_0000_0000) as u32
}

/// Nop, the moves and the returns, whose opcodes are below 12.
fn move_of(op: u16, f: Fields) -> Insn
    ensures { result ≡ move_form op f }
{
    match op {
        0x00 => Insn::Nop,
        0x01..=0x09 => Insn::Move {
            slot: slot_of((op - 1) / 3),
            to: f.a,
            from: f.b,
        },
        0x0a..=0x0c => Insn::MoveResult {
            slot: slot_of(op - 0x0a),
            to: f.a,
        },
        0x0d => Insn::MoveException { to: f.a },
        0x0e => Insn::ReturnVoid,
        _ => Insn::Return {
            slot: slot_of(op.saturating_sub(0x0f)),
            from: f.a,
        },
    }
}

/// A constant word, whose opcodes are 12 to 15.
fn const_of(op: u16, f: Fields) -> Insn
    ensures { result ≡ const_form op f }
{
    let value = match op {
        0x12 => nibble_of(f.b),
        0x13 => i32::from(short_of(f.b)),
        0x14 => word_of(f.wide),
        _ => word_of(u64::from(f.b) * 0x1_0000),
    };
    Insn::Const { to: f.a, value }
}

/// A constant wide, whose opcodes are 16 to 19.
fn wide_of(op: u16, f: Fields) -> Insn
    ensures { result ≡ wide_form op f }
{
    let value = match op {
        0x16 => i64::from(short_of(f.b)),
        0x17 => i64::from(word_of(f.wide)),
        0x18 => f.wide.cast_signed(),
        _ => (u64::from(f.b) * 0x1_0000_0000_0000).cast_signed(),
    };
    Insn::ConstWide { to: f.a, value }
}

/// The forms on objects, of the opcodes from 1a on and below 28.
fn object_of(op: u16, f: Fields) -> Insn
    ensures { result ≡ object_form op f }
{
    let kind = u32::from(f.b);
    match op {
        0x1a => Insn::ConstString {
            to: f.a,
            string: kind,
        },
        0x1b => Insn::ConstString {
            to: f.a,
            string: number_of(f.wide),
        },
        0x1c => Insn::ConstClass { to: f.a, kind },
        0x1d => Insn::MonitorEnter { on: f.a },
        0x1e => Insn::MonitorExit { on: f.a },
        0x1f => Insn::CheckCast { on: f.a, kind },
        0x20 => Insn::InstanceOf {
            to: f.a,
            from: f.b,
            kind: u32::from(f.c),
        },
        0x21 => Insn::ArrayLength { to: f.a, from: f.b },
        0x22 => Insn::NewInstance { to: f.a, kind },
        0x23 => Insn::NewArray {
            to: f.a,
            size: f.b,
            kind: u32::from(f.c),
        },
        _ => Insn::Throw { on: f.a },
    }
}

/// The comparisons and the accesses to arrays, of the opcodes 2d to 31 and 44 to 51.
fn array_of(op: u16, f: Fields) -> Insn
    ensures { result ≡ array_form op f }
{
    match op {
        0x2d..=0x31 => Insn::Cmp {
            op: compare_of(op - 0x2d),
            to: f.a,
            a: f.b,
            b: f.c,
        },
        0x44..=0x4a => Insn::ArrayGet {
            item: item_of(op - 0x44),
            to: f.a,
            array: f.b,
            index: f.c,
        },
        _ => Insn::ArrayPut {
            item: item_of(op.saturating_sub(0x4b)),
            from: f.a,
            array: f.b,
            index: f.c,
        },
    }
}

/// The accesses to fields, of the opcodes 52 to 6d.
fn field_of(op: u16, f: Fields) -> Insn
    ensures { result ≡ field_form op f }
{
    match op {
        0x52..=0x58 => Insn::InstanceGet {
            item: item_of(op - 0x52),
            to: f.a,
            on: f.b,
            field: u32::from(f.c),
        },
        0x59..=0x5f => Insn::InstancePut {
            item: item_of(op - 0x59),
            from: f.a,
            on: f.b,
            field: u32::from(f.c),
        },
        0x60..=0x66 => Insn::StaticGet {
            item: item_of(op - 0x60),
            to: f.a,
            field: u32::from(f.b),
        },
        _ => Insn::StaticPut {
            item: item_of(op.saturating_sub(0x67)),
            from: f.a,
            field: u32::from(f.b),
        },
    }
}

/// The operations, of the opcodes 7b to e2.
fn operation_of(op: u16, f: Fields) -> Insn
    ensures { result ≡ operation_form op f }
{
    match op {
        0x7b..=0x8f => Insn::Unary {
            op: unary_of(op - 0x7b),
            to: f.a,
            from: f.b,
        },
        0x90..=0xaf => Insn::Binary {
            op: binary_of(op - 0x90),
            to: f.a,
            a: f.b,
            b: f.c,
        },
        0xb0..=0xcf => Insn::Binary {
            op: binary_of(op - 0xb0),
            to: f.a,
            a: f.a,
            b: f.b,
        },
        0xd0..=0xd7 => Insn::Literal {
            op: literal_of(op - 0xd0),
            to: f.a,
            a: f.b,
            value: short_of(f.c),
        },
        _ => Insn::Literal {
            op: literal_of(op.saturating_sub(0xd8)),
            to: f.a,
            a: f.b,
            value: byte_of(f.c),
        },
    }
}

/// The instruction with this opcode and these fields. The opcode is none of a branch, a call, a filled array or an
/// instruction with a payload.
#[tactic(auto, unfolding(crate::specs::Forms::plain))]
pub fn plain_of(op: u16, f: Fields) -> Insn
    ensures { result ≡ plain op f }
{
    if op < 0x12 {
        move_of(op, f)
    } else if op < 0x16 {
        const_of(op, f)
    } else if op < 0x1a {
        wide_of(op, f)
    } else if op < 0x28 {
        object_of(op, f)
    } else if op < 0x52 {
        array_of(op, f)
    } else if op < 0x6e {
        field_of(op, f)
    } else {
        operation_of(op, f)
    }
}
