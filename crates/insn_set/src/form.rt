//! The forms of an instruction (Dalvik bytecode), with registers, pool numbers and positions in place of spellings.

use crate::ops::{BinaryOp, CmpOp, InvokeKind, Item, LiteralOp, Slot, Test, UnaryOp};
use seq::{Seq, Words};

/// One instruction. Registers are `u16`, a wide value stands in the register named and the next one. A `target` is the
/// position of an instruction in its body. `string`, `kind`, `field` and `method` are numbers of the string, type,
/// field and method tables; the `kind` of an `Invoke` says how the method is found. `items` of a `FillArray` are the
/// items' bits, each of `width` bytes.
#[derive(PartialEq, Eq, Drop)]
pub enum Insn {
    Nop,
    Move {
        slot: Slot,
        to: u16,
        from: u16,
    },
    MoveResult {
        slot: Slot,
        to: u16,
    },
    MoveException {
        to: u16,
    },
    ReturnVoid,
    Return {
        slot: Slot,
        from: u16,
    },
    Const {
        to: u16,
        value: i32,
    },
    ConstWide {
        to: u16,
        value: i64,
    },
    ConstString {
        to: u16,
        string: u32,
    },
    ConstClass {
        to: u16,
        kind: u32,
    },
    MonitorEnter {
        on: u16,
    },
    MonitorExit {
        on: u16,
    },
    CheckCast {
        on: u16,
        kind: u32,
    },
    InstanceOf {
        to: u16,
        from: u16,
        kind: u32,
    },
    ArrayLength {
        to: u16,
        from: u16,
    },
    NewInstance {
        to: u16,
        kind: u32,
    },
    NewArray {
        to: u16,
        size: u16,
        kind: u32,
    },
    FilledNewArray {
        kind: u32,
        args: Words,
    },
    FillArray {
        on: u16,
        width: u8,
        items: Seq<u64>,
    },
    Throw {
        on: u16,
    },
    Goto {
        target: u32,
    },
    PackedSwitch {
        on: u16,
        first: i32,
        targets: Seq<u32>,
    },
    SparseSwitch {
        on: u16,
        keys: Seq<i32>,
        targets: Seq<u32>,
    },
    Cmp {
        op: CmpOp,
        to: u16,
        a: u16,
        b: u16,
    },
    If {
        test: Test,
        a: u16,
        b: u16,
        target: u32,
    },
    IfZero {
        test: Test,
        a: u16,
        target: u32,
    },
    ArrayGet {
        item: Item,
        to: u16,
        array: u16,
        index: u16,
    },
    ArrayPut {
        item: Item,
        from: u16,
        array: u16,
        index: u16,
    },
    InstanceGet {
        item: Item,
        to: u16,
        on: u16,
        field: u32,
    },
    InstancePut {
        item: Item,
        from: u16,
        on: u16,
        field: u32,
    },
    StaticGet {
        item: Item,
        to: u16,
        field: u32,
    },
    StaticPut {
        item: Item,
        from: u16,
        field: u32,
    },
    Invoke {
        kind: InvokeKind,
        method: u32,
        args: Words,
    },
    Unary {
        op: UnaryOp,
        to: u16,
        from: u16,
    },
    Binary {
        op: BinaryOp,
        to: u16,
        a: u16,
        b: u16,
    },
    Literal {
        op: LiteralOp,
        to: u16,
        a: u16,
        value: i16,
    },
}
