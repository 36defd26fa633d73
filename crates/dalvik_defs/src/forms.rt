//! The forms of an instruction (Dalvik bytecode) with names in place of pool numbers.

use crate::names::{FieldKey, MethodKey};
use dex_base::Text;
use insn_set::{BinaryOp, CmpOp, InvokeKind, Item, LiteralOp, Slot, Test, UnaryOp};
use seq::Seq;

/// One instruction, as `Insn` is one, in which texts, types, fields and methods are named.
#[derive(Drop)]
pub enum Form {
    Nop,
    Move {
        slot: Slot,
        to: u16,
        from: u16,
    },
    MoveResult {
        slot: Slot,
        to: u16,
    },
    MoveException {
        to: u16,
    },
    ReturnVoid,
    Return {
        slot: Slot,
        from: u16,
    },
    Const {
        to: u16,
        value: i32,
    },
    ConstWide {
        to: u16,
        value: i64,
    },
    ConstString {
        to: u16,
        text: Text,
    },
    ConstClass {
        to: u16,
        kind: Text,
    },
    MonitorEnter {
        on: u16,
    },
    MonitorExit {
        on: u16,
    },
    CheckCast {
        on: u16,
        kind: Text,
    },
    InstanceOf {
        to: u16,
        from: u16,
        kind: Text,
    },
    ArrayLength {
        to: u16,
        from: u16,
    },
    NewInstance {
        to: u16,
        kind: Text,
    },
    NewArray {
        to: u16,
        size: u16,
        kind: Text,
    },
    FilledNewArray {
        kind: Text,
        args: Seq<u16>,
    },
    FillArray {
        on: u16,
        width: u8,
        items: Seq<u64>,
    },
    Throw {
        on: u16,
    },
    Goto {
        target: u32,
    },
    PackedSwitch {
        on: u16,
        first: i32,
        targets: Seq<u32>,
    },
    SparseSwitch {
        on: u16,
        keys: Seq<i32>,
        targets: Seq<u32>,
    },
    Cmp {
        op: CmpOp,
        to: u16,
        a: u16,
        b: u16,
    },
    If {
        test: Test,
        a: u16,
        b: u16,
        target: u32,
    },
    IfZero {
        test: Test,
        a: u16,
        target: u32,
    },
    ArrayGet {
        item: Item,
        to: u16,
        array: u16,
        index: u16,
    },
    ArrayPut {
        item: Item,
        from: u16,
        array: u16,
        index: u16,
    },
    InstanceGet {
        item: Item,
        to: u16,
        on: u16,
        field: FieldKey,
    },
    InstancePut {
        item: Item,
        from: u16,
        on: u16,
        field: FieldKey,
    },
    StaticGet {
        item: Item,
        to: u16,
        field: FieldKey,
    },
    StaticPut {
        item: Item,
        from: u16,
        field: FieldKey,
    },
    Invoke {
        kind: InvokeKind,
        method: MethodKey,
        args: Seq<u16>,
    },
    Unary {
        op: UnaryOp,
        to: u16,
        from: u16,
    },
    Binary {
        op: BinaryOp,
        to: u16,
        a: u16,
        b: u16,
    },
    Literal {
        op: LiteralOp,
        to: u16,
        a: u16,
        value: i16,
    },
}
