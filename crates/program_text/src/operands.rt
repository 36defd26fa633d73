//! Instructions by their place in the table of mnemonics and their operands.

use insn_set::{BinaryOp, CmpOp, Insn, InvokeKind, Item, LiteralOp, Slot, Test, UnaryOp};
use seq::{Seq, Words};
use std::alloc::{AllocError, Global};

pub const SLOTS: [Slot; 3] = [Slot::Word, Slot::Wide, Slot::Object];

pub const ITEMS: [Item; 7] = [
    Item::Plain,
    Item::Wide,
    Item::Object,
    Item::Boolean,
    Item::Byte,
    Item::Char,
    Item::Short,
];

pub const COMPARISONS: [CmpOp; 5] = [
    CmpOp::CmplFloat,
    CmpOp::CmpgFloat,
    CmpOp::CmplDouble,
    CmpOp::CmpgDouble,
    CmpOp::CmpLong,
];

pub const TESTS: [Test; 6] = [Test::Eq, Test::Ne, Test::Lt, Test::Ge, Test::Gt, Test::Le];

pub const INVOKES: [InvokeKind; 5] = [
    InvokeKind::Virtual,
    InvokeKind::Super,
    InvokeKind::Direct,
    InvokeKind::Static,
    InvokeKind::Interface,
];

pub const UNARIES: [UnaryOp; 21] = [
    UnaryOp::NegInt,
    UnaryOp::NotInt,
    UnaryOp::NegLong,
    UnaryOp::NotLong,
    UnaryOp::NegFloat,
    UnaryOp::NegDouble,
    UnaryOp::IntToLong,
    UnaryOp::IntToFloat,
    UnaryOp::IntToDouble,
    UnaryOp::LongToInt,
    UnaryOp::LongToFloat,
    UnaryOp::LongToDouble,
    UnaryOp::FloatToInt,
    UnaryOp::FloatToLong,
    UnaryOp::FloatToDouble,
    UnaryOp::DoubleToInt,
    UnaryOp::DoubleToLong,
    UnaryOp::DoubleToFloat,
    UnaryOp::IntToByte,
    UnaryOp::IntToChar,
    UnaryOp::IntToShort,
];

pub const BINARIES: [BinaryOp; 32] = [
    BinaryOp::AddInt,
    BinaryOp::SubInt,
    BinaryOp::MulInt,
    BinaryOp::DivInt,
    BinaryOp::RemInt,
    BinaryOp::AndInt,
    BinaryOp::OrInt,
    BinaryOp::XorInt,
    BinaryOp::ShlInt,
    BinaryOp::ShrInt,
    BinaryOp::UshrInt,
    BinaryOp::AddLong,
    BinaryOp::SubLong,
    BinaryOp::MulLong,
    BinaryOp::DivLong,
    BinaryOp::RemLong,
    BinaryOp::AndLong,
    BinaryOp::OrLong,
    BinaryOp::XorLong,
    BinaryOp::ShlLong,
    BinaryOp::ShrLong,
    BinaryOp::UshrLong,
    BinaryOp::AddFloat,
    BinaryOp::SubFloat,
    BinaryOp::MulFloat,
    BinaryOp::DivFloat,
    BinaryOp::RemFloat,
    BinaryOp::AddDouble,
    BinaryOp::SubDouble,
    BinaryOp::MulDouble,
    BinaryOp::DivDouble,
    BinaryOp::RemDouble,
];

pub const LITERALS: [LiteralOp; 11] = [
    LiteralOp::AddInt,
    LiteralOp::RsubInt,
    LiteralOp::MulInt,
    LiteralOp::DivInt,
    LiteralOp::RemInt,
    LiteralOp::AndInt,
    LiteralOp::OrInt,
    LiteralOp::XorInt,
    LiteralOp::ShlInt,
    LiteralOp::ShrInt,
    LiteralOp::UshrInt,
];

/// The operands of an instruction, kind by kind. `name` is the number of what is named.
#[derive(Drop)]
pub struct Operands {
    pub registers: Vec<u16>,
    pub numbers: Vec<i128>,
    pub labels: Vec<u32>,
    pub name: u32,
}

impl Operands {
    /// A register, 0 where there are fewer.
    fn register(&self, place: usize) -> u16 {
        self.registers.get(place).copied().unwrap_or(0)
    }

    /// The first three registers.
    fn three(&self) -> (u16, u16, u16) {
        (self.register(0), self.register(1), self.register(2))
    }

    /// The first number, 0 where there is none.
    fn number(&self) -> i128 {
        self.numbers.first().copied().unwrap_or(0)
    }

    /// The first label, 0 where there is none.
    fn label(&self) -> u32 {
        self.labels.first().copied().unwrap_or(0)
    }
}

/// The forms of moves, returns and constants, by their lines in the table from 0 on.
fn moving(form: usize, operation: usize, operands: &Operands) -> Option<Insn> {
    let (a, b) = (operands.register(0), operands.register(1));
    let slot = SLOTS.get(operation).copied();
    let number = operands.number();
    Some(match form {
        0 => Insn::Nop,
        1 => Insn::Move {
            slot: slot?,
            to: a,
            from: b,
        },
        2 => Insn::MoveResult { slot: slot?, to: a },
        3 => Insn::MoveException { to: a },
        4 => Insn::ReturnVoid,
        5 => Insn::Return {
            slot: slot?,
            from: a,
        },
        6 => Insn::Const {
            to: a,
            value: i32::try_from(number).ok()?,
        },
        7 => Insn::ConstWide {
            to: a,
            value: i64::try_from(number).ok()?,
        },
        _ => return None,
    })
}

/// The forms on strings, types and objects, by their lines in the table from 8 on.
fn naming(form: usize, operands: &Operands) -> Option<Insn> {
    let (a, b, name) = (operands.register(0), operands.register(1), operands.name);
    Some(match form {
        8 => Insn::ConstString {
            to: a,
            string: name,
        },
        9 => Insn::ConstClass { to: a, kind: name },
        10 => Insn::MonitorEnter { on: a },
        11 => Insn::MonitorExit { on: a },
        12 => Insn::CheckCast { on: a, kind: name },
        13 => Insn::InstanceOf {
            to: a,
            from: b,
            kind: name,
        },
        14 => Insn::ArrayLength { to: a, from: b },
        15 => Insn::NewInstance { to: a, kind: name },
        16 => Insn::NewArray {
            to: a,
            size: b,
            kind: name,
        },
        19 => Insn::Throw { on: a },
        20 => Insn::Goto {
            target: operands.label(),
        },
        _ => return None,
    })
}

/// The tests of numbers, by their lines in the table, 24 and 25.
fn testing(form: usize, operation: usize, operands: &Operands) -> Option<Insn> {
    let test = TESTS.get(operation).copied()?;
    let (a, b) = (operands.register(0), operands.register(1));
    let target = operands.label();
    Some(match form {
        24 => Insn::If { test, a, b, target },
        25 => Insn::IfZero { test, a, target },
        _ => return None,
    })
}

/// The operations on numbers, by their lines in the table, 23 and from 33 on.
fn counting(form: usize, operation: usize, operands: &Operands) -> Option<Insn> {
    let (a, b, c) = operands.three();
    Some(match form {
        23 => Insn::Cmp {
            op: COMPARISONS.get(operation).copied()?,
            to: a,
            a: b,
            b: c,
        },
        33 => Insn::Unary {
            op: UNARIES.get(operation).copied()?,
            to: a,
            from: b,
        },
        34 => Insn::Binary {
            op: BINARIES.get(operation).copied()?,
            to: a,
            a: b,
            b: c,
        },
        35 => Insn::Literal {
            op: LITERALS.get(operation).copied()?,
            to: a,
            a: b,
            value: i16::try_from(operands.number()).ok()?,
        },
        _ => return None,
    })
}

/// The forms on items of arrays and fields, by their lines in the table from 26 on.
fn holding(form: usize, operation: usize, operands: &Operands) -> Option<Insn> {
    let (a, b, c) = operands.three();
    let item = ITEMS.get(operation).copied()?;
    let field = operands.name;
    Some(match form {
        26 => Insn::ArrayGet {
            item,
            to: a,
            array: b,
            index: c,
        },
        27 => Insn::ArrayPut {
            item,
            from: a,
            array: b,
            index: c,
        },
        28 => Insn::InstanceGet {
            item,
            to: a,
            on: b,
            field,
        },
        29 => Insn::InstancePut {
            item,
            from: a,
            on: b,
            field,
        },
        30 => Insn::StaticGet { item, to: a, field },
        31 => Insn::StaticPut {
            item,
            from: a,
            field,
        },
        _ => return None,
    })
}

/// The bits of items, none where one has more than 64.
fn bits_of(alloc: Global, numbers: &[i128]) -> Result<Option<Seq<u64>>, AllocError> {
    let mut items = Seq::new(alloc);
    for number in numbers {
        let Ok(item) = u64::try_from(*number) else {
            return Ok(None);
        };
        items.push(item)?;
    }
    Ok(Some(items))
}

/// The keys of a switch, none where one has more than 32 bits.
fn keys_of(alloc: Global, numbers: &[i128]) -> Result<Option<Seq<i32>>, AllocError> {
    let mut keys = Seq::new(alloc);
    for number in numbers {
        let Ok(key) = i32::try_from(*number) else {
            return Ok(None);
        };
        keys.push(key)?;
    }
    Ok(Some(keys))
}

/// An array with its items, the first number being the bytes of one.
fn filled(alloc: Global, operands: &Operands) -> Result<Option<Insn>, AllocError> {
    let Some((width, items)) = operands.numbers.as_slice().split_first() else {
        return Ok(None);
    };
    let Some(items) = bits_of(alloc, items)? else {
        return Ok(None);
    };
    let Ok(width) = u8::try_from(*width) else {
        return Ok(None);
    };
    Ok(Some(Insn::FillArray {
        on: operands.register(0),
        width,
        items,
    }))
}

/// A switch whose keys ascend by one or are told.
fn switch(alloc: Global, is_packed: bool, operands: &Operands) -> Result<Option<Insn>, AllocError> {
    let on = operands.register(0);
    let targets = Seq::of_vec(Vec::from_slice(alloc, operands.labels.as_slice())?);
    if is_packed {
        let Ok(first) = i32::try_from(operands.number()) else {
            return Ok(None);
        };
        return Ok(Some(Insn::PackedSwitch { on, first, targets }));
    }
    Ok(match keys_of(alloc, operands.numbers.as_slice())? {
        Some(keys) => Some(Insn::SparseSwitch { on, keys, targets }),
        None => None,
    })
}

/// The instruction of a form, a line of the table of mnemonics from 0 on, with one of its operations and its operands;
/// none where a number is too large.
pub fn insn_of(
    alloc: Global,
    form: usize,
    operation: usize,
    operands: &Operands,
) -> Result<Option<Insn>, AllocError> {
    Ok(match form {
        0..=7 => moving(form, operation, operands),
        17 => Some(Insn::FilledNewArray {
            kind: operands.name,
            args: Words::of_slice(alloc, operands.registers.as_slice())?,
        }),
        18 => filled(alloc, operands)?,
        21 => switch(alloc, true, operands)?,
        22 => switch(alloc, false, operands)?,
        8..=20 => naming(form, operands),
        24..=25 => testing(form, operation, operands),
        26..=31 => holding(form, operation, operands),
        32 => match INVOKES.get(operation) {
            Some(kind) => Some(Insn::Invoke {
                kind: *kind,
                method: operands.name,
                args: Words::of_slice(alloc, operands.registers.as_slice())?,
            }),
            None => None,
        },
        _ => counting(form, operation, operands),
    })
}
