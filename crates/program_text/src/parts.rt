//! The parts of an instruction as they are printed.

use crate::operands::{BINARIES, COMPARISONS, INVOKES, ITEMS, LITERALS, SLOTS, TESTS, UNARIES};
use insn_set::Insn;

/// An instruction without its lists: its place in the table of mnemonics, its first registers, how many there are, and a
/// number, a label and the number of what it names.
#[derive(Clone, Copy)]
pub struct Parts {
    pub form: usize,
    pub operation: usize,
    pub registers: [u16; 3],
    pub count: usize,
    pub number: Option<i64>,
    pub label: Option<u32>,
    pub name: u32,
}

impl Parts {
    /// A form of one operation with up to three registers.
    fn new(form: usize, registers: [u16; 3], count: usize) -> Parts {
        Parts {
            form,
            operation: 0,
            registers,
            count,
            number: None,
            label: None,
            name: 0,
        }
    }

    fn operation(self, operation: usize) -> Parts {
        Parts { operation, ..self }
    }

    fn number(self, number: i64) -> Parts {
        Parts {
            number: Some(number),
            ..self
        }
    }

    fn label(self, label: u32) -> Parts {
        Parts {
            label: Some(label),
            ..self
        }
    }

    fn name(self, name: u32) -> Parts {
        Parts { name, ..self }
    }
}

/// The place of an operation among those of its form.
fn place<T: PartialEq>(operations: &[T], operation: &T) -> usize {
    operations
        .iter()
        .position(|one| one == operation)
        .unwrap_or(0)
}

/// The parts of moves, returns, constants and numbers.
fn plain_parts(insn: &Insn) -> Option<Parts> {
    Some(match insn {
        Insn::Move { slot, to, from } => {
            Parts::new(1, [*to, *from, 0], 2).operation(place(&SLOTS, slot))
        }
        Insn::MoveResult { slot, to } => Parts::new(2, [*to, 0, 0], 1).operation(place(
            &SLOTS, slot,
        )),
        Insn::MoveException { to } => Parts::new(3, [*to, 0, 0], 1),
        Insn::ReturnVoid => Parts::new(4, [0, 0, 0], 0),
        Insn::Return { slot, from } => Parts::new(5, [*from, 0, 0], 1).operation(place(
            &SLOTS, slot,
        )),
        Insn::Const { to, value } => Parts::new(6, [*to, 0, 0], 1).number(i64::from(*value)),
        Insn::ConstWide { to, value } => Parts::new(7, [*to, 0, 0], 1).number(*value),
        Insn::Cmp { op, to, a, b } => {
            Parts::new(23, [*to, *a, *b], 3).operation(place(&COMPARISONS, op))
        }
        Insn::Unary { op, to, from } => {
            Parts::new(33, [*to, *from, 0], 2).operation(place(&UNARIES, op))
        }
        Insn::Binary { op, to, a, b } => {
            Parts::new(34, [*to, *a, *b], 3).operation(place(&BINARIES, op))
        }
        Insn::Literal { op, to, a, value } => Parts::new(35, [*to, *a, 0], 2)
            .operation(place(&LITERALS, op))
            .number(i64::from(*value)),
        _ => return None,
    })
}

/// The parts of forms on strings, types, objects and branches.
fn naming_parts(insn: &Insn) -> Option<Parts> {
    Some(match insn {
        Insn::ConstString { to, string } => Parts::new(8, [*to, 0, 0], 1).name(*string),
        Insn::ConstClass { to, kind } => Parts::new(9, [*to, 0, 0], 1).name(*kind),
        Insn::MonitorEnter { on } => Parts::new(10, [*on, 0, 0], 1),
        Insn::MonitorExit { on } => Parts::new(11, [*on, 0, 0], 1),
        Insn::CheckCast { on, kind } => Parts::new(12, [*on, 0, 0], 1).name(*kind),
        Insn::InstanceOf { to, from, kind } => Parts::new(13, [*to, *from, 0], 2).name(*kind),
        Insn::ArrayLength { to, from } => Parts::new(14, [*to, *from, 0], 2),
        Insn::NewInstance { to, kind } => Parts::new(15, [*to, 0, 0], 1).name(*kind),
        Insn::NewArray { to, size, kind } => Parts::new(16, [*to, *size, 0], 2).name(*kind),
        Insn::Throw { on } => Parts::new(19, [*on, 0, 0], 1),
        Insn::Goto { target } => Parts::new(20, [0, 0, 0], 0).label(*target),
        Insn::If { test, a, b, target } => Parts::new(24, [*a, *b, 0], 2)
            .operation(place(&TESTS, test))
            .label(*target),
        Insn::IfZero { test, a, target } => Parts::new(25, [*a, 0, 0], 1)
            .operation(place(&TESTS, test))
            .label(*target),
        _ => return None,
    })
}

/// The parts of calls and of what has a list.
fn listing_parts(insn: &Insn) -> Parts {
    match insn {
        Insn::FilledNewArray { kind, .. } => Parts::new(17, [0, 0, 0], 0).name(*kind),
        Insn::FillArray { on, width, .. } => {
            Parts::new(18, [*on, 0, 0], 1).number(i64::from(*width))
        }
        Insn::PackedSwitch { on, first, .. } => {
            Parts::new(21, [*on, 0, 0], 1).number(i64::from(*first))
        }
        Insn::SparseSwitch { on, .. } => Parts::new(22, [*on, 0, 0], 1),
        Insn::Invoke { kind, method, .. } => Parts::new(32, [0, 0, 0], 0)
            .operation(place(&INVOKES, kind))
            .name(*method),
        _ => Parts::new(0, [0, 0, 0], 0),
    }
}

/// The parts of forms on items, of calls and of what has a list.
fn holding_parts(insn: &Insn) -> Parts {
    match insn {
        Insn::ArrayGet {
            item,
            to,
            array,
            index,
        } => Parts::new(26, [*to, *array, *index], 3).operation(place(&ITEMS, item)),
        Insn::ArrayPut {
            item,
            from,
            array,
            index,
        } => Parts::new(27, [*from, *array, *index], 3).operation(place(&ITEMS, item)),
        Insn::InstanceGet {
            item,
            to,
            on,
            field,
        } => Parts::new(28, [*to, *on, 0], 2)
            .operation(place(&ITEMS, item))
            .name(*field),
        Insn::InstancePut {
            item,
            from,
            on,
            field,
        } => Parts::new(29, [*from, *on, 0], 2)
            .operation(place(&ITEMS, item))
            .name(*field),
        Insn::StaticGet { item, to, field } => Parts::new(30, [*to, 0, 0], 1)
            .operation(place(&ITEMS, item))
            .name(*field),
        Insn::StaticPut { item, from, field } => Parts::new(31, [*from, 0, 0], 1)
            .operation(place(&ITEMS, item))
            .name(*field),
        _ => listing_parts(insn),
    }
}

/// The parts of an instruction.
pub fn parts_of(insn: &Insn) -> Parts {
    match plain_parts(insn) {
        Some(parts) => parts,
        None => match naming_parts(insn) {
            Some(parts) => parts,
            None => holding_parts(insn),
        },
    }
}
