//! What an instruction that uses registers leaves in them, operation by operation.

ghost use Rattle.std.specs.Prelude.{◌≡◌, IfOk};
ghost use Rattle.program_model.specs.declared.program.Program.{Program};
ghost use Rattle.dom_frame.specs.Classes.{AreClasses};
ghost use Rattle.dom_frame.specs.Steps.{used, receiver, called, cast, made, compared, one_operand, two_operands, with_literal};

use crate::classes::Classes;
use crate::registers::{put, put_sized, refined, value_at};
use domains::Value;
use insn_set::{BinaryOp, CmpOp, InvokeKind, LiteralOp, UnaryOp};
use pat_map::PatMap;
use seq::Words;
use std::alloc::{AllocError, Global};
use value_ops::{binary, compare, held, literal, unary};

/// A register that was used as an object.
pub(crate) fn used(
    alloc: Global,
    registers: &PatMap<Value>,
    register: u16,
) -> Result<Option<PatMap<Value>>, AllocError>
    ensures { IfOk result (λ o. o ≡ used register registers.now) }
{
    let value = held(&value_at(registers, u32::from(register)));
    refined(alloc, registers, register, value)
}

/// The first of some registers, 0 where there is none.
fn receiver(args: &[u16]) -> u16
    ensures { result ≡ receiver args.now }
{
    match args {
        [first, ..] => *first,
        [] => 0,
    }
}

/// The registers behind a call that has come back.
pub(crate) fn called(
    alloc: Global,
    registers: &PatMap<Value>,
    kind: InvokeKind,
    args: &Words,
) -> Result<Option<PatMap<Value>>, AllocError>
    ensures { IfOk result (λ o. o ≡ called kind args.now registers.now) }
{
    match kind {
        InvokeKind::Static => Ok(Some(registers.share()?)),
        _ => used(alloc, registers, receiver(args.as_slice())),
    }
}

/// The registers behind a cast.
pub(crate) fn cast(
    alloc: Global,
    classes: &Classes,
    registers: &PatMap<Value>,
    on: u16,
    kind: u32,
) -> Result<Option<PatMap<Value>>, AllocError>
    ensures { (p : Program) → AreClasses p classes.now → IfOk result (λ o. o ≡ cast p on kind registers.now) }
{
    let value = classes.cast(&value_at(registers, u32::from(on)), kind);
    Ok(Some(put(alloc, registers, on, value)?))
}

/// The registers with a new object.
pub(crate) fn made(
    alloc: Global,
    classes: &Classes,
    registers: &PatMap<Value>,
    to: u16,
    kind: u32,
) -> Result<Option<PatMap<Value>>, AllocError>
    ensures { (p : Program) → AreClasses p classes.now → IfOk result (λ o. o ≡ made p to kind registers.now) }
{
    Ok(Some(put(alloc, registers, to, classes.made(kind))?))
}

/// The registers with how two others compare.
pub(crate) fn compared(
    alloc: Global,
    registers: &PatMap<Value>,
    op: CmpOp,
    to: u16,
    a: u16,
    b: u16,
) -> Result<Option<PatMap<Value>>, AllocError>
    ensures { IfOk result (λ o. o ≡ compared op to a b registers.now) }
{
    let value = compare(
        op,
        &value_at(registers, u32::from(a)),
        &value_at(registers, u32::from(b)),
    );
    Ok(Some(put(alloc, registers, to, value)?))
}

/// The registers with what an operator makes of one.
pub(crate) fn one_operand(
    alloc: Global,
    registers: &PatMap<Value>,
    op: UnaryOp,
    to: u16,
    from: u16,
) -> Result<Option<PatMap<Value>>, AllocError>
    ensures { IfOk result (λ o. o ≡ one_operand op to from registers.now) }
{
    let value = unary(op, &value_at(registers, u32::from(from)));
    Ok(Some(put_sized(alloc, registers, op.writes_wide(), to, value)?))
}

/// The registers with what an operator makes of two, where it answers.
pub(crate) fn two_operands(
    alloc: Global,
    registers: &PatMap<Value>,
    op: BinaryOp,
    to: u16,
    a: u16,
    b: u16,
) -> Result<Option<PatMap<Value>>, AllocError>
    ensures { IfOk result (λ o. o ≡ two_operands op to a b registers.now) }
{
    let value = binary(
        op,
        &value_at(registers, u32::from(a)),
        &value_at(registers, u32::from(b)),
    );
    match value {
        Some(value) => Ok(Some(put_sized(alloc, registers, op.is_wide(), to, value)?)),
        None => Ok(None),
    }
}

/// The registers with what an operator makes of one and a literal, where it answers.
pub(crate) fn with_literal(
    alloc: Global,
    registers: &PatMap<Value>,
    op: LiteralOp,
    to: u16,
    a: u16,
    value: i16,
) -> Result<Option<PatMap<Value>>, AllocError>
    ensures { IfOk result (λ o. o ≡ with_literal op to a value registers.now) }
{
    let answer = literal(op, &value_at(registers, u32::from(a)), value);
    refined(alloc, registers, to, answer)
}
