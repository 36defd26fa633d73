//! What each form leaves in the registers.

ghost use Rattle.std.specs.Prelude.{◌≡◌, IfOk};
ghost use Rattle.program_model.specs.declared.program.Program.{Program};
ghost use Rattle.dom_frame.specs.Classes.{AreClasses};
ghost use Rattle.dom_frame.specs.Steps.{after, after_constant, after_object, after_array, after_field, after_number, after_end, truth, array_length};

use crate::classes::Classes;
use crate::registers::{moved, put, put_sized, then_put};
use crate::uses::{called, cast, compared, made, one_operand, two_operands, used, with_literal};
use domains::Value;
use insn_set::Insn;
use pat_map::PatMap;
use std::alloc::{AllocError, Global};
use value_ops::{any_object, words_between};

/// What a test of types answers: 0 or 1.
fn truth() -> Value
    ensures { result ≡ truth }
{
    words_between(0, 1)
}

/// What the length of an array is.
fn array_length() -> Value
    ensures { result ≡ array_length }
{
    words_between(0, i32::MAX)
}

/// The registers behind a form that ends a method, or that leaves all registers as they are.
fn after_end(registers: &PatMap<Value>, insn: &Insn) -> Result<Option<PatMap<Value>>, AllocError>
    ensures { IfOk result (λ o. o ≡ after_end insn.now registers.now) }
{
    match insn {
        Insn::ReturnVoid | Insn::Return { .. } | Insn::Throw { .. } => Ok(None),
        _ => Ok(Some(registers.share()?)),
    }
}

/// The registers behind an operation on numbers.
fn after_number(
    alloc: Global,
    registers: &PatMap<Value>,
    insn: &Insn,
) -> Result<Option<PatMap<Value>>, AllocError>
    ensures { IfOk result (λ o. o ≡ after_number insn.now registers.now) }
{
    match insn {
        Insn::Cmp { op, to, a, b } => compared(alloc, registers, *op, *to, *a, *b),
        Insn::Unary { op, to, from } => one_operand(alloc, registers, *op, *to, *from),
        Insn::Binary { op, to, a, b } => two_operands(alloc, registers, *op, *to, *a, *b),
        Insn::Literal { op, to, a, value } => {
            with_literal(alloc, registers, *op, *to, *a, *value)
        }
        _ => after_end(registers, insn),
    }
}

/// The registers behind a get or a put of a field, and behind a call.
fn after_field(
    alloc: Global,
    registers: &PatMap<Value>,
    insn: &Insn,
    given: &Value,
) -> Result<Option<PatMap<Value>>, AllocError>
    ensures { IfOk result (λ o. o ≡ after_field insn.now given.now registers.now) }
{
    match insn {
        Insn::InstanceGet { item, to, on, .. } => {
            let left = used(alloc, registers, *on)?;
            then_put(alloc, left, item.is_wide(), *to, given.same())
        }
        Insn::StaticGet { item, to, .. } => Ok(Some(put_sized(
            alloc,
            registers,
            item.is_wide(),
            *to,
            given.same(),
        )?)),
        Insn::InstancePut { on, .. } => used(alloc, registers, *on),
        Insn::Invoke { kind, args, .. } => called(alloc, registers, *kind, args),
        _ => after_number(alloc, registers, insn),
    }
}

/// The registers behind an operation on an array.
fn after_array(
    alloc: Global,
    registers: &PatMap<Value>,
    insn: &Insn,
    given: &Value,
) -> Result<Option<PatMap<Value>>, AllocError>
    ensures { IfOk result (λ o. o ≡ after_array insn.now given.now registers.now) }
{
    match insn {
        Insn::ArrayLength { to, from } => {
            let left = used(alloc, registers, *from)?;
            then_put(alloc, left, false, *to, array_length())
        }
        Insn::ArrayGet {
            item,
            to,
            array,
            ..
        } => {
            let left = used(alloc, registers, *array)?;
            then_put(alloc, left, item.is_wide(), *to, Value::any())
        }
        Insn::ArrayPut { array, .. } => used(alloc, registers, *array),
        Insn::FillArray { on, .. } => used(alloc, registers, *on),
        _ => after_field(alloc, registers, insn, given),
    }
}

/// The registers behind a monitor, a cast or a new object.
fn after_object(
    alloc: Global,
    classes: &Classes,
    registers: &PatMap<Value>,
    insn: &Insn,
    given: &Value,
) -> Result<Option<PatMap<Value>>, AllocError>
    ensures { (p : Program) → AreClasses p classes.now → IfOk result (λ o. o ≡ after_object p insn.now given.now registers.now) }
{
    match insn {
        Insn::MonitorEnter { on } | Insn::MonitorExit { on } => used(alloc, registers, *on),
        Insn::CheckCast { on, kind } => cast(alloc, classes, registers, *on, *kind),
        Insn::NewInstance { to, kind } | Insn::NewArray { to, kind, .. } => {
            made(alloc, classes, registers, *to, *kind)
        }
        _ => after_array(alloc, registers, insn, given),
    }
}

/// The registers behind a constant or a test of types.
fn after_constant(
    alloc: Global,
    classes: &Classes,
    registers: &PatMap<Value>,
    insn: &Insn,
    given: &Value,
) -> Result<Option<PatMap<Value>>, AllocError>
    ensures { (p : Program) → AreClasses p classes.now → IfOk result (λ o. o ≡ after_constant p insn.now given.now registers.now) }
{
    match insn {
        Insn::Const { to, value } => {
            let constant = Value::constant(value.cast_unsigned());
            Ok(Some(put(alloc, registers, *to, constant)?))
        }
        Insn::ConstWide { to, value } => {
            let constant = Value::wide(value.cast_unsigned());
            Ok(Some(put_sized(alloc, registers, true, *to, constant)?))
        }
        Insn::ConstString { to, .. } | Insn::ConstClass { to, .. } => {
            Ok(Some(put(alloc, registers, *to, any_object())?))
        }
        Insn::InstanceOf { to, .. } => Ok(Some(put(alloc, registers, *to, truth())?)),
        _ => after_object(alloc, classes, registers, insn, given),
    }
}

/// The registers behind an instruction that goes on at the next position, or at its only target; none where nothing goes
/// on. `given` is what a move of a result takes, or what the field holds that is got, and isn't looked at for other forms.
/// A conditional branch and a switch leave all as it is. The only error is want of memory.
pub fn step(
    alloc: Global,
    classes: &Classes,
    registers: &PatMap<Value>,
    insn: &Insn,
    given: &Value,
) -> Result<Option<PatMap<Value>>, AllocError>
    ensures { (p : Program) → AreClasses p classes.now → IfOk result (λ o. o ≡ after p insn.now given.now registers.now) }
{
    match insn {
        Insn::Move { slot, to, from } => Ok(Some(moved(alloc, registers, *slot, *to, *from)?)),
        Insn::MoveResult { slot, to } => Ok(Some(put_sized(
            alloc,
            registers,
            slot.is_wide(),
            *to,
            given.same(),
        )?)),
        Insn::MoveException { to } => Ok(Some(put(alloc, registers, *to, any_object())?)),
        _ => after_constant(alloc, classes, registers, insn, given),
    }
}
