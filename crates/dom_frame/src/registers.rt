//! Registers, read and written.

ghost use Rattle.std.specs.Prelude.{◌≡◌, ◌+◌, IfOk, IsTrue, Option, Some};
ghost use Rattle.std.specs.FinMap as finite;
ghost use Rattle.dom_frame.specs.Registers.{Registers, value_at, filled, put, put_wide, put_sized, moved, refined, refined_both, then_put};

use domains::Value;
use insn_set::Slot;
use pat_map::{MapValue, PatMap};
use std::alloc::{AllocError, Global};

/// The value of a register, that of nothing where it has none.
pub(crate) fn value_at(registers: &PatMap<Value>, register: u32) -> Value
    ensures { result ≡ value_at registers.now register }
{
    match registers.get(register) {
        Some(value) => value.same(),
        None => Value::none(),
    }
}

/// The same value in each of the first registers.
pub(crate) fn filled(alloc: Global, size: u32, value: &Value) -> Result<PatMap<Value>, AllocError>
    ensures { IfOk result (λ x. x ≡ filled size value.now) }
{
    let mut registers = PatMap::empty();
    for register in 0..size {
        registers = registers.set(alloc, register, value.same())?;
    }
    Ok(registers)
}

/// The registers with a value in one.
pub(crate) fn put(
    alloc: Global,
    registers: &PatMap<Value>,
    to: u16,
    value: Value,
) -> Result<PatMap<Value>, AllocError>
    ensures { IfOk result (λ x. x ≡ put to value registers.now) }
{
    registers.set(alloc, u32::from(to), value)
}

/// The registers with a wide value in two, of which the low one stands for it.
fn put_wide(
    alloc: Global,
    registers: &PatMap<Value>,
    to: u16,
    value: Value,
) -> Result<PatMap<Value>, AllocError>
    ensures { IfOk result (λ x. x ≡ put_wide to value registers.now) }
{
    let low = put(alloc, registers, to, value)?;
    low.set(alloc, u32::from(to) + 1, Value::any())
}

/// The registers with a value in one, or in two.
pub(crate) fn put_sized(
    alloc: Global,
    registers: &PatMap<Value>,
    wide: bool,
    to: u16,
    value: Value,
) -> Result<PatMap<Value>, AllocError>
    ensures { IfOk result (λ x. x ≡ put_sized wide to value registers.now) }
{
    if wide {
        put_wide(alloc, registers, to, value)
    } else {
        put(alloc, registers, to, value)
    }
}

/// The registers with what others hold.
pub(crate) fn moved(
    alloc: Global,
    registers: &PatMap<Value>,
    slot: Slot,
    to: u16,
    from: u16,
) -> Result<PatMap<Value>, AllocError>
    ensures { IfOk result (λ x. x ≡ moved slot to from registers.now) }
{
    let low = put(alloc, registers, to, value_at(registers, u32::from(from)))?;
    match slot {
        Slot::Wide => {
            let high = value_at(registers, u32::from(from) + 1);
            low.set(alloc, u32::from(to) + 1, high)
        }
        _ => Ok(low),
    }
}

/// Whether a register surely has this value.
fn has(registers: &PatMap<Value>, register: u32, value: &Value) -> bool
    ensures { IsTrue result → finite.get registers.now register ≡ Some value.now }
{
    match registers.get(register) {
        Some(own) => own.is_same(value),
        None => false,
    }
}

/// The registers with a value in one, which are shared whole where it stands there already.
#[tactic(auto, using(crate::proofs::Staying::stays))]
fn put_left(
    alloc: Global,
    registers: &PatMap<Value>,
    to: u16,
    value: Value,
) -> Result<PatMap<Value>, AllocError>
    ensures { IfOk result (λ x. x ≡ put to value registers.now) }
{
    if has(registers, u32::from(to), &value) {
        registers.share()
    } else {
        put(alloc, registers, to, value)
    }
}

/// The registers with what is left of one, where anything is.
pub(crate) fn refined(
    alloc: Global,
    registers: &PatMap<Value>,
    register: u16,
    value: Option<Value>,
) -> Result<Option<PatMap<Value>>, AllocError>
    ensures { IfOk result (λ o. o ≡ refined register value registers.now) }
{
    match value {
        Some(value) => Ok(Some(put_left(alloc, registers, register, value)?)),
        None => Ok(None),
    }
}

/// The registers with what is left of two, where anything is.
pub(crate) fn refined_both(
    alloc: Global,
    registers: &PatMap<Value>,
    first: u16,
    second: u16,
    values: Option<(Value, Value)>,
) -> Result<Option<PatMap<Value>>, AllocError>
    ensures { IfOk result (λ o. o ≡ refined_both first second values registers.now) }
{
    match values {
        Some((one, other)) => {
            let left = put_left(alloc, registers, first, one)?;
            Ok(Some(put_left(alloc, &left, second, other)?))
        }
        None => Ok(None),
    }
}

/// Registers with a value in one more, where there are any.
pub(crate) fn then_put(
    alloc: Global,
    registers: Option<PatMap<Value>>,
    wide: bool,
    to: u16,
    value: Value,
) -> Result<Option<PatMap<Value>>, AllocError>
    ensures { IfOk result (λ o. o ≡ then_put wide to value registers) }
{
    match registers {
        Some(registers) => Ok(Some(put_sized(alloc, &registers, wide, to, value)?)),
        None => Ok(None),
    }
}
