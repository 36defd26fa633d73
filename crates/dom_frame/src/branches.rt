//! What the way that a branch goes says of its operands.

ghost use Rattle.std.specs.Prelude.{◌≡◌, ◌<◌, ◌^◌, IfOk, length, take};
ghost use Rattle.std.specs.Option.{option_map};
ghost use Rattle.insn_set.specs.Flow.{targets_of};
ghost use Rattle.dom_frame.specs.Steps.{branched, unswitched, at_key, switched};

use crate::registers::{refined, refined_both, value_at};
use domains::Value;
use insn_set::Insn;
use pat_map::PatMap;
use std::alloc::{AllocError, Global};
use value_ops::{keyed, refine, unkeyed, unpacked};

/// The first of two values.
fn first(values: Option<(Value, Value)>) -> Option<Value>
    ensures { result ≡ option_map (λ v. v.0) values }
{
    match values {
        Some((value, _)) => Some(value),
        None => None,
    }
}

/// The registers where the test of a conditional branch passes, or doesn't, as `taken` says; none where it can't answer
/// so. Other forms leave all as it is. The only error is want of memory.
pub fn branch(
    alloc: Global,
    registers: &PatMap<Value>,
    insn: &Insn,
    taken: bool,
) -> Result<Option<PatMap<Value>>, AllocError>
    ensures { IfOk result (λ o. o ≡ branched taken insn.now registers.now) }
{
    match insn {
        Insn::If { test, a, b, .. } => {
            let (x, y) = (
                value_at(registers, u32::from(*a)),
                value_at(registers, u32::from(*b)),
            );
            refined_both(alloc, registers, *a, *b, refine(taken, *test, &x, &y))
        }
        Insn::IfZero { test, a, .. } => {
            let value = value_at(registers, u32::from(*a));
            let left = first(refine(taken, *test, &value, &Value::constant(0)));
            refined(alloc, registers, *a, left)
        }
        _ => Ok(Some(registers.share()?)),
    }
}

/// The keys that have targets.
fn with_targets(keys: &[i32], targets: usize) -> &[i32]
    ensures { result.now ≡ take targets keys.now }
{
    if targets < keys.len() {
        &keys[..targets]
    } else {
        keys
    }
}

/// The registers where a switch goes on at the next position; none where its operand is surely a key. Other forms leave
/// all as it is. The only error is want of memory.
pub fn switch_past(
    alloc: Global,
    registers: &PatMap<Value>,
    insn: &Insn,
) -> Result<Option<PatMap<Value>>, AllocError>
    requires { length (targets_of insn.now) < 2 ^ 32 }
    ensures { IfOk result (λ o. o ≡ unswitched insn.now registers.now) }
{
    match insn {
        Insn::PackedSwitch { on, first, targets } => {
            let value = value_at(registers, u32::from(*on));
            let left = unpacked(*first, targets.len() as u32, &value);
            refined(alloc, registers, *on, left)
        }
        Insn::SparseSwitch { on, keys, targets } => {
            let value = value_at(registers, u32::from(*on));
            let left = unkeyed(with_targets(keys.as_slice(), targets.len()), &value);
            refined(alloc, registers, *on, left)
        }
        _ => Ok(Some(registers.share()?)),
    }
}

/// The registers where the operand of a switch is a key; none where it isn't, or there is no key.
fn at_key(
    alloc: Global,
    registers: &PatMap<Value>,
    on: u16,
    key: Option<i32>,
) -> Result<Option<PatMap<Value>>, AllocError>
    ensures { IfOk result (λ o. o ≡ at_key on key registers.now) }
{
    match key {
        Some(key) => {
            let value = value_at(registers, u32::from(on));
            refined(alloc, registers, on, keyed(key, &value))
        }
        None => Ok(None),
    }
}

/// The registers where a switch goes to the target at a place of its table; none where its operand isn't the key there.
/// Other forms leave all as it is. The only error is want of memory.
pub fn switch_at(
    alloc: Global,
    registers: &PatMap<Value>,
    insn: &Insn,
    place: u32,
) -> Result<Option<PatMap<Value>>, AllocError>
    ensures { IfOk result (λ o. o ≡ switched place insn.now registers.now) }
{
    match insn {
        Insn::PackedSwitch { on, first, .. } => {
            let key = first.cast_unsigned().wrapping_add(place).cast_signed();
            at_key(alloc, registers, *on, Some(key))
        }
        Insn::SparseSwitch { on, keys, .. } => {
            at_key(
                alloc,
                registers,
                *on,
                keys.as_slice().get(place as usize).copied(),
            )
        }
        _ => Ok(Some(registers.share()?)),
    }
}
