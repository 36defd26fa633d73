//! What calls pass.

ghost use Rattle.std.specs.Prelude.{◌≡◌, true, IfOk, Some, ◌<◌, ◌+◌, ◌*◌, is_some, length, slice_get};
ghost use Rattle.program_model.specs.Lookups.{method_at};
ghost use Rattle.dom_frame.specs.Registers.{value_at};
ghost use Rattle.program_model.specs.declared.program.Method.{Method};
ghost use Rattle.facts_check.specs.Known.{AreKnown, is_made, is_marked};
ghost use Rattle.facts_check.specs.Placed.{IsCalled, IsBoundCall, IsPooled, HoldsCall, HoldsCalls};
ghost use Rattle.facts_check.specs.Tables.{ArePassed, ArePooled};

use crate::fields::is_on;
use crate::known::Known;
use crate::looks::method_at;
use call_targets::{Target, bound_target};
use domains::Value;
use facts_order::{is_below, is_passed, value_at};
use pat_map::PatMap;
use program_model::{Insn, InvokeKind, Method};
use std::alloc::{AllocError, Global};

/// Whether the parameters of a method are at or above these registers.
fn are_passed(known: &Known<'_>, method: u32, args: &[u16], registers: &PatMap<Value>) -> bool
    requires { length args.now < 65536 }
    ensures { result ≡ true → ArePassed known.now method args.now registers.now }
{
    for place in 0..args.len() {
        let value = value_at(registers, u32::from(args[place]));
        if !is_passed(known.facts, method, place as u32, &value) {
            return false;
        }
    }
    true
}

/// Whether a method is known to be entered, if it has code.
fn enters(known: &Known<'_>, method: &Method) -> bool
    ensures { result ≡ true → is_some method.now.body ≡ true → is_marked known.now.marks.now.entered.items method.now.name ≡ true }
{
    match &method.body {
        Some(_) => is_on(&known.marks.entered, method.name),
        None => true,
    }
}

/// Whether a method is passed these registers, and is known to be entered where it has code.
fn is_called(known: &Known<'_>, method: &Method, args: &[u16], registers: &PatMap<Value>) -> bool
    ensures { result ≡ true → IsCalled known.now method.now args.now registers.now }
{
    if args.len() >= 65536 {
        return false;
    }
    if !are_passed(known, method.name, args, registers) {
        return false;
    }
    enters(known, method)
}

/// Whether what a static, direct or super call finds is passed its arguments.
fn holds_bound(
    alloc: Global,
    known: &Known<'_>,
    class: u32,
    kind: InvokeKind,
    method: u32,
    args: &[u16],
    registers: &PatMap<Value>,
) -> Result<bool, AllocError>
    ensures { AreKnown known.now → IfOk result (λ b. b ≡ true → IsBoundCall known.now class method kind args.now registers.now) }
{
    match bound_target(alloc, known.program, known.hierarchy, class, kind, method)? {
        Target::One(at) => match method_at(known.program, at) {
            Some(found) => Ok(is_called(known, found, args, registers)),
            None => Ok(true),
        },
        _ => Ok(true),
    }
}

/// Whether the pool of a call is at or above these registers.
fn are_pooled(pool: &PatMap<Value>, args: &[u16], registers: &PatMap<Value>) -> bool
    requires { length args.now < 65536 }
    ensures { result ≡ true → ArePooled pool.now args.now registers.now }
{
    for place in 0..args.len() {
        let value = value_at(registers, u32::from(args[place]));
        if !is_below(&value, &value_at(pool, place as u32)) {
            return false;
        }
    }
    true
}

/// Whether a run may come to a call of a number.
fn is_made(known: &Known<'_>, number: usize) -> bool
    ensures { result ≡ is_made known.now number }
{
    match known.pools.reached.as_slice().get(number) {
        Some(mark) => *mark,
        None => false,
    }
}

/// Whether the pool of a call is at or above its arguments, one of which is its receiver.
fn is_pooled(known: &Known<'_>, number: usize, args: &[u16], registers: &PatMap<Value>) -> bool
    ensures { result ≡ true → IsPooled known.now number args.now registers.now }
{
    match (known.pools.calls.as_slice().get(number), args) {
        (Some(pool), [_, ..]) => {
            if !is_made(known, number) {
                return false;
            }
            args.len() < 65536 && are_pooled(pool, args, registers)
        }
        _ => false,
    }
}

/// Whether what a call passes is known of what it may find.
fn holds_call(
    alloc: Global,
    known: &Known<'_>,
    class: u32,
    kind: InvokeKind,
    method: u32,
    args: &[u16],
    registers: &PatMap<Value>,
) -> Result<bool, AllocError>
    ensures { AreKnown known.now → IfOk result (λ b. b ≡ true → HoldsCall known.now class kind method args.now registers.now) }
{
    match kind {
        InvokeKind::Virtual => Ok(is_pooled(known, 2 * method as usize, args, registers)),
        InvokeKind::Interface => Ok(is_pooled(known, 2 * method as usize + 1, args, registers)),
        _ => holds_bound(alloc, known, class, kind, method, args, registers),
    }
}

/// Whether what an instruction passes is known of what it may find.
pub(crate) fn holds_calls(
    alloc: Global,
    known: &Known<'_>,
    class: u32,
    insn: &Insn,
    registers: &PatMap<Value>,
) -> Result<bool, AllocError>
    ensures { AreKnown known.now → IfOk result (λ b. b ≡ true → HoldsCalls known.now class insn.now registers.now) }
{
    match insn {
        Insn::Invoke { kind, method, args } => holds_call(
            alloc,
            known,
            class,
            *kind,
            *method,
            args.as_slice(),
            registers,
        ),
        _ => Ok(true),
    }
}
