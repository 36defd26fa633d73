//! What a move of a result takes.

ghost use Rattle.std.specs.Prelude.{◌≡◌, Some, IfOk, ◌+◌, ◌*◌};
ghost use Rattle.std.specs.Option.{option_copied};
ghost use Rattle.program_model.specs.Lookups.{method_at};
ghost use Rattle.program_model.specs.declared.program.Method.{Method};
ghost use Rattle.domains.specs.Values.{any_value};
ghost use Rattle.closed_facts.specs.Tables.{IsBelow, result_at};
ghost use Rattle.facts_check.specs.Known.{AreKnown, answer_at};
ghost use Rattle.facts_check.specs.Placed.{IsBoundResult, IsVirtualResult, HoldsResult, HoldsResults, HoldsBehind};

use crate::known::Known;
use crate::looks::{method_at, names_interface};
use call_targets::{Target, bound_target};
use domains::Value;
use program_model::{Insn, InvokeKind, MethodAt};
use std::alloc::{AllocError, Global};

/// What the method at a place gives: anything where there is none.
#[tactic(auto, using(crate::proofs::Bound::found_gives, crate::proofs::Bound::none_gives))]
fn result_at(known: &Known<'_>, at: MethodAt) -> Value
    ensures { (m : Method) → method_at known.now.program.now at ≡ Some m → IsBelow (result_at known.now.facts.now m.name) result }
{
    match method_at(known.program, at) {
        Some(found) => known.facts.result(found.name).same(),
        None => Value::any(),
    }
}

/// What a static, direct or super call gives.
fn bound_result(
    alloc: Global,
    known: &Known<'_>,
    class: u32,
    kind: InvokeKind,
    method: u32,
) -> Result<Value, AllocError>
    ensures { AreKnown known.now → IfOk result (λ v. IsBoundResult known.now class method kind v) }
{
    match bound_target(alloc, known.program, known.hierarchy, class, kind, method)? {
        Target::One(at) => Ok(result_at(known, at)),
        Target::Nothing => Ok(Value::any()),
        Target::Clash => Ok(Value::none()),
    }
}

/// What the calls of a number get back.
fn answer_at(known: &Known<'_>, number: usize) -> Value
    ensures { result ≡ answer_at known.now number }
{
    match known.pools.answers.as_slice().get(number) {
        Some(value) => value.same(),
        None => Value::any(),
    }
}

/// What a virtual call gives: anything where it names an interface, which its receiver needn't have.
fn virtual_result(known: &Known<'_>, method: u32) -> Value
    ensures { AreKnown known.now → IsVirtualResult known.now method result }
{
    if names_interface(known, method) {
        Value::any()
    } else {
        answer_at(known, 2 * method as usize)
    }
}

/// What a call gives.
fn result_of(
    alloc: Global,
    known: &Known<'_>,
    class: u32,
    kind: InvokeKind,
    method: u32,
) -> Result<Value, AllocError>
    ensures { AreKnown known.now → IfOk result (λ v. HoldsResult known.now class kind method v) }
{
    match kind {
        InvokeKind::Virtual => Ok(virtual_result(known, method)),
        InvokeKind::Interface => Ok(answer_at(known, 2 * method as usize + 1)),
        _ => bound_result(alloc, known, class, kind, method),
    }
}

/// What an instruction gives to a move of a result behind it: anything where it gives nothing.
fn given_behind(
    alloc: Global,
    known: &Known<'_>,
    class: u32,
    insn: &Insn,
) -> Result<Value, AllocError>
    ensures { AreKnown known.now → IfOk result (λ v. HoldsResults known.now class insn.now v) }
{
    match insn {
        Insn::Invoke { kind, method, .. } => result_of(alloc, known, class, *kind, *method),
        _ => Ok(Value::any()),
    }
}

/// What a move of a result takes by what stands in front of it.
pub(crate) fn taken_behind(
    alloc: Global,
    known: &Known<'_>,
    class: u32,
    before: Option<&Insn>,
) -> Result<Value, AllocError>
    ensures { AreKnown known.now → IfOk result (λ v. HoldsBehind known.now class (option_copied before.entry) v) }
{
    match before {
        Some(insn) => given_behind(alloc, known, class, insn),
        None => Ok(Value::any()),
    }
}
