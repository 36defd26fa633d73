//! Which methods are assumed to do nothing.

ghost use Rattle.std.specs.Prelude.{◌≡◌, ◌<◌, ◌^◌, ◌&&◌, List, true, length, nat_eq, nat_lt, All, IfOk, OnOk};
ghost use Rattle.std.specs.List.{list_any};
ghost use Rattle.program_model.specs.ProgramRules.{is_well_formed};
ghost use Rattle.rule_text.specs.Rules as meant;
ghost use Rattle.rule_text.specs.Related.{AreEach, IsMemberOf, IsAssumeOf};
ghost use Rattle.keep_rules.specs.Grown.{Grew};
ghost use Rattle.keep_rules.specs.View.{IsReady};
ghost use Rattle.keep_rules.specs.Silent.{some_line_names, is_silent_type, is_named, is_silent_of, is_silent_by};

use crate::fit::some_class_fits;
use crate::marks::mark_where;
use crate::members::method_named;
use crate::names::named_types;
use crate::view::{View, descriptor, method_at, row_at};
use program_model::{MethodName, Program};
use rule_text::{AssumeRule, MemberRule};
use std::alloc::{AllocError, Global};

/// Whether one of the lines names the method.
fn some_line_names(
    lines: &[MemberRule],
    program: &Program,
    method: &MethodName,
    row: &mut Vec<bool>,
) -> Result<bool, AllocError>
    ensures { (ms : List meant.MemberRule) → nat_lt method.now.proto (length program.now.protos) ≡ true → AreEach IsMemberOf lines.now ms
        → IfOk result (λ named. named ≡ some_line_names program.now ms method.now) }
{
    for line in lines {
        let named = method_named(&line.what, program, method, row)?;
        if named {
            return Ok(true);
        }
    }
    Ok(false)
}

/// Whether some line of a rule names the method with a number.
fn is_named(
    rule: &AssumeRule,
    program: &Program,
    number: u32,
    row: &mut Vec<bool>,
) -> Result<bool, AllocError>
    ensures { (k : meant.AssumeRule) → is_well_formed program.now ≡ true → IsAssumeOf rule.now k → IfOk result (λ named. named ≡ is_named program.now k number) }
{
    match method_at(program, number) {
        Some(method) => {
            let named = some_line_names(rule.members.as_slice(), program, method, row)?;
            Ok(named)
        }
        None => Ok(false),
    }
}

/// Marks those of the methods that some line names.
fn silence_methods(
    rule: &AssumeRule,
    program: &Program,
    numbers: &[u32],
    silent: &mut Vec<bool>,
    row: &mut Vec<bool>,
) -> Result<(), AllocError>
    ensures { (k : meant.AssumeRule) → is_well_formed program.now ≡ true → IsAssumeOf rule.now k
        → OnOk result (Grew (λ n. list_any (λ m. nat_eq n m && is_named program.now k m) numbers.now) silent.old.items silent.new.items) }
{
    for number in numbers {
        let named = is_named(rule, program, *number, row)?;
        mark_where(silent, named, *number);
    }
    Ok(())
}

/// Whether the rule names the type, and it is no class of the program.
fn is_silent_type(
    rule: &AssumeRule,
    view: &View<'_>,
    kind: u32,
    row: &mut Vec<bool>,
) -> Result<bool, AllocError>
    ensures { (k : meant.AssumeRule) → IsReady view.now → kind < length view.now.program.now.types → IsAssumeOf rule.now k
        → IfOk result (λ is. is ≡ is_silent_type view.now.program.now k kind) }
{
    match view.place_of(kind) {
        Some(_) => Ok(false),
        None => some_class_fits(rule.names.as_slice(), descriptor(view.program, kind), row),
    }
}

/// Marks those of the methods of a type that some line names, if the rule names the type and it is no class of the
/// program.
fn silence_numbers(
    rule: &AssumeRule,
    view: &View<'_>,
    kind: u32,
    numbers: &[u32],
    silent: &mut Vec<bool>,
    row: &mut Vec<bool>,
) -> Result<(), AllocError>
    ensures { (k : meant.AssumeRule) → IsReady view.now → kind < length view.now.program.now.types → IsAssumeOf rule.now k
        → OnOk result (Grew (λ n. is_silent_type view.now.program.now k kind && list_any (λ m. nat_eq n m && is_named view.now.program.now k m) numbers.now) silent.old.items silent.new.items) }
{
    if numbers.is_empty() {
        return Ok(());
    }
    let named = is_silent_type(rule, view, kind, row)?;
    if !named {
        return Ok(());
    }
    silence_methods(rule, view.program, numbers, silent, row)?;
    Ok(())
}

/// Marks the methods of a type that the rule assumes to do nothing.
fn silence_type(
    rule: &AssumeRule,
    view: &View<'_>,
    kind: u32,
    silent: &mut Vec<bool>,
    row: &mut Vec<bool>,
) -> Result<(), AllocError>
    ensures { (k : meant.AssumeRule) → IsReady view.now → kind < length view.now.program.now.types → IsAssumeOf rule.now k
        → OnOk result (Grew (is_silent_of view.now.program.now k kind) silent.old.items silent.new.items) }
{
    let numbers = row_at(view.methods.as_slice(), kind);
    silence_numbers(rule, view, kind, numbers, silent, row)?;
    Ok(())
}

/// Marks the methods of some types that the rule assumes to do nothing.
fn silence_types(
    rule: &AssumeRule,
    view: &View<'_>,
    kinds: &[u32],
    silent: &mut Vec<bool>,
    row: &mut Vec<bool>,
) -> Result<(), AllocError>
    ensures { (k : meant.AssumeRule) → IsReady view.now → All (λ kind. kind < length view.now.program.now.types) kinds.now → IsAssumeOf rule.now k
        → OnOk result (Grew (λ n. list_any (λ kind. is_silent_of view.now.program.now k kind n) kinds.now) silent.old.items silent.new.items) }
{
    for kind in kinds {
        silence_type(rule, view, *kind, silent, row)?;
    }
    Ok(())
}

/// Marks the methods of all types that the rule assumes to do nothing.
fn silence_all(
    rule: &AssumeRule,
    view: &View<'_>,
    silent: &mut Vec<bool>,
    row: &mut Vec<bool>,
) -> Result<(), AllocError>
    ensures { (k : meant.AssumeRule) → IsReady view.now → IsAssumeOf rule.now k → OnOk result (Grew (is_silent_by view.now.program.now k) silent.old.items silent.new.items) }
{
    for kind in 0..view.program.types.len() as u32 {
        silence_type(rule, view, kind, silent, row)?;
    }
    Ok(())
}

/// Marks the methods that a rule assumes to do nothing.
pub fn silence_by(
    alloc: Global,
    rule: &AssumeRule,
    view: &View<'_>,
    silent: &mut Vec<bool>,
    row: &mut Vec<bool>,
) -> Result<(), AllocError>
    ensures { (k : meant.AssumeRule) → IsReady view.now → IsAssumeOf rule.now k → OnOk result (Grew (is_silent_by view.now.program.now k) silent.old.items silent.new.items) }
{
    match named_types(alloc, view, rule.names.as_slice())? {
        Some(kinds) => {
            silence_types(rule, view, kinds.as_slice(), silent, row)?;
            Ok(())
        }
        None => silence_all(rule, view, silent, row),
    }
}
