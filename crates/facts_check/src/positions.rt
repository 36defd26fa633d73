//! One position of a body.

ghost use Rattle.std.specs.Prelude.{◌≡◌, true, ℕ, Some, None, IfOk, IfSome};
ghost use Rattle.std.specs.Option.{option_copied, option_map};
ghost use Rattle.std.specs.List.{list_all};
ghost use Rattle.class_defs.specs.Finding.{beside, finds_static};
ghost use Rattle.facts_check.specs.Known.{AreKnown, is_marked};
ghost use Rattle.facts_check.specs.Placed.{are_needed, HoldsReturn, IsPlaced};
ghost use Rattle.facts_check.specs.Tables.{IsHanded, DoesKnown, PlacedIf};

use crate::calls::holds_calls;
use crate::fields::{holds_puts, is_on};
use crate::jumps::{Next, behind, thrown_lands};
use crate::known::Known;
use crate::looks::class_of_field;
use crate::results::taken_behind;
use crate::starts::Start;
use dom_frame::step;
use domains::Value;
use facts_order::{is_below, value_at};
use pat_map::PatMap;
use program_model::{Body, Insn, InvokeKind};
use std::alloc::{AllocError, Global};

/// The code of a method: its number, the place of its class, its body, and what is known where its blocks begin.
#[derive(Clone, Copy)]
pub(crate) struct Site<'a> {
    pub(crate) class: u32,
    pub(crate) number: u32,
    pub(crate) body: &'a Body,
    pub(crate) starts: &'a [Start],
}

/// Whether a class is known to be needed, if there is one.
fn is_needed(known: &Known<'_>, class: Option<u32>) -> bool
    ensures { result ≡ list_all (is_marked known.now.marks.now.needed.items) (beside class) }
{
    match class {
        Some(class) => is_on(&known.marks.needed, class),
        None => true,
    }
}

/// The place of the class of the method that a static call finds.
fn class_of_method(known: &Known<'_>, method: u32) -> Option<u32>
    ensures { AreKnown known.now → result ≡ option_map (λ at. at.class) (finds_static known.now.program.now method) }
{
    match known.hierarchy.find_static(known.program, method) {
        Some(at) => Some(at.class),
        None => None,
    }
}

/// Whether what an instruction needs is known to be needed.
fn are_needed(known: &Known<'_>, insn: &Insn) -> bool
    ensures { AreKnown known.now → result ≡ are_needed known.now insn.now }
{
    match insn {
        Insn::NewInstance { kind, .. } => is_needed(known, known.hierarchy.place_of(*kind)),
        Insn::StaticGet { field, .. } | Insn::StaticPut { field, .. } => {
            is_needed(known, class_of_field(known, *field))
        }
        Insn::Invoke {
            kind: InvokeKind::Static,
            method,
            ..
        } => is_needed(known, class_of_method(known, *method)),
        _ => true,
    }
}

/// Whether what is returned is among the results of a method.
fn holds_return(known: &Known<'_>, method: u32, insn: &Insn, registers: &PatMap<Value>) -> bool
    ensures { result ≡ true → HoldsReturn known.now method insn.now registers.now }
{
    match insn {
        Insn::Return { from, .. } => is_below(
            &value_at(registers, u32::from(*from)),
            known.facts.result(method),
        ),
        _ => true,
    }
}

/// What an instruction hands on to the next position.
fn handed(
    alloc: Global,
    known: &Known<'_>,
    site: &Site<'_>,
    before: Option<&Insn>,
    insn: &Insn,
    registers: &PatMap<Value>,
) -> Result<Next, AllocError>
    ensures { AreKnown known.now → (n : ℕ)
        → IfOk result (λ o. IfSome o (λ next. IsHanded known.now site.now.class site.now.starts.now n (option_copied before.entry) insn.now registers.now next)) }
{
    match insn {
        Insn::MoveResult { .. } => {
            let value = taken_behind(alloc, known, site.class, before)?;
            Ok(Some(step(alloc, &known.classes, registers, insn, &value)?))
        }
        _ => {
            let Some(next) = behind(alloc, known, site.starts, insn, registers)? else {
                return Ok(None);
            };
            Ok(Some(next))
        }
    }
}

/// Whether what an instruction does beside going on is known.
fn is_known(
    alloc: Global,
    known: &Known<'_>,
    site: &Site<'_>,
    position: u32,
    insn: &Insn,
    registers: &PatMap<Value>,
) -> Result<bool, AllocError>
    ensures { AreKnown known.now
        → IfOk result (λ b. b ≡ true → DoesKnown known.now site.now.class site.now.number site.now.body.now site.now.starts.now position insn.now registers.now) }
{
    if !are_needed(known, insn)
        || !holds_puts(known, insn, registers)
        || !holds_return(known, site.number, insn, registers)
        || !thrown_lands(site.starts, site.body, position, insn, registers)
    {
        return Ok(false);
    }
    holds_calls(alloc, known, site.class, insn, registers)
}

/// What a reached position hands on to the next one.
fn placed_at(
    alloc: Global,
    known: &Known<'_>,
    site: &Site<'_>,
    position: u32,
    before: Option<&Insn>,
    insn: &Insn,
    registers: &PatMap<Value>,
) -> Result<Next, AllocError>
    ensures { AreKnown known.now
        → IfOk result (λ o. IfSome o (λ next. IsPlaced known.now site.now.class site.now.number site.now.body.now site.now.starts.now position
        (option_copied before.entry) insn.now registers.now next)) }
{
    if !is_known(alloc, known, site, position, insn, registers)? {
        return Ok(None);
    }
    let Some(next) = handed(alloc, known, site, before, insn, registers)? else {
        return Ok(None);
    };
    Ok(Some(next))
}

/// What a position hands on to the next one: nothing where no run comes.
pub(crate) fn placed(
    alloc: Global,
    known: &Known<'_>,
    site: &Site<'_>,
    position: u32,
    before: Option<&Insn>,
    insn: &Insn,
    registers: Option<&PatMap<Value>>,
) -> Result<Next, AllocError>
    ensures { AreKnown known.now
        → IfOk result (λ o. IfSome o (λ next. PlacedIf known.now site.now.class site.now.number site.now.body.now site.now.starts.now position
        (option_copied before.entry) insn.now (option_copied registers.entry) next)) }
{
    match registers {
        Some(registers) => { placed_at(alloc, known, site, position, before, insn, registers) }
        None => Ok(Some(None)),
    }
}
