//! Where instructions go on.

ghost use Rattle.std.specs.Prelude.{◌≡◌, true, ℕ, ◌+◌, ◌<◌, ◌^◌, length, [], ◌∷◌, Some, IfOk, IfSome, option_to_list, ◌++◌};
ghost use Rattle.insn_set.specs.Flow.{targets_of};
ghost use Rattle.flow_cfg.specs.Walks.{covers, handlers_in, handlers_at, thrown_to};
ghost use Rattle.dom_frame.specs.Steps.{after, unswitched};
ghost use Rattle.closed_facts.specs.Edges.{arm, both_ways, cases_from, edges};
ghost use Rattle.facts_check.specs.Known.{AreKnown};
ghost use Rattle.facts_check.specs.Landing.{EachLands, EachGoes};
ghost use Rattle.facts_check.specs.Tables.{HandlersLand, CasesLand};

use crate::known::Known;
use crate::looks::given;
use crate::starts::{Start, lands, lands_if};
use dom_frame::{branch, step, switch_at, switch_past};
use domains::Value;
use pat_map::PatMap;
use program_model::{Body, Handler, Insn, Region};
use std::alloc::{AllocError, Global};

/// What is handed on to the next position, if anything is; none where what goes elsewhere isn't known there.
pub(crate) type Next = Option<Option<PatMap<Value>>>;

/// Whether registers land at each handler of a type.
fn handlers_land(starts: &[Start], handlers: &[Handler], registers: &PatMap<Value>) -> bool
    ensures { result ≡ true → HandlersLand starts.now registers.now handlers.now }
{
    for handler in handlers {
        if !lands(starts, handler.position, registers) {
            return false;
        }
    }
    true
}

/// Whether they land at the catch-all, if there is one.
fn rest_lands(starts: &[Start], rest: Option<u32>, registers: &PatMap<Value>) -> bool
    ensures { result ≡ true → EachLands starts.now registers.now (option_to_list rest) }
{
    match rest {
        Some(position) => lands(starts, position, registers),
        None => true,
    }
}

/// Whether they land at each handler of a region.
#[tactic(auto, using(crate::proofs::Landings::handlers_land))]
fn region_lands(starts: &[Start], region: &Region, registers: &PatMap<Value>) -> bool
    ensures { result ≡ true → EachLands starts.now registers.now (handlers_in region.now) }
{
    handlers_land(starts, region.handlers.as_slice(), registers)
        && rest_lands(starts, region.rest, registers)
}

/// Whether a region covers a position.
fn covers(region: &Region, position: u32) -> bool
    ensures { result ≡ covers position region.now }
{
    region.first <= position && position < region.end
}

/// Whether they land at each handler of the region that covers a position.
fn covered_lands(
    starts: &[Start],
    regions: &[Region],
    position: u32,
    registers: &PatMap<Value>,
) -> bool
    ensures { result ≡ true → EachLands starts.now registers.now (handlers_at regions.now position) }
{
    for region in regions {
        if covers(region, position) {
            return region_lands(starts, region, registers);
        }
    }
    true
}

/// Whether the registers in front of an instruction land at each handler of what it throws.
pub(crate) fn thrown_lands(
    starts: &[Start],
    body: &Body,
    position: u32,
    insn: &Insn,
    registers: &PatMap<Value>,
) -> bool
    ensures { result ≡ true → EachLands starts.now registers.now (thrown_to body.now.regions position insn.now) }
{
    !insn.may_throw() || covered_lands(starts, body.regions.as_slice(), position, registers)
}

/// Whether the registers at each target of a switch land there.
fn cases_land(
    alloc: Global,
    starts: &[Start],
    insn: &Insn,
    targets: &[u32],
    registers: &PatMap<Value>,
) -> Result<bool, AllocError>
    requires { length targets.now < 2 ^ 32 }
    ensures { IfOk result (λ b. b ≡ true → CasesLand starts.now insn.now targets.now registers.now) }
{
    for place in 0..targets.len() {
        let left = switch_at(alloc, registers, insn, place as u32)?;
        if !lands_if(starts, targets[place], left.as_ref()) {
            return Ok(false);
        }
    }
    Ok(true)
}

/// What a switch hands on.
#[tactic(auto, using(crate::proofs::Landings::switch_goes))]
fn behind_switch(
    alloc: Global,
    starts: &[Start],
    insn: &Insn,
    targets: &[u32],
    registers: &PatMap<Value>,
) -> Result<Next, AllocError>
    requires { targets_of insn.now ≡ targets.now }
    ensures { (n : ℕ)
        → IfOk result (λ o. IfSome o (λ next. EachGoes starts.now n next (arm (n + 1) (unswitched insn.now registers.now) ++ cases_from 0 insn.now targets.now registers.now))) }
{
    if targets.len() >= 4294967296 || !cases_land(alloc, starts, insn, targets, registers)? {
        return Ok(None);
    }
    Ok(Some(switch_past(alloc, registers, insn)?))
}

/// What a conditional branch hands on.
#[tactic(auto, using(crate::proofs::Landings::branch_goes))]
fn behind_branch(
    alloc: Global,
    starts: &[Start],
    insn: &Insn,
    target: u32,
    registers: &PatMap<Value>,
) -> Result<Next, AllocError>
    ensures { (n : ℕ) → IfOk result (λ o. IfSome o (λ next. EachGoes starts.now n next (both_ways n insn.now target registers.now))) }
{
    let taken = branch(alloc, registers, insn, true)?;
    if !lands_if(starts, target, taken.as_ref()) {
        return Ok(None);
    }
    Ok(Some(branch(alloc, registers, insn, false)?))
}

/// What a goto hands on: nothing.
fn behind_goto(starts: &[Start], target: u32, registers: &PatMap<Value>) -> Next
    ensures { (n : ℕ) → IfSome result (λ next. EachGoes starts.now n next ((target, registers.now) ∷ [])) }
{
    if lands(starts, target, registers) {
        Some(None)
    } else {
        None
    }
}

/// What any other instruction hands on.
fn behind_step(
    alloc: Global,
    known: &Known<'_>,
    insn: &Insn,
    given: &Value,
    registers: &PatMap<Value>,
) -> Result<Option<PatMap<Value>>, AllocError>
    ensures { AreKnown known.now → IfOk result (λ next. next ≡ after known.now.program.now insn.now given.now registers.now) }
{
    step(alloc, &known.classes, registers, insn, given)
}

/// What an instruction other than a move of a result hands on to the next position.
#[tactic(auto, using(crate::proofs::Landings::step_goes))]
pub(crate) fn behind(
    alloc: Global,
    known: &Known<'_>,
    starts: &[Start],
    insn: &Insn,
    registers: &PatMap<Value>,
) -> Result<Next, AllocError>
    ensures { AreKnown known.now → (n : ℕ)
        → IfOk result (λ o. IfSome o (λ next. EachGoes starts.now n next (edges known.now.program.now known.now.facts.now n insn.now registers.now))) }
{
    match insn {
        Insn::Goto { target } => Ok(behind_goto(starts, *target, registers)),
        Insn::If { target, .. } | Insn::IfZero { target, .. } => {
            behind_branch(alloc, starts, insn, *target, registers)
        }
        Insn::PackedSwitch { targets, .. } | Insn::SparseSwitch { targets, .. } => {
            behind_switch(alloc, starts, insn, targets.as_slice(), registers)
        }
        Insn::MoveResult { .. } => Ok(None),
        _ => Ok(Some(behind_step(alloc, known, insn, &given(known, insn), registers)?)),
    }
}
