//! Where a run goes on behind a form.

ghost use Rattle.std.specs.Prelude.{◌≡◌, ◌<◌, ◌+◌, ◌++◌, ◌^◌, true, false, length, is_some, IfOk, OnOk};
ghost use Rattle.dom_frame.specs.Registers.{value_at};
ghost use Rattle.insn_set.specs.Flow.{targets_of};
ghost use Rattle.dom_frame.specs.Steps.{branched, unswitched, switched};
ghost use Rattle.quiet_methods.specs.Forms.{one_if, cases_upto, switch_ways, branch_ways, division_ways, ways};

use crate::forms::is_nothing;
use dom_frame::{Frame, branch, switch_at, switch_past};
use domains::Value;
use insn_set::{BinaryOp, Insn};
use pat_map::PatMap;
use std::alloc::{AllocError, Global};

/// Adds a position, where a test passes.
fn add_if(holds: bool, position: u32, out: &mut Vec<u32>) -> Result<(), AllocError>
    ensures { OnOk result (out.new.items ≡ out.old.items ++ one_if holds position) }
{
    if holds {
        out.push(position)?;
    }
    Ok(())
}

/// Whether the test of a conditional branch can pass, or can fail.
fn can_answer(
    alloc: Global,
    registers: &PatMap<Value>,
    insn: &Insn,
    taken: bool,
) -> Result<bool, AllocError>
    ensures { IfOk result (λ can. can ≡ is_some (branched taken insn.now registers.now)) }
{
    Ok(branch(alloc, registers, insn, taken)?.is_some())
}

/// Whether a switch can go to a target.
fn can_take(
    alloc: Global,
    registers: &PatMap<Value>,
    insn: &Insn,
    place: u32,
) -> Result<bool, AllocError>
    ensures { IfOk result (λ can. can ≡ is_some (switched place insn.now registers.now)) }
{
    Ok(switch_at(alloc, registers, insn, place)?.is_some())
}

/// Whether a switch can go on at the next position.
fn can_pass(alloc: Global, registers: &PatMap<Value>, insn: &Insn) -> Result<bool, AllocError>
    requires { length (targets_of insn.now) < 2 ^ 32 }
    ensures { IfOk result (λ can. can ≡ is_some (unswitched insn.now registers.now)) }
{
    Ok(switch_past(alloc, registers, insn)?.is_some())
}

/// Adds the targets to which a switch may go.
fn add_cases(
    alloc: Global,
    registers: &PatMap<Value>,
    insn: &Insn,
    targets: &[u32],
    out: &mut Vec<u32>,
) -> Result<(), AllocError>
    requires { length targets.now < 2 ^ 32 }
    ensures { OnOk result (out.new.items ≡ out.old.items ++ cases_upto insn.now targets.now registers.now (length targets.now)) }
{
    for place in 0..targets.len() {
        let can = can_take(alloc, registers, insn, place as u32)?;
        add_if(can, targets[place], out)?;
    }
    Ok(())
}

/// Adds the positions to which a switch may go.
fn add_switch(
    alloc: Global,
    registers: &PatMap<Value>,
    insn: &Insn,
    targets: &[u32],
    next: u32,
    out: &mut Vec<u32>,
) -> Result<(), AllocError>
    requires { (length (targets_of insn.now) < 2 ^ 32) × (targets_of insn.now ≡ targets.now) }
    ensures { OnOk result (out.new.items ≡ out.old.items ++ (cases_upto insn.now targets.now registers.now (length targets.now) ++ one_if (is_some (unswitched insn.now registers.now)) next)) }
{
    add_cases(alloc, registers, insn, targets, out)?;
    add_if(can_pass(alloc, registers, insn)?, next, out)
}

/// Adds the positions to which a conditional branch may go.
fn add_branch(
    alloc: Global,
    registers: &PatMap<Value>,
    insn: &Insn,
    target: u32,
    next: u32,
    out: &mut Vec<u32>,
) -> Result<(), AllocError>
    ensures { OnOk result (out.new.items ≡ out.old.items ++ (one_if (is_some (branched true insn.now registers.now)) target ++ one_if (is_some (branched false insn.now registers.now)) next)) }
{
    add_if(can_answer(alloc, registers, insn, true)?, target, out)?;
    add_if(can_answer(alloc, registers, insn, false)?, next, out)
}

/// Adds the position behind an operation, unless it divides by what holds of nothing.
fn add_division(
    op: BinaryOp,
    divisor: &Value,
    position: u32,
    out: &mut Vec<u32>,
) -> Result<(), AllocError>
    requires { position + 1 < 2 ^ 32 }
    ensures { OnOk result (out.new.items ≡ out.old.items ++ division_ways op divisor.now position) }
{
    add_if(!(op.divides() && is_nothing(divisor)), position + 1, out)
}

/// Adds the positions at which a run may go on behind a form, unless it throws.
pub(crate) fn add_ways(
    alloc: Global,
    frame: &Frame,
    insn: &Insn,
    position: u32,
    out: &mut Vec<u32>,
) -> Result<(), AllocError>
    requires { (length (targets_of insn.now) < 2 ^ 32) × (position + 1 < 2 ^ 32) }
    ensures { OnOk result (out.new.items ≡ out.old.items ++ ways insn.now position frame.now.registers) }
{
    let registers = &frame.registers;
    let next = position + 1;
    match insn {
        Insn::Goto { target } => add_if(true, *target, out),
        Insn::If { target, .. } | Insn::IfZero { target, .. } => {
            add_branch(alloc, registers, insn, *target, next, out)
        }
        Insn::PackedSwitch { targets, .. } | Insn::SparseSwitch { targets, .. } => {
            add_switch(alloc, registers, insn, targets.as_slice(), next, out)
        }
        Insn::Binary { op, b, .. } => { add_division(*op, frame.get(u32::from(*b)), position, out) }
        _ => add_if(insn.continues(), next, out),
    }
}
