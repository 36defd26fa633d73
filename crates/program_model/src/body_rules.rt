//! What a body has to be (Dalvik executable format, "code_item", and Dalvik bytecode).

ghost use Rattle.std.specs.Prelude.{◌≡◌, ◌-◌, length, nat_eq, slice_get};
ghost use Rattle.std.specs.List.{list_all, list_any, enumerate_from};
ghost use Rattle.program_model.specs.Neighbours.{neighbours};
ghost use Rattle.program_model.specs.BodyRules.{ends, has_result, may_follow, follows, may_enter, targets_fit, leaves, is_rest, handles_at, is_caught, insn_fits, body_fits};

use crate::body::{Body, Handler, Region};
use crate::operand_rules::{numbers_fit, registers_fit};
use crate::program::Program;
use crate::region_rules::{may_begin, regions_fit};
use insn_set::Insn;

/// Whether there is a last instruction, and it does not continue.
fn ends(insns: &[Insn]) -> bool
    ensures { result ≡ ends (slice_get insns.now (length insns.now - 1)) }
{
    match insns.last() {
        Some(last) => !last.continues(),
        None => false,
    }
}

/// Whether a move-result may stand behind the instruction.
fn has_result(insn: &Insn) -> bool
    ensures { result ≡ has_result insn.now }
{
    matches!(insn, Insn::Invoke { .. } | Insn::FilledNewArray { .. })
}

/// Whether an instruction may stand directly behind the other.
fn may_follow(before: &Insn, insn: &Insn) -> bool
    ensures { result ≡ may_follow before.now insn.now }
{
    match insn {
        Insn::MoveResult { .. } => has_result(before),
        Insn::MoveException { .. } => !before.continues(),
        _ => true,
    }
}

/// Whether each instruction may stand directly behind the one before it.
fn all_follow(insns: &[Insn]) -> bool
    ensures { result ≡ list_all follows (neighbours insns.now) }
{
    insns
        .iter()
        .zip(insns.iter().skip(1))
        .all(|(before, insn)| may_follow(before, insn))
}

/// Whether a branch may go to a position: there is one, and it is neither a move-result nor a move-exception.
fn may_enter(insns: &[Insn], target: u32) -> bool
    ensures { result ≡ may_enter (slice_get insns.now target) }
{
    match insns.get(target as usize) {
        Some(Insn::MoveResult { .. }) => false,
        Some(Insn::MoveException { .. }) => false,
        Some(_) => true,
        None => false,
    }
}

/// Whether a branch may go to each of the positions.
fn may_enter_all(insns: &[Insn], targets: &[u32]) -> bool
    ensures { result ≡ list_all (λ target. may_enter (slice_get insns.now target)) targets.now }
{
    targets.iter().all(|target| may_enter(insns, *target))
}

/// Whether the instruction may go to its targets.
fn targets_fit(insns: &[Insn], insn: &Insn) -> bool
    ensures { result ≡ targets_fit insns.now insn.now }
{
    match insn {
        Insn::Goto { target } | Insn::If { target, .. } | Insn::IfZero { target, .. } => {
            may_enter(insns, *target)
        }
        Insn::PackedSwitch { targets, .. } | Insn::SparseSwitch { targets, .. } => {
            may_enter_all(insns, targets.as_slice())
        }
        _ => true,
    }
}

/// Whether the instruction is no conditional branch to its own position.
fn leaves(position: usize, insn: &Insn) -> bool
    ensures { result ≡ leaves position insn.now }
{
    match insn {
        Insn::If { target, .. } | Insn::IfZero { target, .. } => *target as usize != position,
        _ => true,
    }
}

/// Whether one of the handlers begins at the position.
fn any_at(handlers: &[Handler], position: usize) -> bool
    ensures { result ≡ list_any (λ handler. nat_eq handler.position position) handlers.now }
{
    handlers
        .iter()
        .any(|handler| handler.position as usize == position)
}

/// Whether the catch-all, if there is one, begins at the position.
fn is_rest(position: usize, rest: Option<u32>) -> bool
    ensures { result ≡ is_rest position rest }
{
    match rest {
        Some(rest) => rest as usize == position,
        None => false,
    }
}

/// Whether a handler of the region begins at the position.
fn handles_at(position: usize, region: &Region) -> bool
    ensures { result ≡ handles_at position region.now }
{
    any_at(region.handlers.as_slice(), position) || is_rest(position, region.rest)
}

/// Whether a handler of one of the regions begins at the position.
fn any_handles_at(regions: &[Region], position: usize) -> bool
    ensures { result ≡ list_any (handles_at position) regions.now }
{
    regions.iter().any(|region| handles_at(position, region))
}

/// Whether the instruction is no move-exception, or a handler begins at its position.
fn is_caught(regions: &[Region], position: usize, insn: &Insn) -> bool
    ensures { result ≡ is_caught regions.now position insn.now }
{
    match insn {
        Insn::MoveException { .. } => any_handles_at(regions, position),
        _ => true,
    }
}

/// Whether the instruction at the position is what it has to be.
#[tactic(auto, unfolding(crate::specs::BodyRules::insn_fits))]
fn insn_fits(program: &Program, body: &Body, position: usize, insn: &Insn) -> bool
    ensures { result ≡ insn_fits program.now body.now (position, insn.now) }
{
    (insn.encodable() && (registers_fit(insn, body.registers) && numbers_fit(program, insn)))
        && (targets_fit(body.insns.as_slice(), insn)
            && (leaves(position, insn) && is_caught(body.regions.as_slice(), position, insn)))
}

/// Whether each instruction is what it has to be.
fn insns_fit(program: &Program, body: &Body) -> bool
    ensures { result ≡ list_all (insn_fits program.now body.now) (enumerate_from 0 body.now.insns) }
{
    body.insns.as_slice().iter().enumerate().all(|(position, insn)| insn_fits(
        program, body, position, insn,
    ))
}

/// Whether a body's instructions and regions are what they have to be.
#[tactic(auto, unfolding(crate::specs::BodyRules::body_fits))]
pub(crate) fn body_fits(program: &Program, body: &Body) -> bool
    ensures { result ≡ body_fits program.now body.now }
{
    let insns = body.insns.as_slice();
    (may_begin(insns, 0) && ends(insns))
        && (all_follow(insns)
            && (insns_fit(program, body) && regions_fit(program, insns, body.regions.as_slice())))
}
