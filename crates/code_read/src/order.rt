//! Which instruction may follow which.

ghost use Rattle.std.specs.Prelude.{◌≡◌, ◌-◌, length, slice_get, IfOk, not, position};
ghost use Rattle.std.specs.List.{enumerate_from};
ghost use Rattle.code_read.specs.Code.{size_at, is_gap, first_gap, first_astray};
ghost use Rattle.code_read.specs.Order.{ends, has_result, result_before, continues_into, may_follow, may_handle, stands};

use crate::decode::opcode_at;
use crate::marks::{Marks, is_marked, marks_of};
use crate::sweep::opcode_units;
use insn_set::Insn;
use program_model::Region;
use std::alloc::{AllocError, Global};

/// How many units the instruction at `start` has; 0 where there is none.
fn size_at(units: &[u16], start: u32) -> u64
    ensures { result ≡ size_at units.now start }
{
    match opcode_units(opcode_at(units, start)) {
        Some(size) => size,
        None => 0,
    }
}

/// Whether the instruction at a place continues, and the one that follows it does not begin directly behind it.
fn is_gap(units: &[u16], starts: &[u32], place: usize, insn: &Insn) -> bool
    ensures { result ≡ is_gap units.now starts.now (place, insn.now) }
{
    if place < starts.len().saturating_sub(1) && insn.continues() {
        let start = starts[place];
        u64::from(start) + size_at(units, start) != u64::from(starts[place + 1])
    } else {
        false
    }
}

/// The place of the first instruction but the last that continues into none.
pub(crate) fn first_gap(units: &[u16], starts: &[u32], insns: &[Insn]) -> Option<usize>
    ensures { result ≡ first_gap units.now starts.now insns.now }
{
    insns
        .iter()
        .enumerate()
        .position(|(place, insn)| is_gap(units, starts, place, insn))
}

/// Whether there is a last instruction, and it does not continue.
pub(crate) fn ends_well(insns: &[Insn]) -> bool
    ensures { result ≡ ends (slice_get insns.now (length insns.now - 1)) }
{
    match insns.last() {
        Some(last) => !last.continues(),
        None => false,
    }
}

/// Whether a move-result may stand behind the instruction.
fn gives_result(insn: &Insn) -> bool
    ensures { result ≡ has_result insn.now }
{
    matches!(insn, Insn::Invoke { .. } | Insn::FilledNewArray { .. })
}

/// Whether the instruction before the place gives a result.
fn result_before(insns: &[Insn], place: usize) -> bool
    ensures { result ≡ result_before insns.now place }
{
    if place == 0 {
        return false;
    }
    match insns.get(place - 1) {
        Some(insn) => gives_result(insn),
        None => false,
    }
}

/// Whether the instruction before the place continues into it.
fn continues_into(insns: &[Insn], place: usize) -> bool
    ensures { result ≡ continues_into insns.now place }
{
    if place == 0 {
        return false;
    }
    match insns.get(place - 1) {
        Some(insn) => insn.continues(),
        None => false,
    }
}

/// Whether the instruction at the place may stand there, so far as branches and the instruction before it go.
fn may_follow(insns: &[Insn], insn: &Insn, place: usize, targeted: bool) -> bool
    ensures { result ≡ may_follow insns.now place targeted insn.now }
{
    match insn {
        Insn::MoveResult { .. } => !targeted && result_before(insns, place),
        Insn::MoveException { .. } => !targeted && !continues_into(insns, place),
        _ => true,
    }
}

/// Whether the instruction may stand at a position at which a handler begins, or else at one where none does.
fn may_handle(insn: &Insn, handled: bool) -> bool
    ensures { result ≡ may_handle handled insn.now }
{
    match insn {
        Insn::MoveResult { .. } => !handled,
        Insn::MoveException { .. } => handled,
        _ => true,
    }
}

/// Whether the instruction at the place may stand there. Where the regions are not known, it goes by branches and the
/// instruction before it alone.
fn stands(insns: &[Insn], marks: &Marks, known: bool, place: usize, insn: &Insn) -> bool
    ensures { result ≡ stands insns.now marks.now.targets.items marks.now.handlers.items known (place, insn.now) }
{
    may_follow(
        insns,
        insn,
        place,
        is_marked(marks.targets.as_slice(), place),
    ) && (!known || may_handle(insn, is_marked(marks.handlers.as_slice(), place)))
}

/// The place of the first instruction that may not stand where it does.
fn first_astray(insns: &[Insn], marks: &Marks, known: bool) -> Option<usize>
    ensures { result ≡ position (λ p. not (stands insns.now marks.now.targets.items marks.now.handlers.items known p)) (enumerate_from 0 insns.now) }
{
    insns
        .iter()
        .enumerate()
        .position(|(place, insn)| !stands(insns, marks, known, place, insn))
}

/// The place of the first move-result or move-exception that may not stand there: as the regions are, or, where these
/// are not known, whatever they are.
pub(crate) fn first_misplaced(
    alloc: Global,
    insns: &[Insn],
    regions: &[Region],
    known: bool,
) -> Result<Option<usize>, AllocError>
    ensures { IfOk result (λ place. place ≡ first_astray insns.now regions.now known) }
{
    let marks = marks_of(alloc, insns, regions)?;
    Ok(first_astray(insns, &marks, known))
}
