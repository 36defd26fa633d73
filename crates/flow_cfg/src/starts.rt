//! Where the blocks of the code of a method begin.

ghost use Rattle.std.specs.Prelude.{◌≡◌, ℕ, ◌+◌, ◌<◌, ◌^◌, ◌↔◌, ◌++◌, false, true, length, replicate, slice_set, IfOk, OnOk, Contains};
ghost use Rattle.std.specs.List.Sorted.{IsStrictlyIncreasing};
ghost use Rattle.insn_set.specs.Flow.{targets_of};
ghost use Rattle.flow_cfg.specs.Walks.{handlers_in};
ghost use Rattle.flow_cfg.specs.Starts.{IsFirst, branches, ends_block, behind, regions_starts, starts_of, marked, places_from};

use crate::firsts::Blocks;
use crate::walks::{add_handlers, add_targets};
use insn_set::Insn;
use program_model::{Body, Region};
use std::alloc::{AllocError, Global};

/// Whether the instruction is a branch.
fn branches(insn: &Insn) -> bool
    ensures { result ≡ branches insn.now }
{
    matches!(
        insn,
        Insn::Goto { .. }
            | Insn::If { .. }
            | Insn::IfZero { .. }
            | Insn::PackedSwitch { .. }
            | Insn::SparseSwitch { .. }
    )
}

/// Whether a block ends with the instruction.
fn ends_block(insn: &Insn) -> bool
    ensures { result ≡ ends_block insn.now }
{
    branches(insn) || insn.may_throw() || !insn.continues()
}

/// Adds the position behind an instruction with which a block ends.
fn add_behind(insn: &Insn, position: usize, found: &mut Vec<u32>) -> Result<(), AllocError>
    requires { position + 1 < 2 ^ 32 }
    ensures { OnOk result (found.new.items ≡ found.old.items ++ behind position insn.now) }
{
    if ends_block(insn) {
        found.push(position as u32 + 1)?;
    }
    Ok(())
}

/// Adds the targets of an instruction, and the position behind it where a block ends with it.
fn add_starts(insn: &Insn, position: usize, found: &mut Vec<u32>) -> Result<(), AllocError>
    requires { position + 1 < 2 ^ 32 }
    ensures { OnOk result (found.new.items ≡ found.old.items ++ (targets_of insn.now ++ behind position insn.now)) }
{
    add_targets(insn, found)?;
    add_behind(insn, position, found)
}

/// Adds the handlers of all regions.
fn add_all_handlers(regions: &[Region], found: &mut Vec<u32>) -> Result<(), AllocError>
    ensures { OnOk result (found.new.items ≡ found.old.items ++ regions_starts regions.now) }
{
    for region in regions {
        add_handlers(region, found)?;
    }
    Ok(())
}

/// The positions at which blocks begin, in no order, some of them twice, and some past the code.
fn starts_of(alloc: Global, body: &Body) -> Result<Vec<u32>, AllocError>
    requires { length body.now.insns + 1 < 2 ^ 32 }
    ensures { IfOk result (λ found. found.items ≡ starts_of body.now) }
{
    let insns = body.insns.as_slice();
    let mut found = vec![in alloc; 0]?;
    for position in 0..insns.len() {
        add_starts(&insns[position], position, &mut found)?;
    }
    add_all_handlers(body.regions.as_slice(), &mut found)?;
    Ok(found)
}

/// Marks a place, if it is one of the table.
fn mark(marks: &mut [bool], place: u32)
    ensures { marks.new ≡ slice_set marks.old place true }
{
    let place = place as usize;
    if place < marks.len() {
        marks[place] = true;
    }
}

/// Which of so many positions stand in a list.
fn marks_of(alloc: Global, count: usize, positions: &[u32]) -> Result<Vec<bool>, AllocError>
    ensures { IfOk result (λ marks. marks.items ≡ marked (replicate count false) positions.now) }
{
    let mut marks = vec![in alloc; false; count]?;
    for position in positions {
        mark(marks.as_mut_slice(), *position);
    }
    Ok(marks)
}

/// The places that are marked, ascending.
fn marked_places(alloc: Global, marks: &[bool]) -> Result<Vec<u32>, AllocError>
    requires { length marks.now < 2 ^ 32 }
    ensures { IfOk result (λ places. places.items ≡ places_from 0 marks.now) }
{
    let mut places = Vec::new(alloc);
    let mut place = 0;
    for is_marked in marks {
        if *is_marked {
            places.push(place)?;
        }
        place += 1;
    }
    Ok(places)
}

/// The blocks of a body. They begin at position 0, at each target and handler, and at each position behind a branch, an
/// instruction that may throw or one that doesn't go on. A switch is a branch also where its table is empty. The only
/// error is want of memory.
pub fn blocks(alloc: Global, body: &Body) -> Result<Blocks, AllocError>
    requires { length body.now.insns + 1 < 2 ^ 32 }
    ensures rise { IfOk result (λ b. IsStrictlyIncreasing b.firsts.items) }
    ensures firsts { IfOk result (λ b. (p : ℕ) → Contains b.firsts.items p ↔ IsFirst body.now p) }
{
    let starts = starts_of(alloc, body)?;
    let marks = marks_of(alloc, body.insns.len(), &starts)?;
    let firsts = marked_places(alloc, &marks)?;
    Ok(Blocks { firsts })
}
