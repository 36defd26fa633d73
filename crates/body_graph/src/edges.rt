//! The edges of the graph.

ghost use Rattle.std.specs.Prelude.{◌≡◌, ℕ, ◌+◌, ◌<◌, ◌^◌, ◌++◌, ◌∷◌, [], length, slice_index, option_to_list, IfOk, OnOk};
ghost use Rattle.insn_set.specs.Flow.{targets_of};
ghost use Rattle.flow_cfg.specs.Walks.{next_of, handlers_in};
ghost use Rattle.walk_marks.specs.Walks.{row_of};
ghost use Rattle.body_graph.specs.Graph.{covering, within, thrown_row, node_row, region_row};

use crate::cover::covers_of;
use insn_set::Insn;
use program_model::{Body, Region};
use seq::Seq;
use std::alloc::{AllocError, Global};

/// Adds a number that is below the count.
fn add(number: u32, count: usize, row: &mut Vec<u32>) -> Result<(), AllocError>
    ensures { OnOk result (row.new.items ≡ row.old.items ++ within count (number ∷ [])) }
{
    if (number as usize) < count {
        row.push(number)?;
    }
    Ok(())
}

/// Adds the numbers that are below the count.
fn add_all(numbers: &[u32], count: usize, row: &mut Vec<u32>) -> Result<(), AllocError>
    ensures { OnOk result (row.new.items ≡ row.old.items ++ within count numbers.now) }
{
    for number in numbers {
        add(*number, count, row)?;
    }
    Ok(())
}

/// Adds the next position where the instruction goes on.
fn add_next(
    insn: &Insn,
    position: usize,
    count: usize,
    row: &mut Vec<u32>,
) -> Result<(), AllocError>
    requires { position + 1 < 2 ^ 32 }
    ensures { OnOk result (row.new.items ≡ row.old.items ++ within count (next_of position insn.now)) }
{
    if insn.continues() {
        add(position as u32 + 1, count, row)?;
    }
    Ok(())
}

/// Adds the targets of a branch.
fn add_targets(insn: &Insn, count: usize, row: &mut Vec<u32>) -> Result<(), AllocError>
    ensures { OnOk result (row.new.items ≡ row.old.items ++ within count (targets_of insn.now)) }
{
    match insn {
        Insn::Goto { target } | Insn::If { target, .. } | Insn::IfZero { target, .. } => {
            add(*target, count, row)
        }
        Insn::PackedSwitch { targets, .. } | Insn::SparseSwitch { targets, .. } => {
            add_all(targets.as_slice(), count, row)
        }
        _ => Ok(()),
    }
}

/// Adds the node of the region that covers a position where the instruction may throw.
fn add_thrown(insn: &Insn, body: &Body, region: u32, row: &mut Vec<u32>) -> Result<(), AllocError>
    requires { length body.now.insns + length body.now.regions < 2 ^ 32 }
    ensures { OnOk result (row.new.items ≡ row.old.items ++ thrown_row body.now region insn.now) }
{
    if insn.may_throw() && (region as usize) < body.regions.len() {
        row.push(body.insns.len() as u32 + region)?;
    }
    Ok(())
}

/// The edges of a position.
fn position_row(
    alloc: Global,
    body: &Body,
    regions: &[u32],
    position: usize,
) -> Result<Seq<u32>, AllocError>
    requires small { length body.now.insns + length body.now.regions < 2 ^ 32 }
    requires long { length regions.now ≡ length body.now.insns }
    requires covers { (n : ℕ) → n < length body.now.insns → slice_index regions.now n ≡ covering body.now.regions n }
    requires inside { position < length body.now.insns }
    ensures { IfOk result (λ row. row ≡ node_row body.now position) }
{
    let count = body.insns.len();
    let mut row = Vec::new(alloc);
    if let Some(insn) = body.insns.as_slice().get(position) {
        add_next(insn, position, count, &mut row)?;
        add_targets(insn, count, &mut row)?;
        add_thrown(insn, body, regions[position], &mut row)?;
    }
    Ok(Seq::of_vec(row))
}

/// The edges of a region: its handlers in the order in which they are tried, and the catch-all behind them.
fn handler_row(alloc: Global, region: &Region, count: usize) -> Result<Seq<u32>, AllocError>
    ensures { IfOk result (λ row. row ≡ region_row count region.now) }
{
    let mut row = Vec::new(alloc);
    for handler in region.handlers.as_slice() {
        add(handler.position, count, &mut row)?;
    }
    if let Some(position) = region.rest {
        add(position, count, &mut row)?;
    }
    Ok(Seq::of_vec(row))
}

/// The nodes to which an edge leads from each node: first the positions, then the regions, whose nodes are numbered on.
/// A target or handler that is no position has no edge. The only error is want of memory.
pub fn rows(alloc: Global, body: &Body) -> Result<Vec<Seq<u32>>, AllocError>
    requires { length body.now.insns + length body.now.regions < 2 ^ 32 }
    ensures long { IfOk result (λ v. length v.items ≡ length body.now.insns + length body.now.regions) }
    ensures rows { IfOk result (λ v. (n : ℕ) → row_of v.items n ≡ node_row body.now n) }
{
    let covers = covers_of(alloc, body)?;
    let count = body.insns.len();
    let mut rows = Vec::new(alloc);
    for position in 0..count {
        rows.push(position_row(alloc, body, &covers, position)?)?;
    }
    for region in body.regions.as_slice() {
        rows.push(handler_row(alloc, region, count)?)?;
    }
    Ok(rows)
}
