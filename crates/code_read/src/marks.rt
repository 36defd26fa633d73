//! Which positions a branch goes to, and at which a handler begins.

ghost use Rattle.std.specs.Prelude.{◌≡◌, length, slice_set, replicate, IfOk, true, false};
ghost use Rattle.insn_set.specs.Flow.{targets_of};
ghost use Rattle.code_read.specs.Marks.{set_all, set_targets, set_handlers, set_rest, set_region, set_regions, is_marked};

use insn_set::Insn;
use program_model::{Handler, Region};
use std::alloc::{AllocError, Global};

/// For each position whether a branch goes to it, and whether a handler begins at it.
#[derive(Drop)]
pub(crate) struct Marks {
    pub targets: Vec<bool>,
    pub handlers: Vec<bool>,
}

/// Marks the position, if there is such a one.
fn mark(marks: &mut [bool], position: u32)
    ensures { marks.new ≡ slice_set marks.old position true }
{
    if (position as usize) < marks.len() {
        marks[position as usize] = true;
    }
}

/// Marks the positions.
fn mark_all(marks: &mut [bool], positions: &[u32])
    ensures { marks.new ≡ set_all marks.old positions.now }
{
    for position in positions {
        mark(marks, *position);
    }
}

/// Marks what the instruction goes to.
fn mark_insn(marks: &mut [bool], insn: &Insn)
    ensures { marks.new ≡ set_all marks.old (targets_of insn.now) }
{
    match insn {
        Insn::Goto { target } | Insn::If { target, .. } | Insn::IfZero { target, .. } => {
            mark(marks, *target)
        }
        Insn::PackedSwitch { targets, .. } | Insn::SparseSwitch { targets, .. } => mark_all(
            marks,
            targets.as_slice(),
        ),
        _ => {}
    }
}

/// Marks what the instructions go to.
fn mark_targets(marks: &mut [bool], insns: &[Insn])
    ensures { marks.new ≡ set_targets marks.old insns.now }
{
    for insn in insns {
        mark_insn(marks, insn);
    }
}

/// Marks where the handlers begin.
fn mark_handlers(marks: &mut [bool], handlers: &[Handler])
    ensures { marks.new ≡ set_handlers marks.old handlers.now }
{
    for handler in handlers {
        mark(marks, handler.position);
    }
}

/// Marks the position of a catch-all, if there is one.
fn mark_rest(marks: &mut [bool], rest: Option<u32>)
    ensures { marks.new ≡ set_rest marks.old rest }
{
    match rest {
        Some(position) => mark(marks, position),
        None => {}
    }
}

/// Marks where the handlers of the region begin.
fn mark_region(marks: &mut [bool], region: &Region)
    ensures { marks.new ≡ set_region marks.old region.now }
{
    mark_handlers(marks, region.handlers.as_slice());
    mark_rest(marks, region.rest);
}

/// Marks where the handlers of the regions begin.
fn mark_regions(marks: &mut [bool], regions: &[Region])
    ensures { marks.new ≡ set_regions marks.old regions.now }
{
    for region in regions {
        mark_region(marks, region);
    }
}

/// The positions, of which there are so many, that the branches go to.
fn targets_in(alloc: Global, insns: &[Insn]) -> Result<Vec<bool>, AllocError>
    ensures { IfOk result (λ v. v.items ≡ set_targets (replicate (length insns.now) false) insns.now) }
{
    let mut marks = vec![in alloc; false; insns.len()]?;
    mark_targets(&mut marks, insns);
    Ok(marks)
}

/// The positions, of which there are `count`, where the handlers begin.
fn handlers_in(alloc: Global, count: usize, regions: &[Region]) -> Result<Vec<bool>, AllocError>
    ensures { IfOk result (λ v. v.items ≡ set_regions (replicate count false) regions.now) }
{
    let mut marks = vec![in alloc; false; count]?;
    mark_regions(&mut marks, regions);
    Ok(marks)
}

/// The marks of the instructions and regions.
pub(crate) fn marks_of(
    alloc: Global,
    insns: &[Insn],
    regions: &[Region],
) -> Result<Marks, AllocError>
    ensures targets { IfOk result (λ m. m.targets.items ≡ set_targets (replicate (length insns.now) false) insns.now) }
    ensures handlers { IfOk result (λ m. m.handlers.items ≡ set_regions (replicate (length insns.now) false) regions.now) }
{
    let targets = targets_in(alloc, insns)?;
    let handlers = handlers_in(alloc, insns.len(), regions)?;
    Ok(Marks { targets, handlers })
}

/// Whether the position is marked.
pub(crate) fn is_marked(marks: &[bool], place: usize) -> bool
    ensures { result ≡ is_marked marks.now place }
{
    match marks.get(place) {
        Some(mark) => *mark,
        None => false,
    }
}
