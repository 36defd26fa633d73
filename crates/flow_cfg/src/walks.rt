//! Where a walk through the code of a method goes.

ghost use Rattle.std.specs.Prelude.{◌≡◌, ◌<◌, ◌-◌, ◌^◌, ◌++◌, length, option_to_list, IfOk, OnOk};
ghost use Rattle.insn_set.specs.Flow.{targets_of};
ghost use Rattle.flow_cfg.specs.Walks.{covers, next_of, handlers_in, handlers_at, thrown_to, successors_of};

use insn_set::Insn;
use program_model::{Body, Region};
use std::alloc::{AllocError, Global};

/// Adds the next position where the instruction goes on.
fn add_next(insn: &Insn, position: u32, found: &mut Vec<u32>) -> Result<(), AllocError>
    requires { position < 2 ^ 32 - 1 }
    ensures { OnOk result (found.new.items ≡ found.old.items ++ next_of position insn.now) }
{
    if insn.continues() {
        found.push(position + 1)?;
    }
    Ok(())
}

/// Adds the targets of a branch, in the order of its table.
pub(crate) fn add_targets(insn: &Insn, found: &mut Vec<u32>) -> Result<(), AllocError>
    ensures { OnOk result (found.new.items ≡ found.old.items ++ targets_of insn.now) }
{
    match insn {
        Insn::Goto { target } | Insn::If { target, .. } | Insn::IfZero { target, .. } => {
            found.push(*target)?;
            Ok(())
        }
        Insn::PackedSwitch { targets, .. } | Insn::SparseSwitch { targets, .. } => {
            found.extend_from_slice(targets.as_slice())
        }
        _ => Ok(()),
    }
}

/// Adds a catch-all where there is one.
fn add_rest(rest: Option<u32>, found: &mut Vec<u32>) -> Result<(), AllocError>
    ensures { OnOk result (found.new.items ≡ found.old.items ++ option_to_list rest) }
{
    if let Some(position) = rest {
        found.push(position)?;
    }
    Ok(())
}

/// Adds the handlers of a region in the order in which they are tried, and the catch-all behind them.
pub(crate) fn add_handlers(region: &Region, found: &mut Vec<u32>) -> Result<(), AllocError>
    ensures { OnOk result (found.new.items ≡ found.old.items ++ handlers_in region.now) }
{
    for handler in region.handlers.as_slice() {
        found.push(handler.position)?;
    }
    add_rest(region.rest, found)
}

/// Whether a region covers a position.
fn covers(region: &Region, position: u32) -> bool
    ensures { result ≡ covers position region.now }
{
    region.first <= position && position < region.end
}

/// Adds the handlers of the region that covers a position.
fn add_covering(regions: &[Region], position: u32, found: &mut Vec<u32>) -> Result<(), AllocError>
    ensures { OnOk result (found.new.items ≡ found.old.items ++ handlers_at regions.now position) }
{
    for region in regions {
        if covers(region, position) {
            return add_handlers(region, found);
        }
    }
    Ok(())
}

/// Adds the handlers to which a throw at a position goes.
fn add_thrown(
    insn: &Insn,
    regions: &[Region],
    position: u32,
    found: &mut Vec<u32>,
) -> Result<(), AllocError>
    ensures { OnOk result (found.new.items ≡ found.old.items ++ thrown_to regions.now position insn.now) }
{
    if insn.may_throw() {
        return add_covering(regions, position, found);
    }
    Ok(())
}

/// The positions to which a walk goes in one step from a position: the next one where the instruction goes on, then the
/// targets in the order of their table, and where it may throw the handlers of the first region that covers it, in order
/// and the catch-all last. A position past the code has none. The only error is want of memory.
pub fn successors(alloc: Global, body: &Body, position: u32) -> Result<Vec<u32>, AllocError>
    requires { length body.now.insns < 2 ^ 32 }
    ensures { IfOk result (λ found. found.items ≡ successors_of body.now position) }
{
    let mut found = Vec::new(alloc);
    if let Some(insn) = body.insns.as_slice().get(position as usize) {
        add_next(insn, position, &mut found)?;
        add_targets(insn, &mut found)?;
        add_thrown(insn, body.regions.as_slice(), position, &mut found)?;
    }
    Ok(found)
}
