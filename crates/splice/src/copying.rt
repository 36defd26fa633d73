//! Instructions with shifted registers and moved targets.

ghost use Rattle.std.specs.Prelude.{◌≡◌, map, IfOk};
ghost use Rattle.pass_defs.specs.Thinned.{insn_retargeted, handler_moved, region_moved};
ghost use Rattle.splice.specs.Shifted.{place_in};
ghost use Rattle.splice.specs.Pieces.{kept_insn};

use body_edit::{move_span, place_in};
use insn_regs::{Renaming, rename_reads, rename_writes};
use insn_set::Insn;
use program_model::{Handler, Region};
use std::alloc::{AllocError, Global};

/// All registers so many higher.
#[derive(Drop)]
pub(crate) struct Shift {
    pub(crate) by: u16,
}

impl Renaming for Shift {
    ghost use Rattle.splice.specs.Shifted.{shifted};

    ghost renamed = { λ s. shifted s.by };

    fn at(&self, register: u16) -> u16 {
        register.saturating_add(self.by)
    }
}

/// Moves each target.
fn move_targets(targets: &mut [u32], places: &[u32])
    ensures { targets.new ≡ map (place_in places.now) targets.old }
{
    for target in targets.iter_mut() {
        *target = place_in(places, *target);
    }
}

/// Moves the targets of a branch.
fn retarget(insn: &mut Insn, places: &[u32])
    ensures { insn.new ≡ insn_retargeted (place_in places.now) insn.old }
{
    match insn {
        Insn::Goto { target } => *target = place_in(places, *target),
        Insn::If { target, .. } => *target = place_in(places, *target),
        Insn::IfZero { target, .. } => *target = place_in(places, *target),
        Insn::PackedSwitch { targets, .. } => move_targets(targets.items.as_mut_slice(), places),
        Insn::SparseSwitch { targets, .. } => move_targets(targets.items.as_mut_slice(), places),
        _ => {}
    }
}

/// A copy of an instruction with its targets where the table has them.
pub(crate) fn copied(alloc: Global, insn: &Insn, places: &[u32]) -> Result<Insn, AllocError>
    ensures { IfOk result (λ copy. copy ≡ insn_retargeted (place_in places.now) insn.now) }
{
    let mut copy = insn.clone()?;
    retarget(&mut copy, places);
    Ok(copy)
}

/// The same, with its registers so many higher.
pub(crate) fn kept(alloc: Global, insn: &Insn, by: u16, places: &[u32]) -> Result<Insn, AllocError>
    ensures { IfOk result (λ copy. copy ≡ kept_insn by places.now insn.now) }
{
    let mut copy = insn.clone()?;
    let shift = Shift { by };
    rename_reads(alloc, &mut copy, &shift)?;
    rename_writes(&mut copy, &shift);
    retarget(&mut copy, places);
    Ok(copy)
}

/// Moves a handler.
fn move_handler(handler: &mut Handler, places: &[u32])
    ensures { handler.new ≡ handler_moved (place_in places.now) handler.old }
{
    handler.position = place_in(places, handler.position);
}

/// Moves each handler.
fn move_handlers(handlers: &mut [Handler], places: &[u32])
    ensures { handlers.new ≡ map (handler_moved (place_in places.now)) handlers.old }
{
    for handler in handlers.iter_mut() {
        move_handler(handler, places);
    }
}

/// Moves a region with its handlers.
fn move_region(region: &mut Region, places: &[u32])
    ensures { region.new ≡ region_moved (place_in places.now) region.old }
{
    move_span(region, places);
    move_handlers(region.handlers.items.as_mut_slice(), places);
    if let Some(position) = &mut region.rest {
        *position = place_in(places, *position);
    }
}

/// Moves each region.
pub(crate) fn move_regions(regions: &mut [Region], places: &[u32])
    ensures { regions.new ≡ map (region_moved (place_in places.now)) regions.old }
{
    for region in regions.iter_mut() {
        move_region(region, places);
    }
}
