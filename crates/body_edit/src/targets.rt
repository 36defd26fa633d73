//! Targets, handlers and regions that follow their positions.

ghost use Rattle.std.specs.Prelude.{◌≡◌, map, filter, nat_lt};
ghost use Rattle.std.specs.List.{list_all};
ghost use Rattle.pass_defs.specs.Thinned.{insn_retargeted, handler_moved, region_moved, rest_before, region_has_room};
ghost use Rattle.body_edit.specs.Places.{place_in};

use crate::places::Places;
use insn_set::Insn;
use program_model::{Handler, Region};

/// Moves each target.
fn move_targets(targets: &mut [u32], places: &Places)
    ensures { targets.new ≡ map (place_in places.now) targets.old }
{
    for target in targets.iter_mut() {
        *target = places.of(*target);
    }
}

/// Moves the targets of a branch.
pub(crate) fn retarget(insn: &mut Insn, places: &Places)
    ensures { insn.new ≡ insn_retargeted (place_in places.now) insn.old }
{
    match insn {
        Insn::Goto { target } => *target = places.of(*target),
        Insn::If { target, .. } => *target = places.of(*target),
        Insn::IfZero { target, .. } => *target = places.of(*target),
        Insn::PackedSwitch { targets, .. } => move_targets(targets.items.as_mut_slice(), places),
        Insn::SparseSwitch { targets, .. } => move_targets(targets.items.as_mut_slice(), places),
        _ => {}
    }
}

/// Moves a handler.
fn move_handler(handler: &mut Handler, places: &Places)
    ensures { handler.new ≡ handler_moved (place_in places.now) handler.old }
{
    handler.position = places.of(handler.position);
}

/// Moves each handler.
fn move_handlers(handlers: &mut [Handler], places: &Places)
    ensures { handlers.new ≡ map (handler_moved (place_in places.now)) handlers.old }
{
    for handler in handlers.iter_mut() {
        move_handler(handler, places);
    }
}

/// Moves a region with its handlers.
fn move_region(region: &mut Region, places: &Places)
    ensures { region.new ≡ region_moved (place_in places.now) region.old }
{
    region.first = places.of(region.first);
    region.end = places.of(region.end);
    move_handlers(region.handlers.items.as_mut_slice(), places);
    if let Some(position) = &mut region.rest {
        *position = places.of(*position);
    }
}

/// Moves each region.
pub(crate) fn move_regions(regions: &mut [Region], places: &Places)
    ensures { regions.new ≡ map (region_moved (place_in places.now)) regions.old }
{
    for region in regions.iter_mut() {
        move_region(region, places);
    }
}

/// Whether each handler stands before an end.
fn are_before(end: usize, handlers: &[Handler]) -> bool
    ensures { result ≡ list_all (λ handler. nat_lt handler.position end) handlers.now }
{
    handlers
        .iter()
        .all(|handler| (handler.position as usize) < end)
}

/// Whether a catch-all, if there is one, stands before an end.
fn is_rest_before(end: usize, rest: Option<u32>) -> bool
    ensures { result ≡ rest_before end rest }
{
    match rest {
        Some(position) => (position as usize) < end,
        None => true,
    }
}

/// Whether a region covers a position, and its handlers stand before an end.
fn has_room(end: usize, region: &Region) -> bool
    ensures { result ≡ region_has_room end region.now }
{
    region.first < region.end
        && (are_before(end, region.handlers.as_slice()) && is_rest_before(end, region.rest))
}

/// Drops the regions that cover nothing or have a handler past the end.
pub(crate) fn drop_empty(regions: &mut Vec<Region>, end: usize)
    ensures { regions.new.items ≡ filter (region_has_room end) regions.old.items }
{
    regions.retain(|region| has_room(end, region));
}
