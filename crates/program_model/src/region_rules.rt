//! What the regions of a body and their handlers have to be (Dalvik executable format, "try_item").

ghost use Rattle.std.specs.Prelude.{◌≡◌, slice_get};
ghost use Rattle.std.specs.List.{list_all};
ghost use Rattle.program_model.specs.Neighbours.{neighbours};
ghost use Rattle.program_model.specs.RegionRules.{may_begin, handler_fits, rest_fits, catches, region_fits, are_apart, regions_fit};

use crate::body::{Handler, Region};
use crate::program::Program;
use crate::texts::has_type;
use insn_set::Insn;

/// Whether a handler, or the body itself, may begin at a position: there is one, and it is no move-result.
pub(crate) fn may_begin(insns: &[Insn], position: usize) -> bool
    ensures { result ≡ may_begin (slice_get insns.now position) }
{
    match insns.get(position) {
        Some(Insn::MoveResult { .. }) => false,
        Some(_) => true,
        None => false,
    }
}

/// Whether a handler's type and position are what they have to be.
fn handler_fits(program: &Program, insns: &[Insn], handler: &Handler) -> bool
    ensures { result ≡ handler_fits program.now insns.now handler.now }
{
    has_type(program, handler.kind) && may_begin(insns, handler.position as usize)
}

/// Whether each handler is what it has to be.
fn handlers_fit(program: &Program, insns: &[Insn], handlers: &[Handler]) -> bool
    ensures { result ≡ list_all (handler_fits program.now insns.now) handlers.now }
{
    handlers
        .iter()
        .all(|handler| handler_fits(program, insns, handler))
}

/// Whether the position of a catch-all, if there is one, is what it has to be.
fn rest_fits(insns: &[Insn], rest: Option<u32>) -> bool
    ensures { result ≡ rest_fits insns.now rest }
{
    match rest {
        Some(position) => may_begin(insns, position as usize),
        None => true,
    }
}

/// Whether a region has a handler or a catch-all.
fn catches(region: &Region) -> bool
    ensures { result ≡ catches region.now }
{
    region.handlers.len() != 0 || region.rest.is_some()
}

/// Whether a region covers some of the positions, and its handlers are what they have to be.
fn region_fits(program: &Program, insns: &[Insn], region: &Region) -> bool
    ensures { result ≡ region_fits program.now insns.now region.now }
{
    (region.first < region.end && region.end as usize <= insns.len())
        && (catches(region)
            && (handlers_fit(program, insns, region.handlers.as_slice())
                && rest_fits(insns, region.rest)))
}

/// Whether each region is what it has to be.
fn each_region_fits(program: &Program, insns: &[Insn], regions: &[Region]) -> bool
    ensures { result ≡ list_all (region_fits program.now insns.now) regions.now }
{
    regions
        .iter()
        .all(|region| region_fits(program, insns, region))
}

/// Whether each region ends before the one behind it begins.
fn are_apart(regions: &[Region]) -> bool
    ensures { result ≡ list_all are_apart (neighbours regions.now) }
{
    regions
        .iter()
        .zip(regions.iter().skip(1))
        .all(|(region, next)| region.end <= next.first)
}

/// Whether the regions lie in order and apart, and each is what it has to be.
#[tactic(auto, unfolding(crate::specs::RegionRules::regions_fit))]
pub(crate) fn regions_fit(program: &Program, insns: &[Insn], regions: &[Region]) -> bool
    ensures { result ≡ regions_fit program.now insns.now regions.now }
{
    each_region_fits(program, insns, regions) && are_apart(regions)
}
