//! Bodies without some of their positions.

ghost use Rattle.std.specs.Prelude.{◌≡◌, ◌<◌, ◌^◌, length, OnOk, OnErr};
ghost use Rattle.pass_defs.specs.Thinned.{insns_left, body_thinned};
ghost use Rattle.body_edit.specs.Fates.{fate_of, fates_of, edited, all_edited};
ghost use Rattle.body_edit.specs.Places.{place_in};

use crate::fate::Fate;
use crate::keeping::keep_left;
use crate::places::{Places, places_of};
use crate::targets::{drop_empty, move_regions, retarget};
use insn_set::Insn;
use program_model::Body;
use std::alloc::{AllocError, Global};

/// Moves the targets of an instruction that stays, and makes one that empties a nop.
fn edit(insn: &mut Insn, fate: Fate, places: &Places)
    ensures { insn.new ≡ edited (place_in places.now) (fate_of fate) insn.old }
{
    match fate {
        Fate::Stays => retarget(insn, places),
        Fate::Empties => *insn = Insn::Nop,
        Fate::Goes => {}
    }
}

/// Edits each instruction by its fate.
fn edit_each(insns: &mut [Insn], fates: &[Fate], places: &Places)
    requires { length fates.now ≡ length insns.old }
    ensures { insns.new ≡ all_edited (place_in places.now) (fates_of fates.now) insns.old }
{
    for position in 0..fates.len() {
        edit(&mut insns[position], fates[position], places);
    }
}

/// Edits the instructions of a body by their fates.
fn edit_insns(insns: &mut Vec<Insn>, fates: &[Fate], places: &Places)
    requires { length fates.now ≡ length insns.old.items }
    ensures { insns.new.items ≡ all_edited (place_in places.now) (fates_of fates.now) insns.old.items }
{
    edit_each(insns.as_mut_slice(), fates, places);
}

/// Thins the instructions of a body.
fn thin_insns(insns: &mut Vec<Insn>, fates: &[Fate], places: &Places)
    requires { length fates.now ≡ length insns.old.items }
    ensures { insns.new.items ≡ insns_left (place_in places.now) (fates_of fates.now) insns.old.items }
{
    edit_insns(insns, fates, places);
    keep_left(insns, fates);
}

/// Takes the positions out of a body that go, makes nops of those that become nops, and moves the others up. Targets, regions
/// and handlers follow. A region is dropped that covers nothing any more, or that has a handler behind which nothing stays:
/// no position that it covers leads there (Dalvik executable format, "code_item"). The only error is want of memory, and
/// then the body stays as it was.
pub fn thin(alloc: Global, body: &mut Body, fates: &[Fate]) -> Result<(), AllocError>
    requires long { length fates.now ≡ length body.old.insns }
    requires small { length fates.now < 2 ^ 32 }
    ensures thinned { OnOk result (body.new ≡ body_thinned (fates_of fates.now) body.old) }
    ensures same { OnErr result (body.new ≡ body.old) }
{
    let places = places_of(alloc, fates)?;
    thin_insns(&mut body.insns.items, fates, &places);
    move_regions(body.regions.items.as_mut_slice(), &places);
    drop_empty(&mut body.regions.items, body.insns.len());
    Ok(())
}
