//! Where the copy that a Move makes is spoilt.

ghost use Rattle.std.specs.Prelude.{◌≡◌, ◌++◌, ◌<◌, ◌^◌, ◌&&◌, ℕ, length, not, nat_eq, slice_get, IfOk, OnOk};
ghost use Rattle.insn_set.specs.Registers.{writes_of};
ghost use Rattle.walk_marks.specs.Walks.{is_on};
ghost use Rattle.copy_prop.specs.Stale.{casts};
ghost use Rattle.copy_prop.specs.Searches.{AreSteps, AreSpoilt, touches, seeds_to, spoils, when};

use crate::copied::Copied;
use crate::steps::{Steps, insn_at};
use criteria::is_on;
use insn_set::Insn;
use program_model::Body;
use register_criteria::writes_copy;
use std::alloc::{AllocError, Global};
use walk_marks::{Gate, marked};

/// Every edge but those that leave a position.
#[derive(Drop)]
struct Elsewhere {
    at: u32,
}

impl Gate for Elsewhere {
    ghost use Rattle.std.specs.Prelude.{not, nat_eq};

    ghost lets = { λ g n m. not (nat_eq n g.at) };

    fn is_open(&self, from: u32, to: u32) -> bool {
        from != self.at
    }
}

/// Whether an instruction that isn't the Move itself writes a register of its copy.
fn writes_elsewhere(insn: &Insn, copy: &Copied, position: u32) -> bool
    ensures { result ≡ (not (nat_eq position copy.now.at) && touches (writes_of insn.now) copy.now.slot copy.now.to copy.now.from) }
{
    position != copy.at && writes_copy(insn, copy.slot, copy.to, copy.from)
}

/// Whether an instruction is a cast of a register of a copy.
fn casts_copy(insn: &Insn, copy: &Copied) -> bool
    ensures { result ≡ touches (casts insn.now) copy.now.slot copy.now.to copy.now.from }
{
    match insn {
        Insn::CheckCast { on, .. } => {
            let on = u32::from(*on);
            let to = u32::from(copy.to);
            let from = u32::from(copy.from);
            (to == on || from == on) || (copy.slot.is_wide() && (to + 1 == on || from + 1 == on))
        }
        _ => false,
    }
}

/// Whether both hold.
pub(crate) fn both(one: bool, other: bool) -> bool
    ensures { result ≡ (one && other) }
{
    one && other
}

/// Adds some positions where that is so.
fn add_when(found: &mut Vec<u32>, is_so: bool, more: &[u32]) -> Result<(), AllocError>
    ensures { OnOk result (found.new.items ≡ found.old.items ++ when is_so more.now) }
{
    if is_so {
        found.extend_from_slice(more)?;
    }
    Ok(())
}

/// Adds where a copy is spoilt behind a position.
fn add_spoilt(
    found: &mut Vec<u32>,
    body: &Body,
    steps: &Steps,
    copy: &Copied,
    position: u32,
) -> Result<(), AllocError>
    requires steps { AreSteps body.now steps.now }
    requires position { position < length body.now.insns }
    ensures { OnOk result (found.new.items ≡ found.old.items ++ spoils body.now steps.now.reached.items copy.now position (slice_get body.now.insns position)) }
{
    let place = position as usize;
    let insn = insn_at(body, position);
    let reached = is_on(steps.reached.as_slice(), position);
    let is_written = both(reached, writes_elsewhere(insn, copy, position));
    add_when(found, is_written, steps.fronts[place].as_slice())?;
    let is_cast = both(reached, casts_copy(insn, copy));
    add_when(found, is_cast, steps.rows[place].as_slice())?;
    Ok(())
}

/// The entry, and where a copy is spoilt behind some position.
fn seeds(alloc: Global, body: &Body, steps: &Steps, copy: &Copied) -> Result<Vec<u32>, AllocError>
    requires steps { AreSteps body.now steps.now }
    requires few { length body.now.insns < 2 ^ 32 }
    ensures { IfOk result (λ found. found.items ≡ seeds_to body.now steps.now.reached.items copy.now (length body.now.insns)) }
{
    let mut found = vec![in alloc; 0]?;
    for position in 0..body.insns.len() as u32 {
        add_spoilt(&mut found, body, steps, copy, position)?;
    }
    Ok(found)
}

/// The positions at which a copy is spoilt. The only error is want of memory.
pub(crate) fn spoilt(
    alloc: Global,
    body: &Body,
    steps: &Steps,
    copy: &Copied,
) -> Result<Vec<bool>, AllocError>
    requires steps { AreSteps body.now steps.now }
    requires few { length body.now.insns < 2 ^ 32 }
    ensures { IfOk result (λ marks. AreSpoilt body.now copy.now marks.items) }
{
    let seeds = seeds(alloc, body, steps, copy)?;
    let marks = marked(
        alloc,
        steps.rows.as_slice(),
        seeds.as_slice(),
        &Elsewhere { at: copy.at },
    )?;
    Ok(marks)
}
