//! Reads of the original in place of the copy.

ghost use Rattle.std.specs.Prelude.{◌≡◌, ℕ, IfOk, OnOk, OnErr};
ghost use Rattle.copy_prop.specs.Stale.{is_cast, reading};
ghost use Rattle.copy_prop.specs.Searches.{can_read};
ghost use Rattle.copy_prop.specs.Rereading.{substituted, substitutes, fits, first_of, reread};

use crate::copied::Copied;
use insn_regs::{Renaming, reads_as, rename_reads};
use insn_set::Insn;
use seq::Seq;
use std::alloc::{AllocError, Global};

/// Originals in place of copies. Where two copies have a register in common, the first one counts.
#[derive(Drop)]
struct Originals<'a> {
    copies: &'a [Copied],
}

impl Renaming for Originals<'_> {
    ghost use Rattle.copy_prop.specs.Rereading.{substituted};

    ghost renamed = { λ s. substituted s.copies.now };

    fn at(&self, register: u16) -> u16 {
        original(self.copies, register)
    }
}

/// The original of a register, the register itself where it is in no copy.
fn original(copies: &[Copied], register: u16) -> u16
    ensures { result ≡ substituted copies.now register }
{
    for copy in copies {
        if register == copy.to {
            return copy.from;
        }
        if copy.slot.is_wide() && u32::from(register) == u32::from(copy.to) + 1 {
            return copy.from + 1;
        }
    }
    register
}

/// An instruction that reads originals in place of copies. The only error is want of memory.
fn reading(alloc: Global, insn: &Insn, copies: &[Copied]) -> Result<Insn, AllocError>
    ensures { IfOk result (λ f. f ≡ substitutes copies.now insn.now) }
{
    let mut other = insn.clone()?;
    rename_reads(alloc, &mut other, &Originals { copies })?;
    Ok(other)
}

/// Whether an instruction is encodable and no longer than another one.
fn fits(insn: &Insn, old: &Insn) -> bool
    ensures { result ≡ fits old.now insn.now }
{
    insn.encodable() && insn.units(0) <= old.units(0)
}

/// Whether an instruction is a cast.
fn is_cast(insn: &Insn) -> bool
    ensures { result ≡ is_cast insn.now }
{
    matches!(insn, Insn::CheckCast { .. })
}

/// Whether an instruction can read the original in place of the copy. The only error is want of memory.
pub(crate) fn can_read(
    alloc: Global,
    widths: &[Seq<bool>],
    copy: &Copied,
    insn: &Insn,
) -> Result<bool, AllocError>
    ensures { IfOk result (λ r. r ≡ can_read widths.now copy.now insn.now) }
{
    if is_cast(insn) || !reads_as(alloc, widths, copy.slot, insn, copy.to)? {
        return Ok(false);
    }
    let other = reading(alloc, insn, &[*copy])?;
    Ok(fits(&other, insn))
}

/// The first copy alone, if there is one.
fn first_of(copies: &[Copied]) -> &[Copied]
    ensures { result.now ≡ first_of copies.now }
{
    if copies.is_empty() {
        copies
    } else {
        &copies[..1]
    }
}

/// The instruction that reads originals in place of copies, of the first copy alone where all together have no spelling or
/// a longer one. The only error is want of memory.
#[tactic(auto, using(crate::proofs::Choices::all_together, crate::proofs::Choices::first_alone))]
pub(crate) fn reread(alloc: Global, insn: &Insn, copies: &[Copied]) -> Result<Insn, AllocError>
    ensures { IfOk result (λ f. f ≡ reread copies.now insn.now) }
{
    let together = reading(alloc, insn, copies)?;
    if fits(&together, insn) {
        return Ok(together);
    }
    reading(alloc, insn, first_of(copies))
}
