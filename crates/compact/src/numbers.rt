//! Instructions with other registers.

ghost use Rattle.std.specs.Prelude.{◌≡◌, ◌≤◌, ◌<◌, ℕ, map, length, slice_index, IfOk, OnOk};
ghost use Rattle.insn_regs.specs.Remade.{remade};
ghost use Rattle.compact.specs.Renamed.{renamed};

use insn_regs::{Renaming, rename_reads, rename_writes};
use insn_set::Insn;
use std::alloc::{AllocError, Global};

/// The new numbers of registers: listed from register 0 on, and behind the list so many less.
#[derive(Drop)]
pub(crate) struct Numbers {
    pub(crate) low: Vec<u16>,
    pub(crate) shift: u16,
    ghost fits: { shift ≤ length low.items },
}

impl Renaming for Numbers {
    ghost renamed = { λ g r. renamed g.low.items g.shift r };

    fn at(&self, register: u16) -> u16 {
        if (register as usize) < self.low.len() {
            self.low[register as usize]
        } else {
            register - self.shift
        }
    }
}

/// Gives an instruction the new numbers. After want of memory it may have stayed as it was.
fn renumber_one(alloc: Global, insn: &mut Insn, numbers: &Numbers) -> Result<(), AllocError>
    ensures { OnOk result (insn.new ≡ remade (renamed numbers.now.low.items numbers.now.shift) (renamed numbers.now.low.items numbers.now.shift) insn.old) }
{
    rename_reads(alloc, insn, numbers)?;
    rename_writes(insn, numbers);
    Ok(())
}

/// Gives each instruction the new numbers.
pub(crate) fn renumber(
    alloc: Global,
    insns: &mut [Insn],
    numbers: &Numbers,
) -> Result<(), AllocError>
    ensures { OnOk result (insns.new ≡ map (remade (renamed numbers.now.low.items numbers.now.shift) (renamed numbers.now.low.items numbers.now.shift)) insns.old) }
{
    for insn in insns.iter_mut() {
        renumber_one(alloc, insn, numbers)?;
    }
    Ok(())
}
