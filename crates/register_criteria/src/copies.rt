//! Writes of the registers of a copy.

ghost use Rattle.std.specs.Prelude.{◌≡◌};
ghost use Rattle.insn_set.specs.Registers.{writes_of};
ghost use Rattle.register_criteria.specs.Copies.{touches};

use insn_set::{Insn, Slot};

/// Whether an instruction writes a register of a copy, or of what is copied.
pub fn writes_copy(insn: &Insn, slot: Slot, to: u16, from: u16) -> bool
    ensures { result ≡ touches (writes_of insn.now) slot to from }
{
    let to = u32::from(to);
    let from = u32::from(from);
    (insn.writes(to) || insn.writes(from))
        || (slot.is_wide() && (insn.writes(to + 1) || insn.writes(from + 1)))
}
