//! The Moves of a body.

ghost use Rattle.std.specs.Prelude.{◌≡◌, ◌+◌, ◌<◌, ◌^◌, true, false};
ghost use Rattle.insn_set.specs.Widths.{is_wide_slot};
ghost use Rattle.copy_prop.specs.Stale.{in_copy, overlaps};

use insn_set::{Insn, Slot};

/// A Move at a position, of registers that don't overlap.
#[derive(Clone, Copy, Drop)]
pub(crate) struct Copied {
    pub(crate) at: u32,
    pub(crate) slot: Slot,
    pub(crate) to: u16,
    pub(crate) from: u16,
    ghost apart: { overlaps slot to from ≡ false },
    ghost room: { is_wide_slot slot ≡ true → from + 1 < 2 ^ 16 },
}

/// Whether a register is the one from which on a slot begins, or the second one of a pair.
pub(crate) fn in_copy(slot: Slot, at: u16, register: u16) -> bool
    ensures { result ≡ in_copy slot at register }
{
    register == at || slot.is_wide() && u32::from(register) == u32::from(at) + 1
}

/// Whether what is copied and the original have a register in common.
pub(crate) fn overlaps(slot: Slot, to: u16, from: u16) -> bool
    ensures { result ≡ overlaps slot to from }
{
    in_copy(slot, to, from) || in_copy(slot, from, to)
}
