//! Which Move stands at a position.

ghost use Rattle.copy_prop.specs.Searches.{IsCopied};

use crate::copied::{Copied, overlaps};
use insn_set::Insn;

/// The Move that stands at a position, unless its registers overlap or it reads past the last register.
pub(crate) fn copied_at(insn: &Insn, at: u32) -> Option<Copied>
    ensures { IsCopied insn.now at result }
{
    match insn {
        Insn::Move { slot, to, from } => {
            if overlaps(*slot, *to, *from) || (slot.is_wide() && *from == u16::MAX) {
                None
            } else {
                Some(Copied {
                    at,
                    slot: *slot,
                    to: *to,
                    from: *from,
                })
            }
        }
        _ => None,
    }
}
