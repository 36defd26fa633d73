//! The registers that a form writes.

ghost use Rattle.std.specs.Prelude.{◌≡◌};
ghost use Rattle.dead_code.specs.Dead.{written_of};

use insn_set::Insn;

/// The register that a form writes, and whether it writes the next one too.
pub(crate) fn written(insn: &Insn) -> Option<(u16, bool)>
    ensures { result ≡ written_of insn.now }
{
    match insn {
        Insn::Move { slot, to, .. } | Insn::MoveResult { slot, to } => Some((*to, slot.is_wide())),
        Insn::MoveException { to }
        | Insn::Const { to, .. }
        | Insn::ConstString { to, .. }
        | Insn::ConstClass { to, .. }
        | Insn::InstanceOf { to, .. }
        | Insn::ArrayLength { to, .. }
        | Insn::NewInstance { to, .. }
        | Insn::NewArray { to, .. }
        | Insn::Cmp { to, .. }
        | Insn::Literal { to, .. } => Some((*to, false)),
        Insn::ConstWide { to, .. } => Some((*to, true)),
        Insn::ArrayGet { item, to, .. }
        | Insn::InstanceGet { item, to, .. }
        | Insn::StaticGet { item, to, .. } => Some((*to, item.is_wide())),
        Insn::Unary { op, to, .. } => Some((*to, op.writes_wide())),
        Insn::Binary { op, to, .. } => Some((*to, op.is_wide())),
        _ => None,
    }
}
