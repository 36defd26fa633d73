//! Forms that do nothing but write a register.

ghost use Rattle.std.specs.Prelude.{◌≡◌};
ghost use Rattle.walk_marks.specs.Walks.{is_on};
ghost use Rattle.criteria.specs.Pure.{is_pure};

use crate::marks::is_on;
use insn_set::Insn;

/// Whether a form does nothing but write a register, whatever the registers hold, where gets of the marked static fields run
/// no code.
pub fn is_pure(quiet: &[bool], insn: &Insn) -> bool
    ensures { result ≡ is_pure (is_on quiet.now) insn.now }
{
    match insn {
        Insn::Nop
        | Insn::Move { .. }
        | Insn::MoveResult { .. }
        | Insn::MoveException { .. }
        | Insn::Const { .. }
        | Insn::ConstWide { .. }
        | Insn::ConstString { .. }
        | Insn::ConstClass { .. }
        | Insn::InstanceOf { .. }
        | Insn::Cmp { .. }
        | Insn::Unary { .. } => true,
        Insn::StaticGet { field, .. } => is_on(quiet, *field),
        Insn::Binary { op, .. } => !op.divides(),
        Insn::Literal { op, value, .. } => !op.divides() || i32::from(*value).cast_unsigned() != 0,
        _ => false,
    }
}
