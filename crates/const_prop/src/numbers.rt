//! Known numbers, and the constants that stand for them.

ghost use Rattle.std.specs.Prelude.{◌≡◌, Some, IfSome};
ghost use Rattle.const_prop.specs.Constants.{result_of, number_into, number_written, is_worth, constant_for};

use insn_set::Insn;

/// A number that a register, or a pair of registers, is known to hold.
#[derive(Clone, Copy, PartialEq, Eq, Debug, Drop)]
pub enum Number {
    Word(u32),
    Wide(u64),
}

/// The register of the result of a form that may do nothing but write one, and whether the next one is written too.
pub(crate) fn result_of(insn: &Insn) -> Option<(u16, bool)>
    ensures { result ≡ result_of insn.now }
{
    match insn {
        Insn::Move { slot, to, .. } | Insn::MoveResult { slot, to } => Some((*to, slot.is_wide())),
        Insn::MoveException { to }
        | Insn::ConstString { to, .. }
        | Insn::ConstClass { to, .. }
        | Insn::InstanceOf { to, .. }
        | Insn::Cmp { to, .. }
        | Insn::Literal { to, .. } => Some((*to, false)),
        Insn::StaticGet { item, to, .. } => Some((*to, item.is_wide())),
        Insn::Unary { op, to, .. } => Some((*to, op.writes_wide())),
        Insn::Binary { op, to, .. } => Some((*to, op.is_wide())),
        _ => None,
    }
}

/// The constant that puts a number into a register, or a wide one into a pair.
#[tactic(auto, using(crate::proofs::Constants::word_back, crate::proofs::Constants::wide_back))]
fn number_into(to: u16, wide: bool, number: Number) -> Option<Insn>
    ensures is { result ≡ number_into to wide number }
    ensures written { IfSome result (λ constant. number_written constant ≡ Some number) }
{
    match number {
        Number::Word(word) => {
            if wide {
                None
            } else {
                Some(Insn::Const {
                    to,
                    value: word.cast_signed(),
                })
            }
        }
        Number::Wide(number) => {
            if wide {
                Some(Insn::ConstWide {
                    to,
                    value: number.cast_signed(),
                })
            } else {
                None
            }
        }
    }
}

/// Whether a constant has a spelling, and none that is longer than that of an instruction.
fn is_worth(insn: &Insn, constant: &Insn) -> bool
    ensures { result ≡ is_worth insn.now constant.now }
{
    constant.encodable() && constant.units(0) <= insn.units(0)
}

/// The constant in place of an instruction that does nothing but write a number: it writes just the registers that the
/// instruction writes, and is encodable and no longer. None where there is no such constant.
pub(crate) fn constant_for(insn: &Insn, number: Number) -> Option<Insn>
    ensures is { result ≡ constant_for insn.now number }
    ensures written { IfSome result (λ constant. number_written constant ≡ Some number) }
{
    let (to, wide) = result_of(insn)?;
    let constant = number_into(to, wide, number)?;
    if is_worth(insn, &constant) {
        Some(constant)
    } else {
        None
    }
}
