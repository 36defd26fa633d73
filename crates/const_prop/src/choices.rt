//! Where branches go on whose operands are known.

ghost use Rattle.std.specs.Prelude.{◌≡◌, nat_eq};
ghost use Rattle.std.specs.List.{list_any};
ghost use Rattle.std.specs.Int.{w32, cast_signed};
ghost use Rattle.dalvik_defs.specs.Arith.{passes};
ghost use Rattle.dalvik_defs.specs.ActPlain.{packed_target};
ghost use Rattle.dalvik_defs.specs.declared.state.Value.TheVariants as value;
ghost use Rattle.const_prop.specs.Choices.{way_at, way_if, place_of, target_at, way_of, is_choice, has_target, chosen};

use insn_set::{Insn, Test};

/// Where a branch goes on: it isn't known, at the next position, or at a target.
#[derive(Clone, Copy, PartialEq, Eq, Debug, Drop)]
pub enum Way {
    Open,
    Next,
    To(u32),
}

/// Whether two words pass a test.
fn passes(test: Test, a: u32, b: u32) -> bool
    ensures { result ≡ passes test (value.Word a) (value.Word b) }
{
    match test {
        Test::Eq => a == b,
        Test::Ne => a != b,
        Test::Lt => a.cast_signed() < b.cast_signed(),
        Test::Ge => b.cast_signed() <= a.cast_signed(),
        Test::Gt => b.cast_signed() < a.cast_signed(),
        Test::Le => a.cast_signed() <= b.cast_signed(),
    }
}

/// The way to a target, or to the next position where there is none.
fn way_at(target: Option<u32>) -> Way
    ensures { result ≡ way_at target }
{
    match target {
        Some(target) => Way::To(target),
        None => Way::Next,
    }
}

/// The way of a test.
fn way_if(passes: bool, target: u32) -> Way
    ensures { result ≡ way_if passes target }
{
    if passes { Way::To(target) } else { Way::Next }
}

/// The way of a switch over a range of keys: the target of the operand's distance from the first one, in 32 bits that wrap.
fn packed_way(word: u32, first: i32, targets: &[u32]) -> Way
    ensures { result ≡ way_at (packed_target word first targets.now) }
{
    let target = targets.get(word.wrapping_sub(first.cast_unsigned()) as usize);
    way_at(target.copied())
}

/// The place of the first key that is the operand, a word.
fn place_of(word: u32, keys: &[i32]) -> Option<usize>
    ensures { result ≡ place_of (cast_signed w32 word) keys.now }
{
    let key = word.cast_signed();
    keys.iter().position(|one| *one == key)
}

/// The target at a place, none where there is no place.
fn target_at(targets: &[u32], place: Option<usize>) -> Option<u32>
    ensures { result ≡ target_at targets.now place }
{
    match place {
        Some(place) => targets.get(place).copied(),
        None => None,
    }
}

/// The way of a switch over keys: the target of the one that is the operand.
fn sparse_way(word: u32, keys: &[i32], targets: &[u32]) -> Way
    ensures { result ≡ way_at (target_at targets.now (place_of (cast_signed w32 word) keys.now)) }
{
    way_at(target_at(targets, place_of(word, keys)))
}

/// Where a branch goes on whose first operand is one word, and its second one another; open where the form is none.
pub(crate) fn way_of(insn: &Insn, a: u32, b: u32) -> Way
    ensures { result ≡ way_of insn.now a b }
{
    match insn {
        Insn::If { test, target, .. } => way_if(passes(*test, a, b), *target),
        Insn::IfZero { test, target, .. } => way_if(passes(*test, a, 0), *target),
        Insn::PackedSwitch { first, targets, .. } => packed_way(a, *first, targets.as_slice()),
        Insn::SparseSwitch { keys, targets, .. } => {
            sparse_way(a, keys.as_slice(), targets.as_slice())
        }
        _ => Way::Open,
    }
}

/// Whether a position is one of some targets.
fn is_among(targets: &[u32], position: u32) -> bool
    ensures { result ≡ list_any (λ t. nat_eq t position) targets.now }
{
    targets.iter().any(|target| *target == position)
}

/// Whether the form is a conditional branch or a switch.
pub(crate) fn is_choice(insn: &Insn) -> bool
    ensures { result ≡ is_choice insn.now }
{
    matches!(
        insn,
        Insn::If { .. }
            | Insn::IfZero { .. }
            | Insn::PackedSwitch { .. }
            | Insn::SparseSwitch { .. }
    )
}

/// Whether a branch can go to a position other than the next one.
fn has_target(insn: &Insn, position: u32) -> bool
    ensures { result ≡ has_target insn.now position }
{
    match insn {
        Insn::If { target, .. } | Insn::IfZero { target, .. } => *target == position,
        Insn::PackedSwitch { targets, .. } | Insn::SparseSwitch { targets, .. } => {
            is_among(targets.as_slice(), position)
        }
        _ => false,
    }
}

/// What is written over a conditional branch or a switch whose way is known: a nop where that is the next position, else a
/// goto to its target.
pub(crate) fn chosen(insn: &Insn, next: u32, way: Way) -> Option<Insn>
    ensures { result ≡ chosen insn.now next way }
{
    match way {
        Way::Open => None,
        Way::Next => {
            if is_choice(insn) {
                Some(Insn::Nop)
            } else {
                None
            }
        }
        Way::To(target) => {
            if !has_target(insn, target) {
                None
            } else if target == next {
                Some(Insn::Nop)
            } else {
                Some(Insn::Goto { target })
            }
        }
    }
}
