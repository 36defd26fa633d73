//! What stands at the positions of a caller.

ghost use Rattle.std.specs.Prelude.{◌≡◌, ◌+◌, slice_get};
ghost use Rattle.splice.specs.Callees.{chosen_at, taken_by, is_dropped, registers_of, greatest, args_of};

use insn_set::{Insn, Slot};
use program_model::{Body, Method};

/// A method that is copied in place of a call, with its code.
#[derive(Clone, Copy)]
pub struct Callee<'p> {
    pub method: &'p Method,
    pub body: &'p Body,
}

/// The method that is copied at a position, if one is chosen for it.
pub(crate) fn chosen_at<'p>(chosen: &[Option<Callee<'p>>], position: usize) -> Option<Callee<'p>>
    ensures { result ≡ chosen_at chosen.now position }
{
    match chosen.get(position) {
        Some(callee) => *callee,
        None => None,
    }
}

/// The slot and the register of the move-result at a position, if one stands there.
pub(crate) fn taken_at(insns: &[Insn], position: usize) -> Option<(Slot, u16)>
    ensures { result ≡ taken_by (slice_get insns.now position) }
{
    match insns.get(position) {
        Some(Insn::MoveResult { slot, to }) => Some((*slot, *to)),
        _ => None,
    }
}

/// The slot and the register of the move-result behind a position, if one stands there.
pub fn taken_behind(insns: &[Insn], position: usize) -> Option<(Slot, u16)>
    ensures { result ≡ taken_by (slice_get insns.now (position + 1)) }
{
    match position.checked_add(1) {
        Some(behind) => taken_at(insns, behind),
        None => None,
    }
}

/// Whether the instruction at a position is the move-result of a call in whose place a method is copied.
pub(crate) fn is_dropped(chosen: &[Option<Callee<'_>>], insns: &[Insn], position: usize) -> bool
    ensures { result ≡ is_dropped chosen.now insns.now position }
{
    match position.checked_sub(1) {
        Some(before) => {
            chosen_at(chosen, before).is_some() && taken_at(insns, position).is_some()
        }
        None => false,
    }
}

/// How many registers the method has that is copied at a position, none where none is.
fn registers_of(callee: Option<Callee<'_>>) -> u16
    ensures { result ≡ registers_of callee.entry }
{
    match callee {
        Some(callee) => callee.body.registers,
        None => 0,
    }
}

/// How many registers the methods that are copied have at most.
pub(crate) fn greatest(chosen: &[Option<Callee<'_>>]) -> u16
    ensures { result ≡ greatest chosen.now }
{
    let mut most = 0;
    for callee in chosen {
        most = registers_of(*callee).max(most);
    }
    most
}

/// The registers that a call passes.
pub(crate) fn args_of(insn: &Insn) -> &[u16]
    ensures { result.now ≡ args_of insn.now }
{
    match insn {
        Insn::Invoke { args, .. } => args.as_slice(),
        _ => &[],
    }
}
