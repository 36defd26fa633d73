//! The fates that come of what a pass wishes.

ghost use Rattle.std.specs.Prelude.{◌≡◌, ◌+◌, ◌<◌, ◌^◌, length, IfOk};
ghost use Rattle.std.specs.List.{list_any};
ghost use Rattle.thin_pass.specs.Wishing.{is_between, leads_into, start_behind, wish_at, is_to_go, is_held, emptied, fate_of, fate_at, fates_from};

use body_edit::Fate;
use insn_set::Insn;
use std::alloc::{AllocError, Global};

/// Whether a position lies in a range, its end included.
fn is_between(position: u32, first: usize, last: usize) -> bool
    ensures { result ≡ is_between first last position }
{
    first <= position as usize && position as usize <= last
}

/// Whether one of some positions lies in a range, its end included.
fn is_any_between(positions: &[u32], first: usize, last: usize) -> bool
    ensures { result ≡ list_any (is_between first last) positions.now }
{
    positions
        .iter()
        .any(|position| is_between(*position, first, last))
}

/// Whether the instruction is a branch that has a target in a range of positions, its end included.
fn leads_into(insn: &Insn, first: usize, last: usize) -> bool
    ensures { result ≡ leads_into first last insn.now }
{
    match insn {
        Insn::Goto { target } | Insn::If { target, .. } | Insn::IfZero { target, .. } => {
            is_between(*target, first, last)
        }
        Insn::PackedSwitch { targets, .. } | Insn::SparseSwitch { targets, .. } => {
            is_any_between(targets.as_slice(), first, last)
        }
        _ => false,
    }
}

/// What is wished for a position.
fn wish_at(wishes: &[Fate], position: usize) -> Fate
    ensures { result ≡ wish_at wishes.now position }
{
    match wishes.get(position) {
        Some(wish) => *wish,
        None => Fate::Stays,
    }
}

/// Whether a position is to go.
fn is_to_go(wishes: &[Fate], position: usize) -> bool
    ensures { result ≡ is_to_go wishes.now position }
{
    matches!(wish_at(wishes, position), Fate::Goes)
}

/// Whether the next position isn't to go and is a branch to one of the positions from `start` up to this one.
fn is_held(insns: &[Insn], wishes: &[Fate], start: usize, position: usize) -> bool
    requires { position < length insns.now }
    ensures { result ≡ is_held insns.now wishes.now start position }
{
    match insns.get(position + 1) {
        Some(next) => !is_to_go(wishes, position + 1) && leads_into(next, start, position),
        None => false,
    }
}

/// The fate under which no more than a nop is left.
fn emptied(insn: &Insn) -> Fate
    ensures { result ≡ emptied insn.now }
{
    match insn {
        Insn::Nop => Fate::Stays,
        _ => Fate::Empties,
    }
}

/// The fate of a position.
fn fate_of(wish: Fate, held: bool, insn: &Insn) -> Fate
    ensures { result ≡ fate_of wish held insn.now }
{
    match wish {
        Fate::Stays => Fate::Stays,
        Fate::Empties => emptied(insn),
        Fate::Goes => { if held { emptied(insn) } else { Fate::Goes } }
    }
}

/// The fate of a position, where all from `start` up to the one before it are to go.
fn fate_at(insns: &[Insn], wishes: &[Fate], start: usize, position: usize) -> Fate
    requires { position < length insns.now }
    ensures { result ≡ fate_at insns.now wishes.now start position }
{
    let held = is_held(insns, wishes, start, position);
    match insns.get(position) {
        Some(insn) => fate_of(wish_at(wishes, position), held, insn),
        None => Fate::Stays,
    }
}

/// Where the positions begin that are to go, up to the one behind a position.
fn start_behind(wishes: &[Fate], start: usize, position: usize) -> usize
    requires { position + 1 < 2 ^ 64 }
    ensures { result ≡ start_behind wishes.now start position }
{
    if is_to_go(wishes, position) {
        start
    } else {
        position + 1
    }
}

/// The fates of the positions of a body, where this is wished for them. Where all positions from a branch's target up to the
/// one before the branch are to go, that last one becomes a nop, since the branch would lead to itself without it. What is a
/// nop already stays where a nop is wished. The only error is want of memory.
pub fn fates_where(alloc: Global, insns: &[Insn], wishes: &[Fate]) -> Result<Vec<Fate>, AllocError>
    ensures fates { IfOk result (λ v. v.items ≡ fates_from insns.now wishes.now 0 (length insns.now)) }
    ensures long { IfOk result (λ v. length v.items ≡ length insns.now) }
{
    let mut fates = Vec::with_capacity(alloc, insns.len())?;
    let mut start = 0;
    for position in 0..insns.len() {
        fates.push(fate_at(insns, wishes, start, position))?;
        start = start_behind(wishes, start, position);
    }
    Ok(fates)
}
