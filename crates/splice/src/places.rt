//! How much room each position of a caller takes in the new body, and where it begins.

ghost use Rattle.std.specs.Prelude.{◌≡◌, ◌+◌, map, sum_by, IfOk, is_some, slice_get};
ghost use Rattle.splice.specs.Shifted.{word};
ghost use Rattle.splice.specs.Places.{copy_size, callee_size, size_at, places_from, places_of, inner_places};

use crate::callee::{Callee, args_of, chosen_at, is_dropped, taken_behind};
use crate::moves::moves_of;
use insn_set::Insn;
use program_model::Program;
use std::alloc::{AllocError, Global};

/// A length as a number of 32 bits, the greatest one for all above it.
pub(crate) fn word(n: usize) -> u32
    ensures { result ≡ word n }
{
    u32::try_from(n).unwrap_or(u32::MAX)
}

/// How many instructions a copy of an instruction has: two for a return whose result is taken.
fn copy_size(taken: bool, insn: &Insn) -> u32
    ensures { result ≡ copy_size taken insn.now }
{
    match insn {
        Insn::Return { .. } if taken => 2,
        _ => 1,
    }
}

/// How many instructions the copies of these have.
fn copies_size(taken: bool, insns: &[Insn]) -> u32
    ensures { result ≡ word (sum_by (copy_size taken) insns.now) }
{
    let mut size: u32 = 0;
    for insn in insns {
        size = size.saturating_add(copy_size(taken, insn));
    }
    size
}

/// How many instructions stand in place of a call.
fn callee_size(
    alloc: Global,
    program: &Program,
    shift: u16,
    taken: bool,
    callee: Callee<'_>,
    args: &[u16],
) -> Result<u32, AllocError>
    ensures { IfOk result (λ size. size ≡ callee_size program.now shift taken callee.entry args.now) }
{
    let moves = moves_of(alloc, program, shift, callee, args)?;
    Ok(word(moves.len()).saturating_add(copies_size(taken, callee.body.insns.as_slice())))
}

/// How many instructions stand in place of the one at a position.
fn size_at(
    alloc: Global,
    program: &Program,
    chosen: &[Option<Callee<'_>>],
    shift: u16,
    insns: &[Insn],
    position: usize,
    insn: &Insn,
) -> Result<u32, AllocError>
    ensures { IfOk result (λ size. size ≡ size_at program.now chosen.now shift insns.now position insn.now) }
{
    match chosen_at(chosen, position) {
        Some(callee) => {
            let taken = taken_behind(insns, position).is_some();
            callee_size(alloc, program, shift, taken, callee, args_of(insn))
        }
        None => {
            if is_dropped(chosen, insns, position) {
                Ok(0)
            } else {
                Ok(1)
            }
        }
    }
}

/// Where each position of a caller begins; behind the last one stands the end.
pub(crate) fn places_of(
    alloc: Global,
    program: &Program,
    chosen: &[Option<Callee<'_>>],
    shift: u16,
    insns: &[Insn],
) -> Result<Vec<u32>, AllocError>
    ensures { IfOk result (λ places. places.items ≡ places_of program.now chosen.now shift insns.now) }
{
    let mut places = Vec::new(alloc);
    let mut place: u32 = 0;
    for (position, insn) in insns.iter().enumerate() {
        places.push(place)?;
        let size = size_at(alloc, program, chosen, shift, insns, position, insn)?;
        place = place.saturating_add(size);
    }
    places.push(place)?;
    Ok(places)
}

/// Where the positions of a method begin in a copy of it that begins at a place.
pub(crate) fn inner_places(
    alloc: Global,
    first: u32,
    taken: bool,
    insns: &[Insn],
) -> Result<Vec<u32>, AllocError>
    ensures { IfOk result (λ places. places.items ≡ inner_places first taken insns.now) }
{
    let mut places = Vec::new(alloc);
    let mut place = first;
    for insn in insns {
        places.push(place)?;
        place = place.saturating_add(copy_size(taken, insn));
    }
    places.push(place)?;
    Ok(places)
}
