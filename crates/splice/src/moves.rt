//! The moves of what a call passes into the registers of a method's arguments.

ghost use Rattle.std.specs.Prelude.{◌≡◌, ◌++◌, IfOk, OnOk};
ghost use Rattle.program_model.specs.Texts.{letter_of};
ghost use Rattle.splice.specs.Moves.{slot_for, slot_of, parameters_of, receiver_slots, passed_slots, first_move, behind_to, behind_args, moves_to, moves_of};

use crate::callee::Callee;
use insn_set::{Insn, Slot};
use program_model::{Flags, Method, Program};
use std::alloc::{AllocError, Global};

/// The unit that a type's descriptor begins with, 0 where there is none.
#[tactic(auto, unfolding(program_model::specs::Texts::type_text, program_model::specs::Texts::letter_of))]
fn letter_of(program: &Program, kind: u32) -> u16
    ensures { result ≡ letter_of program.now kind }
{
    match program.types.items.get(kind as usize) {
        Some(string) => match program.strings.items.get(*string as usize) {
            Some(text) => match text.units() {
                [first, ..] => *first,
                [] => 0,
            },
            None => 0,
        },
        None => 0,
    }
}

/// What a register holds of a type whose descriptor begins with this letter: long and double are wide, classes and arrays are
/// objects (Dalvik executable format, "TypeDescriptor").
fn slot_for(letter: u16) -> Slot
    ensures { result ≡ slot_for letter }
{
    if letter == 74 || letter == 68 {
        Slot::Wide
    } else if letter == 76 || letter == 91 {
        Slot::Object
    } else {
        Slot::Word
    }
}

/// The types of the parameters of a method.
fn parameters_of(program: &Program, method: u32) -> &[u32]
    ensures { result.now ≡ parameters_of program.now method }
{
    let name = match program.methods.as_slice().get(method as usize) {
        Some(name) => name,
        None => return &[],
    };
    match program.protos.as_slice().get(name.proto as usize) {
        Some(proto) => proto.parameters.as_slice(),
        None => &[],
    }
}

/// What a type is held in.
fn slot_of(program: &Program, kind: u32) -> Slot
    ensures { result ≡ slot_of program.now kind }
{
    slot_for(letter_of(program, kind))
}

/// What a method's receiver is held in, if it has one.
fn receiver_slots(alloc: Global, method: &Method) -> Result<Vec<Slot>, AllocError>
    ensures { IfOk result (λ slots. slots.items ≡ receiver_slots method.now) }
{
    let mut slots = Vec::new(alloc);
    if !method.flags.has(Flags::STATIC) {
        slots.push(Slot::Object)?;
    }
    Ok(slots)
}

/// What a method's arguments are held in.
fn passed_slots(alloc: Global, program: &Program, method: &Method) -> Result<Vec<Slot>, AllocError>
    ensures { IfOk result (λ slots. slots.items ≡ passed_slots program.now method.now) }
{
    let mut slots = receiver_slots(alloc, method)?;
    for kind in parameters_of(program, method.name) {
        slots.push(slot_of(program, *kind))?;
    }
    Ok(slots)
}

/// Adds the move of the next argument, which is held in such a slot, if it has a register.
fn push_move(
    slot: Slot,
    to: u16,
    args: &[u16],
    shift: u16,
    moves: &mut Vec<Insn>,
) -> Result<(), AllocError>
    ensures { OnOk result (moves.new.items ≡ moves.old.items ++ first_move shift slot to args.now) }
{
    if let [from, ..] = args {
        moves.push(Insn::Move {
            slot,
            to,
            from: from.saturating_add(shift),
        })?;
    }
    Ok(())
}

/// Into which register the argument goes behind one that is held in such a slot.
fn behind_to(slot: Slot, to: u16) -> u16
    ensures { result ≡ behind_to slot to }
{
    let words = if slot.is_wide() { 2 } else { 1 };
    to.saturating_add(words)
}

/// What stands behind the registers of an argument that is held in such a slot.
fn behind_args(slot: Slot, args: &[u16]) -> &[u16]
    ensures { result.now ≡ behind_args slot args.now }
{
    match args {
        [] => &[],
        [_] => &[],
        [_, second @ ..] if !slot.is_wide() => second,
        [_, _, third @ ..] => third,
    }
}

/// The moves into the registers from one on, of arguments that are held in such slots.
fn moves_to(
    alloc: Global,
    slots: &[Slot],
    to: u16,
    args: &[u16],
    shift: u16,
) -> Result<Vec<Insn>, AllocError>
    ensures { IfOk result (λ moves. moves.items ≡ moves_to shift slots.now to args.now) }
{
    let mut moves = Vec::new(alloc);
    let mut next = to;
    let mut rest = args;
    for slot in slots {
        push_move(*slot, next, rest, shift, &mut moves)?;
        next = behind_to(*slot, next);
        rest = behind_args(*slot, rest);
    }
    Ok(moves)
}

/// The moves of the registers that a call passes, which are so many higher, into the registers of a method's arguments.
pub(crate) fn moves_of(
    alloc: Global,
    program: &Program,
    shift: u16,
    callee: Callee<'_>,
    args: &[u16],
) -> Result<Vec<Insn>, AllocError>
    ensures { IfOk result (λ moves. moves.items ≡ moves_of program.now shift callee.entry args.now) }
{
    let slots = passed_slots(alloc, program, callee.method)?;
    let to = callee.body.registers.saturating_sub(callee.body.ins);
    moves_to(alloc, slots.as_slice(), to, args, shift)
}
