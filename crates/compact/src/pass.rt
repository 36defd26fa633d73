//! The pass over a program.

ghost use Rattle.std.specs.Prelude.{◌≡◌, ◌<◌, ◌≤◌, ◌+◌, ◌-◌, ◌^◌, ◌⊎◌, ℕ, [], length, map, true, slice_index, IfOk, OnOk, IsTrue};
ghost use Rattle.insn_regs.specs.Wides.{widths_of};
ghost use Rattle.insn_regs.specs.Remade.{remade};
ghost use Rattle.compact.specs.Renamed.{renamed, IsCompacted, IsCompactedMethod, IsCompactedClass, IsCompactedProgram, AreEdited, IsCounted};
ghost use Rattle.compact.specs.Clashes.{AreUsed};
ghost use Rattle.compact.specs.Choosing.{IsChoice, Moves};
ghost use Rattle.compact.specs.Measure.{numbers_in};

use crate::clash::clash_of;
use crate::numbers::{Numbers, renumber};
use crate::places::places_of;
use crate::runs::floor_of;
use crate::ties::ties_of;
use crate::used::used_in;
use criteria::is_admitted;
use insn_regs::widths_of;
use program_model::{Admitted, Body, Changed, Class, Method, Program};
use register_criteria::locals;
use seq::Seq;
use std::alloc::{AllocError, Global};

/// Whether 32 bits count the positions and regions of a body.
fn is_countable(body: &Body) -> bool
    ensures few { IsTrue result → length body.now.insns + 1 < 2 ^ 32 }
    ensures regions { IsTrue result → length body.now.insns + length body.now.regions < 2 ^ 32 }
{
    let most = u32::MAX as usize;
    body.insns.len() < most && body.regions.len() <= most - body.insns.len()
}

/// The new numbers of a body's registers.
fn numbers_for(
    alloc: Global,
    widths: &[Seq<bool>],
    body: &Body,
    used: &[bool],
) -> Result<Numbers, AllocError>
    requires few { length body.now.insns + 1 < 2 ^ 32 }
    requires regions { length body.now.insns + length body.now.regions < 2 ^ 32 }
    requires used { AreUsed body.now used.now }
    requires narrow { length used.now < 65536 }
    ensures { IfOk result (λ numbers. IsChoice widths.now body.now used.now numbers.low.items numbers.shift) }
{
    let ties = ties_of(alloc, widths, body)?;
    let clash = clash_of(alloc, body, used)?;
    let floor = floor_of(ties.as_slice(), locals(body));
    let places = places_of(alloc, &clash, ties.as_slice(), used, floor)?;
    let shift = floor - places.top;
    Ok(Numbers {
        low: places.numbers,
        shift,
    })
}

/// Whether some used register has another number.
fn moves(numbers: &Numbers, used: &[bool]) -> bool
    ensures { Moves used.now numbers.now.low.items numbers.now.shift result }
{
    if numbers.shift != 0 {
        return true;
    }
    for (register, number) in numbers.low.iter().enumerate() {
        if register < used.len() && used[register] && *number as usize != register {
            return true;
        }
    }
    false
}

/// Gives a body's registers their new numbers, and lowers their count.
fn renumber_body(alloc: Global, body: &mut Body, numbers: &Numbers) -> Result<(), AllocError>
    requires { numbers.now.shift ≤ body.old.registers }
    ensures { OnOk result (body.new ≡ record body.old { registers = body.old.registers - numbers.now.shift; insns = map (remade (renamed numbers.now.low.items numbers.now.shift) (renamed numbers.now.low.items numbers.now.shift)) body.old.insns }) }
{
    renumber(alloc, body.insns.items.as_mut_slice(), numbers)?;
    body.registers -= numbers.shift;
    Ok(())
}

/// Compacts a body, and answers 1 where that changes it, else 0. A body with more positions and regions than 32 bits count
/// has no room in memory. The only error is want of memory.
fn compact_body(alloc: Global, widths: &[Seq<bool>], body: &mut Body) -> Result<u64, AllocError>
    ensures is { IfOk result (λ count. IsCompacted widths.now body.old body.new) }
    ensures count { IfOk result (λ count. IsCounted count body.old body.new) }
{
    if !is_countable(body) {
        return Err(AllocError);
    }
    let used = used_in(alloc, body)?;
    let numbers = numbers_for(alloc, widths, body, used.as_slice())?;
    if !moves(&numbers, used.as_slice()) {
        return Ok(0);
    }
    renumber_body(alloc, body, &numbers)?;
    Ok(1)
}

/// Compacts the body of a method where it is admitted, and counts the bodies that change.
fn compact_method(
    alloc: Global,
    widths: &[Seq<bool>],
    admitted: &[bool],
    method: &mut Method,
) -> Result<u64, AllocError>
    ensures is { IfOk result (λ count. IsCompactedMethod widths.now admitted.now method.old method.new) }
    ensures count { IfOk result (λ count. IsCounted count method.old method.new) }
{
    if is_admitted(admitted, method.name) {
        if let Some(body) = &mut method.body {
            return compact_body(alloc, widths, body);
        }
    }
    Ok(0)
}

/// Compacts the bodies of admitted methods, and counts those that change.
fn compact_methods(
    alloc: Global,
    widths: &[Seq<bool>],
    admitted: &[bool],
    methods: &mut [Method],
) -> Result<u64, AllocError>
    ensures { IfOk result (λ count. AreEdited (IsCompactedMethod widths.now admitted.now) (length methods.old) count methods.old methods.new) }
{
    let mut count: u64 = 0;
    for place in 0..methods.len() {
        let more = compact_method(alloc, widths, admitted, &mut methods[place])?;
        count = count.saturating_add(more);
    }
    Ok(count)
}

/// The same for the methods of a class.
fn compact_class(
    alloc: Global,
    widths: &[Seq<bool>],
    admitted: &[bool],
    class: &mut Class,
) -> Result<u64, AllocError>
    ensures is { IfOk result (λ count. IsCompactedClass widths.now admitted.now class.old class.new) }
    ensures count { IfOk result (λ count. IsCounted count class.old class.new) }
{
    let count = compact_methods(alloc, widths, admitted, class.methods.items.as_mut_slice())?;
    Ok(count)
}

/// The same for the methods of some classes.
fn compact_classes(
    alloc: Global,
    widths: &[Seq<bool>],
    admitted: &[bool],
    classes: &mut [Class],
) -> Result<u64, AllocError>
    ensures { IfOk result (λ count. AreEdited (IsCompactedClass widths.now admitted.now) (length classes.old) count classes.old classes.new) }
{
    let mut count: u64 = 0;
    for place in 0..classes.len() {
        let more = compact_class(alloc, widths, admitted, &mut classes[place])?;
        count = count.saturating_add(more);
    }
    Ok(count)
}

/// The same for the methods of a program's classes.
fn compact_program(
    alloc: Global,
    widths: &[Seq<bool>],
    admitted: &[bool],
    program: &mut Program,
) -> Result<u64, AllocError>
    ensures rest { OnOk result (program.new ≡ record program.old { classes = program.new.classes }) }
    ensures classes { IfOk result (λ count. AreEdited (IsCompactedClass widths.now admitted.now) (length program.old.classes) count program.old.classes program.new.classes) }
{
    let classes = program.classes.items.as_mut_slice();
    let count = compact_classes(alloc, widths, admitted, classes)?;
    Ok(count)
}

/// Gives the registers of all admitted methods the least numbers that they can have, and lowers the register counts.
/// `count` is the number of bodies that change. Each change lowers the sum of the register counts and of the numbers that
/// instructions name. Positions, lines and all else stay. The only error is want of memory.
pub fn apply(alloc: Global, program: Program, admitted: &Admitted) -> Result<Changed, AllocError>
    ensures origins { IfOk result (λ changed. changed.origins ≡ []) }
    ensures is { IfOk result (λ changed. IsCompactedProgram admitted.now.methods.items program changed.program) }
    ensures count { IfOk result (λ changed. IsCounted changed.count program changed.program) }
    ensures most { IfOk result (λ changed. numbers_in changed.program ≤ numbers_in program) }
    ensures less { IfOk result (λ changed. 0 < changed.count → numbers_in changed.program < numbers_in program) }
{
    let widths = widths_of(alloc, &program)?;
    let mut program = program;
    let marks = admitted.methods.as_slice();
    let count = compact_program(alloc, widths.as_slice(), marks, &mut program)?;
    Ok(Changed {
        program,
        count,
        origins: Seq::new(alloc),
    })
}
