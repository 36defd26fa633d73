//! The pass over a program.

ghost use Rattle.std.specs.Prelude.{◌≡◌, ◌↔◌, ◌<◌, ◌+◌, ◌^◌, ℕ, [], length, IfOk, OnOk, IsTrue};
ghost use Rattle.insn_regs.specs.Wides.{widths_of};
ghost use Rattle.copy_prop.specs.Propagated.{IsPropagated, RewritesBody, IsPropagatedMethod, IsPropagatedClass, IsPropagatedProgram, reread_row, one_if_some, AreReread, AreEdited, IsCounted};

use crate::copied::Copied;
use crate::reading::reread;
use crate::stale::stale_copies;
use criteria::is_admitted;
use insn_regs::widths_of;
use insn_set::Insn;
use program_model::{Admitted, Body, Changed, Class, Method, Program};
use seq::Seq;
use std::alloc::{AllocError, Global};

/// Lets an instruction read the originals of some copies, and answers whether there are any, as 1 or 0.
fn reread_one(alloc: Global, insn: &mut Insn, copies: &[Copied]) -> Result<u64, AllocError>
    ensures is { OnOk result (insn.new ≡ reread_row copies.now insn.old) }
    ensures count { IfOk result (λ count. count ≡ one_if_some copies.now) }
{
    match copies {
        [] => Ok(0),
        _ => {
            let other = reread(alloc, insn, copies)?;
            *insn = other;
            Ok(1)
        }
    }
}

/// Lets each instruction read the originals of its row, and counts those that do.
fn reread_all(alloc: Global, insns: &mut [Insn], table: &[Seq<Copied>]) -> Result<u64, AllocError>
    requires { length table.now ≡ length insns.old }
    ensures { IfOk result (λ count. AreReread table.now (length insns.old) count insns.old insns.new) }
{
    let mut count: u64 = 0;
    for place in 0..insns.len() {
        let more = reread_one(alloc, &mut insns[place], table[place].as_slice())?;
        count += more;
    }
    Ok(count)
}

/// The same for the instructions of a body.
fn reread_body(alloc: Global, body: &mut Body, table: &[Seq<Copied>]) -> Result<u64, AllocError>
    requires { length table.now ≡ length body.old.insns }
    ensures rest { OnOk result (body.new ≡ record body.old { insns = body.new.insns }) }
    ensures insns { IfOk result (λ count. AreReread table.now (length body.old.insns) count body.old.insns body.new.insns) }
{
    let count = reread_all(alloc, body.insns.items.as_mut_slice(), table)?;
    Ok(count)
}

/// Whether 32 bits count the positions and regions of a body.
pub(crate) fn is_countable(body: &Body) -> bool
    ensures few { IsTrue result → length body.now.insns + 1 < 2 ^ 32 }
    ensures regions { IsTrue result → length body.now.insns + length body.now.regions < 2 ^ 32 }
{
    let most = u32::MAX as usize;
    body.insns.len() < most && body.regions.len() <= most - body.insns.len()
}

/// Lets the stale reads of a body read originals, and counts the instructions that change. A body with more positions and
/// regions than 32 bits count has no room in memory. The only error is want of memory.
fn propagate_body(alloc: Global, widths: &[Seq<bool>], body: &mut Body) -> Result<u64, AllocError>
    ensures is { IfOk result (λ count. IsPropagated widths.now body.old body.new) }
    ensures count { IfOk result (λ count. IsCounted count body.old body.new) }
{
    if !is_countable(body) {
        return Err(AllocError);
    }
    let table = stale_copies(alloc, widths, body)?;
    let count = reread_body(alloc, body, table.as_slice())?;
    Ok(count)
}

/// Lets the stale reads of a method read originals, where it is admitted, and counts the instructions that change.
fn propagate_method(
    alloc: Global,
    widths: &[Seq<bool>],
    admitted: &[bool],
    method: &mut Method,
) -> Result<u64, AllocError>
    ensures is { IfOk result (λ count. IsPropagatedMethod widths.now admitted.now method.old method.new) }
    ensures count { IfOk result (λ count. IsCounted count method.old method.new) }
{
    if is_admitted(admitted, method.name) {
        if let Some(body) = &mut method.body {
            return propagate_body(alloc, widths, body);
        }
    }
    Ok(0)
}

/// Lets the stale reads of admitted methods read originals, and counts the instructions that change.
fn propagate_methods(
    alloc: Global,
    widths: &[Seq<bool>],
    admitted: &[bool],
    methods: &mut [Method],
) -> Result<u64, AllocError>
    ensures { IfOk result (λ count. AreEdited (IsPropagatedMethod widths.now admitted.now) (length methods.old) count methods.old methods.new) }
{
    let mut count: u64 = 0;
    for place in 0..methods.len() {
        let more = propagate_method(alloc, widths, admitted, &mut methods[place])?;
        count = count.saturating_add(more);
    }
    Ok(count)
}

/// The same for the methods of a class.
fn propagate_class(
    alloc: Global,
    widths: &[Seq<bool>],
    admitted: &[bool],
    class: &mut Class,
) -> Result<u64, AllocError>
    ensures is { IfOk result (λ count. IsPropagatedClass widths.now admitted.now class.old class.new) }
    ensures count { IfOk result (λ count. IsCounted count class.old class.new) }
{
    let count = propagate_methods(alloc, widths, admitted, class.methods.items.as_mut_slice())?;
    Ok(count)
}

/// The same for the methods of some classes.
fn propagate_classes(
    alloc: Global,
    widths: &[Seq<bool>],
    admitted: &[bool],
    classes: &mut [Class],
) -> Result<u64, AllocError>
    ensures { IfOk result (λ count. AreEdited (IsPropagatedClass widths.now admitted.now) (length classes.old) count classes.old classes.new) }
{
    let mut count: u64 = 0;
    for place in 0..classes.len() {
        let more = propagate_class(alloc, widths, admitted, &mut classes[place])?;
        count = count.saturating_add(more);
    }
    Ok(count)
}

/// The same for the methods of a program's classes.
fn propagate_program(
    alloc: Global,
    widths: &[Seq<bool>],
    admitted: &[bool],
    program: &mut Program,
) -> Result<u64, AllocError>
    ensures rest { OnOk result (program.new ≡ record program.old { classes = program.new.classes }) }
    ensures classes { IfOk result (λ count. AreEdited (IsPropagatedClass widths.now admitted.now) (length program.old.classes) count program.old.classes program.new.classes) }
{
    let classes = program.classes.items.as_mut_slice();
    let count = propagate_classes(alloc, widths, admitted, classes)?;
    Ok(count)
}

/// Lets the stale reads of all admitted methods read the originals of the copies that they read. `count` is the number
/// of instructions that change. Positions, lines and all else stay. The only error is want of memory.
pub fn apply(alloc: Global, program: Program, admitted: &Admitted) -> Result<Changed, AllocError>
    ensures origins { IfOk result (λ changed. changed.origins ≡ []) }
    ensures is { IfOk result (λ changed. IsPropagatedProgram admitted.now.methods.items program changed.program) }
    ensures count { IfOk result (λ changed. IsCounted changed.count program changed.program) }
{
    let widths = widths_of(alloc, &program)?;
    let mut program = program;
    let marks = admitted.methods.as_slice();
    let count = propagate_program(alloc, widths.as_slice(), marks, &mut program)?;
    Ok(Changed {
        program,
        count,
        origins: Seq::new(alloc),
    })
}
