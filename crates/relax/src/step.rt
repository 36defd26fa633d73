//! What of an instruction matters for the layout.

ghost use Rattle.std.specs.Prelude.{◌≡◌, IfOk, All, map};
ghost use Rattle.relax.specs.Steps.{renumbered, step_of, IsSmall};

use program_model::{Insn, Renumber};
use std::alloc::{AllocError, Global};

/// A size that never changes, or that of a goto, which grows with its distance. `target` is a position.
#[derive(Clone, Copy, PartialEq, Eq, Debug, Drop)]
pub enum Step {
    Fixed { units: u32 },
    Jump { target: u32 },
}

/// The new number of an entry, and the number itself where the table does not reach so far. It takes no memory.
pub fn new_number(table: &[u32], number: u32) -> u32
    ensures { result ≡ renumbered table.now number }
{
    match table.get(number as usize) {
        Some(new) => *new,
        None => number,
    }
}

/// What of the instruction matters: a goto's target, and the units of every other form.
#[tactic(auto, using(crate::proofs::Units::few_units))]
fn step_of(insn: &Insn, numbers: &Renumber) -> Step
    ensures value { result ≡ step_of numbers.now insn.now }
    ensures small { IsSmall result }
{
    match insn {
        Insn::Goto { target } => Step::Jump { target: *target },
        Insn::ConstString { to, string } => {
            let string = new_number(&numbers.strings, *string);
            let insn = Insn::ConstString { to: *to, string };
            Step::Fixed {
                units: insn.units(0),
            }
        }
        _ => Step::Fixed {
            units: insn.units(0),
        },
    }
}

/// What of each instruction matters.
pub(crate) fn steps_of(
    alloc: Global,
    insns: &[Insn],
    numbers: &Renumber,
) -> Result<Vec<Step>, AllocError>
    ensures value { IfOk result (λ v. v.items ≡ map (step_of numbers.now) insns.now) }
    ensures small { IfOk result (λ v. All IsSmall v.items) }
{
    let mut steps = Vec::new(alloc);
    for insn in insns {
        steps.push(step_of(insn, numbers))?;
    }
    Ok(steps)
}
