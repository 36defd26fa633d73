//! Which methods may be static.

ghost use Rattle.std.specs.Prelude.{◌≡◌, true, IfOk};
ghost use Rattle.program_model.specs.ProgramRules.{is_well_formed};
ghost use Rattle.hierarchy.specs.Shapes.{IsResolved};
ghost use Rattle.loose_methods.specs.Asked.{IsJudged};
ghost use Rattle.loose_methods.specs.Sieved.{IsSieved};

use crate::calls::sift;
use crate::candidates::Judged;
use facts::Facts;
use hierarchy::Hierarchy;
use program_model::{Admitted, Outside, Program};
use std::alloc::{AllocError, Global};

/// The marks of the methods that other methods, annotations, first values and calls let be static.
fn sieve<'a>(
    alloc: Global,
    judged: &Judged<'a>,
    facts: &'a Facts,
    outside: &Outside,
    admitted: &'a Admitted,
) -> Result<Vec<bool>, AllocError>
    ensures { IsJudged judged.now → IfOk result (λ marks. IsSieved judged.now.program.now facts.now outside.now admitted.now.methods.items marks.items) }
{
    let mut loose = judged.candidates(alloc, outside)?;
    judged.bar_mentioned(alloc, loose.as_mut_slice())?;
    let marks = sift(alloc, judged, facts, admitted, loose)?;
    Ok(marks)
}

/// Marks by number the methods of a well-formed program that may be static as far as the tables have room. The hierarchy is that of
/// the program's classes, and the facts are those of the program. Want of memory is the only error.
pub fn find<'a>(
    alloc: Global,
    program: &'a Program,
    hierarchy: &'a Hierarchy,
    facts: &'a Facts,
    outside: &Outside,
    admitted: &'a Admitted,
) -> Result<Vec<bool>, AllocError>
    ensures { is_well_formed program.now ≡ true → IsResolved program.now hierarchy.now
        → IfOk result (λ marks. IsSieved program.now facts.now outside.now admitted.now.methods.items marks.items) }
{
    let judged = Judged { program, hierarchy };
    sieve(alloc, &judged, facts, outside, admitted)
}
