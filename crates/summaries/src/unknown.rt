//! What is answered where nothing that was found is closed.

ghost use Rattle.std.specs.Prelude.{◌≡◌, true, IfOk};
ghost use Rattle.program_model.specs.ProgramRules.{is_well_formed};
ghost use Rattle.hierarchy.specs.Shapes.{IsResolved};
ghost use Rattle.summaries.specs.Certified.{IsCertified};

use call_graph::live_members;
use call_targets::targets;
use facts::Facts;
use hierarchy::Hierarchy;
use program_model::{Outside, Program};
use std::alloc::{AllocError, Global};
use vague_facts::{all_live, vague};

/// Facts that say nothing of a program. They are closed where all is live, under the call targets of all code: nobody reads
/// these, but that they are there is part of what is certified. The only error is want of memory.
pub(crate) fn unknown_facts(
    alloc: Global,
    program: &Program,
    hierarchy: &Hierarchy,
    outside: &Outside,
) -> Result<Facts, AllocError>
    ensures { is_well_formed program.now ≡ true → IsResolved program.now hierarchy.now → IfOk result (IsCertified program.now outside.now) }
{
    let some = live_members(alloc, program, hierarchy, outside)?;
    let live = all_live(some);
    let found = targets(alloc, program, hierarchy, outside, &live)?;
    let facts = vague(alloc, program)?;
    Ok(facts)
}
