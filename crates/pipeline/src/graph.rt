//! The hierarchy of a program.

ghost use Rattle.std.specs.Prelude.{◌≡◌, true, IfOk, OnOk, MatchOption};
ghost use Rattle.program_model.specs.ProgramRules.{is_well_formed};
ghost use Rattle.pipeline.specs.Graph.{HasGraph, HasGraphFault, IsGraph};

use hierarchy::{Hierarchy, HierarchyFault};
use program_model::Program;
use std::alloc::{AllocError, Global};

/// The hierarchy of a program, unless its class graph has a fault: a class that is defined twice or is its own ancestor, or
/// a split override.
#[tactic(auto, using(crate::proofs::Graphs::graph, crate::proofs::Graphs::graph_fault))]
pub fn hierarchy_of(alloc: Global, program: &Program) -> Result<Option<Hierarchy>, AllocError>
    ensures { is_well_formed program.now ≡ true → IfOk result (λ found. MatchOption found (HasGraphFault program.now) (HasGraph program.now)) }
{
    match Hierarchy::build(alloc, program) {
        Ok(hierarchy) => Ok(Some(hierarchy)),
        Err(HierarchyFault::NoMemory) => Err(AllocError),
        Err(_) => Ok(None),
    }
}

/// Lets a hierarchy go and puts that of a program in its place. The only error is want of memory.
pub fn renew_graph(
    alloc: Global,
    graph: &mut Option<Hierarchy>,
    program: &Program,
) -> Result<(), AllocError>
    ensures { OnOk result (IsGraph program.now graph.new) }
{
    *graph = None;
    let found = hierarchy_of(alloc, program)?;
    *graph = found;
    Ok(())
}
