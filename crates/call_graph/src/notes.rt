//! What the search for live members notes.

ghost use Rattle.std.specs.Prelude.{IfOk};
ghost use Rattle.hierarchy.specs.Shapes.{IsResolved};
ghost use Rattle.call_graph.specs.Objects.{AreNotes, NothingNoted};

use crate::lists::Lists;
use crate::marks::Marks;
use hierarchy::{Hierarchy, Walk};
use program_model::Program;
use std::alloc::{AllocError, Global};

/// What the search notes. `called_on` has for each type the methods that live calls name on it, `made_under` the places
/// of the made classes under it. `classes` and `kinds` serve walks over classes and over types.
#[derive(Drop)]
pub struct Notes {
    pub called_on: Lists,
    pub made_under: Lists,
    pub classes: Walk,
    pub kinds: Marks,
}

impl Notes {
    /// Nothing is noted of a program.
    pub fn new(alloc: Global, program: &Program, hierarchy: &Hierarchy) -> Result<Notes, AllocError>
        ensures notes { IsResolved program.now hierarchy.now → IfOk result (λ notes. AreNotes program.now notes) }
        ensures nothing { IfOk result (λ notes. NothingNoted notes) }
    {
        let types = program.types.len();
        Ok(Notes {
            called_on: Lists::new(alloc, types)?,
            made_under: Lists::new(alloc, types)?,
            classes: hierarchy.walk(alloc)?,
            kinds: Marks::new(alloc, types)?,
        })
    }
}
