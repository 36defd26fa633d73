//! The table of the classes that define types.

ghost use Rattle.std.specs.Prelude.{◌≡◌, true, length, IfOk};
ghost use Rattle.program_model.specs.ProgramRules.{is_well_formed};
ghost use Rattle.hierarchy.specs.Shapes.{IsResolved};
ghost use Rattle.dom_frame.specs.Classes.{AreClasses};
ghost use Rattle.class_places.specs.Known.{ArePlaces};

use crate::numbers::word;
use dom_frame::Classes;
use hierarchy::Hierarchy;
use program_model::Program;
use std::alloc::{AllocError, Global};

/// The place of the class that defines each type.
#[tactic(auto, using(crate::proofs::Places::no_places, crate::proofs::Places::one_place))]
pub fn places_of(
    alloc: Global,
    hierarchy: &Hierarchy,
    types: usize,
) -> Result<Vec<Option<u32>>, AllocError>
    ensures { IfOk result (λ places. ArePlaces hierarchy.now types places.items) }
{
    let mut places = Vec::with_capacity(alloc, types)?;
    for kind in 0..types {
        places.push(hierarchy.place_of(word(kind)))?;
    }
    Ok(places)
}

/// The classes of a program.
pub fn classes_of<'a>(
    program: &Program,
    hierarchy: &'a Hierarchy,
    places: &'a [Option<u32>],
) -> Classes<'a>
    ensures { is_well_formed program.now ≡ true → IsResolved program.now hierarchy.now → ArePlaces hierarchy.now (length program.now.types) places.now → AreClasses program.now result }
{
    Classes {
        places,
        count: word(program.classes.len()),
        hierarchy,
    }
}
