//! Classes that start without code.

ghost use Rattle.std.specs.Prelude.{◌≡◌};
ghost use Rattle.hierarchy.specs.Shapes.{IsResolved};
ghost use Rattle.class_criteria.specs.Starting.{starts_quietly};

use hierarchy::Hierarchy;
use program_model::Program;

/// Whether a class is one of the program, and initialising it runs no code.
pub fn starts_quietly(program: &Program, hierarchy: &Hierarchy, class: u32) -> bool
    ensures { IsResolved program.now hierarchy.now → result ≡ starts_quietly program.now class }
{
    (class as usize) < program.classes.len() && hierarchy.trivially_initialised(program, class)
}
