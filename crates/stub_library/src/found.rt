//! What classes find, and what classes stand below one.

ghost use Rattle.std.specs.Prelude.{◌≡◌, ◌<◌, ◌∷◌, ◌++◌, flat_map, length, false, IfOk, OnOk};
ghost use Rattle.std.specs.Option.{option_copied};
ghost use Rattle.program_model.specs.Lookups.{method_at};
ghost use Rattle.hierarchy.specs.Shapes.{IsOf, IsResolved};
ghost use Rattle.hierarchy.specs.Touring.{subclasses_of};
ghost use Rattle.stub_library.specs.Marking.{set_all, number_at, found_by, found_list, below_of};

use crate::marks::turn;
use hierarchy::Hierarchy;
use program_model::{Method, MethodAt, Program};
use std::alloc::{AllocError, Global};

/// The method at a place.
fn method_at(program: &Program, at: MethodAt) -> Option<&Method>
    ensures { option_copied result ≡ method_at program.now at }
{
    match program.classes.as_slice().get(at.class as usize) {
        Some(class) => class.methods.as_slice().get(at.place as usize),
        None => None,
    }
}

/// The number of the method at a place.
fn number_at(program: &Program, at: MethodAt) -> Option<u32>
    ensures { result ≡ number_at program.now at }
{
    match method_at(program, at) {
        Some(method) => Some(method.name),
        None => None,
    }
}

/// The number of the method that a class finds along itself and its superclasses by the name and the proto of a method
/// number.
pub fn found_by(program: &Program, hierarchy: &Hierarchy, class: u32, method: u32) -> Option<u32>
    requires { IsOf program.now hierarchy.now }
    ensures { result ≡ found_by program.now class method }
{
    match program.methods.as_slice().get(method as usize) {
        Some(_) => {
            match hierarchy.find_virtual(program, class, hierarchy.key_of_method(method)) {
                Some(at) => number_at(program, at),
                None => None,
            }
        }
        None => None,
    }
}

/// Takes the mark from the method that a class finds by a method number.
fn clear_one(program: &Program, hierarchy: &Hierarchy, class: u32, method: u32, marks: &mut [bool])
    requires { IsOf program.now hierarchy.now }
    ensures { marks.new ≡ set_all false marks.old (found_list program.now class method) }
{
    if let Some(found) = found_by(program, hierarchy, class, method) {
        turn(marks, found, false);
    }
}

/// Takes the marks from the methods that a class finds by method numbers.
pub fn clear_found(
    program: &Program,
    hierarchy: &Hierarchy,
    class: u32,
    methods: &[u32],
    marks: &mut [bool],
)
    requires { IsOf program.now hierarchy.now }
    ensures { marks.new ≡ set_all false marks.old (flat_map (found_list program.now class) methods.now) }
{
    for method in methods {
        clear_one(program, hierarchy, class, *method, marks);
    }
}

/// Takes the marks from the methods that classes find by method numbers.
pub fn clear_below(
    program: &Program,
    hierarchy: &Hierarchy,
    classes: &[u32],
    methods: &[u32],
    marks: &mut [bool],
)
    requires { IsOf program.now hierarchy.now }
    ensures { marks.new ≡ set_all false marks.old (flat_map (λ d. flat_map (found_list program.now d) methods.now) classes.now) }
{
    for class in classes {
        clear_found(program, hierarchy, *class, methods, marks);
    }
}

/// A class and all other program classes under it.
pub fn below(
    alloc: Global,
    program: &Program,
    hierarchy: &Hierarchy,
    class: u32,
) -> Result<Vec<u32>, AllocError>
    requires resolved { IsResolved program.now hierarchy.now }
    requires within { class < length program.now.classes }
    ensures { IfOk result (λ below. below.items ≡ below_of program.now class) }
{
    let mut below = Vec::new(alloc);
    below.push(class)?;
    below.extend_from_slice(hierarchy.own_subclasses(alloc, class)?.as_slice())?;
    Ok(below)
}
