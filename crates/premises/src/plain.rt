//! Whether lists of interfaces name interfaces alone.

ghost use Rattle.std.specs.Prelude.{◌≡◌, Some, slice_get, true};
ghost use Rattle.std.specs.List.{list_all};
ghost use Rattle.program_model.specs.Lookups.{class_place};
ghost use Rattle.hierarchy.specs.Shapes.{IsOf};
ghost use Rattle.class_defs.specs.Members.{is_interface};
ghost use Rattle.premises.specs.Plain.{ListsPlainly, lists_plainly, is_interface_at, is_listable, is_plain_class};

use hierarchy::Hierarchy;
use program_model::{Class, Flags, Program};

/// Whether the class at a place is an interface.
fn is_interface(program: &Program, place: u32) -> bool
    ensures { result ≡ is_interface (slice_get program.now.classes place) }
{
    match program.classes.as_slice().get(place as usize) {
        Some(class) => class.flags.has(Flags::INTERFACE),
        None => false,
    }
}

/// Whether a type is no class of the program, or an interface.
fn is_listable(program: &Program, hierarchy: &Hierarchy, kind: u32) -> bool
    ensures { IsOf program.now hierarchy.now → result ≡ is_listable program.now kind }
{
    match hierarchy.place_of(kind) {
        Some(place) => is_interface(program, place),
        None => true,
    }
}

/// Whether each of these types is.
fn are_listable(program: &Program, hierarchy: &Hierarchy, kinds: &[u32]) -> bool
    ensures { IsOf program.now hierarchy.now → result ≡ list_all (is_listable program.now) kinds.now }
{
    for kind in kinds {
        if !is_listable(program, hierarchy, *kind) {
            return false;
        }
    }
    true
}

/// Whether a class lists interfaces alone.
fn is_plain_class(program: &Program, hierarchy: &Hierarchy, class: &Class) -> bool
    ensures { IsOf program.now hierarchy.now → result ≡ is_plain_class program.now class.now }
{
    are_listable(program, hierarchy, class.interfaces.as_slice())
}

/// Whether so it is of each of these classes.
fn are_plain_classes(program: &Program, hierarchy: &Hierarchy, classes: &[Class]) -> bool
    ensures { IsOf program.now hierarchy.now → result ≡ list_all (is_plain_class program.now) classes.now }
{
    for class in classes {
        if !is_plain_class(program, hierarchy, class) {
            return false;
        }
    }
    true
}

/// Whether lists of interfaces name interfaces alone, of the classes that the program defines, by the hierarchy that was
/// built of it. It goes over all classes once, and takes no memory.
pub fn lists_plainly(program: &Program, hierarchy: &Hierarchy) -> bool
    ensures is { IsOf program.now hierarchy.now → result ≡ lists_plainly program.now }
    ensures sound { IsOf program.now hierarchy.now → result ≡ true → ListsPlainly program.now }
{
    are_plain_classes(program, hierarchy, program.classes.as_slice())
}
