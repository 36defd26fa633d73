//! Whether kept constructors are those of their classes.

ghost use Rattle.std.specs.Prelude.{◌≡◌, Some, false, nat_eq, codes, option_and_then, slice_get, true};
ghost use Rattle.std.specs.Cmp.Lexicographic.{pointwise};
ghost use Rattle.std.specs.List.{list_all};
ghost use Rattle.program_model.specs.Lookups.{class_place, method_at};
ghost use Rattle.program_model.specs.ProgramRules.{is_well_formed};
ghost use Rattle.program_model.specs.Texts.{string_text};
ghost use Rattle.hierarchy.specs.Shapes.{IsOf};
ghost use Rattle.premises.specs.Makers.{MakersAreOwn, can_be_made};
ghost use Rattle.premises.specs.Owning.{defines, has_number, is_own, owns, owns_at};

use hierarchy::Hierarchy;
use program_model::{Class, Flags, MethodAt, MethodName, Outside, Program};

/// The units of a string number, none past the table.
fn units_of(program: &Program, string: u32) -> &[u16]
    ensures { result.now ≡ string_text program.now string }
{
    match program.strings.as_slice().get(string as usize) {
        Some(text) => text.units(),
        None => &[],
    }
}

/// Whether the units are `<init>`.
fn is_init(units: &[u16]) -> bool
    ensures { result ≡ pointwise nat_eq units.now (codes "<init>") }
{
    let name: [u16; 6] = [60, 105, 110, 105, 116, 62];
    units == name.as_slice()
}

/// Whether objects of the class can be made: it is neither abstract nor an interface.
fn can_be_made(class: &Class) -> bool
    ensures { result ≡ can_be_made class.now }
{
    !class.flags.has(Flags::ABSTRACT) && !class.flags.has(Flags::INTERFACE)
}

/// Whether the method at a place has the number.
fn has_number(program: &Program, at: MethodAt, number: u32) -> bool
    ensures { result ≡ has_number number (method_at program.now at) }
{
    match program.classes.as_slice().get(at.class as usize) {
        Some(class) => match class.methods.as_slice().get(at.place as usize) {
            Some(method) => method.name == number,
            None => false,
        },
        None => false,
    }
}

/// Whether the class at a place defines the method of a number, which has this name.
fn defines(
    program: &Program,
    hierarchy: &Hierarchy,
    name: &MethodName,
    number: u32,
    class: u32,
) -> bool
    ensures { IsOf program.now hierarchy.now → slice_get program.now.methods number ≡ Some name.now → result ≡ defines program.now number name.now class }
{
    match hierarchy.own_method(class, hierarchy.key_of_method(number)) {
        Some(at) => has_number(program, at, number),
        None => false,
    }
}

/// Whether the class at a place defines the method, where it can have objects.
fn owns(
    program: &Program,
    hierarchy: &Hierarchy,
    name: &MethodName,
    number: u32,
    place: u32,
) -> bool
    ensures { IsOf program.now hierarchy.now → slice_get program.now.methods number ≡ Some name.now
        → result ≡ owns program.now number name.now place (slice_get program.now.classes place) }
{
    match program.classes.as_slice().get(place as usize) {
        Some(class) => !can_be_made(class) || defines(program, hierarchy, name, number, place),
        None => true,
    }
}

/// Whether the program class of the method defines it, where there is one that can have objects.
fn is_owned(program: &Program, hierarchy: &Hierarchy, name: &MethodName, number: u32) -> bool
    ensures { IsOf program.now hierarchy.now → slice_get program.now.methods number ≡ Some name.now
        → result ≡ owns_at program.now number name.now (class_place program.now name.now.class) }
{
    match hierarchy.place_of(name.class) {
        Some(place) => owns(program, hierarchy, name, number, place),
        None => true,
    }
}

/// Whether the method is no constructor, or its program class defines it, where that can have objects.
fn is_own(program: &Program, hierarchy: &Hierarchy, number: u32) -> bool
    ensures { IsOf program.now hierarchy.now → result ≡ is_own program.now number }
{
    match program.methods.as_slice().get(number as usize) {
        Some(name) => {
            !is_init(units_of(program, name.name)) || is_owned(program, hierarchy, name, number)
        }
        None => true,
    }
}

/// Whether so it is for each of these methods.
fn are_own(program: &Program, hierarchy: &Hierarchy, numbers: &[u32]) -> bool
    ensures { IsOf program.now hierarchy.now → result ≡ list_all (is_own program.now) numbers.now }
{
    for number in numbers {
        if !is_own(program, hierarchy, *number) {
            return false;
        }
    }
    true
}

/// Whether each kept constructor of a program class that can have objects is one that the class defines, by the hierarchy
/// that was built of the program. For each kept method its class is looked up, and there the method, each once. It takes no
/// memory.
pub fn makers_are_own(program: &Program, hierarchy: &Hierarchy, outside: &Outside) -> bool
    ensures sound { IsOf program.now hierarchy.now → result ≡ true → MakersAreOwn program.now outside.now }
    ensures exact { is_well_formed program.now ≡ true → IsOf program.now hierarchy.now → result ≡ false → MakersAreOwn program.now outside.now → ⊥ }
{
    are_own(program, hierarchy, outside.methods.as_slice())
}
