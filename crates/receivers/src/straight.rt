//! Programs that list interfaces alone as interfaces.

ghost use Rattle.std.specs.Prelude.{◌≡◌, ◌<◌, ◌^◌, length, slice_get};
ghost use Rattle.std.specs.List.{list_all};
ghost use Rattle.class_defs.specs.Members.{is_interface};
ghost use Rattle.hierarchy.specs.Shapes.{IsOf};
ghost use Rattle.receivers.specs.Receiving.{interface_at, super_is, is_straight_at, is_straight};

use crate::listed::word;
use hierarchy::Hierarchy;
use program_model::{Flags, Program};

/// Whether the class at a place is an interface.
pub(crate) fn is_interface(program: &Program, place: u32) -> bool
    ensures { result ≡ is_interface (slice_get program.now.classes place) }
{
    match program.classes.as_slice().get(place as usize) {
        Some(class) => class.flags.has(Flags::INTERFACE),
        None => false,
    }
}

/// Whether all of these classes are interfaces.
fn are_interfaces(program: &Program, places: &[u32]) -> bool
    ensures { result ≡ list_all (interface_at program.now) places.now }
{
    for place in places {
        if !is_interface(program, *place) {
            return false;
        }
    }
    true
}

/// Whether a class, where there is one, is an interface.
fn super_is(program: &Program, above: Option<u32>) -> bool
    ensures { result ≡ super_is program.now above }
{
    match above {
        Some(place) => is_interface(program, place),
        None => true,
    }
}

/// Whether the interfaces of a class are interfaces, and so is the superclass of an interface.
fn is_straight_at(program: &Program, hierarchy: &Hierarchy, place: u32) -> bool
    ensures { IsOf program.now hierarchy.now → result ≡ is_straight_at program.now place }
{
    are_interfaces(program, hierarchy.interfaces_of(place))
        && (!is_interface(program, place) || super_is(program, hierarchy.super_of(place)))
}

/// Whether all classes list interfaces alone as interfaces, and interfaces have no class above that is none.
pub(crate) fn is_straight(program: &Program, hierarchy: &Hierarchy) -> bool
    ensures { IsOf program.now hierarchy.now → length program.now.classes < 2 ^ 32 → result ≡ is_straight program.now }
{
    for place in 0..program.classes.len() {
        if !is_straight_at(program, hierarchy, word(place)) {
            return false;
        }
    }
    true
}
