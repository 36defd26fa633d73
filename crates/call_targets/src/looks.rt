//! Look-ups in a program.

ghost use Rattle.std.specs.Prelude.{◌≡◌, ◌<◌, ◌^◌, length, codes, slice_get};
ghost use Rattle.std.specs.Option.{option_copied};
ghost use Rattle.program_model.specs.Lookups as look;
ghost use Rattle.program_model.specs.Texts.{string_text};
ghost use Rattle.class_defs.specs.Members as member;
ghost use Rattle.hierarchy.specs.Shapes.{IsOf};
ghost use Rattle.call_graph.specs.Bases.{same_text, object_text, object_number};
ghost use Rattle.call_graph.specs.Follows as follow;
ghost use Rattle.call_targets.specs.Targeted.{is_constructor_name};

use hierarchy::Hierarchy;
use program_model::{Class, Flags, Method, MethodAt, MethodName, Program};

/// A program with the hierarchy of its classes.
#[derive(Clone, Copy)]
pub(crate) struct At<'a> {
    pub(crate) program: &'a Program,
    pub(crate) hierarchy: &'a Hierarchy,
}

impl<'a> At<'a> {
    /// The class at a place.
    pub(crate) fn class_at(&self, place: u32) -> Option<&'a Class>
        ensures { option_copied result ≡ slice_get self.now.program.now.classes place }
    {
        self.program.classes.as_slice().get(place as usize)
    }

    /// The class that defines a type.
    pub(crate) fn class_of(&self, kind: u32) -> Option<&'a Class>
        ensures { IsOf self.now.program.now self.now.hierarchy.now → option_copied result ≡ follow.class_of self.now.program.now kind }
    {
        match self.hierarchy.place_of(kind) {
            Some(place) => self.class_at(place),
            None => None,
        }
    }

    /// The entry of a method number.
    pub(crate) fn method_name(&self, number: u32) -> Option<&'a MethodName>
        ensures { option_copied result ≡ slice_get self.now.program.now.methods number }
    {
        self.program.methods.as_slice().get(number as usize)
    }

    /// The method at a place.
    pub(crate) fn method_at(&self, at: MethodAt) -> Option<&'a Method>
        ensures { option_copied result ≡ look.method_at self.now.program.now at }
    {
        match self.class_at(at.class) {
            Some(class) => class.methods.as_slice().get(at.place as usize),
            None => None,
        }
    }

    /// Whether the class at a place is an interface.
    pub(crate) fn is_interface(&self, place: u32) -> bool
        ensures { result ≡ member.is_interface (slice_get self.now.program.now.classes place) }
    {
        match self.class_at(place) {
            Some(class) => class.flags.has(Flags::INTERFACE),
            None => false,
        }
    }

    /// The units of a string, none past the table.
    fn units_of(&self, string: u32) -> &'a [u16]
        ensures { result.now ≡ string_text self.now.program.now string }
    {
        match self.program.strings.as_slice().get(string as usize) {
            Some(text) => text.units(),
            None => &[],
        }
    }

    /// Whether the method number is named as a constructor.
    pub(crate) fn is_constructor(&self, number: u32) -> bool
        ensures { result ≡ is_constructor_name self.now.program.now (slice_get self.now.program.now.methods number) }
    {
        match self.method_name(number) {
            Some(name) => is_constructor_text(self.units_of(name.name)),
            None => false,
        }
    }
}

/// Whether the units are `Ljava/lang/Object;`.
fn is_object_text(units: &[u16]) -> bool
    ensures { result ≡ same_text units.now object_text }
{
    let name: [u16; 18] = [
        76, 106, 97, 118, 97, 47, 108, 97, 110, 103, 47, 79, 98, 106, 101, 99, 116, 59,
    ];
    units == name.as_slice()
}

/// Whether the units are `<init>`.
fn is_constructor_text(units: &[u16]) -> bool
    ensures { result ≡ same_text units.now (codes "<init>") }
{
    let name: [u16; 6] = [60, 105, 110, 105, 116, 62];
    units == name.as_slice()
}

/// The number of the type `Ljava/lang/Object;`, 4,294,967,295 where the program doesn't name it.
pub(crate) fn object_kind(at: &At<'_>) -> u32
    ensures { length at.now.program.now.types < 2 ^ 32 → result ≡ object_number at.now.program.now }
{
    let mut place: usize = 0;
    for string in at.program.types.as_slice() {
        if is_object_text(at.units_of(*string)) {
            return word(place);
        }
        place += 1;
    }
    u32::MAX
}

/// A place as a number of 32 bits.
pub(crate) fn word(place: usize) -> u32
    ensures { place < 2 ^ 32 → result ≡ place }
{
    if place < 4294967296 {
        place as u32
    } else {
        u32::MAX
    }
}
