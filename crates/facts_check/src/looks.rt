//! What names find.

ghost use Rattle.std.specs.Prelude.{◌≡◌, slice_get};
ghost use Rattle.std.specs.Option.{option_copied, option_map};
ghost use Rattle.program_model.specs.Lookups.{method_at};
ghost use Rattle.class_defs.specs.Finding.{resolves_field};
ghost use Rattle.class_defs.specs.Members.{is_interface};
ghost use Rattle.closed_facts.specs.Found.{field_in, names_interface, own_number};
ghost use Rattle.closed_facts.specs.Edges.{field_value, given};
ghost use Rattle.facts_check.specs.Known.{AreKnown};

use crate::known::Known;
use domains::Value;
use program_model::{Field, Flags, Insn, Method, MethodAt, Program};

/// The method at a place.
pub(crate) fn method_at(program: &Program, at: MethodAt) -> Option<&Method>
    ensures { option_copied result ≡ method_at program.now at }
{
    match program.classes.as_slice().get(at.class as usize) {
        Some(class) => class.methods.as_slice().get(at.place as usize),
        None => None,
    }
}

/// The field at a place.
fn field_in(program: &Program, at: (u32, u32)) -> Option<&Field>
    ensures { option_copied result ≡ field_in program.now at }
{
    match program.classes.as_slice().get(at.0 as usize) {
        Some(class) => class.fields.as_slice().get(at.1 as usize),
        None => None,
    }
}

/// Whether the class at a place is an interface.
fn is_interface(program: &Program, place: u32) -> bool
    ensures { result ≡ is_interface (slice_get program.now.classes place) }
{
    match program.classes.as_slice().get(place as usize) {
        Some(class) => class.flags.has(Flags::INTERFACE),
        None => false,
    }
}

/// Whether the class that a method number names is an interface of the program.
pub(crate) fn names_interface(known: &Known<'_>, method: u32) -> bool
    ensures { AreKnown known.now → result ≡ names_interface known.now.program.now method }
{
    match known.program.methods.as_slice().get(method as usize) {
        Some(name) => match known.hierarchy.place_of(name.class) {
            Some(place) => is_interface(known.program, place),
            None => false,
        },
        None => false,
    }
}

/// The place of the class whose field a number names.
pub(crate) fn class_of_field(known: &Known<'_>, field: u32) -> Option<u32>
    ensures { AreKnown known.now → result ≡ option_map (λ at. at.0) (resolves_field known.now.program.now field) }
{
    match known.hierarchy.resolve_field(known.program, field) {
        Some((class, _)) => Some(class),
        None => None,
    }
}

/// The number by which the program defines the field that a number names.
pub(crate) fn own_number(known: &Known<'_>, field: u32) -> Option<u32>
    ensures { AreKnown known.now → result ≡ own_number known.now.program.now field }
{
    match known.hierarchy.resolve_field(known.program, field) {
        Some(at) => match field_in(known.program, at) {
            Some(found) => Some(found.name),
            None => None,
        },
        None => None,
    }
}

/// What a field holds that a number names.
fn field_value<'a>(known: &'a Known<'_>, field: u32) -> &'a Value
    ensures { AreKnown known.now → result.now ≡ field_value known.now.program.now known.now.facts.now field }
{
    match own_number(known, field) {
        Some(own) => known.facts.field(own),
        None => &known.facts.any,
    }
}

/// What a get takes.
pub(crate) fn given(known: &Known<'_>, insn: &Insn) -> Value
    ensures { AreKnown known.now → result ≡ given known.now.program.now known.now.facts.now insn.now }
{
    match insn {
        Insn::InstanceGet { field, .. } | Insn::StaticGet { field, .. } => {
            field_value(known, *field).same()
        }
        _ => Value::none(),
    }
}
