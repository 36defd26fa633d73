//! What rules ask of a program again and again, as tables that are made once.

ghost use Rattle.std.specs.Prelude.{◌≡◌, ◌<◌, ◌^◌, length, slice_get};
ghost use Rattle.std.specs.Option.{option_copied};
ghost use Rattle.dalvik_defs.specs.Naming.{text_at, type_at};
ghost use Rattle.program_model.specs.Lookups.{class_place};
ghost use Rattle.hierarchy.specs.Shapes.{IsOf};
ghost use Rattle.keep_rules.specs.Rows.{row_in};

use hierarchy::Hierarchy;
use program_model::{Class, FieldName, MethodName, Program, Proto};
use std::collections::HashMap;

/// A program, its hierarchy and further tables. `types` has the number of each descriptor; `below` and `methods` have for each type the
/// places of the classes that name it as their superclass or as an interface, and the numbers of its methods.
#[derive(Drop)]
pub struct View<'p> {
    pub program: &'p Program,
    pub types: HashMap<&'p [u16], u32>,
    pub hierarchy: &'p Hierarchy,
    pub below: Vec<Vec<u32>>,
    pub methods: Vec<Vec<u32>>,
    ghost few_types: { length program.now.types < 2 ^ 32 },
    ghost few_classes: { length program.now.classes < 2 ^ 32 },
}

/// The units of a string, none where the table has no such string.
pub fn string_units(program: &Program, string: u32) -> &[u16]
    ensures { result.now ≡ text_at program.now string }
{
    match program.strings.items.get(string as usize) {
        Some(text) => text.units(),
        None => &[],
    }
}

/// The descriptor of a type.
pub fn descriptor(program: &Program, kind: u32) -> &[u16]
    ensures { result.now ≡ type_at program.now kind }
{
    match program.types.items.get(kind as usize) {
        Some(string) => string_units(program, *string),
        None => &[],
    }
}

/// The class at a place.
pub fn class_at(program: &Program, place: u32) -> Option<&Class>
    ensures { option_copied result ≡ slice_get program.now.classes place }
{
    program.classes.as_slice().get(place as usize)
}

/// The name of a field.
pub fn field_at(program: &Program, field: u32) -> Option<&FieldName>
    ensures { option_copied result ≡ slice_get program.now.fields field }
{
    program.fields.as_slice().get(field as usize)
}

/// The name of a method.
pub fn method_at(program: &Program, method: u32) -> Option<&MethodName>
    ensures { option_copied result ≡ slice_get program.now.methods method }
{
    program.methods.as_slice().get(method as usize)
}

/// The proto with a number.
pub fn proto_at(program: &Program, proto: u32) -> Option<&Proto>
    ensures { option_copied result ≡ slice_get program.now.protos proto }
{
    program.protos.as_slice().get(proto as usize)
}

/// The numbers that a table has for a type, none past the table.
pub fn row_at(rows: &[Vec<u32>], kind: u32) -> &[u32]
    ensures { result.now ≡ row_in rows.now kind }
{
    match rows.get(kind as usize) {
        Some(row) => row.as_slice(),
        None => &[],
    }
}

impl<'p> View<'p> {
    /// The place of the class of a type, none where the program has no such class.
    pub fn place_of(&self, kind: u32) -> Option<u32>
        ensures { IsOf self.now.program.now self.now.hierarchy.now → result ≡ class_place self.now.program.now kind }
    {
        self.hierarchy.place_of(kind)
    }
}
