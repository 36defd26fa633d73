//! Look-ups in a program with its hierarchy.

ghost use Rattle.std.specs.Prelude.{◌≡◌, slice_get};
ghost use Rattle.std.specs.Option.{option_copied};
ghost use Rattle.program_model.specs.Lookups as look;
ghost use Rattle.class_defs.specs.Finding.{resolves_field};
ghost use Rattle.hierarchy.specs.Shapes.{IsResolved};
ghost use Rattle.call_graph.specs.Follows as follow;

use hierarchy::Hierarchy;
use program_model::{Class, Field, FieldName, Method, MethodAt, MethodName, Program, Proto};

/// A program with its hierarchy.
#[derive(Clone, Copy)]
pub struct At<'a> {
    pub program: &'a Program,
    pub hierarchy: &'a Hierarchy,
}

impl<'a> At<'a> {
    /// The class that defines a type.
    pub fn class_of(&self, kind: u32) -> Option<&'a Class>
        ensures { IsResolved self.now.program.now self.now.hierarchy.now → option_copied result ≡ follow.class_of self.now.program.now kind }
    {
        match self.hierarchy.place_of(kind) {
            Some(place) => self.class_at(place),
            None => None,
        }
    }

    /// The class at a place.
    pub fn class_at(&self, place: u32) -> Option<&'a Class>
        ensures { option_copied result ≡ slice_get self.now.program.now.classes place }
    {
        self.program.classes.as_slice().get(place as usize)
    }

    /// The entry of a method number.
    pub fn method_name(&self, number: u32) -> Option<&'a MethodName>
        ensures { option_copied result ≡ slice_get self.now.program.now.methods number }
    {
        self.program.methods.as_slice().get(number as usize)
    }

    /// The entry of a field number.
    pub fn field_name(&self, number: u32) -> Option<&'a FieldName>
        ensures { option_copied result ≡ slice_get self.now.program.now.fields number }
    {
        self.program.fields.as_slice().get(number as usize)
    }

    /// The entry of a proto number.
    pub fn proto(&self, number: u32) -> Option<&'a Proto>
        ensures { option_copied result ≡ slice_get self.now.program.now.protos number }
    {
        self.program.protos.as_slice().get(number as usize)
    }

    /// The method at a place.
    pub fn method_at(&self, at: MethodAt) -> Option<&'a Method>
        ensures { option_copied result ≡ look.method_at self.now.program.now at }
    {
        match self.class_at(at.class) {
            Some(class) => class.methods.as_slice().get(at.place as usize),
            None => None,
        }
    }

    /// The field at a place of a class.
    fn field_at(&self, class: u32, place: u32) -> Option<&'a Field>
        ensures { option_copied result ≡ follow.field_at self.now.program.now (class, place) }
    {
        match self.class_at(class) {
            Some(class) => class.fields.as_slice().get(place as usize),
            None => None,
        }
    }

    /// The field that a name resolves to.
    pub fn resolved_field(&self, number: u32) -> Option<&'a Field>
        ensures { IsResolved self.now.program.now self.now.hierarchy.now → option_copied result ≡ follow.resolved_field self.now.program.now number }
    {
        match self.hierarchy.resolve_field(self.program, number) {
            Some((class, place)) => self.field_at(class, place),
            None => None,
        }
    }

    /// The method that a name resolves to.
    fn resolved_method(&self, number: u32) -> Option<&'a Method>
        ensures { IsResolved self.now.program.now self.now.hierarchy.now → option_copied result ≡ follow.resolved_method self.now.program.now number }
    {
        match self.hierarchy.resolve_method(self.program, number) {
            Some(found) => self.method_at(found),
            None => None,
        }
    }

    /// The field with a number, if the program defines it.
    pub fn own_field(&self, number: u32) -> Option<&'a Field>
        ensures { IsResolved self.now.program.now self.now.hierarchy.now → option_copied result ≡ follow.own_field self.now.program.now number }
    {
        match self.resolved_field(number) {
            Some(field) => {
                if field.name == number {
                    Some(field)
                } else {
                    None
                }
            }
            None => None,
        }
    }

    /// The method with a number, if the program defines it.
    pub fn own_method(&self, number: u32) -> Option<&'a Method>
        ensures { IsResolved self.now.program.now self.now.hierarchy.now → option_copied result ≡ follow.own_method self.now.program.now number }
    {
        match self.resolved_method(number) {
            Some(method) => {
                if method.name == number {
                    Some(method)
                } else {
                    None
                }
            }
            None => None,
        }
    }
}
