//! What the forms of one method are judged by.

ghost use Rattle.std.specs.Prelude.{◌≡◌, slice_get};
ghost use Rattle.std.specs.Option.{option_copied};
ghost use Rattle.verify.specs.Names.{field_kind, field_class, method_class, parameters_of, result_of};
ghost use Rattle.verify.specs.Types.{kind_of};
ghost use Rattle.verify.specs.Reads.{found_at, defines_field};
ghost use Rattle.verify.specs.Wrong.{parameter_words, static_at, static_field, static_method, is_text_or_type, is_first_text_or_type, begins_at, begins_as_text_or_type};

use crate::calls::{Search, method_at};
use crate::kinds::Kind;
use crate::tables::Tables;
use hierarchy::Hierarchy;
use program_model::{EncValue, Field, FieldName, Flags, MethodName, Program};

/// The code of one method and what stands around it. `class` is the place of its class and `kind` the class's type
/// number, `superclass` that of its superclass, `result` that of the method's result type. `found` has what the super
/// calls find, by position.
#[derive(Drop)]
pub struct Setting<'a> {
    pub program: &'a Program,
    pub hierarchy: &'a Hierarchy,
    pub tables: &'a Tables,
    pub class: u32,
    pub kind: u32,
    pub superclass: u32,
    pub result: u32,
    pub constructs: bool,
    pub found: &'a [Search],
}

/// Whether a value is a text or a type.
fn is_text_or_type(value: &EncValue) -> bool
    ensures { result ≡ is_text_or_type value.now }
{
    matches!(value, EncValue::Str(_) | EncValue::Class(_))
}

/// Whether a field has a text or a type first.
fn is_first_text_or_type(field: &Field) -> bool
    ensures { result ≡ is_first_text_or_type field.now.first }
{
    match &field.first {
        Some(value) => is_text_or_type(value),
        None => false,
    }
}

impl Setting<'_> {
    /// The name of a field.
    pub fn field(&self, field: u32) -> Option<&FieldName>
        ensures { option_copied result ≡ slice_get self.now.program.now.fields field }
    {
        self.program.fields.as_slice().get(field as usize)
    }

    /// The name of a method.
    pub fn method(&self, method: u32) -> Option<&MethodName>
        ensures { option_copied result ≡ slice_get self.now.program.now.methods method }
    {
        self.program.methods.as_slice().get(method as usize)
    }

    /// The type of a field.
    pub fn field_kind(&self, field: u32) -> u32
        ensures { result ≡ field_kind self.now.program.now field }
    {
        match self.field(field) {
            Some(name) => name.kind,
            None => u32::MAX,
        }
    }

    /// The type that the name of a field names as its class.
    pub fn field_class(&self, field: u32) -> u32
        ensures { result ≡ field_class self.now.program.now field }
    {
        match self.field(field) {
            Some(name) => name.class,
            None => u32::MAX,
        }
    }

    /// The type that the name of a method names as its class.
    pub fn method_class(&self, method: u32) -> u32
        ensures { result ≡ method_class self.now.program.now method }
    {
        match self.method(method) {
            Some(name) => name.class,
            None => u32::MAX,
        }
    }

    /// The types of a method's parameters.
    pub fn parameters(&self, method: u32) -> &[u32]
        ensures { result.now ≡ parameters_of self.now.program.now method }
    {
        let proto = match self.method(method) {
            Some(name) => name.proto,
            None => return &[],
        };
        match self.program.protos.as_slice().get(proto as usize) {
            Some(proto) => proto.parameters.as_slice(),
            None => &[],
        }
    }

    /// The result type of a method.
    pub fn result_of(&self, method: u32) -> u32
        ensures { result ≡ result_of self.now.program.now method }
    {
        let proto = match self.method(method) {
            Some(name) => name.proto,
            None => return u32::MAX,
        };
        match self.program.protos.as_slice().get(proto as usize) {
            Some(proto) => proto.result,
            None => u32::MAX,
        }
    }

    /// How many registers a method's parameters take.
    pub fn parameter_words(&self, method: u32) -> u32
        ensures { result ≡ parameter_words self.now method }
    {
        match self.method(method) {
            Some(name) => self.tables.proto_words(name.proto),
            None => 0,
        }
    }

    /// What the super call at a position finds.
    pub fn found_at(&self, position: u32) -> Search
        ensures { result ≡ found_at self.now position }
    {
        match self.found.get(position as usize) {
            Some(found) => *found,
            None => Search::Nothing,
        }
    }

    /// Whether the field at a place of a class is static.
    fn is_static_at(&self, class: u32, place: u32) -> Option<bool>
        ensures { result ≡ static_at self.now class place }
    {
        match self.program.classes.as_slice().get(class as usize) {
            Some(class) => match class.fields.as_slice().get(place as usize) {
                Some(field) => Some(field.flags.has(Flags::STATIC)),
                None => None,
            },
            None => None,
        }
    }

    /// Whether the field to which a name resolves is static; none where it resolves to no program field.
    pub fn is_static_field(&self, field: u32) -> Option<bool>
        ensures { result ≡ static_field self.now field }
    {
        match self.hierarchy.resolve_field(self.program, field) {
            Some((class, place)) => self.is_static_at(class, place),
            None => None,
        }
    }

    /// Whether the field at a place of a class has a text or a type first.
    fn begins_at(&self, class: u32, place: u32) -> bool
        ensures { result ≡ begins_at self.now class place }
    {
        match self.program.classes.as_slice().get(class as usize) {
            Some(class) => match class.fields.as_slice().get(place as usize) {
                Some(field) => is_first_text_or_type(field),
                None => false,
            },
            None => false,
        }
    }

    /// Whether the field to which a name resolves has a text or a type first.
    pub fn begins_as_text_or_type(&self, field: u32) -> bool
        ensures { result ≡ begins_as_text_or_type self.now field }
    {
        match self.hierarchy.resolve_field(self.program, field) {
            Some((class, place)) => self.begins_at(class, place),
            None => false,
        }
    }

    /// Whether the method to which a name resolves is static; none where it resolves to no program method.
    pub fn is_static_method(&self, method: u32) -> Option<bool>
        ensures { result ≡ static_method self.now method }
    {
        match self.hierarchy.resolve_method(self.program, method) {
            Some(at) => match method_at(self.program, at) {
                Some(method) => Some(method.flags.has(Flags::STATIC)),
                None => None,
            },
            None => None,
        }
    }

    /// Whether the class of this method defines the field to which a name resolves.
    pub fn defines_field(&self, field: u32) -> bool
        ensures { result ≡ defines_field self.now field }
    {
        match self.hierarchy.resolve_field(self.program, field) {
            Some((class, _place)) => class == self.class,
            None => false,
        }
    }

    /// The kind of an object of this method's class.
    pub fn own_kind(&self) -> Kind
        ensures { result ≡ kind_of self.now.tables.now self.now.kind }
    {
        self.tables.kind_of(self.kind)
    }
}
