//! Copies of values, which nest.

ghost use Rattle.std.specs.Prelude.{◌≡◌, IfOk};

use crate::value::{Element, EncValue, Note};
use seq::{Exact, Seq};
use std::alloc::{AllocError, Global};

impl Clone for EncValue {
    ghost use Rattle.std.specs.Prelude.{◌≡◌};

    ghost is_clone = { λ a b. b ≡ a };

    fn clone(&self) -> Result<Self, AllocError> {
        copy_value(self)
    }
}

impl Exact for EncValue {
    ghost exact = { λ x y h. h };
}

impl Clone for Note {
    ghost use Rattle.std.specs.Prelude.{◌≡◌};

    ghost is_clone = { λ a b. b ≡ a };

    fn clone(&self) -> Result<Self, AllocError> {
        copy_note(self)
    }
}

impl Exact for Note {
    ghost exact = { λ x y h. h };
}

/// A copy of a value.
#[cycle(copies)]
fn copy_value(value: &EncValue) -> Result<EncValue, AllocError>
    ensures { IfOk result (λ v. v ≡ value.now) }
{
    match value {
        EncValue::Byte(x) => Ok(EncValue::Byte(*x)),
        EncValue::Short(x) => Ok(EncValue::Short(*x)),
        EncValue::Char(x) => Ok(EncValue::Char(*x)),
        EncValue::Int(x) => Ok(EncValue::Int(*x)),
        EncValue::Long(x) => Ok(EncValue::Long(*x)),
        EncValue::Float(x) => Ok(EncValue::Float(*x)),
        EncValue::Double(x) => Ok(EncValue::Double(*x)),
        EncValue::Str(x) => Ok(EncValue::Str(*x)),
        EncValue::Class(x) => Ok(EncValue::Class(*x)),
        EncValue::Field(x) => Ok(EncValue::Field(*x)),
        EncValue::Method(x) => Ok(EncValue::Method(*x)),
        EncValue::Enum(x) => Ok(EncValue::Enum(*x)),
        EncValue::Array(items) => Ok(EncValue::Array(Seq::of_vec(copy_values(
            items.allocator(),
            items.as_slice(),
        )?))),
        EncValue::Annotation(note) => Ok(EncValue::Annotation(copy_note(note)?)),
        EncValue::Null => Ok(EncValue::Null),
        EncValue::Bool(x) => Ok(EncValue::Bool(*x)),
    }
}

/// Copies of values, in order.
#[cycle(copies)]
fn copy_values(alloc: Global, values: &[EncValue]) -> Result<Vec<EncValue>, AllocError>
    ensures { IfOk result (λ v. v.items ≡ values.now) }
{
    let mut out = Vec::new(alloc);
    for value in values {
        out.push(copy_value(value)?)?;
    }
    Ok(out)
}

/// Copies of elements, in order.
#[cycle(copies)]
fn copy_elements(alloc: Global, elements: &[Element]) -> Result<Vec<Element>, AllocError>
    ensures { IfOk result (λ v. v.items ≡ elements.now) }
{
    let mut out = Vec::new(alloc);
    for element in elements {
        let value = copy_value(&element.value)?;
        out.push(Element {
            name: element.name,
            value,
        })?;
    }
    Ok(out)
}

/// A copy of an annotation.
#[cycle(copies)]
fn copy_note(note: &Note) -> Result<Note, AllocError>
    ensures { IfOk result (λ n. n ≡ note.now) }
{
    let elements = &note.elements;
    let elements = Seq::of_vec(copy_elements(elements.allocator(), elements.as_slice())?);
    Ok(Note {
        class: note.class,
        elements,
    })
}
