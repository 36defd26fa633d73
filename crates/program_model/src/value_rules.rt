//! What values and annotations have to be (Dalvik executable format, "encoded_value", "encoded_annotation",
//! "annotation_set_item").

ghost use Rattle.std.specs.Prelude.{◌≡◌};
ghost use Rattle.std.specs.List.{list_all};
ghost use Rattle.program_model.specs.Neighbours.{neighbours};
ghost use Rattle.program_model.specs.declared.value.EncValue.{out-EncValue};
ghost use Rattle.program_model.specs.ValueRules.{element_fits, named_in_order, note_fits, names_fit, value_fits, mark_fits, typed_in_order, marks_fit, first_fits};

use crate::program::Program;
use crate::texts::{has_field, has_method, has_string, has_type, is_reference};
use crate::value::{Element, EncValue, Mark, Note};

/// How deep values may nest.
pub(crate) const DEEPEST: u32 = 64;

/// Whether the elements ascend by name.
fn are_named_in_order(elements: &[Element]) -> bool
    ensures { result ≡ list_all named_in_order (neighbours elements.now) }
{
    elements
        .iter()
        .zip(elements.iter().skip(1))
        .all(|(element, next)| element.name < next.name)
}

/// Whether a value names entries of the tables, and values nest in it so deep at most, itself counted.
#[cycle(fits)]
fn value_fits(program: &Program, value: &EncValue, depth: u32) -> bool
    ensures { result ≡ value_fits depth program.now value.now }
{
    depth > 0 && names_fit(program, value, depth - 1)
}

/// Whether a value names entries of the tables, and values nest in it so deep at most, itself not counted.
#[cycle(fits)]
fn names_fit(program: &Program, value: &EncValue, depth: u32) -> bool
    ensures { result ≡ names_fit (value_fits depth program.now) program.now (out-EncValue value.now) }
{
    match value {
        EncValue::Str(number) => has_string(program, *number),
        EncValue::Class(number) => has_type(program, *number),
        EncValue::Field(number) | EncValue::Enum(number) => has_field(program, *number),
        EncValue::Method(number) => has_method(program, *number),
        EncValue::Array(values) => values_fit(program, values.as_slice(), depth),
        EncValue::Annotation(note) => note_fits(program, note, depth),
        _ => true,
    }
}

/// Whether values do.
#[cycle(fits)]
fn values_fit(program: &Program, values: &[EncValue], depth: u32) -> bool
    ensures { result ≡ list_all (value_fits depth program.now) values.now }
{
    for value in values {
        if !value_fits(program, value, depth) {
            return false;
        }
    }
    true
}

/// Whether an annotation's type and elements are what they have to be, where values nest so deep at most.
#[cycle(fits)]
fn note_fits(program: &Program, note: &Note, depth: u32) -> bool
    ensures { result ≡ note_fits (value_fits depth program.now) program.now note.now }
{
    let elements = note.elements.as_slice();
    has_type(program, note.class)
        && (elements_fit(program, elements, depth) && are_named_in_order(elements))
}

/// Whether elements have names, and values that fit.
#[cycle(fits)]
fn elements_fit(program: &Program, elements: &[Element], depth: u32) -> bool
    ensures { result ≡ list_all (element_fits (value_fits depth program.now) program.now) elements.now }
{
    for element in elements {
        if !element_fits(program, element, depth) {
            return false;
        }
    }
    true
}

/// Whether an element has a name, and a value that fits.
#[cycle(fits)]
fn element_fits(program: &Program, element: &Element, depth: u32) -> bool
    ensures { result ≡ element_fits (value_fits depth program.now) program.now element.now }
{
    has_string(program, element.name) && value_fits(program, &element.value, depth)
}

/// Whether an annotation is what it has to be.
#[tactic(auto, unfolding(crate::specs::ValueRules::mark_fits))]
fn mark_fits(program: &Program, mark: &Mark) -> bool
    ensures { result ≡ mark_fits program.now mark.now }
{
    note_fits(program, &mark.note, DEEPEST)
}

/// Whether the annotations of a set ascend by type.
fn are_typed_in_order(marks: &[Mark]) -> bool
    ensures { result ≡ list_all typed_in_order (neighbours marks.now) }
{
    marks
        .iter()
        .zip(marks.iter().skip(1))
        .all(|(mark, next)| mark.note.class < next.note.class)
}

/// Whether each annotation is what it has to be.
fn all_marks_fit(program: &Program, marks: &[Mark]) -> bool
    ensures { result ≡ list_all (mark_fits program.now) marks.now }
{
    marks.iter().all(|mark| mark_fits(program, mark))
}

/// Whether the annotations of a set are what they have to be.
#[tactic(auto, unfolding(crate::specs::ValueRules::marks_fit))]
pub(crate) fn marks_fit(program: &Program, marks: &[Mark]) -> bool
    ensures { result ≡ marks_fit program.now marks.now }
{
    all_marks_fit(program, marks) && are_typed_in_order(marks)
}

/// Whether a value is of a field's type, which has this letter, and is not zero, false or null.
pub(crate) fn first_fits(program: &Program, letter: u16, value: &EncValue) -> bool
    ensures { result ≡ first_fits program.now letter value.now }
{
    match value {
        EncValue::Byte(number) => letter == 66 && *number != 0,
        EncValue::Short(number) => letter == 83 && *number != 0,
        EncValue::Char(unit) => letter == 67 && *unit != 0,
        EncValue::Int(number) => letter == 73 && *number != 0,
        EncValue::Long(number) => letter == 74 && *number != 0,
        EncValue::Float(bits) => letter == 70 && *bits != 0,
        EncValue::Double(bits) => letter == 68 && *bits != 0,
        EncValue::Bool(value) => letter == 90 && *value,
        EncValue::Str(number) => is_reference(letter) && has_string(program, *number),
        EncValue::Class(number) => is_reference(letter) && has_type(program, *number),
        _ => false,
    }
}
