//! The numbers of values and annotations.

ghost use Rattle.std.specs.Prelude.{◌<◌, ◌^◌};
ghost use Rattle.std.specs.List.{AllByRecursion};
ghost use Rattle.program_model.specs.declared.value.EncValue.{out-EncValue};
ghost use Rattle.widths.specs.Values.{NoteInWidth, LayerInWidth, ValueInWidth, FirstInWidth, MarkInWidth, MarksInWidth};

use program_model::{Element, EncValue, Mark, Note};
use seq::Seq;

/// Reads the numbers of a value down to a depth.
#[cycle(reads)]
fn read_value(value: &EncValue, depth: u32)
    ensures { ValueInWidth depth value.now }
{
    if depth != 0 {
        read_layer(value, depth - 1)
    }
}

/// Reads the number of a value, or those of the values in it down to a depth.
#[cycle(reads)]
fn read_layer(value: &EncValue, depth: u32)
    ensures { LayerInWidth (ValueInWidth depth) (out-EncValue value.now) }
{
    match value {
        EncValue::Byte(number) => {
            let _number = *number;
        }
        EncValue::Short(number) => {
            let _number = *number;
        }
        EncValue::Char(number) => {
            let _number = *number;
        }
        EncValue::Int(number) => {
            let _number = *number;
        }
        EncValue::Long(number) => {
            let _number = *number;
        }
        EncValue::Float(number) => {
            let _number = *number;
        }
        EncValue::Double(number) => {
            let _number = *number;
        }
        EncValue::Array(values) => read_values(values.as_slice(), depth),
        EncValue::Annotation(note) => read_note(note, depth),
        _ => {}
    }
}

/// Reads those of values down to a depth.
#[cycle(reads)]
#[tactic(auto, using(crate::proofs::More::more))]
fn read_values(values: &[EncValue], depth: u32)
    ensures { AllByRecursion (ValueInWidth depth) values.now }
{
    for value in values {
        read_value(value, depth);
    }
}

/// Reads those of an annotation's values down to a depth.
#[cycle(reads)]
fn read_note(note: &Note, depth: u32)
    ensures { NoteInWidth (ValueInWidth depth) note.now }
{
    read_elements(note.elements.as_slice(), depth)
}

/// Reads those of the values of elements down to a depth.
#[cycle(reads)]
#[tactic(auto, using(crate::proofs::More::more))]
fn read_elements(elements: &[Element], depth: u32)
    ensures { AllByRecursion (λ e. ValueInWidth depth e.value) elements.now }
{
    for element in elements {
        read_value(&element.value, depth);
    }
}

/// Reads those of an annotation.
fn read_mark(mark: &Mark)
    ensures { MarkInWidth mark.now }
{
    let _visibility = mark.visibility;
    read_note(&mark.note, 64)
}

/// Reads those of a set of annotations.
#[tactic(auto, using(crate::proofs::More::more))]
pub(crate) fn read_marks(marks: &[Mark])
    ensures { MarksInWidth marks.now }
{
    for mark in marks {
        read_mark(mark);
    }
}

/// Reads those of sets of annotations.
#[tactic(auto, using(crate::proofs::More::more))]
pub(crate) fn read_sets(sets: &[Seq<Mark>])
    ensures { AllByRecursion MarksInWidth sets.now }
{
    for marks in sets {
        read_marks(marks.as_slice());
    }
}

/// Reads the number of a first value, if there is one.
pub(crate) fn read_first(first: &Option<EncValue>)
    ensures { FirstInWidth first.now }
{
    match first {
        Some(value) => read_value(value, 1),
        None => {}
    }
}
