//! Marks what values and annotations name.

ghost use Rattle.std.specs.Prelude.{◌≡◌};
ghost use Rattle.std.specs.List.{flat_map};
ghost use Rattle.dex_pools.specs.Used.{marked, value_names, element_names, note_names, marks_names};

use crate::used::{Named, Used};
use program_model::{Element, EncValue, Mark, Note};

/// Marks what a value names.
#[cycle(walks)]
#[tactic(auto, using(crate::proofs::Names::array_names, crate::proofs::Names::annotation_names), unfolding(crate::specs::Used::value_names))]
pub fn walk_value(used: &mut Used, value: &EncValue)
    ensures { used.new ≡ marked used.old (value_names value.now) }
{
    match value {
        EncValue::Str(n) => used.mark(Named::Text(*n)),
        EncValue::Class(n) => used.mark(Named::Kind(*n)),
        EncValue::Field(n) | EncValue::Enum(n) => used.mark(Named::Field(*n)),
        EncValue::Method(n) => used.mark(Named::Method(*n)),
        EncValue::Array(values) => walk_values(used, values.as_slice()),
        EncValue::Annotation(note) => walk_note(used, note),
        _ => {}
    }
}

/// Marks what values name.
#[cycle(walks)]
fn walk_values(used: &mut Used, values: &[EncValue])
    ensures { used.new ≡ marked used.old (flat_map value_names values.now) }
{
    for value in values {
        walk_value(used, value);
    }
}

/// Marks what an annotation names.
#[cycle(walks)]
#[tactic(auto, using(crate::proofs::Names::note_names_are))]
fn walk_note(used: &mut Used, note: &Note)
    ensures { used.new ≡ marked used.old (note_names note.now) }
{
    used.mark(Named::Kind(note.class));
    walk_elements(used, note.elements.as_slice());
}

/// Marks what elements name.
#[cycle(walks)]
fn walk_elements(used: &mut Used, elements: &[Element])
    ensures { used.new ≡ marked used.old (flat_map element_names elements.now) }
{
    for element in elements {
        walk_element(used, element);
    }
}

/// Marks what an element names.
#[cycle(walks)]
#[tactic(auto, using(crate::proofs::Names::element_names_are))]
fn walk_element(used: &mut Used, element: &Element)
    ensures { used.new ≡ marked used.old (element_names element.now) }
{
    used.mark(Named::Text(element.name));
    walk_value(used, &element.value);
}

/// Marks what annotations name.

pub fn walk_marks(used: &mut Used, marks: &[Mark])
    ensures { used.new ≡ marked used.old (marks_names marks.now) }
{
    for mark in marks {
        walk_note(used, &mark.note);
    }
}
