//! How many items a program has: the entries of its lists of types, annotations, values and handlers.

ghost use Rattle.std.specs.Prelude.{◌≡◌, sum_by};
ghost use Rattle.program_model.specs.Cells.{capped};
ghost use Rattle.program_model.specs.declared.value.EncValue.{out-EncValue};
ghost use Rattle.program_model.specs.Items.{element_items, note_items, layer_items, value_items, mark_items, marks_items, first_items_from, field_items};
ghost use Rattle.program_model.specs.Items.{fields_items, region_items, body_items, method_items, class_items, proto_items, items_of};

use program_model::{
    Body, Class, Element, EncValue, Field, Mark, Method, Note, Program, Proto, Region,
};

/// The entries in a value down to a depth. Here as below the greatest number of 64 bits stands for all above it.
#[cycle(counts)]
fn count_value(value: &EncValue, depth: u32) -> u64
    ensures { result ≡ capped (value_items depth value.now) }
{
    if depth == 0 {
        0
    } else {
        count_layer(value, depth - 1)
    }
}

/// The entries of an array or an annotation, and those in them down to a depth.
#[cycle(counts)]
fn count_layer(value: &EncValue, depth: u32) -> u64
    ensures { result ≡ capped (layer_items (value_items depth) (out-EncValue value.now)) }
{
    match value {
        EncValue::Array(values) => {
            (values.len() as u64).saturating_add(count_values(values.as_slice(), depth))
        }
        EncValue::Annotation(note) => count_note(note, depth),
        _ => 0,
    }
}

/// The entries in values down to a depth.
#[cycle(counts)]
fn count_values(values: &[EncValue], depth: u32) -> u64
    ensures { result ≡ capped (sum_by (value_items depth) values.now) }
{
    let mut total: u64 = 0;
    for value in values {
        total = total.saturating_add(count_value(value, depth));
    }
    total
}

/// The elements of an annotation, and the entries in their values down to a depth.
#[cycle(counts)]
fn count_note(note: &Note, depth: u32) -> u64
    ensures { result ≡ capped (note_items (value_items depth) note.now) }
{
    let elements = note.elements.as_slice();
    (elements.len() as u64).saturating_add(count_elements(elements, depth))
}

/// The entries in the values of elements down to a depth.
#[cycle(counts)]
fn count_elements(elements: &[Element], depth: u32) -> u64
    ensures { result ≡ capped (sum_by (element_items (value_items depth)) elements.now) }
{
    let mut total: u64 = 0;
    for element in elements {
        total = total.saturating_add(count_value(&element.value, depth));
    }
    total
}

/// The elements of an annotation and the entries in them.
#[tactic(auto, unfolding(program_model::specs::Items::mark_items))]
fn count_mark(mark: &Mark) -> u64
    ensures { result ≡ capped (mark_items mark.now) }
{
    count_note(&mark.note, 64)
}

/// The entries of annotations.
fn count_each_mark(marks: &[Mark]) -> u64
    ensures { result ≡ capped (sum_by mark_items marks.now) }
{
    let mut total: u64 = 0;
    for mark in marks {
        total = total.saturating_add(count_mark(mark));
    }
    total
}

/// The annotations of a set and their entries.
fn count_marks(marks: &[Mark]) -> u64
    ensures { result ≡ capped (marks_items marks.now) }
{
    (marks.len() as u64).saturating_add(count_each_mark(marks))
}

/// How many fields there are up to the last one with a first value.
fn count_first_values(fields: &[Field]) -> usize
    ensures { result ≡ first_items_from 0 0 fields.now }
{
    let mut count = 0;
    for (place, field) in fields.iter().enumerate() {
        if field.first.is_some() {
            count = place + 1;
        }
    }
    count
}

/// The entries of the annotations of fields.
fn count_field_marks(fields: &[Field]) -> u64
    ensures { result ≡ capped (sum_by field_items fields.now) }
{
    let mut total: u64 = 0;
    for field in fields {
        total = total.saturating_add(count_marks(field.marks.as_slice()));
    }
    total
}

/// The first values of fields, and the entries of their annotations.
fn count_fields(fields: &[Field]) -> u64
    ensures { result ≡ capped (fields_items fields.now) }
{
    (count_first_values(fields) as u64).saturating_add(count_field_marks(fields))
}

/// The handlers of a region with its catch-all.
fn count_region(region: &Region) -> u64
    ensures { result ≡ capped (region_items region.now) }
{
    let rest = match region.rest {
        Some(_) => 1,
        None => 0,
    };
    (region.handlers.len() as u64).saturating_add(rest)
}

/// The handlers of regions.
fn count_regions(regions: &[Region]) -> u64
    ensures { result ≡ capped (sum_by region_items regions.now) }
{
    let mut total: u64 = 0;
    for region in regions {
        total = total.saturating_add(count_region(region));
    }
    total
}

/// The handlers of a body, if there is one.
fn count_handlers(body: &Option<Body>) -> u64
    ensures { result ≡ capped (body_items body.now) }
{
    match body {
        Some(body) => count_regions(body.regions.as_slice()),
        None => 0,
    }
}

/// The entries of the annotations of parameters.
fn count_parameter_marks(method: &Method) -> u64
    ensures { result ≡ capped (sum_by marks_items method.now.parameter_marks) }
{
    let mut total: u64 = 0;
    for marks in method.parameter_marks.as_slice() {
        total = total.saturating_add(count_marks(marks.as_slice()));
    }
    total
}

/// The entries of a method's annotations and those of its parameters, and its handlers.
fn count_method(method: &Method) -> u64
    ensures { result ≡ capped (method_items method.now) }
{
    let sets = (method.parameter_marks.len() as u64).saturating_add(count_parameter_marks(method));
    count_marks(method.marks.as_slice())
        .saturating_add(sets)
        .saturating_add(count_handlers(&method.body))
}

/// The entries of methods.
fn count_methods(methods: &[Method]) -> u64
    ensures { result ≡ capped (sum_by method_items methods.now) }
{
    let mut total: u64 = 0;
    for method in methods {
        total = total.saturating_add(count_method(method));
    }
    total
}

/// The entries of a class.
#[tactic(auto, unfolding(program_model::specs::Items::class_items))]
fn count_class(class: &Class) -> u64
    ensures { result ≡ capped (class_items class.now) }
{
    let members = count_fields(class.fields.as_slice()).saturating_add(count_methods(
        class.methods.as_slice(),
    ));
    (class.interfaces.len() as u64)
        .saturating_add(count_marks(class.marks.as_slice()))
        .saturating_add(members)
}

/// The entries of classes.
fn count_classes(classes: &[Class]) -> u64
    ensures { result ≡ capped (sum_by class_items classes.now) }
{
    let mut total: u64 = 0;
    for class in classes {
        total = total.saturating_add(count_class(class));
    }
    total
}

/// The parameters of protos.
fn count_protos(protos: &[Proto]) -> u64
    ensures { result ≡ capped (sum_by proto_items protos.now) }
{
    let mut total: u64 = 0;
    for proto in protos {
        total = total.saturating_add(proto.parameters.len() as u64);
    }
    total
}

/// The items of a program: the entries of its type lists, sets of annotations, annotations and arrays, and the handlers
/// of its regions. It takes no memory.
#[tactic(auto, unfolding(program_model::specs::Items::items_of))]
pub(crate) fn count_items(program: &Program) -> u64
    ensures { result ≡ capped (items_of program.now) }
{
    count_protos(program.protos.as_slice()).saturating_add(count_classes(
        program.classes.as_slice(),
    ))
}
