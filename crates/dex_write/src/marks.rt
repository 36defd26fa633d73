//! Annotations (Dalvik executable format, "annotation_item").

ghost use Rattle.std.specs.Prelude.{◌≡◌, [], ◌∷◌, map, slice_get, IfOk, OnOk};
ghost use Rattle.std.specs.List.{flat_map};
ghost use Rattle.dex_write.specs.Plans.{plan_in, in_order, field_marks, method_marks, parameter_marks};
ghost use Rattle.dex_write.specs.Sets.{marks_from, mark_list, ordered_marks, marks_of, Added};

use crate::numbers::word_of;
use crate::ordered::{
    MethodPart, Numbered, Ordered, field_marks, method_marks, parameter_marks, renumbered, sort,
};
use dex_pools::write_annotation;
use program_model::{Class, Mark, Renumber};
use seq::Seq;
use std::alloc::{AllocError, Global};

/// Annotations one behind another, and where each begins.
#[derive(Drop)]
pub struct MarkBytes {
    pub bytes: Vec<u8>,
    pub starts: Vec<u32>,
}

/// The places of annotations, by the new numbers of their types.
fn ordered_places(alloc: Global, marks: &[Mark], types: &[u32]) -> Result<Vec<Numbered>, AllocError>
    ensures { IfOk result (λ v. v.items ≡ in_order (marks_from types.now 0 marks.now)) }
{
    let mut found = Vec::with_capacity(alloc, marks.len())?;
    for (place, mark) in marks.iter().enumerate() {
        found.push((renumbered(types, mark.note.class), word_of(place)?))?;
    }
    sort(&mut found)?;
    Ok(found)
}

/// Adds an annotation.
fn push_mark(out: &mut MarkBytes, mark: &Mark, numbers: &Renumber) -> Result<(), AllocError>
    ensures { OnOk result (Added numbers.now (mark.now ∷ []) out.old.bytes.items out.old.starts.items out.new.bytes.items out.new.starts.items) }
{
    out.starts.push(word_of(out.bytes.len())?)?;
    write_annotation(&mut out.bytes, mark, numbers)
}

/// Adds the annotation at a place.
fn push_at(
    out: &mut MarkBytes,
    marks: &[Mark],
    place: u32,
    numbers: &Renumber,
) -> Result<(), AllocError>
    ensures { OnOk result (Added numbers.now (mark_list (slice_get marks.now place)) out.old.bytes.items out.old.starts.items out.new.bytes.items out.new.starts.items) }
{
    match marks.get(place as usize) {
        Some(mark) => push_mark(out, mark, numbers),
        None => Ok(()),
    }
}

/// Adds the annotations at these places.
fn push_places(
    out: &mut MarkBytes,
    marks: &[Mark],
    places: &[Numbered],
    numbers: &Renumber,
) -> Result<(), AllocError>
    ensures { OnOk result (Added numbers.now (flat_map (λ n. mark_list (slice_get marks.now n.1)) places.now) out.old.bytes.items out.old.starts.items out.new.bytes.items out.new.starts.items) }
{
    for place in places {
        push_at(out, marks, place.1, numbers)?;
    }
    Ok(())
}

/// Adds the annotations of a set.
#[tactic(auto, unfolding(crate::specs::Sets::ordered_marks))]
fn push_set(
    alloc: Global,
    out: &mut MarkBytes,
    marks: &[Mark],
    numbers: &Renumber,
) -> Result<(), AllocError>
    ensures { OnOk result (Added numbers.now (ordered_marks numbers.now marks.now) out.old.bytes.items out.old.starts.items out.new.bytes.items out.new.starts.items) }
{
    let places = ordered_places(alloc, marks, &numbers.types)?;
    push_places(out, marks, &places, numbers)
}

/// Adds the annotations of the fields.
fn push_fields(
    alloc: Global,
    out: &mut MarkBytes,
    class: &Class,
    fields: &[Numbered],
    numbers: &Renumber,
) -> Result<(), AllocError>
    ensures { OnOk result (Added numbers.now (flat_map (λ f. ordered_marks numbers.now (field_marks class.now f.1)) fields.now) out.old.bytes.items out.old.starts.items out.new.bytes.items out.new.starts.items) }
{
    for field in fields {
        push_set(alloc, out, field_marks(class, field.1), numbers)?;
    }
    Ok(())
}

/// Adds the annotations of the methods.
fn push_methods(
    alloc: Global,
    out: &mut MarkBytes,
    class: &Class,
    methods: &[MethodPart],
    numbers: &Renumber,
) -> Result<(), AllocError>
    ensures { OnOk result (Added numbers.now (flat_map (λ m. ordered_marks numbers.now (method_marks class.now m.place)) methods.now) out.old.bytes.items out.old.starts.items out.new.bytes.items out.new.starts.items) }
{
    for method in methods {
        push_set(alloc, out, method_marks(class, method.place), numbers)?;
    }
    Ok(())
}

/// Adds the annotations of sets.
fn push_sets(
    alloc: Global,
    out: &mut MarkBytes,
    sets: &[Seq<Mark>],
    numbers: &Renumber,
) -> Result<(), AllocError>
    ensures { OnOk result (Added numbers.now (flat_map (ordered_marks numbers.now) sets.now) out.old.bytes.items out.old.starts.items out.new.bytes.items out.new.starts.items) }
{
    for marks in sets {
        push_set(alloc, out, marks.as_slice(), numbers)?;
    }
    Ok(())
}

/// Adds the annotations of the methods' parameters.
fn push_parameters(
    alloc: Global,
    out: &mut MarkBytes,
    class: &Class,
    methods: &[MethodPart],
    numbers: &Renumber,
) -> Result<(), AllocError>
    ensures { OnOk result (Added numbers.now (flat_map (λ m. flat_map (ordered_marks numbers.now) (parameter_marks class.now m.place)) methods.now) out.old.bytes.items out.old.starts.items out.new.bytes.items out.new.starts.items) }
{
    for method in methods {
        push_sets(alloc, out, parameter_marks(class, method.place), numbers)?;
    }
    Ok(())
}

/// Adds the annotations of a class: its own, those of its fields and methods, and those of its methods' parameters.
fn push_class(
    alloc: Global,
    out: &mut MarkBytes,
    ordered: &Ordered,
    numbers: &Renumber,
) -> Result<(), AllocError>
    ensures { OnOk result (Added numbers.now (marks_of numbers.now (plan_in ordered.now)) out.old.bytes.items out.old.starts.items out.new.bytes.items out.new.starts.items) }
{
    let class = ordered.class;
    let methods = ordered.methods.as_slice();
    push_set(alloc, out, class.marks.as_slice(), numbers)?;
    push_fields(alloc, out, class, ordered.fields.as_slice(), numbers)?;
    push_methods(alloc, out, class, methods, numbers)?;
    push_parameters(alloc, out, class, methods, numbers)
}

/// The annotations of all classes, and where each begins behind the first.
pub fn mark_bytes(
    alloc: Global,
    order: &[Ordered],
    numbers: &Renumber,
) -> Result<MarkBytes, AllocError>
    ensures { IfOk result (λ m. Added numbers.now (flat_map (marks_of numbers.now) (map plan_in order.now)) [] [] m.bytes.items m.starts.items) }
{
    let mut out = MarkBytes {
        bytes: Vec::new(alloc),
        starts: Vec::new(alloc),
    };
    for ordered in order {
        push_class(alloc, &mut out, ordered, numbers)?;
    }
    Ok(out)
}
