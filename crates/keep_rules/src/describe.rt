//! The classes of the descriptors of kept members.

ghost use Rattle.std.specs.Prelude.{◌≡◌, ◌<◌, ◌^◌, ◌&&◌, ◌||◌, ℕ, [], ◌∷◌, Some, length, nat_eq, slice_get, IfOk, OnOk};
ghost use Rattle.std.specs.List.{list_any};
ghost use Rattle.program_model.specs.declared.program.Program.{Program};
ghost use Rattle.dalvik_defs.specs.Names.{Text, base_of};
ghost use Rattle.keep_rules.specs.Marks.{is_on};
ghost use Rattle.keep_rules.specs.Table.{has};
ghost use Rattle.keep_rules.specs.Grown.{Grew};
ghost use Rattle.keep_rules.specs.View.{IsReady, kind_of};
ghost use Rattle.keep_rules.specs.Described.{is_class_named, IsClassOf, names_class, proto_names, method_names, field_names, class_names, has_both, Listed, Pairs};

use crate::marks::{is_marked, mark_each};
use crate::view::{View, descriptor, field_at, method_at, proto_at};
use program_model::{Class, Field, Method, Proto};
use std::alloc::{AllocError, Global};

/// The descriptor behind its brackets.
fn element(descriptor: &[u16]) -> &[u16]
    ensures { result.now ≡ base_of descriptor.now }
{
    let mut rest = descriptor;
    while let [91, behind @ ..] = rest {
        rest = behind;
    }
    rest
}

/// The type, if it is a class of the program.
fn if_defined(view: &View<'_>, kind: u32) -> Option<u32>
    ensures { (t : Text) → IsReady view.now → kind_of view.now.types t ≡ Some kind → IsClassOf view.now.program.now t result }
{
    match view.place_of(kind) {
        Some(_) => Some(kind),
        None => None,
    }
}

/// The type of a descriptor, if it is a class of the program.
fn class_named(view: &View<'_>, units: &[u16]) -> Option<u32>
    ensures { IsReady view.now → IsClassOf view.now.program.now units.now result }
{
    match view.types.get(&units) {
        Some(kind) => if_defined(view, *kind),
        None => None,
    }
}

/// Adds a type, if there is one.
fn add_option(kind: Option<u32>, out: &mut Vec<u32>) -> Result<(), AllocError>
    ensures { (p : Program) (t : Text) → IsClassOf p t kind → OnOk result (Listed p (λ n. is_class_named p n t) out.old.items out.new.items) }
{
    match kind {
        Some(kind) => {
            out.push(kind)?;
            Ok(())
        }
        None => Ok(()),
    }
}

/// Adds the class of the program that a type names, also as the item of an array.
fn add_class(view: &View<'_>, kind: u32, out: &mut Vec<u32>) -> Result<(), AllocError>
    ensures { IsReady view.now → OnOk result (Listed view.now.program.now (λ n. names_class view.now.program.now n kind) out.old.items out.new.items) }
{
    let units = element(descriptor(view.program, kind));
    add_option(class_named(view, units), out)?;
    Ok(())
}

/// Adds the classes of some types.
fn add_classes(view: &View<'_>, kinds: &[u32], out: &mut Vec<u32>) -> Result<(), AllocError>
    ensures { IsReady view.now → OnOk result (Listed view.now.program.now (λ n. list_any (names_class view.now.program.now n) kinds.now) out.old.items out.new.items) }
{
    for kind in kinds {
        add_class(view, *kind, out)?;
    }
    Ok(())
}

/// Adds the classes of a proto's result and parameters.
fn add_proto(view: &View<'_>, proto: &Proto, out: &mut Vec<u32>) -> Result<(), AllocError>
    ensures { IsReady view.now → OnOk result (Listed view.now.program.now (λ n. list_any (names_class view.now.program.now n) (proto.now.result ∷ proto.now.parameters)) out.old.items out.new.items) }
{
    add_class(view, proto.result, out)?;
    add_classes(view, proto.parameters.as_slice(), out)?;
    Ok(())
}

/// Adds the classes of the proto with a number.
fn add_proto_at(view: &View<'_>, proto: u32, out: &mut Vec<u32>) -> Result<(), AllocError>
    ensures { IsReady view.now → OnOk result (Listed view.now.program.now (λ n. proto_names view.now.program.now n (slice_get view.now.program.now.protos proto)) out.old.items out.new.items) }
{
    match proto_at(view.program, proto) {
        Some(proto) => {
            add_proto(view, proto, out)?;
            Ok(())
        }
        None => Ok(()),
    }
}

/// Adds the classes of a method's result and parameters.
fn add_method(view: &View<'_>, method: u32, out: &mut Vec<u32>) -> Result<(), AllocError>
    ensures { IsReady view.now → OnOk result (Listed view.now.program.now (λ n. method_names view.now.program.now n method) out.old.items out.new.items) }
{
    match method_at(view.program, method) {
        Some(name) => {
            add_proto_at(view, name.proto, out)?;
            Ok(())
        }
        None => Ok(()),
    }
}

/// Adds the class of a field's type.
fn add_field(view: &View<'_>, field: u32, out: &mut Vec<u32>) -> Result<(), AllocError>
    ensures { IsReady view.now → OnOk result (Listed view.now.program.now (λ n. field_names view.now.program.now n field) out.old.items out.new.items) }
{
    match field_at(view.program, field) {
        Some(name) => {
            add_class(view, name.kind, out)?;
            Ok(())
        }
        None => Ok(()),
    }
}

/// Adds the class of a field's type, if the field is marked.
fn add_marked_field(
    view: &View<'_>,
    fields: &[bool],
    field: u32,
    out: &mut Vec<u32>,
) -> Result<(), AllocError>
    ensures { IsReady view.now → OnOk result (Listed view.now.program.now (λ n. is_on fields.now field && field_names view.now.program.now n field) out.old.items out.new.items) }
{
    let marked = is_marked(fields, field);
    if !marked {
        return Ok(());
    }
    add_field(view, field, out)?;
    Ok(())
}

/// Adds the classes of a method's result and parameters, if the method is marked.
fn add_marked_method(
    view: &View<'_>,
    methods: &[bool],
    method: u32,
    out: &mut Vec<u32>,
) -> Result<(), AllocError>
    ensures { IsReady view.now → OnOk result (Listed view.now.program.now (λ n. is_on methods.now method && method_names view.now.program.now n method) out.old.items out.new.items) }
{
    let marked = is_marked(methods, method);
    if !marked {
        return Ok(());
    }
    add_method(view, method, out)?;
    Ok(())
}

/// Adds the classes of those fields that are marked.
fn add_fields(
    view: &View<'_>,
    class_fields: &[Field],
    fields: &[bool],
    out: &mut Vec<u32>,
) -> Result<(), AllocError>
    ensures { IsReady view.now
        → OnOk result (Listed view.now.program.now (λ n. list_any (λ f. is_on fields.now f.name && field_names view.now.program.now n f.name) class_fields.now) out.old.items out.new.items) }
{
    for field in class_fields {
        add_marked_field(view, fields, field.name, out)?;
    }
    Ok(())
}

/// Adds the classes of those methods that are marked.
fn add_methods(
    view: &View<'_>,
    class_methods: &[Method],
    methods: &[bool],
    out: &mut Vec<u32>,
) -> Result<(), AllocError>
    ensures { IsReady view.now
        → OnOk result (Listed view.now.program.now (λ n. list_any (λ m. is_on methods.now m.name && method_names view.now.program.now n m.name) class_methods.now) out.old.items out.new.items) }
{
    for method in class_methods {
        add_marked_method(view, methods, method.name, out)?;
    }
    Ok(())
}

/// The classes in the descriptors of the members of a class that are marked.
fn classes_of(
    alloc: Global,
    view: &View<'_>,
    class: &Class,
    fields: &[bool],
    methods: &[bool],
) -> Result<Vec<u32>, AllocError>
    ensures { IsReady view.now → IfOk result (λ kinds. Listed view.now.program.now (class_names view.now.program.now fields.now methods.now class.now) [] kinds.items) }
{
    let mut out = Vec::new(alloc);
    add_fields(view, class.fields.as_slice(), fields, &mut out)?;
    add_methods(view, class.methods.as_slice(), methods, &mut out)?;
    Ok(out)
}

/// Keeps the classes in the descriptors of the members that are marked.
pub fn keep_described(
    alloc: Global,
    view: &View<'_>,
    fields: &[bool],
    methods: &[bool],
    classes: &mut Vec<bool>,
) -> Result<(), AllocError>
    ensures { IsReady view.now → length classes.old.items ≡ length view.now.program.now.types
        → OnOk result (Grew (λ n. list_any (λ c. class_names view.now.program.now fields.now methods.now c n) view.now.program.now.classes) classes.old.items classes.new.items) }
{
    let program = view.program;
    for class in program.classes.as_slice() {
        let kinds = classes_of(alloc, view, class, fields, methods)?;
        mark_each(classes, kinds.as_slice());
    }
    Ok(())
}

/// Adds a pair for each of the classes.
fn add_pairs(kinds: &[u32], owner: u32, pairs: &mut Vec<(u32, u32)>) -> Result<(), AllocError>
    ensures { (n k : ℕ) → OnOk result (has_both pairs.new.items n k ≡ (has_both pairs.old.items n k || (has kinds.now n && nat_eq k owner))) }
{
    for kind in kinds {
        pairs.push((*kind, owner))?;
    }
    Ok(())
}

/// The classes in the descriptors of marked members, each with the class of the member.
fn pairs_of(
    alloc: Global,
    view: &View<'_>,
    fields: &[bool],
    methods: &[bool],
) -> Result<Vec<(u32, u32)>, AllocError>
    ensures { IsReady view.now
        → IfOk result (λ pairs. Pairs view.now.program.now (λ n k. list_any (λ c. class_names view.now.program.now fields.now methods.now c n && nat_eq k c.name) view.now.program.now.classes) [] pairs.items) }
{
    let mut pairs = Vec::new(alloc);
    let program = view.program;
    for class in program.classes.as_slice() {
        let kinds = classes_of(alloc, view, class, fields, methods)?;
        add_pairs(kinds.as_slice(), class.name, &mut pairs)?;
    }
    Ok(pairs)
}

/// The classes in the descriptors of members that are kept where their class is live, each with that class, where a
/// rule asks for it, in order.
pub fn described_pairs(
    alloc: Global,
    view: &View<'_>,
    fields: &[bool],
    methods: &[bool],
) -> Result<Vec<(u32, u32)>, AllocError>
    ensures { IsReady view.now
        → IfOk result (λ pairs. Pairs view.now.program.now (λ n k. list_any (λ c. class_names view.now.program.now fields.now methods.now c n && nat_eq k c.name) view.now.program.now.classes) [] pairs.items) }
{
    let mut pairs = pairs_of(alloc, view, fields, methods)?;
    pairs.sort()?;
    Ok(pairs)
}
