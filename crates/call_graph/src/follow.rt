//! What follows from one thing that is live, as far as it alone forces it.

ghost use Rattle.std.specs.Prelude.{◌≡◌, ◌++◌, flat_map, slice_get, Some, OnOk, IfOk};
ghost use Rattle.std.specs.Option.{option_copied};
ghost use Rattle.hierarchy.specs.Shapes.{IsResolved};
ghost use Rattle.call_graph.specs.Follows.{made_of, made_facts, kept_class, kept_field, kept_method, own_method, own_kept_of, constructed_of, entered_of, kind_facts, proto_facts, method_types, field_types, field_fact, resolved_field, found_facts, call_facts, method_facts, named_facts, all_named, coded, start_facts, above_facts, class_facts, field_facts, body_facts};
ghost use Rattle.call_graph.specs.Follows as follow;

use crate::at::At;
use crate::bases::{NONE, units_of};
use crate::common::is_constructor;
use crate::facts::Fact;
use crate::named::{Named, add_first, add_marks, add_method};
use crate::tables::can_be_made;
use program_model::{Class, Flags, InvokeKind, Method, MethodAt, Proto, Version};
use std::alloc::{AllocError, Global};

/// Adds that a class of this type is made, if there can be objects of it.
fn add_made_of(kind: u32, class: &Class, out: &mut Vec<Fact>) -> Result<(), AllocError>
    ensures { OnOk result (out.new.items ≡ out.old.items ++ made_of kind (Some class.now)) }
{
    if can_be_made(class) {
        out.push(Fact::Made(kind))?;
    }
    Ok(())
}

/// Adds that objects of a type are made, if it is a program class of which there can be any.
fn add_made(at: &At<'_>, kind: u32, out: &mut Vec<Fact>) -> Result<(), AllocError>
    ensures { IsResolved at.now.program.now at.now.hierarchy.now → OnOk result (out.new.items ≡ out.old.items ++ made_facts at.now.program.now kind) }
{
    match at.class_of(kind) {
        Some(class) => add_made_of(kind, class, out),
        None => Ok(()),
    }
}

/// Adds that a program class is kept, and that it is made if that can be.
pub fn keep_class(at: &At<'_>, kind: u32, out: &mut Vec<Fact>) -> Result<(), AllocError>
    ensures { IsResolved at.now.program.now at.now.hierarchy.now → OnOk result (out.new.items ≡ out.old.items ++ kept_class at.now.program.now kind) }
{
    match at.class_of(kind) {
        Some(class) => {
            out.push(Fact::Class(kind))?;
            add_made_of(kind, class, out)
        }
        None => Ok(()),
    }
}

/// Adds the program classes of these types, which are kept.
pub fn keep_classes(at: &At<'_>, kinds: &[u32], out: &mut Vec<Fact>) -> Result<(), AllocError>
    ensures { IsResolved at.now.program.now at.now.hierarchy.now → OnOk result (out.new.items ≡ out.old.items ++ flat_map (kept_class at.now.program.now) kinds.now) }
{
    for kind in kinds {
        keep_class(at, *kind, out)?;
    }
    Ok(())
}

/// Adds a kept field if the program defines it.
fn keep_field(at: &At<'_>, number: u32, out: &mut Vec<Fact>) -> Result<(), AllocError>
    ensures { IsResolved at.now.program.now at.now.hierarchy.now → OnOk result (out.new.items ≡ out.old.items ++ kept_field at.now.program.now number) }
{
    if at.own_field(number).is_some() {
        out.push(Fact::Field(number))?;
    }
    Ok(())
}

/// Adds the kept ones of these fields that the program defines.
pub fn keep_fields(at: &At<'_>, numbers: &[u32], out: &mut Vec<Fact>) -> Result<(), AllocError>
    ensures { IsResolved at.now.program.now at.now.hierarchy.now → OnOk result (out.new.items ≡ out.old.items ++ flat_map (kept_field at.now.program.now) numbers.now) }
{
    for number in numbers {
        keep_field(at, *number, out)?;
    }
    Ok(())
}

/// Adds the class of a kept method, where that is a constructor: the class is live, and made if that can be.
fn add_constructed(at: &At<'_>, number: u32, out: &mut Vec<Fact>) -> Result<(), AllocError>
    ensures { IsResolved at.now.program.now at.now.hierarchy.now → OnOk result (out.new.items ≡ out.old.items ++ constructed_of at.now.program.now (slice_get at.now.program.now.methods number)) }
{
    match at.method_name(number) {
        Some(name) => {
            if is_constructor(units_of(at.program, name.name)) {
                keep_class(at, name.class, out)
            } else {
                Ok(())
            }
        }
        None => Ok(()),
    }
}

/// Adds that a kept method is called on objects, where it is virtual.
fn add_entered(
    at: &At<'_>,
    number: u32,
    method: &Method,
    out: &mut Vec<Fact>,
) -> Result<(), AllocError>
    ensures { IsResolved at.now.program.now at.now.hierarchy.now → OnOk result (out.new.items ≡ out.old.items ++ entered_of at.now.program.now number method.now) }
{
    if at.hierarchy.is_virtual(method) {
        out.push(Fact::Called(number))?;
    }
    Ok(())
}

/// Adds a kept method that the program defines: it is live, and called on objects where it is virtual.
fn add_own_kept(at: &At<'_>, number: u32, out: &mut Vec<Fact>) -> Result<(), AllocError>
    ensures { IsResolved at.now.program.now at.now.hierarchy.now → OnOk result (out.new.items ≡ out.old.items ++ own_kept_of at.now.program.now number (own_method at.now.program.now number)) }
{
    match at.own_method(number) {
        Some(method) => {
            out.push(Fact::Method(number))?;
            add_entered(at, number, method, out)
        }
        None => Ok(()),
    }
}

/// Adds what follows from a kept method.
fn keep_method(at: &At<'_>, number: u32, out: &mut Vec<Fact>) -> Result<(), AllocError>
    ensures { IsResolved at.now.program.now at.now.hierarchy.now → OnOk result (out.new.items ≡ out.old.items ++ kept_method at.now.program.now number) }
{
    add_constructed(at, number, out)?;
    add_own_kept(at, number, out)
}

/// Adds what follows from these kept methods.
pub fn keep_methods(at: &At<'_>, numbers: &[u32], out: &mut Vec<Fact>) -> Result<(), AllocError>
    ensures { IsResolved at.now.program.now at.now.hierarchy.now → OnOk result (out.new.items ≡ out.old.items ++ flat_map (kept_method at.now.program.now) numbers.now) }
{
    for number in numbers {
        keep_method(at, *number, out)?;
    }
    Ok(())
}

/// Adds the program class of this type, unless the number stands for none.
fn add_base(base: u32, out: &mut Vec<Fact>) -> Result<(), AllocError>
    ensures { OnOk result (out.new.items ≡ out.old.items ++ follow.base_facts (Some base)) }
{
    if base == NONE {
        return Ok(());
    }
    out.push(Fact::Class(base))?;
    Ok(())
}

/// The type of the program class that a type is or is an array of, as the table has it.
fn base_at(bases: &[u32], kind: u32) -> Option<&u32>
    ensures { option_copied result ≡ slice_get bases.now kind }
{
    bases.get(kind as usize)
}

/// Adds the program class that a type is or is an array of.
fn add_kind(bases: &[u32], kind: u32, out: &mut Vec<Fact>) -> Result<(), AllocError>
    ensures { OnOk result (out.new.items ≡ out.old.items ++ kind_facts bases.now kind) }
{
    match base_at(bases, kind) {
        Some(base) => add_base(*base, out),
        None => Ok(()),
    }
}

/// Adds the program classes that types are or are arrays of.
fn add_kinds(bases: &[u32], kinds: &[u32], out: &mut Vec<Fact>) -> Result<(), AllocError>
    ensures { OnOk result (out.new.items ≡ out.old.items ++ flat_map (kind_facts bases.now) kinds.now) }
{
    for kind in kinds {
        add_kind(bases, *kind, out)?;
    }
    Ok(())
}

/// Adds the classes of a proto's types.
fn add_proto_types(bases: &[u32], proto: &Proto, out: &mut Vec<Fact>) -> Result<(), AllocError>
    ensures { OnOk result (out.new.items ≡ out.old.items ++ follow.proto_of bases.now (Some proto.now)) }
{
    add_kind(bases, proto.result, out)?;
    add_kinds(bases, proto.parameters.as_slice(), out)
}

/// Adds the classes of the types of a proto number.
fn add_proto(at: &At<'_>, bases: &[u32], proto: u32, out: &mut Vec<Fact>) -> Result<(), AllocError>
    ensures { OnOk result (out.new.items ≡ out.old.items ++ proto_facts at.now.program.now bases.now proto) }
{
    match at.proto(proto) {
        Some(proto) => add_proto_types(bases, proto, out),
        None => Ok(()),
    }
}

/// Adds the classes in the descriptor of a method number.
fn add_method_types(
    at: &At<'_>,
    bases: &[u32],
    number: u32,
    out: &mut Vec<Fact>,
) -> Result<(), AllocError>
    ensures { OnOk result (out.new.items ≡ out.old.items ++ method_types at.now.program.now bases.now number) }
{
    match at.method_name(number) {
        Some(name) => {
            add_kind(bases, name.class, out)?;
            add_proto(at, bases, name.proto, out)
        }
        None => Ok(()),
    }
}

/// Adds the classes in the descriptor of a field number.
fn add_field_types(
    at: &At<'_>,
    bases: &[u32],
    number: u32,
    out: &mut Vec<Fact>,
) -> Result<(), AllocError>
    ensures { OnOk result (out.new.items ≡ out.old.items ++ field_types at.now.program.now bases.now number) }
{
    match at.field_name(number) {
        Some(name) => {
            add_kind(bases, name.class, out)?;
            add_kind(bases, name.kind, out)
        }
        None => Ok(()),
    }
}

/// Adds the method at a place.
fn add_place(at: &At<'_>, place: MethodAt, out: &mut Vec<Fact>) -> Result<(), AllocError>
    ensures { OnOk result (out.new.items ≡ out.old.items ++ found_facts at.now.program.now (Some place)) }
{
    if let Some(method) = at.method_at(place) {
        out.push(Fact::Method(method.name))?;
    }
    Ok(())
}

/// Adds the method that was found, if there is one.
pub fn add_found(
    at: &At<'_>,
    found: Option<MethodAt>,
    out: &mut Vec<Fact>,
) -> Result<(), AllocError>
    ensures { OnOk result (out.new.items ≡ out.old.items ++ found_facts at.now.program.now found) }
{
    match found {
        Some(place) => add_place(at, place, out),
        None => Ok(()),
    }
}

/// Adds the field that a name resolves to.
fn add_field(at: &At<'_>, number: u32, out: &mut Vec<Fact>) -> Result<(), AllocError>
    ensures { IsResolved at.now.program.now at.now.hierarchy.now → OnOk result (out.new.items ≡ out.old.items ++ field_fact (resolved_field at.now.program.now number)) }
{
    if let Some(field) = at.resolved_field(number) {
        out.push(Fact::Field(field.name))?;
    }
    Ok(())
}

/// Adds what follows from the kind of a call in a live body, unless it is a super call.
fn add_call(
    at: &At<'_>,
    kind: InvokeKind,
    method: u32,
    out: &mut Vec<Fact>,
) -> Result<(), AllocError>
    ensures { IsResolved at.now.program.now at.now.hierarchy.now → OnOk result (out.new.items ≡ out.old.items ++ call_facts at.now.program.now kind method) }
{
    match kind {
        InvokeKind::Static | InvokeKind::Direct => {
            add_found(at, at.hierarchy.find_static(at.program, method), out)
        }
        InvokeKind::Super => Ok(()),
        InvokeKind::Virtual | InvokeKind::Interface => {
            out.push(Fact::Called(method))?;
            Ok(())
        }
    }
}

/// Adds the classes in the descriptor of a method number, and the method that it resolves to.
fn add_method_name(
    at: &At<'_>,
    bases: &[u32],
    number: u32,
    out: &mut Vec<Fact>,
) -> Result<(), AllocError>
    ensures { IsResolved at.now.program.now at.now.hierarchy.now → OnOk result (out.new.items ≡ out.old.items ++ method_facts at.now.program.now bases.now number) }
{
    add_method_types(at, bases, number, out)?;
    add_found(at, at.hierarchy.resolve_method(at.program, number), out)
}

/// Adds what follows from something that is named.
fn add_named(
    at: &At<'_>,
    bases: &[u32],
    named: Named,
    out: &mut Vec<Fact>,
) -> Result<(), AllocError>
    ensures { IsResolved at.now.program.now at.now.hierarchy.now → OnOk result (out.new.items ≡ out.old.items ++ named_facts at.now.program.now bases.now named) }
{
    match named {
        Named::Kind(kind) => add_kind(bases, kind, out),
        Named::Made(kind) => {
            add_kind(bases, kind, out)?;
            add_made(at, kind, out)
        }
        Named::Field(number) => {
            add_field_types(at, bases, number, out)?;
            add_field(at, number, out)
        }
        Named::Method(number) => add_method_name(at, bases, number, out),
        Named::Call { kind, method } => {
            add_method_name(at, bases, method, out)?;
            add_call(at, kind, method, out)
        }
    }
}

/// Adds what follows from all that is named.
fn add_all_named(
    at: &At<'_>,
    bases: &[u32],
    names: &[Named],
    out: &mut Vec<Fact>,
) -> Result<(), AllocError>
    ensures { IsResolved at.now.program.now at.now.hierarchy.now → OnOk result (out.new.items ≡ out.old.items ++ all_named at.now.program.now bases.now names.now) }
{
    for named in names {
        add_named(at, bases, *named, out)?;
    }
    Ok(())
}

/// Adds a virtual method with code.
fn add_coded(at: &At<'_>, method: &Method, out: &mut Vec<Fact>) -> Result<(), AllocError>
    ensures { IsResolved at.now.program.now at.now.hierarchy.now → OnOk result (out.new.items ≡ out.old.items ++ coded at.now.program.now method.now) }
{
    if at.hierarchy.is_virtual(method) && method.body.is_some() {
        out.push(Fact::Method(method.name))?;
    }
    Ok(())
}

/// Adds the virtual methods with code.
fn add_with_code(at: &At<'_>, methods: &[Method], out: &mut Vec<Fact>) -> Result<(), AllocError>
    ensures { IsResolved at.now.program.now at.now.hierarchy.now → OnOk result (out.new.items ≡ out.old.items ++ flat_map (coded at.now.program.now) methods.now) }
{
    for method in methods {
        add_coded(at, method, out)?;
    }
    Ok(())
}

/// Adds in version 037 the virtual methods with code of an interface.
fn add_defaults(at: &At<'_>, class: &Class, out: &mut Vec<Fact>) -> Result<(), AllocError>
    ensures { IsResolved at.now.program.now at.now.hierarchy.now → OnOk result (out.new.items ≡ out.old.items ++ follow.defaults_of at.now.program.now class.now) }
{
    match at.program.version {
        Version::V037 => {
            if class.flags.has(Flags::INTERFACE) {
                add_with_code(at, class.methods.as_slice(), out)
            } else {
                Ok(())
            }
        }
        Version::V035 => Ok(()),
    }
}

/// Adds what runs when a class is initialised; in version 037 with the virtual methods with code of an interface.
fn add_start(at: &At<'_>, place: u32, class: &Class, out: &mut Vec<Fact>) -> Result<(), AllocError>
    ensures { IsResolved at.now.program.now at.now.hierarchy.now → OnOk result (out.new.items ≡ out.old.items ++ start_facts at.now.program.now class.now place) }
{
    match at.hierarchy.initialiser_of(place) {
        Some(method) => {
            add_place(at, method, out)?;
            add_defaults(at, class, out)?;
            Ok(())
        }
        None => Ok(()),
    }
}

/// Adds the superclass and the interfaces of a class.
fn add_above(bases: &[u32], class: &Class, out: &mut Vec<Fact>) -> Result<(), AllocError>
    ensures { OnOk result (out.new.items ≡ out.old.items ++ above_facts bases.now class.now) }
{
    add_kind(bases, class.superclass, out)?;
    add_kinds(bases, class.interfaces.as_slice(), out)
}

/// Adds what the class at a place brings along.
fn add_class(
    alloc: Global,
    at: &At<'_>,
    bases: &[u32],
    place: u32,
    class: &Class,
    out: &mut Vec<Fact>,
) -> Result<(), AllocError>
    ensures { IsResolved at.now.program.now at.now.hierarchy.now → OnOk result (out.new.items ≡ out.old.items ++ follow.class_facts_of at.now.program.now bases.now place (Some class.now)) }
{
    add_above(bases, class, out)?;
    add_start(at, place, class, out)?;
    let mut names = Vec::new(alloc);
    add_marks(&mut names, class.marks.as_slice())?;
    add_all_named(at, bases, names.as_slice(), out)
}

/// Adds what a live class brings along by itself: its superclass, its interfaces, what runs when it is initialised, and
/// what its annotations name.
pub fn add_of_class(
    alloc: Global,
    at: &At<'_>,
    bases: &[u32],
    kind: u32,
    out: &mut Vec<Fact>,
) -> Result<(), AllocError>
    ensures { IsResolved at.now.program.now at.now.hierarchy.now → OnOk result (out.new.items ≡ out.old.items ++ class_facts at.now.program.now bases.now kind) }
{
    match at.hierarchy.place_of(kind) {
        Some(place) => match at.class_at(place) {
            Some(class) => add_class(alloc, at, bases, place, class, out),
            None => Ok(()),
        },
        None => Ok(()),
    }
}

/// What the annotations and the first value of a field name, as far as the program defines it.
fn names_of_field(alloc: Global, at: &At<'_>, number: u32) -> Result<Vec<Named>, AllocError>
    ensures { IsResolved at.now.program.now at.now.hierarchy.now → IfOk result (λ names. names.items ≡ follow.field_names (follow.own_field at.now.program.now number)) }
{
    let mut names = Vec::new(alloc);
    if let Some(field) = at.own_field(number) {
        add_marks(&mut names, field.marks.as_slice())?;
        add_first(&mut names, &field.first)?;
    }
    Ok(names)
}

/// Adds what follows from a live field: the classes in its descriptor, and what its annotations and its first value name.
pub fn add_of_field(
    alloc: Global,
    at: &At<'_>,
    bases: &[u32],
    number: u32,
    out: &mut Vec<Fact>,
) -> Result<(), AllocError>
    ensures { IsResolved at.now.program.now at.now.hierarchy.now → OnOk result (out.new.items ≡ out.old.items ++ field_facts at.now.program.now bases.now number) }
{
    add_field_types(at, bases, number, out)?;
    let names = names_of_field(alloc, at, number)?;
    add_all_named(at, bases, names.as_slice(), out)
}

/// What the annotations and the code of a method name, as far as the program defines it.
pub fn names_of_method(alloc: Global, at: &At<'_>, number: u32) -> Result<Vec<Named>, AllocError>
    ensures { IsResolved at.now.program.now at.now.hierarchy.now → IfOk result (λ names. names.items ≡ follow.names_of_method (follow.own_method at.now.program.now number)) }
{
    let mut names = Vec::new(alloc);
    if let Some(method) = at.own_method(number) {
        add_method(&mut names, method)?;
    }
    Ok(names)
}

/// Adds what follows from a live method whose annotations and code have these names, but for what its super calls find.
pub fn add_of_method(
    at: &At<'_>,
    bases: &[u32],
    number: u32,
    names: &[Named],
    out: &mut Vec<Fact>,
) -> Result<(), AllocError>
    ensures { IsResolved at.now.program.now at.now.hierarchy.now → OnOk result (out.new.items ≡ out.old.items ++ (method_types at.now.program.now bases.now number ++ all_named at.now.program.now bases.now names.now)) }
{
    add_method_types(at, bases, number, out)?;
    add_all_named(at, bases, names, out)
}
