//! What the names of fields and methods resolve to.

ghost use Rattle.std.specs.Prelude.{◌≡◌, ◌+◌, [], None, Some, ℕ, length, map, slice_get, IfOk, OnOk, vec_len};
ghost use Rattle.program_model.specs.declared.program.Program.{Program};
ghost use Rattle.class_defs.specs.Finding.{first_among, field_from, field_by, resolution_of};
ghost use Rattle.class_defs.specs.Members.{own_method};
ghost use Rattle.class_defs.specs.Places.{chain_of};
ghost use Rattle.hierarchy.specs.Naming.{IsKey, IsFieldKey};
ghost use Rattle.hierarchy.specs.Shapes.{IsOf, AreTargets};
ghost use Rattle.hierarchy.specs.Walking.{waits, IsFair, IsSpent, IsClear, in_interfaces, in_lists, method_by};

use crate::build::{Hierarchy, Targets};
use crate::members::key_of;
use crate::table::word;
use crate::walk::Walk;
use program_model::{FieldName, MethodAt, MethodName, Program};
use std::alloc::{AllocError, Global};

/// Where the field with the key is found that a class gives: its own, else what its interfaces and then its superclass
/// give, each in turn.
fn field_from(
    tables: &Hierarchy,
    walk: &mut Walk,
    class: u32,
    key: u32,
) -> Result<Option<(u32, u32)>, AllocError>
    ensures fair { OnOk result (IsFair walk.old → IsFair walk.new) }
    ensures size { OnOk result (length walk.new.seen.items ≡ length walk.old.seen.items) }
    ensures is { (p : Program) (name kind : ℕ) → IsOf p tables.now → IsFieldKey p tables.now key name kind → IsFair walk.old → length walk.old.seen.items ≡ length p.classes → IfOk result (λ r. r ≡ field_from (length p.classes) p name kind class) }
{
    walk.clear();
    walk.push(class)?;
    while let Some(one) = walk.pop() {
        let found = tables.named.fields.find(one, key);
        let list = tables.shape.lists.row(one);
        match walk.visit(one, found, list, tables.super_of(one))? {
            Some(place) => return Ok(Some((one, place))),
            None => {}
        }
    }
    Ok(None)
}

/// The first method with the key in the interfaces that wait and in those above them, each followed by those above it.
fn method_in_interfaces(
    tables: &Hierarchy,
    walk: &mut Walk,
    key: u32,
) -> Result<Option<MethodAt>, AllocError>
    ensures fair { OnOk result (IsFair walk.old → IsFair walk.new) }
    ensures size { OnOk result (length walk.new.seen.items ≡ length walk.old.seen.items) }
    ensures is { (p : Program) (name proto : ℕ) → IsOf p tables.now → IsKey p tables.now key name proto → IsSpent (in_interfaces p name proto) (length p.classes) walk.old.seen.items → IfOk result (λ r. r ≡ first_among (in_interfaces p name proto) (waits walk.old)) }
    ensures spent { (p : Program) (name proto : ℕ) → IsOf p tables.now → IsKey p tables.now key name proto → IsSpent (in_interfaces p name proto) (length p.classes) walk.old.seen.items → IfOk result (λ r. r ≡ None → (waits walk.new ≡ []) × IsSpent (in_interfaces p name proto) (length p.classes) walk.new.seen.items) }
{
    while let Some(one) = walk.pop() {
        let found = tables.named.methods.find(one, key);
        match walk.visit(one, found, tables.shape.lists.row(one), None)? {
            Some(place) => return Ok(Some(MethodAt { class: one, place })),
            None => {}
        }
    }
    Ok(None)
}

/// The first method with the key in the interfaces of a class, then in those of its superclasses, each in turn.
fn method_above(
    tables: &Hierarchy,
    walk: &mut Walk,
    class: u32,
    key: u32,
) -> Result<Option<MethodAt>, AllocError>
    ensures fair { OnOk result (IsFair walk.old → IsFair walk.new) }
    ensures size { OnOk result (length walk.new.seen.items ≡ length walk.old.seen.items) }
    ensures is { (p : Program) (name proto : ℕ) → IsOf p tables.now → IsKey p tables.now key name proto → IsClear (length p.classes) walk.old → IfOk result (λ r. r ≡ first_among (in_lists p name proto) (chain_of p (Some class))) }
{
    let mut at = Some(class);
    for done in 0..tables.shape.supers.len() {
        let one = match at {
            Some(one) => one,
            None => break,
        };
        walk.push_all(tables.shape.lists.row(one))?;
        match method_in_interfaces(tables, walk, key)? {
            Some(found) => return Ok(Some(found)),
            None => at = tables.super_of(one),
        }
    }
    Ok(None)
}

/// Where the method with the key is found along a class and its superclasses, then in their interfaces.
fn method_from(
    tables: &Hierarchy,
    walk: &mut Walk,
    class: u32,
    key: u32,
) -> Result<Option<MethodAt>, AllocError>
    ensures fair { OnOk result (IsFair walk.old → IsFair walk.new) }
    ensures size { OnOk result (length walk.new.seen.items ≡ length walk.old.seen.items) }
    ensures is { (p : Program) (name proto : ℕ) → IsOf p tables.now → IsKey p tables.now key name proto → IsFair walk.old → length walk.old.seen.items ≡ length p.classes → IfOk result (λ r. r ≡ first_among (own_method p name proto) (resolution_of p (Some class))) }
{
    match tables.find_from(class, key) {
        Some(found) => Ok(Some(found)),
        None => {
            walk.clear();
            method_above(tables, walk, class, key)
        }
    }
}

/// What a field number resolves to.
fn field_target(
    tables: &Hierarchy,
    walk: &mut Walk,
    number: u32,
    field: &FieldName,
) -> Result<Option<(u32, u32)>, AllocError>
    ensures fair { OnOk result (IsFair walk.old → IsFair walk.new) }
    ensures size { OnOk result (length walk.new.seen.items ≡ length walk.old.seen.items) }
    ensures is { (p : Program) → IsOf p tables.now → slice_get p.fields number ≡ Some field.now → IsFair walk.old → length walk.old.seen.items ≡ length p.classes → IfOk result (λ r. r ≡ field_by p (Some field.now)) }
{
    let key = key_of(tables.named.field_keys.keys.as_slice(), number);
    match tables.place_of(field.class) {
        Some(class) => field_from(tables, walk, class, key),
        None => Ok(None),
    }
}

/// What each field number resolves to.
fn field_targets(
    alloc: Global,
    fields: &[FieldName],
    tables: &Hierarchy,
    walk: &mut Walk,
) -> Result<Vec<Option<(u32, u32)>>, AllocError>
    ensures fair { OnOk result (IsFair walk.old → IsFair walk.new) }
    ensures size { OnOk result (length walk.new.seen.items ≡ length walk.old.seen.items) }
    ensures is { (p : Program) → IsOf p tables.now → fields.now ≡ p.fields → IsFair walk.old → length walk.old.seen.items ≡ length p.classes → IfOk result (λ targets. targets.items ≡ map (λ f. field_by p (Some f)) fields.now) }
{
    let mut targets = Vec::new(alloc);
    for (number, field) in fields.iter().enumerate() {
        targets.push(field_target(tables, walk, word(number), field)?)?;
    }
    Ok(targets)
}

/// What a method number resolves to.
fn method_target(
    tables: &Hierarchy,
    walk: &mut Walk,
    number: u32,
    method: &MethodName,
) -> Result<Option<MethodAt>, AllocError>
    ensures fair { OnOk result (IsFair walk.old → IsFair walk.new) }
    ensures size { OnOk result (length walk.new.seen.items ≡ length walk.old.seen.items) }
    ensures is { (p : Program) → IsOf p tables.now → slice_get p.methods number ≡ Some method.now → IsFair walk.old → length walk.old.seen.items ≡ length p.classes → IfOk result (λ r. r ≡ method_by p method.now) }
{
    let key = tables.key_of_method(number);
    match tables.place_of(method.class) {
        Some(class) => method_from(tables, walk, class, key),
        None => Ok(None),
    }
}

/// What each method number resolves to.
fn method_targets(
    alloc: Global,
    methods: &[MethodName],
    tables: &Hierarchy,
    walk: &mut Walk,
) -> Result<Vec<Option<MethodAt>>, AllocError>
    ensures fair { OnOk result (IsFair walk.old → IsFair walk.new) }
    ensures is { (p : Program) → IsOf p tables.now → methods.now ≡ p.methods → IsFair walk.old → length walk.old.seen.items ≡ length p.classes → IfOk result (λ targets. targets.items ≡ map (method_by p) methods.now) }
{
    let mut targets = Vec::new(alloc);
    for (number, method) in methods.iter().enumerate() {
        targets.push(method_target(tables, walk, word(number), method)?)?;
    }
    Ok(targets)
}

/// What all field and method numbers resolve to.
pub fn resolve_all(
    alloc: Global,
    program: &Program,
    tables: &Hierarchy,
) -> Result<Targets, AllocError>
    ensures { IsOf program.now tables.now → IfOk result (λ targets. AreTargets program.now targets) }
{
    let mut walk = tables.walk(alloc)?;
    let fields = field_targets(alloc, program.fields.as_slice(), tables, &mut walk)?;
    let methods = method_targets(alloc, program.methods.as_slice(), tables, &mut walk)?;
    Ok(Targets { fields, methods })
}
