//! What super calls find.

ghost use Rattle.std.specs.Prelude.{◌≡◌, ◌<◌, ◌++◌, ◌∷◌, [], ℕ, true, false, nat_eq, slice_get, Some, None, vec_len, length, IfOk, OnOk, Decides};
ghost use Rattle.std.specs.List.{list_any};
ghost use Rattle.program_model.specs.declared.pools.MethodName.{MethodName};
ghost use Rattle.program_model.specs.ProgramRules.{is_well_formed};
ghost use Rattle.class_defs.specs.Members.{is_interface};
ghost use Rattle.class_defs.specs.Places.{super_place};
ghost use Rattle.class_defs.specs.Finding.{is_037, candidates};
ghost use Rattle.hierarchy.specs.Naming.{IsKey};
ghost use Rattle.hierarchy.specs.Shapes.{IsResolved};
ghost use Rattle.call_graph.specs.Above.{IsClean};
ghost use Rattle.call_graph.specs.Follows.{found_facts};
ghost use Rattle.call_graph.specs.Least.{AddsOnly, SuperFrom};
ghost use Rattle.call_graph.specs.Objects.{all_found, AreNotes, IsReady, SameNotes};
ghost use Rattle.call_graph.specs.Supers.{lists_at, above_call, interface_call, ListsAbove, AddsSuper, AddsSupers};
ghost use Rattle.call_graph.specs.Stays.{Stays};

use crate::above::climb;
use crate::at::At;
use crate::facts::Fact;
use crate::follow::add_found;
use crate::marks::Marks;
use crate::named::Named;
use crate::notes::Notes;
use hierarchy::Walk;
use program_model::{Flags, InvokeKind, MethodAt, MethodName, Version};
use std::alloc::{AllocError, Global};

/// Adds the methods at the places.
pub fn add_all_found(at: &At<'_>, found: &[MethodAt], out: &mut Vec<Fact>) -> Result<(), AllocError>
    ensures { OnOk result (out.new.items ≡ out.old.items ++ all_found at.now.program.now found.now) }
{
    for place in found {
        add_found(at, Some(*place), out)?;
    }
    Ok(())
}

/// Whether the class of a type lists another type as an interface.
fn lists_at(at: &At<'_>, kind: u32, one: u32) -> bool
    ensures { IsResolved at.now.program.now at.now.hierarchy.now → result ≡ lists_at at.now.program.now kind one }
{
    match at.class_of(one) {
        Some(class) => class.interfaces.as_slice().contains(&kind),
        None => false,
    }
}

/// Whether the class of one of these types lists a type as an interface.
fn one_lists(at: &At<'_>, kind: u32, kinds: &[u32]) -> bool
    ensures { IsResolved at.now.program.now at.now.hierarchy.now → result ≡ list_any (lists_at at.now.program.now kind) kinds.now }
{
    for one in kinds {
        if lists_at(at, kind, *one) {
            return true;
        }
    }
    false
}

/// Whether a class, named by its type, or a program class above it lists a type as an interface.
pub fn lists_above(
    alloc: Global,
    at: &At<'_>,
    marks: &mut Marks,
    class: u32,
    kind: u32,
) -> Result<bool, AllocError>
    ensures size { OnOk result (vec_len marks.new.marks ≡ vec_len marks.old.marks) }
    ensures clean { IsResolved at.now.program.now at.now.hierarchy.now → IsClean marks.old → OnOk result (IsClean marks.new) }
    ensures decides { IsResolved at.now.program.now at.now.hierarchy.now → is_well_formed at.now.program.now ≡ true → vec_len marks.old.marks ≡ length at.now.program.now.types → IsClean marks.old → class < length at.now.program.now.types → IfOk result (λ b. Decides b (ListsAbove at.now.program.now class kind)) }
{
    let above = climb(alloc, at, marks, class, class)?;
    Ok(one_lists(at, kind, above.as_slice()))
}

/// Whether the class at a place is an interface.
pub fn is_interface(at: &At<'_>, place: u32) -> bool
    ensures { result ≡ is_interface (slice_get at.now.program.now.classes place) }
{
    match at.class_at(place) {
        Some(class) => class.flags.has(Flags::INTERFACE),
        None => false,
    }
}

/// Adds the first method with a key along the superclasses of a class.
fn add_above(at: &At<'_>, caller: u32, key: u32, out: &mut Vec<Fact>) -> Result<(), AllocError>
    ensures adds { IsResolved at.now.program.now at.now.hierarchy.now → (q : MethodName) → IsKey at.now.program.now at.now.hierarchy.now key q.name q.proto → OnOk result (out.new.items ≡ out.old.items ++ all_found at.now.program.now (above_call at.now.program.now caller q)) }
    ensures stays { OnOk result (Stays out.old.items out.new.items) }
{
    match at.hierarchy.super_of(caller) {
        Some(above) => {
            add_found(at, at.hierarchy.find_from(above, key), out)?;
            Ok(())
        }
        None => Ok(()),
    }
}

/// Adds the candidates of an interface for a key.
fn add_candidates(
    alloc: Global,
    at: &At<'_>,
    walk: &mut Walk,
    interface: u32,
    key: u32,
    out: &mut Vec<Fact>,
) -> Result<(), AllocError>
    ensures adds { IsResolved at.now.program.now at.now.hierarchy.now → IsReady at.now.program.now walk.old → (name proto : ℕ) → IsKey at.now.program.now at.now.hierarchy.now key name proto → OnOk result (out.new.items ≡ out.old.items ++ all_found at.now.program.now (candidates at.now.program.now (interface ∷ []) name proto)) }
    ensures stays { OnOk result (Stays out.old.items out.new.items) }
    ensures ready { IsReady at.now.program.now walk.old → OnOk result (IsReady at.now.program.now walk.new) }
{
    let mut candidates = Vec::new(alloc);
    at.hierarchy
        .candidates_of(at.program, interface, key, walk, &mut candidates)?;
    add_all_found(at, candidates.as_slice(), out)?;
    Ok(())
}

/// Adds what a super call of version 037 finds that names a program class: all candidates of an interface, else the first
/// method along the superclasses of the caller.
fn add_super_of_class(
    alloc: Global,
    at: &At<'_>,
    walk: &mut Walk,
    named: u32,
    caller: u32,
    key: u32,
    out: &mut Vec<Fact>,
) -> Result<(), AllocError>
    ensures adds { IsResolved at.now.program.now at.now.hierarchy.now → IsReady at.now.program.now walk.old → (q : MethodName) → IsKey at.now.program.now at.now.hierarchy.now key q.name q.proto → OnOk result (out.new.items ≡ out.old.items ++ all_found at.now.program.now (interface_call at.now.program.now caller q named (is_interface (slice_get at.now.program.now.classes named)))) }
    ensures stays { OnOk result (Stays out.old.items out.new.items) }
    ensures ready { IsReady at.now.program.now walk.old → OnOk result (IsReady at.now.program.now walk.new) }
{
    if is_interface(at, named) {
        add_candidates(alloc, at, walk, named, key, out)?;
        Ok(())
    } else {
        add_above(at, caller, key, out)?;
        Ok(())
    }
}

/// Adds what a super call of version 037 finds in a class: all candidates of a program interface that it names, nothing
/// where it names an interface of the framework that the class or a program class above it lists, and else the first
/// method along the superclasses.
fn add_super_037(
    alloc: Global,
    at: &At<'_>,
    notes: &mut Notes,
    caller: (u32, u32),
    name: &MethodName,
    key: u32,
    out: &mut Vec<Fact>,
) -> Result<(), AllocError>
    ensures stays { OnOk result (Stays out.old.items out.new.items) }
    ensures same { OnOk result (SameNotes notes.old notes.new) }
    ensures are { IsResolved at.now.program.now at.now.hierarchy.now → AreNotes at.now.program.now notes.old → OnOk result (AreNotes at.now.program.now notes.new) }
    ensures finds { IsResolved at.now.program.now at.now.hierarchy.now → is_well_formed at.now.program.now ≡ true → AreNotes at.now.program.now notes.old → caller.0 < length at.now.program.now.types → (q : MethodName) → q ≡ name.now → IsKey at.now.program.now at.now.hierarchy.now key q.name q.proto → is_037 at.now.program.now.version ≡ true → OnOk result (AddsSuper at.now.program.now caller.0 caller.1 q out.old.items out.new.items) }
{
    match at.hierarchy.place_of(name.class) {
        Some(named) => {
            add_super_of_class(alloc, at, &mut notes.classes, named, caller.1, key, out)?;
            Ok(())
        }
        None => {
            if lists_above(alloc, at, &mut notes.kinds, caller.0, name.class)? {
                return Ok(());
            }
            add_above(at, caller.1, key, out)?;
            Ok(())
        }
    }
}

/// Adds what a super call of a method number finds in a class, which is named by its type and its place.
fn add_super(
    alloc: Global,
    at: &At<'_>,
    notes: &mut Notes,
    caller: (u32, u32),
    method: u32,
    out: &mut Vec<Fact>,
) -> Result<(), AllocError>
    ensures stays { OnOk result (Stays out.old.items out.new.items) }
    ensures same { OnOk result (SameNotes notes.old notes.new) }
    ensures are { IsResolved at.now.program.now at.now.hierarchy.now → AreNotes at.now.program.now notes.old → OnOk result (AreNotes at.now.program.now notes.new) }
    ensures finds { IsResolved at.now.program.now at.now.hierarchy.now → is_well_formed at.now.program.now ≡ true → AreNotes at.now.program.now notes.old → caller.0 < length at.now.program.now.types → (q : MethodName) → slice_get at.now.program.now.methods method ≡ Some q → OnOk result (AddsSuper at.now.program.now caller.0 caller.1 q out.old.items out.new.items) }
    ensures none { slice_get at.now.program.now.methods method ≡ None → OnOk result (out.new.items ≡ out.old.items) }
{
    let name = match at.method_name(method) {
        Some(name) => name,
        None => return Ok(()),
    };
    let key = at.hierarchy.key_of_method(method);
    match at.program.version {
        Version::V035 => {
            add_above(at, caller.1, key, out)?;
            Ok(())
        }
        Version::V037 => add_super_037(alloc, at, notes, caller, name, key, out),
    }
}

/// Adds what a name says of super calls in a class.
fn add_super_named(
    alloc: Global,
    at: &At<'_>,
    notes: &mut Notes,
    caller: (u32, u32),
    named: Named,
    out: &mut Vec<Fact>,
) -> Result<(), AllocError>
    ensures stays { OnOk result (Stays out.old.items out.new.items) }
    ensures same { OnOk result (SameNotes notes.old notes.new) }
    ensures are { IsResolved at.now.program.now at.now.hierarchy.now → AreNotes at.now.program.now notes.old → OnOk result (AreNotes at.now.program.now notes.new) }
    ensures finds { IsResolved at.now.program.now at.now.hierarchy.now → is_well_formed at.now.program.now ≡ true → AreNotes at.now.program.now notes.old → caller.0 < length at.now.program.now.types → OnOk result (AddsSupers at.now.program.now caller.0 caller.1 (named ∷ []) out.new.items) }
    ensures only { IsResolved at.now.program.now at.now.hierarchy.now → is_well_formed at.now.program.now ≡ true → AreNotes at.now.program.now notes.old → caller.0 < length at.now.program.now.types
        → OnOk result (AddsOnly (SuperFrom at.now.program.now caller.0 caller.1 (named ∷ [])) out.old.items out.new.items) }
{
    match named {
        Named::Call {
            kind: InvokeKind::Super,
            method,
        } => {
            add_super(alloc, at, notes, caller, method, out)?;
            Ok(())
        }
        _ => Ok(()),
    }
}

/// Adds what the super calls among these names find in a class, which is named by its type and its place.
pub fn add_supers(
    alloc: Global,
    at: &At<'_>,
    notes: &mut Notes,
    caller: (u32, u32),
    names: &[Named],
    out: &mut Vec<Fact>,
) -> Result<(), AllocError>
    ensures stays { OnOk result (Stays out.old.items out.new.items) }
    ensures same { OnOk result (SameNotes notes.old notes.new) }
    ensures are { IsResolved at.now.program.now at.now.hierarchy.now → AreNotes at.now.program.now notes.old → OnOk result (AreNotes at.now.program.now notes.new) }
    ensures finds { IsResolved at.now.program.now at.now.hierarchy.now → is_well_formed at.now.program.now ≡ true → AreNotes at.now.program.now notes.old → caller.0 < length at.now.program.now.types → OnOk result (AddsSupers at.now.program.now caller.0 caller.1 names.now out.new.items) }
    ensures only { IsResolved at.now.program.now at.now.hierarchy.now → is_well_formed at.now.program.now ≡ true → AreNotes at.now.program.now notes.old → caller.0 < length at.now.program.now.types
        → OnOk result (AddsOnly (SuperFrom at.now.program.now caller.0 caller.1 names.now) out.old.items out.new.items) }
{
    for named in names {
        add_super_named(alloc, at, notes, caller, *named, out)?;
    }
    Ok(())
}
