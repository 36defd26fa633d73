//! What a static, direct or super call finds, and what an object of a class finds for a virtual call.

ghost use Rattle.std.specs.Prelude.{◌≡◌, ◌<◌, ℕ, [], ◌∷◌, true, flat_map, length, Some, None, slice_get, IfOk, vec_len};
ghost use Rattle.std.specs.List.{list_any};
ghost use Rattle.program_model.specs.declared.pools.MethodName.{MethodName};
ghost use Rattle.program_model.specs.Lookups.{class_place};
ghost use Rattle.program_model.specs.ProgramRules.{is_well_formed};
ghost use Rattle.class_defs.specs.Places.{super_place, interface_places, chain_of};
ghost use Rattle.class_defs.specs.Finding.{is_037, lists_interface, search_of, finds_from, finds_at, finds_among, finds_above, finds_super_037, finds_super};
ghost use Rattle.hierarchy.specs.Giving.{search_given};
ghost use Rattle.hierarchy.specs.Naming.{IsKey};
ghost use Rattle.hierarchy.specs.Shapes.{IsOf};
ghost use Rattle.call_graph.specs.Objects.{IsReady};
ghost use Rattle.call_graph.specs.Supers.{lists_at};
ghost use Rattle.call_targets.specs.Bound.{target_of, target_found, BindsTo};

use crate::above::climb;
use crate::looks::At;
use crate::marks::Marks;
use hierarchy::{Given, Hierarchy, Walk};
use program_model::{InvokeKind, MethodAt, Program, Version};
use std::alloc::{AllocError, Global};

/// What a call finds: one method of the program, none, so that the call belongs to the framework, or several default
/// methods that clash, so that it throws.
#[derive(Clone, Copy, PartialEq, Eq, Drop)]
pub enum Target {
    One(MethodAt),
    Nothing,
    Clash,
}

/// A target where there is a method.
fn target_of(found: Option<MethodAt>) -> Target
    ensures { result ≡ target_of found }
{
    match found {
        Some(method) => Target::One(method),
        None => Target::Nothing,
    }
}

/// What candidates give.
fn target_given(given: Given) -> Target
    ensures { result ≡ target_found (search_given given) }
{
    match given {
        Given::Nothing => Target::Nothing,
        Given::One(method) => Target::One(method),
        Given::Clash => Target::Clash,
    }
}

/// What the candidates of the interfaces of a class and of those above it give.
fn found_in_interfaces(
    alloc: Global,
    at: &At<'_>,
    class: u32,
    key: u32,
    walk: &mut Walk,
) -> Result<Target, AllocError>
    ensures ready { IsReady at.now.program.now walk.old → IsReady at.now.program.now walk.new }
    ensures is { IsOf at.now.program.now at.now.hierarchy.now → IsReady at.now.program.now walk.old → (name proto : ℕ)
        → IsKey at.now.program.now at.now.hierarchy.now key name proto
        → IfOk result (λ t. t ≡ target_found (finds_among at.now.program.now (flat_map (interface_places at.now.program.now) (chain_of at.now.program.now (Some class))) name proto)) }
{
    let mut candidates = Vec::new(alloc);
    at.hierarchy
        .candidates(at.program, class, key, walk, &mut candidates)?;
    Ok(target_given(at.hierarchy.given(at.program, &candidates, walk)?))
}

/// What an object of a class finds for a key: the first virtual method along the superclasses, else what the candidates
/// give.
pub(crate) fn found_on(
    alloc: Global,
    at: &At<'_>,
    class: u32,
    key: u32,
    walk: &mut Walk,
) -> Result<Target, AllocError>
    ensures ready { IsReady at.now.program.now walk.old → IsReady at.now.program.now walk.new }
    ensures is { IsOf at.now.program.now at.now.hierarchy.now → IsReady at.now.program.now walk.old → (name proto : ℕ)
        → IsKey at.now.program.now at.now.hierarchy.now key name proto → IfOk result (λ t. t ≡ target_found (finds_at at.now.program.now class name proto)) }
{
    match at.hierarchy.find_virtual(at.program, class, key) {
        Some(found) => Ok(Target::One(found)),
        None => match at.program.version {
            Version::V035 => Ok(Target::Nothing),
            Version::V037 => {
                let target = found_in_interfaces(alloc, at, class, key, walk)?;
                Ok(target)
            }
        },
    }
}

/// The first method with a key along the superclasses of a class.
fn found_above(at: &At<'_>, caller: u32, key: u32) -> Target
    ensures { IsOf at.now.program.now at.now.hierarchy.now → (name proto : ℕ) → IsKey at.now.program.now at.now.hierarchy.now key name proto
        → result ≡ target_found (search_of (finds_from at.now.program.now name proto (super_place at.now.program.now caller))) }
{
    match at.hierarchy.super_of(caller) {
        Some(above) => target_of(at.hierarchy.find_from(above, key)),
        None => Target::Nothing,
    }
}

/// What the candidates of an interface give.
fn found_in_interface(
    alloc: Global,
    at: &At<'_>,
    interface: u32,
    key: u32,
) -> Result<Target, AllocError>
    ensures { IsOf at.now.program.now at.now.hierarchy.now → (name proto : ℕ) → IsKey at.now.program.now at.now.hierarchy.now key name proto
        → IfOk result (λ t. t ≡ target_found (finds_among at.now.program.now (interface ∷ []) name proto)) }
{
    let mut walk = at.hierarchy.walk(alloc)?;
    let mut candidates = Vec::new(alloc);
    at.hierarchy
        .candidates_of(at.program, interface, key, &mut walk, &mut candidates)?;
    Ok(target_given(at.hierarchy.given(at.program, &candidates, &mut walk)?))
}

/// Whether the class of a type lists another type as an interface.
fn lists_at(at: &At<'_>, kind: u32, one: u32) -> bool
    ensures { IsOf at.now.program.now at.now.hierarchy.now → result ≡ lists_at at.now.program.now kind one }
{
    match at.class_of(one) {
        Some(class) => class.interfaces.as_slice().contains(&kind),
        None => false,
    }
}

/// Whether the class of one of these types lists a type as an interface.
fn one_lists(at: &At<'_>, kind: u32, kinds: &[u32]) -> bool
    ensures { IsOf at.now.program.now at.now.hierarchy.now → result ≡ list_any (lists_at at.now.program.now kind) kinds.now }
{
    for one in kinds {
        if lists_at(at, kind, *one) {
            return true;
        }
    }
    false
}

/// Whether a class, or one above it, lists a type as an interface.
fn lists_above(alloc: Global, at: &At<'_>, caller: u32, kind: u32) -> Result<bool, AllocError>
    ensures { is_well_formed at.now.program.now ≡ true → IsOf at.now.program.now at.now.hierarchy.now → IfOk result (λ b. b ≡ lists_interface at.now.program.now caller kind) }
{
    match at.class_at(caller) {
        Some(class) => {
            let mut marks = Marks::new(alloc, at.program.types.len())?;
            let kinds = climb(alloc, at, &mut marks, class.name, class.name)?;
            Ok(one_lists(at, kind, kinds.as_slice()))
        }
        None => Ok(false),
    }
}

/// What a super call of version 037 finds.
fn found_super_037(
    alloc: Global,
    at: &At<'_>,
    caller: u32,
    kind: u32,
    key: u32,
) -> Result<Target, AllocError>
    ensures { is_well_formed at.now.program.now ≡ true → IsOf at.now.program.now at.now.hierarchy.now → (q : MethodName)
        → IsKey at.now.program.now at.now.hierarchy.now key q.name q.proto → q.class ≡ kind
        → IfOk result (λ t. t ≡ target_found (finds_super_037 at.now.program.now caller q (class_place at.now.program.now kind))) }
{
    match at.hierarchy.place_of(kind) {
        Some(place) => {
            if at.is_interface(place) {
                let target = found_in_interface(alloc, at, place, key)?;
                Ok(target)
            } else {
                Ok(found_above(at, caller, key))
            }
        }
        None => {
            if lists_above(alloc, at, caller, kind)? {
                Ok(Target::Nothing)
            } else {
                Ok(found_above(at, caller, key))
            }
        }
    }
}

/// What a super call in a class finds.
fn found_super(alloc: Global, at: &At<'_>, caller: u32, method: u32) -> Result<Target, AllocError>
    ensures { is_well_formed at.now.program.now ≡ true → IsOf at.now.program.now at.now.hierarchy.now → IfOk result (λ t. t ≡ target_found (finds_super at.now.program.now caller method)) }
{
    let key = at.hierarchy.key_of_method(method);
    match at.method_name(method) {
        Some(name) => match at.program.version {
            Version::V035 => Ok(found_above(at, caller, key)),
            Version::V037 => {
                let target = found_super_037(alloc, at, caller, name.class, key)?;
                Ok(target)
            }
        },
        None => Ok(Target::Nothing),
    }
}

/// What a static, direct or super call in the class at a place finds by the method number that it names. A virtual or
/// interface call finds nothing by its name alone. The only error is want of memory.
pub fn bound_target(
    alloc: Global,
    program: &Program,
    hierarchy: &Hierarchy,
    caller: u32,
    kind: InvokeKind,
    method: u32,
) -> Result<Target, AllocError>
    ensures { IsOf program.now hierarchy.now → IfOk result (BindsTo program.now caller kind method) }
{
    let at = At { program, hierarchy };
    match kind {
        InvokeKind::Static | InvokeKind::Direct => {
            Ok(target_of(hierarchy.find_static(program, method)))
        }
        InvokeKind::Super => {
            let target = found_super(alloc, &at, caller, method)?;
            Ok(target)
        }
        InvokeKind::Virtual | InvokeKind::Interface => Ok(Target::Nothing),
    }
}
