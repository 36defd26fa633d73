//! Which classes have an ancestor that matches.

ghost use Rattle.std.specs.Prelude.{◌≡◌, ◌<◌, ◌^◌, ℕ, [], ◌∷◌, false, length, vec_len, IfOk, OnOk, option_and_then, slice_get};
ghost use Rattle.std.specs.Option.{option_copied};
ghost use Rattle.program_model.specs.Lookups.{class_place};
ghost use Rattle.dalvik_defs.specs.Naming.{type_at, named};
ghost use Rattle.hierarchy.specs.Shapes.{IsOf};
ghost use Rattle.rule_text.specs.Tokens.{Word};
ghost use Rattle.rule_text.specs.Rules as meant;
ghost use Rattle.rule_text.specs.Related.{IsAboveOf, IsPatternOf};
ghost use Rattle.rule_defs.specs.Patterns.{class_name_fits};
ghost use Rattle.keep_rules.specs.Table.{has};
ghost use Rattle.keep_rules.specs.View.{IsReady, is_below};
ghost use Rattle.keep_rules.specs.Rows.{row_in};
ghost use Rattle.keep_rules.specs.Below.{is_asked, has_mark_there, mark_holds_there, AddsAsked, AddsAbove, AddsClass, AreWanted, IsSearch, MarksSome, AreUnder};

use crate::access::mark_holds;
use crate::fit::class_fits;
use crate::marks::{is_marked, mark, unmarked};
use crate::names::{Candidates, candidates_of};
use crate::view::{View, class_at, descriptor, row_at};
use program_model::{Class, Program};
use rule_text::{Above, NamePattern};
use std::alloc::{AllocError, Global};

/// The class of a type.
fn class_of<'v>(view: &'v View<'_>, kind: u32) -> Option<&'v Class>
    ensures { IsOf view.now.program.now view.now.hierarchy.now
        → option_copied result ≡ option_and_then (slice_get view.now.program.now.classes) (class_place view.now.program.now kind) }
{
    match view.place_of(kind) {
        Some(place) => class_at(view.program, place),
        None => None,
    }
}

/// Whether the class of a type has an annotation that matches. Only a class of the program has annotations.
fn has_mark_there(
    view: &View<'_>,
    pattern: &NamePattern,
    kind: u32,
    row: &mut Vec<bool>,
) -> Result<bool, AllocError>
    ensures { (w : Word) → IsReady view.now → kind < length view.now.program.now.types → IsPatternOf pattern.now w
        → IfOk result (λ has. has ≡ has_mark_there (named view.now.program.now) w (type_at view.now.program.now kind)) }
{
    match class_of(view, kind) {
        Some(class) => mark_holds(pattern, view.program, class.marks.as_slice(), row),
        None => Ok(false),
    }
}

/// Whether the class of a type has the annotation that is asked of an ancestor, if one is.
fn mark_holds_there(
    view: &View<'_>,
    above: &Above,
    kind: u32,
    row: &mut Vec<bool>,
) -> Result<bool, AllocError>
    ensures { (a : meant.Above) → IsReady view.now → kind < length view.now.program.now.types → IsAboveOf above.now a
        → IfOk result (λ holds. holds ≡ mark_holds_there (named view.now.program.now) a.mark (type_at view.now.program.now kind)) }
{
    match &above.mark {
        None => Ok(true),
        Some(pattern) => has_mark_there(view, pattern, kind, row),
    }
}

/// Whether the type is what is asked of an ancestor.
fn is_wanted(
    view: &View<'_>,
    above: &Above,
    kind: u32,
    row: &mut Vec<bool>,
) -> Result<bool, AllocError>
    ensures { (a : meant.Above) → IsReady view.now → kind < length view.now.program.now.types → IsAboveOf above.now a
        → IfOk result (λ wanted. wanted ≡ is_asked view.now.program.now a kind) }
{
    let fits = class_fits(&above.name, descriptor(view.program, kind), row)?;
    if !fits {
        return Ok(false);
    }
    mark_holds_there(view, above, kind, row)
}

/// Whether some class stands directly below the type.
fn has_below(view: &View<'_>, kind: u32) -> bool
    ensures { IsReady view.now → kind < length view.now.program.now.types → result ≡ false → (place : ℕ) → is_below view.now.program.now kind place ≡ false }
{
    !row_at(view.below.as_slice(), kind).is_empty()
}

/// Adds the type if it is what is asked of an ancestor.
fn add_wanted(
    view: &View<'_>,
    above: &Above,
    kind: u32,
    kinds: &mut Vec<u32>,
    row: &mut Vec<bool>,
) -> Result<(), AllocError>
    ensures { (a : meant.Above) → IsReady view.now → kind < length view.now.program.now.types → IsAboveOf above.now a
        → OnOk result (AddsAsked view.now.program.now a kind kinds.old.items kinds.new.items) }
{
    let wanted = is_wanted(view, above, kind, row)?;
    if !wanted {
        return Ok(());
    }
    kinds.push(kind)?;
    Ok(())
}

/// Adds the type if it is what is asked of an ancestor and some class stands directly below it.
fn add_above(
    view: &View<'_>,
    above: &Above,
    kind: u32,
    kinds: &mut Vec<u32>,
    row: &mut Vec<bool>,
) -> Result<(), AllocError>
    ensures { (a : meant.Above) → IsReady view.now → kind < length view.now.program.now.types → IsAboveOf above.now a
        → OnOk result (AddsAbove view.now.program.now a kind kinds.old.items kinds.new.items) }
{
    let has = has_below(view, kind);
    if !has {
        return Ok(());
    }
    add_wanted(view, above, kind, kinds, row)?;
    Ok(())
}

/// Adds all types that are what is asked of an ancestor.
fn add_all(
    view: &View<'_>,
    above: &Above,
    kinds: &mut Vec<u32>,
    row: &mut Vec<bool>,
) -> Result<(), AllocError>
    requires { kinds.old.items ≡ [] }
    ensures { (a : meant.Above) → IsReady view.now → IsAboveOf above.now a → OnOk result (AreWanted view.now.program.now a kinds.new.items) }
{
    for kind in 0..view.program.types.len() as u32 {
        add_above(view, above, kind, kinds, row)?;
    }
    Ok(())
}

/// The types that are what is asked of an ancestor.
fn wanted(
    alloc: Global,
    view: &View<'_>,
    above: &Above,
    row: &mut Vec<bool>,
) -> Result<Vec<u32>, AllocError>
    ensures { (a : meant.Above) → IsReady view.now → IsAboveOf above.now a → IfOk result (λ kinds. AreWanted view.now.program.now a kinds.items) }
{
    let mut kinds = Vec::new(alloc);
    match candidates_of(alloc, view, &above.name)? {
        Candidates::Type(kind) => add_wanted(view, above, kind, &mut kinds, row)?,
        Candidates::None => {}
        Candidates::All => add_all(view, above, &mut kinds, row)?,
    }
    Ok(kinds)
}

/// Adds the type of the class at a place.
fn add_class(program: &Program, place: u32, kinds: &mut Vec<u32>) -> Result<(), AllocError>
    ensures { OnOk result (AddsClass program.now place kinds.old.items kinds.new.items) }
{
    if let Some(class) = class_at(program, place) {
        kinds.push(class.name)?;
    }
    Ok(())
}

/// Marks the class at a place and adds its type, unless it is marked.
fn mark_class(
    program: &Program,
    place: u32,
    under: &mut Vec<bool>,
    kinds: &mut Vec<u32>,
) -> Result<(), AllocError>
    ensures { OnOk result (MarksSome program.now (place ∷ []) under.old.items under.new.items kinds.old.items kinds.new.items) }
{
    let marked = is_marked(under.as_slice(), place);
    if marked {
        return Ok(());
    }
    mark(under, place);
    add_class(program, place, kinds)?;
    Ok(())
}

/// Marks the classes at these places, and adds their types to those that are to be gone through.
fn mark_classes(
    program: &Program,
    places: &[u32],
    under: &mut Vec<bool>,
    kinds: &mut Vec<u32>,
) -> Result<(), AllocError>
    ensures { OnOk result (MarksSome program.now places.now under.old.items under.new.items kinds.old.items kinds.new.items) }
{
    for place in places {
        mark_class(program, *place, under, kinds)?;
    }
    Ok(())
}

/// Marks the classes directly below a type, and adds their types to those that are to be gone through.
fn mark_below(
    view: &View<'_>,
    kind: u32,
    under: &mut Vec<bool>,
    kinds: &mut Vec<u32>,
) -> Result<(), AllocError>
    ensures { OnOk result (MarksSome view.now.program.now (row_in view.now.below.items kind) under.old.items under.new.items kinds.old.items kinds.new.items) }
{
    let places = row_at(view.below.as_slice(), kind);
    mark_classes(view.program, places, under, kinds)?;
    Ok(())
}

/// The number at a place.
fn number_at(numbers: &[u32], at: usize) -> Option<u32>
    ensures { result ≡ slice_get numbers.now at }
{
    match numbers.get(at) {
        Some(number) => Some(*number),
        None => None,
    }
}

/// Marks all classes below the types. More than 2^64 steps are answered as want of memory.
fn search(view: &View<'_>, under: &mut Vec<bool>, kinds: &mut Vec<u32>) -> Result<(), AllocError>
    ensures { (a : meant.Above) → IsReady view.now → IsSearch view.now.program.now a under.old.items kinds.old.items 0 → OnOk result (AreUnder view.now.program.now a under.new.items) }
{
    for at in 0..usize::MAX {
        match number_at(kinds.as_slice(), at) {
            Some(kind) => mark_below(view, kind, under, kinds)?,
            None => return Ok(()),
        }
    }
    Err(AllocError)
}

/// For each class, by its place, whether some proper ancestor is what is asked for, through classes of the program and
/// the first names above them.
pub fn classes_under(
    alloc: Global,
    view: &View<'_>,
    above: &Above,
    row: &mut Vec<bool>,
) -> Result<Vec<bool>, AllocError>
    ensures { (a : meant.Above) → IsReady view.now → IsAboveOf above.now a → IfOk result (λ under. AreUnder view.now.program.now a under.items) }
{
    let mut under = unmarked(alloc, view.program.classes.len())?;
    let mut kinds = wanted(alloc, view, above, row)?;
    search(view, &mut under, &mut kinds)?;
    Ok(under)
}
