//! Whether a class or one above it lists a type as an interface.

ghost use Rattle.std.specs.Prelude.{◌≡◌, ◌+◌, ◌∷◌, [], ℕ, length, IfOk, OnOk};
ghost use Rattle.program_model.specs.declared.program.Program.{Program};
ghost use Rattle.class_defs.specs.Finding.{beside, lists_interface};
ghost use Rattle.class_defs.specs.Places.{above_places};
ghost use Rattle.hierarchy.specs.Shapes.{IsOf};
ghost use Rattle.hierarchy.specs.Walking.{waits, IsFair};
ghost use Rattle.dalvik_lookups.specs.Listing.{lists, lists_at, left, Grows, Climbs};

use hierarchy::{Hierarchy, Walk};
use program_model::{Class, Program};
use std::alloc::AllocError;

/// Whether a type stands in the interface list of a class.
fn lists(class: &Class, kind: u32) -> bool
    ensures { result ≡ lists kind class.now }
{
    for one in class.interfaces.as_slice() {
        if kind == *one {
            return true;
        }
    }
    false
}

/// Whether a type stands in the interface list of the class at a place.
fn lists_at(program: &Program, kind: u32, class: u32) -> bool
    ensures { result ≡ lists_at program.now kind class }
{
    match program.classes.as_slice().get(class as usize) {
        Some(found) => lists(found, kind),
        None => false,
    }
}

/// Sees a class and lets it wait, unless it was seen before.
pub(crate) fn enter(walk: &mut Walk, class: u32) -> Result<(), AllocError>
    ensures fair { IsFair walk.old → IsFair walk.new }
    ensures size { length walk.new.seen.items ≡ length walk.old.seen.items }
    ensures grows { OnOk result (Grows (class ∷ []) walk.old.seen.items (waits walk.old) walk.new.seen.items (waits walk.new)) }
    ensures left { OnOk result (left walk.new.seen.items + length (waits walk.new) ≡ left walk.old.seen.items + length (waits walk.old)) }
{
    if walk.see(class)? {
        walk.push(class)?;
    }
    Ok(())
}

/// The same of some classes.
fn enter_all(walk: &mut Walk, classes: &[u32]) -> Result<(), AllocError>
    ensures fair { IsFair walk.old → IsFair walk.new }
    ensures size { length walk.new.seen.items ≡ length walk.old.seen.items }
    ensures grows { OnOk result (Grows classes.now walk.old.seen.items (waits walk.old) walk.new.seen.items (waits walk.new)) }
    ensures left { OnOk result (left walk.new.seen.items + length (waits walk.new) ≡ left walk.old.seen.items + length (waits walk.old)) }
{
    for class in classes {
        enter(walk, *class)?;
    }
    Ok(())
}

/// The same of a class, if there is one.
fn enter_one(walk: &mut Walk, class: Option<u32>) -> Result<(), AllocError>
    ensures fair { IsFair walk.old → IsFair walk.new }
    ensures size { length walk.new.seen.items ≡ length walk.old.seen.items }
    ensures grows { OnOk result (Grows (beside class) walk.old.seen.items (waits walk.old) walk.new.seen.items (waits walk.new)) }
    ensures left { OnOk result (left walk.new.seen.items + length (waits walk.new) ≡ left walk.old.seen.items + length (waits walk.old)) }
{
    if let Some(one) = class {
        enter(walk, one)?;
    }
    Ok(())
}

/// The same of the classes directly above one.
pub(crate) fn enter_above(
    hierarchy: &Hierarchy,
    walk: &mut Walk,
    class: u32,
) -> Result<(), AllocError>
    ensures fair { IsFair walk.old → IsFair walk.new }
    ensures size { length walk.new.seen.items ≡ length walk.old.seen.items }
    ensures grows { (p : Program) → IsOf p hierarchy.now → OnOk result (Grows (above_places p class) walk.old.seen.items (waits walk.old) walk.new.seen.items (waits walk.new)) }
    ensures left { OnOk result (left walk.new.seen.items + length (waits walk.new) ≡ left walk.old.seen.items + length (waits walk.old)) }
{
    enter_one(walk, hierarchy.super_of(class))?;
    enter_all(walk, hierarchy.interfaces_of(class))?;
    Ok(())
}

/// Whether one of the classes that the walk comes to lists a type, where a class was just entered.
fn climb(
    program: &Program,
    hierarchy: &Hierarchy,
    kind: u32,
    walk: &mut Walk,
) -> Result<bool, AllocError>
    ensures fair { IsFair walk.old → IsFair walk.new }
    ensures size { length walk.new.seen.items ≡ length walk.old.seen.items }
    ensures is { (class : ℕ) → IsOf program.now hierarchy.now → Climbs program.now class (lists_at program.now kind) walk.old.seen.items (waits walk.old) → IfOk result (λ b. b ≡ lists_interface program.now class kind) }
{
    while let Some(one) = walk.pop() {
        if lists_at(program, kind, one) {
            return Ok(true);
        }
        enter_above(hierarchy, walk, one)?;
    }
    Ok(false)
}

/// Whether a type stands in the interface list of a class or of a program class above it.
pub(crate) fn lists_above(
    program: &Program,
    hierarchy: &Hierarchy,
    class: u32,
    kind: u32,
    walk: &mut Walk,
) -> Result<bool, AllocError>
    ensures fair { IsFair walk.old → IsFair walk.new }
    ensures size { length walk.new.seen.items ≡ length walk.old.seen.items }
    ensures is { IsOf program.now hierarchy.now → IsFair walk.old → length walk.old.seen.items ≡ length program.now.classes → IfOk result (λ b. b ≡ lists_interface program.now class kind) }
{
    walk.clear();
    enter(walk, class)?;
    climb(program, hierarchy, kind, walk)
}
