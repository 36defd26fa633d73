//! Which class is the first that is its own ancestor.

ghost use Rattle.std.specs.Prelude.{◌≡◌, ◌<◌, ◌≤◌, ◌^◌, ◌++◌, ℕ, true, length, slice_index, nat_le, nat_lt, IfOk, OnOk};
ghost use Rattle.std.specs.List.{list_all};
ghost use Rattle.class_defs.specs.Finding.{beside};
ghost use Rattle.hierarchy.specs.Climbing.{In};
ghost use Rattle.hierarchy.specs.Circling.{IsRising, Decides, IsFirstCircle};
ghost use Rattle.hierarchy.specs.Walking.{IsFair};

use crate::components::levels_of_components;
use crate::links::Links;
use crate::table::{count_at, read, word};
use crate::walk::Walk;
use std::alloc::{AllocError, Global};

/// Whether all of these classes have this level or a higher one.
fn all_from(levels: &[u32], least: u32, list: &[u32]) -> bool
    ensures { result ≡ list_all (λ u. nat_le least (slice_index levels.now u)) list.now }
{
    for class in list {
        if count_at(levels, *class) < least {
            return false;
        }
    }
    true
}

/// Whether all of these classes have levels above this one.
fn all_past(levels: &[u32], level: u32, list: &[u32]) -> bool
    ensures { result ≡ list_all (λ u. nat_lt level (slice_index levels.now u)) list.now }
{
    for class in list {
        if count_at(levels, *class) <= level {
            return false;
        }
    }
    true
}

/// Whether the class has this level or a higher one, where there is a class.
fn is_from(levels: &[u32], least: u32, above: Option<u32>) -> bool
    ensures { result ≡ list_all (λ u. nat_le least (slice_index levels.now u)) (beside above) }
{
    match above {
        Some(class) => count_at(levels, class) >= least,
        None => true,
    }
}

/// Whether the class has a level above this one, where there is a class.
fn is_past(levels: &[u32], level: u32, above: Option<u32>) -> bool
    ensures { result ≡ list_all (λ u. nat_lt level (slice_index levels.now u)) (beside above) }
{
    match above {
        Some(class) => count_at(levels, class) > level,
        None => true,
    }
}

/// Whether none of those directly above a class has a lower level.
fn rises(levels: &[u32], class: u32, list: &[u32], above: Option<u32>) -> bool
    ensures { result ≡ true → (u : ℕ) → In u (list.now ++ beside above) → slice_index levels.now class ≤ slice_index levels.now u }
{
    let level = count_at(levels, class);
    all_from(levels, level, list) && is_from(levels, level, above)
}

/// Whether all directly above a class have higher levels.
fn stands_lower(levels: &[u32], class: u32, list: &[u32], above: Option<u32>) -> bool
    ensures { result ≡ true → (u : ℕ) → In u (list.now ++ beside above) → slice_index levels.now class < slice_index levels.now u }
{
    let level = count_at(levels, class);
    all_past(levels, level, list) && is_past(levels, level, above)
}

/// Whether no class has a higher level than one directly above it.
fn all_rise(supers: &[u32], lists: &Links, levels: &[u32]) -> bool
    ensures { length supers.now < 2 ^ 32 → result ≡ true → IsRising supers.now lists.now.rows levels.now }
{
    for class in 0..word(supers.len()) {
        if !rises(levels, class, lists.row(class), read(supers, class)) {
            return false;
        }
    }
    true
}

/// Levels of the classes of which none is higher than that of a class directly above: those of the strong components.
fn rising_levels(
    alloc: Global,
    supers: &[u32],
    lists: &Links,
    below: &Links,
) -> Result<Vec<u32>, AllocError>
    ensures { length supers.now < 2 ^ 32 → IfOk result (λ levels. IsRising supers.now lists.now.rows levels.items) }
{
    let levels = levels_of_components(alloc, below)?;
    if all_rise(supers, lists, levels.as_slice()) {
        return Ok(levels);
    }
    let same = vec![in alloc; 0u32; supers.len()]?;
    Ok(same)
}

/// Whether a walk from the classes directly above one comes back to it.
fn leads_back(
    supers: &[u32],
    lists: &Links,
    walk: &mut Walk,
    class: u32,
) -> Result<bool, AllocError>
    ensures fair { OnOk result (IsFair walk.old → IsFair walk.new) }
    ensures size { OnOk result (length walk.new.seen.items ≡ length walk.old.seen.items) }
    ensures is { class < length supers.now → IsFair walk.old → length walk.old.seen.items ≡ length supers.now → IfOk result (λ b. Decides supers.now lists.now.rows class b) }
{
    walk.clear();
    walk.push_above(lists.row(class), read(supers, class))?;
    while let Some(one) = walk.pop() {
        if one == class {
            return Ok(true);
        }
        walk.visit(one, None, lists.row(one), read(supers, one))?;
    }
    Ok(false)
}

/// Whether the class is its own ancestor. One with a lower level than all directly above it is none.
fn is_on_circle(
    supers: &[u32],
    lists: &Links,
    levels: &[u32],
    walk: &mut Walk,
    class: u32,
) -> Result<bool, AllocError>
    ensures fair { OnOk result (IsFair walk.old → IsFair walk.new) }
    ensures size { OnOk result (length walk.new.seen.items ≡ length walk.old.seen.items) }
    ensures is { class < length supers.now → IsRising supers.now lists.now.rows levels.now → IsFair walk.old → length walk.old.seen.items ≡ length supers.now → IfOk result (λ b. Decides supers.now lists.now.rows class b) }
{
    if stands_lower(levels, class, lists.row(class), read(supers, class)) {
        return Ok(false);
    }
    leads_back(supers, lists, walk, class)
}

/// The first class that is its own ancestor, by levels that don't fall towards the classes above.
fn first_by_levels(
    alloc: Global,
    supers: &[u32],
    lists: &Links,
    levels: &[u32],
) -> Result<Option<u32>, AllocError>
    ensures { length supers.now < 2 ^ 32 → IsRising supers.now lists.now.rows levels.now → IfOk result (λ r. IsFirstCircle supers.now lists.now.rows r) }
{
    let mut walk = Walk::new(alloc, supers.len())?;
    for class in 0..word(supers.len()) {
        if is_on_circle(supers, lists, levels, &mut walk, class)? {
            return Ok(Some(class));
        }
    }
    Ok(None)
}

/// The first class that is its own ancestor, if there is one.
///
/// Levels of the classes by strong component spare the search from each class that isn't on a circle, so that one search
/// finds the class: the levels are tested first, and what is answered is right for all that pass.
pub fn first_on_circle(
    alloc: Global,
    supers: &[u32],
    lists: &Links,
    below: &Links,
) -> Result<Option<u32>, AllocError>
    ensures { length supers.now < 2 ^ 32 → IfOk result (λ r. IsFirstCircle supers.now lists.now.rows r) }
{
    let levels = rising_levels(alloc, supers, lists, below)?;
    first_by_levels(alloc, supers, lists, levels.as_slice())
}
