//! Which classes run no code when they are initialised.

ghost use Rattle.std.specs.Prelude.{◌≡◌, ◌&&◌, ℕ, List, false, length, not, is_some, slice_index_or, IfOk};
ghost use Rattle.std.specs.List.{list_all};
ghost use Rattle.program_model.specs.declared.program.Program.{Program};
ghost use Rattle.class_defs.specs.Finding.{beside};
ghost use Rattle.class_defs.specs.Starts.{is_trivial};
ghost use Rattle.hierarchy.specs.Quieting.{is_quiet, Serves, Marks};
ghost use Rattle.hierarchy.specs.Tables.{read_at, row_of};

use crate::links::Links;
use crate::table::{is_on, read, turn};
use std::alloc::{AllocError, Global};

/// Whether all of these places are marked.
fn are_on(marks: &[bool], list: &[u32]) -> bool
    ensures { result ≡ list_all (λ u. slice_index_or marks.now u false) list.now }
{
    for class in list {
        if !is_on(marks, *class) {
            return false;
        }
    }
    true
}

/// Whether the place is marked, where there is one.
fn is_on_above(marks: &[bool], above: Option<u32>) -> bool
    ensures { result ≡ list_all (λ u. slice_index_or marks.now u false) (beside above) }
{
    match above {
        Some(class) => is_on(marks, class),
        None => true,
    }
}

/// Whether a class has no initialiser and all of its interfaces are marked.
fn is_quiet(marks: &[bool], start: Option<u32>, list: &[u32]) -> bool
    ensures { result ≡ (not (is_some start) && list_all (λ u. slice_index_or marks.now u false) list.now) }
{
    start.is_none() && are_on(marks, list)
}

/// For each class whether neither it nor a program interface above it by interface lists has an initialiser. `order` has
/// each class behind those above it.
fn quiet(
    alloc: Global,
    starts: &[u32],
    lists: &Links,
    order: &[u32],
) -> Result<Vec<bool>, AllocError>
    ensures { (p : Program) (supers : List ℕ) → Serves p starts.now supers lists.now.rows order.now → IfOk result (λ marks. Marks (length p.classes) (is_quiet p) marks.items) }
{
    let mut marks = vec![in alloc; false; starts.len()]?;
    for class in order {
        let on = is_quiet(marks.as_slice(), read(starts, *class), lists.row(*class));
        turn(marks.as_mut_slice(), *class, on);
    }
    Ok(marks)
}

/// Whether a class is marked as quiet, and its superclass as trivial.
fn is_trivial(marks: &[bool], quiet: bool, above: Option<u32>) -> bool
    ensures { result ≡ (quiet && list_all (λ u. slice_index_or marks.now u false) (beside above)) }
{
    quiet && is_on_above(marks, above)
}

/// For each class whether it, its program superclasses and all program interfaces above any of these have no
/// initialiser, by the places of the initialisers. `order` has each class behind those above it.
pub fn trivial(
    alloc: Global,
    starts: &[u32],
    supers: &[u32],
    lists: &Links,
    order: &[u32],
) -> Result<Vec<bool>, AllocError>
    ensures { (p : Program) → Serves p starts.now supers.now lists.now.rows order.now → IfOk result (λ marks. Marks (length p.classes) (is_trivial p) marks.items) }
{
    let quiet = quiet(alloc, starts, lists, order)?;
    let mut marks = vec![in alloc; false; starts.len()]?;
    for class in order {
        let on = is_trivial(
            marks.as_slice(),
            is_on(quiet.as_slice(), *class),
            read(supers, *class),
        );
        turn(marks.as_mut_slice(), *class, on);
    }
    Ok(marks)
}
