//! The types above a type by the program's own lists.

ghost use Rattle.std.specs.Prelude.{◌≡◌, ◌<◌, ℕ, [], true, length, IfOk, OnOk, Contains, vec_len};
ghost use Rattle.hierarchy.specs.Shapes.{IsOf};
ghost use Rattle.call_targets.specs.Marks.{Swells, Keeps, WaitsFrom};
ghost use Rattle.call_graph.specs.Above.{above_kinds, AllFrom, has_outer};
ghost use Rattle.call_targets.specs.Walking.{is_met, is_marked, IsClean, IsWalked, HasFrom};

use crate::looks::At;
use crate::marks::Marks;
use std::alloc::{AllocError, Global};

/// Marks the types directly above one.
#[tactic(auto, using(crate::proofs::Climbing::marked_both, crate::proofs::Growth::keeps_then, crate::proofs::Growth::keeps_same, crate::proofs::Climbing::waits_both, crate::proofs::Climbing::waits_none))]
fn mark_above(at: &At<'_>, marks: &mut Marks, kind: u32) -> Result<(), AllocError>
    ensures swells { OnOk result (Swells marks.old marks.new) }
    ensures keeps { OnOk result (Keeps marks.old marks.new) }
    ensures marked { IsOf at.now.program.now at.now.hierarchy.now → OnOk result ((u : ℕ) → Contains (above_kinds at.now.program.now kind) u → is_met marks.new u ≡ true) }
    ensures from { IsOf at.now.program.now at.now.hierarchy.now → OnOk result (WaitsFrom marks.old marks.new (above_kinds at.now.program.now kind)) }
{
    match at.class_of(kind) {
        Some(class) => {
            marks.mark(class.superclass)?;
            marks.mark_all(class.interfaces.as_slice())?;
            Ok(())
        }
        None => Ok(()),
    }
}

/// Walks on from the types that wait, and lists all types that it meets.
fn walk_up(alloc: Global, at: &At<'_>, marks: &mut Marks) -> Result<Vec<u32>, AllocError>
    ensures size { OnOk result (vec_len marks.new.marks ≡ vec_len marks.old.marks) }
    ensures idle { OnOk result (marks.new.waiting.items ≡ []) }
    ensures met { OnOk result ((n : ℕ) → is_met marks.old n ≡ true → is_met marks.new n ≡ true) }
    ensures from { IsOf at.now.program.now at.now.hierarchy.now → vec_len marks.old.marks ≡ length at.now.program.now.types → (x y : ℕ)
        → AllFrom at.now.program.now x y marks.old.waiting.items → IfOk result (λ out. AllFrom at.now.program.now x y out.items) }
    ensures walked { IsOf at.now.program.now at.now.hierarchy.now → ((n : ℕ) → is_marked marks.old n ≡ true → Contains marks.old.waiting.items n)
        → IfOk result (λ out. IsWalked at.now.program.now marks.new out.items) }
{
    let mut out = Vec::new(alloc);
    while let Some(one) = marks.pop() {
        out.push(one)?;
        mark_above(at, marks, one)?;
    }
    Ok(out)
}

/// The types above a type, with it and with another one and those above that. No mark stays.
pub(crate) fn climb(
    alloc: Global,
    at: &At<'_>,
    marks: &mut Marks,
    object: u32,
    kind: u32,
) -> Result<Vec<u32>, AllocError>
    ensures size { OnOk result (vec_len marks.new.marks ≡ vec_len marks.old.marks) }
    ensures clean { IsOf at.now.program.now at.now.hierarchy.now → IsClean marks.old → OnOk result (IsClean marks.new) }
    ensures above { IsOf at.now.program.now at.now.hierarchy.now → vec_len marks.old.marks ≡ length at.now.program.now.types → IsClean marks.old
        → IfOk result (λ out. HasFrom at.now.program.now object kind out.items) }
    ensures from { IsOf at.now.program.now at.now.hierarchy.now → vec_len marks.old.marks ≡ length at.now.program.now.types → IsClean marks.old
        → IfOk result (λ out. AllFrom at.now.program.now object kind out.items) }
{
    marks.mark(object)?;
    marks.mark(kind)?;
    let above = walk_up(alloc, at, marks)?;
    marks.clear(above.as_slice());
    Ok(above)
}

/// Whether a type of the framework other than `Ljava/lang/Object;` is among these.
pub(crate) fn has_outer(at: &At<'_>, object: u32, kinds: &[u32]) -> bool
    ensures { IsOf at.now.program.now at.now.hierarchy.now → result ≡ has_outer at.now.program.now object kinds.now }
{
    for kind in kinds {
        if at.class_of(*kind).is_none() && *kind != object {
            return true;
        }
    }
    false
}
