//! The calls that leave by their name alone.

ghost use Rattle.std.specs.Prelude.{◌≡◌, ◌≤◌, Some, length, slice_get};
ghost use Rattle.program_model.specs.declared.pools.MethodName.{MethodName};
ghost use Rattle.program_model.specs.Lookups.{class_place};
ghost use Rattle.hierarchy.specs.Shapes.{IsOf};
ghost use Rattle.call_targets.specs.Adding.{Adds};
ghost use Rattle.call_targets.specs.Leaving.{admits_any, name_notes, all_name_notes};

use crate::looks::{At, word};
use crate::table::{Targets, call_number, turn_on};
use program_model::MethodName;

/// Whether the receiver of a virtual call needn't stand under the type that the call names: the program doesn't define
/// it, or it is an interface, whose type any object fits.
fn admits_any(at: &At<'_>, kind: u32) -> bool
    ensures { IsOf at.now.program.now at.now.hierarchy.now → result ≡ admits_any at.now.program.now (class_place at.now.program.now kind) }
{
    match at.hierarchy.place_of(kind) {
        Some(place) => at.is_interface(place),
        None => true,
    }
}

/// Notes the calls of a method number that leave by their name alone: one of an interface, and a virtual one whose
/// receiver needn't stand under the type that it names.
fn note_name(at: &At<'_>, method: u32, name: &MethodName, targets: &mut Targets)
    ensures { IsOf at.now.program.now at.now.hierarchy.now → method ≤ 65536 → Adds (name_notes at.now.program.now method name.now) targets.old targets.new }
{
    turn_on(&mut targets.leaves, call_number(method, true));
    if admits_any(at, name.class) {
        turn_on(&mut targets.leaves, call_number(method, false));
    }
}

/// Notes the calls that leave by their name alone.
pub(crate) fn note_leaving(at: &At<'_>, targets: &mut Targets)
    ensures { IsOf at.now.program.now at.now.hierarchy.now → length at.now.program.now.methods ≤ 65536 → Adds (all_name_notes at.now.program.now 0 at.now.program.now.methods) targets.old targets.new }
{
    for (method, name) in at.program.methods.as_slice().iter().enumerate() {
        note_name(at, word(method), name, targets);
    }
}
