//! What follows from one fact.

ghost use Rattle.std.specs.Prelude.{◌≡◌, ◌++◌, true, OnOk, Contains};
ghost use Rattle.hierarchy.specs.Shapes.{IsResolved};
ghost use Rattle.program_model.specs.ProgramRules.{is_well_formed};
ghost use Rattle.call_graph.specs.declared.facts.Fact.{Fact};
ghost use Rattle.call_graph.specs.Closed.{kept_facts, conditional, FindsSuper, Followed};
ghost use Rattle.call_graph.specs.Follows.{class_facts, field_facts, body_facts};
ghost use Rattle.call_graph.specs.Follows as follow;
ghost use Rattle.call_graph.specs.Least.{AddsOnly, AllReached, AreCommon, AreReached, BothReached, Reached};
ghost use Rattle.call_graph.specs.Objects.{AreNotes, SameNotes, HasCommon};
ghost use Rattle.call_graph.specs.Stays.{Stays};

use crate::at::At;
use crate::facts::Fact;
use crate::follow::{
    add_of_class, add_of_field, add_of_method, keep_classes, keep_fields, keep_methods,
    names_of_method,
};
use crate::named::Named;
use crate::notes::Notes;
use crate::objects::{follow_called, follow_made};
use crate::supers::add_supers;
use crate::tables::Tables;
use program_model::Outside;
use std::alloc::{AllocError, Global};

/// Adds what the outside keeps.
pub fn begin(at: &At<'_>, outside: &Outside, out: &mut Vec<Fact>) -> Result<(), AllocError>
    ensures { IsResolved at.now.program.now at.now.hierarchy.now → OnOk result (out.new.items ≡ out.old.items ++ kept_facts at.now.program.now outside.now) }
{
    keep_classes(at, outside.classes.as_slice(), out)?;
    keep_fields(at, outside.fields.as_slice(), out)?;
    keep_methods(at, outside.methods.as_slice(), out)
}

/// What follows from a live class.
fn follow_class(
    alloc: Global,
    at: &At<'_>,
    tables: &Tables,
    kind: u32,
    out: &mut Vec<Fact>,
) -> Result<(), AllocError>
    ensures { IsResolved at.now.program.now at.now.hierarchy.now
        → OnOk result (out.new.items ≡ out.old.items ++ (class_facts at.now.program.now tables.now.bases.items kind ++ conditional at.now.program.now tables.now kind)) }
{
    add_of_class(alloc, at, tables.bases.as_slice(), kind, out)?;
    keep_fields(at, tables.fields_if.row(kind), out)?;
    keep_methods(at, tables.methods_if.row(kind), out)?;
    keep_classes(at, tables.classes_if.row(kind), out)
}

/// What follows from a live field.
fn follow_field(
    alloc: Global,
    at: &At<'_>,
    tables: &Tables,
    number: u32,
    out: &mut Vec<Fact>,
) -> Result<(), AllocError>
    ensures { IsResolved at.now.program.now at.now.hierarchy.now → OnOk result (out.new.items ≡ out.old.items ++ field_facts at.now.program.now tables.now.bases.items number) }
{
    add_of_field(alloc, at, tables.bases.as_slice(), number, out)?;
    Ok(())
}

/// Adds what the super calls of a live method find, where its class defines it and these are the names in its code.
fn add_supers_of(
    alloc: Global,
    at: &At<'_>,
    notes: &mut Notes,
    number: u32,
    names: &[Named],
    out: &mut Vec<Fact>,
) -> Result<(), AllocError>
    ensures stays { OnOk result (Stays out.old.items out.new.items) }
    ensures same { OnOk result (SameNotes notes.old notes.new) }
    ensures are { IsResolved at.now.program.now at.now.hierarchy.now → AreNotes at.now.program.now notes.old → OnOk result (AreNotes at.now.program.now notes.new) }
    ensures finds { IsResolved at.now.program.now at.now.hierarchy.now → is_well_formed at.now.program.now ≡ true → AreNotes at.now.program.now notes.old
        → names.now ≡ follow.names_of_method (follow.own_method at.now.program.now number)
        → OnOk result ((y : Fact) → FindsSuper at.now.program.now number y → Contains out.new.items y) }
    ensures only { IsResolved at.now.program.now at.now.hierarchy.now → is_well_formed at.now.program.now ≡ true → AreNotes at.now.program.now notes.old
        → names.now ≡ follow.names_of_method (follow.own_method at.now.program.now number)
        → OnOk result (AddsOnly (FindsSuper at.now.program.now number) out.old.items out.new.items) }
{
    match at.method_name(number) {
        Some(name) => match at.hierarchy.place_of(name.class) {
            Some(place) => {
                add_supers(alloc, at, notes, (name.class, place), names, out)?;
                Ok(())
            }
            None => Ok(()),
        },
        None => Ok(()),
    }
}

/// What follows from a live method.
fn follow_method(
    alloc: Global,
    at: &At<'_>,
    tables: &Tables,
    notes: &mut Notes,
    number: u32,
    out: &mut Vec<Fact>,
) -> Result<(), AllocError>
    ensures stays { IsResolved at.now.program.now at.now.hierarchy.now → OnOk result (Stays (out.old.items ++ body_facts at.now.program.now tables.now.bases.items number) out.new.items) }
    ensures same { OnOk result (SameNotes notes.old notes.new) }
    ensures are { IsResolved at.now.program.now at.now.hierarchy.now → AreNotes at.now.program.now notes.old → OnOk result (AreNotes at.now.program.now notes.new) }
    ensures supers { IsResolved at.now.program.now at.now.hierarchy.now → is_well_formed at.now.program.now ≡ true → AreNotes at.now.program.now notes.old
        → OnOk result ((y : Fact) → FindsSuper at.now.program.now number y → Contains out.new.items y) }
    ensures only { IsResolved at.now.program.now at.now.hierarchy.now → is_well_formed at.now.program.now ≡ true → AreNotes at.now.program.now notes.old
        → OnOk result (AddsOnly (FindsSuper at.now.program.now number) (out.old.items ++ body_facts at.now.program.now tables.now.bases.items number) out.new.items) }
{
    let names = names_of_method(alloc, at, number)?;
    add_of_method(at, tables.bases.as_slice(), number, names.as_slice(), out)?;
    add_supers_of(alloc, at, notes, number, names.as_slice(), out)?;
    Ok(())
}

/// Adds what follows from a fact, and notes it in the tables.
pub fn follow(
    alloc: Global,
    at: &At<'_>,
    tables: &Tables,
    notes: &mut Notes,
    fact: Fact,
    out: &mut Vec<Fact>,
) -> Result<(), AllocError>
    ensures followed { IsResolved at.now.program.now at.now.hierarchy.now → is_well_formed at.now.program.now ≡ true → AreNotes at.now.program.now notes.old
        → HasCommon at.now.program.now at.now.hierarchy.now tables.now.of_object.items
        → OnOk result (Followed at.now.program.now tables.now notes.old notes.new fact out.new.items) }
    ensures reached { (o : Outside) → IsResolved at.now.program.now at.now.hierarchy.now → is_well_formed at.now.program.now ≡ true → AreNotes at.now.program.now notes.old
        → AreCommon at.now.program.now at.now.hierarchy.now tables.now.of_object.items
        → Reached at.now.program.now o tables.now fact → AreReached at.now.program.now o tables.now notes.old → AllReached at.now.program.now o tables.now out.old.items
        → OnOk result (BothReached at.now.program.now o tables.now notes.new out.new.items) }
{
    match fact {
        Fact::Class(kind) => {
            follow_class(alloc, at, tables, kind, out)?;
            Ok(())
        }
        Fact::Made(kind) => {
            follow_made(alloc, at, tables, notes, kind, out)?;
            Ok(())
        }
        Fact::Field(number) => {
            follow_field(alloc, at, tables, number, out)?;
            Ok(())
        }
        Fact::Method(number) => {
            follow_method(alloc, at, tables, notes, number, out)?;
            Ok(())
        }
        Fact::Called(number) => {
            follow_called(alloc, at, notes, number, out)?;
            Ok(())
        }
    }
}
