//! The closing of an outside.

ghost use Rattle.std.specs.Prelude.{◌≡◌, ◌++◌, ◌∷◌, [], true, filter, IfOk, OnOk};
ghost use Rattle.hierarchy.specs.Shapes.{IsResolved};
ghost use Rattle.program_model.specs.ProgramRules.{is_well_formed};
ghost use Rattle.reach.specs.Closing.{Closes, KeepsAsLive, KeepsBy, classes_of, is_class_met, is_field_met, is_method_met};
ghost use Rattle.reach.specs.Kept.{is_marked};

use call_graph::{LiveSet, live_members};
use hierarchy::Hierarchy;
use program_model::{ClassIf, Outside, Program};
use seq::Seq;
use std::alloc::{AllocError, Global};

/// Whether a number is marked.
fn is_on(marks: &[bool], number: u32) -> bool
    ensures { result ≡ is_marked marks.now number }
{
    match marks.get(number as usize) {
        Some(mark) => *mark,
        None => false,
    }
}

/// Adds a field where its class is live.
fn add_field(
    program: &Program,
    live: &LiveSet,
    number: u32,
    out: &mut Vec<u32>,
) -> Result<(), AllocError>
    ensures { OnOk result (out.new.items ≡ out.old.items ++ filter (is_field_met program.now live.now) (number ∷ [])) }
{
    if let Some(field) = program.fields.as_slice().get(number as usize) {
        if is_on(live.classes.as_slice(), field.class) {
            out.push(number)?;
        }
    }
    Ok(())
}

/// Adds the conditional fields whose class is live.
fn add_fields(
    program: &Program,
    live: &LiveSet,
    fields: &[u32],
    out: &mut Vec<u32>,
) -> Result<(), AllocError>
    ensures { OnOk result (out.new.items ≡ out.old.items ++ filter (is_field_met program.now live.now) fields.now) }
{
    for number in fields {
        add_field(program, live, *number, out)?;
    }
    Ok(())
}

/// Adds a method where its class is live.
fn add_method(
    program: &Program,
    live: &LiveSet,
    number: u32,
    out: &mut Vec<u32>,
) -> Result<(), AllocError>
    ensures { OnOk result (out.new.items ≡ out.old.items ++ filter (is_method_met program.now live.now) (number ∷ [])) }
{
    if let Some(method) = program.methods.as_slice().get(number as usize) {
        if is_on(live.classes.as_slice(), method.class) {
            out.push(number)?;
        }
    }
    Ok(())
}

/// Adds the conditional methods whose class is live.
fn add_methods(
    program: &Program,
    live: &LiveSet,
    methods: &[u32],
    out: &mut Vec<u32>,
) -> Result<(), AllocError>
    ensures { OnOk result (out.new.items ≡ out.old.items ++ filter (is_method_met program.now live.now) methods.now) }
{
    for number in methods {
        add_method(program, live, *number, out)?;
    }
    Ok(())
}

/// Adds a class where its owner is live.
fn add_class(live: &LiveSet, one: &ClassIf, out: &mut Vec<u32>) -> Result<(), AllocError>
    ensures { OnOk result (out.new.items ≡ out.old.items ++ classes_of (filter (is_class_met live.now) (one.now ∷ []))) }
{
    if is_on(live.classes.as_slice(), one.owner) {
        out.push(one.class)?;
    }
    Ok(())
}

/// Adds the conditional classes whose owner is live.
fn add_classes(live: &LiveSet, classes: &[ClassIf], out: &mut Vec<u32>) -> Result<(), AllocError>
    ensures { OnOk result (out.new.items ≡ out.old.items ++ classes_of (filter (is_class_met live.now) classes.now)) }
{
    for one in classes {
        add_class(live, one, out)?;
    }
    Ok(())
}

/// The classes, fields and methods that are kept.
#[derive(Drop)]
pub struct Kept {
    pub classes: Vec<u32>,
    pub fields: Vec<u32>,
    pub methods: Vec<u32>,
}

/// The classes that are kept, with the conditional ones whose owner is live.
fn kept_classes(live: &LiveSet, outside: &Outside) -> Result<Vec<u32>, AllocError>
    ensures { IfOk result (λ kept. kept.items ≡ outside.now.classes ++ classes_of (filter (is_class_met live.now) outside.now.classes_if)) }
{
    let mut classes = outside.classes.items.clone()?;
    add_classes(live, outside.classes_if.as_slice(), &mut classes)?;
    Ok(classes)
}

/// The fields that are kept, with the conditional ones whose class is live.
fn kept_fields(program: &Program, live: &LiveSet, outside: &Outside) -> Result<Vec<u32>, AllocError>
    ensures { IfOk result (λ kept. kept.items ≡ outside.now.fields ++ filter (is_field_met program.now live.now) outside.now.fields_if) }
{
    let mut fields = outside.fields.items.clone()?;
    add_fields(program, live, outside.fields_if.as_slice(), &mut fields)?;
    Ok(fields)
}

/// The methods that are kept, with the conditional ones whose class is live.
fn kept_methods(
    program: &Program,
    live: &LiveSet,
    outside: &Outside,
) -> Result<Vec<u32>, AllocError>
    ensures { IfOk result (λ kept. kept.items ≡ outside.now.methods ++ filter (is_method_met program.now live.now) outside.now.methods_if) }
{
    let mut methods = outside.methods.items.clone()?;
    add_methods(program, live, outside.methods_if.as_slice(), &mut methods)?;
    Ok(methods)
}

/// What is kept where these are live.
fn kept_by(program: &Program, live: &LiveSet, outside: &Outside) -> Result<Kept, AllocError>
    ensures { IfOk result (KeepsBy program.now live.now outside.now) }
{
    Ok(Kept {
        classes: kept_classes(live, outside)?,
        fields: kept_fields(program, live, outside)?,
        methods: kept_methods(program, live, outside)?,
    })
}

/// What is kept in a program.
fn kept_members(
    alloc: Global,
    program: &Program,
    hierarchy: &Hierarchy,
    outside: &Outside,
) -> Result<Kept, AllocError>
    ensures { is_well_formed program.now ≡ true → IsResolved program.now hierarchy.now → IfOk result (KeepsAsLive program.now outside.now) }
{
    let live = live_members(alloc, program, hierarchy, outside)?;
    kept_by(program, &live, outside)
}

/// The outside without conditions: a conditional member is kept exactly where its class is live, and a conditional
/// class exactly where its owner is live. All else is handed on. The only error is want of memory.
pub fn close(
    alloc: Global,
    program: &Program,
    hierarchy: &Hierarchy,
    outside: &Outside,
) -> Result<Outside, AllocError>
    ensures { is_well_formed program.now ≡ true → IsResolved program.now hierarchy.now → IfOk result (Closes program.now outside.now) }
{
    let kept = kept_members(alloc, program, hierarchy, outside)?;
    Ok(Outside {
        silent: outside.silent.clone()?,
        shut: outside.shut.clone()?,
        classes: Seq::of_vec(kept.classes),
        methods: Seq::of_vec(kept.methods),
        fields: Seq::of_vec(kept.fields),
        methods_if: Seq::new(alloc),
        fields_if: Seq::new(alloc),
        classes_if: Seq::new(alloc),
        shrink: outside.shrink,
        optimise: outside.optimise,
    })
}
