//! Writing over the instructions of a program.

ghost use Rattle.std.specs.Prelude.{◌≡◌, ◌∷◌, [], slice_index_or, IfOk, OnOk};
ghost use Rattle.program_model.specs.Cells.{capped};
ghost use Rattle.rewrite_pass.specs.Plans.{edited, body_edited, method_by, methods_by, class_by, classes_by, program_by, class_edits, all_edits, IsWritten};

use crate::edit::Edit;
use insn_set::Insn;
use program_model::{Body, Changed, Class, Method, Program};
use seq::Seq;
use std::alloc::{AllocError, Global};

/// Writes an instruction, where there is such a position.
fn write_one(insns: &mut [Insn], edit: &Edit) -> Result<(), AllocError>
    ensures { OnOk result (insns.new ≡ edited (edit.now ∷ []) insns.old) }
{
    let insn = edit.insn.clone()?;
    let place = edit.position as usize;
    if place < insns.len() {
        insns[place] = insn;
    }
    Ok(())
}

/// Writes instructions, one after the other.
fn write_insns(insns: &mut [Insn], edits: &[Edit]) -> Result<(), AllocError>
    ensures { OnOk result (insns.new ≡ edited edits.now insns.old) }
{
    for edit in edits {
        write_one(insns, edit)?;
    }
    Ok(())
}

/// Writes over the instructions of a body.
fn write_body(body: &mut Body, edits: &[Edit]) -> Result<(), AllocError>
    ensures { OnOk result (body.new ≡ body_edited edits.now body.old) }
{
    write_insns(body.insns.items.as_mut_slice(), edits)
}

/// Writes over the instructions of a method, if it has code.
fn write_method(method: &mut Method, edits: &[Edit]) -> Result<(), AllocError>
    ensures { OnOk result (method.new ≡ method_by edits.now method.old) }
{
    match edits {
        [] => Ok(()),
        _ => match &mut method.body {
            Some(body) => write_body(body, edits),
            None => Ok(()),
        },
    }
}

/// What is written over a method by a plan, nothing past its end.
fn edits_at(plan: &[Seq<Edit>], place: usize) -> &[Edit]
    ensures { result.now ≡ slice_index_or plan.now place [] }
{
    match plan.get(place) {
        Some(edits) => edits.as_slice(),
        None => &[],
    }
}

/// What is written over a class by a plan, nothing past its end.
fn plan_at(plan: &[Seq<Seq<Edit>>], place: usize) -> &[Seq<Edit>]
    ensures { result.now ≡ slice_index_or plan.now place [] }
{
    match plan.get(place) {
        Some(edits) => edits.as_slice(),
        None => &[],
    }
}

/// Writes over the instructions of methods.
fn write_methods(methods: &mut [Method], plan: &[Seq<Edit>]) -> Result<(), AllocError>
    ensures { OnOk result (methods.new ≡ methods_by plan.now methods.old) }
{
    for place in 0..methods.len() {
        write_method(&mut methods[place], edits_at(plan, place))?;
    }
    Ok(())
}

/// Writes over the instructions of a class.
fn write_class(class: &mut Class, plan: &[Seq<Edit>]) -> Result<(), AllocError>
    ensures { OnOk result (class.new ≡ class_by plan.now class.old) }
{
    write_methods(class.methods.items.as_mut_slice(), plan)
}

/// Writes over the instructions of classes.
fn write_classes(classes: &mut [Class], plan: &[Seq<Seq<Edit>>]) -> Result<(), AllocError>
    ensures { OnOk result (classes.new ≡ classes_by plan.now classes.old) }
{
    for place in 0..classes.len() {
        write_class(&mut classes[place], plan_at(plan, place))?;
    }
    Ok(())
}

/// Writes over the instructions of a program.
fn write_all(program: &mut Program, plan: &[Seq<Seq<Edit>>]) -> Result<(), AllocError>
    ensures { OnOk result (program.new ≡ program_by plan.now program.old) }
{
    write_classes(program.classes.items.as_mut_slice(), plan)
}

/// How many instructions of a class are written over.
fn count_class(plan: &[Seq<Edit>]) -> u64
    ensures { result ≡ capped (class_edits plan.now) }
{
    let mut count: u64 = 0;
    for edits in plan {
        count = count.saturating_add(edits.len() as u64);
    }
    count
}

/// How many instructions are written over.
fn count_all(plan: &[Seq<Seq<Edit>>]) -> u64
    ensures { result ≡ capped (all_edits plan.now) }
{
    let mut count: u64 = 0;
    for edits in plan {
        count = count.saturating_add(count_class(edits.as_slice()));
    }
    count
}

/// Writes over the instructions of a program, in place, by a plan that has for each class and each of its methods what is
/// written. `count` is how many instructions are, up to the greatest number of 64 bits. All else stays, and there are no
/// origins. After want of memory, the only error, the program is lost.
pub fn write_plan(
    alloc: Global,
    program: Program,
    plan: &[Seq<Seq<Edit>>],
) -> Result<Changed, AllocError>
    ensures { IfOk result (IsWritten plan.now program) }
{
    let mut program = program;
    write_all(&mut program, plan)?;
    Ok(Changed {
        program,
        count: count_all(plan),
        origins: Seq::new(alloc),
    })
}
