//! The pass over a program.

ghost use Rattle.std.specs.Prelude.{◌≡◌, ◌⊎◌, ◌≤◌, true, map, vec_len, IfOk, OnOk, OnErr};
ghost use Rattle.inline_calls.specs.Asked.{Asks};
ghost use Rattle.inline_calls.specs.Plans.{nothing_done, HasLooked, HasBegun, LooksAt, BeginsAt, LooksIn, BeginsIn, LooksThrough, BeginsThrough, IsPlanned, IsBegun, IsInlined, origins_if};
ghost use Rattle.program_model.specs.ProgramRules.{is_well_formed};
ghost use Rattle.verify.specs.Meeting.{IsMeeting};
ghost use Rattle.verify.specs.Methods.{TypesAll};

use crate::caller::Inliner;
use crate::done::{Done, origins_if};
use crate::editing::{Edit, is_on, put_program};
use crate::found::word;
use crate::room::same_numbers;
use crate::site::{Caller, Known};
use facts::Facts;
use hierarchy::Hierarchy;
use program_model::{Admitted, Changed, Class, Method, MethodAt, Outside, Program, well_formed};
use redex_outside::{Adviser, Panel};
use seq::Seq;
use std::alloc::{AllocError, Global};
use verify::{Verifier, verify_all};

/// The new body of a caller, if anything is accepted of it.
fn edit_caller<'p>(
    alloc: Global,
    inliner: &Inliner<'p>,
    caller: Caller<'p>,
    done: &mut Done,
    panel: &mut Panel,
) -> Result<Option<Edit>, AllocError>
    requires { IsMeeting inliner.now.verifier.tables }
    ensures looked { IfOk result (λ edit.
        Asks (map (λ b. (⟦<dyn Adviser as Adviser>⟧ b.vtable).replies b.value) panel.old.advisers.items)
        (map (λ b. (⟦<dyn Adviser as Adviser>⟧ b.vtable).replies b.value) panel.new.advisers.items)
        panel.old.answers.items panel.new.answers.items (λ rows. HasLooked inliner.now caller.entry done.old rows edit done.new)) }
    ensures begun { OnErr result (
        Asks (map (λ b. (⟦<dyn Adviser as Adviser>⟧ b.vtable).replies b.value) panel.old.advisers.items)
        (map (λ b. (⟦<dyn Adviser as Adviser>⟧ b.vtable).replies b.value) panel.new.advisers.items)
        panel.old.answers.items panel.new.answers.items (HasBegun inliner.now caller.entry done.old.cells)) }
{
    let accepted = inliner.accept(alloc, caller, done.cells, panel)?;
    let edit = done.note(caller, accepted);
    Ok(edit)
}

/// The new body of a method, if it has one.
fn edit_method<'p>(
    alloc: Global,
    inliner: &Inliner<'p>,
    class: &'p Class,
    at: MethodAt,
    method: &'p Method,
    done: &mut Done,
    panel: &mut Panel,
) -> Result<Option<Edit>, AllocError>
    requires { IsMeeting inliner.now.verifier.tables }
    ensures looked { IfOk result (λ edit.
        Asks (map (λ b. (⟦<dyn Adviser as Adviser>⟧ b.vtable).replies b.value) panel.old.advisers.items)
        (map (λ b. (⟦<dyn Adviser as Adviser>⟧ b.vtable).replies b.value) panel.new.advisers.items)
        panel.old.answers.items panel.new.answers.items (λ rows. LooksAt inliner.now class.now at method.now done.old rows edit done.new)) }
    ensures begun { OnErr result (
        Asks (map (λ b. (⟦<dyn Adviser as Adviser>⟧ b.vtable).replies b.value) panel.old.advisers.items)
        (map (λ b. (⟦<dyn Adviser as Adviser>⟧ b.vtable).replies b.value) panel.new.advisers.items)
        panel.old.answers.items panel.new.answers.items (BeginsAt inliner.now class.now at method.now done.old)) }
{
    let body = match &method.body {
        Some(body) => body,
        None => return Ok(None),
    };
    if !is_on(inliner.admitted, method.name) {
        return Ok(None);
    }
    let caller = Caller {
        at,
        class,
        method,
        body,
    };
    let edit = edit_caller(alloc, inliner, caller, done, panel)?;
    Ok(edit)
}

/// The new bodies of the methods of a class, by their places.
fn edit_class<'p>(
    alloc: Global,
    inliner: &Inliner<'p>,
    class: &'p Class,
    class_place: u32,
    done: &mut Done,
    panel: &mut Panel,
) -> Result<Seq<Option<Edit>>, AllocError>
    requires { IsMeeting inliner.now.verifier.tables }
    ensures looked { IfOk result (λ row.
        Asks (map (λ b. (⟦<dyn Adviser as Adviser>⟧ b.vtable).replies b.value) panel.old.advisers.items)
        (map (λ b. (⟦<dyn Adviser as Adviser>⟧ b.vtable).replies b.value) panel.new.advisers.items)
        panel.old.answers.items panel.new.answers.items (λ rows. LooksIn inliner.now class_place class.now done.old rows row done.new)) }
    ensures begun { OnErr result (
        Asks (map (λ b. (⟦<dyn Adviser as Adviser>⟧ b.vtable).replies b.value) panel.old.advisers.items)
        (map (λ b. (⟦<dyn Adviser as Adviser>⟧ b.vtable).replies b.value) panel.new.advisers.items)
        panel.old.answers.items panel.new.answers.items (BeginsIn inliner.now class_place class.now done.old)) }
{
    let mut row = Vec::new(alloc);
    for (number, method) in class.methods.as_slice().iter().enumerate() {
        let at = MethodAt {
            class: class_place,
            place: word(number),
        };
        let edit = edit_method(alloc, inliner, class, at, method, done, panel)?;
        row.push(edit)?;
    }
    Ok(Seq::of_vec(row))
}

/// The new bodies of all methods, by the places of their classes and their own.
fn edit_classes<'p>(
    alloc: Global,
    inliner: &Inliner<'p>,
    classes: &'p [Class],
    done: &mut Done,
    panel: &mut Panel,
) -> Result<Seq<Seq<Option<Edit>>>, AllocError>
    requires { IsMeeting inliner.now.verifier.tables }
    ensures looked { IfOk result (λ edits.
        Asks (map (λ b. (⟦<dyn Adviser as Adviser>⟧ b.vtable).replies b.value) panel.old.advisers.items)
        (map (λ b. (⟦<dyn Adviser as Adviser>⟧ b.vtable).replies b.value) panel.new.advisers.items)
        panel.old.answers.items panel.new.answers.items (λ rows. LooksThrough inliner.now classes.now done.old rows edits done.new)) }
    ensures begun { OnErr result (
        Asks (map (λ b. (⟦<dyn Adviser as Adviser>⟧ b.vtable).replies b.value) panel.old.advisers.items)
        (map (λ b. (⟦<dyn Adviser as Adviser>⟧ b.vtable).replies b.value) panel.new.advisers.items)
        panel.old.answers.items panel.new.answers.items (BeginsThrough inliner.now classes.now done.old)) }
{
    let mut rows = Vec::new(alloc);
    for (place, class) in classes.iter().enumerate() {
        let row = edit_class(alloc, inliner, class, word(place), done, panel)?;
        rows.push(row)?;
    }
    Ok(Seq::of_vec(rows))
}

/// The new bodies of all methods of a program.
fn edit_all(
    alloc: Global,
    program: &Program,
    hierarchy: &Hierarchy,
    facts: &Facts,
    admitted: &[bool],
    done: &mut Done,
    panel: &mut Panel,
) -> Result<Seq<Seq<Option<Edit>>>, AllocError>
    ensures planned { IfOk result (λ edits.
        Asks (map (λ b. (⟦<dyn Adviser as Adviser>⟧ b.vtable).replies b.value) panel.old.advisers.items)
        (map (λ b. (⟦<dyn Adviser as Adviser>⟧ b.vtable).replies b.value) panel.new.advisers.items)
        panel.old.answers.items panel.new.answers.items (IsPlanned program.now hierarchy.now facts.now admitted.now done.old done.new edits)) }
    ensures begun { OnErr result (
        Asks (map (λ b. (⟦<dyn Adviser as Adviser>⟧ b.vtable).replies b.value) panel.old.advisers.items)
        (map (λ b. (⟦<dyn Adviser as Adviser>⟧ b.vtable).replies b.value) panel.new.advisers.items)
        panel.old.answers.items panel.new.answers.items (IsBegun program.now hierarchy.now facts.now admitted.now done.old)) }
{
    let verifier = Verifier::make(alloc, program, hierarchy)?;
    let inliner = Inliner {
        known: Known {
            program,
            hierarchy,
            facts,
        },
        verifier,
        numbers: same_numbers(alloc),
        admitted,
    };
    let classes = program.classes.as_slice();
    let edits = edit_classes(alloc, &inliner, classes, done, panel)?;
    Ok(edits)
}

/// Whether a program is well-formed and typed. A well-formed and typed program is so with calls inlined, which is checked and
/// not proved: any other one is more than memory is asked for.
fn check(alloc: Global, program: &Program, hierarchy: &Hierarchy) -> Result<(), AllocError>
    ensures formed { OnOk result (is_well_formed program.now ≡ true) }
    ensures typed { OnOk result (TypesAll program.now hierarchy.now) }
{
    if !well_formed(program) {
        return Err(AllocError);
    }
    match verify_all(alloc, program, hierarchy) {
        Ok(()) => Ok(()),
        Err(_) => Err(AllocError),
    }
}

/// Whether a program in which so many calls are inlined is well-formed and typed, unless these are none.
fn check_changed(
    alloc: Global,
    program: &Program,
    hierarchy: &Hierarchy,
    count: u64,
) -> Result<(), AllocError>
    ensures formed { OnOk result ((count ≡ 0) ⊎ (is_well_formed program.now ≡ true)) }
    ensures typed { OnOk result ((count ≡ 0) ⊎ TypesAll program.now hierarchy.now) }
{
    if count > 0 {
        check(alloc, program, hierarchy)?;
    }
    Ok(())
}

/// The accepted calls inlined in a program, and what was done.
fn inline_all(
    alloc: Global,
    program: &mut Program,
    hierarchy: &Hierarchy,
    facts: &Facts,
    admitted: &[bool],
    panel: &mut Panel,
) -> Result<Done, AllocError>
    ensures inlined { IfOk result (λ done.
        Asks (map (λ b. (⟦<dyn Adviser as Adviser>⟧ b.vtable).replies b.value) panel.old.advisers.items)
        (map (λ b. (⟦<dyn Adviser as Adviser>⟧ b.vtable).replies b.value) panel.new.advisers.items)
        panel.old.answers.items panel.new.answers.items (IsInlined program.old hierarchy.now facts.now admitted.now program.new done.count (origins_if done.count done.origins))) }
    ensures formed { OnOk result (is_well_formed program.old ≡ true → is_well_formed program.new ≡ true) }
    ensures typed { OnOk result (TypesAll program.old hierarchy.now → TypesAll program.new hierarchy.now) }
    ensures begun { OnErr result (
        Asks (map (λ b. (⟦<dyn Adviser as Adviser>⟧ b.vtable).replies b.value) panel.old.advisers.items)
        (map (λ b. (⟦<dyn Adviser as Adviser>⟧ b.vtable).replies b.value) panel.new.advisers.items)
        panel.old.answers.items panel.new.answers.items (IsBegun program.old hierarchy.now facts.now admitted.now (nothing_done program.old))) }
{
    let mut done = Done::nothing(alloc, program)?;
    let rows = edit_all(alloc, program, hierarchy, facts, admitted, &mut done, panel)?;
    let edits = rows.as_slice();
    put_program(program, edits)?;
    check_changed(alloc, program, hierarchy, done.count)?;
    Ok(done)
}

/// Asks about each site of the admitted methods, in class and method order and by position, and inlines those where every
/// adviser says yes. `count` is how many these are. `origins` says where the instructions come from, for each method number,
/// where any call is inlined: an empty list for a method whose positions stay, and in a copy the method that is copied. The
/// only error is want of memory, after which the program is lost and the panel was asked about the first sites alone. A
/// well-formed and typed program stays so.
///
/// A silent call finds no method of the program, so it is no site whatever `outside` says.
pub fn apply(
    alloc: Global,
    program: Program,
    hierarchy: &Hierarchy,
    facts: &Facts,
    _outside: &Outside,
    admitted: &Admitted,
    panel: &mut Panel,
) -> Result<Changed, AllocError>
    requires { 0 ≤ vec_len panel.old.advisers }
    ensures inlined { IfOk result (λ changed.
        Asks (map (λ b. (⟦<dyn Adviser as Adviser>⟧ b.vtable).replies b.value) panel.old.advisers.items)
        (map (λ b. (⟦<dyn Adviser as Adviser>⟧ b.vtable).replies b.value) panel.new.advisers.items)
        panel.old.answers.items panel.new.answers.items (IsInlined program hierarchy.now facts.now admitted.now.methods.items changed.program changed.count changed.origins)) }
    ensures formed { is_well_formed program ≡ true → IfOk result (λ changed. is_well_formed changed.program ≡ true) }
    ensures typed { TypesAll program hierarchy.now → IfOk result (λ changed. TypesAll changed.program hierarchy.now) }
    ensures begun { OnErr result (
        Asks (map (λ b. (⟦<dyn Adviser as Adviser>⟧ b.vtable).replies b.value) panel.old.advisers.items)
        (map (λ b. (⟦<dyn Adviser as Adviser>⟧ b.vtable).replies b.value) panel.new.advisers.items)
        panel.old.answers.items panel.new.answers.items (IsBegun program hierarchy.now facts.now admitted.now.methods.items (nothing_done program))) }
{
    let mut program = program;
    let marks = admitted.methods.as_slice();
    let done = inline_all(alloc, &mut program, hierarchy, facts, marks, panel)?;
    Ok(Changed {
        program,
        count: done.count,
        origins: origins_if(alloc, done.count, done.origins),
    })
}
