//! What a pass writes over the instructions of a program.

ghost use Rattle.std.specs.Prelude.{◌≡◌, true, false, List, length, slice_index_or, IfOk};
ghost use Rattle.program_model.specs.declared.body.Body.{Body};
ghost use Rattle.program_model.specs.declared.program.Method.{Method};
ghost use Rattle.program_model.specs.declared.program.MethodAt.{MethodAt};
ghost use Rattle.rewrite_pass.specs.declared.edit.Edit.{Edit};
ghost use Rattle.rewrite_pass.specs.Plans.{word, HasEdits, ArePlanned, HasPlan, IsPlan};

use crate::edit::Edit;
use program_model::{Admitted, Body, Class, Method, MethodAt, Program};
use seq::Seq;
use std::alloc::{AllocError, Global};

/// What decides which instructions of a body are written over.
pub trait Rewriting {
    /// The pass can be asked.
    ghost ready: { Self → Type 0 };

    /// This is what the pass writes over the body of a method, which stands at a place of the program.
    ghost writes: { Self → MethodAt → Method → Body → List Edit → Type 0 };

    /// What is written over the body of a method. The only error is want of memory.
    fn edits(
        &self,
        alloc: Global,
        at: MethodAt,
        method: &Method,
        body: &Body,
    ) -> Result<Vec<Edit>, AllocError>
        requires { ready self.now }
        ensures { IfOk result (λ v. writes self.now at method.now body.now v.items) };
}

/// Whether a number is marked.
fn is_on(marks: &[bool], number: u32) -> bool
    ensures { result ≡ slice_index_or marks.now number false }
{
    match marks.get(number as usize) {
        Some(mark) => *mark,
        None => false,
    }
}

/// A place as a number of 32 bits, the greatest one where it is past that.
fn word(place: usize) -> u32
    ensures { result ≡ word place }
{
    if place < 0xffff_ffff {
        place as u32
    } else {
        0xffff_ffff
    }
}

/// What is written over a method's body, if it has one.
fn plan_body<R: Rewriting>(
    alloc: Global,
    at: MethodAt,
    method: &Method,
    pass: &R,
) -> Result<Seq<Edit>, AllocError>
    requires { R.ready pass.now }
    ensures { IfOk result (HasEdits (R.writes pass.now) true at method.now method.now.body) }
{
    match &method.body {
        Some(body) => Ok(Seq::of_vec(pass.edits(alloc, at, method, body)?)),
        None => Ok(Seq::new(alloc)),
    }
}

/// What is written over a method's body: nothing where it isn't admitted.
fn plan_method<R: Rewriting>(
    alloc: Global,
    at: MethodAt,
    method: &Method,
    pass: &R,
    admitted: &[bool],
) -> Result<Seq<Edit>, AllocError>
    requires { R.ready pass.now }
    ensures { IfOk result (HasEdits (R.writes pass.now) (slice_index_or admitted.now method.now.name false) at method.now method.now.body) }
{
    if !is_on(admitted, method.name) {
        return Ok(Seq::new(alloc));
    }
    plan_body(alloc, at, method, pass)
}

/// What is written over the bodies of the methods of a class.
fn plan_methods<R: Rewriting>(
    alloc: Global,
    class: u32,
    methods: &[Method],
    pass: &R,
    admitted: &[bool],
) -> Result<Seq<Seq<Edit>>, AllocError>
    requires { R.ready pass.now }
    ensures { IfOk result (HasPlan (R.writes pass.now) admitted.now class methods.now) }
{
    let mut plan = Vec::with_capacity(alloc, methods.len())?;
    for (place, method) in methods.iter().enumerate() {
        let at = MethodAt {
            class,
            place: word(place),
        };
        plan.push(plan_method(alloc, at, method, pass, admitted)?)?;
    }
    Ok(Seq::of_vec(plan))
}

/// What is written over the bodies of a class.
fn plan_class<R: Rewriting>(
    alloc: Global,
    place: u32,
    class: &Class,
    pass: &R,
    admitted: &[bool],
) -> Result<Seq<Seq<Edit>>, AllocError>
    requires { R.ready pass.now }
    ensures { IfOk result (HasPlan (R.writes pass.now) admitted.now place class.now.methods) }
{
    plan_methods(alloc, place, class.methods.as_slice(), pass, admitted)
}

/// What is written over the bodies of all classes.
fn plan_classes<R: Rewriting>(
    alloc: Global,
    classes: &[Class],
    pass: &R,
    admitted: &[bool],
) -> Result<Seq<Seq<Seq<Edit>>>, AllocError>
    requires { R.ready pass.now }
    ensures { IfOk result (IsPlan (R.writes pass.now) admitted.now classes.now) }
{
    let mut plan = Vec::with_capacity(alloc, classes.len())?;
    for (place, class) in classes.iter().enumerate() {
        plan.push(plan_class(alloc, word(place), class, pass, admitted)?)?;
    }
    Ok(Seq::of_vec(plan))
}

/// What a pass writes over the admitted bodies of a program, for each class and each of its methods. The only error is
/// want of memory.
pub fn plan_program<R: Rewriting>(
    alloc: Global,
    program: &Program,
    pass: &R,
    admitted: &Admitted,
) -> Result<Seq<Seq<Seq<Edit>>>, AllocError>
    requires { R.ready pass.now }
    ensures { IfOk result (IsPlan (R.writes pass.now) admitted.now.methods.items program.now.classes) }
{
    plan_classes(
        alloc,
        program.classes.as_slice(),
        pass,
        admitted.methods.as_slice(),
    )
}
