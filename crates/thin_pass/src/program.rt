//! A program whose bodies are thinned in place.

ghost use Rattle.std.specs.Prelude.{◌≡◌, ◌+◌, ◌<◌, ◌≤◌, ◌^◌, [], List, false, length, slice_index_or, IfOk};
ghost use Rattle.program_model.specs.Cells.{capped};
ghost use Rattle.program_model.specs.declared.body.Body.{Body};
ghost use Rattle.thin_pass.specs.Wishing.{room_in, is_small, FatesIn, HasFates};
ghost use Rattle.body_edit.specs.declared.fate.Fate.{Fate};
ghost use Rattle.thin_pass.specs.Weights.{weight_of};
ghost use Rattle.thin_pass.specs.Plans.{AreFor, AreForClasses, positions_of, method_by, methods_by, class_by, classes_by, program_by, class_changes, all_changes, IsThinnedBy};

use crate::fates::fates_where;
use crate::method::{count_changes, thin_method};
use crate::notes::changed_origins;
use body_edit::Fate;
use program_model::{Admitted, Body, Changed, Class, Method, Program};
use seq::Seq;
use std::alloc::{AllocError, Global};

/// What decides which positions of a body are to go or to become nops.
pub trait Thinning {
    /// This is wished for the positions of a body.
    ghost wishes: { Self → Body → List Fate → Type 0 };

    /// What is wished for the positions of a body. The only error is want of memory.
    fn wish(&self, alloc: Global, body: &Body) -> Result<Vec<Fate>, AllocError>
        requires { length body.now.insns + length body.now.regions < 2 ^ 32 }
        ensures { IfOk result (λ v. wishes self.now body.now v.items) };
}

/// Whether a number is marked.
fn is_on(marks: &[bool], number: u32) -> bool
    ensures { result ≡ slice_index_or marks.now number false }
{
    match marks.get(number as usize) {
        Some(mark) => *mark,
        None => false,
    }
}

/// Whether 32 bits number all positions and regions of a method's body.
fn is_small(method: &Method) -> bool
    ensures { result ≡ is_small method.now }
{
    match &method.body {
        Some(body) => {
            let positions = body.insns.len();
            positions <= u32::MAX as usize && body.regions.len() <= u32::MAX as usize - positions
        }
        None => true,
    }
}

/// The fates of a method's positions.
fn fates_for<T: Thinning>(
    alloc: Global,
    method: &Method,
    pass: &T,
    admitted: bool,
) -> Result<Seq<Fate>, AllocError>
    requires { room_in method.now.body < 2 ^ 32 }
    ensures fates { IfOk result (FatesIn (T.wishes pass.now) admitted method.now.body) }
    ensures long { IfOk result (λ fs. length fs ≡ positions_of method.now) }
{
    match &method.body {
        Some(body) => {
            if !admitted {
                return Ok(Seq::of_vec(vec![in alloc; Fate::Stays; body.insns.len()]?));
            }
            let wishes = pass.wish(alloc, body)?;
            Ok(Seq::of_vec(fates_where(alloc, body.insns.as_slice(), &wishes)?))
        }
        None => Ok(Seq::new(alloc)),
    }
}

/// Thins the body of a method, and answers the fates of its positions. Where nothing changes, the method is left alone.
fn thin_one<T: Thinning>(
    alloc: Global,
    method: &mut Method,
    pass: &T,
    admitted: &[bool],
) -> Result<Seq<Fate>, AllocError>
    ensures fates { IfOk result (HasFates (T.wishes pass.now) admitted.now method.old) }
    ensures by { IfOk result (λ fs. method.new ≡ method_by fs method.old) }
{
    if !is_small(method) {
        return Ok(Seq::new(alloc));
    }
    let fates = fates_for(alloc, method, pass, is_on(admitted, method.name))?;
    if count_changes(fates.as_slice()) != 0 {
        thin_method(alloc, method, fates.as_slice())?;
    }
    Ok(fates)
}

/// Thins the bodies of a class's methods.
fn thin_methods<T: Thinning>(
    alloc: Global,
    methods: &mut [Method],
    pass: &T,
    admitted: &[bool],
) -> Result<Seq<Seq<Fate>>, AllocError>
    ensures thins { IfOk result (λ plan. AreFor (HasFates (T.wishes pass.now) admitted.now) methods.old plan) }
    ensures by { IfOk result (λ plan. methods.new ≡ methods_by plan methods.old) }
{
    let mut plan = Vec::with_capacity(alloc, methods.len())?;
    for method in methods.iter_mut() {
        plan.push(thin_one(alloc, method, pass, admitted)?)?;
    }
    Ok(Seq::of_vec(plan))
}

/// Thins the bodies of a class.
fn thin_class<T: Thinning>(
    alloc: Global,
    class: &mut Class,
    pass: &T,
    admitted: &[bool],
) -> Result<Seq<Seq<Fate>>, AllocError>
    ensures thins { IfOk result (λ plan. AreFor (HasFates (T.wishes pass.now) admitted.now) class.old.methods plan) }
    ensures by { IfOk result (λ plan. class.new ≡ class_by plan class.old) }
{
    thin_methods(alloc, class.methods.items.as_mut_slice(), pass, admitted)
}

/// Thins the bodies of all classes.
fn thin_classes<T: Thinning>(
    alloc: Global,
    classes: &mut [Class],
    pass: &T,
    admitted: &[bool],
) -> Result<Seq<Seq<Seq<Fate>>>, AllocError>
    ensures thins { IfOk result (λ plan. AreForClasses (HasFates (T.wishes pass.now) admitted.now) classes.old plan) }
    ensures by { IfOk result (λ plan. classes.new ≡ classes_by plan classes.old) }
{
    let mut plan = Vec::with_capacity(alloc, classes.len())?;
    for class in classes.iter_mut() {
        plan.push(thin_class(alloc, class, pass, admitted)?)?;
    }
    Ok(Seq::of_vec(plan))
}

/// How many positions of a class's methods change.
fn count_class(plan: &[Seq<Fate>]) -> u64
    ensures { result ≡ capped (class_changes plan.now) }
{
    let mut count: u64 = 0;
    for fates in plan {
        count = count.saturating_add(count_changes(fates.as_slice()));
    }
    count
}

/// How many positions change.
fn count_all(plan: &[Seq<Seq<Fate>>]) -> u64
    ensures { result ≡ capped (all_changes plan.now) }
{
    let mut count: u64 = 0;
    for fates in plan {
        count = count.saturating_add(count_class(fates.as_slice()));
    }
    count
}

/// Thins the bodies of a program.
fn thin_all<T: Thinning>(
    alloc: Global,
    program: &mut Program,
    pass: &T,
    admitted: &[bool],
) -> Result<Seq<Seq<Seq<Fate>>>, AllocError>
    ensures thins { IfOk result (λ plan. AreForClasses (HasFates (T.wishes pass.now) admitted.now) program.old.classes plan) }
    ensures by { IfOk result (λ plan. program.new ≡ program_by plan program.old) }
{
    thin_classes(alloc, program.classes.items.as_mut_slice(), pass, admitted)
}

/// Thins the admitted bodies of a program, with what changed.
fn thin_bodies<T: Thinning>(
    alloc: Global,
    program: Program,
    pass: &T,
    admitted: &Admitted,
) -> Result<Changed, AllocError>
    ensures { IfOk result (IsThinnedBy (T.wishes pass.now) admitted.now.methods.items program) }
{
    let mut program = program;
    let plan = thin_all(alloc, &mut program, pass, &admitted.methods)?;
    let fates = plan.as_slice();
    let count = count_all(fates);
    let origins = changed_origins(alloc, &program, fates, count)?;
    Ok(Changed {
        program,
        count,
        origins,
    })
}

/// Takes the positions out of the admitted bodies of a program that a pass wishes to go, and makes nops of those that it wishes
/// to become nops, in place. Where a branch would lead to itself, the last position before it becomes a nop. All else stays,
/// and lines and origins follow. `count` is how many positions went or became nops, 0 exactly where the program is the same,
/// and `origins` says where those that are left come from, for each method number, where any changed. A program that isn't
/// the same weighs less: a nop weighs 1 and every other instruction 2. A body with 4,294,967,296 positions and regions or
/// more is left alone. After want of memory, the only error, the program is lost.
pub fn thin_program<T: Thinning>(
    alloc: Global,
    program: Program,
    pass: &T,
    admitted: &Admitted,
) -> Result<Changed, AllocError>
    ensures thinned { IfOk result (IsThinnedBy (T.wishes pass.now) admitted.now.methods.items program) }
    ensures same { IfOk result (λ changed. changed.count ≡ 0 → changed.program ≡ program) }
    ensures falls { IfOk result (λ changed. weight_of changed.program ≤ weight_of program) }
    ensures less { IfOk result (λ changed. 0 < changed.count → weight_of changed.program < weight_of program) }
{
    let changed = thin_bodies(alloc, program, pass, admitted)?;
    Ok(changed)
}
