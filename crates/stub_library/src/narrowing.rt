//! An outside without the methods that the framework cannot enter.

ghost use Rattle.std.specs.Prelude.{◌≡◌, ℕ, length, true, IfOk};
ghost use Rattle.program_model.specs.ProgramRules.{is_well_formed};
ghost use Rattle.hierarchy.specs.Shapes.{IsOf, IsResolved};
ghost use Rattle.stub_library.specs.Marking.{is_on, entered};
ghost use Rattle.stub_library.specs.Loosening.{loose_marks};
ghost use Rattle.stub_library.specs.Meeting.{AreMet};
ghost use Rattle.stub_library.specs.Shut.{shut_number, IsNarrowed};
ghost use Rattle.stub_library.specs.Narrowed.{Narrows, numbers_of};

use crate::called::called_outside;
use crate::declared::Declared;
use crate::entered::enter;
use crate::library::Library;
use crate::loose::loose;
use crate::marks::{is_on, marked, word};
use crate::open::Above;
use crate::others::{pairs, rounds};
use crate::spelled::Spelled;
use hierarchy::Hierarchy;
use program_model::{Outside, Program};
use seq::Seq;
use std::alloc::{AllocError, Global};

/// The marked numbers below a size, ascending.
fn numbers(alloc: Global, marks: &[bool], size: u32) -> Result<Vec<u32>, AllocError>
    ensures { IfOk result (λ v. v.items ≡ numbers_of marks.now size) }
{
    let mut out = Vec::new(alloc);
    for number in 0..size {
        if is_on(marks, number) {
            out.push(number)?;
        }
    }
    Ok(out)
}

/// What the library declares above the classes of a program.
fn above_of(
    alloc: Global,
    library: &Library,
    program: &Program,
    hierarchy: &Hierarchy,
) -> Result<Above, AllocError>
    requires { IsOf program.now hierarchy.now }
    ensures { IfOk result (λ above. AreMet program.now library.now above.opens.items above.numbers.items) }
{
    let spelled = Spelled::of(alloc, program, hierarchy)?;
    let declared = Declared::of_library(alloc, library, &spelled)?;
    let above = Above::of_classes(alloc, program, hierarchy, &declared)?;
    Ok(above)
}

/// By method number, which methods may be shut as far as each alone says and are not entered.
fn left(
    alloc: Global,
    program: &Program,
    hierarchy: &Hierarchy,
    count: u32,
    kept: &[bool],
    called: &[bool],
    above: &Above,
) -> Result<Vec<bool>, AllocError>
    requires counted { count ≡ length program.now.classes }
    requires resolved { IsResolved program.now hierarchy.now }
    ensures { IfOk result (λ left. left.items ≡ entered program.now kept.now above.now.opens.items above.now.numbers.items (loose_marks program.now hierarchy.now kept.now called.now)) }
{
    let mut marks = loose(alloc, program, hierarchy, kept, called)?;
    enter(
        alloc,
        program,
        hierarchy,
        count,
        kept,
        above,
        marks.as_mut_slice(),
    )?;
    Ok(marks)
}

/// By method number, which methods are shut.
fn shut_marks(
    alloc: Global,
    program: &Program,
    hierarchy: &Hierarchy,
    count: u32,
    outside: &Outside,
    above: &Above,
) -> Result<Vec<bool>, AllocError>
    requires formed { is_well_formed program.now ≡ true }
    requires counted { count ≡ length program.now.classes }
    requires resolved { IsResolved program.now hierarchy.now }
    ensures { (l : Library) → AreMet program.now l above.now.opens.items above.now.numbers.items
        → IfOk result (λ marks. (n : ℕ) → is_on marks.items n ≡ shut_number program.now outside.now l n) }
{
    let methods = outside.methods.as_slice();
    let kept = marked(alloc, methods, program.methods.len())?;
    let kept = kept.as_slice();
    let called = called_outside(alloc, program, hierarchy)?;
    let called = called.as_slice();
    let left = left(alloc, program, hierarchy, count, kept, called, above)?;
    let left = left.as_slice();
    let pairs = pairs(alloc, program, hierarchy, count, kept, left)?;
    let pairs = pairs.as_slice();
    let classes = program.classes.len();
    let marks = rounds(alloc, left, pairs, classes + 1)?;
    Ok(marks)
}

/// The outside with these shut methods.
fn with_shut(outside: &Outside, shut: Vec<u32>) -> Result<Outside, AllocError>
    ensures { IfOk result (λ new. new ≡ record outside.now { shut = shut.items }) }
{
    let mut new = outside.clone()?;
    new.shut = Seq::of_vec(shut);
    Ok(new)
}

/// The closed outside with the list of shut methods: the virtual methods of the program that the framework cannot enter by
/// what the library declares. All else is handed on. The only error is want of memory.
///
/// It takes about as many steps as classes have methods above them, for each of a few rounds: as many as methods of one
/// name override one another.
pub fn narrow(
    alloc: Global,
    library: &Library,
    program: &Program,
    hierarchy: &Hierarchy,
    outside: &Outside,
) -> Result<Outside, AllocError>
    requires formed { is_well_formed program.now ≡ true }
    requires resolved { IsResolved program.now hierarchy.now }
    ensures is { IfOk result (IsNarrowed program.now outside.now library.now) }
    ensures numbers { IfOk result (Narrows program.now outside.now) }
{
    let above = above_of(alloc, library, program, hierarchy)?;
    let classes = program.classes.len();
    let count = word(classes);
    let marks = shut_marks(alloc, program, hierarchy, count, outside, &above)?;
    let methods = program.methods.len();
    let size = word(methods);
    let shut = numbers(alloc, marks.as_slice(), size)?;
    with_shut(outside, shut)
}
