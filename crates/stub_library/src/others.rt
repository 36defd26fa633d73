//! The methods of one name and proto that wait for one another.

ghost use Rattle.std.specs.Prelude.{◌≡◌, ◌<◌, ◌++◌, true, length, flat_map, IfOk, OnOk};
ghost use Rattle.hierarchy.specs.Shapes.{IsOf, IsResolved};
ghost use Rattle.stub_library.specs.Marking.{pair_with, pairs_by, is_binding, pairs_among, pairs_at, all_pairs, waiting, round, rounds};

use crate::found::{below, found_by};
use crate::marks::{is_on, turned};
use hierarchy::Hierarchy;
use program_model::{Method, Program};
use std::alloc::{AllocError, Global};

/// Adds the pair of the method that a class finds by another one and that one, where the first has a mark.
fn add_pair(
    left: &[bool],
    other: u32,
    found: Option<u32>,
    out: &mut Vec<(u32, u32)>,
) -> Result<(), AllocError>
    ensures { OnOk result (out.new.items ≡ out.old.items ++ pair_with left.now other found) }
{
    if let Some(found) = found {
        if found != other && is_on(left, found) {
            out.push((found, other))?;
        }
    }
    Ok(())
}

/// Adds the pairs of what classes find by a method and that method.
fn add_pairs(
    program: &Program,
    hierarchy: &Hierarchy,
    left: &[bool],
    classes: &[u32],
    other: u32,
    out: &mut Vec<(u32, u32)>,
) -> Result<(), AllocError>
    requires { IsOf program.now hierarchy.now }
    ensures { OnOk result (out.new.items ≡ out.old.items ++ pairs_by program.now left.now classes.now other) }
{
    for class in classes {
        add_pair(
            left,
            other,
            found_by(program, hierarchy, *class, other),
            out,
        )?;
    }
    Ok(())
}

/// Whether a method is virtual, has code and isn't kept.
fn is_binding(program: &Program, hierarchy: &Hierarchy, kept: &[bool], method: &Method) -> bool
    requires { IsOf program.now hierarchy.now }
    ensures { result ≡ is_binding program.now kept.now method.now }
{
    hierarchy.is_virtual(method) && method.body.is_some() && !is_on(kept, method.name)
}

/// Adds the pairs of what classes find by some methods and those methods.
fn add_all(
    program: &Program,
    hierarchy: &Hierarchy,
    kept: &[bool],
    left: &[bool],
    classes: &[u32],
    methods: &[Method],
    out: &mut Vec<(u32, u32)>,
) -> Result<(), AllocError>
    requires { IsOf program.now hierarchy.now }
    ensures { OnOk result (out.new.items ≡ out.old.items ++ pairs_among program.now kept.now left.now classes.now methods.now) }
{
    for method in methods {
        if is_binding(program, hierarchy, kept, method) {
            add_pairs(program, hierarchy, left, classes, method.name, out)?;
        }
    }
    Ok(())
}

/// Adds the pairs of the methods of the class at a place.
fn add_at(
    alloc: Global,
    program: &Program,
    hierarchy: &Hierarchy,
    kept: &[bool],
    left: &[bool],
    place: u32,
    out: &mut Vec<(u32, u32)>,
) -> Result<(), AllocError>
    requires resolved { IsResolved program.now hierarchy.now }
    requires within { place < length program.now.classes }
    ensures { OnOk result (out.new.items ≡ out.old.items ++ pairs_at program.now kept.now left.now place) }
{
    let below = below(alloc, program, hierarchy, place)?;
    if let Some(class) = program.classes.as_slice().get(place as usize) {
        let methods = class.methods.as_slice();
        add_all(
            program,
            hierarchy,
            kept,
            left,
            below.as_slice(),
            methods,
            out,
        )?;
    }
    Ok(())
}

/// Each method with a mark that a class finds, with every other virtual method with code of its name and proto in a class
/// above that isn't kept.
pub fn pairs(
    alloc: Global,
    program: &Program,
    hierarchy: &Hierarchy,
    count: u32,
    kept: &[bool],
    left: &[bool],
) -> Result<Vec<(u32, u32)>, AllocError>
    requires counted { count ≡ length program.now.classes }
    requires resolved { IsResolved program.now hierarchy.now }
    ensures { IfOk result (λ pairs. pairs.items ≡ all_pairs program.now kept.now left.now) }
{
    let mut out = Vec::new(alloc);
    for place in 0..count {
        add_at(alloc, program, hierarchy, kept, left, place, &mut out)?;
    }
    Ok(out)
}

/// Adds the first of a pair where the second has no mark.
fn add_waiting(marks: &[bool], pair: (u32, u32), out: &mut Vec<u32>) -> Result<(), AllocError>
    ensures { OnOk result (out.new.items ≡ out.old.items ++ waiting marks.now pair) }
{
    if !is_on(marks, pair.1) {
        out.push(pair.0)?;
    }
    Ok(())
}

/// What waits for a method without a mark.
fn waiting_for(alloc: Global, pairs: &[(u32, u32)], marks: &[bool]) -> Result<Vec<u32>, AllocError>
    ensures { IfOk result (λ numbers. numbers.items ≡ flat_map (waiting marks.now) pairs.now) }
{
    let mut numbers = Vec::new(alloc);
    for pair in pairs {
        add_waiting(marks, *pair, &mut numbers)?;
    }
    Ok(numbers)
}

/// A round: the marks without those of what waits for a method without one.
fn round(
    alloc: Global,
    base: &[bool],
    pairs: &[(u32, u32)],
    marks: &[bool],
) -> Result<Vec<bool>, AllocError>
    ensures { IfOk result (λ next. next.items ≡ round base.now pairs.now marks.now) }
{
    let numbers = waiting_for(alloc, pairs, marks)?;
    Ok(turned(Vec::from_slice(alloc, base)?, numbers.as_slice(), false))
}

/// Whether two tables of marks are the same.
fn are_same(one: &[bool], other: &[bool]) -> bool
    ensures { result ≡ true → one.now ≡ other.now }
{
    one == other
}

/// The marks after so many rounds, which begin without any.
pub fn rounds(
    alloc: Global,
    base: &[bool],
    pairs: &[(u32, u32)],
    most: usize,
) -> Result<Vec<bool>, AllocError>
    ensures { IfOk result (λ marks. marks.items ≡ rounds base.now pairs.now most) }
{
    let mut marks = vec![in alloc; false; base.len()]?;
    for done in 0..most {
        let now = marks.as_slice();
        let next = round(alloc, base, pairs, now)?;
        let new = next.as_slice();
        if are_same(new, now) {
            return Ok(marks);
        }
        marks = next;
    }
    Ok(marks)
}
