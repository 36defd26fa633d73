//! The methods that the framework may enter by what it declares and by what is kept.

ghost use Rattle.std.specs.Prelude.{◌≡◌, ◌<◌, ◌++◌, true, false, flat_map, length, replicate, slice_get, IfOk, OnOk};
ghost use Rattle.hierarchy.specs.Shapes.{IsOf, IsResolved};
ghost use Rattle.stub_library.specs.Marking.{at_class, set_all, up_to, virtual_among, virtual_numbers, kept_among, kept_numbers, row_or_none};
ghost use Rattle.stub_library.specs.Marking.{entering, entered_at, opened_at, virtual_along, numbers_along, found_along, found_open, open_marks, entered};

use crate::found::{below, clear_below, clear_found};
use crate::marks::{is_on, marked};
use crate::open::Above;
use hierarchy::Hierarchy;
use program_model::{Method, Program};
use std::alloc::{AllocError, Global};

/// Adds the numbers of the virtual ones of some methods.
fn add_virtual(
    program: &Program,
    hierarchy: &Hierarchy,
    methods: &[Method],
    out: &mut Vec<u32>,
) -> Result<(), AllocError>
    requires { IsOf program.now hierarchy.now }
    ensures { OnOk result (out.new.items ≡ out.old.items ++ virtual_among program.now methods.now) }
{
    for method in methods {
        if hierarchy.is_virtual(method) {
            out.push(method.name)?;
        }
    }
    Ok(())
}

/// Adds the numbers of the virtual methods of the class at a place.
fn add_at(
    program: &Program,
    hierarchy: &Hierarchy,
    place: u32,
    out: &mut Vec<u32>,
) -> Result<(), AllocError>
    requires { IsOf program.now hierarchy.now }
    ensures { OnOk result (out.new.items ≡ out.old.items ++ at_class (virtual_numbers program.now) (slice_get program.now.classes place)) }
{
    if let Some(class) = program.classes.as_slice().get(place as usize) {
        add_virtual(program, hierarchy, class.methods.as_slice(), out)?;
    }
    Ok(())
}

/// Adds the numbers of the kept virtual ones of some methods.
fn add_kept(
    program: &Program,
    hierarchy: &Hierarchy,
    kept: &[bool],
    methods: &[Method],
    out: &mut Vec<u32>,
) -> Result<(), AllocError>
    requires { IsOf program.now hierarchy.now }
    ensures { OnOk result (out.new.items ≡ out.old.items ++ kept_among program.now kept.now methods.now) }
{
    for method in methods {
        if hierarchy.is_virtual(method) && is_on(kept, method.name) {
            out.push(method.name)?;
        }
    }
    Ok(())
}

/// Adds the numbers of the kept virtual methods of the class at a place.
fn add_kept_at(
    program: &Program,
    hierarchy: &Hierarchy,
    kept: &[bool],
    place: u32,
    out: &mut Vec<u32>,
) -> Result<(), AllocError>
    requires { IsOf program.now hierarchy.now }
    ensures { OnOk result (out.new.items ≡ out.old.items ++ at_class (kept_numbers program.now kept.now) (slice_get program.now.classes place)) }
{
    if let Some(class) = program.classes.as_slice().get(place as usize) {
        add_kept(program, hierarchy, kept, class.methods.as_slice(), out)?;
    }
    Ok(())
}

/// Adds the method numbers that are declared above the class at a place.
fn add_declared(above: &Above, place: u32, out: &mut Vec<u32>) -> Result<(), AllocError>
    ensures { OnOk result (out.new.items ≡ out.old.items ++ row_or_none (slice_get above.now.numbers.items place)) }
{
    if let Some(row) = above.numbers.get(place as usize) {
        out.extend_from_slice(row.as_slice())?;
    }
    Ok(())
}

/// The method numbers by which the framework enters classes below the one at a place: those kept in it, and those declared
/// above it.
fn entering(
    alloc: Global,
    program: &Program,
    hierarchy: &Hierarchy,
    kept: &[bool],
    above: &Above,
    place: u32,
) -> Result<Vec<u32>, AllocError>
    requires { IsOf program.now hierarchy.now }
    ensures { IfOk result (λ numbers. numbers.items ≡ entering program.now kept.now above.now.numbers.items place) }
{
    let mut numbers = Vec::new(alloc);
    add_kept_at(program, hierarchy, kept, place, &mut numbers)?;
    add_declared(above, place, &mut numbers)?;
    Ok(numbers)
}

/// Takes the marks from what is entered by what stands at the class at a place.
fn enter_class(
    alloc: Global,
    program: &Program,
    hierarchy: &Hierarchy,
    kept: &[bool],
    above: &Above,
    place: u32,
    marks: &mut [bool],
) -> Result<(), AllocError>
    requires resolved { IsResolved program.now hierarchy.now }
    requires within { place < length program.now.classes }
    ensures { OnOk result (marks.new ≡ set_all false marks.old (entered_at program.now kept.now above.now.numbers.items place)) }
{
    let below = below(alloc, program, hierarchy, place)?;
    let numbers = entering(alloc, program, hierarchy, kept, above, place)?;
    clear_below(
        program,
        hierarchy,
        below.as_slice(),
        numbers.as_slice(),
        marks,
    );
    Ok(())
}

/// Takes the marks from what is entered by what stands at each class.
fn enter_classes(
    alloc: Global,
    program: &Program,
    hierarchy: &Hierarchy,
    count: u32,
    kept: &[bool],
    above: &Above,
    marks: &mut [bool],
) -> Result<(), AllocError>
    requires counted { count ≡ length program.now.classes }
    requires resolved { IsResolved program.now hierarchy.now }
    ensures { OnOk result (marks.new ≡ set_all false marks.old (up_to (entered_at program.now kept.now above.now.numbers.items) (length program.now.classes))) }
{
    for place in 0..count {
        enter_class(alloc, program, hierarchy, kept, above, place, marks)?;
    }
    Ok(())
}

/// Adds the classes below one that is open by itself.
fn add_opened(
    alloc: Global,
    program: &Program,
    hierarchy: &Hierarchy,
    here: &[bool],
    place: u32,
    out: &mut Vec<u32>,
) -> Result<(), AllocError>
    requires resolved { IsResolved program.now hierarchy.now }
    requires within { place < length program.now.classes }
    ensures { OnOk result (out.new.items ≡ out.old.items ++ opened_at program.now here.now place) }
{
    if is_on(here, place) {
        let below = below(alloc, program, hierarchy, place)?;
        out.extend_from_slice(below.as_slice())?;
    }
    Ok(())
}

/// The classes below those that are open by themselves.
fn opened(
    alloc: Global,
    program: &Program,
    hierarchy: &Hierarchy,
    count: u32,
    here: &[bool],
) -> Result<Vec<u32>, AllocError>
    requires counted { count ≡ length program.now.classes }
    requires resolved { IsResolved program.now hierarchy.now }
    ensures { IfOk result (λ opened. opened.items ≡ up_to (opened_at program.now here.now) (length program.now.classes)) }
{
    let mut out = Vec::new(alloc);
    for place in 0..count {
        add_opened(alloc, program, hierarchy, here, place, &mut out)?;
    }
    Ok(out)
}

/// By the place of a class whether it is open.
fn open_marks(
    alloc: Global,
    program: &Program,
    hierarchy: &Hierarchy,
    count: u32,
    here: &[bool],
) -> Result<Vec<bool>, AllocError>
    requires counted { count ≡ length program.now.classes }
    requires resolved { IsResolved program.now hierarchy.now }
    ensures { IfOk result (λ marks. marks.items ≡ open_marks program.now here.now) }
{
    let opened = opened(alloc, program, hierarchy, count, here)?;
    marked(alloc, opened.as_slice(), program.classes.len())
}

/// Adds the numbers of the virtual methods of classes.
fn add_along(
    program: &Program,
    hierarchy: &Hierarchy,
    places: &[u32],
    out: &mut Vec<u32>,
) -> Result<(), AllocError>
    requires { IsOf program.now hierarchy.now }
    ensures { OnOk result (out.new.items ≡ out.old.items ++ virtual_along program.now places.now) }
{
    for place in places {
        add_at(program, hierarchy, *place, out)?;
    }
    Ok(())
}

/// The numbers of the virtual methods of a class and its superclasses.
fn numbers_along(
    alloc: Global,
    program: &Program,
    hierarchy: &Hierarchy,
    class: u32,
) -> Result<Vec<u32>, AllocError>
    requires { IsOf program.now hierarchy.now }
    ensures { IfOk result (λ numbers. numbers.items ≡ numbers_along program.now class) }
{
    let mut numbers = Vec::new(alloc);
    let chain = hierarchy.chain(alloc, class)?;
    add_along(program, hierarchy, chain.as_slice(), &mut numbers)?;
    Ok(numbers)
}

/// Takes the marks from all methods that a class finds along itself and its superclasses.
fn enter_along(
    alloc: Global,
    program: &Program,
    hierarchy: &Hierarchy,
    class: u32,
    marks: &mut [bool],
) -> Result<(), AllocError>
    requires { IsOf program.now hierarchy.now }
    ensures { OnOk result (marks.new ≡ set_all false marks.old (found_along program.now class)) }
{
    let numbers = numbers_along(alloc, program, hierarchy, class)?;
    clear_found(program, hierarchy, class, numbers.as_slice(), marks);
    Ok(())
}

/// Takes the marks from all that the class at a place finds, where it is open.
fn enter_open(
    alloc: Global,
    program: &Program,
    hierarchy: &Hierarchy,
    opens: &[bool],
    place: u32,
    marks: &mut [bool],
) -> Result<(), AllocError>
    requires { IsOf program.now hierarchy.now }
    ensures { OnOk result (marks.new ≡ set_all false marks.old (found_open program.now opens.now place)) }
{
    if is_on(opens, place) {
        enter_along(alloc, program, hierarchy, place, marks)?;
    }
    Ok(())
}

/// Takes the marks from all that open classes find.
fn enter_opens(
    alloc: Global,
    program: &Program,
    hierarchy: &Hierarchy,
    count: u32,
    opens: &[bool],
    marks: &mut [bool],
) -> Result<(), AllocError>
    requires counted { count ≡ length program.now.classes }
    requires of { IsOf program.now hierarchy.now }
    ensures { OnOk result (marks.new ≡ set_all false marks.old (up_to (found_open program.now opens.now) (length program.now.classes))) }
{
    for place in 0..count {
        enter_open(alloc, program, hierarchy, opens, place, marks)?;
    }
    Ok(())
}

/// Takes the marks from all methods that the framework enters by what it declares and by what is kept.
pub fn enter(
    alloc: Global,
    program: &Program,
    hierarchy: &Hierarchy,
    count: u32,
    kept: &[bool],
    above: &Above,
    marks: &mut [bool],
) -> Result<(), AllocError>
    requires counted { count ≡ length program.now.classes }
    requires resolved { IsResolved program.now hierarchy.now }
    ensures { OnOk result (marks.new ≡ entered program.now kept.now above.now.opens.items above.now.numbers.items marks.old) }
{
    enter_classes(alloc, program, hierarchy, count, kept, above, marks)?;
    let here = above.opens.as_slice();
    let opens = open_marks(alloc, program, hierarchy, count, here)?;
    enter_opens(alloc, program, hierarchy, count, opens.as_slice(), marks)?;
    Ok(())
}
