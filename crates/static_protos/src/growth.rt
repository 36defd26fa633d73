//! The tables behind all marked methods of a program, in class and method order.

ghost use Rattle.std.specs.Prelude.{◌≡◌, slice_index_or, true, false, IfOk, OnOk};
ghost use Rattle.program_model.specs.ProgramRules.{is_well_formed};
ghost use Rattle.static_protos.specs.Tables.{Tables, wanted};
ghost use Rattle.static_protos.specs.Growing.{IsGrown, IsGrowth, grown, room_with, room_named, room_for, grown_method, grown_methods, grown_classes};

use crate::tables::{Additions, Wanted, key, no_additions, short_form};
use dex_base::Text;
use program_model::{Class, Method, MethodName, Program, Proto};
use seq::Seq;
use std::alloc::{AllocError, Global};

/// What the tables of a program get for methods that are made static, and the new proto of each of these by number.
#[derive(Drop)]
pub struct Growth {
    pub strings: Vec<Text>,
    pub protos: Vec<Proto>,
    pub given: Vec<Option<u32>>,
}

/// Whether a number is marked.
fn is_on(marks: &[bool], number: u32) -> bool
    ensures { result ≡ slice_index_or marks.now number false }
{
    match marks.get(number as usize) {
        Some(mark) => *mark,
        None => false,
    }
}

/// The proto that a method of a class gets, with the class in front of its parameters.
fn wanted(
    alloc: Global,
    program: &Program,
    class: &Class,
    method: &Method,
    name: &MethodName,
    proto: &Proto,
) -> Result<Wanted, AllocError>
    ensures { IfOk result (λ w. w ≡ wanted program.now class.now method.now name.now proto.now) }
{
    let parameters = key(alloc, class.name, proto.parameters.as_slice())?;
    let text = short_form(alloc, program, proto.result, parameters.as_slice())?;
    Ok(Wanted {
        number: method.name,
        name: name.name,
        result: proto.result,
        parameters: Seq::of_vec(parameters),
        text: Seq::of_vec(text),
        marked: !method.parameter_marks.is_empty(),
    })
}

/// Gives a method of a class its proto, if there is room for it, where it has this entry of the table of methods and this proto.
fn add_with(
    alloc: Global,
    program: &Program,
    additions: &mut Additions,
    class: &Class,
    method: &Method,
    name: &MethodName,
    proto: &Proto,
) -> Result<(), AllocError>
    ensures { let p = program.now in (t : Tables) → IsGrown p t additions.old → OnOk result (IsGrown p (room_with p t (wanted p class.now method.now name.now proto.now)) additions.new) }
{
    let wanted = wanted(alloc, program, class, method, name, proto)?;
    additions.add(alloc, wanted)
}

/// Gives a method of a class its proto, if there is room for it, where it has this entry of the table of methods.
fn add_named(
    alloc: Global,
    program: &Program,
    additions: &mut Additions,
    class: &Class,
    method: &Method,
    name: &MethodName,
) -> Result<(), AllocError>
    ensures { let p = program.now in (t : Tables) → IsGrown p t additions.old → OnOk result (IsGrown p (room_named p t class.now method.now name.now) additions.new) }
{
    match program.protos.as_slice().get(name.proto as usize) {
        Some(proto) => add_with(alloc, program, additions, class, method, name, proto),
        None => Ok(()),
    }
}

/// Gives a method of a class its proto, if there is room for it.
fn add_method(
    alloc: Global,
    program: &Program,
    additions: &mut Additions,
    class: &Class,
    method: &Method,
) -> Result<(), AllocError>
    ensures { let p = program.now in (t : Tables) → IsGrown p t additions.old → OnOk result (IsGrown p (room_for p t class.now method.now) additions.new) }
{
    match program.methods.as_slice().get(method.name as usize) {
        Some(name) => add_named(alloc, program, additions, class, method, name),
        None => Ok(()),
    }
}

/// Gives a method of a class its proto, if it is marked and there is room for it.
fn add_marked(
    alloc: Global,
    program: &Program,
    additions: &mut Additions,
    class: &Class,
    method: &Method,
    marked: &[bool],
) -> Result<(), AllocError>
    ensures { let p = program.now in (t : Tables) → IsGrown p t additions.old → OnOk result (IsGrown p (grown_method p marked.now t class.now method.now) additions.new) }
{
    if is_on(marked, method.name) {
        add_method(alloc, program, additions, class, method)
    } else {
        Ok(())
    }
}

/// Gives each marked one of some methods of a class a proto, where there is room for it.
fn add_methods(
    alloc: Global,
    program: &Program,
    additions: &mut Additions,
    class: &Class,
    methods: &[Method],
    marked: &[bool],
) -> Result<(), AllocError>
    ensures { let p = program.now in (t : Tables) → IsGrown p t additions.old → OnOk result (IsGrown p (grown_methods p marked.now t class.now methods.now) additions.new) }
{
    for method in methods {
        add_marked(alloc, program, additions, class, method, marked)?;
    }
    Ok(())
}

/// The same for all methods of some classes.
fn add_classes(
    alloc: Global,
    program: &Program,
    additions: &mut Additions,
    classes: &[Class],
    marked: &[bool],
) -> Result<(), AllocError>
    ensures { let p = program.now in (t : Tables) → IsGrown p t additions.old → OnOk result (IsGrown p (grown_classes p marked.now t classes.now) additions.new) }
{
    for class in classes {
        add_methods(
            alloc,
            program,
            additions,
            class,
            class.methods.as_slice(),
            marked,
        )?;
    }
    Ok(())
}

/// What the tables of a well-formed program get for its marked methods, in class and method order: a proto with the class in front
/// of the parameters, and its short form, where they stand nowhere yet, for each method that the tables have room for.
pub fn grow(alloc: Global, program: &Program, marked: &[bool]) -> Result<Growth, AllocError>
    ensures { is_well_formed program.now ≡ true → IfOk result (IsGrowth program.now (grown program.now marked.now)) }
{
    let mut additions = no_additions(alloc, program)?;
    add_classes(
        alloc,
        program,
        &mut additions,
        program.classes.as_slice(),
        marked,
    )?;
    let Additions {
        new_strings,
        new_protos,
        given,
        ..
    } = additions;
    Ok(Growth {
        strings: new_strings,
        protos: new_protos,
        given,
    })
}
