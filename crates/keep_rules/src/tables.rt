//! The tables of a view.

ghost use Rattle.std.specs.Prelude.{◌≡◌, ◌<◌, ◌^◌, ◌||◌, ℕ, List, ◌∷◌, true, length, vec_len, replicate, cond, IfOk, OnOk};
ghost use Rattle.std.specs.List.{list_any};
ghost use Rattle.program_model.specs.ProgramRules.{is_well_formed};
ghost use Rattle.hierarchy.specs.Shapes.{IsOf};
ghost use Rattle.keep_rules.specs.View.{AddsTo, AddsEach, AreEmpty, AreRows, IsReady, is_below, is_method_of, kind_of, last_type};

use crate::view::{View, descriptor};
use hierarchy::Hierarchy;
use program_model::{Class, Program};
use std::alloc::{AllocError, Global};
use std::collections::HashMap;

/// The number of each descriptor.
fn types_by_name<'p>(
    alloc: Global,
    program: &'p Program,
) -> Result<HashMap<&'p [u16], u32>, AllocError>
    requires { length program.now.types < 2 ^ 32 }
    ensures { IfOk result (λ types. (t : List ℕ) → kind_of types t ≡ last_type program.now t (length program.now.types)) }
{
    let mut types: HashMap<&'p [u16], u32> = HashMap::new(alloc);
    for kind in 0..program.types.len() as u32 {
        types.insert(descriptor(program, kind), kind)?;
    }
    Ok(types)
}

/// As many empty lists as there are types.
fn empty_lists(alloc: Global, count: usize) -> Result<Vec<Vec<u32>>, AllocError>
    ensures { IfOk result (λ lists. AreEmpty count lists.items) }
{
    let mut lists = Vec::new(alloc);
    for _ in 0..count {
        lists.push(Vec::new(alloc))?;
    }
    Ok(lists)
}

/// Adds a number to the list of a type.
fn add_to(lists: &mut Vec<Vec<u32>>, kind: u32, number: u32) -> Result<(), AllocError>
    ensures { OnOk result (AddsTo kind number lists.old.items lists.new.items) }
{
    match lists.get_mut(kind as usize) {
        Some(list) => {
            list.push(number)?;
            Ok(())
        }
        None => Ok(()),
    }
}

/// Adds a number to the lists of some types.
fn add_to_each(lists: &mut Vec<Vec<u32>>, kinds: &[u32], number: u32) -> Result<(), AllocError>
    ensures { OnOk result (AddsEach kinds.now number lists.old.items lists.new.items) }
{
    for kind in kinds {
        add_to(lists, *kind, number)?;
    }
    Ok(())
}

/// Adds a class to the lists of what it stands below.
fn add_below(below: &mut Vec<Vec<u32>>, class: &Class, place: u32) -> Result<(), AllocError>
    ensures { OnOk result (AddsEach (class.now.superclass ∷ class.now.interfaces) place below.old.items below.new.items) }
{
    add_to(below, class.superclass, place)?;
    add_to_each(below, class.interfaces.as_slice(), place)?;
    Ok(())
}

/// The places of the classes directly below each type.
fn classes_below(alloc: Global, program: &Program) -> Result<Vec<Vec<u32>>, AllocError>
    requires { length program.now.classes < 2 ^ 32 }
    ensures { IfOk result (λ below. AreRows (is_below program.now) (length program.now.types) below.items) }
{
    let mut below = empty_lists(alloc, program.types.len())?;
    let classes = program.classes.as_slice();
    for place in 0..classes.len() as u32 {
        add_below(&mut below, &classes[place as usize], place)?;
    }
    Ok(below)
}

/// The methods of each type.
fn methods_by_class(alloc: Global, program: &Program) -> Result<Vec<Vec<u32>>, AllocError>
    requires { length program.now.methods < 2 ^ 32 }
    ensures { IfOk result (λ methods. AreRows (is_method_of program.now) (length program.now.types) methods.items) }
{
    let mut methods = empty_lists(alloc, program.types.len())?;
    let names = program.methods.as_slice();
    for number in 0..names.len() as u32 {
        add_to(&mut methods, names[number as usize].class, number)?;
    }
    Ok(methods)
}

/// The tables of a program.
pub fn view_of<'p>(
    alloc: Global,
    program: &'p Program,
    hierarchy: &'p Hierarchy,
) -> Result<View<'p>, AllocError>
    requires types { length program.now.types < 2 ^ 32 }
    requires classes { length program.now.classes < 2 ^ 32 }
    requires methods { length program.now.methods < 2 ^ 32 }
    ensures program { IfOk result (λ view. view.program.now ≡ program.now) }
    ensures ready { is_well_formed program.now ≡ true → IsOf program.now hierarchy.now → IfOk result IsReady }
{
    Ok(View {
        program,
        types: types_by_name(alloc, program)?,
        hierarchy,
        below: classes_below(alloc, program)?,
        methods: methods_by_class(alloc, program)?,
    })
}
