//! What the search for live members looks up.

ghost use Rattle.std.specs.Prelude.{◌≡◌, ◌<◌, ◌++◌, ◌⊎◌, ℕ, Some, slice_get, length, IfOk, OnOk, vec_len, Contains, true};
ghost use Rattle.call_graph.specs.Follows.{can_be_made};
ghost use Rattle.call_graph.specs.Lists.{row_of, size_of};
ghost use Rattle.program_model.specs.ProgramRules.{is_well_formed};
ghost use Rattle.hierarchy.specs.Shapes.{IsResolved};
ghost use Rattle.class_defs.specs.Members.{is_common};
ghost use Rattle.hierarchy.specs.Membership.{key_at};
ghost use Rattle.call_graph.specs.Least.{AreCommon};
ghost use Rattle.call_graph.specs.Objects.{HasCommon};
ghost use Rattle.call_graph.specs.Tables.{field_if, method_if, fields_if, methods_if, classes_if, AreRows, AreMarked, AreTables};

use crate::bases::{bases, object_kind, word};
use crate::common::is_common;
use crate::lists::Lists;
use hierarchy::Hierarchy;
use program_model::{Class, Flags, MethodName, Outside, Program};
use std::alloc::{AllocError, Global};

/// What the search looks up. `bases` has for each type the type of the program class that it is, or that it
/// is an array of. `object` is the type of `Ljava/lang/Object;`, and `of_object` are the keys of the five methods that
/// the framework may call on every object. `shut` says by method number whether a method is shut. The conditional
/// members stand by the type of their class, the conditional classes by that of their owner.
#[derive(Drop)]
pub struct Tables {
    pub bases: Vec<u32>,
    pub object: u32,
    pub of_object: Vec<u32>,
    pub shut: Vec<bool>,
    pub fields_if: Lists,
    pub methods_if: Lists,
    pub classes_if: Lists,
}

impl Tables {
    /// The tables of a program.
    pub fn new(
        alloc: Global,
        program: &Program,
        hierarchy: &Hierarchy,
        outside: &Outside,
    ) -> Result<Tables, AllocError>
        ensures are { IfOk result (λ tables. AreTables program.now outside.now tables) }
        ensures common { is_well_formed program.now ≡ true → IsResolved program.now hierarchy.now → IfOk result (λ tables. HasCommon program.now hierarchy.now tables.of_object.items) }
        ensures keys { is_well_formed program.now ≡ true → IsResolved program.now hierarchy.now → IfOk result (λ tables. AreCommon program.now hierarchy.now tables.of_object.items) }
    {
        Ok(Tables {
            bases: bases(alloc, program)?,
            object: object_kind(program),
            of_object: keys_of_object(alloc, program, hierarchy)?,
            shut: marked(alloc, program.methods.len(), outside.shut.as_slice())?,
            fields_if: fields_by_class(alloc, program, outside)?,
            methods_if: methods_by_class(alloc, program, outside)?,
            classes_if: classes_by_owner(alloc, program, outside)?,
        })
    }
}

/// The keys of the five methods that the framework may call on every object, as far as the program names them.
fn keys_of_object(
    alloc: Global,
    program: &Program,
    hierarchy: &Hierarchy,
) -> Result<Vec<u32>, AllocError>
    ensures has { is_well_formed program.now ≡ true → IsResolved program.now hierarchy.now → IfOk result (λ keys. HasCommon program.now hierarchy.now keys.items) }
    ensures only { is_well_formed program.now ≡ true → IsResolved program.now hierarchy.now → IfOk result (λ keys. AreCommon program.now hierarchy.now keys.items) }
{
    let mut keys = Vec::new(alloc);
    for (number, name) in program.methods.as_slice().iter().enumerate() {
        add_key(program, hierarchy, word(number), name, &mut keys)?;
    }
    Ok(keys)
}

/// Adds the key of a method, where every object answers to it.
fn add_key(
    program: &Program,
    hierarchy: &Hierarchy,
    number: u32,
    name: &MethodName,
    keys: &mut Vec<u32>,
) -> Result<(), AllocError>
    ensures keeps { OnOk result ((n : ℕ) → Contains keys.old.items n → Contains keys.new.items n) }
    ensures has { is_common program.now name.now.name name.now.proto ≡ true → OnOk result (Contains keys.new.items (key_at hierarchy.now.named.method_keys.keys.items number)) }
    ensures only { slice_get program.now.methods number ≡ Some name.now → AreCommon program.now hierarchy.now keys.old.items → OnOk result (AreCommon program.now hierarchy.now keys.new.items) }
{
    if is_common(program, name) {
        add_once(keys, hierarchy.key_of_method(number))?;
        Ok(())
    } else {
        Ok(())
    }
}

/// Adds a number to a list that doesn't have it.
fn add_once(numbers: &mut Vec<u32>, number: u32) -> Result<(), AllocError>
    ensures keeps { OnOk result ((n : ℕ) → Contains numbers.old.items n → Contains numbers.new.items n) }
    ensures has { OnOk result (Contains numbers.new.items number) }
    ensures only { OnOk result ((n : ℕ) → Contains numbers.new.items n → Contains numbers.old.items n ⊎ (n ≡ number)) }
{
    if !numbers.as_slice().contains(&number) {
        numbers.push(number)?;
    }
    Ok(())
}

/// A table of this size on which these numbers are marked.
fn marked(alloc: Global, size: usize, numbers: &[u32]) -> Result<Vec<bool>, AllocError>
    ensures size { IfOk result (λ marks. vec_len marks ≡ size) }
    ensures marked { IfOk result (λ marks. AreMarked numbers.now marks.items) }
{
    let mut marks = vec![in alloc; false; size]?;
    for number in numbers {
        if let Some(mark) = marks.get_mut(*number as usize) {
            *mark = true;
        }
    }
    Ok(marks)
}

/// Adds a field to the list of its class.
fn add_field(lists: &mut Lists, program: &Program, number: u32) -> Result<(), AllocError>
    ensures size { OnOk result (size_of lists.new ≡ size_of lists.old) }
    ensures rows { OnOk result ((n : ℕ) → n < size_of lists.old → row_of lists.new n ≡ row_of lists.old n ++ field_if program.now n number) }
{
    match program.fields.as_slice().get(number as usize) {
        Some(field) => lists.add(field.class, number),
        None => Ok(()),
    }
}

/// The conditional fields by the type of their class.
fn fields_by_class(alloc: Global, program: &Program, outside: &Outside) -> Result<Lists, AllocError>
    ensures { IfOk result (λ lists. AreRows program.now (row_of lists) (fields_if program.now outside.now)) }
{
    let mut lists = Lists::new(alloc, program.types.len())?;
    for number in outside.fields_if.as_slice() {
        add_field(&mut lists, program, *number)?;
    }
    Ok(lists)
}

/// Adds a method to the list of its class.
fn add_method(lists: &mut Lists, program: &Program, number: u32) -> Result<(), AllocError>
    ensures size { OnOk result (size_of lists.new ≡ size_of lists.old) }
    ensures rows { OnOk result ((n : ℕ) → n < size_of lists.old → row_of lists.new n ≡ row_of lists.old n ++ method_if program.now n number) }
{
    match program.methods.as_slice().get(number as usize) {
        Some(method) => lists.add(method.class, number),
        None => Ok(()),
    }
}

/// The conditional methods by the type of their class.
fn methods_by_class(
    alloc: Global,
    program: &Program,
    outside: &Outside,
) -> Result<Lists, AllocError>
    ensures { IfOk result (λ lists. AreRows program.now (row_of lists) (methods_if program.now outside.now)) }
{
    let mut lists = Lists::new(alloc, program.types.len())?;
    for number in outside.methods_if.as_slice() {
        add_method(&mut lists, program, *number)?;
    }
    Ok(lists)
}

/// The conditional classes by the type of their owner.
fn classes_by_owner(
    alloc: Global,
    program: &Program,
    outside: &Outside,
) -> Result<Lists, AllocError>
    ensures { IfOk result (λ lists. AreRows program.now (row_of lists) (classes_if outside.now)) }
{
    let mut lists = Lists::new(alloc, program.types.len())?;
    for one in outside.classes_if.as_slice() {
        lists.add(one.owner, one.class)?;
    }
    Ok(lists)
}

/// Whether objects of the class can be made: it is neither abstract nor an interface.
pub fn can_be_made(class: &Class) -> bool
    ensures { result ≡ can_be_made class.now }
{
    !class.flags.has(Flags::ABSTRACT) && !class.flags.has(Flags::INTERFACE)
}
