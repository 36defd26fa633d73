//! What the framework may reach.

ghost use Rattle.std.specs.Prelude.{◌≡◌, ◌<◌, ◌++◌, ◌&&◌, not, ℕ, true, false, length, map, nat_eq, nat_lt, cond, replicate, Some, slice_get, slice_index_or, slice_set, IfOk, OnOk};
ghost use Rattle.std.specs.List.{list_any, list_all};
ghost use Rattle.program_model.specs.declared.pass.Outside.{Outside};
ghost use Rattle.program_model.specs.declared.program.Class.{Class};
ghost use Rattle.program_model.specs.declared.program.Program.{Program};
ghost use Rattle.program_model.specs.Texts.{has_type};
ghost use Rattle.hierarchy.specs.Walking.{waits, IsFair};
ghost use Rattle.dalvik_defs.specs.Names.{is_array};
ghost use Rattle.dalvik_defs.specs.Naming.{type_at, named};
ghost use Rattle.dalvik_defs.specs.Under.{is_outward};
ghost use Rattle.dalvik_lookups.specs.Views.{type_text, IsKind};
ghost use Rattle.dalvik_lookups.specs.Tables.{kind_in, HasNames, IsRight};
ghost use Rattle.dalvik_lookups.specs.Listing.{Climbs};
ghost use Rattle.dalvik_lookups.specs.Walks.{IsKept};
ghost use Rattle.dalvik_lookups.specs.Reached.{is_among, has_descriptor, constructed_kind, constructed_kinds, is_framework_type, touches_at, reaches_framework, AreMarks, AreBaseMarks, AreTypeMarks, MarksMore, IsOuter};

use crate::listing::{enter, enter_above};
use crate::lookups::{Lookups, Names, kind_at};
use crate::memo::Memo;
use crate::naming::is_constructor;
use crate::types::{Kind, Types};
use hierarchy::Walk;
use program_model::{Class, Outside, Program};
use std::alloc::{AllocError, Global};

/// Marks for kept classes and those of which a constructor is kept by the number of their type, kept methods and fields
/// by their numbers, and the methods that no type of the framework declares.
#[derive(Drop)]
pub struct Outer {
    classes: Vec<bool>,
    constructed: Vec<bool>,
    methods: Vec<bool>,
    fields: Vec<bool>,
    shut: Vec<bool>,
}

/// Marks a place, unless that is past the end.
fn mark(marks: &mut [bool], place: usize)
    ensures { marks.new ≡ slice_set marks.old place true }
{
    if place < marks.len() {
        marks[place] = true;
    }
}

/// Marks these places, of those that there are.
fn mark_all(marks: &mut [bool], numbers: &[u32])
    ensures { MarksMore marks.old numbers.now marks.new }
{
    for number in numbers {
        mark(marks, *number as usize);
    }
}

/// Marks for these of so many numbers.
fn marks(alloc: Global, count: usize, numbers: &[u32]) -> Result<Vec<bool>, AllocError>
    ensures { IfOk result (λ marks. AreMarks count numbers.now marks.items) }
{
    let mut marks = vec![in alloc; false; count]?;
    mark_all(marks.as_mut_slice(), numbers);
    Ok(marks)
}

/// Whether a number of the table is that of a type that is no array.
fn is_plain_type(program: &Program, kinds: &[Kind], number: u32) -> bool
    ensures { result ≡ (nat_lt number (length program.now.types) && nat_eq (kind_in kinds.now number).depth 0) }
{
    (number as usize) < program.types.len() && !kind_at(kinds, number).is_array()
}

/// Marks the type of a number, unless that is past the table or an array.
fn mark_type(program: &Program, kinds: &[Kind], number: u32, marks: &mut [bool])
    ensures { marks.new ≡ cond (nat_lt number (length program.now.types) && nat_eq (kind_in kinds.now number).depth 0) (slice_set marks.old (kind_in kinds.now number).base true) marks.old }
{
    if is_plain_type(program, kinds, number) {
        mark(marks, kind_at(kinds, number).base);
    }
}

/// Marks the types of these numbers, of those that are no arrays.
fn mark_types(program: &Program, kinds: &[Kind], numbers: &[u32], marks: &mut [bool])
    ensures { (count : ℕ) → marks.old ≡ replicate count false → AreBaseMarks program.now kinds.now count numbers.now marks.new }
{
    for number in numbers {
        mark_type(program, kinds, *number, marks);
    }
}

/// Marks for the types of these numbers, by so many numbers of types.
fn base_marks(
    alloc: Global,
    program: &Program,
    kinds: &[Kind],
    count: usize,
    numbers: &[u32],
) -> Result<Vec<bool>, AllocError>
    ensures { IfOk result (λ marks. AreBaseMarks program.now kinds.now count numbers.now marks.items) }
{
    let mut marks = vec![in alloc; false; count]?;
    mark_types(program, kinds, numbers, marks.as_mut_slice());
    Ok(marks)
}

/// Marks for the types of these numbers, by the numbers of their descriptors.
fn type_marks(
    alloc: Global,
    program: &Program,
    names: &Names<'_>,
    numbers: &[u32],
) -> Result<Vec<bool>, AllocError>
    ensures { HasNames program.now names.now → IfOk result (λ marks. AreTypeMarks program.now names.now.types numbers.now marks.items) }
{
    let kinds = names.kinds.as_slice();
    let marks = base_marks(alloc, program, kinds, names.types.len(), numbers)?;
    Ok(marks)
}

/// Adds the type of a method number, where that is a constructor.
fn add_constructed(program: &Program, method: u32, kinds: &mut Vec<u32>) -> Result<(), AllocError>
    ensures { OnOk result (kinds.new.items ≡ kinds.old.items ++ constructed_kind program.now (slice_get program.now.methods method)) }
{
    match program.methods.as_slice().get(method as usize) {
        Some(name) => {
            if is_constructor(program, name) {
                kinds.push(name.class)?;
            }
            Ok(())
        }
        None => Ok(()),
    }
}

/// Adds the types of which these methods are constructors.
fn add_all_constructed(
    program: &Program,
    methods: &[u32],
    kinds: &mut Vec<u32>,
) -> Result<(), AllocError>
    ensures { OnOk result (kinds.new.items ≡ kinds.old.items ++ constructed_kinds program.now methods.now) }
{
    for method in methods {
        add_constructed(program, *method, kinds)?;
    }
    Ok(())
}

/// Marks for the types of which these methods are constructors.
fn constructed_marks(
    alloc: Global,
    program: &Program,
    names: &Names<'_>,
    methods: &[u32],
) -> Result<Vec<bool>, AllocError>
    ensures { HasNames program.now names.now → IfOk result (λ marks. AreTypeMarks program.now names.now.types (constructed_kinds program.now methods.now) marks.items) }
{
    let mut kinds = Vec::new(alloc);
    add_all_constructed(program, methods, &mut kinds)?;
    let marks = type_marks(alloc, program, names, kinds.as_slice())?;
    Ok(marks)
}

/// What the framework may reach of a program with these names.
pub(crate) fn outer_of(
    alloc: Global,
    program: &Program,
    outside: &Outside,
    names: &Names<'_>,
) -> Result<Outer, AllocError>
    ensures members { IfOk result (IsOuter program.now outside.now) }
    ensures classes { HasNames program.now names.now → IfOk result (λ outer. AreTypeMarks program.now names.now.types outside.now.classes outer.classes.items) }
    ensures constructed { HasNames program.now names.now → IfOk result (λ outer. AreTypeMarks program.now names.now.types (constructed_kinds program.now outside.now.methods) outer.constructed.items) }
{
    let classes = type_marks(alloc, program, names, outside.classes.as_slice())?;
    let constructed = constructed_marks(alloc, program, names, outside.methods.as_slice())?;
    let methods = marks(alloc, program.methods.len(), outside.methods.as_slice())?;
    let fields = marks(alloc, program.fields.len(), outside.fields.as_slice())?;
    let shut = marks(alloc, program.methods.len(), outside.shut.as_slice())?;
    Ok(Outer {
        classes,
        constructed,
        methods,
        fields,
        shut,
    })
}

/// Whether a place is marked.
pub(crate) fn is_on(marks: &[bool], place: usize) -> bool
    ensures { result ≡ slice_index_or marks.now place false }
{
    match marks.get(place) {
        Some(mark) => *mark,
        None => false,
    }
}

impl Outer {
    /// Whether a class is kept. An array is no class.
    pub fn keeps_class(&self, kind: Kind) -> bool
        ensures { (p : Program) (o : Outside) (t : Types) → AreTypeMarks p t o.classes self.now.classes.items → IsKind t kind → result ≡ (not (is_array (type_text t kind)) && list_any (has_descriptor p (type_text t kind)) o.classes) }
    {
        !kind.is_array() && is_on(self.classes.as_slice(), kind.base)
    }

    /// Whether a constructor of a class is kept. An array is no class.
    pub fn keeps_constructor_of(&self, kind: Kind) -> bool
        ensures { (p : Program) (o : Outside) (t : Types) → AreTypeMarks p t (constructed_kinds p o.methods) self.now.constructed.items → IsKind t kind
            → result ≡ (not (is_array (type_text t kind)) && list_any (has_descriptor p (type_text t kind)) (constructed_kinds p o.methods)) }
    {
        !kind.is_array() && is_on(self.constructed.as_slice(), kind.base)
    }

    /// Whether a method is kept.
    pub fn keeps_method(&self, method: u32) -> bool
        ensures { (p : Program) (o : Outside) → IsOuter p o self.now → result ≡ is_among (length p.methods) o.methods method }
    {
        is_on(self.methods.as_slice(), method as usize)
    }

    /// Whether a field is kept.
    pub fn keeps_field(&self, field: u32) -> bool
        ensures { (p : Program) (o : Outside) → IsOuter p o self.now → result ≡ is_among (length p.fields) o.fields field }
    {
        is_on(self.fields.as_slice(), field as usize)
    }

    /// Whether no type of the framework declares the method.
    pub fn is_shut(&self, method: u32) -> bool
        ensures { (p : Program) (o : Outside) → IsOuter p o self.now → result ≡ is_among (length p.methods) o.shut method }
    {
        is_on(self.shut.as_slice(), method as usize)
    }
}

impl<'a> Lookups<'a> {
    /// Whether a type is the framework's, other than `Ljava/lang/Object;`.
    fn is_framework_type(&self, kind: u32) -> bool
        ensures { IsRight self.now → kind < length self.now.program.now.types → result ≡ is_framework_type (named self.now.program.now) (type_at self.now.program.now kind) }
    {
        let named = self.kind(kind);
        match self.class_at(named) {
            Some(_) => false,
            None => !Types::is_object(named),
        }
    }

    /// Whether one of these types is the framework's, other than `Ljava/lang/Object;`.
    fn lists_framework_type(&self, kinds: &[u32]) -> bool
        ensures { IsRight self.now → list_all (has_type self.now.program.now) kinds.now ≡ true → result ≡ list_any (is_framework_type (named self.now.program.now)) (map (type_at self.now.program.now) kinds.now) }
    {
        for kind in kinds {
            if self.is_framework_type(*kind) {
                return true;
            }
        }
        false
    }

    /// Whether a type of the framework other than `Ljava/lang/Object;` stands directly above a class.
    fn touches_framework(&self, class: u32) -> bool
        ensures { IsRight self.now → result ≡ touches_at self.now.program.now class }
    {
        match self.class(class) {
            Some(defined) => {
                self.is_framework_type(defined.superclass)
                    || self.lists_framework_type(defined.interfaces.as_slice())
            }
            None => false,
        }
    }

    /// Whether one of the classes that the walk comes to stands directly under the framework, where a class was just
    /// entered.
    fn climb_out(&self, walk: &mut Walk) -> Result<bool, AllocError>
        ensures fair { IsFair walk.old → IsFair walk.new }
        ensures size { length walk.new.seen.items ≡ length walk.old.seen.items }
        ensures is { (class : ℕ) → IsRight self.now → Climbs self.now.program.now class (touches_at self.now.program.now) walk.old.seen.items (waits walk.old) → IfOk result (λ b. b ≡ reaches_framework (length self.now.program.now.classes) self.now.program.now class) }
    {
        while let Some(one) = walk.pop() {
            if self.touches_framework(one) {
                return Ok(true);
            }
            enter_above(&self.hierarchy, walk, one)?;
        }
        Ok(false)
    }

    /// Whether a class has an ancestor of the framework other than `Ljava/lang/Object;`.
    pub fn is_outward(&self, memo: &mut Memo, class: u32) -> Result<bool, AllocError>
        ensures kept { IsKept self.now memo.old → IsKept self.now memo.new }
        ensures is { (c : Class) → IsRight self.now → IsKept self.now memo.old → slice_get self.now.program.now.classes class ≡ Some c → IfOk result (λ b. b ≡ is_outward (named self.now.program.now) (type_at self.now.program.now c.name)) }
    {
        memo.walk.clear();
        enter(&mut memo.walk, class)?;
        let found = self.climb_out(&mut memo.walk)?;
        Ok(found)
    }
}
