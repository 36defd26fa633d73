//! The classes (Dalvik executable format, "class_def_item").

ghost use Rattle.std.specs.Prelude.{◌≡◌, ◌+◌, ◌*◌, ◌^◌, ◌≤◌, ◌<◌, ◌++◌, length, map, IfOk, OnOk, IfErr};
ghost use Rattle.std.specs.List.{list_all};
ghost use Rattle.dex_base.specs.Reading.{Gives};
ghost use Rattle.program_model.specs.MemberRules.{is_object};
ghost use Rattle.program_model.specs.Texts.{string_text, type_text};
ghost use Rattle.dex_read.specs.Counts.{CountsInFile};
ghost use Rattle.dex_read.specs.Ascending.{AllAscend};
ghost use Rattle.dex_read.specs.Classes.{index_at, def_at, interfaces_at, is_class_type, root_at, field_with, listed_at, marked_at, begun_at, source_of, methods_of, class_with, class_at};
ghost use Rattle.dex_read.specs.Code.{method_at};
ghost use Rattle.dex_read.specs.Directory.{marked};
ghost use Rattle.dex_read.specs.Faults.{is_free};
ghost use Rattle.dex_read.specs.Steps.{behind, for_each};

use crate::below::{types_of, word_of};
use crate::class_data::{Listed, Members, read_members};
use crate::code::method_of;
use crate::directory::read_directory;
use crate::fault::DexFault;
use crate::first_values::read_first_values;
use crate::members::{Budget, Owner, Source};
use dex_pools::PoolFault;
use program_model::{Class, Field, Flags, Mark, Method, Program};
use seq::Seq;
use std::alloc::{AllocError, Global};

/// The index that stands for none.
const NO_INDEX: u32 = 0xffff_ffff;

/// The numbers of a class_def.
#[derive(Clone, Copy, Drop)]
pub struct ClassDef {
    pub class: u32,
    pub flags: u32,
    pub superclass: u32,
    pub interfaces: u32,
    pub source: u32,
    pub annotations: u32,
    pub data_at: u32,
    pub static_values: u32,
}

/// The index at `at`, which is below the size of its table or, where it may be, none.
#[tactic(auto, unfolding(crate::specs::Classes::index_at))]
fn index_of(bytes: &[u8], at: usize, size: u32, may_be_none: bool) -> Result<u32, DexFault>
    ensures gives { Gives is_free (λ n. n) result (index_at bytes.now at size may_be_none) }
    ensures counts { IfErr result CountsInFile }
{
    let value = word_of(bytes, at)?;
    if value < size || (may_be_none && value == NO_INDEX) {
        Ok(value)
    } else {
        Err(DexFault::Pool(PoolFault::Index { at, value, size }))
    }
}

/// The class_def at `at`.
#[tactic(auto, unfolding(crate::specs::Classes::def_at))]
fn def_of(source: &Source, at: usize) -> Result<ClassDef, DexFault>
    requires { at + 32 ≤ length source.now.bytes.now }
    ensures gives { Gives is_free (λ d. d) result (def_at source.now.bytes.now source.now.program.now at) }
    ensures counts { IfErr result CountsInFile }
{
    let bytes = source.bytes;
    let class = index_of(bytes, at, source.sizes.types, false)?;
    let flags = word_of(bytes, at + 4)?;
    let superclass = index_of(bytes, at + 8, source.sizes.types, true)?;
    let interfaces = word_of(bytes, at + 12)?;
    let source_file = index_of(bytes, at + 16, source.sizes.strings, true)?;
    let annotations = word_of(bytes, at + 20)?;
    let data_at = word_of(bytes, at + 24)?;
    let static_values = word_of(bytes, at + 28)?;
    Ok(ClassDef {
        class,
        flags,
        superclass,
        interfaces,
        source: source_file,
        annotations,
        data_at,
        static_values,
    })
}

/// The interfaces of a class.
#[tactic(auto, unfolding(crate::specs::Classes::interfaces_at))]
fn interfaces_of(
    alloc: Global,
    source: &Source,
    offset: u32,
    left: &mut u32,
) -> Result<Seq<u32>, DexFault>
    ensures gives { Gives is_free (λ v. (v, left.new)) result (interfaces_at source.now.bytes.now source.now.program.now offset left.old) }
    ensures counts { IfErr result CountsInFile }
{
    if offset == 0 {
        Ok(Seq::new(alloc))
    } else {
        let kinds = types_of(
            alloc,
            source.bytes,
            offset as usize,
            source.sizes.types,
            left,
        )?;
        Ok(Seq::of_vec(kinds))
    }
}

/// The units of a string, none where there is none.
fn string_units(program: &Program, string: u32) -> &[u16]
    ensures { result.now ≡ string_text program.now string }
{
    match program.strings.items.get(string as usize) {
        Some(text) => text.units(),
        None => &[],
    }
}

/// The units of a type's descriptor, none where there is no such type.
#[tactic(auto, unfolding(program_model::specs::Texts::type_text))]
fn type_units(program: &Program, kind: u32) -> &[u16]
    ensures { result.now ≡ type_text program.now kind }
{
    match program.types.items.get(kind as usize) {
        Some(string) => string_units(program, *string),
        None => &[],
    }
}

/// Whether the units are `Ljava/lang/Object;`.
fn is_object(units: &[u16]) -> bool
    ensures { result ≡ is_object units.now }
{
    let object: [u16; 18] = [
        76, 106, 97, 118, 97, 47, 108, 97, 110, 103, 47, 79, 98, 106, 101, 99, 116, 59,
    ];
    units == object.as_slice()
}

/// Whether the type is a class type.
fn is_class_type(source: &Source, kind: u32) -> bool
    ensures { result ≡ is_class_type source.now.program.now kind }
{
    source.letter(kind) == 76
}

/// Whether each of the types is a class type.
fn are_class_types(source: &Source, kinds: &[u32]) -> bool
    ensures { result ≡ list_all (is_class_type source.now.program.now) kinds.now }
{
    kinds.iter().all(|kind| is_class_type(source, *kind))
}

/// That the class has a superclass, is not `Ljava/lang/Object;`, and that it, its superclass and its interfaces are
/// class types.
#[tactic(auto, unfolding(crate::specs::Classes::root_at))]
fn check_root(
    source: &Source,
    def: ClassDef,
    interfaces: &[u32],
    place: u32,
) -> Result<(), DexFault>
    ensures gives { Gives is_free (λ u. u) result (root_at source.now.program.now def interfaces.now place) }
    ensures counts { IfErr result CountsInFile }
{
    let fits = def.superclass != NO_INDEX
        && (!is_object(type_units(source.program, def.class))
            && (is_class_type(source, def.class)
                && (is_class_type(source, def.superclass) && are_class_types(source, interfaces))));
    if fits {
        Ok(())
    } else {
        Err(DexFault::Root { class: place })
    }
}

/// A field without annotations and first value.
fn field_with(alloc: Global, entry: Listed) -> Field
    ensures { result ≡ field_with entry }
{
    Field {
        name: entry.number,
        flags: entry.flags,
        first: None,
        marks: Seq::new(alloc),
    }
}

/// Adds the listed fields.
fn push_fields(alloc: Global, entries: &[Listed], fields: &mut Vec<Field>) -> Result<(), AllocError>
    ensures { OnOk result (fields.new.items ≡ fields.old.items ++ map field_with entries.now) }
{
    for entry in entries {
        fields.push(field_with(alloc, *entry))?;
    }
    Ok(())
}

/// The listed fields, static ones first.
#[tactic(auto, using(crate::proofs::Changes::map_both))]
fn listed_fields(alloc: Global, listed: &Members) -> Result<Vec<Field>, AllocError>
    ensures { IfOk result (λ v. v.items ≡ map field_with (listed.now.statics ++ listed.now.instances)) }
{
    let mut fields = Vec::new(alloc);
    push_fields(alloc, listed.statics.as_slice(), &mut fields)?;
    push_fields(alloc, listed.instances.as_slice(), &mut fields)?;
    Ok(fields)
}

/// The members of the class whose class data stands at `offset`, none where that is 0.
fn listed_of(alloc: Global, source: &Source, owner: Owner, offset: u32) -> Result<Members, DexFault>
    ensures gives { Gives is_free (λ m. m) result (listed_at source.now.bytes.now source.now.program.now owner offset) }
    ensures ascend { IfOk result AllAscend }
    ensures counts { IfErr result CountsInFile }
{
    if offset == 0 {
        Ok(Members {
            statics: Seq::new(alloc),
            instances: Seq::new(alloc),
            directs: Seq::new(alloc),
            virtuals: Seq::new(alloc),
        })
    } else {
        read_members(alloc, source, owner, offset as usize)
    }
}

/// Adds the listed methods with their code. `units` is a list to work in.
fn push_methods(
    alloc: Global,
    source: &Source,
    entries: &[Listed],
    methods: &mut Vec<Method>,
    budget: &mut Budget,
    units: &mut Vec<u16>,
) -> Result<(), DexFault>
    ensures gives { Gives is_free (λ u. (methods.new.items, budget.new)) result (behind methods.old.items (for_each (method_at source.now.bytes.now source.now.program.now) entries.now budget.old)) }
    ensures counts { IfErr result CountsInFile }
{
    for entry in entries {
        let method = method_of(alloc, source, *entry, budget, units)?;
        methods.push(method)?;
    }
    Ok(())
}

/// The listed methods with their code, direct ones first. `units` is a list to work in.
#[tactic(auto, using(crate::proofs::Steps::for_both, crate::proofs::Steps::both_fail), unfolding(crate::specs::Classes::methods_of))]
fn listed_methods(
    alloc: Global,
    source: &Source,
    listed: &Members,
    budget: &mut Budget,
    units: &mut Vec<u16>,
) -> Result<Vec<Method>, DexFault>
    ensures gives { Gives is_free (λ v. (v.items, budget.new)) result (methods_of source.now.bytes.now source.now.program.now listed.now budget.old) }
    ensures counts { IfErr result CountsInFile }
{
    let mut methods = Vec::new(alloc);
    push_methods(
        alloc,
        source,
        listed.directs.as_slice(),
        &mut methods,
        budget,
        units,
    )?;
    push_methods(
        alloc,
        source,
        listed.virtuals.as_slice(),
        &mut methods,
        budget,
        units,
    )?;
    Ok(methods)
}

/// Reads the directory at `offset` into the members, none where that is 0, and answers the annotations of the class.
#[tactic(auto, unfolding(crate::specs::Classes::marked_at))]
fn marked_of(
    alloc: Global,
    source: &Source,
    class: u32,
    listed: &Members,
    offset: u32,
    fields: &mut Vec<Field>,
    methods: &mut Vec<Method>,
    left: &mut u32,
) -> Result<Seq<Mark>, DexFault>
    requires ascend { AllAscend listed.now }
    ensures gives { Gives is_free (λ marks. marked marks fields.new.items methods.new.items left.new) result (marked_at source.now.bytes.now source.now.program.now class listed.now offset fields.old.items methods.old.items left.old) }
    ensures counts { IfErr result CountsInFile }
{
    if offset == 0 {
        Ok(Seq::new(alloc))
    } else {
        read_directory(alloc, source, class, listed, offset, fields, methods, left)
    }
}

/// Reads the first values at `offset` into the static fields, none where that is 0.
#[tactic(auto, unfolding(crate::specs::Classes::begun_at))]
fn begun_of(
    alloc: Global,
    source: &Source,
    offset: u32,
    statics: usize,
    fields: &mut Vec<Field>,
    left: &mut u32,
) -> Result<(), DexFault>
    ensures gives { Gives is_free (λ u. (fields.new.items, left.new)) result (begun_at source.now.bytes.now source.now.program.now offset statics fields.old.items left.old) }
    ensures counts { IfErr result CountsInFile }
{
    if offset == 0 {
        Ok(())
    } else {
        read_first_values(alloc, source, offset as usize, statics, fields, left)
    }
}

/// The source file's string, if there is one.
fn source_of(number: u32) -> Option<u32>
    ensures { result ≡ source_of number }
{
    if number == NO_INDEX {
        None
    } else {
        Some(number)
    }
}

/// The class of a class_def with its interfaces, its annotations and its members.
fn class_with(
    def: ClassDef,
    interfaces: Seq<u32>,
    marks: Seq<Mark>,
    fields: Vec<Field>,
    methods: Vec<Method>,
) -> Class
    ensures { result ≡ class_with def interfaces (marked marks fields.items methods.items 0) fields.items }
{
    Class {
        name: def.class,
        flags: Flags(def.flags),
        superclass: def.superclass,
        interfaces,
        source: source_of(def.source),
        marks,
        fields: Seq::of_vec(fields),
        methods: Seq::of_vec(methods),
    }
}

/// The class at this place, whose class_def stands at `at`. `units` is a list to work in.
#[tactic(auto, unfolding(crate::specs::Classes::class_at))]
pub fn read_class(
    alloc: Global,
    source: &Source,
    at: usize,
    place: u32,
    budget: &mut Budget,
    units: &mut Vec<u16>,
) -> Result<Class, DexFault>
    requires { at + 32 ≤ length source.now.bytes.now }
    ensures gives { Gives is_free (λ class. (class, budget.new)) result (class_at source.now.bytes.now source.now.program.now at place budget.old) }
    ensures counts { IfErr result CountsInFile }
{
    let def = def_of(source, at)?;
    let mut left = budget.items;
    let interfaces = interfaces_of(alloc, source, def.interfaces, &mut left)?;
    check_root(source, def, interfaces.as_slice(), place)?;
    let owner = Owner {
        place,
        kind: def.class,
    };
    let listed = listed_of(alloc, source, owner, def.data_at)?;
    budget.items = left;
    let mut methods = listed_methods(alloc, source, &listed, budget, units)?;
    let mut fields = listed_fields(alloc, &listed)?;
    let mut left = budget.items;
    let marks = marked_of(
        alloc,
        source,
        place,
        &listed,
        def.annotations,
        &mut fields,
        &mut methods,
        &mut left,
    )?;
    let statics = listed.statics.len();
    begun_of(
        alloc,
        source,
        def.static_values,
        statics,
        &mut fields,
        &mut left,
    )?;
    budget.items = left;
    Ok(class_with(def, interfaces, marks, fields, methods))
}
