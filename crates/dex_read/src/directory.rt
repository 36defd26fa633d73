//! The annotations of a class and its members (Dalvik executable format, "annotations_directory_item").

ghost use Rattle.std.specs.Prelude.{◌≡◌, ◌+◌, ◌*◌, ◌^◌, ◌≤◌, ◌<◌, ◌++◌, length, vec_len, IfErr};
ghost use Rattle.dex_base.specs.Reading.{Gives};
ghost use Rattle.dex_read.specs.Counts.{CountsInFile};
ghost use Rattle.dex_read.specs.Ascending.{AllAscend, Ascends};
ghost use Rattle.dex_read.specs.ClassData.{place_in};
ghost use Rattle.dex_read.specs.Directory.{set_at, sets_at, pair_at, found_at, named_at, with_marks, with_own_marks, with_parameter_marks, mark_field, mark_method, mark_parameters, marked, marked_members, directory_at};
ghost use Rattle.dex_read.specs.Faults.{is_free};
ghost use Rattle.dex_read.specs.Steps.{steps, change_at};

use crate::below::{marks_of, parameter_marks_of, word_of};
use crate::class_data::{Listed, Members, check_ascends, place_of};
use crate::fault::DexFault;
use crate::header::need;
use crate::members::Source;
use dex_pools::PoolFault;
use program_model::{Field, Mark, Method};
use seq::Seq;
use std::alloc::Global;

/// One entry of a list of the directory: the member that it is for and where its annotations stand.
#[derive(Clone, Copy, Drop)]
struct Pair {
    number: u32,
    offset: u32,
}

/// The annotation set at `offset`, none where that is 0.
#[tactic(auto, unfolding(crate::specs::Directory::set_at))]
fn set_of(
    alloc: Global,
    source: &Source,
    offset: u32,
    left: &mut u32,
) -> Result<Seq<Mark>, DexFault>
    ensures gives { Gives is_free (λ v. (v, left.new)) result (set_at source.now.bytes.now source.now.program.now offset left.old) }
    ensures counts { IfErr result CountsInFile }
{
    if offset == 0 {
        Ok(Seq::new(alloc))
    } else {
        let marks = marks_of(alloc, source.bytes, offset as usize, source.sizes, left)?;
        Ok(Seq::of_vec(marks))
    }
}

/// The annotation sets of a method's parameters at `offset`, none where that is 0.
#[tactic(auto, unfolding(crate::specs::Directory::sets_at))]
fn sets_of(
    alloc: Global,
    source: &Source,
    offset: u32,
    left: &mut u32,
) -> Result<Seq<Seq<Mark>>, DexFault>
    ensures gives { Gives is_free (λ v. (v, left.new)) result (sets_at source.now.bytes.now source.now.program.now offset left.old) }
    ensures counts { IfErr result CountsInFile }
{
    if offset == 0 {
        Ok(Seq::new(alloc))
    } else {
        let sets = parameter_marks_of(alloc, source.bytes, offset as usize, source.sizes, left)?;
        Ok(Seq::of_vec(sets))
    }
}

/// The pair at `at`. Its number is below the size of its table.
#[tactic(auto, unfolding(crate::specs::Directory::pair_at))]
fn pair_of(bytes: &[u8], size: u32, at: usize) -> Result<Pair, DexFault>
    requires { at + 8 ≤ length bytes.now }
    ensures gives { Gives is_free (λ pair. (pair.number, pair.offset)) result (pair_at bytes.now size at) }
    ensures counts { IfErr result CountsInFile }
{
    let number = word_of(bytes, at)?;
    let offset = word_of(bytes, at + 4)?;
    if number < size {
        Ok(Pair { number, offset })
    } else {
        Err(DexFault::Pool(PoolFault::Index {
            at,
            value: number,
            size,
        }))
    }
}

/// The place of a member among two lists whose numbers ascend, one behind the other.
#[tactic(auto, using(crate::proofs::Search::in_first, crate::proofs::Search::in_second, crate::proofs::Search::in_none))]
fn place_among(first: &[Listed], second: &[Listed], number: u32) -> Option<usize>
    requires first { Ascends first.now }
    requires second { Ascends second.now }
    ensures { result ≡ place_in number (first.now ++ second.now) }
{
    match place_of(first, number) {
        Some(place) => Some(place),
        None => match place_of(second, number) {
            Some(place) => Some(first.len() + place),
            None => None,
        },
    }
}

/// A pair of the directory whose member was found.
#[derive(Clone, Copy, Drop)]
struct Named {
    place: usize,
    pair: Pair,
}

/// The pair of this number of a list that begins at `at`, and where its member stands among the listed ones.
#[tactic(auto, unfolding(crate::specs::Directory::named_at))]
fn named_of(
    bytes: &[u8],
    class: u32,
    size: u32,
    first: &[Listed],
    second: &[Listed],
    at: usize,
    i: u32,
    before: u32,
) -> Result<Named, DexFault>
    requires room { at + 8 * i + 8 ≤ length bytes.now }
    requires first { Ascends first.now }
    requires second { Ascends second.now }
    ensures gives { Gives is_free (λ n. (n.place, (n.pair.number, n.pair.offset))) result (named_at bytes.now class size (first.now ++ second.now) at i before) }
    ensures counts { IfErr result CountsInFile }
{
    let pair = pair_of(bytes, size, at + 8 * i as usize)?;
    check_ascends(i, before, pair.number)?;
    match place_among(first, second, pair.number) {
        Some(place) => Ok(Named { place, pair }),
        None => Err(DexFault::Member { class, place: i }),
    }
}

/// Sets the annotations of the field at a place, if there is one.
#[tactic(auto, using(crate::proofs::Changes::unchanged))]
fn set_field_marks(fields: &mut Vec<Field>, place: usize, marks: Seq<Mark>)
    ensures { fields.new.items ≡ change_at (with_marks marks) place fields.old.items }
{
    if place < fields.len() {
        fields[place].marks = marks;
    }
}

/// Sets the annotations of the method at a place, if there is one.
#[tactic(auto, using(crate::proofs::Changes::unchanged))]
fn set_method_marks(methods: &mut Vec<Method>, place: usize, marks: Seq<Mark>)
    ensures { methods.new.items ≡ change_at (with_own_marks marks) place methods.old.items }
{
    if place < methods.len() {
        methods[place].marks = marks;
    }
}

/// Sets the annotations of the parameters of the method at a place, if there is one.
#[tactic(auto, using(crate::proofs::Changes::unchanged))]
fn set_parameter_marks(methods: &mut Vec<Method>, place: usize, marks: Seq<Seq<Mark>>)
    ensures { methods.new.items ≡ change_at (with_parameter_marks marks) place methods.old.items }
{
    if place < methods.len() {
        methods[place].parameter_marks = marks;
    }
}

/// The annotations that one pair names, of a field.
#[tactic(auto, unfolding(crate::specs::Directory::mark_field))]
fn mark_field(
    alloc: Global,
    source: &Source,
    class: u32,
    listed: &Members,
    at: usize,
    i: u32,
    fields: &mut Vec<Field>,
    before: &mut u32,
    left: &mut u32,
) -> Result<(), DexFault>
    requires room { at + 8 * i + 8 ≤ length source.now.bytes.now }
    requires ascend { AllAscend listed.now }
    ensures gives { Gives is_free (λ u. (fields.new.items, (before.new, left.new))) result (mark_field source.now.bytes.now source.now.program.now class (listed.now.statics ++ listed.now.instances) at i (fields.old.items, (before.old, left.old))) }
    ensures counts { IfErr result CountsInFile }
{
    let named = named_of(
        source.bytes,
        class,
        source.sizes.fields,
        listed.statics.as_slice(),
        listed.instances.as_slice(),
        at,
        i,
        *before,
    )?;
    let marks = set_of(alloc, source, named.pair.offset, left)?;
    set_field_marks(fields, named.place, marks);
    *before = named.pair.number;
    Ok(())
}

/// The annotations that one pair names, of a method.
#[tactic(auto, unfolding(crate::specs::Directory::mark_method))]
fn mark_method(
    alloc: Global,
    source: &Source,
    class: u32,
    listed: &Members,
    at: usize,
    i: u32,
    methods: &mut Vec<Method>,
    before: &mut u32,
    left: &mut u32,
) -> Result<(), DexFault>
    requires room { at + 8 * i + 8 ≤ length source.now.bytes.now }
    requires ascend { AllAscend listed.now }
    ensures gives { Gives is_free (λ u. (methods.new.items, (before.new, left.new))) result (mark_method source.now.bytes.now source.now.program.now class (listed.now.directs ++ listed.now.virtuals) at i (methods.old.items, (before.old, left.old))) }
    ensures counts { IfErr result CountsInFile }
{
    let named = named_of(
        source.bytes,
        class,
        source.sizes.methods,
        listed.directs.as_slice(),
        listed.virtuals.as_slice(),
        at,
        i,
        *before,
    )?;
    let marks = set_of(alloc, source, named.pair.offset, left)?;
    set_method_marks(methods, named.place, marks);
    *before = named.pair.number;
    Ok(())
}

/// The annotations that one pair names, of a method's parameters.
#[tactic(auto, unfolding(crate::specs::Directory::mark_parameters))]
fn mark_parameters(
    alloc: Global,
    source: &Source,
    class: u32,
    listed: &Members,
    at: usize,
    i: u32,
    methods: &mut Vec<Method>,
    before: &mut u32,
    left: &mut u32,
) -> Result<(), DexFault>
    requires room { at + 8 * i + 8 ≤ length source.now.bytes.now }
    requires ascend { AllAscend listed.now }
    ensures gives { Gives is_free (λ u. (methods.new.items, (before.new, left.new))) result (mark_parameters source.now.bytes.now source.now.program.now class (listed.now.directs ++ listed.now.virtuals) at i (methods.old.items, (before.old, left.old))) }
    ensures counts { IfErr result CountsInFile }
{
    let named = named_of(
        source.bytes,
        class,
        source.sizes.methods,
        listed.directs.as_slice(),
        listed.virtuals.as_slice(),
        at,
        i,
        *before,
    )?;
    let marks = sets_of(alloc, source, named.pair.offset, left)?;
    set_parameter_marks(methods, named.place, marks);
    *before = named.pair.number;
    Ok(())
}

/// The annotations of fields: a list of so many pairs at `at`.
fn mark_fields(
    alloc: Global,
    source: &Source,
    class: u32,
    listed: &Members,
    at: usize,
    count: u32,
    fields: &mut Vec<Field>,
    left: &mut u32,
) -> Result<u32, DexFault>
    requires room { at + 8 * count ≤ length source.now.bytes.now }
    requires ascend { AllAscend listed.now }
    ensures gives { Gives is_free (λ before. (fields.new.items, (before, left.new))) result (steps (mark_field source.now.bytes.now source.now.program.now class (listed.now.statics ++ listed.now.instances) at) 0 count (fields.old.items, (0, left.old))) }
    ensures counts { IfErr result CountsInFile }
{
    let mut before = 0;
    for i in 0..count {
        mark_field(
            alloc,
            source,
            class,
            listed,
            at,
            i,
            fields,
            &mut before,
            left,
        )?;
    }
    Ok(before)
}

/// The annotations of methods: a list of so many pairs at `at`.
fn mark_methods(
    alloc: Global,
    source: &Source,
    class: u32,
    listed: &Members,
    at: usize,
    count: u32,
    methods: &mut Vec<Method>,
    left: &mut u32,
) -> Result<u32, DexFault>
    requires room { at + 8 * count ≤ length source.now.bytes.now }
    requires ascend { AllAscend listed.now }
    ensures gives { Gives is_free (λ before. (methods.new.items, (before, left.new))) result (steps (mark_method source.now.bytes.now source.now.program.now class (listed.now.directs ++ listed.now.virtuals) at) 0 count (methods.old.items, (0, left.old))) }
    ensures counts { IfErr result CountsInFile }
{
    let mut before = 0;
    for i in 0..count {
        mark_method(
            alloc,
            source,
            class,
            listed,
            at,
            i,
            methods,
            &mut before,
            left,
        )?;
    }
    Ok(before)
}

/// The annotations of methods' parameters: a list of so many pairs at `at`.
fn mark_all_parameters(
    alloc: Global,
    source: &Source,
    class: u32,
    listed: &Members,
    at: usize,
    count: u32,
    methods: &mut Vec<Method>,
    left: &mut u32,
) -> Result<u32, DexFault>
    requires room { at + 8 * count ≤ length source.now.bytes.now }
    requires ascend { AllAscend listed.now }
    ensures gives { Gives is_free (λ before. (methods.new.items, (before, left.new))) result (steps (mark_parameters source.now.bytes.now source.now.program.now class (listed.now.directs ++ listed.now.virtuals) at) 0 count (methods.old.items, (0, left.old))) }
    ensures counts { IfErr result CountsInFile }
{
    let mut before = 0;
    for i in 0..count {
        mark_parameters(
            alloc,
            source,
            class,
            listed,
            at,
            i,
            methods,
            &mut before,
            left,
        )?;
    }
    Ok(before)
}

/// How many members of each kind have annotations, and how many methods have annotated parameters.
#[derive(Clone, Copy, Drop)]
struct MarkCounts {
    fields: u32,
    methods: u32,
    parameters: u32,
}

/// Sets the annotations of the members, by the lists of so many pairs in the directory at `at`, and answers those of the
/// class, `marks`.
fn mark_members(
    alloc: Global,
    source: &Source,
    class: u32,
    listed: &Members,
    at: u32,
    counts: MarkCounts,
    marks: Seq<Mark>,
    fields: &mut Vec<Field>,
    methods: &mut Vec<Method>,
    left: &mut u32,
) -> Result<Seq<Mark>, DexFault>
    requires room { at + (16 + 8 * counts.fields + 8 * counts.methods + 8 * counts.parameters) ≤ length source.now.bytes.now }
    requires ascend { AllAscend listed.now }
    ensures gives { Gives is_free (λ all. marked all fields.new.items methods.new.items left.new) result (marked_members source.now.bytes.now source.now.program.now class listed.now at counts (marks, left.old) fields.old.items methods.old.items) }
    ensures counts { IfErr result CountsInFile }
{
    let fields_at = at as usize + 16;
    mark_fields(
        alloc,
        source,
        class,
        listed,
        fields_at,
        counts.fields,
        fields,
        left,
    )?;
    let methods_at = fields_at + 8 * counts.fields as usize;
    mark_methods(
        alloc,
        source,
        class,
        listed,
        methods_at,
        counts.methods,
        methods,
        left,
    )?;
    let parameters_at = methods_at + 8 * counts.methods as usize;
    mark_all_parameters(
        alloc,
        source,
        class,
        listed,
        parameters_at,
        counts.parameters,
        methods,
        left,
    )?;
    Ok(marks)
}

/// Reads the directory at `at` into the members, and answers the annotations of the class.
#[tactic(auto, unfolding(crate::specs::Directory::directory_at))]
pub fn read_directory(
    alloc: Global,
    source: &Source,
    class: u32,
    listed: &Members,
    at: u32,
    fields: &mut Vec<Field>,
    methods: &mut Vec<Method>,
    left: &mut u32,
) -> Result<Seq<Mark>, DexFault>
    requires ascend { AllAscend listed.now }
    ensures gives { Gives is_free (λ marks. marked marks fields.new.items methods.new.items left.new) result (directory_at source.now.bytes.now source.now.program.now class listed.now at fields.old.items methods.old.items left.old) }
    ensures counts { IfErr result CountsInFile }
{
    let bytes = source.bytes;
    let begin = at as usize;
    need(bytes, begin, 16)?;
    let set = word_of(bytes, begin)?;
    let field_count = word_of(bytes, begin + 4)?;
    let method_count = word_of(bytes, begin + 8)?;
    let parameter_count = word_of(bytes, begin + 12)?;
    let fields_size = 8 * field_count as usize;
    let methods_size = 8 * method_count as usize;
    let parameters_size = 8 * parameter_count as usize;
    need(
        bytes,
        begin,
        16 + fields_size + methods_size + parameters_size,
    )?;
    let marks = set_of(alloc, source, set, left)?;
    let counts = MarkCounts {
        fields: field_count,
        methods: method_count,
        parameters: parameter_count,
    };
    mark_members(
        alloc, source, class, listed, at, counts, marks, fields, methods, left,
    )
}
