//! Sets of annotations, lists of sets, and directories (Dalvik executable format, "annotation_set_item",
//! "annotation_set_ref_list", "annotations_directory_item").

ghost use Rattle.std.specs.Prelude.{◌≡◌, ◌+◌, ◌++◌, ◌∷◌, length, map, take, drop, sum, IfOk, OnOk, slice_index_or};
ghost use Rattle.std.specs.List.{flat_map};
ghost use Rattle.dex_write.specs.Numbers.{words, Placed};
ghost use Rattle.dex_write.specs.Plans.{plan_in, in_order, field_marks, method_marks, parameter_marks};
ghost use Rattle.dex_write.specs.Sets.{size_of, offset_at, offsets_at, ends_at, counted, lists_of, set_counts, ref_counts, parameter_offsets, field_pairs, method_pairs, pair_list, pair_words, filled_words, is_bare, directory_words, directory_text, directory_texts, own_count, parameter_count, own_offsets, behind_class};

use crate::numbers::{Items, at_place, behind, offset_of, push_words, split, word_of};
use crate::ordered::{
    MethodPart, Numbered, Ordered, field_marks, method_marks, parameter_marks, sort,
};
use program_model::{Class, Mark};
use seq::Seq;
use std::alloc::{AllocError, Global};

/// The size of a list of so many entries behind their count; the empty one is not written.
pub fn size_of(count: u32) -> usize
    ensures { result ≡ size_of count }
{
    if count == 0 {
        return 0;
    }
    4 + 4 * count as usize
}

/// Where a list of so many entries stands, 0 for an empty one.
fn offset_at(at: u32, count: u32) -> u32
    ensures { result ≡ offset_at at count }
{
    if count == 0 { 0 } else { at }
}

/// Where each list of so many entries stands, the first from `at` on.
pub fn offsets_at(alloc: Global, at: u32, counts: &[u32]) -> Result<Vec<u32>, AllocError>
    ensures { IfOk result (λ v. v.items ≡ offsets_at at counts.now) }
{
    let mut offsets = Vec::with_capacity(alloc, counts.len())?;
    let mut next = at;
    for count in counts {
        offsets.push(offset_at(next, *count))?;
        next = behind(next, size_of(*count))?;
    }
    Ok(offsets)
}

/// Where lists of so many entries end, the first of which stands from `at` on.
pub fn ends_at(at: u32, counts: &[u32]) -> Result<u32, AllocError>
    ensures { IfOk result (λ end. end ≡ ends_at at counts.now) }
{
    let mut next = at;
    for count in counts {
        next = behind(next, size_of(*count))?;
    }
    Ok(next)
}

/// Adds the entries, each so far behind `base`.
fn push_based(words: &mut Vec<u32>, entries: &[u32], base: u32) -> Result<(), AllocError>
    ensures { OnOk result (words.new.items ≡ words.old.items ++ map (λ entry. base + entry) entries.now) }
{
    for entry in entries {
        words.push(behind(base, *entry as usize)?)?;
    }
    Ok(())
}

/// Adds a list of so many entries behind its count; nothing for an empty one.
fn push_counted(
    words: &mut Vec<u32>,
    count: u32,
    entries: &[u32],
    base: u32,
) -> Result<(), AllocError>
    ensures { OnOk result (words.new.items ≡ words.old.items ++ counted base count entries.now) }
{
    if count == 0 {
        return Ok(());
    }
    words.push(count)?;
    push_based(words, entries, base)
}

/// The lists of so many entries, each behind its count; the empty ones are not written.
pub fn lists_of(
    alloc: Global,
    counts: &[u32],
    entries: &[u32],
    base: u32,
) -> Result<Vec<u32>, AllocError>
    ensures { IfOk result (λ v. v.items ≡ lists_of base counts.now entries.now) }
{
    let mut words = Vec::new(alloc);
    let mut rest = entries;
    for count in counts {
        let (own, others) = split(rest, *count as usize);
        push_counted(&mut words, *count, own, base)?;
        rest = others;
    }
    Ok(words)
}

/// Adds how many annotations each field has.
fn push_field_counts(
    counts: &mut Vec<u32>,
    class: &Class,
    fields: &[Numbered],
) -> Result<(), AllocError>
    ensures { OnOk result (counts.new.items ≡ counts.old.items ++ map (λ f. length (field_marks class.now f.1)) fields.now) }
{
    for field in fields {
        counts.push(word_of(field_marks(class, field.1).len())?)?;
    }
    Ok(())
}

/// Adds how many annotations each method has.
fn push_method_counts(
    counts: &mut Vec<u32>,
    class: &Class,
    methods: &[MethodPart],
) -> Result<(), AllocError>
    ensures { OnOk result (counts.new.items ≡ counts.old.items ++ map (λ m. length (method_marks class.now m.place)) methods.now) }
{
    for method in methods {
        counts.push(word_of(method_marks(class, method.place).len())?)?;
    }
    Ok(())
}

/// Adds how many annotations each set has.
fn push_set_counts(counts: &mut Vec<u32>, sets: &[Seq<Mark>]) -> Result<(), AllocError>
    ensures { OnOk result (counts.new.items ≡ counts.old.items ++ map length sets.now) }
{
    for set in sets {
        counts.push(word_of(set.len())?)?;
    }
    Ok(())
}

/// Adds how many annotations the parameters of each method have.
fn push_parameter_counts(
    counts: &mut Vec<u32>,
    class: &Class,
    methods: &[MethodPart],
) -> Result<(), AllocError>
    ensures { OnOk result (counts.new.items ≡ counts.old.items ++ flat_map (λ m. map length (parameter_marks class.now m.place)) methods.now) }
{
    for method in methods {
        push_set_counts(counts, parameter_marks(class, method.place))?;
    }
    Ok(())
}

/// Adds how many annotations the sets of a class have: its own, those of its fields and methods, and those of its
/// methods' parameters.
fn push_class_counts(counts: &mut Vec<u32>, ordered: &Ordered) -> Result<(), AllocError>
    ensures { OnOk result (counts.new.items ≡ counts.old.items ++ set_counts (plan_in ordered.now)) }
{
    let class = ordered.class;
    let methods = ordered.methods.as_slice();
    counts.push(word_of(class.marks.len())?)?;
    push_field_counts(counts, class, ordered.fields.as_slice())?;
    push_method_counts(counts, class, methods)?;
    push_parameter_counts(counts, class, methods)
}

/// How many annotations all sets have.
pub fn set_counts(alloc: Global, order: &[Ordered]) -> Result<Vec<u32>, AllocError>
    ensures { IfOk result (λ v. v.items ≡ flat_map set_counts (map plan_in order.now)) }
{
    let mut counts = Vec::new(alloc);
    for ordered in order {
        push_class_counts(&mut counts, ordered)?;
    }
    Ok(counts)
}

/// Adds how many lists of parameters' annotations each method of a class has.
#[tactic(auto, unfolding(crate::specs::Sets::ref_counts))]
fn push_ref_counts(counts: &mut Vec<u32>, ordered: &Ordered) -> Result<(), AllocError>
    ensures { OnOk result (counts.new.items ≡ counts.old.items ++ ref_counts (plan_in ordered.now)) }
{
    for method in ordered.methods.as_slice() {
        let sets = parameter_marks(ordered.class, method.place);
        counts.push(word_of(sets.len())?)?;
    }
    Ok(())
}

/// How many lists of parameters' annotations each method has.
pub fn ref_counts(alloc: Global, order: &[Ordered]) -> Result<Vec<u32>, AllocError>
    ensures { IfOk result (λ v. v.items ≡ flat_map ref_counts (map plan_in order.now)) }
{
    let mut counts = Vec::new(alloc);
    for ordered in order {
        push_ref_counts(&mut counts, ordered)?;
    }
    Ok(counts)
}

/// How many sets of a class stand before those of the parameters.
fn own_count(ordered: &Ordered) -> Result<u32, AllocError>
    ensures { IfOk result (λ count. count ≡ own_count (plan_in ordered.now)) }
{
    behind(behind(1, ordered.fields.len())?, ordered.methods.len())
}

/// How many sets the parameters of a class's methods have.
#[tactic(auto, unfolding(crate::specs::Sets::ref_counts))]
fn parameter_count(ordered: &Ordered) -> Result<u32, AllocError>
    ensures { IfOk result (λ count. count ≡ parameter_count (plan_in ordered.now)) }
{
    let mut count = 0;
    for method in ordered.methods.as_slice() {
        let sets = parameter_marks(ordered.class, method.place);
        count = behind(count, sets.len())?;
    }
    Ok(count)
}

/// The offsets behind those of a class's sets.
fn behind_class<'a>(ordered: &Ordered, sets: &'a [u32]) -> Result<&'a [u32], AllocError>
    ensures { IfOk result (λ rest. rest.now ≡ behind_class (plan_in ordered.now) sets.now) }
{
    let (_, others) = split(sets, own_count(ordered)? as usize);
    Ok(split(others, parameter_count(ordered)? as usize).1)
}

/// Adds the offsets of the sets of a class's parameters, and answers those behind the class's.
fn push_own<'a>(
    offsets: &mut Vec<u32>,
    ordered: &Ordered,
    sets: &'a [u32],
) -> Result<&'a [u32], AllocError>
    ensures own { OnOk result (offsets.new.items ≡ offsets.old.items ++ own_offsets (plan_in ordered.now) sets.now) }
    ensures rest { IfOk result (λ rest. rest.now ≡ behind_class (plan_in ordered.now) sets.now) }
{
    let (_, others) = split(sets, own_count(ordered)? as usize);
    let (own, others) = split(others, parameter_count(ordered)? as usize);
    offsets.extend_from_slice(own)?;
    Ok(others)
}

/// The offsets of the parameters' sets among those of all sets.
pub fn parameter_offsets(
    alloc: Global,
    order: &[Ordered],
    sets: &[u32],
) -> Result<Vec<u32>, AllocError>
    ensures { IfOk result (λ v. v.items ≡ parameter_offsets (map plan_in order.now) sets.now) }
{
    let mut offsets = Vec::new(alloc);
    let mut rest = sets;
    for ordered in order {
        rest = push_own(&mut offsets, ordered, rest)?;
    }
    Ok(offsets)
}

/// Adds a member's number and its offset, where it has one.
fn push_pair(pairs: &mut Vec<Numbered>, number: u32, offset: u32) -> Result<(), AllocError>
    ensures { OnOk result (pairs.new.items ≡ pairs.old.items ++ pair_list number offset) }
{
    if offset != 0 {
        pairs.push((number, offset))?;
    }
    Ok(())
}

/// The fields that have an offset, by number.
fn field_pairs(
    alloc: Global,
    fields: &[Numbered],
    offsets: &[u32],
) -> Result<Vec<Numbered>, AllocError>
    ensures { IfOk result (λ v. v.items ≡ in_order (field_pairs fields.now 0 offsets.now)) }
{
    let mut pairs = Vec::new(alloc);
    for (i, field) in fields.iter().enumerate() {
        push_pair(&mut pairs, field.0, at_place(offsets, i))?;
    }
    sort(&mut pairs)?;
    Ok(pairs)
}

/// The methods that have an offset, by number.
fn method_pairs(
    alloc: Global,
    methods: &[MethodPart],
    offsets: &[u32],
) -> Result<Vec<Numbered>, AllocError>
    ensures { IfOk result (λ v. v.items ≡ in_order (method_pairs methods.now 0 offsets.now)) }
{
    let mut pairs = Vec::new(alloc);
    for (i, method) in methods.iter().enumerate() {
        push_pair(&mut pairs, method.number, at_place(offsets, i))?;
    }
    sort(&mut pairs)?;
    Ok(pairs)
}

/// Adds pairs of a number and an offset.
fn push_pairs(out: &mut Vec<u8>, pairs: &[Numbered]) -> Result<(), AllocError>
    ensures { OnOk result (out.new.items ≡ out.old.items ++ words (pair_words pairs.now)) }
{
    for pair in pairs {
        push_words(out, &[pair.0, pair.1])?;
    }
    Ok(())
}

/// Adds a directory of these offsets.
fn push_filled(
    out: &mut Vec<u8>,
    own: u32,
    fields: &[Numbered],
    methods: &[Numbered],
    parameters: &[Numbered],
) -> Result<(), AllocError>
    ensures { OnOk result (out.new.items ≡ out.old.items ++ words (filled_words own fields.now methods.now parameters.now)) }
{
    let counts = [
        own,
        word_of(fields.len())?,
        word_of(methods.len())?,
        word_of(parameters.len())?,
    ];
    push_words(out, &counts)?;
    push_pairs(out, fields)?;
    push_pairs(out, methods)?;
    push_pairs(out, parameters)
}

/// Whether there are no offsets.
fn is_bare(own: u32, fields: &[Numbered], methods: &[Numbered], parameters: &[Numbered]) -> bool
    ensures { result ≡ is_bare own fields.now methods.now parameters.now }
{
    own == 0 && fields.is_empty() && methods.is_empty() && parameters.is_empty()
}

/// Adds a directory of these offsets; nothing where there are none.
fn push_words_of_directory(
    out: &mut Vec<u8>,
    own: u32,
    fields: &[Numbered],
    methods: &[Numbered],
    parameters: &[Numbered],
) -> Result<(), AllocError>
    ensures { OnOk result (out.new.items ≡ out.old.items ++ words (directory_words own fields.now methods.now parameters.now)) }
{
    if is_bare(own, fields, methods, parameters) {
        return Ok(());
    }
    push_filled(out, own, fields, methods, parameters)
}

/// Adds the directory of a class, by the offsets of its sets and those of its methods' lists of sets.
#[tactic(auto, unfolding(crate::specs::Sets::directory_text))]
fn push_directory(
    alloc: Global,
    out: &mut Vec<u8>,
    ordered: &Ordered,
    sets: &[u32],
    refs: &[u32],
) -> Result<(), AllocError>
    ensures { OnOk result (out.new.items ≡ out.old.items ++ directory_text (plan_in ordered.now) sets.now refs.now) }
{
    let own = at_place(sets, 0);
    let (_, of_members) = split(sets, 1);
    let fields = field_pairs(alloc, ordered.fields.as_slice(), of_members)?;
    let (_, of_methods) = split(of_members, ordered.fields.len());
    let methods = method_pairs(alloc, ordered.methods.as_slice(), of_methods)?;
    let parameters = method_pairs(alloc, ordered.methods.as_slice(), refs)?;
    push_words_of_directory(out, own, &fields, &methods, &parameters)
}

/// The directories of all classes, by the offsets of all sets and those of all methods' lists of sets.
pub fn directories(
    alloc: Global,
    order: &[Ordered],
    sets: &[u32],
    refs: &[u32],
    base: u32,
) -> Result<Items, AllocError>
    ensures { IfOk result (Placed base (directory_texts (map plan_in order.now) sets.now refs.now)) }
{
    let mut bytes = Vec::new(alloc);
    let mut offsets = Vec::new(alloc);
    let mut rest = sets;
    let mut of_methods = refs;
    for ordered in order {
        let begin = bytes.len();
        push_directory(alloc, &mut bytes, ordered, rest, of_methods)?;
        offsets.push(offset_of(base, begin, bytes.len())?)?;
        rest = behind_class(ordered, rest)?;
        of_methods = split(of_methods, ordered.methods.len()).1;
    }
    Ok(Items {
        bytes: Seq::of_vec(bytes),
        offsets: Seq::of_vec(offsets),
    })
}
