//! Class data and first values (Dalvik executable format, "class_data_item", "encoded_array_item").

ghost use Rattle.std.specs.Prelude.{◌≡◌, ◌-◌, ◌++◌, length, map, take, IfOk, OnOk, slice_get, is_some};
ghost use Rattle.dex_write.specs.Numbers.{Placed};
ghost use Rattle.dex_write.specs.Plans.{plan_in};
ghost use Rattle.dex_write.specs.Codes.{codes_behind};
ghost use Rattle.dex_write.specs.Data.{fields_text, method_text, methods_text, counts_text, data_text, data_texts, has_first, first_count, zero_of, first_text, values_text, counted_text, array_text};

use crate::codes::{code_behind, code_offset, codes_behind};
use crate::numbers::{Items, offset_of, split, word_of};
use crate::ordered::{MethodPart, Numbered, Ordered, field_flags, method_flags};
use crate::texts::field_letter;
use dex_base::write_uleb;
use dex_pools::write_value;
use program_model::{Class, EncValue, Program, Renumber};
use seq::Seq;
use std::alloc::{AllocError, Global};

/// Adds fields: the step of each number from the one before it, and the flags.
fn push_fields(out: &mut Vec<u8>, class: &Class, fields: &[Numbered]) -> Result<(), AllocError>
    ensures { OnOk result (out.new.items ≡ out.old.items ++ fields_text class.now 0 fields.now) }
{
    let mut before: u32 = 0;
    for field in fields {
        write_uleb(out, field.0.saturating_sub(before))?;
        write_uleb(out, field_flags(class, field.1))?;
        before = field.0;
    }
    Ok(())
}

/// Adds a method behind one with the number `before`: the step of its number, the flags, and the offset of its code,
/// which comes behind `at`.
fn push_method(
    out: &mut Vec<u8>,
    class: &Class,
    before: u32,
    at: u32,
    method: &MethodPart,
) -> Result<(), AllocError>
    ensures { OnOk result (out.new.items ≡ out.old.items ++ method_text class.now before at method.now) }
{
    write_uleb(out, method.number.saturating_sub(before))?;
    write_uleb(out, method_flags(class, method.place))?;
    write_uleb(out, code_offset(at, method)?)
}

/// Adds methods whose code comes behind `at`.
fn push_methods(
    out: &mut Vec<u8>,
    class: &Class,
    at: u32,
    methods: &[MethodPart],
) -> Result<(), AllocError>
    ensures { OnOk result (out.new.items ≡ out.old.items ++ methods_text class.now 0 at methods.now) }
{
    let mut before: u32 = 0;
    let mut next = at;
    for method in methods {
        push_method(out, class, before, next, method)?;
        before = method.number;
        next = code_behind(next, method)?;
    }
    Ok(())
}

/// Adds how many members there are of each kind.
fn push_counts(
    out: &mut Vec<u8>,
    statics: usize,
    instances: usize,
    directs: usize,
    virtuals: usize,
) -> Result<(), AllocError>
    ensures { OnOk result (out.new.items ≡ out.old.items ++ counts_text statics instances directs virtuals) }
{
    write_uleb(out, word_of(statics)?)?;
    write_uleb(out, word_of(instances)?)?;
    write_uleb(out, word_of(directs)?)?;
    write_uleb(out, word_of(virtuals)?)
}

/// Adds the class data of a class whose code comes behind `at`; nothing where it has no members.
#[tactic(auto, unfolding(crate::specs::Data::data_text))]
fn push_data(out: &mut Vec<u8>, ordered: &Ordered, at: u32) -> Result<(), AllocError>
    ensures { OnOk result (out.new.items ≡ out.old.items ++ data_text (plan_in ordered.now) at) }
{
    let fields = ordered.fields.as_slice();
    let methods = ordered.methods.as_slice();
    if fields.is_empty() && methods.is_empty() {
        return Ok(());
    }
    let instance_count = fields.len().saturating_sub(ordered.statics);
    let virtual_count = methods.len().saturating_sub(ordered.directs);
    push_counts(
        out,
        ordered.statics,
        instance_count,
        ordered.directs,
        virtual_count,
    )?;
    let (statics, instances) = split(fields, ordered.statics);
    push_fields(out, ordered.class, statics)?;
    push_fields(out, ordered.class, instances)?;
    let (directs, virtuals) = split(methods, ordered.directs);
    push_methods(out, ordered.class, at, directs)?;
    push_methods(out, ordered.class, codes_behind(at, directs)?, virtuals)
}

/// The class data of all classes, whose code comes behind `at`.
pub fn all_data(alloc: Global, order: &[Ordered], at: u32, base: u32) -> Result<Items, AllocError>
    ensures { IfOk result (Placed base (data_texts at (map plan_in order.now))) }
{
    let mut bytes = Vec::new(alloc);
    let mut offsets = Vec::with_capacity(alloc, order.len())?;
    let mut next = at;
    for ordered in order {
        let begin = bytes.len();
        push_data(&mut bytes, ordered, next)?;
        offsets.push(offset_of(base, begin, bytes.len())?)?;
        next = codes_behind(next, ordered.methods.as_slice())?;
    }
    Ok(Items {
        bytes: Seq::of_vec(bytes),
        offsets: Seq::of_vec(offsets),
    })
}

/// Whether the field at a place has a first value.
fn has_first(class: &Class, place: u32) -> bool
    ensures { result ≡ has_first (slice_get class.now.fields place) }
{
    match class.fields.items.get(place as usize) {
        Some(field) => field.first.is_some(),
        None => false,
    }
}

/// How many static fields there are up to the last one with a first value.
fn first_count(class: &Class, statics: &[Numbered]) -> usize
    ensures { result ≡ first_count class.now 0 0 statics.now }
{
    let mut count = 0;
    for (entry, field) in statics.iter().enumerate() {
        if has_first(class, field.1) {
            count = entry + 1;
        }
    }
    count
}

/// What a field holds that has no first value, by the letter of its type.
fn zero_of(letter: u16) -> EncValue
    ensures { result ≡ zero_of letter }
{
    match letter {
        0x5a => EncValue::Bool(false),
        0x42 => EncValue::Byte(0),
        0x53 => EncValue::Short(0),
        0x43 => EncValue::Char(0),
        0x49 => EncValue::Int(0),
        0x4a => EncValue::Long(0),
        0x46 => EncValue::Float(0),
        0x44 => EncValue::Double(0),
        _ => EncValue::Null,
    }
}

/// Adds the first value of the static field at a place.
fn push_first(
    out: &mut Vec<u8>,
    program: &Program,
    class: &Class,
    place: u32,
    numbers: &Renumber,
) -> Result<(), AllocError>
    ensures { OnOk result (out.new.items ≡ out.old.items ++ first_text program.now numbers.now (slice_get class.now.fields place)) }
{
    let Some(field) = class.fields.items.get(place as usize) else {
        return Ok(());
    };
    match &field.first {
        Some(value) => write_value(out, value, numbers),
        None => write_value(out, &zero_of(field_letter(program, field.name)), numbers),
    }
}

/// Adds so many first values of static fields, and before them how many.
fn push_values(
    out: &mut Vec<u8>,
    program: &Program,
    class: &Class,
    count: u32,
    firsts: &[Numbered],
    numbers: &Renumber,
) -> Result<(), AllocError>
    ensures { OnOk result (out.new.items ≡ out.old.items ++ values_text program.now numbers.now class.now count firsts.now) }
{
    write_uleb(out, count)?;
    for field in firsts {
        push_first(out, program, class, field.1, numbers)?;
    }
    Ok(())
}

/// Adds the first values of the first static fields; nothing for none.
fn push_counted(
    out: &mut Vec<u8>,
    program: &Program,
    class: &Class,
    count: usize,
    statics: &[Numbered],
    numbers: &Renumber,
) -> Result<(), AllocError>
    ensures { OnOk result (out.new.items ≡ out.old.items ++ counted_text program.now numbers.now class.now count statics.now) }
{
    if count == 0 {
        return Ok(());
    }
    let count_word = word_of(count)?;
    push_values(
        out,
        program,
        class,
        count_word,
        split(statics, count).0,
        numbers,
    )
}

/// Adds the first values of static fields, all up to the last one that has one.
fn push_firsts(
    out: &mut Vec<u8>,
    program: &Program,
    class: &Class,
    statics: &[Numbered],
    numbers: &Renumber,
) -> Result<(), AllocError>
    ensures { OnOk result (out.new.items ≡ out.old.items ++ counted_text program.now numbers.now class.now (first_count class.now 0 0 statics.now) statics.now) }
{
    let count = first_count(class, statics);
    push_counted(out, program, class, count, statics, numbers)
}

/// The first values of all classes.
#[tactic(auto, unfolding(crate::specs::Data::array_text))]
pub fn all_firsts(
    alloc: Global,
    program: &Program,
    order: &[Ordered],
    numbers: &Renumber,
    base: u32,
) -> Result<Items, AllocError>
    ensures { IfOk result (Placed base (map (array_text program.now numbers.now) (map plan_in order.now))) }
{
    let mut bytes = Vec::new(alloc);
    let mut offsets = Vec::with_capacity(alloc, order.len())?;
    for ordered in order {
        let begin = bytes.len();
        let (statics, _) = split(ordered.fields.as_slice(), ordered.statics);
        push_firsts(&mut bytes, program, ordered.class, statics, numbers)?;
        offsets.push(offset_of(base, begin, bytes.len())?)?;
    }
    Ok(Items {
        bytes: Seq::of_vec(bytes),
        offsets: Seq::of_vec(offsets),
    })
}
