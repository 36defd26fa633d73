//! The first values of static fields (Dalvik executable format, "encoded_array").

ghost use Rattle.std.specs.Prelude.{◌≡◌, ◌≤◌, ◌<◌, ◌&&◌, length, nat_lt, slice_get, vec_len, IfOk, OnOk, IfErr};
ghost use Rattle.program_model.specs.declared.value.EncValue.{out-EncValue};
ghost use Rattle.program_model.specs.Texts.{is_reference};
ghost use Rattle.dex_base.specs.Reading.{Gives};
ghost use Rattle.dex_read.specs.Counts.{CountsInFile};
ghost use Rattle.dex_read.specs.Faults.{is_free};
ghost use Rattle.dex_read.specs.FirstValues.{is_of, layer_is_zero, first_of, with_first, takes, give_first, firsts_at};
ghost use Rattle.dex_read.specs.Steps.{steps, change_at};

use crate::below::{number_of, take_items, value_of};
use crate::fault::DexFault;
use crate::members::Source;
use dex_pools::PoolFault;
use program_model::{EncValue, Field};
use std::alloc::Global;

/// Whether the letter is that of a class or an array.
fn is_reference(letter: u16) -> bool
    ensures { result ≡ is_reference letter }
{
    letter == 76 || letter == 91
}

/// Whether a value is one that a field with this first letter of its type's text may begin with.
fn is_of(letter: u16, value: &EncValue) -> bool
    ensures { result ≡ is_of letter value.now }
{
    match value {
        EncValue::Byte(_) => letter == 66,
        EncValue::Short(_) => letter == 83,
        EncValue::Char(_) => letter == 67,
        EncValue::Int(_) => letter == 73,
        EncValue::Long(_) => letter == 74,
        EncValue::Float(_) => letter == 70,
        EncValue::Double(_) => letter == 68,
        EncValue::Bool(_) => letter == 90,
        EncValue::Str(_) | EncValue::Class(_) | EncValue::Null => is_reference(letter),
        _ => false,
    }
}

/// Whether a value is what a field holds that has no first value: zero, false or null.
fn is_zero(value: &EncValue) -> bool
    ensures { result ≡ layer_is_zero (out-EncValue value.now) }
{
    match value {
        EncValue::Byte(value) => *value == 0,
        EncValue::Short(value) => *value == 0,
        EncValue::Char(value) => *value == 0,
        EncValue::Int(value) => *value == 0,
        EncValue::Long(value) => *value == 0,
        EncValue::Float(value) => *value == 0,
        EncValue::Double(value) => *value == 0,
        EncValue::Bool(value) => !*value,
        EncValue::Null => true,
        _ => false,
    }
}

/// The first value that a value is read as.
fn first_of(value: EncValue) -> Option<EncValue>
    ensures { result ≡ first_of value }
{
    if is_zero(&value) { None } else { Some(value) }
}

/// Whether the static field at a place, if there is one, may begin with the value.
fn takes(source: &Source, statics: usize, fields: &[Field], place: usize, value: &EncValue) -> bool
    ensures { result ≡ (nat_lt place statics && takes source.now.program.now value.now (slice_get fields.now place)) }
{
    place < statics
        && match fields.get(place) {
            Some(field) => is_of(source.field_letter(field.name), value),
            None => false,
        }
}

/// Gives the field at a place its first value, if there is one.
#[tactic(auto, using(crate::proofs::Changes::unchanged))]
fn set_first(fields: &mut Vec<Field>, place: usize, value: EncValue)
    ensures { fields.new.items ≡ change_at (with_first value) place fields.old.items }
{
    if place < fields.len() {
        fields[place].first = first_of(value);
    }
}

/// The value at `at`, for the static field at its place.
#[tactic(auto, unfolding(crate::specs::FirstValues::give_first))]
fn give_first(
    alloc: Global,
    source: &Source,
    statics: usize,
    place: u32,
    fields: &mut Vec<Field>,
    at: &mut usize,
    left: &mut u32,
) -> Result<(), DexFault>
    ensures gives { Gives is_free (λ u. (fields.new.items, (at.new, left.new))) result (give_first source.now.bytes.now source.now.program.now statics place (fields.old.items, (at.old, left.old))) }
    ensures counts { IfErr result CountsInFile }
{
    let begin = *at;
    let (value, next) = value_of(alloc, source.bytes, begin, source.sizes, left)?;
    if takes(source, statics, fields, place as usize, &value) {
        set_first(fields, place as usize, value);
        *at = next;
        Ok(())
    } else {
        Err(DexFault::Pool(PoolFault::BadValue { at: begin }))
    }
}

/// So many values from `at` on, for the static fields in their order, and the place behind them.
fn give_firsts(
    alloc: Global,
    source: &Source,
    statics: usize,
    count: u32,
    at: usize,
    fields: &mut Vec<Field>,
    left: &mut u32,
) -> Result<usize, DexFault>
    ensures gives { Gives is_free (λ next. (fields.new.items, (next, left.new))) result (steps (give_first source.now.bytes.now source.now.program.now statics) 0 count (fields.old.items, (at, left.old))) }
    ensures counts { IfErr result CountsInFile }
{
    let mut next = at;
    for place in 0..count {
        give_first(alloc, source, statics, place, fields, &mut next, left)?;
    }
    Ok(next)
}

/// The first values at `at`, into the static fields in their order. A value that does not fit its field, or that
/// stands past the last one, is `BadValue` at its place.
#[tactic(auto, unfolding(crate::specs::FirstValues::firsts_at))]
pub fn read_first_values(
    alloc: Global,
    source: &Source,
    at: usize,
    statics: usize,
    fields: &mut Vec<Field>,
    left: &mut u32,
) -> Result<(), DexFault>
    ensures gives { Gives is_free (λ u. (fields.new.items, left.new)) result (firsts_at source.now.bytes.now source.now.program.now at statics fields.old.items left.old) }
    ensures counts { IfErr result CountsInFile }
{
    let (count, next) = number_of(source.bytes, at)?;
    take_items(count, left)?;
    give_firsts(alloc, source, statics, count, next, fields, left)?;
    Ok(())
}
