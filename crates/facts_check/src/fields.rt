//! What is put into fields, and what they begin with.

ghost use Rattle.std.specs.Prelude.{◌≡◌, true, ℕ, ◌<◌, slice_get, Some, IfOk, cond};
ghost use Rattle.program_model.specs.declared.program.Field.{Field};
ghost use Rattle.program_model.specs.declared.program.Class.{Class};
ghost use Rattle.program_model.specs.Texts.{letter_of, is_wide};
ghost use Rattle.program_model.specs.MemberRules.{field_letter};
ghost use Rattle.value_ops.specs.Numbers.{stored_value};
ghost use Rattle.dom_frame.specs.Registers.{value_at};
ghost use Rattle.domains.specs.Values.{any_value};
ghost use Rattle.closed_facts.specs.Found.{own_number};
ghost use Rattle.closed_facts.specs.Tables.{IsBelow, field_at};
ghost use Rattle.closed_facts.specs.Fields.{zero_parts, layer_parts, first_parts, begun_parts};
ghost use Rattle.program_model.specs.declared.value.EncValue.{out-EncValue};
ghost use Rattle.facts_check.specs.Known.{AreKnown, is_marked};
ghost use Rattle.facts_check.specs.Placed.{HoldsPut, HoldsPuts};
ghost use Rattle.facts_check.specs.Tables.{IsHeld, AreHeld, AreAllHeld};

use crate::known::Known;
use crate::looks::own_number;
use domains::Value;
use facts_order::{is_below, is_open_field, value_at};
use pat_map::PatMap;
use program_model::{EncValue, Field, Flags, Insn, Program};
use value_ops::{any_object, stored};

/// Whether a field holds a value that is put into it by a number that names it.
fn holds_put(known: &Known<'_>, field: u32, value: &Value) -> bool
    ensures { AreKnown known.now → result ≡ true → HoldsPut known.now (own_number known.now.program.now field) value.now }
{
    match own_number(known, field) {
        Some(own) => is_below(value, known.facts.field(own)),
        None => true,
    }
}

/// Whether a field holds what an instruction puts into it.
pub(crate) fn holds_puts(known: &Known<'_>, insn: &Insn, registers: &PatMap<Value>) -> bool
    ensures { AreKnown known.now → result ≡ true → HoldsPuts known.now insn.now registers.now }
{
    match insn {
        Insn::InstancePut {
            item,
            from,
            field,
            ..
        }
        | Insn::StaticPut { item, from, field } => {
            let value = stored(*item, &value_at(registers, u32::from(*from)));
            holds_put(known, *field, &value)
        }
        _ => true,
    }
}

/// The letter that the type of a field number begins with, 0 where there is none.
#[tactic(auto, unfolding(program_model::specs::Texts::type_text, program_model::specs::Texts::letter_of))]
fn letter_of(program: &Program, kind: u32) -> u16
    ensures { result ≡ letter_of program.now kind }
{
    let string = match program.types.as_slice().get(kind as usize) {
        Some(string) => *string,
        None => return 0,
    };
    match program.strings.as_slice().get(string as usize) {
        Some(text) => match text.units() {
            [first, ..] => *first,
            [] => 0,
        },
        None => 0,
    }
}

/// The letter of a field's type.
fn field_letter(program: &Program, field: u32) -> u16
    ensures { result ≡ field_letter program.now (slice_get program.now.fields field) }
{
    match program.fields.as_slice().get(field as usize) {
        Some(name) => letter_of(program, name.kind),
        None => 0,
    }
}

/// Zero, false or null, by the type of a field.
fn zero_of(program: &Program, field: u32) -> Value
    ensures { result ≡ zero_parts program.now field }
{
    let letter = field_letter(program, field);
    if letter == 74 || letter == 68 {
        Value::wide(0)
    } else {
        Value::constant(0)
    }
}

/// A first value. A text or a class is any object.
fn value_of(first: &EncValue) -> Value
    ensures { result ≡ layer_parts (out-EncValue first.now) }
{
    match first {
        EncValue::Byte(number) => Value::constant(i32::from(*number).cast_unsigned()),
        EncValue::Short(number) => Value::constant(i32::from(*number).cast_unsigned()),
        EncValue::Char(unit) => Value::constant(u32::from(*unit)),
        EncValue::Int(number) => Value::constant(number.cast_unsigned()),
        EncValue::Float(bits) => Value::constant(*bits),
        EncValue::Bool(holds) => {
            if *holds {
                Value::constant(1)
            } else {
                Value::constant(0)
            }
        }
        EncValue::Long(number) => Value::wide(number.cast_unsigned()),
        EncValue::Double(bits) => Value::wide(*bits),
        EncValue::Str(_) | EncValue::Class(_) => any_object(),
        _ => Value::constant(0),
    }
}

/// What a static field holds before it is written.
fn first_of(program: &Program, field: &Field) -> Value
    ensures { result ≡ first_parts program.now field.now field.now.first }
{
    match &field.first {
        Some(first) => value_of(first),
        None => zero_of(program, field.name),
    }
}

/// What a field holds before it is written.
fn begun_of(program: &Program, field: &Field) -> Value
    ensures { result ≡ begun_parts program.now field.now }
{
    if field.flags.has(Flags::STATIC) {
        first_of(program, field)
    } else {
        zero_of(program, field.name)
    }
}

/// Whether a mark is on.
pub(crate) fn is_on(marks: &[bool], number: u32) -> bool
    ensures { result ≡ is_marked marks.now number }
{
    match marks.get(number as usize) {
        Some(mark) => *mark,
        None => false,
    }
}

/// Whether what is known of a field holds of what it begins with.
fn is_held(known: &Known<'_>, field: &Field) -> bool
    ensures { result ≡ true → IsHeld known.now field.now }
{
    is_below(
        &begun_of(known.program, field),
        known.facts.field(field.name),
    )
}

/// The same of all fields of a class.
fn are_held(known: &Known<'_>, fields: &[Field]) -> bool
    ensures { result ≡ true → AreHeld known.now fields.now }
{
    for field in fields {
        if !is_held(known, field) {
            return false;
        }
    }
    true
}

/// The same of all fields of the program.
fn firsts_hold(known: &Known<'_>) -> bool
    ensures { result ≡ true → (c : ℕ) (class : Class) → slice_get known.now.program.now.classes c ≡ Some class → AreHeld known.now class.fields }
{
    for class in known.program.classes.as_slice() {
        if !are_held(known, class.fields.as_slice()) {
            return false;
        }
    }
    true
}

/// Whether what is kept may hold anything.
fn kept_hold(known: &Known<'_>) -> bool
    ensures { result ≡ true → (i n : ℕ) → slice_get known.now.outside.now.fields i ≡ Some n → IsBelow any_value (field_at known.now.facts.now n) }
{
    for field in known.outside.fields.as_slice() {
        if !is_open_field(known.facts, *field) {
            return false;
        }
    }
    true
}

/// Whether fields hold what they begin with, and anything where they are kept.
pub(crate) fn fields_hold(known: &Known<'_>) -> bool
    ensures { result ≡ true → AreAllHeld known.now }
{
    firsts_hold(known) && kept_hold(known)
}
