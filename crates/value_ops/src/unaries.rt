//! What operators with one operand, comparisons and stores make of values.

ghost use Rattle.std.specs.Prelude.{◌≡◌, ◌%◌, ◌^◌, true, Some};
ghost use Rattle.std.specs.Int.{w8, w16};
ghost use Rattle.dalvik_defs.specs.Arith.{compared, signed, low_signed};
ghost use Rattle.dalvik_defs.specs.Operators.{unary_answer};
ghost use Rattle.value_ops.specs.Numbers.{no_floats, number_value, unknown_answer, unary_known, unary_value, comparison_of, compared_known};
ghost use Rattle.value_ops.specs.Numbers.{compared_value, cut_value, boolean_range, byte_range, char_range, short_range, kept_value, stored_value};

use crate::left::is_nothing;
use crate::made::{any_number, words_between};
use crate::numbers::number_in;
use dalvik_numbers::{cut_byte, cut_char, cut_short};
use domains::{Value, Word};
use insn_set::{CmpOp, Item, UnaryOp};

/// The low 32 bits.
fn low(number: u64) -> u32
    ensures { result ≡ number % 2 ^ 32 }
{
    (number % 4294967296) as u32
}

/// What an operator makes of an operand that isn't known.
fn unknown(op: UnaryOp) -> Value
    ensures { result ≡ unknown_answer op }
{
    match op {
        UnaryOp::IntToByte => words_between(-128, 127),
        UnaryOp::IntToChar => words_between(0, 65535),
        UnaryOp::IntToShort => words_between(-32768, 32767),
        _ => any_number(),
    }
}

/// What an operator makes of a known number.
fn known(op: UnaryOp, number: u64) -> Value
    ensures { result ≡ unary_known op (Some number) }
{
    match op {
        UnaryOp::NegInt => Value::constant(low(number).wrapping_neg()),
        UnaryOp::NotInt => Value::constant(!low(number)),
        UnaryOp::NegLong => Value::wide(number.wrapping_neg()),
        UnaryOp::NotLong => Value::wide(!number),
        UnaryOp::IntToLong => { Value::wide(i64::from(low(number).cast_signed()).cast_unsigned()) }
        UnaryOp::LongToInt => Value::constant(low(number)),
        UnaryOp::IntToByte => Value::constant(cut_byte(low(number))),
        UnaryOp::IntToChar => Value::constant(cut_char(low(number))),
        UnaryOp::IntToShort => Value::constant(cut_short(low(number))),
        _ => any_number(),
    }
}

/// What the operator makes of its operand: the exact number of a known one, but any of a float, nothing of nothing, and
/// the range of its words where it cuts one.
pub fn unary(op: UnaryOp, a: &Value) -> Value
    ensures { result ≡ unary_value op a.now }
{
    if is_nothing(a) {
        return Value::none();
    }
    match number_in(a.word()) {
        Some(number) => known(op, number),
        None => unknown(op),
    }
}

/// -1, 0 or 1 as a word: how two signed wide numbers compare.
fn order_of(a: u64, b: u64) -> u32
    ensures { result ≡ compared (signed true a) (signed true b) }
{
    let (x, y) = (a.cast_signed(), b.cast_signed());
    if x < y {
        u32::MAX
    } else if y < x {
        1
    } else {
        0
    }
}

/// How two wide numbers compare.
fn comparison_of(a: Word, b: Word) -> Value
    ensures { result ≡ comparison_of a b }
{
    match (a, b) {
        (Word::KnownWide(m), Word::KnownWide(n)) => Value::constant(order_of(m, n)),
        _ => words_between(-1, 1),
    }
}

/// What the comparison makes of its operands: -1, 0 or 1 of wide numbers, and any number of floats; nothing where an
/// operand holds of nothing.
pub fn compare(op: CmpOp, a: &Value, b: &Value) -> Value
    ensures { result ≡ compared_value op a.now b.now }
{
    if is_nothing(a) || is_nothing(b) {
        return Value::none();
    }
    match op {
        CmpOp::CmpLong => comparison_of(a.word(), b.word()),
        _ => any_number(),
    }
}

/// What a field or an item of an array keeps of a word of 8 bits without a sign.
fn as_boolean(number: Option<u64>) -> Value
    ensures { result ≡ cut_value (λ n. n % 2 ^ 8) boolean_range number }
{
    match number {
        Some(n) => Value::constant((n % 256) as u32),
        None => words_between(0, 255),
    }
}

/// What it keeps of a word of 8 bits.
fn as_byte(number: Option<u64>) -> Value
    ensures { result ≡ cut_value (low_signed w8 8) byte_range number }
{
    match number {
        Some(n) => Value::constant(cut_byte(low(n))),
        None => words_between(-128, 127),
    }
}

/// What it keeps of a word of 16 bits without a sign.
fn as_char(number: Option<u64>) -> Value
    ensures { result ≡ cut_value (λ n. n % 2 ^ 16) char_range number }
{
    match number {
        Some(n) => Value::constant(cut_char(low(n))),
        None => words_between(0, 65535),
    }
}

/// What it keeps of a word of 16 bits.
fn as_short(number: Option<u64>) -> Value
    ensures { result ≡ cut_value (low_signed w16 16) short_range number }
{
    match number {
        Some(n) => Value::constant(cut_short(low(n))),
        None => words_between(-32768, 32767),
    }
}

/// What a field or an item of an array keeps of what is stored there: the low bits of small items, all of others.
pub fn stored(item: Item, a: &Value) -> Value
    ensures { result ≡ stored_value item a.now }
{
    if is_nothing(a) {
        return Value::none();
    }
    let number = number_in(a.word());
    match item {
        Item::Plain | Item::Wide | Item::Object => a.same(),
        Item::Boolean => as_boolean(number),
        Item::Byte => as_byte(number),
        Item::Char => as_char(number),
        Item::Short => as_short(number),
    }
}
