//! What the way that a switch goes says of its operand.

ghost use Rattle.std.specs.Prelude.{◌≡◌, ◌&&◌, pos};
ghost use Rattle.std.specs.Int.{w32, cast_unsigned};
ghost use Rattle.std.specs.Ordering.{int_eq};
ghost use Rattle.value_ops.specs.Left.{without};
ghost use Rattle.value_ops.specs.Tests.{word_has, null_has, has_word, keyed_value, without_all, unkeyed_value, without_run, unpacked_value};

use crate::left::{goes_on, without};
use domains::{Nullness, Value, Word};

/// Whether a word is this one, as far as is known.
fn word_has(word: Word, known: u32) -> bool
    ensures { result ≡ word_has word known }
{
    match word {
        Word::Any => true,
        Word::Known(own) => own == known,
        _ => false,
    }
}

/// Whether it can be what is null, or what isn't.
fn null_has(nullness: Nullness, zero: bool) -> bool
    ensures { result ≡ null_has nullness zero }
{
    match nullness {
        Nullness::Bottom => false,
        Nullness::Null => zero,
        Nullness::NotNull => !zero,
        Nullness::Any => true,
    }
}

/// Whether all three are so.
fn all_three(a: bool, b: bool, c: bool) -> bool
    ensures { result ≡ (a && b && c) }
{
    a && b && c
}

/// Whether it can be a signed word, as far as that is 0 or not.
fn null_fits(nullness: Nullness, word: i32) -> bool
    ensures { result ≡ null_has nullness (int_eq word (pos 0)) }
{
    null_has(nullness, word == 0)
}

/// Whether the value holds of a signed word.
fn has_word(value: &Value, word: i32) -> bool
    ensures { result ≡ has_word value.now word }
{
    let known = word_has(value.word(), word.cast_unsigned());
    let inside = value.interval().has(word);
    let fits = null_fits(value.nullness(), word);
    all_three(known, inside, fits)
}

/// The operand of a switch where it is a key; none where it isn't.
pub fn keyed(key: i32, value: &Value) -> Option<Value>
    ensures { result ≡ keyed_value key value.now }
{
    if has_word(value, key) {
        Some(Value::constant(key.cast_unsigned()))
    } else {
        None
    }
}

/// What is left of a value without a key.
fn without_key(key: &i32, value: &Value) -> Value
    ensures { result ≡ without (cast_unsigned w32 key.now) value.now }
{
    without(key.cast_unsigned(), value)
}

/// What is left of a value without some words.
fn without_all(keys: &[i32], value: Value) -> Value
    ensures { result ≡ without_all keys.now value }
{
    let mut left = value;
    for key in keys {
        left = without_key(key, &left);
    }
    left
}

/// The operand of a switch where it is none of the keys; none where it is surely one of them.
pub fn unkeyed(keys: &[i32], value: &Value) -> Option<Value>
    ensures { result ≡ unkeyed_value keys.now value.now }
{
    goes_on(without_all(keys, value.same()))
}

/// What is left of a value without so many consecutive words.
fn without_run(start: u32, count: u32, value: Value) -> Value
    ensures { result ≡ without_run start count value }
{
    let mut left = value;
    for place in 0..count {
        left = without(start.wrapping_add(place), &left);
    }
    left
}

/// The operand of a switch where it is none of `count` consecutive keys, of which the one behind the greatest word is the
/// least; none where it is surely one of them.
pub fn unpacked(first: i32, count: u32, value: &Value) -> Option<Value>
    ensures { result ≡ unpacked_value first count value.now }
{
    goes_on(without_run(first.cast_unsigned(), count, value.same()))
}
