//! What the test of a branch says of its operands.

ghost use Rattle.std.specs.Prelude.{◌≡◌, if◌then◌else◌};
ghost use Rattle.domains.specs.Ranges.{first_word, last_word, words_between};
ghost use Rattle.domains.specs.Values.{known_of};
ghost use Rattle.value_ops.specs.Tests.{words_below, words_above, other_than, equal_values, different_values, less_values, least_values, turned, passed_values, opposite, tested_values};

use crate::left::{both_go_on, narrowed, same_as, without};
use domains::{Interval, Value};
use insn_set::Test;

/// The words below the greatest one of a range.
fn words_below(range: Interval) -> Interval
    ensures { result ≡ words_below range.high }
{
    if range.high == i32::MIN {
        Interval::empty()
    } else {
        Interval::between(i32::MIN, range.high - 1)
    }
}

/// The words above the least one of a range.
fn words_above(range: Interval) -> Interval
    ensures { result ≡ words_above range.low }
{
    if range.low == i32::MAX {
        Interval::empty()
    } else {
        Interval::between(range.low + 1, i32::MAX)
    }
}

/// The words that are no less than the least one of a range.
fn words_from(range: Interval) -> Interval
    ensures { result ≡ words_between range.low last_word }
{
    Interval::between(range.low, i32::MAX)
}

/// The words that are no greater than the greatest one of a range.
fn words_to(range: Interval) -> Interval
    ensures { result ≡ words_between first_word range.high }
{
    Interval::between(i32::MIN, range.high)
}

/// The word, where the value holds of it and of nothing else.
fn known_of(value: &Value) -> Option<u32>
    ensures { result ≡ known_of value.now }
{
    if value.has_no_object() {
        value.word().known()
    } else {
        None
    }
}

/// What is left of a value that isn't the word that another one surely is.
fn other_than(value: &Value, known: Option<u32>) -> Value
    ensures { result ≡ other_than value.now known }
{
    match known {
        Some(word) => without(word, value),
        None => value.same(),
    }
}

/// What is left of two values that are the same.
fn equal(a: &Value, b: &Value) -> Option<(Value, Value)>
    ensures { result ≡ equal_values a.now b.now }
{
    both_go_on(same_as(a, b), same_as(b, a))
}

/// What is left of two values that aren't the same.
fn different(a: &Value, b: &Value) -> Option<(Value, Value)>
    ensures { result ≡ different_values a.now b.now }
{
    both_go_on(other_than(a, known_of(b)), other_than(b, known_of(a)))
}

/// What is left of two words of which the first is less.
fn less(a: &Value, b: &Value) -> Option<(Value, Value)>
    ensures { result ≡ less_values a.now b.now }
{
    let below = words_below(b.interval());
    let above = words_above(a.interval());
    let first = narrowed(a, below);
    let second = narrowed(b, above);
    both_go_on(first, second)
}

/// What is left of two words of which the first is no less.
fn at_least(a: &Value, b: &Value) -> Option<(Value, Value)>
    ensures { result ≡ least_values a.now b.now }
{
    let above = words_from(b.interval());
    let below = words_to(a.interval());
    let first = narrowed(a, above);
    let second = narrowed(b, below);
    both_go_on(first, second)
}

/// The other one first.
fn turned(both: Option<(Value, Value)>) -> Option<(Value, Value)>
    ensures { result ≡ turned both }
{
    match both {
        Some((first, second)) => Some((second, first)),
        None => None,
    }
}

/// What is left of the operands of a test that passes.
fn passed(test: Test, a: &Value, b: &Value) -> Option<(Value, Value)>
    ensures { result ≡ passed_values test a.now b.now }
{
    match test {
        Test::Eq => equal(a, b),
        Test::Ne => different(a, b),
        Test::Lt => less(a, b),
        Test::Ge => at_least(a, b),
        Test::Gt => turned(less(b, a)),
        Test::Le => turned(at_least(b, a)),
    }
}

/// The test that passes where this one doesn't.
fn opposite(test: Test) -> Test
    ensures { result ≡ opposite test }
{
    match test {
        Test::Eq => Test::Ne,
        Test::Ne => Test::Eq,
        Test::Lt => Test::Ge,
        Test::Ge => Test::Lt,
        Test::Gt => Test::Le,
        Test::Le => Test::Gt,
    }
}

/// What is left of the operands of a test that passes, or that doesn't, as `holds` says; none where an operand holds of
/// nothing or the test can't answer so. Equality is asked of two words or of two objects, the order of two words.
pub fn refine(holds: bool, test: Test, a: &Value, b: &Value) -> Option<(Value, Value)>
    ensures { result ≡ tested_values holds test a.now b.now }
{
    let passing = if holds { test } else { opposite(test) };
    passed(passing, a, b)
}
