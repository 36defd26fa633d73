//! What operators with two operands make of values.

ghost use Rattle.std.specs.Prelude.{◌≡◌, ◌%◌, ◌^◌};
ghost use Rattle.std.specs.Option.{option_map};
ghost use Rattle.domains.specs.Values.{constant_value, wide_value};
ghost use Rattle.dalvik_numbers.specs.Kinds.{kind_of, sort_is};
ghost use Rattle.value_ops.specs.Left.{number_in};
ghost use Rattle.value_ops.specs.Numbers.{is_division, is_zero_number, word_answer, wide_answer, shift_answer, stops, sorted_value, binary_value, divides_by_zero, literal_known, literal_value};

use crate::left::is_nothing;
use crate::made::{any_number, words_of};
use crate::ranges::{literal_range, range_of};
use dalvik_numbers::{Arith, Sort, literal as literal_answer, on_wides, on_words, sort_of};
use domains::{Interval, Value, Word};
use insn_set::{BinaryOp, LiteralOp};

/// Whether the operation throws where its second operand is 0.
fn is_division(kind: Arith) -> bool
    ensures { result ≡ is_division (kind_of kind) }
{
    matches!(kind, Arith::Div | Arith::Rem)
}

/// Whether a number is surely 0.
fn is_zero_number(word: Word) -> bool
    ensures { result ≡ is_zero_number word }
{
    match word {
        Word::Known(n) => n == 0,
        Word::KnownWide(n) => n == 0,
        _ => false,
    }
}

/// The word of an answer, none where there is none.
fn constant(answer: Option<u32>) -> Option<Value>
    ensures { result ≡ option_map constant_value answer }
{
    match answer {
        Some(word) => Some(Value::constant(word)),
        None => None,
    }
}

/// The wide number of an answer, none where there is none.
fn wide(answer: Option<u64>) -> Option<Value>
    ensures { result ≡ option_map wide_value answer }
{
    match answer {
        Some(number) => Some(Value::wide(number)),
        None => None,
    }
}

/// What an operation makes of two words, of which the answer is in a range.
fn on_known_words(kind: Arith, a: Word, b: Word, range: Interval) -> Option<Value>
    ensures { result ≡ word_answer (kind_of kind) a b range }
{
    match (a, b) {
        (Word::Known(m), Word::Known(n)) => constant(on_words(kind, m, n)),
        _ => Some(words_of(range)),
    }
}

/// What an operation makes of two wide numbers.
fn on_known_wides(kind: Arith, a: Word, b: Word) -> Option<Value>
    ensures { result ≡ wide_answer (kind_of kind) a b }
{
    match (a, b) {
        (Word::KnownWide(m), Word::KnownWide(n)) => wide(on_wides(kind, m, n)),
        _ => Some(any_number()),
    }
}

/// What a shift makes of a wide number and a word.
fn on_known_shift(kind: Arith, a: Word, b: Word) -> Option<Value>
    ensures { result ≡ shift_answer (kind_of kind) a b }
{
    match (a, b) {
        (Word::KnownWide(m), Word::Known(n)) => wide(on_wides(kind, m, u64::from(n))),
        _ => Some(any_number()),
    }
}

/// Whether the operation is a division by what is surely 0.
fn stops(kind: Arith, divisor: &Value) -> bool
    ensures { result ≡ stops (kind_of kind) divisor.now }
{
    is_division(kind) && is_zero_number(divisor.word())
}

/// What an operator of a sort makes of its operands.
fn sorted(sort: Sort, a: &Value, b: &Value) -> Option<Value>
    ensures { result ≡ sorted_value (sort_is sort) a.now b.now }
{
    match sort {
        Sort::OnWord(kind) => {
            if stops(kind, b) {
                None
            } else {
                on_known_words(
                    kind,
                    a.word(),
                    b.word(),
                    range_of(kind, a.interval(), b.interval()),
                )
            }
        }
        Sort::OnWide(kind) => {
            if stops(kind, b) {
                None
            } else {
                on_known_wides(kind, a.word(), b.word())
            }
        }
        Sort::Shifts(kind) => {
            if stops(kind, b) {
                None
            } else {
                on_known_shift(kind, a.word(), b.word())
            }
        }
        Sort::OnFloat(_) | Sort::OnDouble(_) => Some(any_number()),
    }
}

/// What the operator makes of its operands: the exact number of two known ones, none where an operand holds of nothing
/// or the divisor is surely 0, a range of words for a sum, a difference and a mask, and any number for all else, floats
/// among them.
pub fn binary(op: BinaryOp, a: &Value, b: &Value) -> Option<Value>
    ensures { result ≡ binary_value op a.now b.now }
{
    if is_nothing(a) || is_nothing(b) {
        None
    } else {
        sorted(sort_of(op), a, b)
    }
}

/// The low 32 bits.
fn low(number: u64) -> u32
    ensures { result ≡ number % 2 ^ 32 }
{
    (number % 4294967296) as u32
}

/// The number of either width that is known.
pub(crate) fn number_in(word: Word) -> Option<u64>
    ensures { result ≡ number_in word }
{
    match word {
        Word::Known(n) => Some(u64::from(n)),
        Word::KnownWide(n) => Some(n),
        _ => None,
    }
}

/// What the operator makes of a number and a literal, of which the number is in a range.
fn on_literal(op: LiteralOp, number: Option<u64>, range: Interval, value: i16) -> Option<Value>
    ensures { result ≡ literal_known op number range value }
{
    match number {
        Some(n) => constant(literal_answer(op, low(n), value)),
        None => Some(words_of(literal_range(op, range, value))),
    }
}

/// Whether the operator divides by a literal that is 0.
fn divides_by_zero(op: LiteralOp, value: i16) -> bool
    ensures { result ≡ divides_by_zero op value }
{
    op.divides() && value == 0
}

/// What the operator makes of its operand and a literal: the exact word of a known one, none where the operand holds of
/// nothing or the literal is 0 and divides, else a range of words.
pub fn literal(op: LiteralOp, a: &Value, value: i16) -> Option<Value>
    ensures { result ≡ literal_value op a.now value }
{
    if is_nothing(a) || divides_by_zero(op, value) {
        None
    } else {
        on_literal(op, number_in(a.word()), a.interval(), value)
    }
}
