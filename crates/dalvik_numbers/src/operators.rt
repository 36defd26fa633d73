//! What the operators are, and what they answer.

ghost use Rattle.std.specs.Prelude.{◌≡◌, ◌%◌, ◌^◌, cond, true};
ghost use Rattle.std.specs.Int.{w32, cast_unsigned};
ghost use Rattle.std.specs.Option.{option_map};
ghost use Rattle.dalvik_defs.specs.declared.tables.Floats.{Floats};
ghost use Rattle.dalvik_defs.specs.Arith.{compared, literal_answer, signed};
ghost use Rattle.dalvik_defs.specs.Operators.{OneWide, OneWord, comparison, float_wide, float_word, sort_of, unary_answer};
ghost use Rattle.dalvik_numbers.specs.Kinds.{answered, number_is, sort_is};
ghost use Rattle.dalvik_numbers.specs.Rows.{IsTable};

use crate::arith::{Arith, on_wides, on_words};
use crate::floats::FloatTable;
use crate::words::{cut_byte, cut_char, cut_short};
use dalvik_defs::FloatOp;
use program_model::{BinaryOp, CmpOp, LiteralOp, UnaryOp};

/// What two operands an operator takes: two words, two wides, a wide that a word shifts, or floats.
#[derive(Clone, Copy, PartialEq, Eq, Debug, Drop)]
pub enum Sort {
    OnWord(Arith),
    OnWide(Arith),
    Shifts(Arith),
    OnFloat(FloatOp),
    OnDouble(FloatOp),
}

/// A number that an operator answers.
#[derive(Clone, Copy, PartialEq, Eq, Debug, Drop)]
pub enum Number {
    OneWord(u32),
    OneWide(u64),
}

/// What operands the operator takes.
pub fn sort_of(op: BinaryOp) -> Sort
    ensures { sort_is result ≡ sort_of op }
{
    match op {
        BinaryOp::AddInt => Sort::OnWord(Arith::Add),
        BinaryOp::SubInt => Sort::OnWord(Arith::Sub),
        BinaryOp::MulInt => Sort::OnWord(Arith::Mul),
        BinaryOp::DivInt => Sort::OnWord(Arith::Div),
        BinaryOp::RemInt => Sort::OnWord(Arith::Rem),
        BinaryOp::AndInt => Sort::OnWord(Arith::And),
        BinaryOp::OrInt => Sort::OnWord(Arith::Or),
        BinaryOp::XorInt => Sort::OnWord(Arith::Xor),
        BinaryOp::ShlInt => Sort::OnWord(Arith::Shl),
        BinaryOp::ShrInt => Sort::OnWord(Arith::Shr),
        BinaryOp::UshrInt => Sort::OnWord(Arith::Ushr),
        BinaryOp::AddLong => Sort::OnWide(Arith::Add),
        BinaryOp::SubLong => Sort::OnWide(Arith::Sub),
        BinaryOp::MulLong => Sort::OnWide(Arith::Mul),
        BinaryOp::DivLong => Sort::OnWide(Arith::Div),
        BinaryOp::RemLong => Sort::OnWide(Arith::Rem),
        BinaryOp::AndLong => Sort::OnWide(Arith::And),
        BinaryOp::OrLong => Sort::OnWide(Arith::Or),
        BinaryOp::XorLong => Sort::OnWide(Arith::Xor),
        BinaryOp::ShlLong => Sort::Shifts(Arith::Shl),
        BinaryOp::ShrLong => Sort::Shifts(Arith::Shr),
        BinaryOp::UshrLong => Sort::Shifts(Arith::Ushr),
        BinaryOp::AddFloat => Sort::OnFloat(FloatOp::AddFloat),
        BinaryOp::SubFloat => Sort::OnFloat(FloatOp::SubFloat),
        BinaryOp::MulFloat => Sort::OnFloat(FloatOp::MulFloat),
        BinaryOp::DivFloat => Sort::OnFloat(FloatOp::DivFloat),
        BinaryOp::RemFloat => Sort::OnFloat(FloatOp::RemFloat),
        BinaryOp::AddDouble => Sort::OnDouble(FloatOp::AddDouble),
        BinaryOp::SubDouble => Sort::OnDouble(FloatOp::SubDouble),
        BinaryOp::MulDouble => Sort::OnDouble(FloatOp::MulDouble),
        BinaryOp::DivDouble => Sort::OnDouble(FloatOp::DivDouble),
        BinaryOp::RemDouble => Sort::OnDouble(FloatOp::RemDouble),
    }
}

/// The low 32 bits.
fn low(number: u64) -> u32
    ensures { result ≡ number % 2 ^ 32 }
{
    (number % 4294967296) as u32
}

/// A word as an answer.
fn one_word(answer: Option<u32>) -> Option<Number>
    ensures { option_map number_is result ≡ option_map OneWord answer }
{
    match answer {
        Some(word) => Some(Number::OneWord(word)),
        None => None,
    }
}

/// A wide as an answer.
fn one_wide(answer: Option<u64>) -> Option<Number>
    ensures { option_map number_is result ≡ option_map OneWide answer }
{
    match answer {
        Some(wide) => Some(Number::OneWide(wide)),
        None => None,
    }
}

/// What an operator of a sort answers on the numbers of its operands, none where it divides by 0.
fn sorted(floats: &FloatTable, sort: Sort, a: u64, b: u64) -> Option<Number>
    ensures { (rows : Floats) → IsTable floats.now rows → option_map number_is result ≡ answered rows (sort_is sort) a b }
{
    match sort {
        Sort::OnWord(kind) => one_word(on_words(kind, low(a), low(b))),
        Sort::OnWide(kind) => one_wide(on_wides(kind, a, b)),
        Sort::Shifts(kind) => one_wide(on_wides(kind, a, b)),
        Sort::OnFloat(op) => Some(Number::OneWord(floats.word(op, a, b))),
        Sort::OnDouble(op) => Some(Number::OneWide(floats.wide(op, a, b))),
    }
}

/// What the operator answers on the numbers of its operands, none where it divides by 0. Operations on ints take the low
/// 32 bits.
pub fn binary(floats: &FloatTable, op: BinaryOp, a: u64, b: u64) -> Option<Number>
    ensures { (rows : Floats) → IsTable floats.now rows → option_map number_is result ≡ answered rows (sort_of op) a b }
{
    sorted(floats, sort_of(op), a, b)
}

/// What the operator answers on a word and a literal, none where it divides by 0.
pub fn literal(op: LiteralOp, a: u32, value: i16) -> Option<u32>
    ensures { result ≡ literal_answer op a (cast_unsigned w32 value) }
{
    let b = i32::from(value).cast_unsigned();
    match op {
        LiteralOp::AddInt => on_words(Arith::Add, a, b),
        LiteralOp::RsubInt => on_words(Arith::Sub, b, a),
        LiteralOp::MulInt => on_words(Arith::Mul, a, b),
        LiteralOp::DivInt => on_words(Arith::Div, a, b),
        LiteralOp::RemInt => on_words(Arith::Rem, a, b),
        LiteralOp::AndInt => on_words(Arith::And, a, b),
        LiteralOp::OrInt => on_words(Arith::Or, a, b),
        LiteralOp::XorInt => on_words(Arith::Xor, a, b),
        LiteralOp::ShlInt => on_words(Arith::Shl, a, b),
        LiteralOp::ShrInt => on_words(Arith::Shr, a, b),
        LiteralOp::UshrInt => on_words(Arith::Ushr, a, b),
    }
}

/// The word or wide that a float operator with one operand answers.
fn float_unary(floats: &FloatTable, op: FloatOp, a: u64, wide: bool) -> Number
    ensures { (rows : Floats) → IsTable floats.now rows → number_is result ≡ cond wide (OneWide (float_wide rows op a 0)) (OneWord (float_word rows op a 0)) }
{
    if wide {
        Number::OneWide(floats.wide(op, a, 0))
    } else {
        Number::OneWord(floats.word(op, a, 0))
    }
}

/// What the operator answers on the number of its operand.
pub fn unary(floats: &FloatTable, op: UnaryOp, a: u64) -> Number
    ensures { (rows : Floats) → IsTable floats.now rows → number_is result ≡ unary_answer rows op a }
{
    match op {
        UnaryOp::NegInt => Number::OneWord(low(a).wrapping_neg()),
        UnaryOp::NotInt => Number::OneWord(!low(a)),
        UnaryOp::NegLong => Number::OneWide(a.wrapping_neg()),
        UnaryOp::NotLong => Number::OneWide(!a),
        UnaryOp::NegFloat => float_unary(floats, FloatOp::NegFloat, a, false),
        UnaryOp::NegDouble => float_unary(floats, FloatOp::NegDouble, a, true),
        UnaryOp::IntToLong => Number::OneWide(i64::from(low(a).cast_signed()).cast_unsigned()),
        UnaryOp::IntToFloat => float_unary(floats, FloatOp::IntToFloat, a, false),
        UnaryOp::IntToDouble => float_unary(floats, FloatOp::IntToDouble, a, true),
        UnaryOp::LongToInt => Number::OneWord(low(a)),
        UnaryOp::LongToFloat => float_unary(floats, FloatOp::LongToFloat, a, false),
        UnaryOp::LongToDouble => float_unary(floats, FloatOp::LongToDouble, a, true),
        UnaryOp::FloatToInt => float_unary(floats, FloatOp::FloatToInt, a, false),
        UnaryOp::FloatToLong => float_unary(floats, FloatOp::FloatToLong, a, true),
        UnaryOp::FloatToDouble => float_unary(floats, FloatOp::FloatToDouble, a, true),
        UnaryOp::DoubleToInt => float_unary(floats, FloatOp::DoubleToInt, a, false),
        UnaryOp::DoubleToLong => float_unary(floats, FloatOp::DoubleToLong, a, true),
        UnaryOp::DoubleToFloat => float_unary(floats, FloatOp::DoubleToFloat, a, false),
        UnaryOp::IntToByte => Number::OneWord(cut_byte(low(a))),
        UnaryOp::IntToChar => Number::OneWord(cut_char(low(a))),
        UnaryOp::IntToShort => Number::OneWord(cut_short(low(a))),
    }
}

/// -1, 0 or 1 as a word: how two signed wides compare.
fn compare_wides(a: u64, b: u64) -> u32
    ensures { result ≡ compared (signed true a) (signed true b) }
{
    let (x, y) = (a.cast_signed(), b.cast_signed());
    if x < y {
        u32::MAX
    } else if y < x {
        1
    } else {
        0
    }
}

/// What the comparison answers on the numbers of its operands.
pub fn compare(floats: &FloatTable, op: CmpOp, a: u64, b: u64) -> u32
    ensures { (rows : Floats) → IsTable floats.now rows → result ≡ comparison rows op a b }
{
    match op {
        CmpOp::CmplFloat => floats.word(FloatOp::CmplFloat, a, b),
        CmpOp::CmpgFloat => floats.word(FloatOp::CmpgFloat, a, b),
        CmpOp::CmplDouble => floats.word(FloatOp::CmplDouble, a, b),
        CmpOp::CmpgDouble => floats.word(FloatOp::CmpgDouble, a, b),
        CmpOp::CmpLong => compare_wides(a, b),
    }
}
