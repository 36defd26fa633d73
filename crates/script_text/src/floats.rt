//! The names of float operations (Dalvik bytecode, "Summary of bytecode set").

ghost use Rattle.std.specs.Prelude.{◌≡◌};
ghost use Rattle.text_defs.specs.FloatNames.{compare_named, convert_named, float_arithmetic, double_arithmetic, float_named, takes_wides, gives_wide, takes_one};

use dalvik_defs::FloatOp;

fn compare_named(word: &[u8]) -> Option<FloatOp>
    ensures { result ≡ compare_named word.now }
{
    if word == b"cmpl-float".as_slice() {
        Some(FloatOp::CmplFloat)
    } else if word == b"cmpg-float".as_slice() {
        Some(FloatOp::CmpgFloat)
    } else if word == b"cmpl-double".as_slice() {
        Some(FloatOp::CmplDouble)
    } else if word == b"cmpg-double".as_slice() {
        Some(FloatOp::CmpgDouble)
    } else if word == b"neg-float".as_slice() {
        Some(FloatOp::NegFloat)
    } else if word == b"neg-double".as_slice() {
        Some(FloatOp::NegDouble)
    } else {
        None
    }
}

fn convert_named(word: &[u8]) -> Option<FloatOp>
    ensures { result ≡ convert_named word.now }
{
    if word == b"int-to-float".as_slice() {
        Some(FloatOp::IntToFloat)
    } else if word == b"int-to-double".as_slice() {
        Some(FloatOp::IntToDouble)
    } else if word == b"long-to-float".as_slice() {
        Some(FloatOp::LongToFloat)
    } else if word == b"long-to-double".as_slice() {
        Some(FloatOp::LongToDouble)
    } else if word == b"float-to-int".as_slice() {
        Some(FloatOp::FloatToInt)
    } else if word == b"float-to-long".as_slice() {
        Some(FloatOp::FloatToLong)
    } else if word == b"float-to-double".as_slice() {
        Some(FloatOp::FloatToDouble)
    } else if word == b"double-to-int".as_slice() {
        Some(FloatOp::DoubleToInt)
    } else if word == b"double-to-long".as_slice() {
        Some(FloatOp::DoubleToLong)
    } else if word == b"double-to-float".as_slice() {
        Some(FloatOp::DoubleToFloat)
    } else {
        None
    }
}

fn float_arithmetic(word: &[u8]) -> Option<FloatOp>
    ensures { result ≡ float_arithmetic word.now }
{
    if word == b"add-float".as_slice() {
        Some(FloatOp::AddFloat)
    } else if word == b"sub-float".as_slice() {
        Some(FloatOp::SubFloat)
    } else if word == b"mul-float".as_slice() {
        Some(FloatOp::MulFloat)
    } else if word == b"div-float".as_slice() {
        Some(FloatOp::DivFloat)
    } else if word == b"rem-float".as_slice() {
        Some(FloatOp::RemFloat)
    } else {
        None
    }
}

fn double_arithmetic(word: &[u8]) -> Option<FloatOp>
    ensures { result ≡ double_arithmetic word.now }
{
    if word == b"add-double".as_slice() {
        Some(FloatOp::AddDouble)
    } else if word == b"sub-double".as_slice() {
        Some(FloatOp::SubDouble)
    } else if word == b"mul-double".as_slice() {
        Some(FloatOp::MulDouble)
    } else if word == b"div-double".as_slice() {
        Some(FloatOp::DivDouble)
    } else if word == b"rem-double".as_slice() {
        Some(FloatOp::RemDouble)
    } else {
        None
    }
}

/// The operation of this name.
pub fn float_named(word: &[u8]) -> Option<FloatOp>
    ensures { result ≡ float_named word.now }
{
    if let Some(op) = compare_named(word) {
        return Some(op);
    }
    if let Some(op) = convert_named(word) {
        return Some(op);
    }
    if let Some(op) = float_arithmetic(word) {
        return Some(op);
    }
    double_arithmetic(word)
}

/// Whether the operands are wides.
pub fn takes_wides(op: FloatOp) -> bool
    ensures { result ≡ takes_wides op }
{
    matches!(
        op,
        FloatOp::CmplDouble
            | FloatOp::CmpgDouble
            | FloatOp::NegDouble
            | FloatOp::LongToFloat
            | FloatOp::LongToDouble
            | FloatOp::DoubleToInt
            | FloatOp::DoubleToLong
            | FloatOp::DoubleToFloat
            | FloatOp::AddDouble
            | FloatOp::SubDouble
            | FloatOp::MulDouble
            | FloatOp::DivDouble
            | FloatOp::RemDouble
    )
}

/// Whether the result is a wide.
pub fn gives_wide(op: FloatOp) -> bool
    ensures { result ≡ gives_wide op }
{
    matches!(
        op,
        FloatOp::NegDouble
            | FloatOp::IntToDouble
            | FloatOp::LongToDouble
            | FloatOp::FloatToLong
            | FloatOp::FloatToDouble
            | FloatOp::DoubleToLong
            | FloatOp::AddDouble
            | FloatOp::SubDouble
            | FloatOp::MulDouble
            | FloatOp::DivDouble
            | FloatOp::RemDouble
    )
}

/// Whether there is one operand, not two.
pub fn takes_one(op: FloatOp) -> bool
    ensures { result ≡ takes_one op }
{
    matches!(
        op,
        FloatOp::NegFloat
            | FloatOp::NegDouble
            | FloatOp::IntToFloat
            | FloatOp::IntToDouble
            | FloatOp::LongToFloat
            | FloatOp::LongToDouble
            | FloatOp::FloatToInt
            | FloatOp::FloatToLong
            | FloatOp::FloatToDouble
            | FloatOp::DoubleToInt
            | FloatOp::DoubleToLong
            | FloatOp::DoubleToFloat
    )
}
