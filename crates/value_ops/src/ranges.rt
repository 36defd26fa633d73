//! In which range the answer of an operation on two words is.

ghost use Rattle.std.specs.Prelude.{◌≡◌, ◌≤ℤ◌, ◌+ℤ◌, ◌-ℤ◌};
ghost use Rattle.domains.specs.Ranges.{first_word, last_word, words_between};
ghost use Rattle.dalvik_numbers.specs.Kinds.{kind_of};
ghost use Rattle.value_ops.specs.Sums.{range_or_all, sum_range, difference_range, has_no_sign, mask_range, range_of, literal_range};

use dalvik_numbers::Arith;
use domains::Interval;
use insn_set::LiteralOp;

/// The range from one number, that is at least the least word, to another, that is at most the greatest.
fn between(low: i64, high: i64) -> Interval
    requires low { first_word ≤ℤ low }
    requires high { high ≤ℤ last_word }
    ensures { result ≡ words_between low high }
{
    if high < low {
        Interval::empty()
    } else {
        Interval {
            low: low as i32,
            high: high as i32,
        }
    }
}

/// The range from one number to another, or of all words where one of them is no word.
fn range_or_all(low: i64, high: i64) -> Interval
    ensures { result ≡ range_or_all low high }
{
    if i64::from(i32::MIN) <= low && high <= i64::from(i32::MAX) {
        between(low, high)
    } else {
        Interval::full()
    }
}

/// The sum of two words, whatever it is.
fn sum(a: i32, b: i32) -> i64
    ensures { result ≡ a +ℤ b }
{
    i64::from(a) + i64::from(b)
}

/// The difference of two words, whatever it is.
fn difference(a: i32, b: i32) -> i64
    ensures { result ≡ a -ℤ b }
{
    i64::from(a) - i64::from(b)
}

/// The words of a range and of another, one added to the other.
fn sum_range(a: Interval, b: Interval) -> Interval
    ensures { result ≡ sum_range a b }
{
    range_or_all(sum(a.low, b.low), sum(a.high, b.high))
}

/// The words of a range less those of another.
fn difference_range(a: Interval, b: Interval) -> Interval
    ensures { result ≡ difference_range a b }
{
    range_or_all(difference(a.low, b.high), difference(a.high, b.low))
}

/// Whether no word of a range is below 0.
fn has_no_sign(range: Interval) -> bool
    ensures { result ≡ has_no_sign range }
{
    0 <= range.low
}

/// The words of a range masked by those of another.
fn mask_range(a: Interval, b: Interval) -> Interval
    ensures { result ≡ mask_range a b }
{
    if has_no_sign(a) && has_no_sign(b) {
        Interval::between(0, a.high.min(b.high))
    } else if has_no_sign(a) {
        Interval::between(0, a.high)
    } else if has_no_sign(b) {
        Interval::between(0, b.high)
    } else {
        Interval::full()
    }
}

/// In which range the answer of an operation on the words of two ranges is.
pub(crate) fn range_of(kind: Arith, a: Interval, b: Interval) -> Interval
    ensures { result ≡ range_of (kind_of kind) a b }
{
    match kind {
        Arith::Add => sum_range(a, b),
        Arith::Sub => difference_range(a, b),
        Arith::And => mask_range(a, b),
        _ => Interval::full(),
    }
}

/// In which range the answer of an operation on the words of a range and a literal is.
pub(crate) fn literal_range(op: LiteralOp, range: Interval, value: i16) -> Interval
    ensures { result ≡ literal_range op range value }
{
    let literal = Interval::of_word(i32::from(value));
    match op {
        LiteralOp::AddInt => sum_range(range, literal),
        LiteralOp::RsubInt => difference_range(literal, range),
        LiteralOp::AndInt => mask_range(range, literal),
        _ => Interval::full(),
    }
}
