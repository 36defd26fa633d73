//! What is left of a value where more is known of what it holds of.

ghost use Rattle.std.specs.Prelude.{◌≡◌, ◌==◌, ◌&&◌, Some, None, [], if◌then◌else◌};
ghost use Rattle.std.specs.Int.{w32, cast_signed, cast_unsigned};
ghost use Rattle.domains.specs.Reducing.{reduced};
ghost use Rattle.domains.specs.Values.{constant_value};
ghost use Rattle.value_ops.specs.Left.{is_nothing, goes_on, both_go_on, without_null, with_null, held_value, null_value, is_unknown, settled, word_met, range_met};
ghost use Rattle.value_ops.specs.Left.{null_met, same_as, next_word, previous_word, word_without, low_without, high_without, range_without, null_without, without, narrowed};

use domains::{ClassSet, Interval, Nullness, Value, Word};

/// Whether a value holds of nothing.
pub(crate) fn is_nothing(value: &Value) -> bool
    ensures { result ≡ is_nothing value.now }
{
    matches!(value.nullness(), Nullness::Bottom)
}

/// The value, where it holds of anything.
pub(crate) fn goes_on(value: Value) -> Option<Value>
    ensures { result ≡ goes_on value }
{
    if is_nothing(&value) {
        None
    } else {
        Some(value)
    }
}

/// Both values, where each holds of anything.
pub(crate) fn both_go_on(first: Value, second: Value) -> Option<(Value, Value)>
    ensures { result ≡ both_go_on first second }
{
    if is_nothing(&first) || is_nothing(&second) {
        None
    } else {
        Some((first, second))
    }
}

/// What isn't the word 0.
fn without_null(nullness: Nullness) -> Nullness
    ensures { result ≡ without_null nullness }
{
    match nullness {
        Nullness::Bottom | Nullness::Null => Nullness::Bottom,
        Nullness::NotNull | Nullness::Any => Nullness::NotNull,
    }
}

/// What is the word 0.
fn with_null(nullness: Nullness) -> Nullness
    ensures { result ≡ with_null nullness }
{
    match nullness {
        Nullness::Bottom | Nullness::NotNull => Nullness::Bottom,
        Nullness::Null | Nullness::Any => Nullness::Null,
    }
}

/// What is left of a value that was used as an object, and so isn't null; none where it is surely null.
pub fn held(value: &Value) -> Option<Value>
    ensures { result ≡ goes_on (held_value value.now) }
{
    goes_on(value.with_parts(
        value.word(),
        value.interval(),
        without_null(value.nullness()),
    ))
}

/// What is left of a value that is null; none where it surely isn't.
pub fn null(value: &Value) -> Option<Value>
    ensures { result ≡ goes_on (null_value value.now) }
{
    goes_on(value.with_parts(value.word(), value.interval(), with_null(value.nullness())))
}

/// Whether any number may be there.
fn is_unknown(word: Word) -> bool
    ensures { result ≡ is_unknown word }
{
    matches!(word, Word::Any)
}

/// The value of a register that holds a word: the constant, where one word is left.
pub fn settled(value: Value) -> Value
    ensures { result ≡ settled value }
{
    let interval = value.interval();
    if is_unknown(value.word()) && interval.low == interval.high && value.has_no_object() {
        Value::constant(interval.low.cast_unsigned())
    } else {
        value
    }
}

/// What both words hold of.
fn word_met(a: Word, b: Word) -> Word
    ensures { result ≡ word_met a b }
{
    match (a, b) {
        (Word::Any, _) => b,
        (Word::Known(m), Word::Known(n)) => if m == n { a } else { Word::Bottom },
        (Word::KnownWide(m), Word::KnownWide(n)) => if m == n { a } else { Word::Bottom },
        (_, Word::Any) => a,
        _ => Word::Bottom,
    }
}

/// The words in both ranges.
fn range_met(a: Interval, b: Interval) -> Interval
    ensures { result ≡ range_met a b }
{
    Interval::between(a.low.max(b.low), a.high.min(b.high))
}

/// What both hold of.
fn null_met(a: Nullness, b: Nullness) -> Nullness
    ensures { result ≡ null_met a b }
{
    match (a, b) {
        (Nullness::Any, _) => b,
        (Nullness::Null, Nullness::Null) => Nullness::Null,
        (Nullness::NotNull, Nullness::NotNull) => Nullness::NotNull,
        (_, Nullness::Any) => a,
        _ => Nullness::Bottom,
    }
}

/// What is left of the first value where both are of one content.
pub(crate) fn same_as(value: &Value, other: &Value) -> Value
    ensures { result ≡ same_as value.now other.now }
{
    let word = word_met(value.word(), other.word());
    let interval = range_met(value.interval(), other.interval());
    let nullness = null_met(value.nullness(), other.nullness());
    if other.has_no_object() {
        settled(Value::of(word, interval, nullness, ClassSet::none()))
    } else {
        settled(value.with_parts(word, interval, nullness))
    }
}

/// The next word, where there is one.
fn next_word(word: i32) -> i32
    ensures { result ≡ next_word word }
{
    if word == i32::MAX { word } else { word + 1 }
}

/// The word before, where there is one.
fn previous_word(word: i32) -> i32
    ensures { result ≡ previous_word word }
{
    if word == i32::MIN { word } else { word - 1 }
}

/// A word other than this one.
fn word_without(known: u32, word: Word) -> Word
    ensures { result ≡ word_without known word }
{
    match word {
        Word::Known(own) => if own == known { Word::Bottom } else { word },
        _ => word,
    }
}

/// A low end that isn't this word.
fn low_without(word: i32, low: i32) -> i32
    ensures { result ≡ low_without word low }
{
    if low == word { next_word(word) } else { low }
}

/// A high end that isn't this word.
fn high_without(word: i32, high: i32) -> i32
    ensures { result ≡ high_without word high }
{
    if high == word {
        previous_word(word)
    } else {
        high
    }
}

/// A range without a word where that is one of its ends.
fn range_without(word: i32, range: Interval) -> Interval
    ensures { result ≡ range_without word range }
{
    Interval::between(low_without(word, range.low), high_without(word, range.high))
}

/// Whether it can be null, where it isn't this word.
fn null_without(known: u32, nullness: Nullness) -> Nullness
    ensures { result ≡ null_without known nullness }
{
    if known == 0 {
        without_null(nullness)
    } else {
        nullness
    }
}

/// What is left of a value that isn't this word.
pub(crate) fn without(known: u32, value: &Value) -> Value
    ensures { result ≡ without known value.now }
{
    settled(value.with_parts(
        word_without(known, value.word()),
        range_without(known.cast_signed(), value.interval()),
        null_without(known, value.nullness()),
    ))
}

/// The words of a value that are in a range.
pub(crate) fn narrowed(value: &Value, range: Interval) -> Value
    ensures { result ≡ narrowed value.now range }
{
    settled(Value::of(
        value.word(),
        range_met(value.interval(), range),
        value.nullness(),
        ClassSet::none(),
    ))
}
