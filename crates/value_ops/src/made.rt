//! Values that instructions make by themselves.

ghost use Rattle.std.specs.Prelude.{◌≡◌};
ghost use Rattle.domains.specs.Ranges.{words_between};
ghost use Rattle.value_ops.specs.Left.{any_number, any_object, of_class, words_of};

use crate::left::settled;
use domains::{ClassSet, Interval, Nullness, Value, Word};

/// An object of any class.
pub fn any_object() -> Value
    ensures { result ≡ any_object }
{
    Value::objects(ClassSet::any())
}

/// An object of the class at a place of the program, or of none of it.
pub fn of_class(place: Option<u32>) -> Value
    ensures { result ≡ of_class place }
{
    match place {
        Some(class) => Value::objects(ClassSet::exactly(class)),
        None => any_object(),
    }
}

/// Any word or wide number, and no object.
pub fn any_number() -> Value
    ensures { result ≡ any_number }
{
    Value::of(Word::Any, Interval::full(), Nullness::Any, ClassSet::none())
}

/// The words of a range.
pub(crate) fn words_of(range: Interval) -> Value
    ensures { result ≡ words_of range }
{
    settled(Value::of(Word::Any, range, Nullness::Any, ClassSet::none()))
}

/// The words from one to another, both included.
pub fn words_between(low: i32, high: i32) -> Value
    ensures { result ≡ words_of (words_between low high) }
{
    words_of(Interval::between(low, high))
}
