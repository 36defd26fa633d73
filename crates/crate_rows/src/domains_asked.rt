//! The domains through their bound.

use domains::{ClassSet, Interval, Nullness, Value, Word};
use lattice_core::{Domain, Env, Flat, Lattice, Lifted, Pair};
use program_text::Answer;
use std::alloc::{AllocError, Global};

/// Whether there is a value, and it is above both others.
fn is_upper<D: Domain>(a: &D, b: &D, upper: &Option<D>) -> bool {
    match upper {
        Some(upper) => a.leq(upper) && b.leq(upper),
        None => false,
    }
}

/// Whether a join and a widening are above both values, and a copy and the least value at or below the first.
fn say_above<D: Domain>(answer: &mut Answer, a: &D, b: &D) {
    let alloc = answer.alloc();
    let joined = answer.taken(a.join(alloc, b));
    let widened = answer.taken(a.widen(alloc, b));
    let copied = answer.taken(a.copy(alloc));
    let least = D::bottom(alloc);
    let is_above = is_upper(a, b, &joined) && is_upper(a, b, &widened);
    let is_low = match &copied {
        Some(copied) => copied.leq(a) && least.leq(a),
        None => false,
    };
    answer.say_whether(is_above && is_low);
}

/// A list of a known value.
fn short_list(alloc: Global) -> Result<Env<Flat<u32>>, AllocError> {
    Env::filled(alloc, 1, Flat::Known(7u32))
}

/// A list of two values, the first of which is another one.
fn long_list(alloc: Global) -> Result<Env<Flat<u32>>, AllocError> {
    let mut long = Env::filled(alloc, 2, Flat::Known(7u32))?;
    long.set(0, Flat::Known(8));
    Ok(long)
}

/// Whether it is so of a short list and a longer one.
fn say_list_above(answer: &mut Answer) {
    let alloc = answer.alloc();
    let short = answer.taken(short_list(alloc));
    let long = answer.taken(long_list(alloc));
    if let (Some(short), Some(long)) = (short, long) {
        say_above(answer, &short, &long);
    }
}

/// Two pairs that share their first part.
fn pair(second: u8) -> Pair<Flat<u32>, Flat<u8>> {
    Pair {
        first: Flat::Known(1u32),
        second: Flat::Known(second),
    }
}

/// Whether it is so of two values of each domain.
fn above(answer: &mut Answer, name: &str) {
    match name {
        "word" => say_above(answer, &Word::Known(1), &Word::KnownWide(1)),
        "interval" => say_above(answer, &Interval::between(0, 1), &Interval::between(-4, 9)),
        "nullness" => say_above(answer, &Nullness::Null, &Nullness::NotNull),
        "classes" => say_above(answer, &ClassSet::exactly(3), &ClassSet::exactly(2)),
        "value" => say_above(answer, &Value::constant(0), &Value::any()),
        "flat" => say_above(answer, &Flat::Known(3u32), &Flat::Known(4)),
        "lifted" => say_above(
            answer,
            &Lifted::Unreached,
            &Lifted::Reached(Flat::Known(3u32)),
        ),
        "list" => say_list_above(answer),
        "pair" => say_above(answer, &pair(2), &pair(3)),
        _ => answer.refuse(),
    }
}

/// How many classes a join of sets of one class has.
fn classes(answer: &mut Answer, list: &str) {
    let alloc = answer.alloc();
    let numbers = answer.numbers(list);
    let mut joined = ClassSet::none();
    for class in numbers.as_slice() {
        if let Some(next) = answer.taken(joined.join(alloc, &ClassSet::exactly(*class))) {
            joined = next;
        }
    }
    match joined.classes() {
        Some(classes) => say_count(answer, classes.len()),
        None => answer.say("any class"),
    }
}

/// Adds a number of classes.
fn say_count(answer: &mut Answer, count: usize) {
    answer.say_value(&count);
    answer.say(" classes");
}

/// A number that is not null, between two others, of one class.
fn bound(low: i32, high: i32) -> Value {
    Value::of(
        Word::Any,
        Interval::between(low, high),
        Nullness::NotNull,
        ClassSet::exactly(4),
    )
}

/// The widening of two intervals.
fn widened(answer: &mut Answer, low: i32, high: i32) -> Value {
    let widened = Interval::between(0, low).widen(answer.alloc(), &Interval::between(0, high));
    let interval = answer.taken(widened).unwrap_or(Interval::full());
    Value::of(Word::Any, interval, Nullness::Any, ClassSet::any())
}

/// The join of two constants.
fn joined(answer: &mut Answer, low: u32, high: u32) -> Value {
    let joined = Value::constant(low).join(answer.alloc(), &Value::constant(high));
    answer.taken(joined).unwrap_or(Value::any())
}

/// The value of a line.
fn value(answer: &mut Answer, name: &str, low: u16, high: u16) -> Value {
    match name {
        "widened" => widened(answer, i32::from(low), i32::from(high)),
        "constant" => Value::constant(u32::from(low)),
        "joined" => joined(answer, u32::from(low), u32::from(high)),
        "bound" => bound(i32::from(low), i32::from(high)),
        "null" => Value::of(Word::Any, Interval::full(), Nullness::Null, ClassSet::any()),
        _ => {
            answer.refuse();
            Value::any()
        }
    }
}

/// What is known of a value.
fn say_known(answer: &mut Answer, value: &Value) {
    let interval = value.interval();
    answer.say_value(&value.known());
    answer.say_number(", from ", i128::from(interval.low));
    answer.say_number(" to ", i128::from(interval.high));
    answer.say(", not null ");
    answer.say_whether(value.not_null());
}

/// The answer to a line on domains.
pub fn answer(answer: &mut Answer, name: &str, a: &str, b: &str) {
    let low = a.parse::<u16>().unwrap_or(0);
    let high = b.parse::<u16>().unwrap_or(0);
    match name {
        "above" => above(answer, a),
        "classes" => classes(answer, a),
        "bound-classes" => {
            let bound = bound(i32::from(low), i32::from(high));
            say_count(answer, bound.classes().map_or(0, |list| list.len()));
        }
        "wide" => answer.say_value(&Value::wide(u64::from(low)).known_wide()),
        _ => {
            let value = value(answer, name, low, high);
            say_known(answer, &value);
        }
    }
}
