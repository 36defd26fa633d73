//! Maps that are joined.

use lattice_core::Flat;
use pat_map::PatMap;
use program_text::Answer;

/// A map of these keys, each with its place among them.
fn map_of(answer: &mut Answer, keys: &str) -> PatMap<Flat<u32>> {
    let alloc = answer.alloc();
    let keys = answer.numbers(keys);
    let mut map = PatMap::empty();
    let mut place: u32 = 0;
    for key in keys.as_slice() {
        if let Some(next) = answer.taken(map.set(alloc, *key, Flat::Known(place))) {
            map = next;
        }
        place = place.saturating_add(1);
    }
    map
}

/// Adds what a map has at a key.
fn say_value(answer: &mut Answer, map: &PatMap<Flat<u32>>, key: u32) {
    match map.get(key) {
        Some(Flat::Known(place)) => answer.say_number("", i128::from(*place)),
        Some(Flat::Any) => answer.say("any"),
        _ => answer.say("none"),
    }
}

/// Adds what a map has at some keys.
fn say_values(answer: &mut Answer, map: &PatMap<Flat<u32>>, keys: &[u32]) {
    let mut before = "[\"";
    for key in keys {
        answer.say(before);
        say_value(answer, map, *key);
        before = "\", \"";
    }
    answer.say("\"]");
}

/// What the join of two maps has at some keys, and whether both are at or below it.
pub fn answer(answer: &mut Answer, a: &str, b: &str, keys: &str) {
    let first = map_of(answer, a);
    let second = map_of(answer, b);
    let keys = answer.numbers(keys);
    let joined = first.union_with(answer.alloc(), &second);
    if let Some(joined) = answer.taken(joined) {
        say_values(answer, &joined, keys.as_slice());
        answer.say(", above ");
        answer.say_whether(first.leq_with(&joined) && second.leq_with(&joined));
    }
}
