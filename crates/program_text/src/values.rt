//! First values and flags as words.

use crate::answer::Answer;
use program_model::EncValue;

/// The kinds of first values that are a number.
const KINDS: &str = "byte short char int long float double bool";

/// The kinds of first values that name something.
const NAMED: &str = "string class field method enum";

/// The flags of classes and fields from the lowest bit on.
const FLAGS: &str =
    "public private protected static final synchronized volatile transient native interface abstract strict synthetic annotation enum mandated constructor declared-synchronized";

/// The place of a word in a list of words.
fn place_of(words: &str, word: &str) -> Option<usize> {
    words.split_whitespace().position(|one| one == word)
}

/// The flag at a place, none where there is none.
fn flag_at(place: usize) -> Option<u32> {
    1u32.checked_shl(u32::try_from(place).ok()?)
}

/// The flag of a word.
pub fn flag_of(word: &str) -> Option<u32> {
    flag_at(place_of(FLAGS, word)?)
}

/// Adds the words of flags in the order of their bits, each behind a blank.
pub fn push_flags(out: &mut Answer, flags: u32) {
    for (place, word) in FLAGS.split_whitespace().enumerate() {
        if flag_at(place).unwrap_or(0) & flags != 0 {
            out.say(" ");
            out.say(word);
        }
    }
}

/// What a first value names: its kind by its place among those that name something, and the name.
pub fn named_value(word: &str) -> Option<(usize, &str)> {
    let (kind, name) = word.split_once(':')?;
    Some((place_of(NAMED, kind)?, name))
}

/// A first value that is a number, `null`, or an `int` without its kind.
pub fn number_value(word: &str) -> Option<EncValue> {
    if word == "null" {
        return Some(EncValue::Null);
    }
    let (kind, number) = word.split_once(':').unwrap_or(("int", word));
    let number: i128 = number.parse().ok()?;
    Some(match place_of(KINDS, kind)? {
        0 => EncValue::Byte(i8::try_from(number).ok()?),
        1 => EncValue::Short(i16::try_from(number).ok()?),
        2 => EncValue::Char(u16::try_from(number).ok()?),
        3 => EncValue::Int(i32::try_from(number).ok()?),
        4 => EncValue::Long(i64::try_from(number).ok()?),
        5 => EncValue::Float(u32::try_from(number).ok()?),
        6 => EncValue::Double(u64::try_from(number).ok()?),
        _ => EncValue::Bool(number != 0),
    })
}
