//! Values of scripts.

ghost use Rattle.std.specs.Prelude.{◌≡◌, ◌==◌, ◌<◌, IfOk, IfSome, length, drop, map, Some, option_map, option_and_then, if◌then◌else◌};
ghost use Rattle.text_defs.specs.Digits.{hex_number, place_of};
ghost use Rattle.text_defs.specs.Escapes.{name_of, text_of};
ghost use Rattle.text_defs.specs.Words.{all_of};
ghost use Rattle.text_defs.specs.Values.{size_of, last_colon, array_of, object_of, given_of, perhaps_given, has_result, is_proto, proto_of, word_of, wide_of};

use crate::digits::{hex_number, read_place};
use crate::escapes::{read_name, read_text};
use crate::pieces::behind;
use crate::words::one_word;
use dalvik_defs::Given;
use dex_base::Text;
use seq::Seq;
use std::alloc::{AllocError, Global};

/// The word that 8 digits write.
fn word_number(digits: &[u8]) -> Option<u32>
    ensures { result ≡ hex_number 8 digits.now }
{
    match hex_number(8, digits) {
        Some(number) => Some(number as u32),
        None => None,
    }
}

/// `w` and 8 digits.
pub fn read_word(word: &[u8]) -> Option<u32>
    ensures { result ≡ word_of word.now }
{
    match behind(b"w", word) {
        Some(digits) => word_number(digits),
        None => None,
    }
}

/// `l` and 16 digits.
pub fn read_wide(word: &[u8]) -> Option<u64>
    ensures { result ≡ wide_of word.now }
{
    match behind(b"l", word) {
        Some(digits) => hex_number(16, digits),
        None => None,
    }
}

fn word_given(digits: &[u8]) -> Option<Given>
    ensures { result ≡ option_map Given.Word (hex_number 8 digits.now) }
{
    match word_number(digits) {
        Some(number) => Some(Given::Word(number)),
        None => None,
    }
}

fn wide_given(digits: &[u8]) -> Option<Given>
    ensures { result ≡ option_map Given.Wide (hex_number 16 digits.now) }
{
    match hex_number(16, digits) {
        Some(number) => Some(Given::Wide(number)),
        None => None,
    }
}

fn place_given(digits: &[u8]) -> Option<Given>
    ensures { result ≡ option_map Given.Exposed (place_of digits.now) }
{
    match read_place(digits) {
        Some(place) => Some(Given::Exposed(place)),
        None => None,
    }
}

fn new_given(alloc: Global, rest: &[u8]) -> Result<Option<Given>, AllocError>
    ensures { IfOk result (λ r. r ≡ option_map Given.New (name_of rest.now)) }
{
    match read_name(alloc, rest)? {
        Some(name) => Ok(Some(Given::New(name))),
        None => Ok(None),
    }
}

fn class_given(alloc: Global, rest: &[u8]) -> Result<Option<Given>, AllocError>
    ensures { IfOk result (λ r. r ≡ option_map Given.Class (name_of rest.now)) }
{
    match read_name(alloc, rest)? {
        Some(name) => Ok(Some(Given::Class(name))),
        None => Ok(None),
    }
}

fn text_given(alloc: Global, rest: &[u8]) -> Result<Option<Given>, AllocError>
    ensures { IfOk result (λ r. r ≡ option_map Given.Literal (text_of rest.now)) }
{
    match read_text(alloc, rest)? {
        Some(text) => Ok(Some(Given::Literal(text))),
        None => Ok(None),
    }
}

/// How many items a new array has.
fn read_size(text: &[u8]) -> Option<u32>
    ensures { result ≡ size_of text.now }
{
    match read_place(text) {
        Some(size) if size <= 65_535 => Some(size),
        _ => None,
    }
}

/// The place where this is a colon, else the one found before.
fn marked(found: Option<usize>, place: usize, c: u8) -> Option<usize>
    ensures { result ≡ (if c == 58 then Some place else found) }
{
    if c == b':' { Some(place) } else { found }
}

/// The place of the last colon.
fn last_colon(text: &[u8]) -> Option<usize>
    ensures place { result ≡ last_colon 0 text.now }
    ensures below { IfSome result (λ place. place < length text.now) }
{
    let mut found = None;
    for (place, c) in text.iter().enumerate() {
        found = marked(found, place, *c);
    }
    found
}

fn sized(item: Option<Text>, size: Option<u32>) -> Option<Given>
    ensures { result ≡ option_and_then (λ i. option_map (Given.Array i) size) item }
{
    match (item, size) {
        (Some(item), Some(size)) => Some(Given::Array { item, size }),
        _ => None,
    }
}

/// `TYPE:N`.
fn array_given(alloc: Global, text: &[u8]) -> Result<Option<Given>, AllocError>
    ensures { IfOk result (λ r. r ≡ array_of text.now) }
{
    let Some(colon) = last_colon(text) else {
        return Ok(None);
    };
    let (front, back) = text.split_at(colon);
    let item = read_name(alloc, front)?;
    Ok(sized(item, size_behind(back)))
}

/// The size behind a colon.
fn size_behind(text: &[u8]) -> Option<u32>
    ensures { result ≡ size_of (drop 1 text.now) }
{
    match text {
        [] => None,
        [_, size @ ..] => read_size(size),
    }
}

/// A new object, a new array, a text or a class.
fn object_given(alloc: Global, word: &[u8]) -> Result<Option<Given>, AllocError>
    ensures { IfOk result (λ r. r ≡ object_of word.now) }
{
    if let Some(rest) = behind(b"new:", word) {
        return new_given(alloc, rest);
    }
    if let Some(rest) = behind(b"array:", word) {
        return array_given(alloc, rest);
    }
    if let Some(rest) = behind(b"text:", word) {
        return text_given(alloc, rest);
    }
    if let Some(rest) = behind(b"class:", word) {
        return class_given(alloc, rest);
    }
    Ok(None)
}

/// The value that a word writes. The only error is want of memory.
pub fn read_given(alloc: Global, word: &[u8]) -> Result<Option<Given>, AllocError>
    ensures { IfOk result (λ r. r ≡ given_of word.now) }
{
    if word == b"null".as_slice() {
        return Ok(Some(Given::Null));
    }
    if let Some(digits) = behind(b"w", word) {
        return Ok(word_given(digits));
    }
    if let Some(digits) = behind(b"l", word) {
        return Ok(wide_given(digits));
    }
    if let Some(digits) = behind(b"#", word) {
        return Ok(place_given(digits));
    }
    object_given(alloc, word)
}

/// No value, or one.
pub fn perhaps_given(alloc: Global, words: &[&[u8]]) -> Result<Option<Option<Given>>, AllocError>
    ensures { IfOk result (λ r. r ≡ perhaps_given (map (λ word. word.now) words.now)) }
{
    if words.is_empty() {
        return Ok(Some(None));
    }
    let Some(word) = one_word(words) else {
        return Ok(None);
    };
    match read_given(alloc, word)? {
        Some(value) => Ok(Some(Some(value))),
        None => Ok(None),
    }
}

/// All the values.
pub fn all_givens(alloc: Global, words: &[&[u8]]) -> Result<Option<Seq<Given>>, AllocError>
    ensures { IfOk result (λ r. r ≡ all_of given_of (map (λ word. word.now) words.now)) }
{
    let mut values = Seq::new(alloc);
    for word in words {
        let Some(value) = read_given(alloc, word)? else {
            return Ok(None);
        };
        values.push(value)?;
    }
    Ok(Some(values))
}

/// Whether the text has the shape of parameters and a result.
fn is_proto(text: &Text) -> bool
    ensures { result ≡ is_proto text.now }
{
    match text.units() {
        [40, rest @ ..] => has_result(rest),
        _ => false,
    }
}

/// Whether something stands behind the first `)`.
#[tactic(auto, using(crate::proofs::ValueLemmas::result_here, crate::proofs::ValueLemmas::result_later))]
fn has_result(units: &[u16]) -> bool
    ensures { result ≡ has_result units.now }
{
    for (place, unit) in units.iter().enumerate() {
        if *unit == 41 {
            return place + 1 < units.len();
        }
    }
    false
}

/// Parameters and a result. The only error is want of memory.
pub fn read_proto(alloc: Global, word: &[u8]) -> Result<Option<Text>, AllocError>
    ensures { IfOk result (λ r. r ≡ proto_of word.now) }
{
    match read_name(alloc, word)? {
        Some(text) if is_proto(&text) => Ok(Some(text)),
        _ => Ok(None),
    }
}
