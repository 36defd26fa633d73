//! References in words.

ghost use Rattle.std.specs.Prelude.{◌≡◌, ◌-◌, ◌<◌, ◌∷◌, ◌++◌, [], ℕ, List, length, IfOk, OnOk};
ghost use Rattle.std.specs.List.{list_any};
ghost use Rattle.if_text.specs.Parts.{is_digit, next_number, number_from, number_in, bytes_in, closes, goes_on, parts_from, parts_of, is_reference};

use std::alloc::{AllocError, Global};

/// `<`, with which a reference begins.
const LESS: u8 = 60;
/// `>`, with which it ends.
const GREATER: u8 = 62;

/// A byte of a word, or a reference by its number.
#[derive(Clone, Copy)]
pub enum Part {
    Byte(u8),
    Ref(u32),
}

/// Whether the byte is a digit.
fn is_digit(byte: u8) -> bool
    ensures { result ≡ is_digit byte }
{
    byte >= 48 && byte <= 57
}

/// What a digit counts.
fn worth(byte: u8) -> u32
    ensures is { result ≡ byte - 48 }
    ensures small { result < 256 }
{
    if byte < 48 { 0 } else { u32::from(byte - 48) }
}

/// The number with one more digit, if it may have one.
fn next_number(number: u32, byte: u8) -> u32
    requires { number < 20000 }
    ensures is { result ≡ next_number number byte }
    ensures most { result < 20000 }
{
    if number < 1000 {
        number * 10 + worth(byte)
    } else {
        number
    }
}

/// The number that these digits write.
fn number_of(digits: &[u8]) -> u32
    ensures { result ≡ number_from 0 digits.now }
{
    let mut number = 0;
    let mut rest = digits;
    while let [digit, behind @ ..] = rest {
        number = next_number(number, *digit);
        rest = behind;
    }
    number
}

/// The number behind `<`.
fn number_in(begun: &[u8]) -> u32
    ensures { result ≡ number_in begun.now }
{
    match begun {
        [_, digits @ ..] => number_of(digits),
        _ => 0,
    }
}

/// Whether a reference of which so many bytes stand before it ends with the byte.
fn closes(len: usize, byte: u8) -> bool
    ensures { (begun : List ℕ) → len ≡ length begun → result ≡ closes begun byte }
{
    byte == GREATER && len > 1
}

/// Whether it goes on with the byte.
fn goes_on(len: usize, byte: u8) -> bool
    ensures { (begun : List ℕ) → len ≡ length begun → result ≡ goes_on begun byte }
{
    is_digit(byte) && len > 0
}

/// Adds bytes.
fn push_bytes(parts: &mut Vec<Part>, bytes: &[u8]) -> Result<(), AllocError>
    ensures { OnOk result (parts.new.items ≡ parts.old.items ++ bytes_in bytes.now) }
{
    for byte in bytes {
        parts.push(Part::Byte(*byte))?;
    }
    Ok(())
}

/// Ends a reference that isn't one: its bytes are bytes.
fn give_up(parts: &mut Vec<Part>, begun: &mut Vec<u8>) -> Result<(), AllocError>
    ensures parts { OnOk result (parts.new.items ≡ parts.old.items ++ bytes_in begun.old.items) }
    ensures begun { begun.new.items ≡ [] }
{
    let pushed = push_bytes(parts, begun.as_slice());
    begun.clear();
    pushed
}

/// Goes on by a byte: `begun` is what is read of a reference.
fn step(parts: &mut Vec<Part>, begun: &mut Vec<u8>, byte: u8) -> Result<(), AllocError>
    ensures { OnOk result ((rest : List ℕ) → parts.new.items ++ parts_from begun.new.items rest ≡ parts.old.items ++ parts_from begun.old.items (byte ∷ rest)) }
{
    if byte == LESS {
        give_up(parts, begun)?;
        begun.push(byte)?;
        return Ok(());
    }
    if closes(begun.len(), byte) {
        parts.push(Part::Ref(number_in(begun.as_slice())))?;
        begun.clear();
        return Ok(());
    }
    if goes_on(begun.len(), byte) {
        begun.push(byte)?;
        return Ok(());
    }
    give_up(parts, begun)?;
    parts.push(Part::Byte(byte))?;
    Ok(())
}

/// The parts of a word.
pub fn parts_of(alloc: Global, word: &[u8]) -> Result<Vec<Part>, AllocError>
    ensures { IfOk result (λ parts. parts.items ≡ parts_of word.now) }
{
    let mut parts = Vec::new(alloc);
    let mut begun = Vec::new(alloc);
    let mut rest = word;
    while let [byte, behind @ ..] = rest {
        step(&mut parts, &mut begun, *byte)?;
        rest = behind;
    }
    give_up(&mut parts, &mut begun)?;
    Ok(parts)
}

/// Whether the part is a reference.
fn is_reference(part: Part) -> bool
    ensures { result ≡ is_reference part }
{
    matches!(part, Part::Ref(_))
}

/// Whether one of the parts is a reference.
pub fn some_reference(parts: &[Part]) -> bool
    ensures { result ≡ list_any is_reference parts.now }
{
    let mut rest = parts;
    while let [part, behind @ ..] = rest {
        if is_reference(*part) {
            return true;
        }
        rest = behind;
    }
    false
}
