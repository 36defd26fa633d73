//! From the bytes of a token to a pattern.

ghost use Rattle.std.specs.Prelude.{◌≡◌, ◌+◌, ◌*◌, ◌<◌, ◌≤◌, ◌^◌, ◌∷◌, ◌++◌, [], true, length, IfSome, IfNone, IfOk, OnOk};
ghost use Rattle.rule_text.specs.Pieces.{low_bits, characters, exactly, is_many, ends_many, added, all_added, fewest_of, merged, pieces_of};
ghost use Rattle.rule_text.specs.Related.{IsPatternOf};

use crate::pattern::{NamePattern, Piece};
use std::alloc::{AllocError, Global};

/// The six bits of a byte behind the first of a character.
fn low_bits(byte: u8) -> u32
    ensures is { result ≡ low_bits byte }
    ensures small { result < 64 }
{
    u32::from(byte) % 64
}

/// The character at the front of a text in UTF-8, and the bytes behind it.
fn front_char(text: &[u8]) -> Option<(u32, &[u8])>
    ensures some { IfSome result (λ front. characters text.now ≡ front.0 ∷ characters front.1.now) }
    ensures short { IfSome result (λ front. length front.1.now < length text.now) }
    ensures none { IfNone result (characters text.now ≡ []) }
{
    match text {
        [a @ 0..=0x7f, rest @ ..] => Some((u32::from(*a), rest)),
        [a @ 0x80..=0xdf, b, rest @ ..] => {
            Some(((u32::from(*a) % 32) * 64 + low_bits(*b), rest))
        }
        [a @ 0xe0..=0xef, b, c, rest @ ..] => Some((
            (u32::from(*a) % 16) * 4096 + low_bits(*b) * 64 + low_bits(*c),
            rest,
        )),
        [a, b, c, d, rest @ ..] => Some((
            (u32::from(*a) % 8) * 262_144 + low_bits(*b) * 4096 + low_bits(*c) * 64 + low_bits(*d),
            rest,
        )),
        _ => None,
    }
}

/// Adds the UTF-16 units of a character, as pieces.
fn push_char(pieces: &mut Vec<Piece>, code: u32) -> Result<(), AllocError>
    ensures { OnOk result (pieces.new.items ≡ pieces.old.items ++ exactly code) }
{
    if code < 0x10000 {
        pieces.push(Piece::Exactly(code as u16))?;
        return Ok(());
    }
    let above = code - 0x10000;
    pieces.push(Piece::Exactly((0xd800 + above / 1024 % 1024) as u16))?;
    pieces.push(Piece::Exactly((0xdc00 + above % 1024) as u16))?;
    Ok(())
}

/// Whether the last piece is a wildcard for many characters.
fn ends_many(pieces: &[Piece]) -> bool
    ensures { result ≡ ends_many pieces.now }
{
    matches!(pieces, [.., Piece::Star | Piece::Stars])
}

/// Adds a wildcard for many characters. Two such side by side, one of which is `**`, match what `**` matches alone.
fn push_star(pieces: &mut Vec<Piece>, star: Piece) -> Result<(), AllocError>
    ensures { is_many star ≡ true → OnOk result (pieces.new.items ≡ added pieces.old.items star) }
{
    if ends_many(pieces.as_slice()) {
        pieces.pop();
        pieces.push(Piece::Stars)?;
        return Ok(());
    }
    pieces.push(star)?;
    Ok(())
}

/// Adds the pieces of a character, of both where two stars stand side by side. The result are the bytes behind.
fn push_front<'a>(
    pieces: &mut Vec<Piece>,
    code: u32,
    behind: &'a [u8],
) -> Result<&'a [u8], AllocError>
    ensures is { IfOk result (λ rest. all_added pieces.old.items (pieces_of (code ∷ characters behind.now)) ≡ all_added pieces.new.items (pieces_of (characters rest.now))) }
    ensures short { IfOk result (λ rest. length rest.now ≤ length behind.now) }
{
    if code == 63 {
        pieces.push(Piece::One)?;
        return Ok(behind);
    }
    if code != 42 {
        push_char(pieces, code)?;
        return Ok(behind);
    }
    if let Some((next, more)) = front_char(behind) {
        if next == 42 {
            push_star(pieces, Piece::Stars)?;
            return Ok(more);
        }
    }
    push_star(pieces, Piece::Star)?;
    Ok(behind)
}

/// The pieces of a token.
fn pieces_of(alloc: Global, word: &[u8]) -> Result<Vec<Piece>, AllocError>
    ensures { IfOk result (λ pieces. pieces.items ≡ merged (pieces_of (characters word.now))) }
{
    let mut pieces = Vec::new(alloc);
    let mut rest = word;
    while let Some((code, behind)) = front_char(rest) {
        rest = push_front(&mut pieces, code, behind)?;
    }
    Ok(pieces)
}

/// How many units the pieces match at least.
fn fewest_units(pieces: &[Piece]) -> usize
    ensures { result ≡ fewest_of pieces.now }
{
    let mut fewest: usize = 0;
    let mut rest = pieces;
    while let [piece, behind @ ..] = rest {
        if matches!(piece, Piece::Exactly(_) | Piece::One) {
            fewest += 1;
        }
        rest = behind;
    }
    fewest
}

/// The pattern that a token writes.
pub fn pattern_of(alloc: Global, word: &[u8]) -> Result<NamePattern, AllocError>
    ensures { IfOk result (λ pattern. IsPatternOf pattern word.now) }
{
    let pieces = pieces_of(alloc, word)?;
    let mut head = Vec::new(alloc);
    let mut rest = pieces.as_slice();
    while let [Piece::Exactly(unit), behind @ ..] = rest {
        head.push(*unit)?;
        rest = behind;
    }
    Ok(NamePattern {
        head,
        rest: Vec::from_slice(alloc, rest)?,
        fewest: fewest_units(rest),
    })
}
