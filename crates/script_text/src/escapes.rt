//! Names and texts of scripts.

ghost use Rattle.std.specs.Prelude.{◌≡◌, ◌++◌, Some, None, IfOk, map, if◌then◌else◌};
ghost use Rattle.std.specs.List.{list_all};
ghost use Rattle.text_defs.specs.Escapes.{is_plain, with_plain, escaped_unit, with_escape, with_escapes, text_of, name_of};

use crate::digits::hex_number;
use crate::pieces::pieces;
use dex_base::Text;
use std::alloc::{AllocError, Global};

fn is_plain(c: u8) -> bool
    ensures { result ≡ is_plain c }
{
    matches!(c, 0x21..=0x5b | 0x5d..=0x7e)
}

fn all_plain(piece: &[u8]) -> bool
    ensures { result ≡ list_all is_plain piece.now }
{
    piece.iter().all(|c| is_plain(*c))
}

/// Adds the bytes as units.
pub fn push_bytes(units: &mut Vec<u16>, piece: &[u8]) -> Result<(), AllocError>
    ensures { IfOk result (λ _. units.new.items ≡ units.old.items ++ piece.now) }
{
    for c in piece {
        units.push(u16::from(*c))?;
    }
    Ok(())
}

/// Adds units that stand for themselves, and answers whether all do.
fn push_plain(units: &mut Vec<u16>, piece: &[u8]) -> Result<bool, AllocError>
    ensures { IfOk result (λ found. with_plain units.old.items piece.now ≡ (if found then Some units.new.items else None)) }
{
    if !all_plain(piece) {
        return Ok(false);
    }
    push_bytes(units, piece)?;
    Ok(true)
}

/// Whether the unit is written without a backslash.
fn is_plain_unit(unit: u16) -> bool
    ensures { result ≡ is_plain unit }
{
    matches!(unit, 0x21..=0x5b | 0x5d..=0x7e)
}

/// The unit that four digits write.
fn escaped_unit(digits: &[u8]) -> Option<u16>
    ensures { result ≡ escaped_unit digits.now }
{
    let unit = hex_number(4, digits)?;
    let unit = unit as u16;
    if is_plain_unit(unit) {
        None
    } else {
        Some(unit)
    }
}

/// Adds the unit of four digits and the units behind it, which stand for themselves, and answers whether they are such.
fn push_escape(units: &mut Vec<u16>, piece: &[u8]) -> Result<bool, AllocError>
    ensures { IfOk result (λ found. with_escape units.old.items piece.now ≡ (if found then Some units.new.items else None)) }
{
    if piece.len() < 4 {
        return Ok(false);
    }
    let (digits, rest) = piece.split_at(4);
    let Some(unit) = escaped_unit(digits) else {
        return Ok(false);
    };
    units.push(unit)?;
    push_plain(units, rest)
}

/// Adds what stands behind backslashes, and answers whether all of it is such.
fn push_escapes(units: &mut Vec<u16>, pieces: &[&[u8]]) -> Result<bool, AllocError>
    ensures { IfOk result (λ found. with_escapes units.old.items (map (λ piece. piece.now) pieces.now) ≡ (if found then Some units.new.items else None)) }
{
    for piece in pieces {
        if !push_escape(units, piece)? {
            return Ok(false);
        }
    }
    Ok(true)
}

/// The text that a word writes. The only error is want of memory.
pub fn read_text(alloc: Global, word: &[u8]) -> Result<Option<Text>, AllocError>
    ensures { IfOk result (λ text. text ≡ text_of word.now) }
{
    let pieces = pieces(alloc, word, b'\\')?;
    let [first, rest @ ..] = pieces.as_slice() else {
        return Ok(None);
    };
    let mut units = Vec::new(alloc);
    if !push_plain(&mut units, first)? {
        return Ok(None);
    }
    if !push_escapes(&mut units, rest)? {
        return Ok(None);
    }
    Ok(Some(Text::from_vec(units)))
}

/// The name that a word writes: a text that isn't empty. The only error is want of memory.
pub fn read_name(alloc: Global, word: &[u8]) -> Result<Option<Text>, AllocError>
    ensures { IfOk result (λ name. name ≡ name_of word.now) }
{
    match word {
        [] => Ok(None),
        _ => read_text(alloc, word),
    }
}
