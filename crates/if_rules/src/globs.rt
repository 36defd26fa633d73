//! What the wildcards of a name matched.

ghost use Rattle.std.specs.Prelude.{◌≡◌, ◌≤◌, ◌++◌, List, if◌then◌else◌, map, take, drop, length, IfOk, OnOk};
ghost use Rattle.rule_text.specs.Glob.{read_of, begins_pair, matches_of};
ghost use Rattle.rule_text.specs.Related.{IsPatternOf};
ghost use Rattle.rule_text.specs.Tokens.{Word};
ghost use Rattle.if_text.specs.Wildcards.{is_wild};
ghost use Rattle.if_rules.specs.Matched.{star_taken, taken, own_texts, glob_texts, name_texts};
ghost use Rattle.if_rules.specs.Lists.{lists_of};

use rule_match::matches_pieces;
use rule_text::{NamePattern, Named, Piece};
use std::alloc::{AllocError, Global};

/// A dot.
const DOT: u16 = 46;
/// What stands in a descriptor for a dot.
const SLASH: u16 = 47;

/// The unit as patterns write it.
fn read(named: Named, unit: u16) -> u16
    ensures { result ≡ read_of named unit }
{
    match named {
        Named::Class if unit == SLASH => DOT,
        _ => unit,
    }
}

/// The units as patterns write them.
fn read_each(alloc: Global, named: Named, units: &[u16]) -> Result<Vec<u16>, AllocError>
    ensures { IfOk result (λ out. out.items ≡ map (read_of named) units.now) }
{
    let mut out = Vec::new(alloc);
    let mut rest = units;
    while let [unit, behind @ ..] = rest {
        out.push(read(named, *unit))?;
        rest = behind;
    }
    Ok(out)
}

/// How many units a wildcard for many takes: up to the first place from which the pieces behind it match the rest.
#[tactic(auto, using(crate::proofs::GlobLemmas::star_here, crate::proofs::GlobLemmas::star_more, crate::proofs::GlobLemmas::star_end))]
fn star_taken(
    named: Named,
    behind: &[Piece],
    text: &[u16],
    row: &mut Vec<bool>,
) -> Result<usize, AllocError>
    ensures inside { IfOk result (λ count. count ≤ length text.now) }
    ensures is { IfOk result (λ count. take count text.now ≡ star_taken (matches_of named behind.now) text.now) }
{
    let mut at: usize = 0;
    while at < text.len() {
        let fits = matches_pieces(named, &text[at..], behind, row)?;
        if fits {
            return Ok(at);
        }
        at += 1;
    }
    Ok(at)
}

/// How many units `?` takes.
fn one_taken(text: &[u16]) -> usize
    ensures inside { result ≤ length text.now }
    ensures is { take result text.now ≡ (if begins_pair text.now then take 2 text.now else take 1 text.now) }
{
    match text {
        [0xd800..=0xdbff, 0xdc00..=0xdfff, ..] => 2,
        [_, ..] => 1,
        [] => 0,
    }
}

/// How many units a unit that is written takes.
fn unit_taken(text: &[u16]) -> usize
    ensures inside { result ≤ length text.now }
    ensures is { take result text.now ≡ take 1 text.now }
{
    if text.is_empty() { 0 } else { 1 }
}

/// How many units a piece takes at the front, where these are behind it.
fn taken(
    named: Named,
    piece: Piece,
    behind: &[Piece],
    text: &[u16],
    row: &mut Vec<bool>,
) -> Result<usize, AllocError>
    ensures inside { IfOk result (λ count. count ≤ length text.now) }
    ensures is { IfOk result (λ count. take count text.now ≡ taken named piece behind.now text.now) }
{
    match piece {
        Piece::Exactly(_) => Ok(unit_taken(text)),
        Piece::One => Ok(one_taken(text)),
        Piece::Star | Piece::Stars => star_taken(named, behind, text, row),
    }
}

/// Adds what a piece took, if it is a wildcard.
#[tactic(auto, using(crate::proofs::Fills::lists_more))]
fn push_text(
    alloc: Global,
    named: Named,
    piece: Piece,
    units: &[u16],
    out: &mut Vec<Vec<u16>>,
) -> Result<(), AllocError>
    ensures { OnOk result (lists_of out.new.items ≡ lists_of out.old.items ++ own_texts named piece units.now) }
{
    match piece {
        Piece::Exactly(_) => Ok(()),
        Piece::One | Piece::Star | Piece::Stars => {
            out.push(read_each(alloc, named, units)?)?;
            Ok(())
        }
    }
}

/// Adds what the wildcards of these pieces match in the text.
#[tactic(auto, using(crate::proofs::GlobLemmas::texts_more))]
fn glob_texts(
    alloc: Global,
    named: Named,
    pieces: &[Piece],
    text: &[u16],
    row: &mut Vec<bool>,
    out: &mut Vec<Vec<u16>>,
) -> Result<(), AllocError>
    ensures { OnOk result (lists_of out.new.items ≡ lists_of out.old.items ++ glob_texts named pieces.now text.now) }
{
    let mut left = pieces;
    let mut rest = text;
    while let [piece, behind @ ..] = left {
        let count = taken(named, *piece, behind, rest, row)?;
        push_text(alloc, named, *piece, &rest[..count], out)?;
        rest = behind_units(rest, count);
        left = behind;
    }
    Ok(())
}

/// What stands behind so many units.
#[tactic(auto, using(crate::proofs::GlobLemmas::none_behind))]
pub fn behind_units(text: &[u16], count: usize) -> &[u16]
    ensures { result.now ≡ drop count text.now }
{
    if count < text.len() {
        &text[count..]
    } else {
        &[]
    }
}

/// Adds what the wildcards of a pattern match in the text.
#[tactic(auto, using(crate::proofs::GlobLemmas::behind_head))]
pub fn name_texts(
    alloc: Global,
    pattern: &NamePattern,
    named: Named,
    text: &[u16],
    row: &mut Vec<bool>,
    out: &mut Vec<Vec<u16>>,
) -> Result<(), AllocError>
    ensures { (w : Word) → IsPatternOf pattern.now w → OnOk result (lists_of out.new.items ≡ lists_of out.old.items ++ name_texts named w text.now) }
{
    let rest = behind_units(text, pattern.head.len());
    glob_texts(alloc, named, pattern.rest.as_slice(), rest, row, out)
}
