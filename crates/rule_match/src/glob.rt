//! What patterns of names match (ProGuard manual, "Class specifications").

ghost use Rattle.std.specs.Prelude.{◌≡◌, ◌+◌, ◌<◌, ℕ, List, [], Bool, true, false, length, drop, slice_index_or, IfOk, OnOk, replicate, IfSome, IfNone, Some, None, if◌then◌else◌, codes};
ghost use Rattle.rule_text.specs.Glob.{read_of, passes_of, begins_pair, unit_then, one_then, star_then, piece_then, is_end, matches_of, behind_of, IsRow};
ghost use Rattle.rule_text.specs.Pieces.{characters, pieces_of};
ghost use Rattle.rule_text.specs.Related.{IsPatternOf};
ghost use Rattle.rule_text.specs.Spelling.{word_eq};
ghost use Rattle.rule_text.specs.Tokens.{Word};
ghost use Rattle.rule_match.specs.Rows.{IsBlank, one_at, is_lone, is_lone_many};

use rule_text::{NamePattern, Named, Piece};
use std::alloc::AllocError;

/// A dot.
const DOT: u16 = 46;
/// What stands in a descriptor for a dot.
const SLASH: u16 = 47;

/// The unit as patterns write it.
fn read(named: Named, unit: u16) -> u16
    ensures { result ≡ read_of named unit }
{
    match named {
        Named::Class if unit == SLASH => DOT,
        _ => unit,
    }
}

/// Whether `?` and `*` match the unit.
fn passes(named: Named, unit: u16) -> bool
    ensures { result ≡ passes_of named unit }
{
    match named {
        Named::Class => unit != SLASH,
        Named::Member => true,
    }
}

/// Whether a character of two units begins the text.
fn begins_pair(text: &[u16]) -> bool
    ensures { result ≡ begins_pair text.now }
{
    matches!(text, [0xd800..=0xdbff, 0xdc00..=0xdfff, ..])
}

/// What is behind the units at the front of the text, none where they don't stand there.
fn behind_head<'t>(named: Named, text: &'t [u16], head: &[u16]) -> Option<&'t [u16]>
    ensures some { IfSome result (λ rest. behind_of named text.now head.now ≡ Some rest.now) }
    ensures none { IfNone result (behind_of named text.now head.now ≡ None) }
{
    let mut rest = text;
    for wanted in head {
        let [unit, behind @ ..] = rest else {
            return None;
        };
        if read(named, *unit) != *wanted {
            return None;
        }
        rest = behind;
    }
    Some(rest)
}

/// One step of the table below for a unit.
fn row_of_unit(named: Named, text: &[u16], row: &mut [bool], unit: u16)
    requires { length row.old ≡ length text.now + 1 }
    ensures size { length row.new ≡ length row.old }
    ensures is { (f : List ℕ → Bool) → IsRow f text.now row.old → IsRow (unit_then named unit f) text.now row.new }
{
    for at in 0..text.len() {
        row[at] = read(named, text[at]) == unit && row[at + 1];
    }
    row[text.len()] = false;
}

/// What the row says of the place behind the character at a place.
fn is_set_behind(text: &[u16], row: &[bool], at: usize) -> bool
    requires inside { at < length text.now }
    requires room { length row.now ≡ length text.now + 1 }
    ensures { result ≡ slice_index_or row.now (at + (if begins_pair (drop at text.now) then 2 else 1)) false }
{
    if begins_pair(&text[at..]) {
        row.get(at + 2).copied().unwrap_or(false)
    } else {
        row[at + 1]
    }
}

/// Whether a character stands at a place that `?` matches, and the row has the place behind it.
fn is_one(named: Named, text: &[u16], row: &[bool], at: usize) -> bool
    requires inside { at < length text.now }
    requires room { length row.now ≡ length text.now + 1 }
    ensures { result ≡ one_at text.now named row.now at }
{
    passes(named, text[at]) && is_set_behind(text, row, at)
}

/// One step for `?`.
fn row_of_one(named: Named, text: &[u16], row: &mut [bool])
    requires { length row.old ≡ length text.now + 1 }
    ensures size { length row.new ≡ length row.old }
    ensures is { (f : List ℕ → Bool) → IsRow f text.now row.old → IsRow (one_then named f) text.now row.new }
{
    for at in 0..text.len() {
        row[at] = is_one(named, text, row, at);
    }
    row[text.len()] = false;
}

/// One step for `*`.
fn row_of_star(named: Named, text: &[u16], row: &mut [bool])
    requires { length row.old ≡ length text.now + 1 }
    ensures size { length row.new ≡ length row.old }
    ensures is { (f : List ℕ → Bool) → IsRow f text.now row.old → IsRow (star_then (passes_of named) f) text.now row.new }
{
    let mut at = text.len();
    while at > 0 {
        at -= 1;
        row[at] = row[at] || passes(named, text[at]) && row[at + 1];
    }
}

/// One step for `**`.
fn row_of_stars(text: &[u16], row: &mut [bool])
    requires { length row.old ≡ length text.now + 1 }
    ensures size { length row.new ≡ length row.old }
    ensures is { (f : List ℕ → Bool) → IsRow f text.now row.old → IsRow (star_then (λ _. true) f) text.now row.new }
{
    let mut at = text.len();
    while at > 0 {
        at -= 1;
        row[at] = row[at] || row[at + 1];
    }
}

/// One step for a piece: from where the pieces behind it match the rest of the text to where it and they do.
fn row_of_piece(named: Named, text: &[u16], row: &mut [bool], piece: Piece)
    requires { length row.old ≡ length text.now + 1 }
    ensures size { length row.new ≡ length row.old }
    ensures is { (f : List ℕ → Bool) → IsRow f text.now row.old → IsRow (piece_then named piece f) text.now row.new }
{
    match piece {
        Piece::Exactly(unit) => row_of_unit(named, text, row, unit),
        Piece::One => row_of_one(named, text, row),
        Piece::Star => row_of_star(named, text, row),
        Piece::Stars => row_of_stars(text, row),
    }
}

/// Fills the row of a pattern: for each place of the text, whether the pieces match the text from there on.
fn fill_row(named: Named, text: &[u16], row: &mut [bool], pieces: &[Piece])
    requires size { length row.old ≡ length text.now + 1 }
    requires blank { IsBlank row.old }
    ensures size { length row.new ≡ length row.old }
    ensures is { IsRow (matches_of named pieces.now) text.now row.new }
{
    row[text.len()] = true;
    let mut at = pieces.len();
    while at > 0 {
        at -= 1;
        row_of_piece(named, text, row, pieces[at]);
    }
}

/// Whether the text ends here.
fn is_end(text: &[u16]) -> bool
    ensures { result ≡ is_end text.now }
{
    matches!(text, [])
}

/// Whether the pieces are `**` alone.
fn is_lone_many(pieces: &[Piece]) -> bool
    ensures { result ≡ is_lone_many pieces.now }
{
    matches!(pieces, [Piece::Stars])
}

/// Makes a row in which no place is set.
fn clear(row: &mut Vec<bool>, size: usize) -> Result<(), AllocError>
    ensures { OnOk result (row.new.items ≡ replicate size false) }
{
    row.clear();
    row.resize(size, false)?;
    Ok(())
}

/// Whether the pieces match the whole text, by a row in which no place is set.
fn matches_by_row(named: Named, text: &[u16], pieces: &[Piece], row: &mut [bool]) -> bool
    requires size { length row.old ≡ length text.now + 1 }
    requires blank { IsBlank row.old }
    ensures { result ≡ matches_of named pieces.now text.now }
{
    fill_row(named, text, row, pieces);
    row[0]
}

/// Whether the pieces match the whole text, in time of the product of their lengths at most. `row` is room to work in.
#[tactic(auto, using(crate::proofs::GlobLemmas::none_ends, crate::proofs::GlobLemmas::stars_lone))]
pub fn matches_pieces(
    named: Named,
    text: &[u16],
    pieces: &[Piece],
    row: &mut Vec<bool>,
) -> Result<bool, AllocError>
    ensures { IfOk result (λ fits. fits ≡ matches_of named pieces.now text.now) }
{
    if pieces.is_empty() {
        return Ok(is_end(text));
    }
    if is_lone_many(pieces) {
        return Ok(true);
    }
    clear(row, text.len() + 1)?;
    Ok(matches_by_row(named, text, pieces, row.as_mut_slice()))
}

/// Whether the pattern has no wildcard.
pub fn is_plain(pattern: &NamePattern) -> bool
    ensures plain { result ≡ true → pattern.now.rest.items ≡ [] }
    ensures wild { result ≡ false → pattern.now.rest.items ≡ [] → ⊥ }
{
    pattern.rest.is_empty()
}

/// Whether the pieces are `*` alone.
fn is_lone_star(pieces: &[Piece]) -> bool
    ensures { result ≡ is_lone pieces.now }
{
    matches!(pieces, [Piece::Star])
}

/// Whether the pattern is `*` alone.
#[tactic(auto, using(crate::proofs::GlobLemmas::star_here, crate::proofs::GlobLemmas::star_not))]
pub fn is_star(pattern: &NamePattern) -> bool
    ensures { (w : Word) → IsPatternOf pattern.now w → result ≡ word_eq (characters w) (codes "*") }
{
    if pattern.head.is_empty() {
        is_lone_star(pattern.rest.as_slice())
    } else {
        false
    }
}

/// Whether the pattern matches the whole text. `row` is room to work in.
#[tactic(auto, using(crate::proofs::GlobLemmas::behind_matches, crate::proofs::GlobLemmas::behind_short, crate::proofs::GlobLemmas::behind_none))]
pub fn matches(
    pattern: &NamePattern,
    named: Named,
    text: &[u16],
    row: &mut Vec<bool>,
) -> Result<bool, AllocError>
    ensures { (w : Word) → IsPatternOf pattern.now w → IfOk result (λ fits. fits ≡ matches_of named (pieces_of (characters w)) text.now) }
{
    let Some(rest) = behind_head(named, text, pattern.head.as_slice()) else {
        return Ok(false);
    };
    if rest.len() < pattern.fewest {
        return Ok(false);
    }
    matches_pieces(named, rest, pattern.rest.as_slice(), row)
}
