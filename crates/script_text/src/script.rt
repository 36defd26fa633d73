//! Scripts.

ghost use Rattle.std.specs.Prelude.{◌≡◌, ◌+◌, ◌<◌, ◌^◌, Ok, Some, None, IfOk, IfErr, IsTrue, length, map, option_map, option_and_then, if◌then◌else◌};
ghost use Rattle.text_defs.specs.Words.{words_of};
ghost use Rattle.text_defs.specs.Plays.{line_of, no_play, with_said, with_line, play_from, play_of, IsRefusal};
ghost use Rattle.text_defs.specs.declared.play.ScriptLine.{ScriptLine};
ghost use Rattle.script_text.specs.Named.{Knows, HasNumbers, IsRefusalOf};

use crate::known::known_names;
use crate::moves::read_move;
use crate::names::TypeNames;
use crate::pieces::pieces;
use crate::rows::{float_row, framework_row};
use dalvik_defs::{FloatRow, Floats, Framework, FrameworkType};
use seq::Seq;
use std::alloc::{AllocError, Global};
use text_defs::{Play, ScriptFault, ScriptLine};

/// What a line's words say.
fn read_line(alloc: Global, words: &[&[u8]]) -> Result<Option<ScriptLine>, AllocError>
    ensures { IfOk result (λ r. r ≡ line_of (map (λ word. word.now) words.now)) }
{
    let [name, words @ ..] = words else {
        return Ok(None);
    };
    if *name == b"type".as_slice() {
        return Ok(framework_line(framework_row(alloc, words)?));
    }
    if *name == b"float".as_slice() {
        return Ok(float_line(float_row(words)));
    }
    match read_move(alloc, name, words)? {
        Some(said) => Ok(Some(ScriptLine::Move(said))),
        None => Ok(None),
    }
}

fn framework_line(row: Option<FrameworkType>) -> Option<ScriptLine>
    ensures { result ≡ option_map ScriptLine.Framework row }
{
    match row {
        Some(row) => Some(ScriptLine::Framework(row)),
        None => None,
    }
}

fn float_line(row: Option<FloatRow>) -> Option<ScriptLine>
    ensures { result ≡ option_map ScriptLine.Float row }
{
    match row {
        Some(row) => Some(ScriptLine::Float(row)),
        None => None,
    }
}

/// Adds a type of the framework, and answers whether it may stand there.
fn add_framework_row(
    alloc: Global,
    play: &mut Play,
    names: &mut TypeNames,
    row: FrameworkType,
) -> Result<bool, AllocError>
    requires { Knows names.old play.old.framework.rows }
    ensures said { IfOk result (λ found. with_said play.old (ScriptLine.Framework row) ≡ (if found then Some play.new else None)) }
    ensures knows { IfOk result (λ found. IsTrue found → Knows names.new play.new.framework.rows) }
{
    if play.moves.len() > 0 {
        return Ok(false);
    }
    let name = Vec::from_slice(alloc, row.name.units())?;
    if !names.add(name)? {
        return Ok(false);
    }
    play.framework.rows.push(row)?;
    Ok(true)
}

/// Adds what float arithmetic answers, and answers whether it may stand there.
fn add_float_row(play: &mut Play, row: FloatRow) -> Result<bool, AllocError>
    ensures said { IfOk result (λ found. with_said play.old (ScriptLine.Float row) ≡ (if found then Some play.new else None)) }
    ensures same { IfOk result (λ _. play.new.framework.rows ≡ play.old.framework.rows) }
{
    if play.moves.len() > 0 {
        return Ok(false);
    }
    play.floats.rows.push(row)?;
    Ok(true)
}

/// Adds what a line says, and answers whether it may stand there.
fn add_said(
    alloc: Global,
    play: &mut Play,
    names: &mut TypeNames,
    said: ScriptLine,
) -> Result<bool, AllocError>
    requires { Knows names.old play.old.framework.rows }
    ensures said { IfOk result (λ found. with_said play.old said ≡ (if found then Some play.new else None)) }
    ensures knows { IfOk result (λ found. IsTrue found → Knows names.new play.new.framework.rows) }
{
    match said {
        ScriptLine::Framework(row) => add_framework_row(alloc, play, names, row),
        ScriptLine::Float(row) => add_float_row(play, row),
        ScriptLine::Move(said) => {
            play.moves.push(said)?;
            Ok(true)
        }
    }
}

/// Adds a line that isn't empty, and answers whether it is in the grammar there.
fn add_words(
    alloc: Global,
    play: &mut Play,
    names: &mut TypeNames,
    line: &[u8],
) -> Result<bool, AllocError>
    requires { Knows names.old play.old.framework.rows }
    ensures said { IfOk result (λ found. option_and_then (with_said play.old) (line_of (words_of line.now)) ≡ (if found then Some play.new else None)) }
    ensures knows { IfOk result (λ found. IsTrue found → Knows names.new play.new.framework.rows) }
{
    let words = pieces(alloc, line, b' ')?;
    let Some(said) = read_line(alloc, words.as_slice())? else {
        return Ok(false);
    };
    add_said(alloc, play, names, said)
}

/// Adds a line, and answers whether it is in the grammar there. An empty line says nothing.
fn add_line(
    alloc: Global,
    play: &mut Play,
    names: &mut TypeNames,
    line: &[u8],
) -> Result<bool, AllocError>
    requires { Knows names.old play.old.framework.rows }
    ensures said { IfOk result (λ found. with_line play.old line.now ≡ (if found then Some play.new else None)) }
    ensures knows { IfOk result (λ found. IsTrue found → Knows names.new play.new.framework.rows) }
{
    match line {
        [] => Ok(true),
        _ => add_words(alloc, play, names, line),
    }
}

/// The number of a line in a text of fewer than 2^32 bytes; lines count from 1.
fn line_number(place: usize) -> u32
    requires { place + 1 < 2 ^ 32 }
    ensures { result ≡ place + 1 }
{
    place as u32 + 1
}

/// The play that the lines spell, or the first that is outside the grammar.
fn read_lines(alloc: Global, lines: &[&[u8]]) -> Result<Play, ScriptFault>
    requires { HasNumbers (map (λ line. line.now) lines.now) }
    ensures found { IfOk result (λ play. play_from 1 no_play (map (λ line. line.now) lines.now) ≡ Ok play) }
    ensures refused { IfErr result (IsRefusalOf (map (λ line. line.now) lines.now)) }
{
    let mut names = match known_names(alloc) {
        Ok(names) => names,
        Err(_) => return Err(ScriptFault::NoMemory),
    };
    let mut play = empty_play(alloc);
    for (place, line) in lines.iter().enumerate() {
        match add_line(alloc, &mut play, &mut names, line) {
            Ok(true) => {}
            Ok(false) => {
                return Err(ScriptFault::Line {
                    number: line_number(place),
                });
            }
            Err(_) => return Err(ScriptFault::NoMemory),
        }
    }
    Ok(play)
}

fn empty_play(alloc: Global) -> Play
    ensures { result ≡ no_play }
{
    Play {
        framework: Framework {
            rows: Seq::new(alloc),
        },
        floats: Floats {
            rows: Seq::new(alloc),
        },
        moves: Seq::new(alloc),
    }
}

/// The play that a script spells: a framework, a float table and moves; a text has fewer than 2^32 bytes. The only fault
/// beside want of memory is `Line`, the first line outside the grammar, counted from 1 (this project's profile).
#[tactic(auto, using(crate::proofs::ScriptLemmas::lines_have_numbers))]
pub fn read_script(alloc: Global, text: &[u8]) -> Result<Play, ScriptFault>
    requires { length text.now < 2 ^ 32 }
    ensures found { IfOk result (λ play. play_of text.now ≡ Ok play) }
    ensures refused { IfErr result (IsRefusal text.now) }
{
    let lines = match pieces(alloc, text, b'\n') {
        Ok(lines) => lines,
        Err(_) => return Err(ScriptFault::NoMemory),
    };
    read_lines(alloc, lines.as_slice())
}
