//! The text of an instance.

ghost use Rattle.std.specs.Prelude.{◌≡◌, ◌<◌, ◌++◌, ◌&&◌, [], true, length, nat_le, slice_index_or, IfOk, OnOk};
ghost use Rattle.std.specs.List.{list_any};
ghost use Rattle.if_rules.specs.Instances.{unit_bytes, code_of, code_bytes, utf8, text_of, part_bytes, parts_bytes, words_bytes, is_line, names_line};
ghost use Rattle.if_rules.specs.Lists.{lists_of};
ghost use Rattle.if_rules.specs.Filled.{texts_in};

use if_text::{Part, Source, source_in};
use std::alloc::{AllocError, Global};

/// What the wildcards of a class's name, and of what a line names, matched.
#[derive(Drop)]
pub struct Texts {
    pub name: Vec<Vec<u16>>,
    pub line: Vec<Vec<u16>>,
}

/// Adds a unit that is half of no character of two, in UTF-8.
fn push_unit(out: &mut Vec<u8>, unit: u16) -> Result<(), AllocError>
    ensures { OnOk result (out.new.items ≡ out.old.items ++ unit_bytes unit) }
{
    if unit < 128 {
        out.push(unit as u8)?;
        return Ok(());
    }
    if unit < 2048 {
        out.push((192 + unit / 64) as u8)?;
        out.push((128 + unit % 64) as u8)?;
        return Ok(());
    }
    out.push((224 + unit / 4096) as u8)?;
    out.push((128 + unit / 64 % 64) as u8)?;
    out.push((128 + unit % 64) as u8)?;
    Ok(())
}

/// Adds a character of two units, in UTF-8.
fn push_code(out: &mut Vec<u8>, code: u32) -> Result<(), AllocError>
    requires { code < 2097152 }
    ensures { OnOk result (out.new.items ≡ out.old.items ++ code_bytes code) }
{
    out.push((240 + code / 262_144) as u8)?;
    out.push((128 + code / 4096 % 64) as u8)?;
    out.push((128 + code / 64 % 64) as u8)?;
    out.push((128 + code % 64) as u8)?;
    Ok(())
}

/// The character of two units.
fn code_of(high: u16, low: u16) -> u32
    requires high { (nat_le 55296 high && nat_le high 56319) ≡ true }
    requires low { (nat_le 56320 low && nat_le low 57343) ≡ true }
    ensures is { result ≡ code_of high low }
    ensures small { result < 2097152 }
{
    65_536 + u32::from(high - 0xd800) * 1024 + u32::from(low - 0xdc00)
}

/// Adds the first character of a text, and answers what is behind it.
fn push_first<'t>(out: &mut Vec<u8>, text: &'t [u16]) -> Result<&'t [u16], AllocError>
    ensures is { IfOk result (λ rest. out.new.items ++ utf8 rest.now ≡ out.old.items ++ utf8 text.now) }
    ensures short { IfOk result (λ rest. 0 < length text.now → length rest.now < length text.now) }
{
    match text {
        [high @ 0xd800..=0xdbff, low @ 0xdc00..=0xdfff, behind @ ..] => {
            push_code(out, code_of(*high, *low))?;
            Ok(behind)
        }
        [unit, behind @ ..] => {
            push_unit(out, *unit)?;
            Ok(behind)
        }
        [] => Ok(&[]),
    }
}

/// Adds a text in UTF-8.
fn push_utf8(out: &mut Vec<u8>, text: &[u16]) -> Result<(), AllocError>
    ensures { OnOk result (out.new.items ≡ out.old.items ++ utf8 text.now) }
{
    let mut rest = text;
    while !rest.is_empty() {
        rest = push_first(out, rest)?;
    }
    Ok(())
}

/// The text with a number.
#[tactic(auto, using(crate::proofs::Fills::text_there, crate::proofs::Fills::text_past))]
fn text_at(texts: &[Vec<u16>], place: usize) -> &[u16]
    ensures { result.now ≡ slice_index_or (lists_of texts.now) place [] }
{
    match texts.get(place) {
        Some(text) => text.as_slice(),
        None => &[],
    }
}

/// What a reference stands for.
fn text_of(texts: &Texts, source: Source) -> &[u16]
    ensures { result.now ≡ text_of (texts_in texts.now) source }
{
    match source {
        Source::Nothing => &[],
        Source::Name(place) => text_at(texts.name.as_slice(), place),
        Source::Line(place) => text_at(texts.line.as_slice(), place),
    }
}

/// Adds a part of a word.
fn push_part(
    out: &mut Vec<u8>,
    slots: &[Source],
    texts: &Texts,
    part: Part,
) -> Result<(), AllocError>
    ensures { OnOk result (out.new.items ≡ out.old.items ++ part_bytes slots.now (texts_in texts.now) part) }
{
    match part {
        Part::Byte(byte) => {
            out.push(byte)?;
            Ok(())
        }
        Part::Ref(number) => push_utf8(out, text_of(texts, source_in(slots, number))),
    }
}

/// Adds the parts of a word.
fn push_word(
    out: &mut Vec<u8>,
    slots: &[Source],
    texts: &Texts,
    parts: &[Part],
) -> Result<(), AllocError>
    ensures { OnOk result (out.new.items ≡ out.old.items ++ parts_bytes slots.now (texts_in texts.now) parts.now) }
{
    let mut rest = parts;
    while let [part, behind @ ..] = rest {
        push_part(out, slots, texts, *part)?;
        rest = behind;
    }
    Ok(())
}

/// The words with what their references stand for, each with a blank before it.
pub fn filled(
    alloc: Global,
    slots: &[Source],
    words: &[Vec<Part>],
    texts: &Texts,
) -> Result<Vec<u8>, AllocError>
    ensures { IfOk result (λ out. out.items ≡ words_bytes slots.now (texts_in texts.now) (lists_of words.now)) }
{
    let mut out = Vec::new(alloc);
    let mut rest = words;
    while let [word, behind @ ..] = rest {
        out.push(b' ')?;
        push_word(&mut out, slots, texts, word.as_slice())?;
        rest = behind;
    }
    Ok(out)
}

/// Whether what a reference names is a wildcard of the line.
fn is_line(source: Source) -> bool
    ensures { result ≡ is_line source }
{
    matches!(source, Source::Line(_))
}

/// Whether a part names one.
fn names_line(slots: &[Source], part: Part) -> bool
    ensures { result ≡ names_line slots.now part }
{
    match part {
        Part::Byte(_) => false,
        Part::Ref(number) => is_line(source_in(slots, number)),
    }
}

/// Whether a part of a word names one.
fn word_uses(slots: &[Source], parts: &[Part]) -> bool
    ensures { result ≡ list_any (names_line slots.now) parts.now }
{
    let mut rest = parts;
    while let [part, behind @ ..] = rest {
        if names_line(slots, *part) {
            return true;
        }
        rest = behind;
    }
    false
}

/// Whether some reference in the words names a wildcard of the line.
pub fn uses_line(slots: &[Source], words: &[Vec<Part>]) -> bool
    ensures { result ≡ list_any (λ parts. list_any (names_line slots.now) parts) (lists_of words.now) }
{
    let mut rest = words;
    while let [word, behind @ ..] = rest {
        if word_uses(slots, word.as_slice()) {
            return true;
        }
        rest = behind;
    }
    false
}
