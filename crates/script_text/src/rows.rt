//! The rows of a script.

ghost use Rattle.std.specs.Prelude.{◌≡◌, IfOk, map};
ghost use Rattle.text_defs.specs.Escapes.{name_of};
ghost use Rattle.text_defs.specs.Words.{all_of};
ghost use Rattle.text_defs.specs.Rows.{is_interface_word, framework_row, number_as, one_operand, two_operands, float_row};

use crate::escapes::read_name;
use crate::floats::{float_named, gives_wide, takes_one, takes_wides};
use crate::values::{read_wide, read_word};
use dalvik_defs::{FloatOp, FloatRow, FrameworkType};
use dex_base::Text;
use seq::Seq;
use std::alloc::{AllocError, Global};

/// `class` or `interface`.
fn is_interface_word(word: &[u8]) -> Option<bool>
    ensures { result ≡ is_interface_word word.now }
{
    if word == b"class".as_slice() {
        Some(false)
    } else if word == b"interface".as_slice() {
        Some(true)
    } else {
        None
    }
}

/// All the names.
fn all_names(alloc: Global, words: &[&[u8]]) -> Result<Option<Seq<Text>>, AllocError>
    ensures { IfOk result (λ r. r ≡ all_of name_of (map (λ word. word.now) words.now)) }
{
    let mut names = Seq::new(alloc);
    for word in words {
        let Some(name) = read_name(alloc, word)? else {
            return Ok(None);
        };
        names.push(name)?;
    }
    Ok(Some(names))
}

/// A type, what it is, its superclass and its interfaces. The only error is want of memory.
pub fn framework_row(alloc: Global, words: &[&[u8]]) -> Result<Option<FrameworkType>, AllocError>
    ensures { IfOk result (λ r. r ≡ framework_row (map (λ word. word.now) words.now)) }
{
    let [name, which, superclass, interfaces @ ..] = words else {
        return Ok(None);
    };
    let Some(name) = read_name(alloc, name)? else {
        return Ok(None);
    };
    let Some(interface) = is_interface_word(which) else {
        return Ok(None);
    };
    let Some(superclass) = read_name(alloc, superclass)? else {
        return Ok(None);
    };
    let Some(interfaces) = all_names(alloc, interfaces)? else {
        return Ok(None);
    };
    Ok(Some(FrameworkType {
        name,
        interface,
        superclass,
        interfaces,
    }))
}

/// A value of this width.
fn number_as(wide: bool, word: &[u8]) -> Option<u64>
    ensures { result ≡ number_as wide word.now }
{
    if wide {
        return read_wide(word);
    }
    match read_word(word) {
        Some(number) => Some(u64::from(number)),
        None => None,
    }
}

fn one_operand(op: FloatOp, words: &[&[u8]]) -> Option<FloatRow>
    ensures { result ≡ one_operand op (map (λ word. word.now) words.now) }
{
    let [a, answer] = words else {
        return None;
    };
    let a = number_as(takes_wides(op), a)?;
    let answer = number_as(gives_wide(op), answer)?;
    Some(FloatRow {
        op,
        a,
        b: 0,
        result: answer,
    })
}

fn two_operands(op: FloatOp, words: &[&[u8]]) -> Option<FloatRow>
    ensures { result ≡ two_operands op (map (λ word. word.now) words.now) }
{
    let [a, b, answer] = words else {
        return None;
    };
    let a = number_as(takes_wides(op), a)?;
    let b = number_as(takes_wides(op), b)?;
    let answer = number_as(gives_wide(op), answer)?;
    Some(FloatRow {
        op,
        a,
        b,
        result: answer,
    })
}

/// An operation, its operands and its result.
pub fn float_row(words: &[&[u8]]) -> Option<FloatRow>
    ensures { result ≡ float_row (map (λ word. word.now) words.now) }
{
    let [name, numbers @ ..] = words else {
        return None;
    };
    let op = float_named(name)?;
    if takes_one(op) {
        one_operand(op, numbers)
    } else {
        two_operands(op, numbers)
    }
}
