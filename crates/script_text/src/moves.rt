//! The moves of a script.

ghost use Rattle.std.specs.Prelude.{◌≡◌, Some, None, IfOk, map, option_map, option_and_then};
ghost use Rattle.dalvik_defs.specs.declared.script.Move.{Move};
ghost use Rattle.text_defs.specs.Moves.{enter_of, make_of, throw_of, get_of, stored_of, put_of, array_get_of, array_put_of, array_length_of, move_of};
ghost use Rattle.text_defs.specs.Values.{given_of, perhaps_given};

use crate::digits::read_place;
use crate::escapes::read_name;
use crate::values::{all_givens, perhaps_given, read_given, read_proto};
use crate::words::{front_words, one_word, three_words, two_words};
use dalvik_defs::{Given, Move};
use std::alloc::{AllocError, Global};

fn enter_move(alloc: Global, words: &[&[u8]]) -> Result<Option<Move>, AllocError>
    ensures { IfOk result (λ r. r ≡ enter_of (map (λ word. word.now) words.now)) }
{
    let Some((class, name, proto, values)) = front_words(words) else {
        return Ok(None);
    };
    let Some(class) = read_name(alloc, class)? else {
        return Ok(None);
    };
    let Some(name) = read_name(alloc, name)? else {
        return Ok(None);
    };
    let Some(proto) = read_proto(alloc, proto)? else {
        return Ok(None);
    };
    let Some(values) = all_givens(alloc, values)? else {
        return Ok(None);
    };
    Ok(Some(Move::Enter {
        class,
        name,
        proto,
        values,
    }))
}

fn make_move(alloc: Global, words: &[&[u8]]) -> Result<Option<Move>, AllocError>
    ensures { IfOk result (λ r. r ≡ make_of (map (λ word. word.now) words.now)) }
{
    let Some(class) = one_word(words) else {
        return Ok(None);
    };
    let Some(class) = read_name(alloc, class)? else {
        return Ok(None);
    };
    Ok(Some(Move::Make { class }))
}

fn return_move(alloc: Global, words: &[&[u8]]) -> Result<Option<Move>, AllocError>
    ensures { IfOk result (λ r. r ≡ option_map Move.Return (perhaps_given (map (λ word. word.now) words.now))) }
{
    let Some(value) = perhaps_given(alloc, words)? else {
        return Ok(None);
    };
    Ok(Some(Move::Return { value }))
}

fn throw_move(alloc: Global, words: &[&[u8]]) -> Result<Option<Move>, AllocError>
    ensures { IfOk result (λ r. r ≡ throw_of (map (λ word. word.now) words.now)) }
{
    let Some(value) = one_word(words) else {
        return Ok(None);
    };
    let Some(value) = read_given(alloc, value)? else {
        return Ok(None);
    };
    Ok(Some(Move::Throw { value }))
}

fn get_move(alloc: Global, words: &[&[u8]]) -> Result<Option<Move>, AllocError>
    ensures { IfOk result (λ r. r ≡ get_of (map (λ word. word.now) words.now)) }
{
    let Some((class, name, kind, on)) = front_words(words) else {
        return Ok(None);
    };
    let Some(class) = read_name(alloc, class)? else {
        return Ok(None);
    };
    let Some(name) = read_name(alloc, name)? else {
        return Ok(None);
    };
    let Some(kind) = read_name(alloc, kind)? else {
        return Ok(None);
    };
    let Some(on) = perhaps_given(alloc, on)? else {
        return Ok(None);
    };
    Ok(Some(Move::Get {
        class,
        name,
        kind,
        on,
    }))
}

/// The value alone, or the object and the value.
fn read_stored(alloc: Global, words: &[&[u8]]) -> Result<Option<(Option<Given>, Given)>, AllocError>
    ensures { IfOk result (λ r. r ≡ stored_of (map (λ word. word.now) words.now)) }
{
    if let Some(value) = one_word(words) {
        return read_value(alloc, value);
    }
    let Some((on, value)) = two_words(words) else {
        return Ok(None);
    };
    read_both(alloc, on, value)
}

fn read_value(alloc: Global, value: &[u8]) -> Result<Option<(Option<Given>, Given)>, AllocError>
    ensures { IfOk result (λ r. r ≡ option_map (λ v. (None, v)) (given_of value.now)) }
{
    match read_given(alloc, value)? {
        Some(value) => Ok(Some((None, value))),
        None => Ok(None),
    }
}

fn read_both(
    alloc: Global,
    on: &[u8],
    value: &[u8],
) -> Result<Option<(Option<Given>, Given)>, AllocError>
    ensures { IfOk result (λ r. r ≡ option_and_then (λ o. option_map (λ v. (Some o, v)) (given_of value.now)) (given_of on.now)) }
{
    let Some(on) = read_given(alloc, on)? else {
        return Ok(None);
    };
    let Some(value) = read_given(alloc, value)? else {
        return Ok(None);
    };
    Ok(Some((Some(on), value)))
}

fn put_move(alloc: Global, words: &[&[u8]]) -> Result<Option<Move>, AllocError>
    ensures { IfOk result (λ r. r ≡ put_of (map (λ word. word.now) words.now)) }
{
    let Some((class, name, kind, values)) = front_words(words) else {
        return Ok(None);
    };
    let Some(class) = read_name(alloc, class)? else {
        return Ok(None);
    };
    let Some(name) = read_name(alloc, name)? else {
        return Ok(None);
    };
    let Some(kind) = read_name(alloc, kind)? else {
        return Ok(None);
    };
    let Some((on, value)) = read_stored(alloc, values)? else {
        return Ok(None);
    };
    Ok(Some(Move::Put {
        class,
        name,
        kind,
        on,
        value,
    }))
}

fn array_get_move(alloc: Global, words: &[&[u8]]) -> Result<Option<Move>, AllocError>
    ensures { IfOk result (λ r. r ≡ array_get_of (map (λ word. word.now) words.now)) }
{
    let Some((on, place)) = two_words(words) else {
        return Ok(None);
    };
    let Some(on) = read_given(alloc, on)? else {
        return Ok(None);
    };
    let Some(place) = read_place(place) else {
        return Ok(None);
    };
    Ok(Some(Move::ArrayGet { on, place }))
}

fn array_put_move(alloc: Global, words: &[&[u8]]) -> Result<Option<Move>, AllocError>
    ensures { IfOk result (λ r. r ≡ array_put_of (map (λ word. word.now) words.now)) }
{
    let Some((on, place, value)) = three_words(words) else {
        return Ok(None);
    };
    let Some(on) = read_given(alloc, on)? else {
        return Ok(None);
    };
    let Some(place) = read_place(place) else {
        return Ok(None);
    };
    let Some(value) = read_given(alloc, value)? else {
        return Ok(None);
    };
    Ok(Some(Move::ArrayPut { on, place, value }))
}

fn array_length_move(alloc: Global, words: &[&[u8]]) -> Result<Option<Move>, AllocError>
    ensures { IfOk result (λ r. r ≡ array_length_of (map (λ word. word.now) words.now)) }
{
    let Some(on) = one_word(words) else {
        return Ok(None);
    };
    let Some(on) = read_given(alloc, on)? else {
        return Ok(None);
    };
    Ok(Some(Move::ArrayLength { on }))
}

/// The move of this name and these words. The only error is want of memory.
pub fn read_move(alloc: Global, name: &[u8], words: &[&[u8]]) -> Result<Option<Move>, AllocError>
    ensures { IfOk result (λ r. r ≡ move_of name.now (map (λ word. word.now) words.now)) }
{
    if name == b"enter".as_slice() {
        enter_move(alloc, words)
    } else if name == b"make".as_slice() {
        make_move(alloc, words)
    } else if name == b"return".as_slice() {
        return_move(alloc, words)
    } else if name == b"throw".as_slice() {
        throw_move(alloc, words)
    } else if name == b"get".as_slice() {
        get_move(alloc, words)
    } else if name == b"put".as_slice() {
        put_move(alloc, words)
    } else if name == b"aget".as_slice() {
        array_get_move(alloc, words)
    } else if name == b"aput".as_slice() {
        array_put_move(alloc, words)
    } else if name == b"alen".as_slice() {
        array_length_move(alloc, words)
    } else {
        Ok(None)
    }
}
