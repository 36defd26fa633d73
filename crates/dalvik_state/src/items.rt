//! What items of arrays and fields hold (Dalvik bytecode, "aget", "aput").

ghost use Rattle.std.specs.Prelude.{◌≡◌, IfOk, map, min, replicate};
ghost use Rattle.dalvik_defs.specs.Items.{stored};
ghost use Rattle.dalvik_defs.specs.Names.{is_wide};
ghost use Rattle.dalvik_lookups.specs.Views.{AreTypes, type_text};
ghost use Rattle.dalvik_state.specs.Frames.{cell, fill_in, filled_in, stored_in, zero_in};
ghost use Rattle.dalvik_state.specs.Worlds.{Array, shape_of};
ghost use Rattle.dalvik_state.specs.Views.{Names, value_of};

use crate::datum::Datum;
use crate::frame::{Frame, write_register};
use crate::state::Tables;
use crate::world::Thing;
use dalvik_lookups::Kind;
use dalvik_numbers::{cut_byte, cut_char, cut_short};
use program_model::Item;
use std::alloc::{AllocError, Global};

/// What is stored of a value in an item of an array or in a field.
pub fn stored(item: Item, datum: Datum) -> Datum
    ensures named { (n : Names) → value_of n result ≡ stored item (value_of n datum) }
    ensures is { result ≡ stored_in item datum }
{
    match item {
        Item::Plain | Item::Wide | Item::Object => datum,
        Item::Boolean => Datum::Word(datum.word() % 256),
        Item::Byte => Datum::Word(cut_byte(datum.word())),
        Item::Char => Datum::Word(cut_char(datum.word())),
        Item::Short => Datum::Word(cut_short(datum.word())),
    }
}

/// The bits of an item, as an array is filled with them.
fn filled(item: Item, bits: u64) -> Datum
    ensures { result ≡ filled_in item bits }
{
    match item {
        Item::Wide => Datum::Low(bits),
        _ => stored(item, Datum::Word((bits % 4294967296) as u32)),
    }
}

/// Fills the first items of an array.
pub(crate) fn fill(items: &mut [Datum], item: Item, numbers: &[u64])
    ensures { items.new ≡ fill_in item numbers.now items.old }
{
    for (place, bits) in numbers.iter().enumerate() {
        write_register(items, place, filled(item, *bits));
    }
}

/// What an item or a field of a type holds before it is written.
pub fn zero_of(tables: &Tables<'_>, kind: Kind) -> Datum
    ensures { AreTypes tables.now.lookups.types → result ≡ zero_in (is_wide (type_text tables.now.lookups.types kind)) }
{
    if tables.lookups.types.is_wide(kind) {
        Datum::Low(0)
    } else {
        Datum::NULL
    }
}

/// An array of so many items, all zero.
pub fn zeros(alloc: Global, tables: &Tables<'_>, kind: Kind, size: u32) -> Result<Thing, AllocError>
    ensures { AreTypes tables.now.lookups.types → IfOk result (λ t. shape_of t ≡ Array kind (replicate size (zero_in (is_wide (type_text tables.now.lookups.types kind))))) }
{
    Ok(Thing::Items {
        kind,
        items: vec![in alloc; zero_of(tables, kind); size as usize]?,
    })
}

/// A length as a word.
pub fn length_word(length: usize) -> u32
    ensures { result ≡ min length 4294967295 }
{
    if length < 4294967295 {
        length as u32
    } else {
        u32::MAX
    }
}

/// What registers hold, in order.
pub fn values_of(alloc: Global, frame: &Frame<'_>, args: &[u16]) -> Result<Vec<Datum>, AllocError>
    ensures { IfOk result (λ values. values.items ≡ map (cell frame.now.registers.items) args.now) }
{
    let mut values = Vec::with_capacity(alloc, args.len())?;
    for register in args {
        values.push(frame.get(*register))?;
    }
    Ok(values)
}
