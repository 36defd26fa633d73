//! The table of types, each of which is a string that is a descriptor.

ghost use Rattle.std.specs.Prelude.{◌≡◌, ◌<◌, ◌^◌, List, ℕ, [], All, length, slice_index, IfOk, vec_len};
ghost use Rattle.dex_base.specs.Reading.{Gives, each};
ghost use Rattle.dex_base.specs.Descriptor.{descriptor_of};
ghost use Rattle.dex_pools.specs.Fault.{is_free};
ghost use Rattle.dex_pools.specs.Tables.{text_of, placed, described, type_at, letter_of, letters_of};

use crate::fault::PoolFault;
use crate::header::{Extent, Extents};
use crate::strings::{begin_text, units_len, units_of};
use crate::word::index_of;
use dex_base::{BaseFault, Text, split_descriptor};
use std::alloc::{AllocError, Global};

/// The fault of a descriptor, whose units begin at `begin`.
fn placed(begin: usize, units: &[u16], fault: BaseFault) -> PoolFault
    requires few { length units.now < 2 ^ 32 }
    requires low { begin < 2 ^ 63 }
    ensures { result ≡ placed begin units.now fault }
{
    match fault {
        BaseFault::BadDescriptor { at } => PoolFault::BadDescriptor {
            at: begin + units_len(&units[..at.min(units.len())]),
        },
        other => PoolFault::from(other),
    }
}

/// The number itself, where its text is a descriptor.
fn described(bytes: &[u8], strings: &Extent, number: u32, text: &Text) -> Result<u32, PoolFault>
    requires { length text.now < 2 ^ 32 }
    ensures gives { Gives is_free (λ n. n) result (described bytes.now strings.now number text.now (descriptor_of text.now)) }
    ensures same { IfOk result (λ n. n ≡ number) }
{
    match split_descriptor(text) {
        Ok(_) => Ok(number),
        Err(fault) => {
            let (_, begin) = begin_text(bytes, strings, number)?;
            Err(placed(begin, text.units(), fault))
        }
    }
}

/// The type of this number, which is that of a string with a descriptor.
#[tactic(auto, unfolding(crate::specs::Tables::type_at))]
fn type_of(bytes: &[u8], tables: &Extents, strings: &[Text], i: u32) -> Result<u32, PoolFault>
    requires few { All (λ text. length text < 2 ^ 32) strings.now }
    requires sized { length strings.now ≡ tables.now.strings.size }
    ensures gives { Gives is_free (λ n. n) result (type_at bytes.now tables.now strings.now i) }
    ensures below { IfOk result (λ n. n < tables.now.strings.size) }
{
    let string = index_of(bytes, tables.types.entry(4, i), tables.strings.size)?;
    described(bytes, &tables.strings, string, &strings[string as usize])
}

/// The types of the table. `BadDescriptor` names the byte of the string at which its text can't be a descriptor.
pub fn types_of(
    alloc: Global,
    bytes: &[u8],
    tables: &Extents,
    strings: &[Text],
) -> Result<Vec<u32>, PoolFault>
    requires few { All (λ text. length text < 2 ^ 32) strings.now }
    requires sized { length strings.now ≡ tables.now.strings.size }
    ensures gives { Gives is_free (λ v. v.items) result (each (type_at bytes.now tables.now strings.now) 0 tables.now.types.size) }
    ensures sized { IfOk result (λ v. vec_len v ≡ tables.now.types.size) }
    ensures numbered { IfOk result (λ v. vec_len v < 2 ^ 32) }
    ensures below { IfOk result (λ v. All (λ n. n < tables.now.strings.size) v.items) }
{
    let mut found = Vec::new(alloc);
    for i in 0..tables.types.size {
        let string = type_of(bytes, tables, strings, i)?;
        found.push(string)?;
    }
    Ok(found)
}

/// The letter of a type in a shorty, by its descriptor: `L` for each class and array, else that of the descriptor.
fn letter_of(text: &[u16]) -> u16
    ensures { result ≡ letter_of text.now }
{
    match text {
        [] => 0,
        [91, ..] => 76,
        [unit, ..] => *unit,
    }
}

/// The letter of each type in a shorty.
pub fn letters_of(alloc: Global, strings: &[Text], types: &[u32]) -> Result<Vec<u16>, AllocError>
    ensures { IfOk result (λ v. v.items ≡ letters_of strings.now types.now) }
{
    types
        .iter()
        .map(|number| letter_of(units_of(strings, *number)))
        .collect(alloc)
}
