//! The table of strings, and that of types, which are strings.

ghost use Rattle.std.specs.Prelude.{◌≡◌, ◌+◌, ◌*◌, ◌<◌, ◌≤◌, ◌^◌, [], All, length, map, take, slice_index, IfOk, vec_len};
ghost use Rattle.std.specs.List.{flat_map};
ghost use Rattle.dex_base.specs.Reading.{Gives, each};
ghost use Rattle.dex_base.specs.Mutf8.{unit_bytes};
ghost use Rattle.dex_pools.specs.Fault.{is_free, of_base};
ghost use Rattle.dex_pools.specs.Run.{run};
ghost use Rattle.dex_pools.specs.Tables.{begin_of, string_at, text_of};

use crate::fault::PoolFault;
use crate::header::Extent;
use crate::items::take_counted;
use crate::word::{number_of, word_of};
use dex_base::{Text, read_text};
use program_model::Counted;
use std::alloc::Global;

/// How many units the text of this number has, and where they begin.
#[tactic(auto, unfolding(crate::specs::Tables::begin_of))]
pub fn begin_text(bytes: &[u8], strings: &Extent, number: u32) -> Result<(u32, usize), PoolFault>
    ensures gives { Gives is_free (λ r. r) result (begin_of bytes.now strings.now number) }
    ensures inside { IfOk result (λ r. r.1 ≤ length bytes.now) }
{
    let at = word_of(bytes, strings.entry(4, number))?;
    number_of(bytes, at as usize)
}

/// The text of this number. `left` is how many units the texts may have.
#[tactic(auto, unfolding(crate::specs::Tables::string_at))]
fn string_of(
    alloc: Global,
    bytes: &[u8],
    strings: &Extent,
    number: u32,
    left: &mut u32,
) -> Result<Text, PoolFault>
    ensures gives { Gives is_free (λ text. (text, left.new)) result (string_at bytes.now strings.now number left.old) }
    ensures few { IfOk result (λ text. length text < 2 ^ 32) }
{
    let (units, begin) = begin_text(bytes, strings, number)?;
    take_counted(Counted::TextUnits, units, left)?;
    let (text, _) = read_text(alloc, bytes, begin, units)?;
    Ok(text)
}

/// The texts of the table, and how many units they leave.
pub fn strings_of(
    alloc: Global,
    bytes: &[u8],
    strings: &Extent,
    left: &mut u32,
) -> Result<Vec<Text>, PoolFault>
    ensures gives { Gives is_free (λ v. (v.items, left.new)) result (run (string_at bytes.now strings.now) 0 strings.now.size left.old) }
    ensures sized { IfOk result (λ v. vec_len v ≡ strings.now.size) }
    ensures numbered { IfOk result (λ v. vec_len v < 2 ^ 32) }
    ensures few { IfOk result (λ v. All (λ text. length text < 2 ^ 32) v.items) }
{
    let mut found = Vec::new(alloc);
    for i in 0..strings.size {
        let text = string_of(alloc, bytes, strings, i, left)?;
        found.push(text)?;
    }
    Ok(found)
}

/// The units of a text, none where there is no such text.
pub fn units_of(strings: &[Text], number: u32) -> &[u16]
    ensures { result.now ≡ text_of strings.now number }
{
    match strings.get(number as usize) {
        Some(text) => text.units(),
        None => &[],
    }
}

/// How many bytes the spelling of a unit has.
#[tactic(auto, unfolding(dex_base::specs::Mutf8::unit_bytes))]
fn unit_len(unit: u16) -> usize
    ensures value { result ≡ length (unit_bytes unit) }
    ensures few { result ≤ 3 }
{
    match unit {
        0x01..=0x7f => 1,
        0 | 0x80..=0x7ff => 2,
        _ => 3,
    }
}

/// How many bytes the spellings of the units have.
pub fn units_len(units: &[u16]) -> usize
    requires { length units.now < 2 ^ 32 }
    ensures value { result ≡ length (flat_map unit_bytes units.now) }
    ensures few { result ≤ 3 * length units.now }
{
    let mut len = 0;
    for unit in units {
        len += unit_len(*unit);
    }
    len
}
