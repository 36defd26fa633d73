//! The table of protos.

ghost use Rattle.std.specs.Prelude.{◌≡◌, ◌+◌, ◌*◌, ◌<◌, ◌≤◌, ◌^◌, List, ℕ, [], All, length, slice_index, IfOk, vec_len};
ghost use Rattle.dex_base.specs.Reading.{Gives};
ghost use Rattle.dex_pools.specs.Fault.{is_free};
ghost use Rattle.dex_pools.specs.Run.{run};
ghost use Rattle.dex_pools.specs.InRange.{ProtoInRange};
ghost use Rattle.dex_pools.specs.Tables.{spells_one, spells_all, spells_shorty, parameters_at, proto_at};

use crate::fault::PoolFault;
use crate::header::Extents;
use crate::items::read_type_list;
use crate::strings::units_of;
use crate::word::{index_of, word_of};
use dex_base::Text;
use program_model::Proto;
use seq::Seq;
use std::alloc::Global;

/// The letter of a type in a shorty, by the letters of all types.
pub fn letter_at(letters: &[u16], kind: u32) -> u16
    ensures { result ≡ slice_index letters.now kind }
{
    match letters.get(kind as usize) {
        Some(letter) => *letter,
        None => 0,
    }
}

/// Whether the unit is the letter of the type, which is not `V`.
fn spells_one(letters: &[u16], unit: u16, kind: u32) -> bool
    ensures { result ≡ spells_one letters.now unit kind }
{
    unit == letter_at(letters, kind) && unit != 86
}

/// Whether the units are the letters of the types, none of which is `V`.
fn spells_all(letters: &[u16], units: &[u16], kinds: &[u32]) -> bool
    ensures { result ≡ spells_all letters.now units.now kinds.now }
{
    let mut rest = kinds;
    for unit in units {
        let [kind, more @ ..] = rest else {
            return false;
        };
        if !spells_one(letters, *unit, *kind) {
            return false;
        }
        rest = more;
    }
    rest.is_empty()
}

/// Whether the units are the shorty of the result and the parameters, none of which is `V` (Dalvik executable format,
/// "ShortyDescriptor").
fn spells_shorty(letters: &[u16], units: &[u16], outcome: u32, parameters: &[u32]) -> bool
    ensures { result ≡ spells_shorty letters.now units.now outcome parameters.now }
{
    match units {
        [] => false,
        [unit, rest @ ..] => {
            *unit == letter_at(letters, outcome) && spells_all(letters, rest, parameters)
        }
    }
}

/// The parameters at the offset; the offset 0 stands for none.
#[tactic(auto, unfolding(crate::specs::Tables::parameters_at))]
fn parameters_of(
    alloc: Global,
    bytes: &[u8],
    size: u32,
    offset: u32,
    left: &mut u32,
) -> Result<Vec<u32>, PoolFault>
    ensures gives { Gives is_free (λ v. (v.items, left.new)) result (parameters_at bytes.now size offset left.old) }
    ensures below { IfOk result (λ v. All (λ n. n < size) v.items) }
{
    if offset == 0 {
        Ok(Vec::new(alloc))
    } else {
        read_type_list(alloc, bytes, offset as usize, size, left)
    }
}

/// The proto of this number. `letters` are those of all types.
#[tactic(auto, unfolding(crate::specs::Tables::proto_at))]
fn proto_of(
    alloc: Global,
    bytes: &[u8],
    tables: &Extents,
    strings: &[Text],
    letters: &[u16],
    i: u32,
    left: &mut u32,
) -> Result<Proto, PoolFault>
    ensures gives { Gives is_free (λ p. (p, left.new)) result (proto_at bytes.now tables.now strings.now letters.now i left.old) }
    ensures range { IfOk result (ProtoInRange tables.now.strings.size tables.now.types.size) }
{
    let at = tables.protos.entry(12, i);
    let shorty = index_of(bytes, at, tables.strings.size)?;
    let outcome = index_of(bytes, at + 4, tables.types.size)?;
    let offset = word_of(bytes, at + 8)?;
    let parameters = parameters_of(alloc, bytes, tables.types.size, offset, left)?;
    if !spells_shorty(letters, units_of(strings, shorty), outcome, &parameters) {
        return Err(PoolFault::Shorty { at });
    }
    Ok(Proto {
        shorty,
        result: outcome,
        parameters: Seq::of_vec(parameters),
    })
}

/// The protos of the table. `Shorty` names the entry whose shorty is not that of its result and parameters, or which
/// has a parameter of type `V`.
pub fn protos_of(
    alloc: Global,
    bytes: &[u8],
    tables: &Extents,
    strings: &[Text],
    letters: &[u16],
    left: &mut u32,
) -> Result<Vec<Proto>, PoolFault>
    ensures gives { Gives is_free (λ v. (v.items, left.new)) result (run (proto_at bytes.now tables.now strings.now letters.now) 0 tables.now.protos.size left.old) }
    ensures sized { IfOk result (λ v. vec_len v ≡ tables.now.protos.size) }
    ensures numbered { IfOk result (λ v. vec_len v < 2 ^ 32) }
    ensures range { IfOk result (λ v. All (ProtoInRange tables.now.strings.size tables.now.types.size) v.items) }
{
    let mut found = Vec::new(alloc);
    for i in 0..tables.protos.size {
        let proto = proto_of(alloc, bytes, tables, strings, letters, i, left)?;
        found.push(proto)?;
    }
    Ok(found)
}
