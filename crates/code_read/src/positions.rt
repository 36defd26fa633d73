//! Which position begins with a unit, and how many begin before it.

ghost use Rattle.std.specs.Prelude.{◌≡◌, ◌+◌, ◌<◌, ◌≤◌, ◌^◌, length, All, IsTrue, IfOk, IfSome, suc, ◌==◌, ◌%◌};
ghost use Rattle.std.specs.List.{list_any};
ghost use Rattle.dex_base.specs.Reading.{Gives};
ghost use Rattle.code_read.specs.Fault.{is_free};
ghost use Rattle.code_read.specs.Positions.{rises_in, IsCounted, count_below, position_of, payload_at, unit_from, position_at, target_from};
ghost use Rattle.code_read.specs.Seen.{seen};
ghost use Rattle.code_read.specs.Sweep.{sweep_of};

use crate::fault::CodeFault;
use crate::places::Places;
use crate::sweep::{Swept, sweep};
use std::alloc::{AllocError, Global};

/// What stands for the target of a branch that goes to no position.
const NOWHERE: u32 = u32::MAX;

/// How many of the ascending starts lie before the next unit, of which so many lie before this one.
fn next_count(starts: &[u32], place: usize, unit: u32) -> usize
    requires rise { IsTrue (rises_in 0 4294967296 starts.now) }
    requires before { place ≡ count_below unit starts.now }
    ensures { result ≡ count_below (suc unit) starts.now }
{
    if place < starts.len() && starts[place] <= unit {
        place + 1
    } else {
        place
    }
}

/// For each unit and the end, how many of the ascending starts lie before it.
fn counts_before(alloc: Global, starts: &[u32], units: u32) -> Result<Vec<u32>, AllocError>
    requires { IsTrue (rises_in 0 units starts.now) }
    ensures is { IfOk result (λ v. IsCounted starts.now v.items) }
    ensures many { IfOk result (λ v. length v.items ≡ units + 1) }
{
    let mut before = Vec::with_capacity(alloc, units as usize + 1)?;
    let mut place = 0;
    before.push(0)?;
    for unit in 0..units {
        place = next_count(starts, place, unit);
        before.push(place as u32)?;
    }
    Ok(before)
}

/// Where the instructions and payloads of the units begin. `Opcode` and `Cut` come in the order of the units.
pub(crate) fn places_in(alloc: Global, units: &[u16]) -> Result<Places<'_>, CodeFault>
    requires { length units.now < 2 ^ 32 }
    ensures gives { Gives is_free seen result (sweep_of units.now) }
    ensures same { IfOk result (λ p. p.units.now ≡ units.now) }
    ensures few { IfOk result (λ p. length p.starts.items ≤ length units.now) }
{
    let Swept {
        starts,
        payloads,
        ..
    } = sweep(alloc, units)?;
    let before = counts_before(alloc, starts.as_slice(), units.len() as u32)?;
    Ok(Places {
        units,
        starts,
        payloads,
        before,
    })
}

/// How many positions begin before the unit, for a unit past the end all.
pub(crate) fn count_before(places: &Places, unit: u64) -> u32
    ensures is { result ≡ count_below unit places.now.starts.items }
    ensures inside { result ≤ length places.now.starts.items }
{
    let before = places.before.as_slice();
    if unit < before.len() as u64 {
        before[unit as usize]
    } else {
        places.starts.len() as u32
    }
}

/// The position that begins with the unit.
pub(crate) fn position_at(places: &Places, unit: u64) -> Option<u32>
    ensures is { result ≡ position_of places.now.starts.items unit }
    ensures inside { IfSome result (λ p. p < length places.now.starts.items) }
{
    let place = count_before(places, unit);
    let starts = places.starts.as_slice();
    let at = place as usize;
    if at < starts.len() && u64::from(starts[at]) == unit {
        Some(place)
    } else {
        None
    }
}

/// The unit so far from `start`, none before the first.
fn unit_from(start: u32, offset: i32) -> Option<u64>
    ensures is { result ≡ unit_from start offset }
    ensures few { IfSome result (λ unit. unit < 2 ^ 33) }
{
    let unit = i64::from(start) + i64::from(offset);
    if unit < 0 { None } else { Some(unit as u64) }
}

/// The position to which an offset leads from `start`, or nowhere.
pub(crate) fn target_from(places: &Places, start: u32, offset: i32) -> u32
    ensures { result ≡ target_from places.now.starts.items start offset }
{
    match unit_from(start, offset) {
        Some(unit) => position_at(places, unit).unwrap_or(NOWHERE),
        None => NOWHERE,
    }
}

/// Whether a payload begins with the unit.
fn is_payload(places: &Places, unit: u64) -> bool
    ensures { result ≡ list_any (λ u. u == unit) places.now.payloads.items }
{
    unit < 0x1_0000_0000
        && places
            .payloads
            .as_slice()
            .binary_search(&(unit as u32))
            .is_ok()
}

/// The unit of the payload that lies so far from `start`, if one begins there and the unit is even.
pub(crate) fn payload_from(places: &Places, start: u32, offset: i32) -> Option<u64>
    ensures { result ≡ payload_at places.now.payloads.items (unit_from start offset) }
{
    match unit_from(start, offset) {
        Some(unit) => {
            if unit % 2 == 0 && is_payload(places, unit) {
                Some(unit)
            } else {
                None
            }
        }
        None => None,
    }
}
